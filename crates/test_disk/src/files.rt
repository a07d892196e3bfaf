//! A file as a disk, which tells nothing of its content.
ghost use Rattle.std.specs.Prelude.{None, false};
ghost use Rattle.environment.specs.Faults.{Rose};

use base_lists::Tally;
use disk_model::{Disk, put_synced, read_part, read_whole};
use environment::Failed;
use std::alloc::Global;
use std::fs::{self, File, OpenOptions};
use std::io;
use std::os::unix::fs::FileExt;

#[derive(Drop)]
struct FileDisk {
    file: File,
    faults: Tally,
}

impl FileDisk {
    fn fail(&mut self) -> Failed
        ensures { Rose self.old.faults self.new.faults }
    {
        self.faults.rise();
        Failed
    }
}

impl Disk for FileDisk {
    ghost told = { λ d. None };

    ghost faults = { λ d. d.faults };

    ghost fuse = { λ d. record { arming = None; starved = false } };

    fn len(&mut self) -> Result<u64, Failed> {
        match self.file.metadata() {
            Ok(metadata) => Ok(metadata.len()),
            Err(_) => Err(self.fail()),
        }
    }

    fn read(&mut self, place: u64, into: &mut [u8]) -> Result<usize, Failed> {
        match self.file.read_at(into, place) {
            Ok(count) => Ok(count),
            Err(_) => Err(self.fail()),
        }
    }

    fn write_at(&mut self, place: u64, piece: &[u8]) -> Result<(), Failed> {
        match self.file.write_all_at(piece, place) {
            Ok(()) => Ok(()),
            Err(_) => Err(self.fail()),
        }
    }

    fn cut(&mut self, length: u64) -> Result<(), Failed> {
        if length >= self.len()? {
            return Ok(());
        }
        match self.file.set_len(length) {
            Ok(()) => Ok(()),
            Err(_) => Err(self.fail()),
        }
    }

    fn sync(&mut self) -> Result<(), Failed> {
        match self.file.sync_all() {
            Ok(()) => Ok(()),
            Err(_) => Err(self.fail()),
        }
    }
}

/// Whether `abcd` is written at 2, and only a cut to less than its length shortens the file.
fn is_written_and_cut(disk: &mut FileDisk) -> bool {
    put_synced(disk, 2, b"abcd") == Ok(())
        && disk.cut(9) == Ok(())
        && disk.cut(5) == Ok(())
        && disk.sync() == Ok(())
}

fn is_read(alloc: Global, disk: &mut FileDisk, octets: &[u8]) -> bool {
    match read_whole(alloc, disk) {
        Ok(read) => read.items() == octets,
        Err(_) => false,
    }
}

fn is_read_at(alloc: Global, disk: &mut FileDisk, place: u32, octets: &[u8]) -> bool {
    match read_part(alloc, disk, u64::from(place), 3) {
        Ok(read) => read.items() == octets,
        Err(_) => false,
    }
}

/// Whether a file is written, synced, cut and read as a disk.
fn serves_as_disk(alloc: Global, file: File) -> bool {
    let mut disk = FileDisk {
        file,
        faults: Tally::zero(),
    };
    is_written_and_cut(&mut disk)
        && is_read(alloc, &mut disk, b"\0\0abc")
        && is_read_at(alloc, &mut disk, 1, b"\0ab")
}

#[test]
fn a_file_is_written_synced_cut_and_read(rt: HostRuntime) -> io::Result<()> {
    let file = OpenOptions::new()
        .read(true)
        .write(true)
        .create(true)
        .truncate(true)
        .open(&rt, "disk_tests_file_disk")?;
    assert!(rt; serves_as_disk(rt.alloc(), file));
    fs::remove_file(&rt, "disk_tests_file_disk")
}
