ghost use Rattle.std.specs.Prelude.{◌≡◌, ◌≤◌, None, false, length, IfOk};

use base_lists::Tally;
use disk_model::Disk;
use environment::Failed;
use std::fs::{File, OpenOptions, TryLockError};
use std::io::{self, ErrorKind};
use std::os::unix::fs::{FileExt, OpenOptionsExt};

/// A file of the process that is used as a disk, and that nobody else uses as one meanwhile. What it holds, and what a stop of
/// the machine leaves of it, it can't tell.
#[derive(Drop)]
pub struct FileDisk {
    file: File,
    faults: Tally,
}

impl FileDisk {
    /// The file of this name, locked against other processes of this program. It is read and written.
    pub fn open(rt: &HostRuntime, name: &str) -> io::Result<FileDisk>
        ensures { IfOk result (λ disk. disk.faults ≡ 0) }
    {
        locked(OpenOptions::new().read(true).write(true).open(rt, name)?)
    }

    /// The same; where there is no file of this name, an empty one is made, which its owner alone may read and write, and
    /// its folder is synced.
    pub fn open_or_make(rt: &HostRuntime, name: &str) -> io::Result<FileDisk>
        ensures { IfOk result (λ disk. disk.faults ≡ 0) }
    {
        let disk = locked(
            OpenOptions::new()
                .read(true)
                .write(true)
                .create(true)
                .mode(0o600)
                .open(rt, name)?,
        )?;
        File::open(rt, folder_of(name))?.sync_all()?;
        Ok(disk)
    }
}

/// The file as a disk, unless another process has locked it.
fn locked(file: File) -> io::Result<FileDisk>
    ensures { IfOk result (λ disk. disk.faults ≡ 0) }
{
    match file.try_lock() {
        Ok(()) => Ok(FileDisk {
            file,
            faults: Tally::zero(),
        }),
        Err(TryLockError::WouldBlock) => {
            Err(io::Error::new(ErrorKind::WouldBlock, "journal in use"))
        }
        Err(TryLockError::Error(error)) => Err(error),
    }
}

/// The folder that the file of this name stands in.
fn folder_of(name: &str) -> &str {
    match name.rfind('/') {
        Some(0) => "/",
        Some(place) => &name[..place],
        None => ".",
    }
}

impl Disk for FileDisk {
    ghost told = { λ _. None };

    ghost faults = { λ d. d.faults };

    ghost fuse = { λ _. record { arming = None; starved = false } };

    fn len(&mut self) -> Result<u64, Failed> {
        match self.file.metadata() {
            Ok(metadata) => Ok(metadata.len()),
            Err(_) => {
                self.faults.rise();
                Err(Failed)
            }
        }
    }

    fn read(&mut self, place: u64, into: &mut [u8]) -> Result<usize, Failed> {
        match read_uninterrupted(&self.file, place, into) {
            Ok(count) => Ok(count),
            Err(_) => {
                self.faults.rise();
                Err(Failed)
            }
        }
    }

    fn write_at(&mut self, place: u64, piece: &[u8]) -> Result<(), Failed> {
        match self.file.write_all_at(piece, place) {
            Ok(()) => Ok(()),
            Err(_) => {
                self.faults.rise();
                Err(Failed)
            }
        }
    }

    fn cut(&mut self, length: u64) -> Result<(), Failed> {
        match cut_off(&self.file, length) {
            Ok(()) => Ok(()),
            Err(_) => {
                self.faults.rise();
                Err(Failed)
            }
        }
    }

    fn sync(&mut self) -> Result<(), Failed> {
        match self.file.sync_data() {
            Ok(()) => Ok(()),
            Err(_) => {
                self.faults.rise();
                Err(Failed)
            }
        }
    }
}

/// A read that a signal interrupts is made again.
fn read_uninterrupted(file: &File, place: u64, into: &mut [u8]) -> Result<usize, Failed>
    ensures { IfOk result (λ count. count ≤ length into.new) }
{
    for _ in 0..u64::MAX {
        match file.read_at(into, place) {
            Ok(count) => return Ok(count),
            Err(error) if error.kind() == ErrorKind::Interrupted => {}
            Err(_) => break,
        }
    }
    Err(Failed)
}

/// Cuts off what is past a length, and nothing of a file that isn't longer.
fn cut_off(file: &File, length: u64) -> io::Result<()> {
    if file.metadata()?.len() > length {
        file.set_len(length)?;
    }
    Ok(())
}
