ghost use Rattle.std.specs.Prelude.{◌≡◌, Some};
ghost use Rattle.program.specs.Environment.{SeenFiles, TextGives, DiskGives, texts_of, disks_of};
ghost use Rattle.program.specs.Environment.{files_after_disk, files_after_new_disk};

use crate::files_record::FilesRecord;
use base_lists::{Bytes, Copied, Text};
use disk_model::Disk;
use environment::{Failed, ReadFault};
use memory_disks::{Fill, FuseDisk, MemDisk};
use std::alloc::Global;

/// The files of the environment, each by its name.
pub trait Files {
    /// A file that is used as a disk.
    type Disk: Disk + Send + Drop + 'static;

    /// What they were asked for and have given so far, and how often they failed.
    ghost seen: { Self → SeenFiles };

    /// Reads the whole text of the file with this name.
    fn text(&mut self, alloc: Global, name: &str) -> Result<Bytes, ReadFault>
        ensures { TextGives name.now result (seen self.old) (seen self.new) };

    /// Opens the file with this name as a disk, which nobody else may write meanwhile.
    fn disk(&mut self, name: &str) -> Result<Self::Disk, Failed>
        ensures { DiskGives Self.Disk.told Self.Disk.faults files_after_disk name.now result
            (seen self.old) (seen self.new) };

    /// The same, and where there is no file of this name, makes an empty one. Files that tell which disks they hold make none.
    fn new_disk(&mut self, name: &str) -> Result<Self::Disk, Failed>
        ensures { DiskGives Self.Disk.told Self.Disk.faults files_after_new_disk name.now result
            (seen self.old) (seen self.new) };
}

/// A file in memory that is used as a disk: its name, what it holds, and after how many calls the disk stops.
#[derive(Drop)]
pub struct DiskFile {
    pub alloc: Global,
    pub name: Text,
    pub octets: Bytes,
    pub passes: u64,
}

/// Files in memory: one file with this name and text, or none, and one that is used as a disk, or none. Each call gives a
/// disk of its own with the octets of that file. No file is made: where there is none of the name, no disk is given.
#[derive(Drop)]
pub struct MemFiles {
    name: Text,
    text: Option<Bytes>,
    faults: u64,
    disk: Option<DiskFile>,
    disk_faults: u64,
    past: FilesRecord,
}

impl MemFiles {
    pub fn of(name: Text, text: Option<Bytes>, disk: Option<DiskFile>) -> MemFiles {
        MemFiles {
            name,
            text,
            faults: 0,
            disk,
            disk_faults: 0,
            past: FilesRecord::unread(),
        }
    }

    /// How often a text could not be read, for tests.
    pub fn faults(&self) -> u64 {
        self.faults
    }

    /// How often no disk was given, for tests.
    pub fn disk_faults(&self) -> u64 {
        self.disk_faults
    }

    /// A disk with the octets of the file with this name, once it was asked for.
    fn give(&mut self, name: &str) -> Result<FuseDisk, Failed>
        ensures { DiskGives ⟦<FuseDisk as Disk>⟧.told ⟦<FuseDisk as Disk>⟧.faults
            (λ _ files. files) name.now result
            (⟦<MemFiles as Files>⟧.seen self.old) (⟦<MemFiles as Files>⟧.seen self.new) }
    {
        if let Some(file) = &self.disk {
            if name.as_bytes() == file.name.octets() {
                if let Ok(disk) = MemDisk::of(file.alloc, file.octets.items()) {
                    return Ok(FuseDisk::make(disk, file.passes, Fill::Old));
                }
            }
        }
        self.disk_faults = self.disk_faults.saturating_add(1);
        self.past.gave_no_disk();
        Err(Failed)
    }
}

impl Files for MemFiles {
    type Disk = FuseDisk;

    ghost seen = { λ f. record f.past {
      held = Some (texts_of f.name f.text);
      disks_held = Some (disks_of f.disk);
    } };

    fn text(&mut self, alloc: Global, name: &str) -> Result<Bytes, ReadFault> {
        self.past.asked(name);
        if let Some(text) = &self.text {
            if name.as_bytes() == self.name.octets() {
                let copied = text.copy(alloc)?;
                self.past.gave(name, copied.items());
                return Ok(copied);
            }
        }
        self.faults = self.faults.saturating_add(1);
        self.past.failed();
        Err(ReadFault::Failed)
    }

    fn disk(&mut self, name: &str) -> Result<FuseDisk, Failed> {
        self.past.asked_for_disk(name);
        self.give(name)
    }

    fn new_disk(&mut self, name: &str) -> Result<FuseDisk, Failed> {
        self.past.asked_for_new_disk(name);
        self.give(name)
    }
}
