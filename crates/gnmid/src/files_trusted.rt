ghost use Rattle.std.specs.Prelude.{None};

use crate::disks_trusted::FileDisk;
use base_lists::Bytes;
use environment::{Failed, ReadFault};
use program::{Files, FilesRecord};
use std::alloc::Global;
use std::fs;
use std::io::{self, ErrorKind};
use std_environment::say_fault;

/// The files of the process, by their paths. What they were asked for and have given is recorded; which texts and disks there
/// are they can't tell.
#[derive(Drop)]
pub struct ProcessFiles {
    rt: HostRuntime,
    past: FilesRecord,
}

impl ProcessFiles {
    pub fn of(rt: &HostRuntime) -> ProcessFiles {
        ProcessFiles {
            rt: *rt,
            past: FilesRecord::unread(),
        }
    }

    fn say(&self, name: &str, error: &io::Error) {
        say_fault(&self.rt, "cannot open", name, error);
    }
}

impl Files for ProcessFiles {
    type Disk = FileDisk;

    ghost seen = { λ f. record f.past { held = None; disks_held = None } };

    fn text(&mut self, alloc: Global, name: &str) -> Result<Bytes, ReadFault> {
        let _ = alloc;
        self.past.asked(name);
        match fs::read(&self.rt, name) {
            Ok(octets) => {
                let text = Bytes::from_vec(octets);
                self.past.gave(name, text.items());
                Ok(text)
            }
            Err(error) => {
                if error.kind() == ErrorKind::OutOfMemory {
                    return Err(ReadFault::NoMemory);
                }
                self.say(name, &error);
                self.past.failed();
                Err(ReadFault::Failed)
            }
        }
    }

    fn disk(&mut self, name: &str) -> Result<FileDisk, Failed> {
        self.past.asked_for_disk(name);
        match FileDisk::open(&self.rt, name) {
            Ok(disk) => Ok(disk),
            Err(error) => {
                self.say(name, &error);
                self.past.gave_no_disk();
                Err(Failed)
            }
        }
    }

    fn new_disk(&mut self, name: &str) -> Result<FileDisk, Failed> {
        self.past.asked_for_new_disk(name);
        match FileDisk::open_or_make(&self.rt, name) {
            Ok(disk) => Ok(disk),
            Err(error) => {
                self.say(name, &error);
                self.past.gave_no_disk();
                Err(Failed)
            }
        }
    }
}
