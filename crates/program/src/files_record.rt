ghost use Rattle.std.specs.Prelude.{◌≡◌};
ghost use Rattle.program.specs.Environment.{unread_files, files_after_ask, files_with_text, files_with_fault};
ghost use Rattle.program.specs.Environment.{files_after_disk, files_after_new_disk, files_with_disk_fault};

use base_lists::{Remembered, Tally, remember_all};
use std::marker::Model;

/// A text and the name of its file, for contracts alone.
#[derive(Drop)]
pub struct NamedText {
    name: Remembered<u8>,
    text: Remembered<u8>,
}

/// What files were asked for and have given, for contracts alone: nothing of it is kept at run time.
#[derive(Drop)]
pub struct FilesRecord {
    asked: Remembered<Remembered<u8>>,
    given: Remembered<NamedText>,
    faults: Tally,
    disks_asked: Remembered<Remembered<u8>>,
    new_disks_asked: Remembered<Remembered<u8>>,
    disk_faults: Tally,
}

impl Model for FilesRecord {
    ghost use Rattle.std.specs.Prelude.{None};
    ghost use Rattle.program.specs.Environment.{SeenFiles};

    ghost Value = { SeenFiles };

    ghost view = { λ r. record {
      asked = r.asked;
      given = r.given;
      faults = r.faults;
      held = None;
      disks_asked = r.disks_asked;
      new_disks_asked = r.new_disks_asked;
      disk_faults = r.disk_faults;
      disks_held = None;
    } };
}

impl FilesRecord {
    pub fn unread() -> FilesRecord
        ensures { result ≡ unread_files }
    {
        FilesRecord {
            asked: Remembered::nothing(),
            given: Remembered::nothing(),
            faults: Tally::zero(),
            disks_asked: Remembered::nothing(),
            new_disks_asked: Remembered::nothing(),
            disk_faults: Tally::zero(),
        }
    }

    /// The file with this name is asked for.
    pub fn asked(&mut self, name: &str)
        ensures { self.new ≡ files_after_ask name.now self.old }
    {
        let mut octets = Remembered::nothing();
        remember_all(&mut octets, name.as_bytes());
        self.asked.remember(&octets);
    }

    /// The file with this name has given this text.
    pub fn gave(&mut self, name: &str, text: &[u8])
        ensures { self.new ≡
            files_with_text (record { name = name.now; text = text.now }) self.old }
    {
        let mut named = NamedText {
            name: Remembered::nothing(),
            text: Remembered::nothing(),
        };
        remember_all(&mut named.name, name.as_bytes());
        remember_all(&mut named.text, text);
        self.given.remember(&named);
    }

    /// The file with this name, which has to be there, is asked for as a disk.
    pub fn asked_for_disk(&mut self, name: &str)
        ensures { self.new ≡ files_after_disk name.now self.old }
    {
        let mut octets = Remembered::nothing();
        remember_all(&mut octets, name.as_bytes());
        self.disks_asked.remember(&octets);
    }

    /// The file with this name is asked for as a disk, and is made where it isn't there.
    pub fn asked_for_new_disk(&mut self, name: &str)
        ensures { self.new ≡ files_after_new_disk name.now self.old }
    {
        let mut octets = Remembered::nothing();
        remember_all(&mut octets, name.as_bytes());
        self.new_disks_asked.remember(&octets);
    }

    /// No disk was given.
    pub fn gave_no_disk(&mut self)
        ensures { self.new ≡ files_with_disk_fault self.old }
    {
        self.disk_faults.rise();
    }

    /// A file has failed.
    pub fn failed(&mut self)
        ensures { self.new ≡ files_with_fault self.old }
    {
        self.faults.rise();
    }
}
