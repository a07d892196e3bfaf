ghost use Rattle.std.specs.Prelude.{◌≡◌, OnOk, OnErr, IfSome};
ghost use Rattle.disk_model.specs.Arming.{with_failure, with_stop};
ghost use Rattle.disk_model.specs.Calls.{armed_with, starved};
ghost use Rattle.book_core.specs.Views.{BookView};

use crate::book::Book;
use base_kinds::{Fill, TreeLike};
use base_lists::NoMemory;
use disk_model::Armed;

impl<D: Armed, T: TreeLike + Drop> Book<D, T> {
    /// Lets the disk fail in the call after this many, counted once all failures have hit that wait
    /// already.
    pub fn fail_after(&mut self, passes: u64) -> Result<(), NoMemory>
        ensures ok { OnOk result (D.fuse self.new.disk
            ≡ armed_with (with_failure passes) (D.fuse self.old.disk)) }
        ensures err { OnErr result (D.fuse self.new.disk ≡ starved (D.fuse self.old.disk)) }
        ensures told { D.told self.new.disk ≡ D.told self.old.disk }
        ensures faults { D.faults self.new.disk ≡ D.faults self.old.disk }
        ensures same { self.new ≡ record self.old { disk = self.new.disk } }
    {
        self.ledger.fail_after(passes)
    }

    /// Lets the disk stop in the call after this many, counted once all stops have hit that wait
    /// already.
    pub fn stop_after(&mut self, passes: u64, fill: Fill) -> Result<(), NoMemory>
        ensures ok { OnOk result (D.fuse self.new.disk
            ≡ armed_with (with_stop passes fill) (D.fuse self.old.disk)) }
        ensures err { OnErr result (D.fuse self.new.disk ≡ starved (D.fuse self.old.disk)) }
        ensures told { D.told self.new.disk ≡ D.told self.old.disk }
        ensures faults { D.faults self.new.disk ≡ D.faults self.old.disk }
        ensures same { self.new ≡ record self.old { disk = self.new.disk } }
    {
        self.ledger.stop_after(passes, fill)
    }

    /// Whether the disk has stopped.
    pub fn stopped(&self) -> bool
        ensures { IfSome (D.fuse self.now.disk).arming (λ arming. result ≡ arming.stopped) }
    {
        self.ledger.stopped()
    }

    /// Whether the disk has failed for want of memory.
    pub fn starved(&self) -> bool
        ensures { result ≡ (D.fuse self.now.disk).starved }
    {
        self.ledger.starved()
    }
}
