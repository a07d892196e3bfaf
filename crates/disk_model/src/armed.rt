ghost use Rattle.std.specs.Prelude.{◌≡◌, IsSome, IfSome, OnOk, OnErr};
ghost use Rattle.disk_model.specs.Arming.{with_failure, with_stop};
ghost use Rattle.disk_model.specs.Calls.{Fuse, armed_with, starved};

use crate::disk::Disk;
use base_kinds::Fill;
use base_lists::NoMemory;

/// A disk that can be armed to fail and to stop. Arming changes no image, nothing that a read gives,
/// and no count of faults.
pub trait Armed: Disk {
    /// Whether it has failed for want of memory.
    fn starved(&self) -> bool
        ensures { result ≡ (Self.fuse self.now).starved };

    /// Whether it has stopped.
    fn stopped(&self) -> bool
        ensures { IfSome (Self.fuse self.now).arming (λ arming. result ≡ arming.stopped) };

    /// Fails in the call after this many, counted once all failures have hit that wait already.
    fn fail_after(&mut self, passes: u64) -> Result<(), NoMemory>
        ensures ok { OnOk result
            (Self.fuse self.new ≡ armed_with (with_failure passes) (Self.fuse self.old)) }
        ensures err { OnErr result (Self.fuse self.new ≡ starved (Self.fuse self.old)) }
        ensures told { Self.told self.new ≡ Self.told self.old }
        ensures faults { Self.faults self.new ≡ Self.faults self.old };

    /// Stops in the call after this many, counted once all stops have hit that wait already.
    fn stop_after(&mut self, passes: u64, fill: Fill) -> Result<(), NoMemory>
        ensures ok { OnOk result
            (Self.fuse self.new ≡ armed_with (with_stop passes fill) (Self.fuse self.old)) }
        ensures err { OnErr result (Self.fuse self.new ≡ starved (Self.fuse self.old)) }
        ensures told { Self.told self.new ≡ Self.told self.old }
        ensures faults { Self.faults self.new ≡ Self.faults self.old };

    /// It can be armed.
    ghost is_armed: { (d : Self) → IsSome (Self.fuse d).arming };
}
