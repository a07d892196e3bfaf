ghost use Rattle.std.specs.Prelude.{◌≡◌};

use base_lists::NoMemory;
use environment::Failed;

/// Why a call on the wire ended.
#[derive(Clone, Copy, Debug, PartialEq, Eq)]
pub enum WireFaultOut {
    /// The peer would make a window larger than it may be. Nothing was done, and the wire goes on.
    Overflow,
    /// The sink failed, and nothing more is written.
    WriteFault,
    /// Memory ran out, and nothing more is written.
    NoMemory,
}

impl From<Failed> for WireFaultOut {
    ghost use Rattle.h2_send.specs.declared.fault.WireFaultOut.TheVariants.{WriteFault as Unwritten};

    ghost from_gives = { λ _ e. e ≡ Unwritten };

    fn from(_e: Failed) -> WireFaultOut {
        WireFaultOut::WriteFault
    }
}

impl From<NoMemory> for WireFaultOut {
    ghost use Rattle.h2_send.specs.declared.fault.WireFaultOut.TheVariants.{NoMemory as OutOfMemory};

    ghost from_gives = { λ _ e. e ≡ OutOfMemory };

    fn from(_e: NoMemory) -> WireFaultOut {
        WireFaultOut::NoMemory
    }
}
