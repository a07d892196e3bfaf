ghost use Rattle.std.specs.Prelude.{◌≡◌};
ghost use Rattle.journal_record.specs.declared.fault.RecordFault.TheVariants.{NoMemory as OutOfMemory};

use base_lists::NoMemory;

/// Why no record was read.
#[derive(Clone, Copy, Debug, PartialEq, Eq)]
pub enum RecordFault {
    /// No record stands at the front of the octets.
    NoRecord,
    NoMemory,
}

impl From<NoMemory> for RecordFault {
    ghost from_gives = { λ _ e. e ≡ OutOfMemory };

    fn from(_e: NoMemory) -> RecordFault {
        RecordFault::NoMemory
    }
}
