ghost use Rattle.std.specs.Prelude.{◌≡◌};

use environment::Failed;

/// Why no journal was made.
#[derive(Clone, Copy, Debug, PartialEq, Eq)]
pub enum CreateFault {
    /// The disk has octets. Nothing was written.
    NotEmpty,
    /// A call of the disk failed. What it holds then may be torn.
    DiskFault,
    /// Nothing was written.
    NoMemory,
}

impl From<Failed> for CreateFault {
    ghost use Rattle.commit_journal.specs.declared.faults.CreateFault.TheVariants.{DiskFault as AtDisk};

    ghost from_gives = { λ _ e. e ≡ AtDisk };

    fn from(_e: Failed) -> CreateFault {
        CreateFault::DiskFault
    }
}

/// Why an entry isn't sure to stand in the journal.
#[derive(Clone, Copy, Debug, PartialEq, Eq)]
pub enum LedgerFault {
    /// A call of the disk failed. `Ledger::in_doubt` tells whether the entry may stand.
    DiskFault,
    /// Nothing was written.
    NoMemory,
}

impl From<Failed> for LedgerFault {
    ghost use Rattle.commit_journal.specs.declared.faults.LedgerFault.TheVariants.{DiskFault as AtDisk};

    ghost from_gives = { λ _ e. e ≡ AtDisk };

    fn from(_e: Failed) -> LedgerFault {
        LedgerFault::DiskFault
    }
}
