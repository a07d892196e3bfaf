use base_kinds::NoMemory;

/// Why a tree isn't taken.
#[derive(Clone, Copy, Debug, PartialEq, Eq)]
pub enum CheckFault {
    TreeInvalid,
    TreeFull,
    NoMemory,
}

impl From<NoMemory> for CheckFault {
    ghost use Rattle.std.specs.Prelude.{◌≡◌};
    ghost use Rattle.tree_check.specs.declared.fault.CheckFault.TheVariants.{NoMemory as OutOfMemory};

    ghost from_gives = { λ _ fault. fault ≡ OutOfMemory };

    fn from(_e: NoMemory) -> CheckFault {
        CheckFault::NoMemory
    }
}
