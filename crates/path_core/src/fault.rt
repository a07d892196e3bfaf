use base_kinds::NoMemory;

#[derive(Clone, Copy, Debug, PartialEq, Eq)]
pub enum PathFault {
    BadPath,
    NoMemory,
}

impl From<NoMemory> for PathFault {
    ghost use Rattle.std.specs.Prelude.{◌≡◌};
    ghost use Rattle.path_core.specs.declared.fault.PathFault.TheVariants.{NoMemory as OutOfMemory};

    ghost from_gives = { λ _ fault. fault ≡ OutOfMemory };

    fn from(_e: NoMemory) -> PathFault {
        PathFault::NoMemory
    }
}
