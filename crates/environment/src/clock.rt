use base_lists::NoMemory;
use std::alloc::Global;

/// A clock of the environment.
pub trait Clock: Sized {
    ghost use Rattle.std.specs.Prelude.{◌≡◌, ℕ, List, [], ◌∷◌, ◌++◌, IfOk};

    /// The readings that it gave so far.
    ghost readings: { Self → List ℕ };

    /// A reading, in nanoseconds since 1970. It may be any number: a clock can be set back.
    fn now(&mut self) -> u64
        ensures { readings self.new ≡ readings self.old ++ result ∷ [] };

    /// A further clock of the same kind, for another thread, which has given nothing yet.
    fn twin(&self, alloc: Global) -> Result<Self, NoMemory>
        ensures { IfOk result (λ twin. readings twin ≡ []) };
}
