ghost use Rattle.std.specs.Prelude.{◌≡◌, [], ◌∷◌, ◌++◌, IfOk};

use base_lists::{NoMemory, Remembered};
use environment::Clock;
use std::alloc::Global;
use std::marker::Model;

/// A clock that always reads 1000.
#[derive(Drop)]
pub(crate) struct SteadyClock {
    given: Remembered<u64>,
}

impl Model for SteadyClock {
    ghost use Rattle.std.specs.Prelude.{ℕ, List};
    ghost use Rattle.program.specs.LoadRun.{AreSteady};

    ghost Value = { List ℕ };

    ghost view = { λ c. c.given };

    ghost invariant = { λ c. AreSteady c.given };
}

impl SteadyClock {
    pub(crate) fn make() -> SteadyClock
        ensures { result ≡ [] }
    {
        SteadyClock {
            given: Remembered::nothing(),
        }
    }
}

impl Clock for SteadyClock {
    ghost readings = { λ c. c };

    fn now(&mut self) -> u64
        ensures given { self.new ≡ self.old ++ result ∷ [] }
        ensures steady { result ≡ 1000 }
    {
        let reading = 1000;
        self.given.remember(&reading);
        reading
    }

    fn twin(&self, _alloc: Global) -> Result<SteadyClock, NoMemory>
        ensures { IfOk result (λ twin. twin ≡ []) }
    {
        Ok(SteadyClock::make())
    }
}
