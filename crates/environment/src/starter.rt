ghost use Rattle.std.specs.Prelude.{◌≡◌, IfOk, IfErr, OnOk, OnErr};
ghost use Rattle.environment.specs.Faults.{Rose};

use crate::job::Job;
use crate::running::Running;
use base_lists::{NoMemory, Tally};
use std::marker::Model;

/// Starts jobs of one kind beside its caller.
pub trait Starter<J: Job>: Sized {
    ghost use Rattle.std.specs.Prelude.{ℕ};

    /// How often it couldn't start one.
    ghost faults: { Self → ℕ };

    /// Starts a job. Where it can't it gives the job back, and has counted it; the caller can do it then.
    fn start(&mut self, job: J) -> Result<Running<J>, J>
        ensures ok { IfOk result (λ running. running ≡ job) }
        ensures quiet { OnOk result (faults self.new ≡ faults self.old) }
        ensures back { IfErr result (λ back. back ≡ job) }
        ensures failed { OnErr result (Rose (faults self.old) (faults self.new)) };

    /// A further starter of the same kind, for another thread, which hasn't failed yet.
    fn twin(&self) -> Result<Self, NoMemory>
        ensures { IfOk result (λ twin. faults twin ≡ 0) };
}

/// A starter in memory: it makes no thread, and does a job at once, so often; from then on it gives jobs back.
#[derive(Drop)]
pub struct MemStarter {
    left: u64,
    faults: Tally,
}

impl Model for MemStarter {
    ghost use Rattle.environment.specs.Starters.{MemStarterView};

    ghost Value = { MemStarterView };

    ghost view = { λ s. record { left = s.left; faults = s.faults } };
}

impl MemStarter {
    /// It does so many jobs.
    pub fn make(jobs: u64) -> MemStarter
        ensures { result ≡ record { left = jobs; faults = 0 } }
    {
        MemStarter {
            left: jobs,
            faults: Tally::zero(),
        }
    }
}

impl<J: Job> Starter<J> for MemStarter {
    ghost faults = { λ s. s.faults };

    fn start(&mut self, job: J) -> Result<Running<J>, J>
        ensures ok { IfOk result (λ running. running ≡ job) }
        ensures quiet { OnOk result (self.new.faults ≡ self.old.faults) }
        ensures back { IfErr result (λ back. back ≡ job) }
        ensures failed { OnErr result (Rose self.old.faults self.new.faults) }
        ensures left { OnErr result (self.old.left ≡ 0) }
    {
        if self.left == 0 {
            self.faults.rise();
            return Err(job);
        }
        self.left -= 1;
        Ok(Running::ended(job))
    }

    fn twin(&self) -> Result<MemStarter, NoMemory>
        ensures { IfOk result (λ twin. (twin.faults ≡ 0) × (twin.left ≡ self.now.left)) }
    {
        Ok(MemStarter::make(self.left))
    }
}
