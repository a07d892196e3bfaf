ghost use Rattle.std.specs.Prelude.{◌≡◌, IfOk};
ghost use Rattle.std.specs.Duration.{as_nanos};

use base_lists::NoMemory;
use environment::Pacer;
use std::marker::Model;
use std::thread;
use std::time::Duration;

/// A pacer whose thread sleeps. Contracts see how long, in nanoseconds.
#[derive(Drop)]
pub struct SleepingPacer {
    rt: HostRuntime,
    length: Duration,
}

impl Model for SleepingPacer {
    ghost use Rattle.std.specs.Prelude.{ℕ};
    ghost use Rattle.std.specs.Duration.{as_nanos};

    ghost Value = { ℕ };

    ghost view = { λ p. as_nanos p.length };
}

impl SleepingPacer {
    /// It sleeps so long in each pause.
    pub fn of(rt: &HostRuntime, length: Duration) -> SleepingPacer
        ensures { result ≡ as_nanos length }
    {
        SleepingPacer { rt: *rt, length }
    }
}

impl Pacer for SleepingPacer {
    /// Sleeps at least so long.
    fn pause(&mut self)
        ensures { self.new ≡ self.old }
    {
        thread::sleep(&self.rt, self.length)
    }

    /// It sleeps as long. Takes no memory.
    fn twin(&self) -> Result<SleepingPacer, NoMemory>
        ensures { IfOk result (λ twin. twin ≡ self.now) }
    {
        Ok(SleepingPacer::of(&self.rt, self.length))
    }
}
