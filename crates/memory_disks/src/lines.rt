ghost use Rattle.std.specs.Prelude.{◌≡◌, [], OnOk, OnErr};
ghost use Rattle.disk_model.specs.Arming.{arming_after, outcome_of, restarted};
ghost use Rattle.disk_model.specs.Arming.{with_failure, with_stop};
ghost use Rattle.memory_disks.specs.Fuses.{first_arming};

use crate::queue::Queue;
use base_kinds::Fill;
use base_lists::NoMemory;
use disk_model::Outcome;
use std::alloc::Global;
use std::marker::Model;

/// The lines that wait for a disk's calls, and whether it has stopped.
#[derive(Drop)]
pub(crate) struct Lines {
    stops: Queue<Fill>,
    fails: Queue<()>,
    stopped: bool,
}

impl Model for Lines {
    ghost use Rattle.disk_model.specs.Arming.{Arming};

    ghost Value = { Arming };

    ghost view = { λ l. record { stops = l.stops; fails = l.fails; stopped = l.stopped } };
}

/// The number of calls of a disk that is made without a stop.
pub const NO_STOP: u64 = 18446744073709551615;

impl Lines {
    /// Stops in the call after this many, or never. Takes no memory.
    pub(crate) fn first(alloc: Global, passes: u64, fill: Fill) -> Lines
        ensures { result ≡ first_arming passes fill }
    {
        let stops = if passes == NO_STOP {
            Queue::empty(alloc)
        } else {
            Queue::of(alloc, passes, fill)
        };
        Lines {
            stops,
            fails: Queue::empty(alloc),
            stopped: false,
        }
    }

    /// What the next call does, which is this one.
    pub(crate) fn call(&mut self) -> Outcome
        ensures outcome { result ≡ outcome_of self.old }
        ensures after { self.new ≡ arming_after self.old }
    {
        if self.stopped {
            return Outcome::Fails;
        }
        let stop = self.stops.call();
        let failure = self.fails.call();
        self.stopped = stop.is_some();
        match (stop, failure) {
            (Some(fill), _) => Outcome::Stops(fill),
            (None, Some(())) => Outcome::Fails,
            (None, None) => Outcome::Passes,
        }
    }

    pub(crate) fn stopped(&self) -> bool
        ensures { result ≡ self.now.stopped }
    {
        self.stopped
    }

    /// The same lines for a disk that has not stopped.
    pub(crate) fn restarted(self) -> Lines
        ensures { result ≡ restarted self }
    {
        Lines {
            stops: self.stops,
            fails: self.fails,
            stopped: false,
        }
    }

    pub(crate) fn fail_after(&mut self, passes: u64) -> Result<(), NoMemory>
        ensures ok { OnOk result (self.new ≡ with_failure passes self.old) }
        ensures err { OnErr result (self.new ≡ self.old) }
    {
        self.fails.add(passes, ())
    }

    pub(crate) fn stop_after(&mut self, passes: u64, fill: Fill) -> Result<(), NoMemory>
        ensures ok { OnOk result (self.new ≡ with_stop passes fill self.old) }
        ensures err { OnErr result (self.new ≡ self.old) }
    {
        self.stops.add(passes, fill)
    }
}
