//! Starters of real threads as starters of one kind of job.
ghost use Rattle.std.specs.Prelude.{◌≡◌, IfOk, IfErr, OnOk, OnErr};
ghost use Rattle.environment.specs.Faults.{Rose};

use crate::starters::ThreadStarter;
use base_lists::NoMemory;
use environment::{Job, Running, Starter};
use std::marker::{Model, PhantomData};
use std::snapshot::Snapshot;
use std::thread::Threads;

/// A job that was started, whichever type it has.
pub trait Started<J: Job>: Sized {
    ghost job: { Self → J };

    fn running(self) -> Running<J>
        ensures { result ≡ job self };
}

impl<J: Job> Started<J> for Running<J> {
    ghost job = { λ running. running };

    fn running(self) -> Running<J> {
        self
    }
}

/// What starts jobs of one kind where it is ready to. What a function does that it holds is no fact of its type.
pub trait Starting<J: Job>: Sized {
    ghost use Rattle.std.specs.Prelude.{ℕ};

    /// How often it couldn't start one.
    ghost faults: { Self → ℕ };

    ghost ready: { Self → Type 0 };

    /// Starts a job, as a `Starter` does.
    fn start(&mut self, job: J) -> Result<Running<J>, J>
        requires ready { ready self.old }
        ensures still { ready self.new }
        ensures ok { IfOk result (λ running. running ≡ job) }
        ensures quiet { OnOk result (faults self.new ≡ faults self.old) }
        ensures back { IfErr result (λ back. back ≡ job) }
        ensures failed { OnErr result (Rose (faults self.old) (faults self.new)) };

    /// A further one for another thread, which hasn't failed yet.
    fn twin(&self) -> Result<Self, NoMemory>
        requires ready { ready self.now }
        ensures faults { IfOk result (λ twin. faults twin ≡ 0) }
        ensures still { IfOk result (λ twin. ready twin) };
}

/// A starter of jobs of one kind, in threads of their own. It holds the function that starts them: what the type parameters of a
/// trait's impl may send to a thread isn't known there, but where the function is made. It is ready where the function starts
/// jobs.
#[derive(Drop)]
pub struct HeldStarter<R, J, K, G> {
    pub threads: ThreadStarter<R>,
    pub start: G,
    pub jobs: PhantomData<Snapshot<(R, J, K)>>,
}

impl<R, J, K, G> HeldStarter<R, J, K, G> {
    /// Of a function that starts jobs.
    pub fn make(threads: ThreadStarter<R>, start: G) -> HeldStarter<R, J, K, G>
        ensures threads { result.threads ≡ threads }
        ensures start { result.start ≡ start }
    {
        HeldStarter {
            threads,
            start,
            jobs: PhantomData,
        }
    }
}

impl<R, J, K, G> Starting<J> for HeldStarter<R, J, K, G>
where
    R: Threads + Clone + Drop,
    J: Job,
    K: Started<J>,
    G: Fn(&mut ThreadStarter<R>, J) -> Result<K, J> + Copy,
{
    ghost use Rattle.std_environment.specs.HeldStarters.{StartsJobs};

    ghost faults = { λ s. s.threads.faults };

    ghost ready = { λ s. StartsJobs K.job G.Fn s.start };

    fn start(&mut self, job: J) -> Result<Running<J>, J> {
        match (self.start)(&mut self.threads, job) {
            Ok(started) => Ok(started.running()),
            Err(back) => Err(back),
        }
    }

    fn twin(&self) -> Result<HeldStarter<R, J, K, G>, NoMemory> {
        let threads = self.threads.twin()?;
        Ok(HeldStarter {
            threads,
            start: self.start,
            jobs: PhantomData,
        })
    }
}

/// A starter of what is ready to start jobs. Contracts see how often it couldn't start one.
#[derive(Drop)]
pub struct ReadyStarter<J: Job, S: Starting<J>> {
    starting: S,
    jobs: PhantomData<Snapshot<J>>,
}

impl<J: Job, S: Starting<J>> Model for ReadyStarter<J, S> {
    ghost use Rattle.std.specs.Prelude.{ℕ};

    ghost Value = { ℕ };

    ghost view = { λ s. S.faults s.starting };

    ghost invariant = { λ s. S.ready s.starting };
}

impl<J: Job, S: Starting<J>> ReadyStarter<J, S> {
    pub fn make(starting: S) -> ReadyStarter<J, S>
        requires { S.ready starting }
        ensures { result ≡ S.faults starting }
    {
        ReadyStarter {
            starting,
            jobs: PhantomData,
        }
    }
}

impl<J: Job, S: Starting<J>> Starter<J> for ReadyStarter<J, S> {
    ghost faults = { λ s. s };

    fn start(&mut self, job: J) -> Result<Running<J>, J> {
        self.starting.start(job)
    }

    fn twin(&self) -> Result<ReadyStarter<J, S>, NoMemory> {
        let starting = self.starting.twin()?;
        Ok(ReadyStarter {
            starting,
            jobs: PhantomData,
        })
    }
}
