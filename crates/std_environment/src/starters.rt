//! Threads.
ghost use Rattle.std.specs.Prelude.{◌≡◌, ◌+◌, ◌↔◌, [], Err, IfOk, IfErr, IsTrue};
ghost use Rattle.environment.specs.Memory.{IsToFail};
ghost use Rattle.std_environment.specs.Starters.{Starts, new_starter, starter_after};

use base_lists::{Bytes, Copied, NoMemory, Tally, Texts};
use environment::{Job, MemSource, Running, Source, join_done};
use std::alloc::Global;
use std::marker::Model;
use std::thread::{Promise, PromisedHandle, Threads, spawn_with};

/// Starts work in threads of its own, and counts the work that it gives back. For tests it can be told to refuse calls by their
/// numbers, from 1, in decimal and without leading zeros; in the program it refuses none.
#[derive(Drop)]
pub struct ThreadStarter<R> {
    rt: R,
    alloc: Global,
    /// It is read once in each call, and fails where the call is to be refused.
    own: MemSource,
    twins: Texts,
    faults: Tally,
}

impl<R> Model for ThreadStarter<R> {
    ghost use Rattle.std_environment.specs.Starters.{StarterView};

    ghost Value = { StarterView };

    ghost view = { λ s. record {
      calls = s.own.calls;
      own = s.own.fails;
      twins = s.twins;
      faults = s.faults;
    } };
}

impl<R: Threads + Clone + Drop> ThreadStarter<R> {
    /// It refuses no call, nor do its twins. Takes no memory.
    pub fn make(rt: R, alloc: Global) -> ThreadStarter<R>
        ensures { result ≡ new_starter [] [] }
    {
        ThreadStarter::refusing(rt, alloc, Texts::empty(alloc), Texts::empty(alloc))
    }

    /// It refuses its own calls with the numbers in `own`, and its twins, and theirs, those of their own with the numbers in
    /// `twins`. Takes no memory.
    pub fn refusing(rt: R, alloc: Global, own: Texts, twins: Texts) -> ThreadStarter<R>
        ensures { result ≡ new_starter own twins }
    {
        ThreadStarter {
            rt,
            alloc,
            own: MemSource::make(Bytes::empty(alloc), own),
            twins,
            faults: Tally::zero(),
        }
    }

    /// Whether the call that comes is to be refused.
    fn refuses(&mut self) -> bool
        ensures refused { IsTrue result ↔ IsToFail self.old.own self.old.calls }
        ensures counted { self.new ≡ starter_after self.old self.old.faults }
    {
        self.own.read(&mut []).is_err()
    }

    /// Counts work that is given back.
    fn given_back<T, W>(&mut self, work: W) -> Result<T, W>
        ensures work { result ≡ Err work }
        ensures counted { self.new ≡ record self.old { faults = self.old.faults + 1 } }
    {
        self.faults.rise();
        Err(work)
    }

    /// Starts a thread for a job. The job is given back where the call is to be refused, and else where the system makes no
    /// thread, or memory is wanting; the caller can do it then.
    pub fn start<J: Job + Send + Drop + 'static>(&mut self, job: J) -> Result<Running<J>, J>
    where
        J::Done: Send + Drop + 'static,
        ensures ok { IfOk result (λ running. running ≡ job) }
        ensures back { IfErr result (λ back. back ≡ job) }
        ensures starts { Starts result self.old self.new }
    {
        if self.refuses() {
            return self.given_back(job);
        }
        match Running::in_thread(&self.rt, self.alloc, job) {
            Ok(running) => Ok(running),
            Err(back) => self.given_back(back),
        }
    }

    /// The same for work that is no job, as work that starts threads itself: the thread promises its result.
    pub fn start_with<P, F, T>(&mut self, promise: P, work: F) -> Result<PromisedHandle<T, P>, F>
    where
        P: Promise<T> + Drop,
        F: FnOnce() -> T + Send + 'static,
        T: Send + Drop + 'static,
        requires runs { F.pre work }
        requires keeps { (done : T) → F.post work done → P.kept_by promise done }
        ensures ok { IfOk result (λ thread. thread.promise ≡ promise) }
        ensures back { IfErr result (λ back. back ≡ work) }
        ensures starts { Starts result self.old self.new }
    {
        if self.refuses() {
            return self.given_back(work);
        }
        match spawn_with(&self.rt, promise, work) {
            Ok(thread) => Ok(thread),
            Err(refused) => self.given_back(refused.value),
        }
    }

    /// Joins the threads of the jobs that are done, without waiting, so that the system has their stacks back.
    pub fn join_done<J: Job + Drop>(&self, all: &mut [Running<J>])
    where
        J::Done: Drop,
        ensures { all.new ≡ all.old }
    {
        join_done(&self.rt, all)
    }

    /// A further starter for another thread, which has given nothing back yet, and refuses the calls with the numbers in `twins`.
    pub fn twin(&self) -> Result<ThreadStarter<R>, NoMemory>
        ensures { IfOk result (λ twin. twin ≡ new_starter self.now.twins self.now.twins) }
    {
        let Ok(rt) = self.rt.clone() else {
            return Err(NoMemory);
        };
        let own = self.twins.copy(self.alloc)?;
        let twins = self.twins.copy(self.alloc)?;
        Ok(ThreadStarter::refusing(rt, self.alloc, own, twins))
    }
}
