//! Jobs that were started.
ghost use Rattle.std.specs.Prelude.{◌≡◌, MatchResult, IfOk, IfErr};
ghost use Rattle.environment.specs.Outcomes.{ComesOf};

use crate::job::Job;
use std::alloc::Global;
use std::marker::Model;
use std::snapshot::Snapshot;
use std::sync::Arc;
use std::sync::atomic::{AtomicBool, Ordering};
use std::thread::{Promise, PromisedHandle, Threads, spawn_with};

/// What a thread gives that was started for a job: its result, or the job, where it isn't to do it.
#[derive(Drop)]
pub enum Outcome<J, D> {
    Done(D),
    Back(J),
}

/// What such a thread promises: the job's own result, or the job itself.
#[derive(Drop)]
pub struct Promised<J> {
    pub job: Snapshot<J>,
}

impl<J: Job> Promise<Outcome<J, J::Done>> for Promised<J> {
    ghost use Rattle.environment.specs.Outcomes.{ComesOf};

    ghost kept_by = { λ promised outcome. ComesOf J.gives promised.job.value outcome };
}

/// A job that was started, in a thread of its own, or that was done at once. Contracts see the job.
/// One that is dropped isn't waited for, and what it gives is dropped then.
#[derive(Drop)]
pub struct Running<J: Job> {
    job: Snapshot<J>,
    /// Its thread, with a flag that is set once the job is done; or, with no thread, what the job gave.
    started: Result<
        (
            PromisedHandle<Outcome<J, J::Done>, Promised<J>>,
            Arc<AtomicBool, Global>,
        ),
        Option<J::Done>,
    >,
}

impl<J: Job> Model for Running<J> {
    ghost use Rattle.std.specs.Prelude.{◌≡◌, MatchResult};
    ghost use Rattle.environment.specs.Outcomes.{IsDone};

    ghost Value = { J };

    ghost coded = { J.code };

    ghost view = { λ running. running.job.value };

    ghost invariant = { λ running. MatchResult running.started
        (λ thread. thread.0.promise.job.value ≡ running.job.value)
        (λ done. IsDone J.gives running.job.value done) };
}

/// Does the job, unless it isn't to be done.
fn do_or_give_back<J: Job>(job: J, is_to_run: bool) -> Outcome<J, J::Done>
    ensures { ComesOf J.gives job result }
{
    if is_to_run {
        Outcome::Done(job.run())
    } else {
        Outcome::Back(job)
    }
}

fn result_of<J: Job>(outcome: Outcome<J, J::Done>) -> J::Done
    ensures { (job : J) → ComesOf J.gives job outcome → J.gives job result }
{
    match outcome {
        Outcome::Done(done) => done,
        Outcome::Back(job) => job.run(),
    }
}

impl<J: Job> Running<J> {
    /// Does the job at once.
    pub fn ended(job: J) -> Running<J>
        ensures { result ≡ job }
    {
        let of = Snapshot::of(&job);
        Running {
            job: of,
            started: Err(Some(job.run())),
        }
    }

    /// Waits until the job is done, and gives its result.
    pub fn finish<R: Threads>(self, rt: &R) -> J::Done
        ensures { J.gives self result }
    {
        let Running { job: _, started } = self;
        match started {
            Ok((thread, _)) => result_of(thread.join(rt)),
            Err(Some(done)) => done,
            Err(None) => unreachable!(),
        }
    }

    /// Whether `finish` returns without waiting. Contracts see nothing of it.
    pub fn is_done(&self) -> bool {
        match &self.started {
            Ok((_, is_done)) => is_done.load(Ordering::SeqCst),
            Err(_) => true,
        }
    }
}

impl<J: Job + Drop> Running<J>
where
    J::Done: Drop,
{
    /// Waits until the job is done and joins its thread, so that the thread's stack is given back. What the job gave is kept for
    /// `finish`.
    pub fn join<R: Threads>(&mut self, rt: &R)
        ensures { self.new ≡ self.old }
    {
        match std::mem::replace(&mut self.started, Err(None)) {
            Ok((thread, _)) => self.started = Err(Some(result_of(thread.join(rt)))),
            Err(done) => self.started = Err(done),
        }
    }
}

impl<J: Job + Send + Drop + 'static> Running<J>
where
    J::Done: Send + Drop + 'static,
{
    /// Starts a thread for the job. The job is given back where no thread can be made, or memory is wanting.
    pub fn in_thread<R: Threads>(rt: &R, alloc: Global, job: J) -> Result<Running<J>, J>
        ensures ok { IfOk result (λ running. running ≡ job) }
        ensures back { IfErr result (λ back. back ≡ job) }
    {
        let of = Snapshot::of(&job);
        let promised = Promised {
            job: Snapshot::of(&job),
        };
        let Ok(is_to_run) = Arc::new(alloc, AtomicBool::new(true)) else {
            return Err(job);
        };
        let Ok(theirs) = Arc::try_clone(&is_to_run) else {
            return Err(job);
        };
        let Ok(is_done) = Arc::new(alloc, AtomicBool::new(false)) else {
            return Err(job);
        };
        let Ok(theirs_is_done) = Arc::try_clone(&is_done) else {
            return Err(job);
        };
        match spawn_with(rt, promised, move || {
            let outcome = do_or_give_back(job, theirs.load(Ordering::SeqCst));
            theirs_is_done.store(true, Ordering::SeqCst);
            outcome
        }) {
            Ok(thread) => Ok(Running {
                job: of,
                started: Ok((thread, is_done)),
            }),
            Err(refused) => {
                is_to_run.store(false, Ordering::SeqCst);
                match (refused.value)() {
                    Outcome::Done(done) => Ok(Running {
                        job: of,
                        started: Err(Some(done)),
                    }),
                    Outcome::Back(job) => Err(job),
                }
            }
        }
    }
}

/// Joins the threads of the jobs that are done, without waiting. What each job gave is kept for `finish`.
pub fn join_done<J: Job + Drop, R: Threads>(rt: &R, all: &mut [Running<J>])
where
    J::Done: Drop,
    ensures { all.new ≡ all.old }
{
    for running in all.iter_mut() {
        if running.is_done() {
            running.join(rt);
        }
    }
}
