//! The environment of a connection whose peer waits for what is answered before it sends more.
ghost use Rattle.environment.specs.Memory.{input_of};

use crate::shared::{Counter, TestBook, YieldingPacer};
use base_lists::{NoMemory, Seq};
use environment::{Failed, Job, MemSink, MemSource, Running, Sink, Source, Starter, StepClock};
use gnmi_server::Feeding;
use std::sync::Arc;
use std::sync::atomic::{AtomicU64, Ordering};
use std::thread;

/// The job of a feeder over a book that others reach too.
pub(crate) type TestFeeding<R> = Feeding<TestBook<R>, CountingSink, R, StepClock, YieldingPacer>;

/// More than a sink takes: nobody waits for a sink that has failed.
const ALL: u64 = 9_223_372_036_854_775_808;

/// A sink that counts what it takes: octets, or how often a text stands in what is written.
#[derive(Drop)]
pub(crate) struct CountingSink {
    pub(crate) sink: MemSink,
    /// None that is empty stands anywhere: then octets are counted.
    pub(crate) text: &'static [u8],
    pub(crate) taken: Counter,
}

/// How much a piece counts for.
fn weight(text: &[u8], piece: &[u8]) -> u64 {
    if text.is_empty() {
        return piece.len() as u64;
    }
    let mut weight = 0_u64;
    for window in piece.windows(text.len().max(1)) {
        if window == text {
            weight = weight.saturating_add(1);
        }
    }
    weight
}

impl Sink for CountingSink {
    ghost seen = { λ s. s.sink.seen };

    fn write(&mut self, piece: &[u8]) -> Result<usize, Failed> {
        match self.sink.write(piece) {
            Ok(count) => {
                let _before = self
                    .taken
                    .fetch_add(weight(self.text, piece), Ordering::SeqCst);
                Ok(count)
            }
            Err(Failed) => {
                self.taken.store(ALL, Ordering::SeqCst);
                Err(Failed)
            }
        }
    }
}

/// What a source waits for.
#[derive(Drop)]
pub(crate) struct Goals {
    /// How much the sink has to have taken before each read, as far as it is told.
    pub(crate) each: Seq<u64>,
    /// And before the one that finds the end.
    pub(crate) last: u64,
}

/// A source whose reads wait until the sink has taken what they wait for, so long as there is patience left.
#[derive(Drop)]
pub(crate) struct WaitingSource {
    pub(crate) source: MemSource,
    pub(crate) left: usize,
    pub(crate) taken: Counter,
    pub(crate) goals: Goals,
    /// How much was taken before each read.
    pub(crate) found: Seq<u64>,
    pub(crate) patience: u32,
}

impl WaitingSource {
    /// What the next read waits for.
    fn goal(&self) -> u64 {
        match self.goals.each.get(self.found.len()) {
            Some(goal) => *goal,
            None if self.left == 0 => self.goals.last,
            None => 0,
        }
    }
}

/// Waits until so much was taken, or patience is at its end.
fn wait_for(taken: &AtomicU64, goal: u64, patience: &mut u32) {
    for _ in 0..*patience {
        if taken.load(Ordering::SeqCst) >= goal {
            return;
        }
        thread::yield_now();
        *patience = patience.saturating_sub(1);
    }
}

impl Source for WaitingSource {
    ghost seen = { λ w. input_of w.source };

    fn read(&mut self, buffer: &mut [u8]) -> Result<usize, Failed> {
        let goal = self.goal();
        wait_for(&self.taken, goal, &mut self.patience);
        let _ = self.found.push(self.taken.load(Ordering::SeqCst));
        match self.source.read(buffer) {
            Ok(count) => {
                self.left = self.left.saturating_sub(count);
                Ok(count)
            }
            Err(Failed) => Err(Failed),
        }
    }
}

/// A starter that counts the jobs that it starts.
#[derive(Drop)]
pub(crate) struct CountingStarter<S> {
    pub(crate) starter: S,
    pub(crate) started: Counter,
}

impl<J: Job, S: Starter<J>> Starter<J> for CountingStarter<S> {
    ghost faults = { λ s. S.faults s.starter };

    fn start(&mut self, job: J) -> Result<Running<J>, J> {
        match self.starter.start(job) {
            Ok(running) => {
                let _before = self.started.fetch_add(1, Ordering::SeqCst);
                Ok(running)
            }
            Err(job) => Err(job),
        }
    }

    fn twin(&self) -> Result<CountingStarter<S>, NoMemory> {
        let Ok(started) = Arc::try_clone(&self.started) else {
            return Err(NoMemory);
        };
        let starter = self.starter.twin()?;
        Ok(CountingStarter { starter, started })
    }
}
