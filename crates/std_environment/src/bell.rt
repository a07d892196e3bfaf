//! A bell, which wakes those who wait until something may have happened. Contracts see nothing of it.
use base_lists::NoMemory;
use environment::Pacer;
use std::alloc::Global;
use std::sync::{Arc, Condvar, Mutex, Wait};
use std::thread;
use std::time::{Clock, Duration};

/// What is behind a bell: how often it has rung, past 2^64 from 0 on, and who waits.
#[derive(Drop)]
struct Rings {
    count: Mutex<u64>,
    rung: Condvar,
}

/// A bell that several threads share.
#[derive(Drop)]
pub struct Bell<R> {
    rt: R,
    rings: Arc<Rings, Global>,
}

impl<R: Wait + Clone> Bell<R> {
    /// One that hasn't rung.
    pub fn make(rt: R, alloc: Global) -> Result<Bell<R>, NoMemory> {
        let rings = Rings {
            count: Mutex::new(0),
            rung: Condvar::new(),
        };
        match Arc::new(alloc, rings) {
            Ok(rings) => Ok(Bell { rt, rings }),
            Err(_) => Err(NoMemory),
        }
    }

    /// The same bell for another thread. Takes no memory.
    pub fn twin(&self) -> Result<Bell<R>, NoMemory> {
        let Ok(rt) = self.rt.clone() else {
            return Err(NoMemory);
        };
        match Arc::try_clone(&self.rings) {
            Ok(rings) => Ok(Bell { rt, rings }),
            Err(_) => Err(NoMemory),
        }
    }

    /// Wakes all who wait for it.
    pub fn ring(&self) {
        let mut count = self.rings.count.lock(&self.rt);
        *count = count.wrapping_add(1);
        self.rings.rung.notify_all();
    }
}

/// A pacer whose thread waits for a bell.
#[derive(Drop)]
pub struct BellPacer<R> {
    bell: Bell<R>,
    /// How often the bell had rung when the last pause ended, and whether it had rung in it.
    seen: u64,
    woken: bool,
    shortest: Duration,
    longest: Duration,
}

impl<R: Wait + Clone> BellPacer<R> {
    /// A pause ends when the bell has rung since the last one ended, or after `longest`; and behind one that a bell ended none ends
    /// before `shortest`, so that a bell that rings without end doesn't keep its thread busy.
    pub fn of(bell: Bell<R>, shortest: Duration, longest: Duration) -> BellPacer<R> {
        BellPacer {
            bell,
            seen: 0,
            woken: false,
            shortest,
            longest,
        }
    }
}

impl<R: Wait + Clock + Clone + Drop> Pacer for BellPacer<R> {
    fn pause(&mut self) {
        let rt = &self.bell.rt;
        if self.woken {
            thread::sleep(rt, self.shortest);
        }
        let seen = self.seen;
        let rings = &self.bell.rings;
        let count = rings.count.lock(rt);
        let (count, _) = rings
            .rung
            .wait_timeout_while(rt, count, self.longest, |count| *count == seen);
        self.woken = *count != seen;
        self.seen = *count;
    }

    /// For the same bell. Takes no memory.
    fn twin(&self) -> Result<BellPacer<R>, NoMemory> {
        let bell = self.bell.twin()?;
        Ok(BellPacer::of(bell, self.shortest, self.longest))
    }
}
