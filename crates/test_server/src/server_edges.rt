//! The environment of connections whose peers wait for what others are answered.
ghost use Rattle.std.specs.Prelude.{◌≡◌};
ghost use Rattle.environment.specs.Memory.{input_of};

use crate::shared::Counter;
use base_lists::{NoMemory, Remembered};
use environment::{Failed, MemSink, MemSource, Sink, Source};
use listening::{Door, Next};
use std::alloc::Global;
use std::collections::VecDeque;
use std::marker::Model;
use std::sync::atomic::Ordering;
use std::thread;

/// How often a text was written.
#[derive(Drop)]
pub(crate) struct Count {
    pub(crate) text: &'static [u8],
    pub(crate) taken: Counter,
}

impl Count {
    /// Counts how often the text stands in a piece.
    fn add(&self, piece: &[u8]) {
        for window in piece.windows(self.text.len().max(1)) {
            if window == self.text {
                let _before = self.taken.fetch_add(1, Ordering::SeqCst);
            }
        }
    }
}

/// A sink that counts two texts.
#[derive(Drop)]
pub(crate) struct CountingSink {
    pub(crate) sink: MemSink,
    pub(crate) first: Count,
    pub(crate) second: Count,
}

impl Sink for CountingSink {
    ghost seen = { λ s. s.sink.seen };

    fn write(&mut self, piece: &[u8]) -> Result<usize, Failed> {
        match self.sink.write(piece) {
            Ok(count) => {
                self.first.add(piece);
                self.second.add(piece);
                Ok(count)
            }
            Err(Failed) => Err(Failed),
        }
    }
}

/// A source doesn't give the octet at this place until so much was counted.
#[derive(Drop)]
pub(crate) struct Hold {
    pub(crate) place: usize,
    pub(crate) taken: Counter,
    pub(crate) goal: u64,
}

/// So often a source lets other threads go on in one hold.
const PATIENCE: u32 = 20_000_000;

impl Hold {
    /// Waits until so much was counted. No where there is no patience left.
    fn is_over(&self) -> bool {
        for _ in 0..PATIENCE {
            if self.taken.load(Ordering::SeqCst) >= self.goal {
                return true;
            }
            thread::yield_now();
        }
        false
    }
}

/// Where a source waits, in order.
#[derive(Drop)]
pub(crate) struct Holds {
    pub(crate) holds: VecDeque<Hold>,
    /// How many were given up.
    pub(crate) late: Counter,
}

impl Holds {
    /// Whether one stands at this place, or before it.
    fn are_left(&self, place: usize) -> bool {
        match self.holds.front() {
            Some(hold) => hold.place <= place,
            None => false,
        }
    }

    /// Waits for all that stand at this place, or before it.
    fn wait(&mut self, place: usize) {
        for _ in 0..self.holds.len() {
            if self.are_left(place) {
                self.wait_once();
            }
        }
    }

    /// Waits for the first.
    fn wait_once(&mut self) {
        if let Some(hold) = self.holds.pop_front() {
            if !hold.is_over() {
                let _before = self.late.fetch_add(1, Ordering::SeqCst);
            }
        }
    }
}

/// A source that holds octets back.
#[derive(Drop)]
pub(crate) struct HeldSource {
    pub(crate) source: MemSource,
    pub(crate) given: usize,
    pub(crate) holds: Holds,
}

impl Source for HeldSource {
    ghost seen = { λ h. input_of h.source };

    fn read(&mut self, buffer: &mut [u8]) -> Result<usize, Failed> {
        self.holds.wait(self.given);
        match self.source.read(buffer) {
            Ok(count) => {
                self.given = self.given.saturating_add(count);
                Ok(count)
            }
            Err(Failed) => Err(Failed),
        }
    }
}

/// A door that gives listed connections, and then is at its end.
#[derive(Drop)]
pub(crate) struct TestDoor {
    links: VecDeque<(HeldSource, CountingSink)>,
    given: Remembered<(HeldSource, CountingSink)>,
}

impl Model for TestDoor {
    ghost use Rattle.std.specs.Prelude.{Some};
    ghost use Rattle.std.specs.List.{AllByRecursion};
    ghost use Rattle.environment.specs.Memory.{input_of};
    ghost use Rattle.listening.specs.Doors.{DoorView, IsFresh};
    ghost use Rattle.test_server.specs.declared.server_edges.HeldSource.{HeldSource};
    ghost use Rattle.test_server.specs.declared.server_edges.CountingSink.{CountingSink};

    ghost Value = { DoorView HeldSource CountingSink };

    ghost view = { λ d. record { given = d.given; left = Some d.links.items; faults = 0 } };

    ghost invariant = { λ d.
        AllByRecursion (IsFresh (λ h. input_of h.source) (λ s. s.sink.seen)) d.links.items };
}

impl TestDoor {
    /// At which nobody comes.
    pub(crate) fn empty(alloc: Global) -> TestDoor {
        TestDoor {
            links: VecDeque::new(alloc),
            given: Remembered::nothing(),
        }
    }

    /// One connection more, which comes behind the others.
    pub(crate) fn add(&mut self, reader: HeldSource, writer: CountingSink) -> Result<(), NoMemory>
        requires reader { (input_of reader.source).faults ≡ 0 }
        requires writer { writer.sink.seen.faults ≡ 0 }
    {
        self.links.push_back((reader, writer)).ok().ok_or(NoMemory)
    }
}

impl Door for TestDoor {
    type Reader = HeldSource;

    type Writer = CountingSink;

    ghost seen = { λ d. d };

    fn listen(&mut self, _address: &str) -> Result<(), Failed> {
        Ok(())
    }

    fn next(&mut self) -> Next<HeldSource, CountingSink> {
        match self.links.pop_front() {
            Some(link) => {
                self.given.remember(&link);
                let (reader, writer) = link;
                Next::Link(reader, writer)
            }
            None => Next::End,
        }
    }

    fn close(&mut self) {}
}
