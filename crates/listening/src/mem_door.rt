ghost use Rattle.std.specs.Prelude.{◌≡◌, [], Some};
ghost use Rattle.std.specs.List.{AllByRecursion};
ghost use Rattle.environment.specs.Memory.{input_of};
ghost use Rattle.listening.specs.Doors.{IsFresh, Listens, NextGives};

use crate::door::{Door, Next};
use base_lists::Remembered;
use environment::{Failed, MemSink, MemSource};
use std::collections::VecDeque;
use std::marker::Model;

/// Connections in memory, in the order in which they come.
pub type Links = VecDeque<(MemSource, MemSink)>;

/// A door that gives listed connections, and then is at its end. It never fails.
#[derive(Drop)]
pub struct MemDoor {
    links: Links,
    given: Remembered<(MemSource, MemSink)>,
}

impl Model for MemDoor {
    ghost use Rattle.std.specs.Prelude.{Some};
    ghost use Rattle.std.specs.List.{AllByRecursion};
    ghost use Rattle.environment.specs.Memory.{SinkState, SourceState, input_of};
    ghost use Rattle.listening.specs.Doors.{DoorView, IsFresh};

    ghost Value = { DoorView SourceState SinkState };

    ghost view = { λ d. record { given = d.given; left = Some d.links.items; faults = 0 } };

    ghost invariant = { λ d. AllByRecursion (IsFresh input_of (λ s. s.seen)) d.links.items };
}

impl MemDoor {
    /// Takes no memory.
    pub fn make(links: Links) -> MemDoor
        requires { AllByRecursion (IsFresh input_of (λ s. s.seen)) links.items }
        ensures { result ≡ record { given = []; left = Some links.items; faults = 0 } }
    {
        MemDoor {
            links,
            given: Remembered::nothing(),
        }
    }
}

impl Door for MemDoor {
    type Reader = MemSource;

    type Writer = MemSink;

    ghost seen = { λ d. d };

    /// It is open already.
    fn listen(&mut self, _address: &str) -> Result<(), Failed> {
        Ok(())
    }

    fn next(&mut self) -> Next<MemSource, MemSink> {
        match self.links.pop_front() {
            Some(link) => {
                self.given.remember(&link);
                let (reader, writer) = link;
                Next::Link(reader, writer)
            }
            None => Next::End,
        }
    }

    /// Nobody else can dial it.
    fn close(&mut self) {}
}
