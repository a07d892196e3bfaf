ghost use Rattle.std.specs.Prelude.{◌≡◌, [], Some, IsErr, ◌↔◌};
ghost use Rattle.std.specs.List.{AllByRecursion};
ghost use Rattle.environment.specs.Memory.{input_of};
ghost use Rattle.listening.specs.Doors.{IsFresh};
ghost use Rattle.dialing.specs.Dialing.{DialGives};

use crate::dial::Dial;
use base_lists::{Remembered, Tally};
use environment::{Failed, MemSink, MemSource};
use listening::Links;
use std::marker::Model;

/// A dial that gives listed connections, whatever the address, and fails where none is left.
#[derive(Drop)]
pub struct MemDial {
    links: Links,
    given: Remembered<(MemSource, MemSink)>,
    ended: Remembered<(MemSource, MemSink)>,
    faults: Tally,
}

impl Model for MemDial {
    ghost use Rattle.std.specs.Prelude.{Some};
    ghost use Rattle.std.specs.List.{AllByRecursion};
    ghost use Rattle.environment.specs.Memory.{SinkState, SourceState, input_of};
    ghost use Rattle.listening.specs.Doors.{IsFresh};
    ghost use Rattle.dialing.specs.Dialing.{DialView};

    ghost Value = { DialView SourceState SinkState };

    ghost view = { λ d. record {
      given = d.given;
      left = Some d.links.items;
      ended = d.ended;
      faults = d.faults;
    } };

    ghost invariant = { λ d. AllByRecursion (IsFresh input_of (λ s. s.seen)) d.links.items };
}

impl MemDial {
    /// Takes no memory.
    pub fn make(links: Links) -> MemDial
        requires { AllByRecursion (IsFresh input_of (λ s. s.seen)) links.items }
        ensures { result ≡ record { given = []; left = Some links.items; ended = []; faults = 0 } }
    {
        MemDial {
            links,
            given: Remembered::nothing(),
            ended: Remembered::nothing(),
            faults: Tally::zero(),
        }
    }
}

impl Dial for MemDial {
    type Reader = MemSource;

    type Writer = MemSink;

    ghost seen = { λ d. d };

    /// Fails exactly where no connection is left.
    fn dial(&mut self, _address: &str) -> Result<(MemSource, MemSink), Failed>
        ensures gives { DialGives input_of (λ s. s.seen) result self.old self.new }
        ensures fails { IsErr result ↔ (self.old.left ≡ Some []) }
    {
        match self.links.pop_front() {
            Some(link) => {
                self.given.remember(&link);
                Ok(link)
            }
            None => {
                self.faults.rise();
                Err(Failed)
            }
        }
    }

    fn end(&mut self, reader: MemSource, writer: MemSink) {
        self.ended.remember(&(reader, writer));
    }
}
