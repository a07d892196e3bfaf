//! Small frames that go out in one piece.
ghost use Rattle.std.specs.Prelude.{◌≡◌};
ghost use Rattle.environment.specs.Output.{WriteTakes};

use base_lists::{Bytes, Tally};
use environment::{Failed, Sink};
use std::marker::Model;

/// A sink in memory, in which frames are gathered. It fails where memory runs out.
#[derive(Drop)]
pub struct Gathered {
    octets: Bytes,
    faults: Tally,
}

impl Model for Gathered {
    ghost use Rattle.environment.specs.Output.{Output};

    ghost Value = { Output };

    ghost view = { λ g. record { taken = g.octets; faults = g.faults } };
}

impl Gathered {
    /// With octets that go before all others.
    pub(crate) fn of(octets: Bytes) -> Gathered
        ensures { result ≡ record { taken = octets; faults = 0 } }
    {
        Gathered {
            octets,
            faults: Tally::zero(),
        }
    }

    pub(crate) fn into_octets(self) -> Bytes
        ensures { result ≡ self.taken }
    {
        self.octets
    }
}

impl Sink for Gathered {
    ghost seen = { λ g. g };

    fn write(&mut self, piece: &[u8]) -> Result<usize, Failed>
        ensures { WriteTakes result piece.now self.old self.new }
    {
        match self.octets.extend_from_slice(piece) {
            Ok(()) => Ok(piece.len()),
            Err(_) => {
                self.faults.rise();
                Err(Failed)
            }
        }
    }
}
