ghost use Rattle.std.specs.Prelude.{◌≡◌, length, false, IfOk, OnOk, OnErr};
ghost use Rattle.environment.specs.Output.{WriteTakes, unwritten_output};
ghost use Rattle.environment.specs.Memory.{IsToFail, sink_with, sink_with_fault, starved_sink};

use crate::numbers::lists;
use crate::streams::{Failed, Sink};
use base_lists::{Bytes, Tally, Texts};
use std::alloc::Global;
use std::marker::Model;

/// A sink that holds what is written, and fails in the calls with the listed numbers.
#[derive(Drop)]
pub struct MemSink {
    octets: Bytes,
    fails: Texts,
    calls: u64,
    faults: Tally,
    starved: bool,
}

impl Model for MemSink {
    ghost use Rattle.environment.specs.Memory.{SinkState};

    ghost Value = { SinkState };

    ghost view = { λ s. record {
      seen = record { taken = s.octets; faults = s.faults };
      calls = s.calls;
      fails = s.fails;
      starved = s.starved;
    } };
}

impl MemSink {
    /// A sink that fails in the calls of `write` with the listed numbers, from 1, in decimal and without leading zeros,
    /// and where it wants memory. Takes no memory itself.
    pub fn make(alloc: Global, fails: Texts) -> MemSink
        ensures { result ≡ record {
          seen = unwritten_output;
          calls = 0;
          fails = fails;
          starved = false;
        } }
    {
        MemSink {
            octets: Bytes::empty(alloc),
            fails,
            calls: 0,
            faults: Tally::zero(),
            starved: false,
        }
    }

    /// What was written.
    pub fn octets(&self) -> &[u8]
        ensures { result.now ≡ self.now.seen.taken }
    {
        self.octets.items()
    }

    /// Whether a write has failed for want of memory.
    pub fn starved(&self) -> bool
        ensures { result ≡ self.now.starved }
    {
        self.starved
    }
}

impl Sink for MemSink {
    ghost seen = { λ s. s.seen };

    /// Fails where the list has the number of the call, and else for want of memory alone, which `starved` shows.
    /// Where it doesn't fail it takes the whole piece.
    fn write(&mut self, piece: &[u8]) -> Result<usize, Failed>
        ensures takes { WriteTakes result piece.now self.old.seen self.new.seen }
        ensures whole { IfOk result (λ n. n ≡ length piece.now) }
        ensures ok { OnOk result (self.new ≡ sink_with piece.now self.old) }
        ensures unlisted { OnOk result (IsToFail self.old.fails self.old.calls → ⊥) }
        ensures listed { IsToFail self.old.fails self.old.calls
            → self.new ≡ sink_with_fault self.old }
        ensures wanted { OnErr result ((IsToFail self.old.fails self.old.calls → ⊥) →
            self.new ≡ starved_sink self.old) }
    {
        self.calls = self.calls.saturating_add(1);
        if lists(self.fails.items(), self.calls) {
            self.faults.rise();
            return Err(Failed);
        }
        match self.octets.extend_from_slice(piece) {
            Ok(()) => Ok(piece.len()),
            Err(_) => {
                self.starved = true;
                self.faults.rise();
                Err(Failed)
            }
        }
    }
}
