ghost use Rattle.std.specs.Prelude.{◌≡◌, ◌≤◌, ◌↔◌, min, length, take, drop, Some, IfOk, OnErr, IsErr};
ghost use Rattle.environment.specs.Input.{ReadGives, unread_input};
ghost use Rattle.environment.specs.Memory.{IsToFail, input_of, source_after, source_with_fault};

use crate::numbers::lists;
use crate::records::InputRecord;
use crate::streams::{Failed, Source};
use base_lists::{Bytes, Texts};
use std::marker::Model;

/// A source over octets, which fails in the calls with the listed numbers.
#[derive(Drop)]
pub struct MemSource {
    octets: Bytes,
    place: usize,
    fails: Texts,
    calls: u64,
    past: InputRecord,
}

impl Model for MemSource {
    ghost use Rattle.std.specs.Prelude.{◌≤◌, drop, length};
    ghost use Rattle.environment.specs.Memory.{SourceState};

    ghost Value = { SourceState };

    ghost view = { λ s. record {
      octets = drop s.place s.octets;
      past = s.past;
      calls = s.calls;
      fails = s.fails;
    } };

    ghost invariant = { λ s. s.place ≤ length s.octets };
}

impl MemSource {
    /// A source of these octets, which fails in the calls of `read` with the listed numbers, from 1, in decimal and
    /// without leading zeros. Takes no memory.
    pub fn make(octets: Bytes, fails: Texts) -> MemSource
        ensures { result ≡ record {
          octets = octets;
          past = unread_input;
          calls = 0;
          fails = fails;
        } }
    {
        MemSource {
            octets,
            place: 0,
            fails,
            calls: 0,
            past: InputRecord::unread(),
        }
    }
}

impl Source for MemSource {
    ghost seen = { λ s. input_of s };

    /// Fails exactly where the list has the number of the call, and else fills the buffer as far as there are octets.
    fn read(&mut self, buffer: &mut [u8]) -> Result<usize, Failed>
        ensures gives { ReadGives result buffer.new (input_of self.old) (input_of self.new) }
        ensures fails { IsErr result ↔ IsToFail self.old.fails self.old.calls }
        ensures full { IfOk result (λ n. n ≡ min (length buffer.new) (length self.old.octets)) }
        ensures ok { IfOk result (λ n. self.new ≡ source_after n buffer.new self.old) }
        ensures err { OnErr result (self.new ≡ source_with_fault self.old) }
    {
        self.calls = self.calls.saturating_add(1);
        if lists(self.fails.items(), self.calls) {
            self.past.failed();
            return Err(Failed);
        }
        let count = copy_front(self.octets.items(), self.place, buffer);
        self.place += count;
        self.past.gave(count, buffer);
        Ok(count)
    }
}

/// Copies the octets from a place on, as far as there is room, and answers how many.
fn copy_front(octets: &[u8], place: usize, buffer: &mut [u8]) -> usize
    requires { place ≤ length octets.now }
    ensures count { result ≡ min (length buffer.new) (length (drop place octets.now)) }
    ensures octets { take result buffer.new ≡ take result (drop place octets.now) }
{
    let rest = &octets[place..];
    let count = buffer.len().min(rest.len());
    buffer[..count].copy_from_slice(&rest[..count]);
    count
}
