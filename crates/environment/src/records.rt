ghost use Rattle.std.specs.Prelude.{◌≡◌, ◌≤◌, length};
ghost use Rattle.environment.specs.Input.{input_after, input_with_fault, unread_input};
ghost use Rattle.environment.specs.Output.{output_with, output_with_fault, unwritten_output};

use base_lists::{Remembered, Tally, remember_all};
use std::marker::Model;
use std::snapshot::Snapshot;

/// What a source has given, for contracts alone: nothing of it is kept at run time.
#[derive(Drop)]
pub struct InputRecord {
    given: Remembered<u8>,
    ended: Snapshot<bool>,
    faults: Tally,
}

impl Model for InputRecord {
    ghost use Rattle.std.specs.Prelude.{None};
    ghost use Rattle.environment.specs.Input.{Input};

    ghost Value = { Input };

    ghost view = { λ r. record {
      given = r.given;
      ended = r.ended.value;
      faults = r.faults;
      left = None;
    } };
}

impl InputRecord {
    pub fn unread() -> InputRecord
        ensures { result ≡ unread_input }
    {
        InputRecord {
            given: Remembered::nothing(),
            ended: Snapshot::of(&false),
            faults: Tally::zero(),
        }
    }

    /// A read has put so many octets into the front of the buffer.
    pub fn gave(&mut self, count: usize, buffer: &[u8])
        requires { count ≤ length buffer.now }
        ensures { self.new ≡ input_after count buffer.now self.old }
    {
        remember_all(&mut self.given, &buffer[..count]);
        if !buffer.is_empty() {
            let is_end = count == 0;
            self.ended = Snapshot::of(&is_end);
        }
    }

    /// A read has failed.
    pub fn failed(&mut self)
        ensures { self.new ≡ input_with_fault self.old }
    {
        self.faults.rise();
    }
}

/// What a sink has taken, for contracts alone: nothing of it is kept at run time.
#[derive(Drop)]
pub struct OutputRecord {
    taken: Remembered<u8>,
    faults: Tally,
}

impl Model for OutputRecord {
    ghost use Rattle.environment.specs.Output.{Output};

    ghost Value = { Output };

    ghost view = { λ r. record { taken = r.taken; faults = r.faults } };
}

impl OutputRecord {
    pub fn unwritten() -> OutputRecord
        ensures { result ≡ unwritten_output }
    {
        OutputRecord {
            taken: Remembered::nothing(),
            faults: Tally::zero(),
        }
    }

    /// A write has taken these octets.
    pub fn took(&mut self, octets: &[u8])
        ensures { self.new ≡ output_with octets.now self.old }
    {
        remember_all(&mut self.taken, octets);
    }

    /// A write has failed.
    pub fn failed(&mut self)
        ensures { self.new ≡ output_with_fault self.old }
    {
        self.faults.rise();
    }
}
