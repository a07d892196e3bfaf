//! What is kept of the calls on a wire. It has no octets at run time.
ghost use Rattle.std.specs.Prelude.{◌≡◌, [], ◌∷◌, ◌++◌};
ghost use Rattle.h2_send.specs.Wires.{progress_of};
ghost use Rattle.shared_wire.specs.inner.Logging.{deed_of, left_by};

use base_lists::Remembered;
use environment::{OutputRecord, Sink};
use h2_send::{Condition, Given, Wire};
use std::marker::Model;
use std::snapshot::Snapshot;

/// What a call did.
#[derive(Drop)]
pub(crate) enum Noted {
    /// The wire was put behind the lock.
    Began,
    /// The wire was given this.
    Gave(Given),
    /// There was no room for its record but the last: the wire was given this, and had nothing of it.
    Lost(Given),
    /// The wire can't be given this.
    Refused(Given),
    /// The connection was ended, with this code.
    Ended(u32),
    /// There was no room for its record but the last, and the wire can't be given this.
    Starved(Given),
}

/// Whose call it was, what it did, and the wire behind it.
#[derive(Drop)]
pub(crate) struct LogEntry<W> {
    pub author: u32,
    pub deed: Noted,
    pub left: Snapshot<W>,
}

/// The record of a call. Contracts alone see values of it.
#[derive(Drop)]
pub struct Recorded {
    author: u32,
    deed: Noted,
    inputs: Remembered<Given>,
    condition: Condition,
    output: OutputRecord,
}

impl Model for Recorded {
    ghost use Rattle.std.specs.Prelude.{map};
    ghost use Rattle.std.specs.Coded.{codes};
    ghost use Rattle.h2_send.specs.Inputs.{input_of};
    ghost use Rattle.shared_wire.specs.Records.{WireRecord};
    ghost use Rattle.shared_wire.specs.inner.Logging.{deed_of};

    ghost Value = { WireRecord };

    ghost coded = { Prim.hlevel codes };

    ghost view = { λ r. record {
      author = r.author;
      deed = deed_of r.deed;
      left = record { inputs = map input_of r.inputs; condition = r.condition; output = r.output };
    } };
}

/// The records of a wire, in order.
#[derive(Drop)]
pub(crate) struct Log<S: Sink> {
    entries: Remembered<LogEntry<Wire<S>>>,
}

impl<S: Sink> Model for Log<S> {
    ghost use Rattle.std.specs.Prelude.{List};
    ghost use Rattle.std.specs.Coded.{codes};
    ghost use Rattle.shared_wire.specs.Records.{WireRecord};
    ghost use Rattle.shared_wire.specs.inner.Logging.{records_of};

    ghost Value = { List WireRecord };

    ghost coded = { Prim.hlevel codes };

    ghost view = { λ l. records_of S.seen l.entries };
}

impl<S: Sink> Log<S> {
    pub(crate) fn empty() -> Log<S>
        ensures { result ≡ [] }
    {
        Log {
            entries: Remembered::nothing(),
        }
    }

    /// One record more, of this call of the author's, which left the wire as it is now.
    pub(crate) fn note(&mut self, author: u32, deed: Noted, wire: &Wire<S>)
        ensures { self.new ≡ self.old ++ record {
          author = author;
          deed = deed_of deed;
          left = left_by deed (progress_of S.seen wire.now);
        } ∷ [] }
    {
        let left = Snapshot::of(wire);
        self.entries.remember(&LogEntry { author, deed, left });
    }
}
