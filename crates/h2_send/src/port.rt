//! A wire as a port, by which whoever has messages for a stream gives them.
ghost use Rattle.std.specs.Prelude.{◌≡◌, ◌≤◌, ◌==◌, ◌++◌, [], ℕ as Number, IsTrue, if◌then◌else◌};
ghost use Rattle.h2_events.specs.Items.{said_by};
ghost use Rattle.h2_events.specs.Ports.{FitsMessage};
ghost use Rattle.h2_send.specs.Port.{Asks, Offers, accepted_by, asked, given_by, noted, said_so_far, unused_port};

use crate::wire::Wire;
use base_lists::Remembered;
use environment::Sink;
use h2_events::{Piece, Ready, Took};
use std::alloc::Global;
use std::marker::Model;

/// A port to the sending half of a connection. Where other threads have ports to the same connection a call may find it
/// otherwise than the port saw it last.
pub trait WirePort {
    ghost use Rattle.std.specs.Prelude.{ℕ, Bool, List, Option};
    ghost use Rattle.h2_send.specs.Inputs.{Input};
    ghost use Rattle.h2_send.specs.Port.{PortView, Progress};

    /// Which connection it is a port to, among those that have several ports: its name, a list of numbers.
    ghost connection: { Self → List ℕ };

    /// How far the connection had come when the port saw it last: what its sending half was given in which order, whether
    /// it still writes, and what has gone out.
    ghost progress: { Self → Progress };

    /// Whether nobody else has a port to the connection, so that a call finds it as the port saw it last.
    ghost is_alone: { Self → Bool };

    /// Streams that are this port's own: nobody else says anything on them.
    ghost owns: { Self → ℕ → Bool };

    /// What went through this port: the pieces that were taken, each with its stream, in order; how often `ready` answered
    /// Free; how often `offer` was called. Both counts stand still at the end of a u64.
    ghost counts: { Self → PortView };

    /// What was done through this port, in order: what it gave the sending half, and None for each other thing, as the end of the
    /// connection.
    ghost given: { Self → List (Option Input) };

    /// The number of its author, and those of the ports that ended by meeting it, in order. None where nobody else can have a port.
    ghost authors: { Self → List ℕ };

    /// Whether the stream takes a piece now: it is Gone where it was never opened, was reset or ended, or the connection is
    /// closed; else Busy where octets wait on it, and Free where none do.
    fn ready(&mut self, stream: u32) -> Ready
        ensures asks { Asks (is_alone self.old) result stream
            (progress self.old) (progress self.new) }
        ensures connection { connection self.new ≡ connection self.old }
        ensures authors { authors self.new ≡ authors self.old }
        ensures alone { is_alone self.new ≡ is_alone self.old }
        ensures owns { owns self.new ≡ owns self.old }
        // Nothing is said by asking,
        ensures own { (other : Number) → IsTrue (owns self.old other)
            → said_so_far other (progress self.new) ≡ said_so_far other (progress self.old) }
        ensures given { given self.new ≡ given self.old }
        ensures counts { counts self.new ≡ asked result (counts self.old) };

    /// Says a piece on the stream where it is free; else the piece is dropped, and nothing changes.
    fn offer(&mut self, alloc: Global, stream: u32, piece: Piece) -> Took
        requires size { FitsMessage piece }
        ensures offers { Offers (is_alone self.old) result stream (said_by piece)
            (progress self.old) (progress self.new) }
        ensures connection { connection self.new ≡ connection self.old }
        ensures authors { authors self.new ≡ authors self.old }
        ensures alone { is_alone self.new ≡ is_alone self.old }
        ensures owns { owns self.new ≡ owns self.old }
        // and by an offer no more than the piece, where it is accepted.
        ensures own { (other : Number) → IsTrue (owns self.old other)
            → said_so_far other (progress self.new) ≡ said_so_far other (progress self.old)
            ++ (if stream == other then accepted_by result (said_by piece) else []) }
        ensures given { given self.new ≡ given self.old ++ given_by result stream (said_by piece) }
        ensures counts { counts self.new ≡ noted result (stream, piece) (counts self.old) }
        ensures later { (counts self.old).offers ≤ (counts self.new).offers };
}

/// What a port of a wire counts: what was taken through it, how often `ready` answered Free there, and how often `offer` was called.
/// Both counts stand still at the end of a u64.
#[derive(Drop)]
pub struct Port {
    /// For contracts alone.
    taken: Remembered<(u32, Piece)>,
    frees: u64,
    offers: u64,
}

impl Model for Port {
    ghost use Rattle.h2_send.specs.Port.{PortView};

    ghost Value = { PortView };

    ghost view = { λ p. record { taken = p.taken; frees = p.frees; offers = p.offers } };
}

impl Port {
    /// Nothing is counted yet.
    pub fn unused() -> Port
        ensures { result ≡ unused_port }
    {
        Port {
            taken: Remembered::nothing(),
            frees: 0,
            offers: 0,
        }
    }

    /// This was answered to how a stream stands.
    pub fn note_answer(&mut self, ready: Ready)
        ensures { self.new ≡ asked ready self.old }
    {
        match ready {
            Ready::Free => self.frees = self.frees.saturating_add(1),
            Ready::Busy => {}
            Ready::Gone => {}
        }
    }

    /// A piece was offered on a stream, and this became of it.
    pub fn note(&mut self, took: Took, given: &(u32, Piece))
        ensures is { self.new ≡ noted took given.now self.old }
        ensures later { self.old.offers ≤ self.new.offers }
    {
        self.offers = self.offers.saturating_add(1);
        if took == Took::Taken {
            self.taken.remember(given);
        }
    }
}

impl<S: Sink> WirePort for Wire<S> {
    ghost use Rattle.std.specs.Prelude.{true, [], map, Some};
    ghost use Rattle.h2_send.specs.Wires.{progress_of};

    ghost connection = { λ w. [] };

    ghost progress = { λ w. progress_of S.seen w };

    ghost is_alone = { λ w. true };

    ghost owns = { λ w other. true };

    ghost given = { λ w. map Some w.inputs };

    ghost authors = { λ w. [] };

    ghost counts = { λ w. w.port };

    fn ready(&mut self, stream: u32) -> Ready {
        let ready = self.readiness(stream);
        self.note_answer(ready);
        ready
    }

    fn offer(&mut self, alloc: Global, stream: u32, piece: Piece) -> Took {
        let given = (stream, piece);
        let took = self.say(alloc, stream, &given.1);
        self.note(took, &given);
        took
    }
}
