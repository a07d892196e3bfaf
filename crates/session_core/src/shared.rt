//! A wire that others have ports to as well, as the sending half of a session.
ghost use Rattle.std.specs.Prelude.{◌≡◌};
ghost use Rattle.session_core.specs.inner.Sending.{told_by};

use crate::sending::Sending;
use environment::Sink;
use h2_events::{Piece, Ready, RecvEvent, Took};
use h2_send::WireFaultOut;
use shared_wire::WireVisit;
use std::alloc::Global;
use std::marker::Model;
use std::sync::Wait;

/// A session's port of a wire that others have ports of too: the first one, which met unused ports at most.
pub(crate) struct SharedWire<S: Sink + Drop, R> {
    pub(crate) visit: WireVisit<S, R>,
}

impl<S: Sink + Drop, R> Model for SharedWire<S, R> {
    ghost use Rattle.std.specs.Coded.{codes};
    ghost use Rattle.shared_wire.specs.Visits.{VisitView};
    ghost use Rattle.session_core.specs.inner.Feeders.{IsOwnVisit};

    ghost Value = { VisitView };

    ghost coded = { Prim.hlevel codes };

    ghost view = { λ w. w.visit };

    ghost invariant = { λ w. IsOwnVisit w.visit };
}

/// What became of a piece, where the fault that closed the wire before is told in its place.
fn took_in(told: Result<Took, WireFaultOut>) -> Took
    ensures { result ≡ told_by told }
{
    match told {
        Ok(took) => took,
        Err(WireFaultOut::WriteFault) => Took::WriteFault,
        Err(WireFaultOut::NoMemory) => Took::NoMemory,
        Err(WireFaultOut::Overflow) => Took::Gone,
    }
}

/// What was given through other ports stands in the records of the wire, as what was given through this one. Each call takes one
/// turn, and finds the wire as the last record left it.
impl<S: Sink + Drop, R: Wait + Clone + Drop> Sending for SharedWire<S, R> {
    ghost use Rattle.shared_wire.specs.Records.{left_in};
    ghost use Rattle.shared_wire.specs.Visits.{given_in, others_of};

    ghost progress = { λ visit. left_in visit.seen };

    ghost history = { λ visit. record {
      name = visit.lock;
      others = others_of visit;
      own = given_in visit.made;
    } };

    fn readiness(&mut self, stream: u32) -> Result<Ready, WireFaultOut> {
        self.visit.readiness_or_fault(stream)
    }

    fn act(&mut self, alloc: Global, event: &RecvEvent) -> Result<(), WireFaultOut> {
        self.visit.act_or_close(alloc, event)
    }

    fn say(&mut self, alloc: Global, stream: u32, piece: &Piece) -> Took {
        took_in(self.visit.say_or_fault(alloc, stream, piece))
    }

    fn http(&mut self, alloc: Global, stream: u32, status: u16) -> Took {
        took_in(self.visit.http_or_fault(alloc, stream, status))
    }

    fn close(&mut self, code: u32) -> Result<(), WireFaultOut> {
        self.visit.close(code)
    }
}
