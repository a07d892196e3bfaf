//! The sending half of a connection as a session uses it.
ghost use Rattle.std.specs.Prelude.{◌≡◌};
ghost use Rattle.h2_events.specs.Items.{said_by};
ghost use Rattle.h2_events.specs.Ports.{FitsMessage};
ghost use Rattle.h2_events.specs.declared.said.Said.TheVariants as says;
ghost use Rattle.h2_send.specs.Offers.{IsStatus};
ghost use Rattle.h2_send.specs.Lines.{overflows};
ghost use Rattle.h2_send.specs.Wires.{IsFolded, progress_of};
ghost use Rattle.session_core.specs.inner.Sending.{Acts, Closes, DoesWhereOpen, HasGrown, Reads, Says, SaysNothing, SaysThere, TellsDone, TellsFault, TellsTook};

use environment::Sink;
use h2_events::{Piece, Ready, RecvEvent, Took};
use h2_frame::FLOW_CONTROL_ERROR;
use h2_send::{Wire, WireFaultOut};
use std::alloc::Global;

/// The sending half of a connection. Others may have ports to it, so that a call finds what they did since the last one. What closed
/// it is told by the first call that finds it closed.
pub(crate) trait Sending {
    ghost use Rattle.h2_send.specs.Port.{Progress};
    ghost use Rattle.session_core.specs.inner.Sending.{WireHistory};

    /// How far it had come when the session saw it last.
    ghost progress: { Self → Progress };

    /// What others did so far, and what the session did.
    ghost history: { Self → WireHistory };

    /// Whether something can be said on the stream.
    fn readiness(&mut self, stream: u32) -> Result<Ready, WireFaultOut>
        ensures reads { DoesWhereOpen (history self.old).others (history self.new).others
            (progress self.old) (progress self.new)
            (Reads stream result) (TellsFault (progress self.old) result) }
        ensures grown { HasGrown (history self.old) (history self.new) }
        ensures silent { SaysNothing (history self.old) (history self.new) };

    /// Acts on an event. `Overflow`: it would have taken a window too far, and the connection is ended for it.
    fn act(&mut self, alloc: Global, event: &RecvEvent) -> Result<(), WireFaultOut>
        ensures acts { DoesWhereOpen (history self.old).others (history self.new).others
            (progress self.old) (progress self.new)
            (Acts event.now result) (TellsDone result) }
        ensures grown { HasGrown (history self.old) (history self.new) }
        ensures silent { SaysNothing (history self.old) (history self.new) };

    /// Says a piece on a stream.
    fn say(&mut self, alloc: Global, stream: u32, piece: &Piece) -> Took
        requires size { FitsMessage piece.now }
        ensures says { DoesWhereOpen (history self.old).others (history self.new).others
            (progress self.old) (progress self.new)
            (Says stream (said_by piece.now) result) (TellsTook (progress self.old) result) }
        ensures grown { HasGrown (history self.old) (history self.new) }
        ensures silent { SaysThere stream (history self.old) (history self.new) };

    /// Answers a call with a status of HTTP in place of an answer of gRPC.
    fn http(&mut self, alloc: Global, stream: u32, status: u16) -> Took
        requires status { IsStatus status }
        ensures says { DoesWhereOpen (history self.old).others (history self.new).others
            (progress self.old) (progress self.new)
            (Says stream (says.Status status) result) (TellsTook (progress self.old) result) }
        ensures grown { HasGrown (history self.old) (history self.new) }
        ensures silent { SaysThere stream (history self.old) (history self.new) };

    /// Ends the connection, with GOAWAY where the code isn't 0.
    fn close(&mut self, code: u32) -> Result<(), WireFaultOut>
        ensures closes { DoesWhereOpen (history self.old).others (history self.new).others
            (progress self.old) (progress self.new)
            (Closes code result) (TellsDone result) }
        ensures grown { HasGrown (history self.old) (history self.new) }
        ensures silent { SaysNothing (history self.old) (history self.new) };
}

/// A wire that nobody else has a port to.
impl<S: Sink> Sending for Wire<S> {
    ghost use Rattle.std.specs.Prelude.{[]};
    ghost use Rattle.h2_send.specs.Wires.{progress_of};

    ghost progress = { λ w. progress_of S.seen w };

    ghost history = { λ w. record { name = []; others = []; own = [] } };

    fn readiness(&mut self, stream: u32) -> Result<Ready, WireFaultOut> {
        Ok(Wire::readiness(self, stream))
    }

    fn act(&mut self, alloc: Global, event: &RecvEvent) -> Result<(), WireFaultOut> {
        // It tells contracts that the windows are those of the wire's inputs.
        let _ = Wire::readiness(self, 0);
        match Wire::act(self, alloc, event) {
            Ok(()) => Ok(()),
            Err(WireFaultOut::Overflow) => match self.finish(FLOW_CONTROL_ERROR) {
                Ok(()) => Err(WireFaultOut::Overflow),
                Err(fault) => Err(fault),
            },
            Err(WireFaultOut::WriteFault) => Err(WireFaultOut::WriteFault),
            Err(WireFaultOut::NoMemory) => Err(WireFaultOut::NoMemory),
        }
    }

    fn say(&mut self, alloc: Global, stream: u32, piece: &Piece) -> Took {
        Wire::say(self, alloc, stream, piece)
    }

    fn http(&mut self, alloc: Global, stream: u32, status: u16) -> Took {
        // So here.
        let _ = Wire::readiness(self, stream);
        Wire::http(self, alloc, stream, status)
    }

    fn close(&mut self, code: u32) -> Result<(), WireFaultOut> {
        // And here.
        let _ = Wire::readiness(self, 0);
        self.finish(code)
    }
}
