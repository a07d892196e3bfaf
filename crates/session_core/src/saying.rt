//! What waits is said, as far as the streams are free.
ghost use Rattle.std.specs.Prelude.{◌≡◌, ◌++◌, ℕ, List, [], MatchResult, IfOk, IfErr, OnOk};
ghost use Rattle.environment.specs.Output.{Output};
ghost use Rattle.h2_events.specs.declared.event.RecvEvent.{RecvEvent as Heard};
ghost use Rattle.h2_events.specs.Items.{is_last};
ghost use Rattle.grpc_requests.specs.declared.request.Request.{Request as Asking};
ghost use Rattle.stream_workers.specs.Feeders.{Started};
ghost use Rattle.session_core.specs.declared.waiting.Waiting.{Waiting as Unsaid};
ghost use Rattle.session_core.specs.Serving.{Start, Standing};
ghost use Rattle.session_core.specs.Saying.{AreBehind};
ghost use Rattle.session_core.specs.inner.Ends.{IsOwn};
ghost use Rattle.session_core.specs.inner.Places.{HasEnded, IsWriting, Stands, place_of};
ghost use Rattle.session_core.specs.inner.Feeders.{AreOfFeeders, feeder_state};
ghost use Rattle.session_core.specs.inner.Sending.{DoesWhereOpen, HasGrown, SaysThere, TellsFault};
ghost use Rattle.session_core.specs.inner.Steps.{Speaks, done_of, told_of};

use crate::how::{How, how_of};
use crate::sending::Sending;
use crate::waiting::{Waiting, Waitings};
use base_lists::NoMemory;
use h2_events::{Piece, Ready, Said, Took};
use h2_recv::Recv;
use h2_send::WireFaultOut;
use std::alloc::Global;

/// The most octets of a message that the sending half takes.
const MOST_MESSAGE: usize = 123_600_000;

fn of_took(took: Took) -> Result<(), WireFaultOut>
    ensures { result ≡ done_of took }
{
    match took {
        Took::Taken => Ok(()),
        Took::WriteFault => Err(WireFaultOut::WriteFault),
        Took::NoMemory => Err(WireFaultOut::NoMemory),
        Took::Busy => Err(WireFaultOut::NoMemory),
        Took::Gone => Err(WireFaultOut::NoMemory),
    }
}

/// Says something on a stream. There is no memory for a message that is longer than the sending half takes, for a status that isn't
/// one, nor for what isn't taken.
fn speak<W: Sending>(
    alloc: Global,
    wire: &mut W,
    stream: u32,
    said: Said,
) -> Result<(), WireFaultOut>
    ensures speaks { DoesWhereOpen (W.history wire.old).others (W.history wire.new).others
        (W.progress wire.old) (W.progress wire.new)
        (Speaks stream said result) (TellsFault (W.progress wire.old) result) }
    ensures grown { HasGrown (W.history wire.old) (W.history wire.new) }
    ensures silent { SaysThere stream (W.history wire.old) (W.history wire.new) }
{
    match said {
        Said::Message(octets) => {
            if octets.len() > MOST_MESSAGE {
                return Err(WireFaultOut::NoMemory);
            }
            of_took(wire.say(alloc, stream, &Piece::Message(octets)))
        }
        Said::Finish(refusal) => of_took(wire.say(alloc, stream, &Piece::Finish(refusal))),
        Said::Status(status) => {
            if status < 100 || 999 < status {
                return Err(WireFaultOut::NoMemory);
            }
            of_took(wire.http(alloc, stream, status))
        }
    }
}

fn ends(said: &Said) -> bool
    ensures { result ≡ is_last said.now }
{
    match said {
        Said::Message(_) => false,
        Said::Finish(_) => true,
        Said::Status(_) => true,
    }
}

/// Says something on a stream, and tells the receiver where this ends the stream.
fn say<W: Sending>(
    alloc: Global,
    recv: &mut Recv,
    wire: &mut W,
    waiting: Waiting,
) -> Result<(), WireFaultOut>
    ensures speaks { DoesWhereOpen (W.history wire.old).others (W.history wire.new).others
        (W.progress wire.old) (W.progress wire.new)
        (Speaks waiting.stream waiting.said result) (TellsFault (W.progress wire.old) result) }
    ensures grown { HasGrown (W.history wire.old) (W.history wire.new) }
    ensures silent { SaysThere waiting.stream (W.history wire.old) (W.history wire.new) }
    ensures told { OnOk result (recv.new ≡ told_of waiting.stream waiting.said recv.old) }
{
    let Waiting { stream, said } = waiting;
    let last = ends(&said);
    match speak(alloc, wire, stream, said) {
        Ok(()) => {
            if last {
                recv.ended(stream);
            }
            Ok(())
        }
        Err(fault) => Err(fault),
    }
}

/// Says of what waits what is on streams that are free. The rest still waits, behind what waits for the peer already.
pub(crate) fn say_all<W: Sending>(
    alloc: Global,
    recv: &mut Recv,
    wire: &mut W,
    behind: Waitings,
    waiting: Waitings,
) -> Result<Waitings, How>
    ensures says { (fed : List ℕ) (start : Start) (output : Output) (octets : List ℕ)
        (started : List Started) (heard : List Heard) (owed : List Asking) (at : Standing)
        → AreOfFeeders fed (W.history wire.new)
        → AreBehind (W.progress wire.old).inputs behind
        → Stands fed start output octets
        (place_of recv.old (W.progress wire.old) (feeder_state (W.history wire.old) started)
        heard (behind ++ waiting) owed at)
        → MatchResult result
        (λ rest. Stands fed start output octets
        (place_of recv.new (W.progress wire.new) (feeder_state (W.history wire.new) started)
        heard rest owed at))
        (λ how. HasEnded how fed start octets output
        (W.progress wire.new) (feeder_state (W.history wire.new) started) at.port at.readings) }
    ensures behind { (fed : List ℕ) (output : Output) → AreOfFeeders fed (W.history wire.new)
        → IsWriting output (W.progress wire.old)
        → AreBehind (W.progress wire.old).inputs behind
        → IfOk result (λ rest. AreBehind (W.progress wire.new).inputs rest) }
    ensures keeps { (fed : List ℕ) (output : Output) (others : List Unsaid)
        → AreOfFeeders fed (W.history wire.new)
        → IsWriting output (W.progress wire.old)
        → AreBehind (W.progress wire.old).inputs others
        → IfOk result (λ _. AreBehind (W.progress wire.new).inputs others) }
    ensures own { IfErr result (λ how. IsOwn how) }
    ensures grown { HasGrown (W.history wire.old) (W.history wire.new) }
{
    let mut still = behind;
    for w in waiting.into_vec() {
        match wire.readiness(w.stream) {
            Err(fault) => return Err(how_of(fault)),
            Ok(Ready::Gone) => {}
            Ok(Ready::Busy) => match still.push(w) {
                Ok(()) => {}
                Err(NoMemory) => return Err(How::NoMemory),
            },
            Ok(Ready::Free) => match say(alloc, recv, wire, w) {
                Ok(()) => {}
                Err(fault) => return Err(how_of(fault)),
            },
        }
    }
    Ok(still)
}
