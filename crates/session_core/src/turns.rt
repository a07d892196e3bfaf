//! Calls of the modes STREAM and POLL take their turns where their streams are free.
ghost use Rattle.std.specs.Prelude.{◌≡◌, ◌++◌, ◌∷◌, ◌+◌, ◌≤◌, ℕ, List, [], MatchResult, IfOk, IfErr, IfSome, IsTrue, ◌↔◌};
ghost use Rattle.base_kinds.specs.declared.request.ListMode.TheVariants as modes;
ghost use Rattle.environment.specs.Output.{Output};
ghost use Rattle.h2_events.specs.declared.event.RecvEvent.{RecvEvent as Heard};
ghost use Rattle.session_core.specs.declared.served.Served.{Served as Serving};
ghost use Rattle.session_core.specs.declared.waiting.Waiting.{Waiting as Unsaid};
ghost use Rattle.grpc_requests.specs.declared.request.Request.{Request as Asking};
ghost use Rattle.session_core.specs.Saying.{AreBehind};
ghost use Rattle.session_core.specs.Serving.{Start, Standing};
ghost use Rattle.session_core.specs.inner.Words.{words};
ghost use Rattle.session_core.specs.Runs.{Outside, start_of};
ghost use Rattle.session_core.specs.inner.Ends.{IsOwn};
ghost use Rattle.session_core.specs.inner.Places.{HasEnded, IsTurning, IsWriting, Stands, place_of};
ghost use Rattle.session_core.specs.inner.Feeders.{AreOfFeeders, feeder_state, book_of};
ghost use Rattle.session_core.specs.inner.Sending.{HasGrown};
ghost use Rattle.stream_workers.specs.Feeders.{Started};
ghost use Rattle.session_core.specs.inner.Steps.{IsTurned, list_of, said_in};

use crate::answering::put_reply;
use crate::how::{How, how_of};
use crate::later::Step;
use crate::reply::Reply;
use crate::saying::say_all;
use crate::sending::Sending;
use crate::served::{Served, ServedCalls};
use crate::waiting::Waitings;
use base_kinds::{ListMode, Refusal};
use base_lists::NoMemory;
use book_port::BookPort;
use environment::Clock;
use h2_events::Ready;
use h2_recv::Recv;
use request_desk::Desk;
use std::alloc::Global;

/// What waits to be said, and the call if it is still served.
#[derive(Drop)]
struct Turned {
    waiting: Waitings,
    left: Option<Served>,
}

/// What waits to be said, and the calls that are served.
#[derive(Drop)]
pub(crate) struct Kept {
    pub(crate) waiting: Waitings,
    pub(crate) calls: ServedCalls,
}

fn is_disk_fault(refusal: &Refusal) -> bool
    ensures { IsTrue result ↔ (refusal.now ≡ Refusal.DiskFault) }
{
    *refusal == Refusal::DiskFault
}

/// A turn of a call of mode STREAM, at a reading of the clock.
fn stream_turn<P: BookPort, C: Clock>(
    alloc: Global,
    desk: &Desk,
    book: &mut P,
    clock: &mut C,
    served: Served,
) -> Step
    ensures turned { served.call.plan.mode ≡ modes.Stream
        → IsTurned desk.now served result.reply result.left
        (P.port book.old) (P.port book.new) (C.readings clock.old) (C.readings clock.new) }
    ensures left { IfSome result.left (λ left. (left.stream ≡ served.stream)
        × (left.call.plan ≡ served.call.plan)) }
    ensures book { book_of (P.port book.new) ≡ book_of (P.port book.old) }
{
    let mut served = served;
    let now = clock.now();
    match served.call.turn(alloc, desk.schema(), now, book) {
        Ok(messages) => Step {
            reply: Reply::Say(messages, false),
            left: Some(served),
        },
        Err(refusal) => {
            if is_disk_fault(&refusal) {
                Step {
                    reply: Reply::Nothing,
                    left: Some(served),
                }
            } else {
                Step {
                    reply: Reply::Of(Err(refusal)),
                    left: None,
                }
            }
        }
    }
}

/// A turn for a Poll that waits, at a reading of the clock.
fn poll_turn<P: BookPort, C: Clock>(
    alloc: Global,
    desk: &Desk,
    book: &mut P,
    clock: &mut C,
    served: Served,
) -> Step
    requires { 1 ≤ served.polls }
    ensures turned { served.call.plan.mode ≡ modes.Poll
        → IsTurned desk.now served result.reply result.left
        (P.port book.old) (P.port book.new) (C.readings clock.old) (C.readings clock.new) }
    ensures left { IfSome result.left (λ left. (left.stream ≡ served.stream)
        × (left.call.plan ≡ served.call.plan) × (left.polls + 1 ≡ served.polls)) }
    ensures book { book_of (P.port book.new) ≡ book_of (P.port book.old) }
{
    let mut served = served;
    let left = served.polls - 1;
    let now = clock.now();
    match served.call.poll(alloc, desk.schema(), now, book) {
        Ok(messages) => {
            if left == 0 && served.ended {
                Step {
                    reply: Reply::Say(messages, true),
                    left: None,
                }
            } else {
                served.polls = left;
                Step {
                    reply: Reply::Say(messages, false),
                    left: Some(served),
                }
            }
        }
        Err(refusal) => Step {
            reply: Reply::Of(Err(refusal)),
            left: None,
        },
    }
}

/// Says what a turn says. What can't be said yet waits, behind what waits for the peer already.
fn say_turn<W: Sending>(
    alloc: Global,
    recv: &mut Recv,
    wire: &mut W,
    waiting: Waitings,
    stream: u32,
    reply: Reply,
) -> Result<Waitings, How>
    ensures says { (fed : List ℕ) (start : Start) (output : Output) (octets : List ℕ)
        (started : List Started) (heard : List Heard) (owed : List Asking) (at : Standing)
        → AreOfFeeders fed (W.history wire.new)
        → AreBehind (W.progress wire.old).inputs waiting
        → Stands fed start output octets
        (place_of recv.old (W.progress wire.old) (feeder_state (W.history wire.old) started)
        heard (waiting ++ words stream (said_in reply)) owed at)
        → MatchResult result
        (λ rest. Stands fed start output octets
        (place_of recv.new (W.progress wire.new) (feeder_state (W.history wire.new) started)
        heard rest owed at))
        (λ how. HasEnded how fed start octets output
        (W.progress wire.new) (feeder_state (W.history wire.new) started) at.port at.readings) }
    ensures behind { (fed : List ℕ) (output : Output) → AreOfFeeders fed (W.history wire.new)
        → IsWriting output (W.progress wire.old)
        → AreBehind (W.progress wire.old).inputs waiting
        → IfOk result (λ rest. AreBehind (W.progress wire.new).inputs rest) }
    ensures keeps { (fed : List ℕ) (output : Output) (others : List Unsaid)
        → AreOfFeeders fed (W.history wire.new)
        → IsWriting output (W.progress wire.old)
        → AreBehind (W.progress wire.old).inputs others
        → IfOk result (λ _. AreBehind (W.progress wire.new).inputs others) }
    ensures own { IfErr result (λ how. IsOwn how) }
    ensures grown { HasGrown (W.history wire.old) (W.history wire.new) }
{
    let mut said = Waitings::empty(alloc);
    match put_reply(&mut said, stream, reply) {
        Ok(()) => say_all(alloc, recv, wire, waiting, said),
        Err(NoMemory) => Err(How::NoMemory),
    }
}

/// The turn of a call of mode STREAM, where its stream is free. It is served no more where its stream is over.
fn turn_stream<W: Sending, P: BookPort, C: Clock>(
    alloc: Global,
    recv: &mut Recv,
    wire: &mut W,
    desk: &Desk,
    book: &mut P,
    clock: &mut C,
    waiting: Waitings,
    served: Served,
) -> Result<Turned, How>
    ensures turned { (fed : List ℕ) (before : Outside) (octets : List ℕ)
        (started : List Started) (heard : List Heard) (done later : List Serving)
        → AreOfFeeders fed (W.history wire.new) → served.call.plan.mode ≡ modes.Stream
        → IsTurning fed (start_of desk.now before) before.output octets done (served ∷ later)
        recv.old (W.progress wire.old) (feeder_state (W.history wire.old) started) heard waiting
        (P.port book.old) (C.readings clock.old)
        → MatchResult result
        (λ t. IsTurning fed (start_of desk.now before) before.output octets
        (done ++ list_of t.left) later
        recv.new (W.progress wire.new) (feeder_state (W.history wire.new) started) heard t.waiting
        (P.port book.new) (C.readings clock.new))
        (λ how. HasEnded how fed (start_of desk.now before) octets before.output
        (W.progress wire.new) (feeder_state (W.history wire.new) started)
        (P.port book.new) (C.readings clock.new)) }
    ensures book { book_of (P.port book.new) ≡ book_of (P.port book.old) }
    ensures own { IfErr result (λ how. IsOwn how) }
    ensures grown { HasGrown (W.history wire.old) (W.history wire.new) }
{
    match wire.readiness(served.stream) {
        Err(fault) => Err(how_of(fault)),
        Ok(Ready::Gone) => Ok(Turned {
            waiting,
            left: None,
        }),
        Ok(Ready::Busy) => Ok(Turned {
            waiting,
            left: Some(served),
        }),
        Ok(Ready::Free) => {
            let stream = served.stream;
            let Step { reply, left } = stream_turn(alloc, desk, book, clock, served);
            match say_turn(alloc, recv, wire, waiting, stream, reply) {
                Ok(waiting) => Ok(Turned { waiting, left }),
                Err(how) => Err(how),
            }
        }
    }
}

/// The turns of a call of mode POLL, one for each Poll that waits, as long as its stream is free. It is served no more where its
/// stream is over.
fn turn_polls<W: Sending, P: BookPort, C: Clock>(
    alloc: Global,
    recv: &mut Recv,
    wire: &mut W,
    desk: &Desk,
    book: &mut P,
    clock: &mut C,
    waiting: Waitings,
    served: Served,
) -> Result<Turned, How>
    ensures turned { (fed : List ℕ) (before : Outside) (octets : List ℕ)
        (started : List Started) (heard : List Heard) (done later : List Serving)
        → AreOfFeeders fed (W.history wire.new) → served.call.plan.mode ≡ modes.Poll
        → IsTurning fed (start_of desk.now before) before.output octets done (served ∷ later)
        recv.old (W.progress wire.old) (feeder_state (W.history wire.old) started) heard waiting
        (P.port book.old) (C.readings clock.old)
        → MatchResult result
        (λ t. IsTurning fed (start_of desk.now before) before.output octets
        (done ++ list_of t.left) later
        recv.new (W.progress wire.new) (feeder_state (W.history wire.new) started) heard t.waiting
        (P.port book.new) (C.readings clock.new))
        (λ how. HasEnded how fed (start_of desk.now before) octets before.output
        (W.progress wire.new) (feeder_state (W.history wire.new) started)
        (P.port book.new) (C.readings clock.new)) }
    ensures book { book_of (P.port book.new) ≡ book_of (P.port book.old) }
    ensures own { IfErr result (λ how. IsOwn how) }
    ensures grown { HasGrown (W.history wire.old) (W.history wire.new) }
{
    let mut waiting = waiting;
    let mut served = served;
    'polls: loop {
        match wire.readiness(served.stream) {
            Err(fault) => return Err(how_of(fault)),
            Ok(Ready::Gone) => {
                return Ok(Turned {
                    waiting,
                    left: None,
                });
            }
            Ok(Ready::Busy) => {
                return Ok(Turned {
                    waiting,
                    left: Some(served),
                });
            }
            Ok(Ready::Free) => {}
        }
        if served.polls == 0 {
            return Ok(Turned {
                waiting,
                left: Some(served),
            });
        }
        let stream = served.stream;
        let Step { reply, left } = poll_turn(alloc, desk, book, clock, served);
        match say_turn(alloc, recv, wire, waiting, stream, reply) {
            Ok(rest) => waiting = rest,
            Err(how) => return Err(how),
        }
        match left {
            Some(left) => served = left,
            None => {
                return Ok(Turned {
                    waiting,
                    left: None,
                });
            }
        }
    }
}

/// The turns of a call.
fn turn_call<W: Sending, P: BookPort, C: Clock>(
    alloc: Global,
    recv: &mut Recv,
    wire: &mut W,
    desk: &Desk,
    book: &mut P,
    clock: &mut C,
    waiting: Waitings,
    served: Served,
) -> Result<Turned, How>
    ensures turned { (fed : List ℕ) (before : Outside) (octets : List ℕ)
        (started : List Started) (heard : List Heard) (done later : List Serving)
        → AreOfFeeders fed (W.history wire.new)
        → IsTurning fed (start_of desk.now before) before.output octets done (served ∷ later)
        recv.old (W.progress wire.old) (feeder_state (W.history wire.old) started) heard waiting
        (P.port book.old) (C.readings clock.old)
        → MatchResult result
        (λ t. IsTurning fed (start_of desk.now before) before.output octets
        (done ++ list_of t.left) later
        recv.new (W.progress wire.new) (feeder_state (W.history wire.new) started) heard t.waiting
        (P.port book.new) (C.readings clock.new))
        (λ how. HasEnded how fed (start_of desk.now before) octets before.output
        (W.progress wire.new) (feeder_state (W.history wire.new) started)
        (P.port book.new) (C.readings clock.new)) }
    ensures book { book_of (P.port book.new) ≡ book_of (P.port book.old) }
    ensures own { IfErr result (λ how. IsOwn how) }
    ensures grown { HasGrown (W.history wire.old) (W.history wire.new) }
{
    match served.call.plan().mode {
        ListMode::Stream => turn_stream(alloc, recv, wire, desk, book, clock, waiting, served),
        ListMode::Poll => turn_polls(alloc, recv, wire, desk, book, clock, waiting, served),
        ListMode::Once => Ok(Turned {
            waiting,
            left: Some(served),
        }),
        ListMode::Other => Ok(Turned {
            waiting,
            left: Some(served),
        }),
    }
}

/// Each call that is served takes its turns, in the order in which they began.
pub(crate) fn take_turns<W: Sending, P: BookPort, C: Clock>(
    alloc: Global,
    recv: &mut Recv,
    wire: &mut W,
    desk: &Desk,
    book: &mut P,
    clock: &mut C,
    waiting: Waitings,
    calls: ServedCalls,
) -> Result<Kept, How>
    ensures turned { (fed : List ℕ) (before : Outside) (octets : List ℕ)
        (started : List Started) (heard : List Heard) → AreOfFeeders fed (W.history wire.new)
        → IsTurning fed (start_of desk.now before) before.output octets [] calls
        recv.old (W.progress wire.old) (feeder_state (W.history wire.old) started) heard waiting
        (P.port book.old) (C.readings clock.old)
        → MatchResult result
        (λ kept. IsTurning fed (start_of desk.now before) before.output octets kept.calls []
        recv.new (W.progress wire.new)
        (feeder_state (W.history wire.new) started) heard kept.waiting
        (P.port book.new) (C.readings clock.new))
        (λ how. HasEnded how fed (start_of desk.now before) octets before.output
        (W.progress wire.new) (feeder_state (W.history wire.new) started)
        (P.port book.new) (C.readings clock.new)) }
    ensures book { book_of (P.port book.new) ≡ book_of (P.port book.old) }
    ensures own { IfErr result (λ how. IsOwn how) }
    ensures grown { HasGrown (W.history wire.old) (W.history wire.new) }
{
    let mut waiting = waiting;
    let mut still = ServedCalls::empty(alloc);
    for served in calls.into_vec() {
        match turn_call(alloc, recv, wire, desk, book, clock, waiting, served) {
            Ok(
                Turned {
                    waiting: rest,
                    left,
                },
            ) => {
                waiting = rest;
                match left {
                    None => {}
                    Some(left) => match still.push(left) {
                        Ok(()) => {}
                        Err(NoMemory) => return Err(How::NoMemory),
                    },
                }
            }
            Err(how) => return Err(how),
        }
    }
    Ok(Kept {
        waiting,
        calls: still,
    })
}
