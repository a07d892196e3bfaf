//! A connection from its preface to its end.
ghost use Rattle.std.specs.Prelude.{◌≡◌, ℕ, List, [], ◌∷◌, ◌++◌, MatchResult, IfErr, OnOk, Ok};
ghost use Rattle.environment.specs.Input.{Input as SourceSeen};
ghost use Rattle.base_kinds.specs.Schema.{SchemaNode};
ghost use Rattle.h2_streams.specs.Calls.{Moment};
ghost use Rattle.h2_recv.specs.Receiving.{new_reader};
ghost use Rattle.h2_send.specs.Inputs.{Input};
ghost use Rattle.grpc_requests.specs.declared.request.Request.{Request as Asking};
ghost use Rattle.grpc_requests.specs.Requests.{requests};
ghost use Rattle.book_port.specs.Ports.{PortView};
ghost use Rattle.stream_workers.specs.Feeders.{Started};
ghost use Rattle.h2_events.specs.declared.event.RecvEvent.{RecvEvent as Heard};
ghost use Rattle.session_core.specs.Runs.{Outside, SessionRun, outside_of, start_of};
ghost use Rattle.session_core.specs.Deeds.{Deed};
ghost use Rattle.session_core.specs.Rounds.{turns_on};
ghost use Rattle.session_core.specs.Serving.{standing_of};
ghost use Rattle.session_core.specs.inner.Ends.{IsOwn, code_of};
ghost use Rattle.session_core.specs.inner.Feeders.{AreOfSession, AreOfFeeders, feeder_state, book_of};
ghost use Rattle.session_core.specs.inner.Places.{HasCome, HasEnded, HasFinished, HasRested, HasStopped, IsServedAt, IsServedPartly, IsServing, Stands, place_of};
ghost use Rattle.session_core.specs.inner.Sending.{HasGrown};

use crate::answering::{answer_of, put_reply};
use crate::handing::{Handing, Nobody};
use crate::how::{How, how_of};
use crate::incoming::{Incoming, Next};
use crate::reply::Answered;
use crate::saying::say_all;
use crate::sending::Sending;
use crate::served::ServedCalls;
use crate::turns::{Kept, take_turns};
use crate::waiting::Waitings;
use base_lists::NoMemory;
use book_port::BookPort;
use environment::{Clock, Sink, Source};
use grpc_requests::{CallTable, Request, Requests};
use h2_events::RecvEvent;
use h2_recv::Recv;
use h2_send::{Condition, Wire};
use request_desk::Desk;
use std::alloc::Global;

/// What a connection leaves: how it ended, and what it was handed.
#[derive(Drop)]
pub struct SessionEnd<I, O, P, C> {
    pub how: How,
    pub input: I,
    pub output: O,
    pub book: P,
    pub clock: C,
}

/// The calls of a connection: those whose messages are heard, and where they are answered.
#[derive(Drop)]
pub(crate) struct Calls<P, C, H> {
    pub(crate) table: CallTable,
    pub(crate) book: P,
    pub(crate) clock: C,
    pub(crate) feeders: H,
}

/// Answers a request: what is to be said waits behind the rest.
fn answer<P: BookPort, C: Clock, W: Sending, H: Handing<P, W, C>>(
    alloc: Global,
    desk: &Desk,
    book: &mut P,
    clock: &mut C,
    wire: &mut W,
    feeders: &mut H,
    kept: Kept,
    request: Request,
) -> Result<Kept, NoMemory>
    requires { (P.port book.old).opened.schema ≡ desk.now }
    ensures book { book_of (P.port book.new) ≡ book_of (P.port book.old) }
    ensures answers { (fed : List ℕ) (before : Outside) (moments : List Moment)
        (inputs : List Input) (owed : List Asking)
        → IsServedAt fed (start_of desk.now before) moments inputs
        (feeder_state (W.history wire.old) (H.feeding feeders.old).started) kept.waiting
        (request ∷ owed)
        (P.port book.old) kept.calls (C.readings clock.old)
        → MatchResult result
        (λ kept. IsServedAt fed (start_of desk.now before) moments inputs
        (feeder_state (W.history wire.new) (H.feeding feeders.new).started) kept.waiting owed
        (P.port book.new) kept.calls (C.readings clock.new))
        (λ _. IsServedPartly fed (start_of desk.now before) moments inputs
        (feeder_state (W.history wire.new) (H.feeding feeders.new).started)
        (P.port book.new) (C.readings clock.new)) }
    ensures wire { W.progress wire.new ≡ W.progress wire.old }
    ensures history { W.history wire.new ≡ W.history wire.old }
    ensures ours { AreOfSession (P.port book.old) (W.history wire.old) (H.feeding feeders.old)
        → AreOfSession (P.port book.new) (W.history wire.new) (H.feeding feeders.new) }
{
    let Request { stream, asked } = request;
    let Kept { mut waiting, calls } = kept;
    match answer_of(
        alloc, desk, book, clock, wire, feeders, calls, stream, asked,
    ) {
        Ok(Answered { reply, calls }) => match put_reply(&mut waiting, stream, reply) {
            Ok(()) => Ok(Kept { waiting, calls }),
            Err(NoMemory) => Err(NoMemory),
        },
        Err(NoMemory) => Err(NoMemory),
    }
}

/// Answers requests, one after the other.
fn answer_all<P: BookPort, C: Clock, W: Sending, H: Handing<P, W, C>>(
    alloc: Global,
    desk: &Desk,
    book: &mut P,
    clock: &mut C,
    wire: &mut W,
    feeders: &mut H,
    kept: Kept,
    requests: Requests,
) -> Result<Kept, NoMemory>
    requires { (P.port book.old).opened.schema ≡ desk.now }
    ensures book { book_of (P.port book.new) ≡ book_of (P.port book.old) }
    ensures answers { (fed : List ℕ) (before : Outside) (moments : List Moment)
        (inputs : List Input)
        → IsServedAt fed (start_of desk.now before) moments inputs
        (feeder_state (W.history wire.old) (H.feeding feeders.old).started) kept.waiting requests
        (P.port book.old) kept.calls (C.readings clock.old)
        → MatchResult result
        (λ kept. IsServedAt fed (start_of desk.now before) moments inputs
        (feeder_state (W.history wire.new) (H.feeding feeders.new).started) kept.waiting []
        (P.port book.new) kept.calls (C.readings clock.new))
        (λ _. IsServedPartly fed (start_of desk.now before) moments inputs
        (feeder_state (W.history wire.new) (H.feeding feeders.new).started)
        (P.port book.new) (C.readings clock.new)) }
    ensures wire { W.progress wire.new ≡ W.progress wire.old }
    ensures history { W.history wire.new ≡ W.history wire.old }
    ensures ours { AreOfSession (P.port book.old) (W.history wire.old) (H.feeding feeders.old)
        → AreOfSession (P.port book.new) (W.history wire.new) (H.feeding feeders.new) }
{
    let mut kept = kept;
    for request in requests.into_vec() {
        match answer(alloc, desk, book, clock, wire, feeders, kept, request) {
            Ok(rest) => kept = rest,
            Err(NoMemory) => return Err(NoMemory),
        }
    }
    Ok(kept)
}

/// Hears an event, and answers the requests that are whole with it.
fn hear<P: BookPort, C: Clock, W: Sending, H: Handing<P, W, C>>(
    alloc: Global,
    desk: &Desk,
    wire: &mut W,
    calls: &mut Calls<P, C, H>,
    kept: Kept,
    event: &RecvEvent,
) -> Result<Kept, NoMemory>
    requires { (P.port calls.old.book).opened.schema ≡ desk.now }
    ensures book { book_of (P.port calls.new.book) ≡ book_of (P.port calls.old.book) }
    ensures hears { (fed : List ℕ) (before : Outside) (moments : List Moment)
        (inputs : List Input)
        → ((owed : List Asking)
        → requests (calls.old.table ++ event.now ∷ []) ≡ requests calls.old.table ++ owed
        → IsServedAt fed (start_of desk.now before) moments inputs
        (feeder_state (W.history wire.old) (H.feeding calls.old.feeders).started) kept.waiting owed
        (P.port calls.old.book) kept.calls (C.readings calls.old.clock))
        → MatchResult result
        (λ kept. IsServedAt fed (start_of desk.now before) moments inputs
        (feeder_state (W.history wire.new) (H.feeding calls.new.feeders).started) kept.waiting []
        (P.port calls.new.book) kept.calls (C.readings calls.new.clock))
        (λ _. IsServedPartly fed (start_of desk.now before) moments inputs
        (feeder_state (W.history wire.new) (H.feeding calls.new.feeders).started)
        (P.port calls.new.book) (C.readings calls.new.clock)) }
    ensures heard { OnOk result (calls.new.table ≡ calls.old.table ++ event.now ∷ []) }
    ensures wire { W.progress wire.new ≡ W.progress wire.old }
    ensures history { W.history wire.new ≡ W.history wire.old }
    ensures ours { AreOfSession (P.port calls.old.book) (W.history wire.old)
        (H.feeding calls.old.feeders)
        → AreOfSession (P.port calls.new.book) (W.history wire.new) (H.feeding calls.new.feeders) }
{
    match calls.table.hear(alloc, event) {
        Ok(more) => answer_all(
            alloc,
            desk,
            &mut calls.book,
            &mut calls.clock,
            wire,
            &mut calls.feeders,
            kept,
            more,
        ),
        Err(NoMemory) => Err(NoMemory),
    }
}

/// All is said that can be, and then the calls take their turns.
fn say_and_turn<W: Sending, P: BookPort, C: Clock, H>(
    alloc: Global,
    recv: &mut Recv,
    wire: &mut W,
    desk: &Desk,
    calls: &mut Calls<P, C, H>,
    kept: Kept,
) -> Result<Kept, How>
    ensures book { book_of (P.port calls.new.book) ≡ book_of (P.port calls.old.book) }
    ensures table { calls.new.table ≡ calls.old.table }
    ensures feeders { calls.new.feeders ≡ calls.old.feeders }
    ensures rests { (fed : List ℕ) (before : Outside) (octets : List ℕ)
        (started : List Started) (heard : List Heard) (round : List Deed)
        → AreOfFeeders fed (W.history wire.new) → ((stream : ℕ) → turns_on stream round ≡ 0)
        → Stands fed (start_of desk.now before) before.output octets
        (place_of recv.old (W.progress wire.old) (feeder_state (W.history wire.old) started)
        heard kept.waiting []
        (standing_of (P.port calls.old.book) kept.calls (C.readings calls.old.clock) round))
        → MatchResult result
        (λ kept. HasRested fed (start_of desk.now before) before.output octets
        recv.new (W.progress wire.new) (feeder_state (W.history wire.new) started)
        heard kept.waiting
        (P.port calls.new.book) kept.calls (C.readings calls.new.clock))
        (λ how. HasEnded how fed (start_of desk.now before) octets before.output
        (W.progress wire.new) (feeder_state (W.history wire.new) started)
        (P.port calls.new.book) (C.readings calls.new.clock)) }
    ensures own { IfErr result (λ how. IsOwn how) }
    ensures grown { HasGrown (W.history wire.old) (W.history wire.new) }
{
    let Kept {
        waiting,
        calls: served,
    } = kept;
    let none = Waitings::empty(alloc);
    match say_all(alloc, recv, wire, none, waiting) {
        Ok(waiting) => take_turns(
            alloc,
            recv,
            wire,
            desk,
            &mut calls.book,
            &mut calls.clock,
            waiting,
            served,
        ),
        Err(how) => Err(how),
    }
}

/// Serves an event: it is acted on, what is asked with it is answered, all is said that can be, and the calls that are served take
/// their turns.
fn serve_event<W: Sending, P: BookPort, C: Clock, H: Handing<P, W, C>>(
    alloc: Global,
    recv: &mut Recv,
    wire: &mut W,
    desk: &Desk,
    calls: &mut Calls<P, C, H>,
    kept: Kept,
    event: &RecvEvent,
) -> Result<Kept, How>
    requires { (P.port calls.old.book).opened.schema ≡ desk.now }
    ensures book { book_of (P.port calls.new.book) ≡ book_of (P.port calls.old.book) }
    ensures serves { (fed : List ℕ) (before : Outside) (octets : List ℕ) (round : List Deed)
        → AreOfFeeders fed (W.history wire.new)
        → HasCome fed (start_of desk.now before) before.output octets event.now
        (place_of recv.old (W.progress wire.old)
        (feeder_state (W.history wire.old) (H.feeding calls.old.feeders).started)
        calls.old.table kept.waiting []
        (standing_of (P.port calls.old.book) kept.calls (C.readings calls.old.clock) round))
        → MatchResult result
        (λ kept. HasRested fed (start_of desk.now before) before.output octets
        recv.new (W.progress wire.new)
        (feeder_state (W.history wire.new) (H.feeding calls.new.feeders).started)
        calls.new.table kept.waiting
        (P.port calls.new.book) kept.calls (C.readings calls.new.clock))
        (λ how. HasEnded how fed (start_of desk.now before) octets before.output
        (W.progress wire.new)
        (feeder_state (W.history wire.new) (H.feeding calls.new.feeders).started)
        (P.port calls.new.book) (C.readings calls.new.clock)) }
    ensures own { IfErr result (λ how. IsOwn how) }
    ensures grown { HasGrown (W.history wire.old) (W.history wire.new) }
    ensures ours { AreOfSession (P.port calls.old.book) (W.history wire.old)
        (H.feeding calls.old.feeders)
        → AreOfSession (P.port calls.new.book) (W.history wire.new) (H.feeding calls.new.feeders) }
{
    match wire.act(alloc, event) {
        Ok(()) => {}
        Err(fault) => return Err(how_of(fault)),
    }
    match hear(alloc, desk, wire, calls, kept, event) {
        Ok(kept) => say_and_turn(alloc, recv, wire, desk, calls, kept),
        Err(NoMemory) => Err(How::NoMemory),
    }
}

/// Serves frame by frame, to the end.
fn serve_frames<I: Source, W: Sending, P: BookPort, C: Clock, H: Handing<P, W, C>>(
    alloc: Global,
    incoming: &mut Incoming<I>,
    wire: &mut W,
    desk: &Desk,
    calls: &mut Calls<P, C, H>,
) -> How
    requires { (P.port calls.old.book).opened.schema ≡ desk.now }
    ensures book { book_of (P.port calls.new.book) ≡ book_of (P.port calls.old.book) }
    ensures serves { (fed : List ℕ) (before : Outside) → AreOfFeeders fed (W.history wire.new)
        → IsServing fed desk.now before (I.seen incoming.old.source) incoming.old.count
        (place_of incoming.old.recv (W.progress wire.old)
        (feeder_state (W.history wire.old) (H.feeding calls.old.feeders).started)
        calls.old.table [] []
        (standing_of (P.port calls.old.book) [] (C.readings calls.old.clock) []))
        → HasStopped result fed desk.now before (I.seen incoming.new.source)
        (W.progress wire.new)
        (feeder_state (W.history wire.new) (H.feeding calls.new.feeders).started)
        (P.port calls.new.book) (C.readings calls.new.clock) }
    ensures grown { HasGrown (W.history wire.old) (W.history wire.new) }
    ensures ours { AreOfSession (P.port calls.old.book) (W.history wire.old)
        (H.feeding calls.old.feeders)
        → AreOfSession (P.port calls.new.book) (W.history wire.new) (H.feeding calls.new.feeders) }
{
    let mut kept = Kept {
        waiting: Waitings::empty(alloc),
        calls: ServedCalls::empty(alloc),
    };
    'frames: loop {
        match incoming.next(alloc) {
            Next::Ends(how) => return how,
            Next::Nothing => {}
            Next::Event(event) => {
                match serve_event(alloc, &mut incoming.recv, wire, desk, calls, kept, &event) {
                    Ok(still) => kept = still,
                    Err(how) => return how,
                }
            }
        }
    }
}

/// The code that a connection ends with: that of an error of the peer, and else none.
fn code_of(how: How) -> u32
    ensures { result ≡ code_of how }
{
    match how {
        How::Protocol(code) => code,
        _ => 0,
    }
}

/// Ends the sending half, with a GOAWAY for a connection error of the peer.
fn finish<W: Sending>(wire: &mut W, how: How) -> How
    ensures ends { (fed : List ℕ) (schema : List SchemaNode) (before : Outside)
        (source : SourceSeen) (started : List Started) (port : PortView) (readings : List ℕ)
        → AreOfFeeders fed (W.history wire.new)
        → HasStopped how fed schema before source
        (W.progress wire.old) (feeder_state (W.history wire.old) started) port readings
        → HasFinished result fed schema before source
        (W.progress wire.new) (feeder_state (W.history wire.new) started) port readings }
    ensures grown { HasGrown (W.history wire.old) (W.history wire.new) }
{
    match wire.close(code_of(how)) {
        Ok(()) => how,
        Err(fault) => how_of(fault),
    }
}

/// Serves to the end, and ends the sending half.
pub(crate) fn serve_to_end<I: Source, W: Sending, P: BookPort, C: Clock, H: Handing<P, W, C>>(
    alloc: Global,
    incoming: &mut Incoming<I>,
    wire: &mut W,
    desk: &Desk,
    calls: &mut Calls<P, C, H>,
) -> How
    requires { (P.port calls.old.book).opened.schema ≡ desk.now }
    ensures book { book_of (P.port calls.new.book) ≡ book_of (P.port calls.old.book) }
    ensures ends { (fed : List ℕ) (before : Outside) → AreOfFeeders fed (W.history wire.new)
        → IsServing fed desk.now before (I.seen incoming.old.source) incoming.old.count
        (place_of incoming.old.recv (W.progress wire.old)
        (feeder_state (W.history wire.old) (H.feeding calls.old.feeders).started)
        calls.old.table [] []
        (standing_of (P.port calls.old.book) [] (C.readings calls.old.clock) []))
        → HasFinished result fed desk.now before (I.seen incoming.new.source)
        (W.progress wire.new)
        (feeder_state (W.history wire.new) (H.feeding calls.new.feeders).started)
        (P.port calls.new.book) (C.readings calls.new.clock) }
    ensures grown { HasGrown (W.history wire.old) (W.history wire.new) }
    ensures ours { AreOfSession (P.port calls.old.book) (W.history wire.old)
        (H.feeding calls.old.feeders)
        → AreOfSession (P.port calls.new.book) (W.history wire.new) (H.feeding calls.new.feeders) }
{
    let how = serve_frames(alloc, incoming, wire, desk, calls);
    finish(wire, how)
}

/// Greets, and serves to the end over a wire of the session's own.
fn serve<I: Source, O: Sink, P: BookPort, C: Clock>(
    alloc: Global,
    incoming: &mut Incoming<I>,
    wire: &mut Wire<O>,
    desk: &Desk,
    calls: &mut Calls<P, C, Nobody>,
) -> How
    requires { (P.port calls.old.book).opened.schema ≡ desk.now }
    ensures { incoming.old.recv ≡ Ok new_reader → incoming.old.count ≡ 0
        → wire.old.condition ≡ Condition.New → wire.old.inputs ≡ [] → calls.old.table ≡ []
        → SessionRun desk.now
        (outside_of (I.seen incoming.old.source) (O.seen wire.old.sink)
        (P.port calls.old.book) (C.readings calls.old.clock))
        result
        (outside_of (I.seen incoming.new.source) (O.seen wire.new.sink)
        (P.port calls.new.book) (C.readings calls.new.clock)) }
{
    match wire.greet() {
        Ok(()) => serve_to_end(alloc, incoming, wire, desk, calls),
        Err(fault) => how_of(fault),
    }
}

/// Serves a connection to its end, and hands back what it was handed.
///
/// The octets of the source are a connection of a client (RFC 9113), however its reads cut them. The message of a call is answered
/// by the desk at the port, in the order in which the calls are whole, and each frame is served before the next one is looked
/// at. It takes one reading of the clock for each message that the desk answers. The book of the port has the desk's schema.
pub fn serve_alone<I: Source, O: Sink, P: BookPort, C: Clock>(
    alloc: Global,
    input: I,
    output: O,
    book: P,
    desk: &Desk,
    clock: C,
) -> SessionEnd<I, O, P, C>
    requires { (P.port book).opened.schema ≡ desk.now }
    ensures { SessionRun desk.now
        (outside_of (I.seen input) (O.seen output) (P.port book) (C.readings clock))
        result.how
        (outside_of (I.seen result.input) (O.seen result.output) (P.port result.book)
        (C.readings result.clock)) }
{
    let mut incoming = Incoming::make(alloc, input);
    let mut wire = Wire::make(alloc, output);
    let mut calls = Calls {
        table: CallTable::make(alloc),
        book,
        clock,
        feeders: Nobody,
    };
    let how = serve(alloc, &mut incoming, &mut wire, desk, &mut calls);
    let Incoming {
        source,
        recv: _,
        count: _,
    } = incoming;
    let Calls {
        table: _,
        book,
        clock,
        feeders: _,
    } = calls;
    SessionEnd {
        how,
        input: source,
        output: wire.give(),
        book,
        clock,
    }
}
