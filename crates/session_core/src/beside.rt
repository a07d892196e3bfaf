//! A connection that is served beside feeders.
ghost use Rattle.std.specs.Prelude.{◌≡◌, [], List, Ok, false};
ghost use Rattle.h2_recv.specs.Receiving.{new_reader};
ghost use Rattle.base_kinds.specs.Schema.{SchemaNode};
ghost use Rattle.environment.specs.Input.{Input as SourceSeen};
ghost use Rattle.environment.specs.Output.{Output};
ghost use Rattle.h2_send.specs.Port.{Progress};
ghost use Rattle.h2_send.specs.Wires.{progress_of};
ghost use Rattle.stream_workers.specs.Ports.{own_port};
ghost use Rattle.shared_wire.specs.Visits.{IsFirstVisit};
ghost use Rattle.session_core.specs.FeederRuns.{SessionRunBeside};
ghost use Rattle.session_core.specs.Runs.{outside_of};
ghost use Rattle.session_core.specs.inner.Feeders.{IsOwnVisit};
ghost use Rattle.session_core.specs.inner.Places.{Begins};

use crate::how::{How, how_of};
use crate::incoming::Incoming;
use crate::own_port::OwnPort;
use crate::session::{Calls, SessionEnd, serve_to_end};
use crate::shared::SharedWire;
use base_lists::Copied;
use book_port::Twin;
use environment::{Clock, Pacer, Sink, Source, Starter};
use grpc_requests::CallTable;
use h2_send::{Condition, Wire};
use request_desk::Desk;
use shared_wire::WireVisit;
use std::alloc::Global;
use std::sync::Wait;
use std::thread::Threads;
use stream_worker::FeedJob;
use stream_workers::Feeders;

/// What a session leaves that served nothing: its wire is open, and memory was wanting.
fn unserved<I: Source, O: Sink, P: Twin, C: Clock>(
    incoming: Incoming<I>,
    wire: Wire<O>,
    book: P,
    clock: C,
) -> SessionEnd<I, O, P, C>
    requires { (P.port book).is_alone ≡ false }
    ensures { (schema : List SchemaNode) (input : SourceSeen) (output : Output)
        → Begins schema (outside_of input output (own_port (P.port book)) (C.readings clock))
        (I.seen incoming.source) incoming.count incoming.recv (progress_of O.seen wire)
        (own_port (P.port book)) (C.readings clock)
        → SessionRunBeside schema (outside_of input output (P.port book) (C.readings clock))
        result.how
        (outside_of (I.seen result.input) (O.seen result.output) (P.port result.book)
        (C.readings result.clock)) }
{
    let Incoming {
        source,
        recv: _,
        count: _,
    } = incoming;
    SessionEnd {
        how: How::NoMemory,
        input: source,
        output: wire.give(),
        book,
        clock,
    }
}

/// Serves to the end over a port of a wire that is open, and ends all feeders then.
fn serve_shared<R, I, O, P, C, Q, S>(
    alloc: Global,
    incoming: Incoming<I>,
    visit: WireVisit<O, R>,
    book: P,
    desk: &Desk,
    feeders: Feeders<P, O, R, C, Q, S>,
    clock: C,
) -> SessionEnd<I, O, P, C>
where
    R: Threads + Wait + Clone + Drop,
    I: Source,
    O: Sink + Drop,
    P: Twin + Drop,
    C: Clock + Drop,
    Q: Pacer + Drop,
    S: Starter<FeedJob<P, WireVisit<O, R>, C, Q, R>> + Drop,
    requires shared { (P.port book).is_alone ≡ false }
    requires schema { (P.port book).opened.schema ≡ desk.now }
    requires none { feeders ≡ record { schema = desk.now; started = [] } }
    requires own { IsOwnVisit visit }
    ensures { (input : SourceSeen) (output : Output) (at : Progress)
        → IsFirstVisit at visit
        → Begins desk.now (outside_of input output (own_port (P.port book)) (C.readings clock))
        (I.seen incoming.source) incoming.count incoming.recv at
        (own_port (P.port book)) (C.readings clock)
        → SessionRunBeside desk.now (outside_of input output (P.port book) (C.readings clock))
        result.how
        (outside_of (I.seen result.input) (O.seen result.output) (P.port result.book)
        (C.readings result.clock)) }
{
    let mut incoming = incoming;
    let mut wire = SharedWire { visit };
    let mut calls = Calls {
        table: CallTable::make(alloc),
        book: OwnPort { port: book },
        clock,
        feeders,
    };
    let how = serve_to_end(alloc, &mut incoming, &mut wire, desk, &mut calls);
    let SharedWire { mut visit } = wire;
    let Calls {
        table: _,
        book,
        clock,
        feeders,
    } = calls;
    let OwnPort { port: mut book } = book;
    feeders.finish(&mut book, &mut visit);
    let Incoming {
        source,
        recv: _,
        count: _,
    } = incoming;
    SessionEnd {
        how,
        input: source,
        output: visit.finish().give(),
        book,
        clock,
    }
}

/// Serves over a wire that has greeted.
fn serve_greeted<R, I, O, P, C, Q, S>(
    rt: R,
    alloc: Global,
    incoming: Incoming<I>,
    wire: Wire<O>,
    book: P,
    desk: &Desk,
    starter: S,
    clock: C,
    pacer: Q,
) -> SessionEnd<I, O, P, C>
where
    R: Threads + Wait + Clone + Drop,
    I: Source,
    O: Sink + Drop,
    P: Twin + Drop,
    C: Clock + Drop,
    Q: Pacer + Drop,
    S: Starter<FeedJob<P, WireVisit<O, R>, C, Q, R>> + Drop,
    requires shared { (P.port book).is_alone ≡ false }
    requires schema { (P.port book).opened.schema ≡ desk.now }
    requires open { wire.condition ≡ Condition.Open }
    requires none { wire.inputs ≡ [] }
    ensures { (input : SourceSeen) (output : Output)
        → Begins desk.now (outside_of input output (own_port (P.port book)) (C.readings clock))
        (I.seen incoming.source) incoming.count incoming.recv (progress_of O.seen wire)
        (own_port (P.port book)) (C.readings clock)
        → SessionRunBeside desk.now (outside_of input output (P.port book) (C.readings clock))
        result.how
        (outside_of (I.seen result.input) (O.seen result.output) (P.port result.book)
        (C.readings result.clock)) }
{
    let Ok(schema) = desk.schema().copy(alloc) else {
        return unserved(incoming, wire, book, clock);
    };
    let Ok(own) = rt.clone() else {
        return unserved(incoming, wire, book, clock);
    };
    match WireVisit::make(own, alloc, wire) {
        Err(wire) => unserved(incoming, wire, book, clock),
        Ok(visit) => {
            let feeders = Feeders::make(rt, alloc, starter, pacer, schema);
            serve_shared(alloc, incoming, visit, book, desk, feeders, clock)
        }
    }
}

/// Greets, and serves to the end.
fn serve<R, I, O, P, C, Q, S>(
    rt: R,
    alloc: Global,
    incoming: Incoming<I>,
    wire: Wire<O>,
    book: P,
    desk: &Desk,
    starter: S,
    clock: C,
    pacer: Q,
) -> SessionEnd<I, O, P, C>
where
    R: Threads + Wait + Clone + Drop,
    I: Source,
    O: Sink + Drop,
    P: Twin + Drop,
    C: Clock + Drop,
    Q: Pacer + Drop,
    S: Starter<FeedJob<P, WireVisit<O, R>, C, Q, R>> + Drop,
    requires shared { (P.port book).is_alone ≡ false }
    requires schema { (P.port book).opened.schema ≡ desk.now }
    requires unread { incoming.recv ≡ Ok new_reader }
    requires none_counted { incoming.count ≡ 0 }
    requires new { wire.condition ≡ Condition.New }
    requires none { wire.inputs ≡ [] }
    ensures { SessionRunBeside desk.now
        (outside_of (I.seen incoming.source) (O.seen wire.sink) (P.port book) (C.readings clock))
        result.how
        (outside_of (I.seen result.input) (O.seen result.output) (P.port result.book)
        (C.readings result.clock)) }
{
    let mut wire = wire;
    match wire.greet() {
        Ok(()) => serve_greeted(rt, alloc, incoming, wire, book, desk, starter, clock, pacer),
        Err(fault) => {
            let Incoming {
                source,
                recv: _,
                count: _,
            } = incoming;
            SessionEnd {
                how: how_of(fault),
                input: source,
                output: wire.give(),
                book,
                clock,
            }
        }
    }
}

/// Serves a connection to its end, with a feeder for each call of mode STREAM, and hands back what it was handed.
///
/// The session serves in the thread that calls it, as `serve_alone` does, but for calls of mode STREAM (gNMI 3.5.1.5.2): each is handed
/// to a feeder, which serves it in a thread that the starter starts, over twins of the ports of the book and of the wire, and waits by
/// a twin of the pacer between its turns. Where no feeder can be started the session serves the call itself, one turn behind each
/// frame; that one is started isn't promised. A further message of a call that a feeder serves is dropped, where the session would end
/// the call with a refusal. All feeders have ended when it returns: it waits for them, and they end with the connection or with their
/// calls. The book of the port has the desk's schema, and the port isn't alone.
pub fn serve_session<R, I, O, P, C, Q, S>(
    rt: R,
    alloc: Global,
    input: I,
    output: O,
    book: P,
    desk: &Desk,
    starter: S,
    clock: C,
    pacer: Q,
) -> SessionEnd<I, O, P, C>
where
    R: Threads + Wait + Clone + Drop,
    I: Source,
    O: Sink + Drop,
    P: Twin + Drop,
    C: Clock + Drop,
    Q: Pacer + Drop,
    S: Starter<FeedJob<P, WireVisit<O, R>, C, Q, R>> + Drop,
    requires shared { (P.port book).is_alone ≡ false }
    requires schema { (P.port book).opened.schema ≡ desk.now }
    ensures { SessionRunBeside desk.now
        (outside_of (I.seen input) (O.seen output) (P.port book) (C.readings clock))
        result.how
        (outside_of (I.seen result.input) (O.seen result.output) (P.port result.book)
        (C.readings result.clock)) }
{
    let incoming = Incoming::make(alloc, input);
    let wire = Wire::make(alloc, output);
    serve(rt, alloc, incoming, wire, book, desk, starter, clock, pacer)
}
