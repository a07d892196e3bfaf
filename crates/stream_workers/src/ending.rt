//! The end of feeders.
ghost use Rattle.std.specs.Prelude.{◌≡◌, ◌∷◌, false, map, List};
ghost use Rattle.base_kinds.specs.Schema.{SchemaNode};
ghost use Rattle.book_port.specs.Ports.{PortView};
ghost use Rattle.shared_wire.specs.Visits.{VisitView};
ghost use Rattle.stream_workers.specs.Feeders.{AllEnd, AreOf, AreUnder, IsOf, Started, started_of};

use crate::twins::meet_ports;
use book_port::Twin;
use environment::{Clock, Pacer, Running, Sink};
use shared_wire::WireVisit;
use std::collections::VecDeque;
use std::sync::Wait;
use std::thread::Threads;
use stream_worker::{FeedDone, FeedJob};

/// A feeder that was started.
pub(crate) type RunningFeeder<P, O, R, C, Q> = Running<FeedJob<P, WireVisit<O, R>, C, Q, R>>;

/// Waits until the feeder has ended, and meets its ports.
fn end_one<P, O, R, C, Q>(
    rt: &R,
    next: RunningFeeder<P, O, R, C, Q>,
    book: &mut P,
    wire: &mut WireVisit<O, R>,
)
where
    P: Twin + Drop,
    O: Sink + Drop,
    R: Threads + Wait + Clone + Drop,
    C: Clock + Drop,
    Q: Pacer + Drop,
    requires shared { (P.port book.old).is_alone ≡ false }
    requires its { IsOf (P.port book.old).book wire.old.lock (started_of P.port next) }
    ensures name { (P.port book.new).book ≡ (P.port book.old).book }
    ensures alone { (P.port book.new).is_alone ≡ false }
    ensures lock { wire.new.lock ≡ wire.old.lock }
    // Where the others end behind it, all end.
    ensures ends { (schema : List SchemaNode) (others : List Started) (last_book : PortView)
        (last_wire : VisitView) → next.schema ≡ schema
        → AllEnd schema others (P.port book.new) wire.new last_book last_wire
        → AllEnd schema (started_of P.port next ∷ others) (P.port book.old) wire.old
        last_book last_wire }
{
    let FeedDone {
        end: _,
        book: own,
        wire: mut visit,
    } = next.finish(rt);
    // It tells contracts that what the port had seen are records of the wire, which went on from them.
    let _ = visit.readiness(0);
    meet_ports(book, wire, own, visit);
}

/// So for all of these, in order.
pub(crate) fn end_all<P, O, R, C, Q>(
    rt: &R,
    running: Vec<RunningFeeder<P, O, R, C, Q>>,
    book: &mut P,
    wire: &mut WireVisit<O, R>,
)
where
    P: Twin + Drop,
    O: Sink + Drop,
    R: Threads + Wait + Clone + Drop,
    C: Clock + Drop,
    Q: Pacer + Drop,
    requires shared { (P.port book.old).is_alone ≡ false }
    requires all { AreOf (P.port book.old).book wire.old.lock
        (map (started_of P.port) running.items) }
    ensures { (schema : List SchemaNode) → AreUnder schema running.items
        → AllEnd schema (map (started_of P.port) running.items)
        (P.port book.old) wire.old (P.port book.new) wire.new }
{
    let mut left = VecDeque::from_vec(running);
    while let Some(next) = left.pop_front() {
        end_one(rt, next, book, wire);
    }
    left.destroy_empty();
}
