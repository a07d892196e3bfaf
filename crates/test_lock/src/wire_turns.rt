ghost use Rattle.std.specs.Prelude.{◌≡◌, IfSome};

use crate::wires::{TestVisit, first_visit, has_messages, open_streams, piece};
use environment::MemSink;
use h2_events::{Ready, RecvEvent, Took};
use h2_send::{WireFaultOut, WirePort};
use std::alloc::Global;
use std::process::Abort;
use std::sync::Wait;
use std::thread;
use std::thread::{Threads, join};

/// So many messages are said on each stream.
const MESSAGES: u8 = 40;

/// So often 3 octets are granted on each stream: in all as many as the messages have, with the five before each.
const GRANTS: u32 = 107;

/// Offers a message, which stays the next one where it isn't taken.
fn offer_next<R: Wait + Clone + Drop>(
    alloc: Global,
    visit: &mut TestVisit<R>,
    stream: u8,
    number: u8,
) -> u8
    ensures { visit.new.lock ≡ visit.old.lock }
{
    let Some(next) = piece(alloc, stream, number) else {
        return number;
    };
    match visit.offer(alloc, stream as u32, next) {
        Took::Taken => number.saturating_add(1),
        _ => number,
    }
}

/// Offers all messages on a stream, each where it is free. Answers how many were taken.
fn offer_all<R: Wait + Clone + Drop>(
    rt: &R,
    alloc: Global,
    mut visit: TestVisit<R>,
    stream: u8,
) -> (TestVisit<R>, u8)
    ensures { result.0.lock ≡ visit.lock }
{
    let mut next = 0;
    for _ in rt.forever() {
        if next >= MESSAGES {
            return (visit, next);
        }
        match visit.ready(stream as u32) {
            Ready::Free => next = offer_next(alloc, &mut visit, stream, next),
            Ready::Busy => thread::yield_now(),
            Ready::Gone => return (visit, next),
        }
    }
    unreachable!()
}

/// The peer's WINDOW_UPDATEs come, three octets each.
fn grant_all<R: Wait + Clone + Drop>(alloc: Global, mut visit: TestVisit<R>) -> TestVisit<R>
    ensures { result.lock ≡ visit.lock }
{
    for _ in 0..GRANTS {
        let _one = visit.act(alloc, &RecvEvent::Window(1, 3));
        let _three = visit.act(alloc, &RecvEvent::Window(3, 3));
        thread::yield_now();
    }
    visit
}

/// A further port of the same wire.
fn another<R: Wait + Clone + Drop>(visit: &mut TestVisit<R>) -> Option<TestVisit<R>>
    ensures same { visit.new.lock ≡ visit.old.lock }
    ensures other { IfSome result (λ other. other.lock ≡ visit.old.lock) }
{
    match visit.twin() {
        Ok(twin) => Some(twin),
        Err(_) => None,
    }
}

/// Two threads offer, each on its stream.
fn offer_by_two<R: Threads + Wait + Clone + Drop + Send + Sync>(
    rt: &R,
    alloc: Global,
    one: TestVisit<R>,
    three: TestVisit<R>,
) -> (TestVisit<R>, u8, u8)
    requires { three.lock ≡ one.lock }
    ensures { result.0.lock ≡ one.lock }
{
    let ((mut one, first), (three, second)) = join(
        rt,
        || offer_all(rt, alloc, one, 1),
        || offer_all(rt, alloc, three, 3),
    );
    one.meet(three);
    (one, first, second)
}

/// Two threads offer, while a third one has what the peer grants. How many messages were taken on each stream, and what the sink
/// holds then.
fn said_by_two<R: Threads + Wait + Clone + Drop + Send + Sync>(
    rt: &R,
    alloc: Global,
) -> Option<(u8, u8, MemSink)> {
    let mut reader = first_visit(rt, alloc, "0")?;
    if !open_streams(alloc, &mut reader, 0) {
        return None;
    }
    let one = another(&mut reader)?;
    let three = another(&mut reader)?;
    let (mut reader, (fed, first, second)) = join(
        rt,
        || grant_all(alloc, reader),
        ||
            requires { three.lock ≡ one.lock }
        { offer_by_two(rt, alloc, one, three) },
    );
    reader.meet(fed);
    let _end = reader.close(0);
    Some((first, second, reader.finish().give()))
}

/// Whether all messages were taken on both streams, and the sink holds just those, in order.
fn is_all_said(alloc: Global, said: &(u8, u8, MemSink)) -> bool {
    let (first, second, sink) = said;
    (*first, *second) == (MESSAGES, MESSAGES)
        && has_messages(alloc, sink, 1, MESSAGES)
        && has_messages(alloc, sink, 3, MESSAGES)
}

/// Whether two threads say all so.
fn two_say_all<R: Threads + Wait + Clone + Drop + Send + Sync>(rt: &R, alloc: Global) -> bool {
    match said_by_two(rt, alloc) {
        Some(said) => is_all_said(alloc, &said),
        None => false,
    }
}

#[test]
fn two_threads_say_all_on_two_streams_in_order(rt: HostRuntime) {
    assert!(rt; two_say_all(&rt, rt.alloc()));
}

/// What two ports find of a wire whose fourth write fails, which is that of the first message: what became of its offer by one, how
/// the other stream stands for the second, and whether an event is acted on.
fn closed_by_one<R: Wait + Clone + Drop>(rt: &R, alloc: Global) -> Option<(Took, Ready, bool)> {
    let mut one = first_visit(rt, alloc, "4")?;
    let _opened = open_streams(alloc, &mut one, 100);
    match another(&mut one) {
        Some(mut other) => found_by_both(alloc, &mut one, &mut other),
        None => None,
    }
}

/// What these two ports find of it.
fn found_by_both<R: Wait + Clone + Drop>(
    alloc: Global,
    one: &mut TestVisit<R>,
    other: &mut TestVisit<R>,
) -> Option<(Took, Ready, bool)> {
    let took = one.offer(alloc, 1, piece(alloc, 1, 0)?);
    let ready = other.ready(3);
    let acted = other.act(alloc, &RecvEvent::Ping(7)).is_ok();
    Some((took, ready, acted))
}

#[test]
fn a_write_fault_closes_the_wire_for_all_ports(rt: HostRuntime) {
    let found = closed_by_one(&rt, rt.alloc());
    assert!(rt; found == Some((Took::WriteFault, Ready::Gone, false)));
}

/// What a port is told of a stream, of a piece there, and of a status.
type Told = (
    Result<Ready, WireFaultOut>,
    Result<Took, WireFaultOut>,
    Result<Took, WireFaultOut>,
);

/// What the second port is told then of the other stream, of a piece there, and of a status.
fn fault_told<R: Wait + Clone + Drop>(rt: &R, alloc: Global) -> Option<Told> {
    let mut one = first_visit(rt, alloc, "4")?;
    let _opened = open_streams(alloc, &mut one, 100);
    match another(&mut one) {
        Some(mut other) => told_to_other(alloc, &mut one, &mut other),
        None => None,
    }
}

/// What the other one of these two ports is told, where the stream was free before the fault.
fn told_to_other<R: Wait + Clone + Drop>(
    alloc: Global,
    one: &mut TestVisit<R>,
    other: &mut TestVisit<R>,
) -> Option<Told> {
    let before = other.readiness_or_fault(3);
    let _faulty = one.offer(alloc, 1, piece(alloc, 1, 0)?);
    let ready = other.readiness_or_fault(3);
    let took = other.say_or_fault(alloc, 3, &piece(alloc, 3, 0)?);
    let stated = other.http_or_fault(alloc, 3, 405);
    match before {
        Ok(Ready::Free) => Some((ready, took, stated)),
        _ => None,
    }
}

#[test]
fn a_fault_that_closed_the_wire_is_told_to_all_ports(rt: HostRuntime) {
    let fault = WireFaultOut::WriteFault;
    assert!(rt; fault_told(&rt, rt.alloc()) == Some((Err(fault), Err(fault), Err(fault))));
}

/// What is told of an event, how a stream stands behind it, and what the sink holds.
type Closed = (
    Result<(), WireFaultOut>,
    Result<Ready, WireFaultOut>,
    MemSink,
);

/// What is told of an event that takes the connection's window too far, how a stream stands then, and what the sink holds.
fn closed_by_event<R: Wait + Clone + Drop>(rt: &R, alloc: Global) -> Option<Closed> {
    let mut visit = first_visit(rt, alloc, "0")?;
    let _opened = open_streams(alloc, &mut visit, 100);
    let answer = visit.act_or_close(alloc, &RecvEvent::Window(0, 2_147_483_647));
    let ready = visit.readiness_or_fault(1);
    Some((answer, ready, visit.finish().give()))
}

/// Whether the event was too large, and ended the connection.
fn has_ended(closed: &Closed) -> bool {
    let (answer, ready, sink) = closed;
    // A GOAWAY ends with its code, which is FLOW_CONTROL_ERROR (RFC 9113 section 7).
    *answer == Err(WireFaultOut::Overflow)
        && *ready == Ok(Ready::Gone)
        && sink.octets().last().copied() == Some(3)
}

/// Whether such an event does so.
fn event_ends<R: Wait + Clone + Drop>(rt: &R, alloc: Global) -> bool {
    match closed_by_event(rt, alloc) {
        Some(closed) => has_ended(&closed),
        None => false,
    }
}

#[test]
fn a_window_that_would_be_too_large_ends_the_connection(rt: HostRuntime) {
    assert!(rt; event_ends(&rt, rt.alloc()));
}

/// What becomes of a status on a stream that octets wait on, on one that is free, on the same one again, and on one that was
/// never opened; there twice, since a call that tells faults answers the same where there is none.
fn statuses<R: Wait + Clone + Drop>(rt: &R, alloc: Global) -> Option<[Took; 5]> {
    let mut visit = first_visit(rt, alloc, "0")?;
    let _opened = open_streams(alloc, &mut visit, 2);
    statuses_through(alloc, &mut visit)
}

/// What becomes of them through this port.
fn statuses_through<R: Wait + Clone + Drop>(
    alloc: Global,
    visit: &mut TestVisit<R>,
) -> Option<[Took; 5]> {
    let _begun = visit.offer(alloc, 1, piece(alloc, 1, 0)?);
    let waits = visit.http(alloc, 1, 405);
    let free = visit.http(alloc, 3, 405);
    let ended = visit.http(alloc, 3, 405);
    let idle = visit.http(alloc, 5, 405);
    let told = visit.http_or_fault(alloc, 5, 405).ok()?;
    Some([waits, free, ended, idle, told])
}

#[test]
fn a_status_is_busy_or_gone_as_its_stream_is(rt: HostRuntime) {
    let wanted = [Took::Busy, Took::Taken, Took::Gone, Took::Gone, Took::Gone];
    assert!(rt; statuses(&rt, rt.alloc()) == Some(wanted));
}
