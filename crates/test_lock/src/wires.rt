//! A wire before a sink in memory, and what was written there.
ghost use Rattle.std.specs.Prelude.{◌≡◌, IfSome};
ghost use Rattle.h2_events.specs.Ports.{FitsMessage};

use base_lists::{Bytes, Text, Texts};
use environment::MemSink;
use h2_events::{Piece, RecvEvent};
use h2_send::{Condition, Wire};
use hpack_block::Headers;
use shared_wire::WireVisit;
use std::alloc::Global;
use std::sync::Wait;

pub(crate) type TestVisit<R> = WireVisit<MemSink, R>;

/// A wire that was greeted, whose sink fails in the call of `write` with this number, if any has it.
fn open_wire(alloc: Global, fails: &str) -> Option<Wire<MemSink>>
    ensures { IfSome result (λ wire. wire.condition ≡ Condition.Open) }
{
    let call = Text::of(alloc, fails.as_bytes()).ok()?;
    let mut calls = Texts::empty(alloc);
    calls.push(call).ok()?;
    let mut wire = Wire::make(alloc, MemSink::make(alloc, calls));
    match wire.greet() {
        Ok(()) => Some(wire),
        Err(_) => None,
    }
}

/// A port of such a wire.
pub(crate) fn first_visit<R: Wait + Clone + Drop>(
    rt: &R,
    alloc: Global,
    fails: &str,
) -> Option<TestVisit<R>> {
    let rt = rt.clone().ok()?;
    let wire = open_wire(alloc, fails)?;
    WireVisit::make(rt, alloc, wire).ok()
}

/// The peer says that each stream begins with a window of so many octets, and opens streams 1 and 3.
pub(crate) fn open_streams<R: Wait + Clone + Drop>(
    alloc: Global,
    visit: &mut TestVisit<R>,
    window: u32,
) -> bool
    ensures { visit.new.lock ≡ visit.old.lock }
{
    let settings = visit.act(alloc, &RecvEvent::Settings(window, false));
    let one = visit.act(alloc, &RecvEvent::Call(1, Headers::empty(alloc), true));
    let three = visit.act(alloc, &RecvEvent::Call(3, Headers::empty(alloc), true));
    settings.is_ok() && one.is_ok() && three.is_ok()
}

/// The octets of a message with this number.
fn message(stream: u8, number: u8) -> [u8; 3] {
    [stream, number, number]
}

/// The message as a piece.
pub(crate) fn piece(alloc: Global, stream: u8, number: u8) -> Option<Piece>
    ensures { IfSome result (λ piece. FitsMessage piece) }
{
    let octets = Bytes::of(alloc, &message(stream, number)).ok()?;
    if octets.len() > 3 {
        return None;
    }
    Some(Piece::Message(octets))
}

/// The length, the kind and the stream of the frame that comes first (RFC 9113 section 4.1).
fn head_of(octets: &[u8]) -> Option<(usize, u8, u8)> {
    let length = *octets.get(1)? as usize * 256 + *octets.get(2)? as usize;
    Some((length, *octets.get(3)?, *octets.get(8)?))
}

/// The payloads of DATA on a stream, one behind the other.
fn data_on(alloc: Global, octets: &[u8], stream: u8) -> Bytes {
    let mut data = Bytes::empty(alloc);
    let mut left = octets;
    for _ in 0..octets.len() {
        let Some((length, kind, on)) = head_of(left) else {
            break;
        };
        let end = length.saturating_add(9);
        if kind == 0 && on == stream {
            let _ = data.extend_from_slice(left.get(9..end).unwrap_or(&[]));
        }
        left = left.get(end..).unwrap_or(&[]);
    }
    data
}

/// Whether the DATA on a stream are just the messages with numbers below this one, each behind the five octets that gRPC puts
/// before it, in their order.
pub(crate) fn has_messages(alloc: Global, sink: &MemSink, stream: u8, count: u8) -> bool {
    let data = data_on(alloc, sink.octets(), stream);
    are_messages(data.items(), stream, count)
}

/// Whether these octets are just such messages.
fn are_messages(octets: &[u8], stream: u8, count: u8) -> bool {
    let mut left = octets;
    for number in 0..count {
        let [one, two, three] = message(stream, number);
        let Some(rest) = left.strip_prefix(&[0, 0, 0, 0, 3, one, two, three]) else {
            return false;
        };
        left = rest;
    }
    left.is_empty()
}
