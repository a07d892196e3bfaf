//! What a client gets: answers of HTTP, and a reply within its windows.
ghost use Rattle.h2_events.specs.Ports.{FitsMessage};

use crate::halves::{Came, feed};
use base_lists::{Bytes, Text, Texts};
use environment::MemSink;
use h2_events::{Piece, Ready, RecvEvent, Took};
use h2_recv::Recv;
use h2_send::{Wire, WirePort};
use std::alloc::Global;
use std::process::Abort;
use test_captures::PREFACE;

const SETTINGS: &[u8] = &[0, 0, 0, 4, 0, 0, 0, 0, 0];

// SETTINGS with HEADER_TABLE_SIZE 0.
const NO_TABLE: &[u8] = &[0, 0, 6, 4, 0, 0, 0, 0, 0, 0, 1, 0, 0, 0, 0];

// SETTINGS with INITIAL_WINDOW_SIZE 0, and with 2,147,483,648.
const NO_WINDOW: &[u8] = &[0, 0, 6, 4, 0, 0, 0, 0, 0, 0, 4, 0, 0, 0, 0];

const LARGE_WINDOW: &[u8] = &[0, 0, 6, 4, 0, 0, 0, 0, 0, 0, 4, 0x80, 0, 0, 0];

// HEADERS with `:method: POST`, `:scheme: http` and `:path: /` of the static table (RFC 7541, appendix A), and a literal
// `content-type: text/plain`.
const CALL: &[u8] = b"\0\0\x10\x01\x05\0\0\0\x01\x83\x86\x84\x0f\x10\x0atext/plain";

const CALL_ON_STREAM_2: &[u8] = b"\0\0\x10\x01\x05\0\0\0\x02\x83\x86\x84\x0f\x10\x0atext/plain";

const PING: &[u8] = &[0, 0, 8, 6, 0, 0, 0, 0, 0, 1, 2, 3, 4, 5, 6, 7, 8];

const ACK: &[u8] = &[0, 0, 0, 4, 1, 0, 0, 0, 0];

// SETTINGS with MAX_CONCURRENT_STREAMS 32 and MAX_HEADER_LIST_SIZE 16,384.
const GREETING: &[u8] = b"\0\0\x0c\x04\0\0\0\0\0\0\x03\0\0\0\x20\0\x06\0\0\x40\0";

// What was written behind the greeting, and behind so many octets more.
fn written(sink: &MemSink) -> &[u8] {
    sink.octets().strip_prefix(GREETING).unwrap_or(&[])
}

fn behind(sink: &MemSink, count: usize) -> &[u8] {
    written(sink).get(count..).unwrap_or(&[])
}

// A wire that was greeted.
fn new_wire(alloc: Global) -> Wire<MemSink> {
    let mut wire = Wire::make(alloc, MemSink::make(alloc, Texts::empty(alloc)));
    let _greeting = wire.greet();
    wire
}

// What was written behind these octets of a client, and a status on stream 1.
fn answered(alloc: Global, settings: &[u8]) -> (Took, MemSink) {
    let mut recv = Recv::make(alloc);
    let mut wire = new_wire(alloc);
    let _preface = feed(alloc, &mut recv, &mut wire, PREFACE);
    let _settings = feed(alloc, &mut recv, &mut wire, settings);
    let _call = feed(alloc, &mut recv, &mut wire, CALL);
    let took = wire.http(alloc, 1, 415);
    (took, wire.give())
}

// Whether an answer was taken, and an ACK and these octets were written.
fn is_answer(took: Took, sink: &MemSink, octets: &[u8]) -> bool {
    took == Took::Taken && written(sink).starts_with(ACK) && behind(sink, 9) == octets
}

// Whether these octets of a client and a call are answered by an ACK and those.
fn is_answered(alloc: Global, settings: &[u8], octets: &[u8]) -> bool {
    let (took, sink) = answered(alloc, settings);
    is_answer(took, &sink, octets)
}

#[test]
fn another_type_of_content_is_answered_with_415(rt: HostRuntime) {
    let expected: &[u8] = &[0, 0, 5, 1, 5, 0, 0, 0, 1, 8, 3, 0x34, 0x31, 0x35];
    assert!(rt; is_answered(rt.alloc(), SETTINGS, expected));
}

#[test]
fn the_first_answer_behind_a_change_of_the_table_begins_with_a_size_update(rt: HostRuntime) {
    let expected: &[u8] = &[0, 0, 6, 1, 5, 0, 0, 0, 1, 0x20, 8, 3, 0x34, 0x31, 0x35];
    assert!(rt; is_answered(rt.alloc(), NO_TABLE, expected));
}

// What octets come to. A fault of the peer ends the connection.
fn come(alloc: Global, recv: &mut Recv, wire: &mut Wire<MemSink>, octets: &[u8]) -> Came {
    let all = feed(alloc, recv, wire, octets);
    let _end = match all {
        Came::Protocol(code) => wire.finish(code),
        Came::Overflow => wire.finish(3),
        _ => Ok(()),
    };
    all
}

// What octets come to behind the preface, and what was written for them.
fn behind_the_preface(alloc: Global, octets: &[u8]) -> (Came, MemSink) {
    let mut recv = Recv::make(alloc);
    let mut wire = new_wire(alloc);
    let _preface = feed(alloc, &mut recv, &mut wire, PREFACE);
    let all = come(alloc, &mut recv, &mut wire, octets);
    (all, wire.give())
}

// Whether octets behind the preface come to this, and those are written.
fn come_behind_the_preface(alloc: Global, octets: &[u8], came: Came, expected: &[u8]) -> bool {
    let (all, sink) = behind_the_preface(alloc, octets);
    all == came && written(&sink) == expected
}

// Frames behind the preface, what they come to, and what is written.
const TABLE: &[(&[u8], Came, &[u8])] = &[
    (SETTINGS, Came::Read, ACK),
    (
        LARGE_WINDOW,
        Came::Protocol(3),
        &[0, 0, 8, 7, 0, 0, 0, 0, 0, 0, 0, 0, 0, 0, 0, 0, 3],
    ),
];

#[test]
fn faults_of_the_peer_end_the_connection_with_goaway(rt: HostRuntime) {
    for (octets, came, expected) in TABLE {
        assert!(rt;
            come_behind_the_preface(rt.alloc(), octets, *came, expected),
            "{octets:?}"
        );
    }
}

// What comes behind SETTINGS.
fn behind_settings(alloc: Global, octets: &[u8]) -> (Came, MemSink) {
    let mut recv = Recv::make(alloc);
    let mut wire = new_wire(alloc);
    let _preface = feed(alloc, &mut recv, &mut wire, PREFACE);
    let _settings = feed(alloc, &mut recv, &mut wire, SETTINGS);
    let all = come(alloc, &mut recv, &mut wire, octets);
    (all, wire.give())
}

// Whether octets behind SETTINGS come to this, and those are written behind the ACK.
fn come_behind_settings(alloc: Global, octets: &[u8], came: Came, expected: &[u8]) -> bool {
    let (all, sink) = behind_settings(alloc, octets);
    all == came && behind(&sink, 9) == expected
}

// WINDOW_UPDATE of 2,147,483,647 for the connection.
const LARGEST_INCREMENT: &[u8] = &[0, 0, 4, 8, 0, 0, 0, 0, 0, 0x7f, 0xff, 0xff, 0xff];

const BEHIND_SETTINGS: &[(&[u8], Came, &[u8])] = &[
    (
        PING,
        Came::Read,
        &[0, 0, 8, 6, 1, 0, 0, 0, 0, 1, 2, 3, 4, 5, 6, 7, 8],
    ),
    (
        CALL_ON_STREAM_2,
        Came::Protocol(1),
        &[0, 0, 8, 7, 0, 0, 0, 0, 0, 0, 0, 0, 0, 0, 0, 0, 1],
    ),
    (
        LARGEST_INCREMENT,
        Came::Overflow,
        &[0, 0, 8, 7, 0, 0, 0, 0, 0, 0, 0, 0, 0, 0, 0, 0, 3],
    ),
    (CALL, Came::Read, &[]),
];

#[test]
fn pings_are_answered_and_other_streams_and_windows_refused(rt: HostRuntime) {
    for (octets, came, expected) in BEHIND_SETTINGS {
        assert!(rt;
            come_behind_settings(rt.alloc(), octets, *came, expected),
            "{octets:?}"
        );
    }
}

// ---- a reply under small windows

fn message(rt: &impl Abort, alloc: Global) -> Piece
    ensures { FitsMessage result }
{
    let octets = vec![in alloc; 7u8; 40_000];
    let octets = Bytes::from_vec(octets.expect(rt, "memory"));
    if octets.len() == 40_000 {
        Piece::Message(octets)
    } else {
        Piece::Finish(None)
    }
}

/// One step of a call on stream 1.
#[derive(Clone, Copy, Debug)]
enum Step {
    /// The client sends this.
    Client(&'static [u8]),
    /// Stream 1 is asked for, and stands so.
    Ready(Ready),
    /// A message of 40,000 octets is offered, and this becomes of it.
    Message(Took),
    /// The call is accepted, and this becomes of that.
    Finish(Took),
}

// WINDOW_UPDATE on stream 1 of 10,000 and of 30,005.
const SOME: &[u8] = &[0, 0, 4, 8, 0, 0, 0, 0, 1, 0, 0, 0x27, 0x10];

const REST: &[u8] = &[0, 0, 4, 8, 0, 0, 0, 0, 1, 0, 0, 0x75, 0x35];

// The steps, and how many octets are written behind each.
const REPLY: &[(Step, usize)] = &[
    (Step::Client(NO_WINDOW), 9),
    (Step::Ready(Ready::Gone), 9),
    (Step::Client(CALL), 9),
    (Step::Ready(Ready::Free), 9),
    (Step::Message(Took::Taken), 38),
    (Step::Message(Took::Busy), 38),
    (Step::Ready(Ready::Busy), 38),
    (Step::Finish(Took::Busy), 38),
    (Step::Client(SOME), 10_047),
    (Step::Finish(Took::Busy), 10_047),
    (Step::Client(REST), 40_070),
    (Step::Finish(Took::Taken), 40_094),
    (Step::Finish(Took::Gone), 40_094),
];

// Takes a step, and answers whether it came to what is expected.
fn is_taken(
    rt: &impl Abort,
    alloc: Global,
    recv: &mut Recv,
    wire: &mut Wire<MemSink>,
    step: Step,
) -> bool {
    match step {
        Step::Ready(expected) => wire.ready(1) == expected,
        Step::Client(octets) => feed(alloc, recv, wire, octets) == Came::Read,
        Step::Message(expected) => wire.offer(alloc, 1, message(rt, alloc)) == expected,
        Step::Finish(expected) => wire.offer(alloc, 1, Piece::Finish(None)) == expected,
    }
}

// Takes these steps behind the preface, and answers whether each came to what is expected.
fn are_taken(
    rt: &impl Abort,
    alloc: Global,
    recv: &mut Recv,
    wire: &mut Wire<MemSink>,
    steps: &[(Step, usize)],
) -> bool {
    let mut all = feed(alloc, recv, wire, PREFACE) == Came::Read;
    for (step, _) in steps {
        all = is_taken(rt, alloc, recv, wire, *step) && all;
    }
    all
}

// What is written behind these steps, and whether each came to what is expected.
fn replied(rt: &impl Abort, alloc: Global, steps: &[(Step, usize)]) -> (bool, MemSink) {
    let mut recv = Recv::make(alloc);
    let mut wire = new_wire(alloc);
    let all = are_taken(rt, alloc, &mut recv, &mut wire, steps);
    (all, wire.give())
}

// Whether each of these steps comes to what is expected, and so many octets are written behind them.
fn is_replied(rt: &impl Abort, alloc: Global, steps: &[(Step, usize)], count: usize) -> bool {
    let (all, sink) = replied(rt, alloc, steps);
    all && behind(&sink, 0).len() == count
}

#[test]
fn a_reply_is_sent_as_far_as_the_windows_let_it_through(rt: HostRuntime) {
    for (place, (_, count)) in REPLY.iter().enumerate() {
        let steps = REPLY.get(..=place).unwrap_or(&[]);
        assert!(rt; is_replied(&rt, rt.alloc(), steps, *count), "step {place}");
    }
}

// Where frames of the reply begin, and their heads.
const HEADS: &[(usize, &[u8])] = &[
    (9, &[0, 0, 20, 1, 4, 0, 0, 0, 1]),
    (
        38,
        &[0, 0x27, 0x10, 0, 0, 0, 0, 0, 1, 0, 0, 0, 0x9c, 0x40, 7],
    ),
    (10_047, &[0, 0x40, 0, 0, 0, 0, 0, 0, 1, 7]),
    (26_440, &[0, 0x35, 0x35, 0, 0, 0, 0, 0, 1, 7]),
    (40_070, &[0, 0, 15, 1, 5, 0, 0, 0, 1]),
];

// Whether a frame with this head begins there in the reply.
fn has_head(rt: &impl Abort, alloc: Global, place: usize, head: &[u8]) -> bool {
    let (_all, sink) = replied(rt, alloc, REPLY);
    behind(&sink, place).starts_with(head)
}

#[test]
fn a_reply_is_headers_data_and_trailers(rt: HostRuntime) {
    for (place, head) in HEADS {
        assert!(rt; has_head(&rt, rt.alloc(), *place, head), "at {place}");
    }
}

// ---- the greeting

// What is written by these calls on a new wire: greet, act, greet, finish.
fn begun(alloc: Global, greets_first: bool) -> MemSink {
    let mut wire = Wire::make(alloc, MemSink::make(alloc, Texts::empty(alloc)));
    if greets_first {
        let _greeting = wire.greet();
    }
    let _ping = wire.act(alloc, &RecvEvent::Ping(1));
    let _again = wire.greet();
    let _end = wire.finish(0);
    wire.give()
}

// Whether a wire that is greeted first answers a PING behind its greeting.
fn answers_once_greeted(alloc: Global) -> bool {
    let sink = begun(alloc, true);
    sink.octets().len() == 38 && behind(&sink, 0).get(3) == Some(&6)
}

// Whether a wire that is greeted later writes its greeting alone.
fn writes_greeting_alone(alloc: Global) -> bool {
    let sink = begun(alloc, false);
    sink.octets() == GREETING
}

#[test]
fn a_wire_is_greeted_once_and_writes_nothing_before(rt: HostRuntime) {
    assert!(rt; answers_once_greeted(rt.alloc()) && writes_greeting_alone(rt.alloc()));
}

// What is written by these calls on a new wire: finish, greet, finish.
fn ended(alloc: Global, code: u32) -> MemSink {
    let mut wire = Wire::make(alloc, MemSink::make(alloc, Texts::empty(alloc)));
    let _end = wire.finish(code);
    let _greeting = wire.greet();
    let _again = wire.finish(2);
    wire.give()
}

// Whether so many octets are written by them, and these behind the greeting.
fn is_ended_with(alloc: Global, code: u32, count: usize, octets: &[u8]) -> bool {
    let sink = ended(alloc, code);
    sink.octets().len() == count && written(&sink) == octets
}

#[test]
fn a_wire_that_ends_before_its_greeting_writes_it_before_goaway(rt: HostRuntime) {
    let goaway: &[u8] = &[0, 0, 8, 7, 0, 0, 0, 0, 0, 0, 0, 0, 0, 0, 0, 0, 1];
    assert!(rt; is_ended_with(rt.alloc(), 0, 0, &[]) && is_ended_with(rt.alloc(), 1, 38, goaway));
}

// ---- a status behind a message

// What opens stream 1.
const OPENING: &[&[u8]] = &[PREFACE, SETTINGS, CALL];

// The client opens stream 1.
fn open_stream(rt: &impl Abort, alloc: Global, recv: &mut Recv, wire: &mut Wire<MemSink>) {
    for octets in OPENING {
        if feed(alloc, recv, wire, octets) != Came::Read {
            rt.abort();
        }
    }
}

// A wire on which the client has opened stream 1.
fn called(rt: &impl Abort, alloc: Global) -> Wire<MemSink> {
    let mut recv = Recv::make(alloc);
    let mut wire = new_wire(alloc);
    open_stream(rt, alloc, &mut recv, &mut wire);
    wire
}

// Whether no status is said on stream 1 behind a message, nor behind its end.
fn refuses_late_statuses(alloc: Global, wire: &mut Wire<MemSink>) -> bool {
    wire.offer(alloc, 1, Piece::Message(Bytes::empty(alloc))) == Took::Taken
        && wire.http(alloc, 1, 415) == Took::Gone
        && wire.ready(1) == Ready::Free
        && wire.offer(alloc, 1, Piece::Finish(None)) == Took::Taken
        && wire.http(alloc, 1, 415) == Took::Gone
}

// Whether that is so on a new call, and nothing of a status is written.
fn writes_no_late_status(rt: &impl Abort, alloc: Global) -> bool {
    let mut wire = called(rt, alloc);
    let is_refused = refuses_late_statuses(alloc, &mut wire);
    let sink = wire.give();
    is_refused && behind(&sink, 9).len() == 67
}

#[test]
fn a_status_is_said_before_all_else_or_not_at_all(rt: HostRuntime) {
    assert!(rt; writes_no_late_status(&rt, rt.alloc()));
}

// ---- what is taken and what waits

// Whether so many octets were taken on stream 1, and so many wait, behind this event.
fn leaves(
    alloc: Global,
    wire: &mut Wire<MemSink>,
    event: RecvEvent,
    taken: u64,
    held: usize,
) -> bool {
    let _done = wire.act(alloc, &event);
    (wire.taken(1), wire.held()) == (taken, held)
}

// Whether a message is taken, and then so many octets were taken on stream 1, and so many wait.
fn takes_message(
    rt: &impl Abort,
    alloc: Global,
    wire: &mut Wire<MemSink>,
    taken: u64,
    held: usize,
) -> bool {
    wire.offer(alloc, 1, message(rt, alloc)) == Took::Taken
        && (wire.taken(1), wire.held()) == (taken, held)
}

// Whether messages are taken on stream 1 and wait for the windows, until the stream is reset.
fn keeps_back(rt: &impl Abort, alloc: Global, wire: &mut Wire<MemSink>) -> bool {
    leaves(alloc, wire, RecvEvent::Settings(0, false), 0, 0)
        && takes_message(rt, alloc, wire, 40_005, 40_005)
        && leaves(alloc, wire, RecvEvent::Window(1, 10_000), 40_005, 30_005)
        && leaves(alloc, wire, RecvEvent::Window(1, 100_000), 40_005, 0)
        && takes_message(rt, alloc, wire, 80_010, 14_475)
        && wire.taken(3) == 0
        && leaves(alloc, wire, RecvEvent::Reset(1), 0, 0)
}

// Whether that is so on a new call.
fn call_keeps_back(rt: &impl Abort, alloc: Global) -> bool {
    let mut wire = called(rt, alloc);
    keeps_back(rt, alloc, &mut wire)
}

#[test]
fn octets_are_taken_and_wait_until_they_go(rt: HostRuntime) {
    assert!(rt; call_keeps_back(&rt, rt.alloc()));
}

// ---- a port of any kind

// Says that a call is accepted, where its stream is free.
fn accepts<W: WirePort>(alloc: Global, port: &mut W, stream: u32) -> Took {
    match port.ready(stream) {
        Ready::Free => port.offer(alloc, stream, Piece::Finish(None)),
        Ready::Busy => Took::Busy,
        Ready::Gone => Took::Gone,
    }
}

// Whether a call is accepted on stream 1 alone, and once.
fn accepts_once(alloc: Global, wire: &mut Wire<MemSink>) -> bool {
    accepts(alloc, wire, 3) == Took::Gone
        && accepts(alloc, wire, 1) == Took::Taken
        && accepts(alloc, wire, 1) == Took::Gone
}

// Whether that is so of a wire on which the client has opened stream 1.
fn call_is_accepted_once(rt: &impl Abort, alloc: Global) -> bool {
    let mut wire = called(rt, alloc);
    accepts_once(alloc, &mut wire)
}

#[test]
fn a_wire_is_a_port(rt: HostRuntime) {
    assert!(rt; call_is_accepted_once(&rt, rt.alloc()));
}

// ---- a sink that fails

// The numbers of the writes that fail: this one.
fn one_number(rt: &impl Abort, alloc: Global, number: &[u8]) -> Texts {
    let number = Text::of(alloc, number).expect(rt, "memory");
    let mut fails = Texts::empty(alloc);
    fails.push(number).expect(rt, "memory");
    fails
}

// What becomes of a call, a reply and its end where the write with this number fails, and how many octets are written.
fn failing(rt: &impl Abort, alloc: Global, number: &[u8]) -> (Took, Took, usize) {
    let fails = one_number(rt, alloc, number);
    let mut wire = Wire::make(alloc, MemSink::make(alloc, fails));
    let _greeting = wire.greet();
    let _call = wire.act(alloc, &RecvEvent::TooLong(1));
    let first = wire.offer(alloc, 1, message(rt, alloc));
    let second = wire.offer(alloc, 1, Piece::Finish(None));
    (first, second, wire.give().octets().len())
}

const FAILING: &[(&[u8], (Took, Took, usize))] = &[
    (b"1", (Took::Gone, Took::Gone, 0)),
    (b"3", (Took::WriteFault, Took::Gone, 21)),
    (b"4", (Took::WriteFault, Took::Gone, 50)),
    (b"9", (Took::WriteFault, Took::Gone, 32_845)),
    (b"11", (Took::Taken, Took::Taken, 40_106)),
];

#[test]
fn a_failed_write_closes_the_wire(rt: HostRuntime) {
    for (number, expected) in FAILING {
        assert_eq!(rt;
            failing(&rt, rt.alloc(), number),
            *expected,
            "write {number:?}"
        );
    }
}
