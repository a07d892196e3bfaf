//! What is written for single frames and calls.
use crate::served::{Outcome, served};
use session_core::How;
use std::alloc::Global;
use std::process::Abort;
use test_captures::BEGIN;

/// SETTINGS with MAX_CONCURRENT_STREAMS 32 and MAX_HEADER_LIST_SIZE 16,384, and the ACK of the client's.
const BEGUN: &[u8] =
    b"\0\0\x0c\x04\0\0\0\0\0\0\x03\0\0\0\x20\0\x06\0\0\x40\0\0\0\0\x04\x01\0\0\0\0";

/// What a client sends behind that, how the connection ends, and what is written behind that.
type Row = (&'static [u8], How, &'static [u8]);

const ROWS: &[Row] = &[
    (b"", How::Closed, b""),
    // Another type of content, and behind a change of the table's size.
    (
        b"\0\0\x10\x01\x05\0\0\0\x01\x83\x86\x84\x0f\x10\x0atext/plain",
        How::Closed,
        b"\0\0\x05\x01\x05\0\0\0\x01\x08\x03415",
    ),
    (
        b"\0\0\x06\x04\0\0\0\0\0\0\x01\0\0\0\0\0\0\x10\x01\x05\0\0\0\x01\x83\x86\x84\x0f\x10\x0atext/plain",
        How::Closed,
        b"\0\0\0\x04\x01\0\0\0\0\0\0\x06\x01\x05\0\0\0\x01\x20\x08\x03415",
    ),
    // Blocks of RFC 7541 C.3.1 and C.4.1, a GET each, and the second with another padding.
    (
        b"\0\0\x14\x01\x05\0\0\0\x01\x82\x86\x84\x41\x0fwww.example.com",
        How::Closed,
        b"\0\0\x05\x01\x05\0\0\0\x01\x08\x03405",
    ),
    (
        b"\0\0\x11\x01\x05\0\0\0\x01\x82\x86\x84\x41\x8c\xf1\xe3\xc2\xe5\xf2\x3a\x6b\xa0\xab\x90\xf4\xff",
        How::Closed,
        b"\0\0\x05\x01\x05\0\0\0\x01\x08\x03405",
    ),
    (
        b"\0\0\x11\x01\x05\0\0\0\x01\x82\x86\x84\x41\x8c\xf1\xe3\xc2\xe5\xf2\x3a\x6b\xa0\xab\x90\xf4\xfe",
        How::Protocol(9),
        b"\0\0\x08\x07\0\0\0\0\0\0\0\0\0\0\0\0\x09",
    ),
    // PING, a stream of even number, an initial window of 2^31, and a window of the connection above 2^31 - 1.
    (
        b"\0\0\x08\x06\0\0\0\0\0\x01\x02\x03\x04\x05\x06\x07\x08",
        How::Closed,
        b"\0\0\x08\x06\x01\0\0\0\0\x01\x02\x03\x04\x05\x06\x07\x08",
    ),
    (
        b"\0\0\x10\x01\x05\0\0\0\x02\x83\x86\x84\x0f\x10\x0atext/plain",
        How::Protocol(1),
        b"\0\0\x08\x07\0\0\0\0\0\0\0\0\0\0\0\0\x01",
    ),
    (
        b"\0\0\x06\x04\0\0\0\0\0\0\x04\x80\0\0\0",
        How::Protocol(3),
        b"\0\0\x08\x07\0\0\0\0\0\0\0\0\0\0\0\0\x03",
    ),
    (
        b"\0\0\x04\x08\0\0\0\0\0\x7f\xff\xff\xff\0\0\x08\x06\0\0\0\0\0\0\0\0\0\0\0\0\0",
        How::Protocol(3),
        b"\0\0\x08\x07\0\0\0\0\0\0\0\0\0\0\0\0\x03",
    ),
    // A path without a method.
    (
        b"\0\0\x19\x01\x05\0\0\0\x01\x83\x86\x04\x02/x\x0f\x10\x10application/grpc",
        How::Closed,
        b"\0\0\x41\x01\x05\0\0\0\x01\x88\x0f\x10\x10application/grpc\0\x0bgrpc-status\x0212\0\x0cgrpc-message\x0eno such method",
    ),
];

/// What is behind these frames, where the octets begin with them.
pub(crate) fn behind_frames<'a>(octets: &'a [u8], frames: &[&[u8]]) -> Option<&'a [u8]> {
    let mut left = octets;
    for frame in frames {
        left = left.strip_prefix(frame)?;
    }
    Some(left)
}

/// Whether the octets are just these frames.
pub(crate) fn are_frames(octets: &[u8], frames: &[&[u8]]) -> bool {
    match behind_frames(octets, frames) {
        Some(left) => left.is_empty(),
        None => false,
    }
}

/// What a connection wrote behind its beginning, where it ended so.
pub(crate) fn written_behind(served: &Outcome, how: How) -> Option<&[u8]> {
    if served.how == how {
        served.written.items().strip_prefix(BEGUN)
    } else {
        None
    }
}

/// Whether a connection ended so, and wrote just these frames behind its beginning.
fn came_to(served: &Outcome, how: How, frames: &[&[u8]]) -> bool {
    match written_behind(served, how) {
        Some(written) => are_frames(written, frames),
        None => false,
    }
}

pub(crate) fn put_frames(rt: &impl Abort, octets: &mut Vec<u8>, frames: &[&[u8]]) {
    for frame in frames {
        octets.extend_from_slice(frame).expect(rt, "memory");
    }
}

/// What a connection comes to that goes on with these frames.
pub(crate) fn behind(rt: &impl Abort, alloc: Global, frames: &[&[u8]]) -> Outcome {
    let mut octets = BEGIN.to_vec(alloc).expect(rt, "memory");
    put_frames(rt, &mut octets, frames);
    served(rt, alloc, octets.as_slice(), 1000)
}

/// Whether a connection that goes on with these frames ends so, and writes just those behind its beginning.
pub(crate) fn comes_to(
    rt: &impl Abort,
    alloc: Global,
    sent: &[&[u8]],
    how: How,
    written: &[&[u8]],
) -> bool {
    let end = behind(rt, alloc, sent);
    came_to(&end, how, written)
}

#[test]
fn frames_are_answered(rt: HostRuntime) {
    let alloc = rt.alloc();
    for (number, (octets, how, written)) in ROWS.iter().enumerate() {
        let came = comes_to(&rt, alloc, &[*octets], *how, &[*written]);
        assert!(rt; came, "row {number}");
    }
}

/// The headers of a Set on stream 1.
const SET: &[u8] =
    b"\0\0\x25\x01\x04\0\0\0\x01\x83\x86\x04\x0e/gnmi.gNMI/Set\x0f\x10\x10application/grpc";

/// A message that is said to have 4,194,304 octets, and one octet of it.
const LONGEST: &[u8] = b"\0\0\x06\0\0\0\0\0\x01\0\0\x40\0\0\x08";

/// What comes behind the headers of a Set, and what is written for it.
const MESSAGES: &[(&[u8], &[u8])] = &[
    (
        LONGEST,
        b"\0\0\x04\x08\0\0\0\0\0\0\0\0\x06\0\0\x04\x08\0\0\0\0\x01\0\0\0\x06",
    ),
    (
        b"\0\0\x05\0\0\0\0\0\x01\0\0\x40\0\x01",
        b"\0\0\x04\x08\0\0\0\0\0\0\0\0\x05\0\0\x04\x08\0\0\0\0\x01\0\0\0\x05\0\0\x3b\x01\x05\0\0\0\x01\x88\x0f\x10\x10application/grpc\0\x0bgrpc-status\x018\0\x0cgrpc-message\x09too large",
    ),
    (
        b"\0\0\x05\0\0\0\0\0\x01\x01\0\0\0\0",
        b"\0\0\x04\x08\0\0\0\0\0\0\0\0\x05\0\0\x04\x08\0\0\0\0\x01\0\0\0\x05\0\0\x45\x01\x05\0\0\0\x01\x88\x0f\x10\x10application/grpc\0\x0bgrpc-status\x0212\0\x0cgrpc-message\x12compressed message",
    ),
    // A message of one octet is none, and no message is none either.
    (
        b"\0\0\x06\0\x01\0\0\0\x01\0\0\0\0\x01\x08",
        b"\0\0\x04\x08\0\0\0\0\0\0\0\0\x06\0\0\x3e\x01\x05\0\0\0\x01\x88\x0f\x10\x10application/grpc\0\x0bgrpc-status\x0213\0\x0cgrpc-message\x0bbad message",
    ),
    (
        b"\0\0\0\0\x01\0\0\0\x01",
        b"\0\0\x3e\x01\x05\0\0\0\x01\x88\x0f\x10\x10application/grpc\0\x0bgrpc-status\x0213\0\x0cgrpc-message\x0bbad message",
    ),
    // A client that resets the stream gets nothing.
    (b"\0\0\x04\x03\0\0\0\0\x01\0\0\0\x08", b""),
];

#[test]
fn messages_are_refused_at_their_limits(rt: HostRuntime) {
    let alloc = rt.alloc();
    for (number, (octets, written)) in MESSAGES.iter().enumerate() {
        let came = comes_to(&rt, alloc, &[SET, *octets], How::Closed, &[*written]);
        assert!(rt; came, "row {number}");
    }
}

/// HEADERS with one header whose name has an octet and whose value so many that the list has 16,385.
fn long_list(rt: &impl Abort, alloc: Global) -> Vec<u8> {
    let head: &[u8] = b"\0\x3f\xe6\x01\x05\0\0\0\x01\0\x01a\x7f\xe1\x7e";
    let mut octets = head.to_vec(alloc).expect(rt, "memory");
    for _ in 0..16_352 {
        octets.push(0x61).expect(rt, "memory");
    }
    octets
}

/// What is written for it.
const LONG_LIST_REFUSED: &[u8] =
    b"\0\0\x3b\x01\x05\0\0\0\x01\x88\x0f\x10\x10application/grpc\0\x0bgrpc-status\x018\0\x0cgrpc-message\x09too large";

fn long_list_is_refused(rt: &impl Abort, alloc: Global) -> bool {
    let octets = long_list(rt, alloc);
    comes_to(
        rt,
        alloc,
        &[octets.as_slice()],
        How::Closed,
        &[LONG_LIST_REFUSED],
    )
}

#[test]
fn a_list_of_headers_that_is_too_long_is_refused(rt: HostRuntime) {
    let alloc = rt.alloc();
    assert!(rt; long_list_is_refused(&rt, alloc));
}

/// An initial window of 0, a Set of nothing, WINDOW_UPDATE of 4 and of 100 on its stream.
const WAITING: &[u8] = b"\0\0\x06\x04\0\0\0\0\0\0\x04\0\0\0\0\
    \0\0\x25\x01\x04\0\0\0\x01\x83\x86\x04\x0e/gnmi.gNMI/Set\x0f\x10\x10application/grpc\
    \0\0\x05\0\x01\0\0\0\x01\0\0\0\0\0\
    \0\0\x04\x08\0\0\0\0\x01\0\0\0\x04\
    \0\0\x04\x08\0\0\0\0\x01\0\0\0\x64";

/// The ACK, the update of the connection's window, the reply's headers, four octets and then four, and trailers.
const WAITED: &[u8] = b"\0\0\0\x04\x01\0\0\0\0\
    \0\0\x04\x08\0\0\0\0\0\0\0\0\x05\
    \0\0\x14\x01\x04\0\0\0\x01\x88\x0f\x10\x10application/grpc\
    \0\0\x04\0\0\0\0\0\x01\0\0\0\0\
    \0\0\x04\0\0\0\0\0\x01\x03\x20\xe8\x07\
    \0\0\x0f\x01\x05\0\0\0\x01\0\x0bgrpc-status\x010";

#[test]
fn a_reply_and_its_end_wait_for_the_window(rt: HostRuntime) {
    let alloc = rt.alloc();
    assert!(rt; comes_to(&rt, alloc, &[WAITING], How::Closed, &[WAITED]));
    // Without the last update the end of the reply still waits.
    let sent = &WAITING[..WAITING.len() - 13];
    let written = &WAITED[..WAITED.len() - 37];
    assert!(rt; comes_to(&rt, alloc, &[sent], How::Closed, &[written]));
}
