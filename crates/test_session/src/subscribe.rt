//! Subscribe calls over a connection.
use crate::frames::{are_frames, behind, comes_to, written_behind};
use crate::served::Outcome;
use session_core::How;
use std::alloc::Global;
use std::process::Abort;

/// The headers of a Subscribe call on stream 1.
pub(crate) const HEAD: &[u8] =
    b"\0\0\x2b\x01\x04\0\0\0\x01\x83\x86\x04\x14/gnmi.gNMI/Subscribe\x0f\x10\x10application/grpc";

/// The headers of what is answered, and the trailers of a call that is done.
pub(crate) const ANSWER: &[u8] = b"\0\0\x14\x01\x04\0\0\0\x01\x88\x0f\x10\x10application/grpc";

pub(crate) const DONE: &[u8] = b"\0\0\x0f\x01\x05\0\0\0\x01\0\x0bgrpc-status\x010";

/// A notification of no rows, which is that of an empty tree, and a sync.
pub(crate) const NO_ROWS: &[u8] = b"\0\0\x07\0\0\0\0\0\x01\0\0\0\0\x02\x0a\0";

pub(crate) const SYNC: &[u8] = b"\0\0\x07\0\0\0\0\0\x01\0\0\0\0\x02\x18\x01";

pub(crate) const BAD_MESSAGE: &[u8] =
    b"\0\0\x3e\x01\x05\0\0\0\x01\x88\x0f\x10\x10application/grpc\0\x0bgrpc-status\x0213\0\x0cgrpc-message\x0bbad message";

pub(crate) const TOO_LARGE: &[u8] =
    b"\0\0\x3b\x01\x05\0\0\0\x01\x88\x0f\x10\x10application/grpc\0\x0bgrpc-status\x018\0\x0cgrpc-message\x09too large";

pub(crate) const COMPRESSED: &[u8] =
    b"\0\0\x45\x01\x05\0\0\0\x01\x88\x0f\x10\x10application/grpc\0\x0bgrpc-status\x0212\0\x0cgrpc-message\x12compressed message";

const UNSUPPORTED: &[u8] =
    b"\0\0\x3e\x01\x05\0\0\0\x01\x88\x0f\x10\x10application/grpc\0\x0bgrpc-status\x0212\0\x0cgrpc-message\x0bunsupported";

pub(crate) const BAD_SUBSCRIBE: &[u8] =
    b"\0\0\x3f\x01\x05\0\0\0\x01\x88\x0f\x10\x10application/grpc\0\x0bgrpc-status\x013\0\x0cgrpc-message\x0dbad subscribe";

const BAD_PATH: &[u8] =
    b"\0\0\x3a\x01\x05\0\0\0\x01\x88\x0f\x10\x10application/grpc\0\x0bgrpc-status\x013\0\x0cgrpc-message\x08bad path";

/// The octets of one DATA frame with END_STREAM behind the head, and what is written for them behind the update of the
/// connection's window.
type Row = (&'static [u8], &'static [&'static [u8]]);

const ROWS: &[Row] = &[
    // ONCE of the root, and with updates alone; behind the end nothing is looked at.
    (
        b"\0\0\0\0\x08\x0a\x06\x12\x02\x0a\0\x28\x01",
        &[ANSWER, NO_ROWS, SYNC, DONE],
    ),
    (
        b"\0\0\0\0\x0a\x0a\x08\x12\x02\x0a\0\x28\x01\x48\x01",
        &[ANSWER, SYNC, DONE],
    ),
    (
        b"\0\0\0\0\x08\x0a\x06\x12\x02\x0a\0\x28\x01\0\0\0\0\x08\x0a\x06\x12\x02\x0a\0\x28\x01",
        &[ANSWER, NO_ROWS, SYNC, DONE],
    ),
    (
        b"\0\0\0\0\x08\x0a\x06\x12\x02\x0a\0\x28\x01\x01\0\0\0\0",
        &[ANSWER, NO_ROWS, SYNC, DONE],
    ),
    // The message: its flag, its length, its fields.
    (b"\x01\0\0\0\0", &[COMPRESSED]),
    (b"\0\0\x40\0\x01", &[TOO_LARGE]),
    (b"\0\0\0\0\x01\x08", &[BAD_MESSAGE]),
    // Another extension, origin, encoding than those that are supported; an element; a model.
    (
        b"\0\0\0\0\x0c\x0a\x06\x12\x02\x0a\0\x28\x01\x2a\x02\x0a\0",
        &[UNSUPPORTED],
    ),
    (
        b"\0\0\0\0\x0d\x0a\x0b\x0a\x03\x12\x01x\x12\x02\x0a\0\x28\x01",
        &[UNSUPPORTED],
    ),
    (
        b"\0\0\0\0\x0a\x0a\x08\x12\x02\x0a\0\x28\x01\x40\x01",
        &[UNSUPPORTED],
    ),
    (
        b"\0\0\0\0\x0b\x0a\x09\x12\x05\x0a\x03\x0a\x01x\x28\x01",
        &[UNSUPPORTED],
    ),
    (
        b"\0\0\0\0\x0a\x0a\x08\x12\x02\x0a\0\x28\x01\x3a\0",
        &[UNSUPPORTED],
    ),
    // STREAM, which is the default, goes on without the peer; POLL ends with it.
    (
        b"\0\0\0\0\x06\x0a\x04\x12\x02\x0a\0",
        &[ANSWER, NO_ROWS, SYNC],
    ),
    (
        b"\0\0\0\0\x08\x0a\x06\x12\x02\x0a\0\x28\x02",
        &[ANSWER, DONE],
    ),
    // A Poll, no message, one that isn't whole, no subscriptions, an unknown mode, an interval of 1.
    (b"\0\0\0\0\x02\x1a\0", &[BAD_SUBSCRIBE]),
    (b"", &[BAD_SUBSCRIBE]),
    (b"\0\0\0\0\x08\x0a\x06\x12\x02\x0a\0\x28", &[BAD_SUBSCRIBE]),
    (b"\0\0\0\0\x04\x0a\x02\x28\x01", &[BAD_SUBSCRIBE]),
    (
        b"\0\0\0\0\x08\x0a\x06\x12\x02\x0a\0\x28\x03",
        &[BAD_SUBSCRIBE],
    ),
    (
        b"\0\0\0\0\x0a\x0a\x08\x12\x04\x0a\0\x18\x01\x28\x01",
        &[BAD_SUBSCRIBE],
    ),
    // An element without a name.
    (
        b"\0\0\0\0\x0a\x0a\x08\x12\x04\x0a\x02\x1a\0\x28\x01",
        &[BAD_PATH],
    ),
];

/// The head of a DATA frame on stream 1 with so many octets, fewer than 256.
pub(crate) fn data_head(flags: u8, length: usize) -> [u8; 9] {
    [0, 0, (length % 256) as u8, 0, flags, 0, 0, 0, 1]
}

/// The update of the connection's window for so many octets, fewer than 256.
fn window_update(length: usize) -> [u8; 13] {
    [0, 0, 4, 8, 0, 0, 0, 0, 0, 0, 0, 0, (length % 256) as u8]
}

/// What was written where a DATA frame of so many octets ended the stream, behind the update of the connection's window.
fn answer_to(served: &Outcome, length: usize) -> Option<&[u8]> {
    let written = written_behind(served, How::Closed)?;
    if length > 0 {
        let update = window_update(length);
        written.strip_prefix(update.as_slice())
    } else {
        Some(written)
    }
}

/// Whether the DATA frame of a row was answered so.
fn was_answered(served: &Outcome, row: &Row) -> bool {
    let (data, answer) = *row;
    match answer_to(served, data.len()) {
        Some(written) => are_frames(written, answer),
        None => false,
    }
}

/// Whether the DATA frame of a row is answered so.
fn is_answered(rt: &impl Abort, alloc: Global, row: &Row) -> bool {
    let data = row.0;
    let head = data_head(1, data.len());
    let end = behind(rt, alloc, &[HEAD, head.as_slice(), data]);
    was_answered(&end, row)
}

#[test]
fn the_first_message_decides(rt: HostRuntime) {
    let alloc = rt.alloc();
    for (number, row) in ROWS.iter().enumerate() {
        assert!(rt; is_answered(&rt, alloc, row), "row {number}");
    }
}

/// An initial window of 0, a ONCE call of the root, and WINDOW_UPDATE of 4, 3, 6 and 1 on its stream.
const NARROW: &[u8] = b"\0\0\x06\x04\0\0\0\0\0\0\x04\0\0\0\0\
    \0\0\x2b\x01\x04\0\0\0\x01\x83\x86\x04\x14/gnmi.gNMI/Subscribe\x0f\x10\x10application/grpc\
    \0\0\x0d\0\x01\0\0\0\x01\0\0\0\0\x08\x0a\x06\x12\x02\x0a\0\x28\x01\
    \0\0\x04\x08\0\0\0\0\x01\0\0\0\x04\
    \0\0\x04\x08\0\0\0\0\x01\0\0\0\x03\
    \0\0\x04\x08\0\0\0\0\x01\0\0\0\x06\
    \0\0\x04\x08\0\0\0\0\x01\0\0\0\x01";

/// The ACK, the update of the connection's window, the headers, the notification in two pieces, the sync in two, and trailers.
const NARROWED: &[u8] = b"\0\0\0\x04\x01\0\0\0\0\
    \0\0\x04\x08\0\0\0\0\0\0\0\0\x0d\
    \0\0\x14\x01\x04\0\0\0\x01\x88\x0f\x10\x10application/grpc\
    \0\0\x04\0\0\0\0\0\x01\0\0\0\0\
    \0\0\x03\0\0\0\0\0\x01\x02\x0a\0\
    \0\0\x06\0\0\0\0\0\x01\0\0\0\0\x02\x18\
    \0\0\x01\0\0\0\0\0\x01\x01\
    \0\0\x0f\x01\x05\0\0\0\x01\0\x0bgrpc-status\x010";

#[test]
fn a_sync_and_the_end_wait_behind_the_notification(rt: HostRuntime) {
    let alloc = rt.alloc();
    assert!(rt; comes_to(&rt, alloc, &[NARROW], How::Closed, &[NARROWED]));
    // Without the last update an octet of the sync waits, and the end behind it; without the last two the whole sync.
    let sent = &NARROW[..NARROW.len() - 13];
    let written = &NARROWED[..NARROWED.len() - 34];
    assert!(rt; comes_to(&rt, alloc, &[sent], How::Closed, &[written]));
    let sent = &NARROW[..NARROW.len() - 26];
    let written = &NARROWED[..NARROWED.len() - 49];
    assert!(rt; comes_to(&rt, alloc, &[sent], How::Closed, &[written]));
}
