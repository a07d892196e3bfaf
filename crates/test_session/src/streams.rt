//! Subscribe calls of the modes STREAM and POLL over a connection.
use crate::frames::{behind, behind_frames, comes_to, put_frames, written_behind};
use crate::served::{Outcome, served};
use crate::subscribe::{
    ANSWER, BAD_MESSAGE, BAD_SUBSCRIBE, COMPRESSED, DONE, HEAD, NO_ROWS, SYNC, TOO_LARGE, data_head,
};
use session_core::How;
use std::alloc::Global;
use std::process::Abort;
use test_captures::GRPCIO_SUBSCRIBE;

/// SETTINGS with an initial window of 0, and the ACK of it.
const NARROW: &[u8] = b"\0\0\x06\x04\0\0\0\0\0\0\x04\0\0\0\0";

const NARROWED: &[u8] = b"\0\0\0\x04\x01\0\0\0\0";

/// A PING, and its ACK.
const PING: &[u8] = b"\0\0\x08\x06\0\0\0\0\012345678";

const PONG: &[u8] = b"\0\0\x08\x06\x01\0\0\0\012345678";

/// The client cancels the call.
const CANCEL: &[u8] = b"\0\0\x04\x03\0\0\0\0\x01\0\0\0\x08";

/// A list of mode STREAM: of the root, and with the end of the stream; with updates alone; at intervals.
const STREAM: &[u8] = b"\0\0\x0b\0\0\0\0\0\x01\0\0\0\0\x06\x0a\x04\x12\x02\x0a\0";

const STREAM_ENDED: &[u8] = b"\0\0\x0b\0\x01\0\0\0\x01\0\0\0\0\x06\x0a\x04\x12\x02\x0a\0";

const UPDATES: &[u8] = b"\0\0\x0d\0\0\0\0\0\x01\0\0\0\0\x08\x0a\x06\x12\x02\x0a\0\x48\x01";

const SAMPLES: &[u8] = b"\0\0\x0d\0\0\0\0\0\x01\0\0\0\0\x08\x0a\x06\x12\x04\x0a\0\x10\x02";

/// A list of mode POLL: of the root, and with the end of the stream; with updates alone.
const POLLED: &[u8] = b"\0\0\x0d\0\0\0\0\0\x01\0\0\0\0\x08\x0a\x06\x12\x02\x0a\0\x28\x02";

const POLLED_ENDED: &[u8] = b"\0\0\x0d\0\x01\0\0\0\x01\0\0\0\0\x08\x0a\x06\x12\x02\x0a\0\x28\x02";

const POLLED_UPDATES: &[u8] =
    b"\0\0\x0f\0\0\0\0\0\x01\0\0\0\0\x0a\x0a\x08\x12\x02\x0a\0\x28\x02\x48\x01";

/// A Poll, also with the end of the stream; two of them in one frame; a list and a Poll.
const POLL: &[u8] = b"\0\0\x07\0\0\0\0\0\x01\0\0\0\0\x02\x1a\0";

const POLL_ENDED: &[u8] = b"\0\0\x07\0\x01\0\0\0\x01\0\0\0\0\x02\x1a\0";

const TWO_POLLS: &[u8] = b"\0\0\x0e\0\0\0\0\0\x01\0\0\0\0\x02\x1a\0\0\0\0\0\x02\x1a\0";

const POLLED_AT_ONCE: &[u8] =
    b"\0\0\x14\0\0\0\0\0\x01\0\0\0\0\x08\x0a\x06\x12\x02\x0a\0\x28\x02\0\0\0\0\x02\x1a\0";

/// The end of the stream: without octets, in trailers, and within a message.
const END: &[u8] = b"\0\0\0\0\x01\0\0\0\x01";

const TRAILERS: &[u8] = b"\0\0\x05\x01\x05\0\0\0\x01\0\x01a\x01b";

const END_WITHIN: &[u8] = b"\0\0\x03\0\x01\0\0\0\x01\0\0\0";

/// Messages that are none: not whole, compressed, too large.
const BAD: &[u8] = b"\0\0\x06\0\0\0\0\0\x01\0\0\0\0\x01\x08";

const SQUEEZED: &[u8] = b"\0\0\x05\0\0\0\0\0\x01\x01\0\0\0\0";

const HUGE: &[u8] = b"\0\0\x05\0\0\0\0\0\x01\0\0\x40\0\x01";

/// A Set of the hostname on stream 3, and what is answered on that stream; a Set that deletes it, on stream 5.
const SET: &[u8] =
    b"\0\0\x25\x01\x04\0\0\0\x03\x83\x86\x04\x0e/gnmi.gNMI/Set\x0f\x10\x10application/grpc\
    \0\0\x2e\0\x01\0\0\0\x03\0\0\0\0\x29\x22\x27\x0a\x20\x1a\x08\x0a\x06system\x1a\x08\x0a\x06config\x1a\x0a\x0a\x08hostname\x1a\x03\x0a\x01x";

const SET_DONE: &[u8] = b"\0\0\x14\x01\x04\0\0\0\x03\x88\x0f\x10\x10application/grpc\
    \0\0\x2e\0\0\0\0\0\x03\0\0\0\0\x29\x12\x24\x12\x20\x1a\x08\x0a\x06system\x1a\x08\x0a\x06config\x1a\x0a\x0a\x08hostname\x20\x03\x20\xe8\x07\
    \0\0\x0f\x01\x05\0\0\0\x03\0\x0bgrpc-status\x010";

const DELETE: &[u8] =
    b"\0\0\x25\x01\x04\0\0\0\x05\x83\x86\x04\x0e/gnmi.gNMI/Set\x0f\x10\x10application/grpc\
    \0\0\x27\0\x01\0\0\0\x05\0\0\0\0\x22\x12\x20\x1a\x08\x0a\x06system\x1a\x08\x0a\x06config\x1a\x0a\x0a\x08hostname";

const DELETE_DONE: &[u8] = b"\0\0\x14\x01\x04\0\0\0\x05\x88\x0f\x10\x10application/grpc\
    \0\0\x2e\0\0\0\0\0\x05\0\0\0\0\x29\x12\x24\x12\x20\x1a\x08\x0a\x06system\x1a\x08\x0a\x06config\x1a\x0a\x0a\x08hostname\x20\x01\x20\xe9\x07\
    \0\0\x0f\x01\x05\0\0\0\x05\0\x0bgrpc-status\x010";

/// The same, with octets of the replies let through before the Sets are whole.
const SET_LET: &[u8] =
    b"\0\0\x25\x01\x04\0\0\0\x03\x83\x86\x04\x0e/gnmi.gNMI/Set\x0f\x10\x10application/grpc\
    \0\0\x04\x08\0\0\0\0\x03\0\0\0\xc8\
    \0\0\x2e\0\x01\0\0\0\x03\0\0\0\0\x29\x22\x27\x0a\x20\x1a\x08\x0a\x06system\x1a\x08\x0a\x06config\x1a\x0a\x0a\x08hostname\x1a\x03\x0a\x01x";

const DELETE_LET: &[u8] =
    b"\0\0\x25\x01\x04\0\0\0\x05\x83\x86\x04\x0e/gnmi.gNMI/Set\x0f\x10\x10application/grpc\
    \0\0\x04\x08\0\0\0\0\x05\0\0\0\xc8\
    \0\0\x27\0\x01\0\0\0\x05\0\0\0\0\x22\x12\x20\x1a\x08\x0a\x06system\x1a\x08\x0a\x06config\x1a\x0a\x0a\x08hostname";

/// A Set of another hostname in its place, and what is answered.
const CHANGE_LET: &[u8] =
    b"\0\0\x25\x01\x04\0\0\0\x05\x83\x86\x04\x0e/gnmi.gNMI/Set\x0f\x10\x10application/grpc\
    \0\0\x04\x08\0\0\0\0\x05\0\0\0\xc8\
    \0\0\x2e\0\x01\0\0\0\x05\0\0\0\0\x29\x22\x27\x0a\x20\x1a\x08\x0a\x06system\x1a\x08\x0a\x06config\x1a\x0a\x0a\x08hostname\x1a\x03\x0a\x01y";

const CHANGE_DONE: &[u8] = b"\0\0\x14\x01\x04\0\0\0\x05\x88\x0f\x10\x10application/grpc\
    \0\0\x2e\0\0\0\0\0\x05\0\0\0\0\x29\x12\x24\x12\x20\x1a\x08\x0a\x06system\x1a\x08\x0a\x06config\x1a\x0a\x0a\x08hostname\x20\x03\x20\xe9\x07\
    \0\0\x0f\x01\x05\0\0\0\x05\0\x0bgrpc-status\x010";

/// A Subscribe call of mode STREAM on stream 5, and what is answered there: the hostname, and a sync.
const HEAD_BEHIND: &[u8] =
    b"\0\0\x2b\x01\x04\0\0\0\x05\x83\x86\x04\x14/gnmi.gNMI/Subscribe\x0f\x10\x10application/grpc";

const STREAM_BEHIND: &[u8] = b"\0\0\x0b\0\0\0\0\0\x05\0\0\0\0\x06\x0a\x04\x12\x02\x0a\0";

const OPEN_11_BEHIND: &[u8] = b"\0\0\x04\x08\0\0\0\0\0\0\0\0\x0b\
    \0\0\x04\x08\0\0\0\0\x05\0\0\0\x0b";

const STATE_BEHIND: &[u8] = b"\0\0\x14\x01\x04\0\0\0\x05\x88\x0f\x10\x10application/grpc\
    \0\0\x35\0\0\0\0\0\x05\0\0\0\0\x30\x0a\x2e\x08\xe8\x07\x22\x29\x0a\x20\x1a\x08\x0a\x06system\x1a\x08\x0a\x06config\x1a\x0a\x0a\x08hostname\x1a\x05\x52\x03\"x\"\
    \0\0\x07\0\0\0\0\0\x05\0\0\0\0\x02\x18\x01";

/// The same of an empty tree, and what is said there of a Set on stream 7.
const EMPTY_BEHIND: &[u8] = b"\0\0\x14\x01\x04\0\0\0\x05\x88\x0f\x10\x10application/grpc\
    \0\0\x07\0\0\0\0\0\x05\0\0\0\0\x02\x0a\0\
    \0\0\x07\0\0\0\0\0\x05\0\0\0\0\x02\x18\x01";

const NOTE_BEHIND: &[u8] =
    b"\0\0\x35\0\0\0\0\0\x05\0\0\0\0\x30\x0a\x2e\x08\xe8\x07\x22\x29\x0a\x20\x1a\x08\x0a\x06system\x1a\x08\x0a\x06config\x1a\x0a\x0a\x08hostname\x1a\x05\x52\x03\"x\"";

const SET_LAST: &[u8] =
    b"\0\0\x25\x01\x04\0\0\0\x07\x83\x86\x04\x0e/gnmi.gNMI/Set\x0f\x10\x10application/grpc\
    \0\0\x2e\0\x01\0\0\0\x07\0\0\0\0\x29\x22\x27\x0a\x20\x1a\x08\x0a\x06system\x1a\x08\x0a\x06config\x1a\x0a\x0a\x08hostname\x1a\x03\x0a\x01x";

const SET_LAST_DONE: &[u8] = b"\0\0\x14\x01\x04\0\0\0\x07\x88\x0f\x10\x10application/grpc\
    \0\0\x2e\0\0\0\0\0\x07\0\0\0\0\x29\x12\x24\x12\x20\x1a\x08\x0a\x06system\x1a\x08\x0a\x06config\x1a\x0a\x0a\x08hostname\x20\x03\x20\xe8\x07\
    \0\0\x0f\x01\x05\0\0\0\x07\0\x0bgrpc-status\x010";

/// Notifications of the hostname, of the other one, and that it is gone.
const NOTE: &[u8] =
    b"\0\0\x35\0\0\0\0\0\x01\0\0\0\0\x30\x0a\x2e\x08\xe8\x07\x22\x29\x0a\x20\x1a\x08\x0a\x06system\x1a\x08\x0a\x06config\x1a\x0a\x0a\x08hostname\x1a\x05\x52\x03\"x\"";

const CHANGED: &[u8] =
    b"\0\0\x35\0\0\0\0\0\x01\0\0\0\0\x30\x0a\x2e\x08\xe9\x07\x22\x29\x0a\x20\x1a\x08\x0a\x06system\x1a\x08\x0a\x06config\x1a\x0a\x0a\x08hostname\x1a\x05\x52\x03\"y\"";

const GONE: &[u8] =
    b"\0\0\x2c\0\0\0\0\0\x01\0\0\0\0\x27\x0a\x25\x08\xe9\x07\x2a\x20\x1a\x08\x0a\x06system\x1a\x08\x0a\x06config\x1a\x0a\x0a\x08hostname";

/// Trailers with refusals, behind messages.
const REFUSED: &[u8] =
    b"\0\0\x2b\x01\x05\0\0\0\x01\0\x0bgrpc-status\x013\0\x0cgrpc-message\x0dbad subscribe";

const NOT_READ: &[u8] =
    b"\0\0\x2a\x01\x05\0\0\0\x01\0\x0bgrpc-status\x0213\0\x0cgrpc-message\x0bbad message";

const NOT_SQUEEZED: &[u8] =
    b"\0\0\x31\x01\x05\0\0\0\x01\0\x0bgrpc-status\x0212\0\x0cgrpc-message\x12compressed message";

const NOT_HELD: &[u8] =
    b"\0\0\x27\x01\x05\0\0\0\x01\0\x0bgrpc-status\x018\0\x0cgrpc-message\x09too large";

/// Updates of both windows for so many octets, and of the connection's alone for the last ones.
const OPEN_7: &[u8] = b"\0\0\x04\x08\0\0\0\0\0\0\0\0\x07\
    \0\0\x04\x08\0\0\0\0\x01\0\0\0\x07";

const OPEN_5: &[u8] = b"\0\0\x04\x08\0\0\0\0\0\0\0\0\x05\
    \0\0\x04\x08\0\0\0\0\x01\0\0\0\x05";

const OPEN_6: &[u8] = b"\0\0\x04\x08\0\0\0\0\0\0\0\0\x06\
    \0\0\x04\x08\0\0\0\0\x01\0\0\0\x06";

const OPEN_11: &[u8] = b"\0\0\x04\x08\0\0\0\0\0\0\0\0\x0b\
    \0\0\x04\x08\0\0\0\0\x01\0\0\0\x0b";

const OPEN_13: &[u8] = b"\0\0\x04\x08\0\0\0\0\0\0\0\0\x0d\
    \0\0\x04\x08\0\0\0\0\x01\0\0\0\x0d";

const OPEN_14: &[u8] = b"\0\0\x04\x08\0\0\0\0\0\0\0\0\x0e\
    \0\0\x04\x08\0\0\0\0\x01\0\0\0\x0e";

const OPEN_15: &[u8] = b"\0\0\x04\x08\0\0\0\0\0\0\0\0\x0f\
    \0\0\x04\x08\0\0\0\0\x01\0\0\0\x0f";

const OPEN_20: &[u8] = b"\0\0\x04\x08\0\0\0\0\0\0\0\0\x14\
    \0\0\x04\x08\0\0\0\0\x01\0\0\0\x14";

const OPEN_112: &[u8] = b"\0\0\x04\x08\0\0\0\0\0\0\0\0\x70\
    \0\0\x04\x08\0\0\0\0\x01\0\0\0\x70";

const OPEN_119: &[u8] = b"\0\0\x04\x08\0\0\0\0\0\0\0\0\x77\
    \0\0\x04\x08\0\0\0\0\x01\0\0\0\x77";

const LAST_3: &[u8] = b"\0\0\x04\x08\0\0\0\0\0\0\0\0\x03";

const LAST_7: &[u8] = b"\0\0\x04\x08\0\0\0\0\0\0\0\0\x07";

const LAST_11: &[u8] = b"\0\0\x04\x08\0\0\0\0\0\0\0\0\x0b";

const LAST_13: &[u8] = b"\0\0\x04\x08\0\0\0\0\0\0\0\0\x0d";

const LAST_46: &[u8] = b"\0\0\x04\x08\0\0\0\0\0\0\0\0\x2e";

const LAST_39: &[u8] = b"\0\0\x04\x08\0\0\0\0\0\0\0\0\x27";

/// Octets that the client lets through on stream 1.
const LET_7: &[u8] = b"\0\0\x04\x08\0\0\0\0\x01\0\0\0\x07";

const LET_200: &[u8] = b"\0\0\x04\x08\0\0\0\0\x01\0\0\0\xc8";

const LET_119: &[u8] = b"\0\0\x04\x08\0\0\0\0\x01\0\0\0\x77";

/// The frames that a client sends behind its SETTINGS, and what is written for them.
type Row = (&'static [&'static [u8]], &'static [&'static [u8]]);

const STREAMS: &[Row] = &[
    // The state and a sync; then the call goes on, also behind the peer's end.
    (
        &[HEAD, STREAM, PING],
        &[OPEN_11, ANSWER, NO_ROWS, SYNC, PONG],
    ),
    (
        &[HEAD, STREAM, SET, DELETE],
        &[
            OPEN_11,
            ANSWER,
            NO_ROWS,
            SYNC,
            LAST_46,
            SET_DONE,
            NOTE,
            LAST_39,
            DELETE_DONE,
            GONE,
        ],
    ),
    (
        &[HEAD, STREAM_ENDED, SET],
        &[LAST_11, ANSWER, NO_ROWS, SYNC, LAST_46, SET_DONE, NOTE],
    ),
    (
        &[HEAD, STREAM, END_WITHIN, SET],
        &[
            OPEN_11, ANSWER, NO_ROWS, SYNC, LAST_3, LAST_46, SET_DONE, NOTE,
        ],
    ),
    // A state that isn't empty, in one Notification; updates alone; intervals, of which none is over.
    (
        &[SET, HEAD_BEHIND, STREAM_BEHIND],
        &[LAST_46, SET_DONE, OPEN_11_BEHIND, STATE_BEHIND],
    ),
    (
        &[HEAD, UPDATES, SET],
        &[OPEN_13, ANSWER, SYNC, LAST_46, SET_DONE, NOTE],
    ),
    (
        &[HEAD, SAMPLES, SET],
        &[OPEN_13, ANSWER, NO_ROWS, SYNC, LAST_46, SET_DONE],
    ),
    // While octets wait there is no turn, and then one for all that was changed: nothing where it is as it was.
    (&[NARROW, HEAD, STREAM], &[NARROWED, OPEN_11, ANSWER]),
    (
        &[NARROW, HEAD, STREAM, SET_LET, LET_7],
        &[NARROWED, OPEN_11, ANSWER, LAST_46, SET_DONE, NO_ROWS],
    ),
    (
        &[NARROW, HEAD, STREAM, SET_LET, LET_200],
        &[
            NARROWED, OPEN_11, ANSWER, LAST_46, SET_DONE, NO_ROWS, SYNC, NOTE,
        ],
    ),
    (
        &[NARROW, HEAD, STREAM, SET_LET, DELETE_LET, LET_200],
        &[
            NARROWED,
            OPEN_11,
            ANSWER,
            LAST_46,
            SET_DONE,
            LAST_39,
            DELETE_DONE,
            NO_ROWS,
            SYNC,
        ],
    ),
    (
        &[NARROW, HEAD, STREAM, SET_LET, CHANGE_LET, LET_200],
        &[
            NARROWED,
            OPEN_11,
            ANSWER,
            LAST_46,
            SET_DONE,
            LAST_46,
            CHANGE_DONE,
            NO_ROWS,
            SYNC,
            CHANGED,
        ],
    ),
    // A call that the client cancels says nothing any more.
    (
        &[HEAD, STREAM, CANCEL, SET],
        &[OPEN_11, ANSWER, NO_ROWS, SYNC, LAST_46, SET_DONE],
    ),
    (
        &[NARROW, HEAD, STREAM, CANCEL, PING],
        &[NARROWED, OPEN_11, ANSWER, PONG],
    ),
    // Calls take their turns in the order in which they began.
    (
        &[HEAD, STREAM, HEAD_BEHIND, STREAM_BEHIND, SET_LAST],
        &[
            OPEN_11,
            ANSWER,
            NO_ROWS,
            SYNC,
            OPEN_11_BEHIND,
            EMPTY_BEHIND,
            LAST_46,
            SET_LAST_DONE,
            NOTE,
            NOTE_BEHIND,
        ],
    ),
    // A further message ends the call.
    (
        &[HEAD, STREAM, STREAM],
        &[OPEN_11, ANSWER, NO_ROWS, SYNC, OPEN_11, REFUSED],
    ),
    (
        &[HEAD, STREAM, POLL, SET],
        &[
            OPEN_11, ANSWER, NO_ROWS, SYNC, OPEN_7, REFUSED, LAST_46, SET_DONE,
        ],
    ),
    (
        &[HEAD, STREAM, BAD],
        &[OPEN_11, ANSWER, NO_ROWS, SYNC, OPEN_6, NOT_READ],
    ),
    (
        &[HEAD, STREAM, SQUEEZED],
        &[OPEN_11, ANSWER, NO_ROWS, SYNC, OPEN_5, NOT_SQUEEZED],
    ),
    (
        &[HEAD, STREAM, HUGE],
        &[OPEN_11, ANSWER, NO_ROWS, SYNC, OPEN_5, NOT_HELD],
    ),
    (
        &[NARROW, HEAD, STREAM, POLL, LET_7, LET_7],
        &[NARROWED, OPEN_11, ANSWER, OPEN_7, NO_ROWS, SYNC, REFUSED],
    ),
];

const POLLS: &[Row] = &[
    // The list alone is answered with nothing, and each Poll with the state then and a sync.
    (&[HEAD, POLLED, SET], &[OPEN_13, LAST_46, SET_DONE]),
    (
        &[HEAD, POLLED, POLL, SET, POLL],
        &[
            OPEN_13, OPEN_7, ANSWER, NO_ROWS, SYNC, LAST_46, SET_DONE, OPEN_7, NOTE, SYNC,
        ],
    ),
    (
        &[HEAD, POLLED, TWO_POLLS],
        &[OPEN_13, OPEN_14, ANSWER, NO_ROWS, SYNC, NO_ROWS, SYNC],
    ),
    (
        &[HEAD, POLLED_AT_ONCE, PING],
        &[OPEN_20, ANSWER, NO_ROWS, SYNC, PONG],
    ),
    (
        &[HEAD, POLLED_UPDATES, POLL, SET, POLL],
        &[
            OPEN_15, OPEN_7, ANSWER, SYNC, LAST_46, SET_DONE, OPEN_7, SYNC,
        ],
    ),
    // The peer's end ends the call, once no Poll waits.
    (&[HEAD, POLLED, END], &[OPEN_13, ANSWER, DONE]),
    (&[HEAD, POLLED_ENDED], &[LAST_13, ANSWER, DONE]),
    (
        &[HEAD, POLLED, END_WITHIN],
        &[OPEN_13, LAST_3, ANSWER, DONE],
    ),
    (
        &[HEAD, POLLED, POLL, TRAILERS],
        &[OPEN_13, OPEN_7, ANSWER, NO_ROWS, SYNC, DONE],
    ),
    (
        &[HEAD, POLLED, POLL_ENDED],
        &[OPEN_13, LAST_7, ANSWER, NO_ROWS, SYNC, DONE],
    ),
    (
        &[NARROW, HEAD, POLLED, POLL, POLL_ENDED, LET_7, LET_7],
        &[NARROWED, OPEN_13, OPEN_7, ANSWER, LAST_7, NO_ROWS, SYNC],
    ),
    (
        &[NARROW, HEAD, POLLED, POLL, POLL_ENDED, LET_7, LET_200],
        &[
            NARROWED, OPEN_13, OPEN_7, ANSWER, LAST_7, NO_ROWS, SYNC, NO_ROWS, SYNC, DONE,
        ],
    ),
    // A Poll that waited is answered with the state of its turn.
    (
        &[NARROW, HEAD, POLLED, TWO_POLLS, SET_LET, LET_200],
        &[
            NARROWED, OPEN_13, OPEN_14, ANSWER, LAST_46, SET_DONE, NO_ROWS, SYNC, NOTE, SYNC,
        ],
    ),
    (
        &[NARROW, HEAD, POLLED, TWO_POLLS, CANCEL, PING],
        &[NARROWED, OPEN_13, OPEN_14, ANSWER, PONG],
    ),
    // A second list, and messages that are none.
    (&[HEAD, POLLED, POLLED], &[OPEN_13, OPEN_13, BAD_SUBSCRIBE]),
    (
        &[HEAD, POLLED, POLL, POLLED],
        &[OPEN_13, OPEN_7, ANSWER, NO_ROWS, SYNC, OPEN_13, REFUSED],
    ),
    (&[HEAD, POLLED, BAD], &[OPEN_13, OPEN_6, BAD_MESSAGE]),
    (&[HEAD, POLLED, SQUEEZED], &[OPEN_13, OPEN_5, COMPRESSED]),
    (&[HEAD, POLLED, HUGE], &[OPEN_13, OPEN_5, TOO_LARGE]),
    (
        &[NARROW, HEAD, POLLED, TWO_POLLS, BAD, LET_200],
        &[
            NARROWED, OPEN_13, OPEN_14, ANSWER, OPEN_6, NO_ROWS, SYNC, NOT_READ,
        ],
    ),
];

#[test]
fn streams_say_what_changes(rt: HostRuntime) {
    let alloc = rt.alloc();
    for (number, (sent, written)) in STREAMS.iter().enumerate() {
        let came = comes_to(&rt, alloc, sent, How::Closed, written);
        assert!(rt; came, "row {number}");
    }
}

/// Frames, one frame of so many Polls and frames behind it, or what is written before and behind so many answers.
type Many = (&'static [&'static [u8]], usize, &'static [&'static [u8]]);

const MANY: &[(Many, Many)] = &[
    // Sixteen Polls wait, of which none has had its turn; one more ends the call.
    (
        (&[HEAD, POLLED], 16, &[PING]),
        (&[OPEN_13, OPEN_112, ANSWER], 16, &[PONG]),
    ),
    (
        (&[HEAD, POLLED], 17, &[PING]),
        (&[OPEN_13, OPEN_119, BAD_SUBSCRIBE], 0, &[PONG]),
    ),
    (
        (&[NARROW, HEAD, POLLED, POLL], 16, &[LET_119, LET_119]),
        (&[NARROWED, OPEN_13, OPEN_7, ANSWER, OPEN_112], 17, &[]),
    ),
    (
        (&[NARROW, HEAD, POLLED, POLL], 16, &[END, LET_119, LET_119]),
        (&[NARROWED, OPEN_13, OPEN_7, ANSWER, OPEN_112], 17, &[DONE]),
    ),
    // The refusal comes behind what pends, without the Polls that waited.
    (
        (&[NARROW, HEAD, POLLED, POLL], 17, &[PING]),
        (&[NARROWED, OPEN_13, OPEN_7, ANSWER, OPEN_119], 0, &[PONG]),
    ),
    (
        (&[NARROW, HEAD, POLLED, POLL], 17, &[LET_7, PING, LET_200]),
        (
            &[NARROWED, OPEN_13, OPEN_7, ANSWER, OPEN_119, NO_ROWS],
            0,
            &[PONG, SYNC, REFUSED],
        ),
    ),
    (
        (&[NARROW, HEAD, POLLED, POLL], 16, &[POLL, LET_200]),
        (
            &[NARROWED, OPEN_13, OPEN_7, ANSWER, OPEN_112, OPEN_7],
            1,
            &[REFUSED],
        ),
    ),
];

/// The message of a Poll.
const POLL_MESSAGE: &[u8] = b"\0\0\0\0\x02\x1a\0";

/// Puts frames, one frame of Polls, and frames.
fn put_polls(rt: &impl Abort, octets: &mut Vec<u8>, many: &Many) {
    let (before, count, after) = *many;
    let head = data_head(0, count.saturating_mul(POLL_MESSAGE.len()));
    put_frames(rt, octets, before);
    put_frames(rt, octets, &[head.as_slice()]);
    for _ in 0..count {
        put_frames(rt, octets, &[POLL_MESSAGE]);
    }
    put_frames(rt, octets, after);
}

/// What was written behind frames, the answers to Polls, and frames, where it begins with those.
fn behind_answers<'a>(served: &'a Outcome, many: &Many) -> Option<&'a [u8]> {
    let (before, count, after) = *many;
    let written = written_behind(served, How::Closed)?;
    let mut left = behind_frames(written, before)?;
    for _ in 0..count {
        left = behind_frames(left, &[NO_ROWS, SYNC])?;
    }
    behind_frames(left, after)
}

/// Whether just frames, the answers to Polls, and frames were written.
fn came_to_answers(served: &Outcome, many: &Many) -> bool {
    match behind_answers(served, many) {
        Some(left) => left.is_empty(),
        None => false,
    }
}

/// Whether so many Polls come to so many answers.
fn polls_come_to(rt: &impl Abort, alloc: Global, sent: &Many, written: &Many) -> bool {
    let mut octets = Vec::new(alloc);
    put_polls(rt, &mut octets, sent);
    let end = behind(rt, alloc, &[octets.as_slice()]);
    came_to_answers(&end, written)
}

#[test]
fn sixteen_polls_wait_at_most(rt: HostRuntime) {
    let alloc = rt.alloc();
    for (number, (sent, written)) in MANY.iter().enumerate() {
        assert!(rt; polls_come_to(&rt, alloc, sent, written), "row {number}");
    }
}

/// What is written for a call of grpcio: the greeting, the ACK of its SETTINGS, the updates of both windows, the headers, the
/// notification, the sync and the ACK of its PING. Behind that the client cancels.
const GRPCIO_ANSWER: &[u8] = b"\0\0\x0c\x04\0\0\0\0\0\0\x03\0\0\0\x20\0\x06\0\0\x40\0\
    \0\0\0\x04\x01\0\0\0\0\
    \0\0\x04\x08\0\0\0\0\0\0\0\0\x0f\
    \0\0\x04\x08\0\0\0\0\x01\0\0\0\x0f\
    \0\0\x14\x01\x04\0\0\0\x01\x88\x0f\x10\x10application/grpc\
    \0\0\x07\0\0\0\0\0\x01\0\0\0\0\x02\x0a\0\
    \0\0\x07\0\0\0\0\0\x01\0\0\0\0\x02\x18\x01\
    \0\0\x08\x06\x01\0\0\0\0\0\0\0\0\0\0\0\0";

/// The sizes of the pieces in which the call comes.
const SIZES: &[usize] = &[1, 9, 100, 406];

/// Whether the call in pieces of this size is answered so.
fn grpcio_is_answered(rt: &impl Abort, alloc: Global, size: usize) -> bool {
    let end = served(rt, alloc, GRPCIO_SUBSCRIBE, size);
    end.came_to(How::Closed, GRPCIO_ANSWER)
}

#[test]
fn a_real_client_is_answered_however_its_octets_are_cut(rt: HostRuntime) {
    let alloc = rt.alloc();
    assert!(rt; GRPCIO_SUBSCRIBE.len() == 406);
    for size in SIZES {
        assert!(rt;
            grpcio_is_answered(&rt, alloc, *size),
            "in pieces of {size}"
        );
    }
}

#[test]
fn polls_are_answered(rt: HostRuntime) {
    let alloc = rt.alloc();
    for (number, (sent, written)) in POLLS.iter().enumerate() {
        let came = comes_to(&rt, alloc, sent, How::Closed, written);
        assert!(rt; came, "row {number}");
    }
}
