//! What the peers of connections send.
use base_lists::{Bytes, NoMemory};
use std::alloc::Global;
use std::process::Abort;
use test_captures::BEGIN;

/// The header list of a call, before and after the length and the text of its path.
const BEFORE_PATH: &[u8] = b"\x83\x86\x04";

const AFTER_PATH: &[u8] = b"\x0f\x10\x10application/grpc";

pub(crate) const SUBSCRIBE: &[u8] = b"/gnmi.gNMI/Subscribe";

pub(crate) const SET: &[u8] = b"/gnmi.gNMI/Set";

pub(crate) const GET: &[u8] = b"/gnmi.gNMI/Get";

/// What a client sends: one frame each. Streams and lengths are below 256.
#[derive(Clone, Copy)]
pub(crate) enum Step {
    /// SETTINGS with an initial window.
    Window(u8),
    /// The headers of a call with this path.
    Call(u8, &'static [u8]),
    /// A message of gRPC, and one that is the last of its call.
    Say(u8, &'static [u8]),
    Last(u8, &'static [u8]),
    /// So many octets more may come on a stream.
    Let(u8, u8),
    /// The call is cancelled.
    Cancel(u8),
    /// The call has no more messages.
    End(u8),
    Ping,
}

/// Puts a frame without its payload, of fewer than 256 octets.
fn put_head(
    octets: &mut Bytes,
    length: usize,
    kind: u8,
    flags: u8,
    on: u8,
) -> Result<(), NoMemory> {
    let length = (length % 256) as u8;
    octets.extend_from_slice(&[0, 0, length, kind, flags, 0, 0, 0, on])
}

/// Puts HEADERS with END_HEADERS.
fn put_call(octets: &mut Bytes, on: u8, path: &[u8]) -> Result<(), NoMemory> {
    let length = path.len() % 128;
    put_head(
        octets,
        BEFORE_PATH.len() + 1 + length + AFTER_PATH.len(),
        1,
        4,
        on,
    )?;
    octets.extend_from_slice(BEFORE_PATH)?;
    octets.push(length as u8)?;
    octets.extend_from_slice(path)?;
    octets.extend_from_slice(AFTER_PATH)
}

/// Puts DATA with a message of gRPC.
fn put_message(octets: &mut Bytes, flags: u8, on: u8, message: &[u8]) -> Result<(), NoMemory> {
    let length = message.len() % 128;
    put_head(octets, length + 5, 0, flags, on)?;
    octets.extend_from_slice(&[0, 0, 0, 0, length as u8])?;
    octets.extend_from_slice(message)
}

/// Puts the frame of a step.
pub(crate) fn put(octets: &mut Bytes, step: &Step) -> Result<(), NoMemory> {
    match step {
        Step::Window(window) => {
            put_head(octets, 6, 4, 0, 0)?;
            octets.extend_from_slice(&[0, 4, 0, 0, 0, *window])
        }
        Step::Call(on, path) => put_call(octets, *on, path),
        Step::Say(on, message) => put_message(octets, 0, *on, message),
        Step::Last(on, message) => put_message(octets, 1, *on, message),
        Step::Let(on, count) => {
            put_head(octets, 4, 8, 0, *on)?;
            octets.extend_from_slice(&[0, 0, 0, *count])
        }
        Step::Cancel(on) => {
            put_head(octets, 4, 3, 0, *on)?;
            octets.extend_from_slice(&[0, 0, 0, 8])
        }
        Step::End(on) => put_head(octets, 0, 0, 1, *on),
        Step::Ping => {
            put_head(octets, 8, 6, 0, 0)?;
            octets.extend_from_slice(b"12345678")
        }
    }
}

/// What a client sends first.
pub(crate) fn begin(alloc: Global) -> Result<Bytes, NoMemory> {
    Bytes::of(alloc, BEGIN)
}

/// All octets of a client that takes these steps.
pub(crate) fn octets_of(rt: &impl Abort, alloc: Global, steps: &[Step]) -> Bytes {
    let mut octets = begin(alloc).expect(rt, "memory");
    for step in steps {
        put(&mut octets, step).expect(rt, "memory");
    }
    octets
}
