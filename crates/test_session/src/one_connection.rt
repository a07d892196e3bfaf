//! A Set on one stream, octet for octet, and what real clients send.
use crate::served::{Outcome, served, served_with};
use session_core::How;
use std::alloc::Global;
use std::process::Abort;
use test_captures::{
    GRPCIO_CAPABILITIES, GRPCIO_GET, GRPCIO_SET, GRPCIO_SET_TWO, GRPCIO_SUBSCRIBE, NGHTTP_SET,
    REPLY, SET,
};

/// The sizes of the pieces in which the Set comes.
const SIZES: &[usize] = &[1, 2, 9, 24, 100, 227];

/// Whether the Set in pieces of this size is answered by its reply, and is one entry.
fn set_is_answered(rt: &impl Abort, alloc: Global, size: usize) -> bool {
    let end = served(rt, alloc, SET, size);
    end.came_to(How::Closed, REPLY) && end.entries == 1
}

#[test]
fn a_set_is_answered_however_its_octets_are_cut(rt: HostRuntime) {
    let alloc = rt.alloc();
    assert!(rt; SET.len() == 227 && REPLY.len() == 177);
    for size in SIZES {
        assert!(rt; set_is_answered(&rt, alloc, *size), "in pieces of {size}");
    }
}

/// Where a frame of the client ends, past the preface.
const ENDS: &[usize] = &[33, 46, 129, 210, 227];

/// Where the message of the Set ends: behind that the reply is whole.
const MESSAGE_END: usize = 210;

/// Whether what was written for a front of the Set is a front of its reply, the whole one where that is due, and the connection is
/// cut but at a frame's end.
fn is_cut_at(end: &Outcome, length: usize) -> bool {
    let how = if ENDS.contains(&length) {
        How::Closed
    } else {
        How::Cut
    };
    end.how == how
        && REPLY.starts_with(end.written.items())
        && (length < MESSAGE_END || end.written.items() == REPLY)
}

/// Whether this front of the Set is answered as far as it goes.
fn front_is_answered(rt: &impl Abort, alloc: Global, front: &[u8]) -> bool {
    let end = served(rt, alloc, front, 100);
    is_cut_at(&end, front.len())
}

#[test]
fn a_set_that_is_cut_is_answered_as_far_as_it_goes(rt: HostRuntime) {
    let alloc = rt.alloc();
    for length in 0..SET.len() {
        let is_answered = front_is_answered(&rt, alloc, &SET[..length]);
        assert!(rt; is_answered, "behind {length}");
    }
}

/// A client's octets, how many entries there are at the end, and which octets stand in what is written.
type Row = (&'static [u8], u64, &'static [u8]);

const ACCEPTED: &[u8] = b"\0\x0bgrpc-status\x010";

/// A SubscribeResponse with a sync.
const SYNC: &[u8] = b"\0\0\0\0\x02\x18\x01";

const NOT_FOUND: &[u8] = b"\0\x0bgrpc-status\x015\0\x0cgrpc-message\x09not found";

/// A Set of an unsigned integer, a decimal, octets and a leaf-list, and a Get of the root behind it in JSON.
const VALUES: &[u8] = b"PRI * HTTP/2.0\r\n\r\nSM\r\n\r\n\
    \0\0\0\x04\0\0\0\0\0\
    \0\0\x35\x01\x04\0\0\0\x01\
    \x83\x86\x04\x0e/gnmi.gNMI/Set\x01\x01x\x0f\x10\x10application/grpc\
    \0\x02te\x08trailers\
    \0\0\x5f\0\x01\0\0\0\x01\0\0\0\0\x5a\x22\x58\x0a\x07\x1a\x05\x0a\x03lab\x1a\x4d\x5a\x4b\
    {\"big\":\"18446744073709551615\",\"rate\":\"1.50\",\"blob\":\"AQI=\",\"tags\":[\"x\",\"y\"]}\
    \0\0\x35\x01\x04\0\0\0\x03\
    \x83\x86\x04\x0e/gnmi.gNMI/Get\x01\x01x\x0f\x10\x10application/grpc\
    \0\x02te\x08trailers\
    \0\0\x09\0\x01\0\0\0\x03\0\0\0\0\x04\x12\0\x28\x04";

/// The tree that the Set made, as RFC 7951 has it: whole numbers of 64 bits, decimals and octets as texts.
const VALUES_IN_JSON: &[u8] =
    b"{\"lab:lab\":{\"big\":\"18446744073709551615\",\"blob\":\"AQI=\",\"rate\":\"1.5\",\"tags\":[\"x\",\"y\"]}}";

const CLIENTS: &[Row] = &[
    (GRPCIO_CAPABILITIES, 0, ACCEPTED),
    (GRPCIO_SET, 1, ACCEPTED),
    (GRPCIO_SET_TWO, 3, ACCEPTED),
    (NGHTTP_SET, 1, ACCEPTED),
    (GRPCIO_GET, 0, NOT_FOUND),
    (GRPCIO_SUBSCRIBE, 0, SYNC),
    (VALUES, 1, VALUES_IN_JSON),
];

fn has(octets: &[u8], part: &[u8]) -> bool {
    for window in octets.windows(part.len().max(1)) {
        if window == part {
            return true;
        }
    }
    false
}

/// Whether the connection of a client closes, has its answer in what is written, and leaves so many entries.
fn client_is_answered(rt: &impl Abort, alloc: Global, row: &Row) -> bool {
    let (octets, entries, answer) = *row;
    let end = served(rt, alloc, octets, 1000);
    end.how == How::Closed && has(end.written.items(), answer) && end.entries == entries
}

#[test]
fn real_clients_are_answered(rt: HostRuntime) {
    let alloc = rt.alloc();
    for row in CLIENTS {
        assert!(rt; client_is_answered(&rt, alloc, row));
    }
}

/// Whether a write failed, and just the octets before it are a front of the reply.
fn broke_off(end: &Outcome) -> bool {
    end.how == How::WriteFault
        && REPLY.starts_with(end.written.items())
        && end.written.items().len() < REPLY.len()
}

/// The numbers of the writes of the reply, the greeting's first.
const WRITES: &[u64] = &[1, 2, 3, 4, 5];

/// Whether the write with this number breaks the connection off where it fails.
fn breaks_off_at_write(rt: &impl Abort, alloc: Global, number: u64) -> bool {
    let end = served_with(rt, alloc, SET, 100, 0, number);
    broke_off(&end)
}

#[test]
fn a_write_that_fails_ends_the_connection(rt: HostRuntime) {
    let alloc = rt.alloc();
    for number in WRITES {
        assert!(rt;
            breaks_off_at_write(&rt, alloc, *number),
            "at write {number}"
        );
    }
}

/// Whether a read that fails behind the Set ends the connection behind the reply.
fn late_read_breaks_off(rt: &impl Abort, alloc: Global) -> bool {
    let end = served_with(rt, alloc, SET, 100, 11, 0);
    end.came_to(How::ReadFault, REPLY)
}

/// Whether the second read, where it fails, ends the connection behind 21 octets.
fn second_read_breaks_off(rt: &impl Abort, alloc: Global) -> bool {
    let end = served_with(rt, alloc, SET, 100, 2, 0);
    end.how == How::ReadFault && end.written.items().len() == 21
}

#[test]
fn a_read_that_fails_ends_the_connection(rt: HostRuntime) {
    let alloc = rt.alloc();
    assert!(rt; late_read_breaks_off(&rt, alloc));
    assert!(rt; second_read_breaks_off(&rt, alloc));
}
