//! The receiving half: each check of frames, pieces of any size, and what clients send.
use crate::captures::{CAPTURES, Capture};
use crate::checks::{Before, Row, TABLE};
use crate::saying::{Says, are_said, fed};
use h2_events::RecvEvents;
use h2_recv::Recv;
use std::alloc::Global;
use std::test::Fail;
use test_captures::PREFACE;

const SETTINGS: &[u8] = &[0, 0, 0, 4, 0, 0, 0, 0, 0];

// How many octets come at once.
const SIZES: &[usize] = &[1, 5, 100_000];

// Three octets on stream 11.
const MORE: &[u8] = &[0, 0, 3, 0, 0, 0, 0, 0, 11, 1, 2, 3];

// HEADERS of stream 13 without an octet of its block, without and with END_STREAM, and CONTINUATION with 64 octets:
// `:method: GET` of the static table (RFC 7541, appendix A) each.
const BLOCK: &[u8] = &[0, 0, 0, 1, 0, 0, 0, 0, 13];

const LAST_BLOCK: &[u8] = &[0, 0, 0, 1, 1, 0, 0, 0, 13];

const FRAGMENT: &[u8] = &[
    0, 0, 64, 9, 0, 0, 0, 0, 13, 130, 130, 130, 130, 130, 130, 130, 130, 130, 130, 130, 130, 130,
    130, 130, 130, 130, 130, 130, 130, 130, 130, 130, 130, 130, 130, 130, 130, 130, 130, 130, 130,
    130, 130, 130, 130, 130, 130, 130, 130, 130, 130, 130, 130, 130, 130, 130, 130, 130, 130, 130,
    130, 130, 130, 130, 130, 130, 130, 130, 130, 130, 130, 130, 130,
];

// Head of a CONTINUATION of 16,384 octets, and a 256th of its octets.
const LARGE: &[u8] = &[0, 0x40, 0, 9, 4, 0, 0, 0, 13];

const ZEROS: &[u8] = &[0; 64];

// Feeds octets so often.
fn often(alloc: Global, recv: &mut Recv, octets: &[u8], times: usize) {
    for _ in 0..times {
        let _says = fed(alloc, recv, octets, 100);
    }
}

// Opens a stream with `:method: POST`, `:scheme: http` and `:path: /` of the static table (RFC 7541, appendix A).
fn opened(alloc: Global, recv: &mut Recv, stream: u8, ends: bool) -> Says {
    let flags = if ends { 5 } else { 4 };
    let octets = [0, 0, 3, 1, flags, 0, 0, 0, stream, 0x83, 0x86, 0x84];
    fed(alloc, recv, octets.as_slice(), 100)
}

// Reads the preface and SETTINGS. Then streams 1 and 11 are open, 3 was ended by the client and 5 by this side, 7 by
// both, and 9 was skipped.
fn make_busy(alloc: Global, recv: &mut Recv) {
    let _preface = fed(alloc, recv, PREFACE, 24);
    let _settings = fed(alloc, recv, SETTINGS, 9);
    let _first = opened(alloc, recv, 1, false);
    let _second = opened(alloc, recv, 3, true);
    let _third = opened(alloc, recv, 5, false);
    recv.ended(5);
    let _fourth = opened(alloc, recv, 7, true);
    recv.ended(7);
    let _fifth = opened(alloc, recv, 11, false);
}

// A receiver to which this came.
fn after(alloc: Global, before: Before) -> Recv {
    let mut recv = Recv::make(alloc);
    match before {
        Before::Nothing => {}
        Before::Preface => often(alloc, &mut recv, PREFACE, 1),
        Before::Busy => make_busy(alloc, &mut recv),
        Before::Block(frames) => {
            make_busy(alloc, &mut recv);
            often(alloc, &mut recv, BLOCK, 1);
            often(alloc, &mut recv, FRAGMENT, frames);
        }
        Before::LastBlock(frames) => {
            make_busy(alloc, &mut recv);
            let _call = opened(alloc, &mut recv, 13, false);
            often(alloc, &mut recv, LAST_BLOCK, 1);
            often(alloc, &mut recv, FRAGMENT, frames);
        }
        Before::Full => {
            often(alloc, &mut recv, PREFACE, 1);
            often(alloc, &mut recv, SETTINGS, 1);
            for place in 0..32u8 {
                let _call = opened(alloc, &mut recv, 2 * place + 1, false);
            }
        }
    }
    recv
}

// What a row's octets say in pieces of this size, what three octets on stream 11 say then, and whether a frame ends there.
fn answered(alloc: Global, row: &Row, size: usize) -> (Says, Says, bool) {
    let mut recv = after(alloc, row.before);
    let says = fed(alloc, &mut recv, row.octets, size);
    let then = fed(alloc, &mut recv, MORE, size);
    (says, then, recv.whole())
}

// What is said then: a connection fault for ever, and else stream 11 is answered as before.
fn afterwards(says: Says) -> (Says, bool) {
    match says {
        Says::Fault(code) => (Says::Fault(code), false),
        _ => (Says::Piece(11, 3, 3, false), true),
    }
}

#[test]
fn each_check_has_its_answer_in_any_pieces(rt: HostRuntime) -> Result<(), Fail> {
    for row in TABLE.iter() {
        for size in SIZES {
            let (then, whole) = afterwards(row.says);
            let answer = answered(rt.alloc(), row, *size);
            assert_eq!(rt; answer, (row.says, then, whole));
        }
    }
    Ok(())
}

// A block of 65,536 octets, and a frame of it that lacks an octet: what is held, and what it is behind that octet.
fn held_at_most(alloc: Global) -> (usize, usize) {
    let mut recv = after(alloc, Before::Block(1024));
    often(alloc, &mut recv, LARGE, 1);
    often(alloc, &mut recv, ZEROS, 255);
    often(alloc, &mut recv, &ZEROS[1..], 1);
    let most = recv.held();
    often(alloc, &mut recv, &[0], 1);
    (most, recv.held())
}

#[test]
fn at_most_81_928_octets_are_held(rt: HostRuntime) -> Result<(), Fail> {
    assert_eq!(rt; held_at_most(rt.alloc()), (81_928, 0));
    Ok(())
}

// Whether a client's octets in pieces of this size say what its frames do.
fn is_understood(alloc: Global, capture: &Capture, size: usize) -> bool {
    let mut recv = Recv::make(alloc);
    let mut events = RecvEvents::empty(alloc);
    let mut is_read = true;
    for piece in capture.octets.chunks(size.max(1)) {
        is_read = is_read && recv.feed(alloc, piece, &mut events) == Ok(());
    }
    is_read && recv.whole() && are_said(&events, capture.says)
}

#[test]
fn clients_are_understood_in_one_piece_and_octet_by_octet(rt: HostRuntime) -> Result<(), Fail> {
    for capture in CAPTURES.iter() {
        for size in SIZES {
            assert!(rt; is_understood(rt.alloc(), capture, *size));
        }
    }
    Ok(())
}

// How many events a client's octets give, as many at once as are wanted, and how many come at once at most.
fn as_wanted(alloc: Global, octets: &[u8]) -> (usize, usize) {
    let mut recv = Recv::make(alloc);
    let mut rest = octets;
    let mut count = 0usize;
    let mut most = 0usize;
    for _ in 0..octets.len() {
        let (piece, behind) = rest.split_at(recv.wanted().min(rest.len()));
        let mut events = RecvEvents::empty(alloc);
        let _result = recv.feed(alloc, piece, &mut events);
        count = count.saturating_add(events.len());
        most = most.max(events.len());
        rest = behind;
    }
    (count, most)
}

#[test]
fn as_many_octets_as_are_wanted_give_one_event_at_most(rt: HostRuntime) -> Result<(), Fail> {
    for capture in CAPTURES.iter() {
        let answer = as_wanted(rt.alloc(), capture.octets);
        assert_eq!(rt; answer, (capture.says.len(), 1));
    }
    Ok(())
}
