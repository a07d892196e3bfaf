//! Messages in any pieces: cut at every place, at their limits, and after a fault.
ghost use Rattle.std.specs.Prelude.{◌^◌, ◌<◌, length};

use base_lists::{Bytes, NoMemory};
use grpc_core::{Messages, SplitFault, Splitter, frame_message};
use std::alloc::Global;
use std::process::Abort;
use std::test::Fail;

// The DATA of a Get that grpcio 1.51.1 sent, and behind it an empty message and one of two octets.
const SENT: &[u8] = &[
    0, 0, 0, 0, 0x3f, 0x0a, 4, 0x22, 2, 0x72, 0x31, 0x12, 0x29, 0x1a, 0x0c, 0x0a, 0x0a, 0x69, 0x6e,
    0x74, 0x65, 0x72, 0x66, 0x61, 0x63, 0x65, 0x73, 0x1a, 0x19, 0x0a, 9, 0x69, 0x6e, 0x74, 0x65,
    0x72, 0x66, 0x61, 0x63, 0x65, 0x12, 0x0c, 0x0a, 4, 0x6e, 0x61, 0x6d, 0x65, 0x12, 4, 0x65, 0x74,
    0x68, 0x30, 0x12, 0x0a, 0x1a, 8, 0x0a, 6, 0x73, 0x79, 0x73, 0x74, 0x65, 0x6d, 0x28, 4, 0, 0, 0,
    0, 0, 0, 0, 0, 0, 2, 7, 8,
];

// How many octets the first of them has, with the five before it.
const FIRST: usize = 68;

const LARGEST: usize = 4_194_304;

/// How many messages the piece gives, and what is answered.
fn fed(alloc: Global, splitter: &mut Splitter, piece: &[u8]) -> (usize, Result<(), SplitFault>) {
    let mut out = Messages::empty(alloc);
    let result = splitter.feed(alloc, piece, &mut out);
    (out.len(), result)
}

// The messages of the pieces, each as it is sent.
fn again(alloc: Global, pieces: &[&[u8]]) -> Result<Bytes, NoMemory> {
    let mut splitter = Splitter::make(alloc);
    let mut messages = Messages::empty(alloc);
    for piece in pieces {
        if splitter.feed(alloc, piece, &mut messages).is_err() {
            return Ok(Bytes::empty(alloc));
        }
    }
    let mut octets = Bytes::empty(alloc);
    for message in messages.items() {
        if message.len() <= LARGEST {
            frame_message(message.items(), &mut octets)?;
        }
    }
    Ok(octets)
}

#[test]
fn messages_cut_at_every_place(rt: HostRuntime) -> Result<(), Fail> {
    for cut in 0..SENT.len() + 1 {
        let (front, back) = SENT.split_at(cut);
        assert_eq!(rt; again(rt.alloc(), &[front, back])?.items(), SENT, "{cut}");
    }
    Ok(())
}

/// Whether the octet at this place is taken, and there is a message from the last one of the first on.
fn is_taken(
    alloc: Global,
    splitter: &mut Splitter,
    messages: &mut Messages,
    at: usize,
    octet: u8,
) -> bool {
    splitter.feed(alloc, &[octet], messages) == Ok(())
        && messages.is_empty() == (at.saturating_add(1) < FIRST)
}

fn assert_taken(rt: &impl Abort, alloc: Global, splitter: &mut Splitter, messages: &mut Messages) {
    for (at, octet) in SENT.iter().enumerate() {
        assert!(rt; is_taken(alloc, splitter, messages, at, *octet), "{at}");
    }
    assert_eq!(rt; messages.len(), 3);
    assert_eq!(rt; splitter.held(), 0);
}

#[test]
fn messages_octet_by_octet(rt: HostRuntime) {
    let alloc = rt.alloc();
    assert_taken(
        &rt,
        alloc,
        &mut Splitter::make(alloc),
        &mut Messages::empty(alloc),
    );
}

// An empty message and four of the five octets before another, the fifth, and what is answered with it.
const PREFIXES: &[(&[u8], u8, Result<(), SplitFault>)] = &[
    (&[0, 0, 0, 0, 0, 0, 0, 0x40, 0], 0, Ok(())),
    (
        &[0, 0, 0, 0, 0, 0, 0, 0x40, 0],
        1,
        Err(SplitFault::TooLarge),
    ),
    (
        &[0, 0, 0, 0, 0, 0, 0xff, 0xff, 0xff],
        0xff,
        Err(SplitFault::TooLarge),
    ),
    (&[0, 0, 0, 0, 0, 1, 0, 0, 0], 0, Err(SplitFault::Compressed)),
    (
        &[0, 0, 0, 0, 0, 0xff, 0xff, 0xff, 0xff],
        0xff,
        Err(SplitFault::Compressed),
    ),
];

/// Whether these octets give a message, and the next one is answered so.
fn is_answered(
    alloc: Global,
    splitter: &mut Splitter,
    before: &[u8],
    next: u8,
    answer: Result<(), SplitFault>,
) -> bool {
    fed(alloc, splitter, before) == (1, Ok(())) && fed(alloc, splitter, &[next]).1 == answer
}

#[test]
fn faults_with_the_fifth_octet(rt: HostRuntime) {
    for (before, fifth, answer) in PREFIXES {
        let splitter = &mut Splitter::make(rt.alloc());
        assert!(rt;
            is_answered(rt.alloc(), splitter, before, *fifth, *answer),
            "{before:?}"
        );
    }
}

fn assert_compressed(rt: &impl Abort, alloc: Global, splitter: &mut Splitter) {
    let compressed = Err(SplitFault::Compressed);
    let first = fed(alloc, splitter, &[0, 0, 0, 0, 0, 1, 0, 0, 0, 0]);
    assert_eq!(rt; first, (1, compressed));
    assert_eq!(rt; fed(alloc, splitter, &[0, 0, 0, 0, 0]), (0, compressed));
    assert_eq!(rt; splitter.held(), 0);
}

#[test]
fn fault_is_answered_for_ever(rt: HostRuntime) {
    let alloc = rt.alloc();
    assert_compressed(&rt, alloc, &mut Splitter::make(alloc));
}

/// Whether all but the last octet of the largest message are held, and no message is given.
fn are_held(alloc: Global, splitter: &mut Splitter, messages: &mut Messages, most: &[u8]) -> bool {
    for piece in most.chunks(16_384) {
        if splitter.feed(alloc, piece, messages) != Ok(()) {
            return false;
        }
    }
    splitter.held() == 4_194_308 && messages.is_empty()
}

/// Whether the last octet gives the message with this body, and nothing is held then.
fn is_given(
    alloc: Global,
    splitter: &mut Splitter,
    messages: &mut Messages,
    last: &[u8],
    body: &[u8],
) -> bool {
    splitter.feed(alloc, last, messages) == Ok(())
        && messages
            .get(0)
            .is_some_and(|message| message.items() == body)
        && splitter.held() == 0
}

/// The largest message with this body, as these octets.
fn assert_largest(
    rt: &impl Abort,
    alloc: Global,
    splitter: &mut Splitter,
    messages: &mut Messages,
    octets: &[u8],
    body: &[u8],
) {
    assert_eq!(rt; octets.len(), LARGEST + 5);
    let (most, last) = octets.split_at(LARGEST + 4);
    assert!(rt; are_held(alloc, splitter, messages, most));
    assert!(rt; is_given(alloc, splitter, messages, last, body));
}

/// Octets of a message with this body.
fn framed(alloc: Global, body: &[u8]) -> Result<Bytes, NoMemory>
    requires { length body.now < 2 ^ 32 }
{
    let mut octets = Bytes::empty(alloc);
    frame_message(body, &mut octets)?;
    Ok(octets)
}

#[test]
fn largest_message_in_pieces(rt: HostRuntime) -> Result<(), Fail> {
    let alloc = rt.alloc();
    let body = vec![in alloc; 7u8; LARGEST]?;
    let octets = framed(alloc, &body)?;
    assert_largest(
        &rt,
        alloc,
        &mut Splitter::make(alloc),
        &mut Messages::empty(alloc),
        octets.items(),
        &body,
    );
    Ok(())
}
