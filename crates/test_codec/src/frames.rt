//! Frames of HTTP/2: what another library wrote, lengths at their limits, every front of a frame.
ghost use Rattle.std.specs.Prelude.{◌^◌, ◌<◌};

use base_lists::{Bytes, NoMemory, Seq};
use h2_frame::{Got, Head, head_octets, read_frame, write_frame};
use std::alloc::Global;

const MAX: u32 = 16_384;

// A PING frame (RFC 9113 section 6.7).
const PING: [u8; 17] = [
    0, 0, 8, 6, 0, 0, 0, 0, 0, 0x53, 0x96, 0x8a, 0x5c, 0xc3, 0xc7, 0x82, 0x46,
];

fn head(length: u32, kind: u8, flags: u8, stream: u32) -> Head {
    Head {
        length,
        kind,
        flags,
        stream,
    }
}

// Reads the frame that stands first, and writes it again.
fn written_again(alloc: Global, octets: &[u8]) -> Result<Bytes, NoMemory> {
    let mut out = Seq::empty(alloc);
    if let Got::Frame(head, used) = read_frame(octets, MAX) {
        write_frame(&head, &octets[9..used], &mut out)?;
    }
    Ok(out)
}

/// Whether the frame that these octets are is written as those.
fn is_written_as(alloc: Global, octets: &[u8], again: &[u8]) -> bool {
    written_again(alloc, octets).is_ok_and(|written| written.items() == again)
}

/// A frame's octets, and the length, the kind, the flags and the stream of its head.
type Frame = (&'static [u8], (u32, u8, u8, u32));

/// Frames that hyperframe wrote.
const FRAMES: &[Frame] = &[
    (
        &[0, 0, 4, 8, 0, 0, 0, 0, 0, 0x24, 0x71, 0x7e, 0x9f],
        (4, 8, 0, 0),
    ),
    (
        &[
            0, 0, 8, 6, 1, 0, 0, 0, 0, 2, 0xc3, 0x19, 0x9e, 0x94, 0x60, 9, 0xcb,
        ],
        (8, 6, 1, 0),
    ),
    (
        &[0, 0, 1, 1, 5, 0x7f, 0xff, 0xff, 0xff, 0x79],
        (1, 1, 5, 2_147_483_647),
    ),
    (
        &[0, 0, 9, 0, 9, 0, 0, 0, 2, 7, 0xbd, 0, 0, 0, 0, 0, 0, 0],
        (9, 0, 9, 2),
    ),
    (&[0, 0, 0, 4, 1, 0, 0, 0, 0], (0, 4, 1, 0)),
    (
        &[0, 0, 4, 3, 0, 0x0d, 0x4a, 0xa8, 0xb0, 0, 0, 0, 4],
        (4, 3, 0, 222_996_656),
    ),
    (
        &[
            0, 0, 5, 2, 0, 0x76, 0x94, 0xf4, 0x2d, 0x9b, 0xd8, 0xad, 0x9c, 2,
        ],
        (5, 2, 0, 1_989_473_325),
    ),
];

/// Whether these octets are one frame with this head.
fn is_frame(octets: &[u8], (length, kind, flags, stream): (u32, u8, u8, u32)) -> bool {
    read_frame(octets, MAX) == Got::Frame(head(length, kind, flags, stream), octets.len())
}

/// Whether these octets are one frame with this head, and written so.
fn is_frame_both_ways(alloc: Global, octets: &[u8], head: (u32, u8, u8, u32)) -> bool {
    is_frame(octets, head) && is_written_as(alloc, octets, octets)
}

#[test]
fn frames_of_another_library(rt: HostRuntime) {
    for (octets, head) in FRAMES {
        assert!(rt; is_frame_both_ways(rt.alloc(), octets, *head), "{octets:?}");
    }
}

/// Of such frames too, and the library drops the bit.
const RESERVED: &[Frame] = &[
    (
        &[
            0, 0, 5, 10, 0x93, 0x97, 0x3d, 0xf0, 0x39, 0xd4, 0x72, 0x63, 0x32, 0x0f,
        ],
        (5, 10, 147, 389_935_161),
    ),
    (
        &[0, 0, 3, 0, 0xbc, 0xd0, 0x89, 0x90, 0x9d, 0x31, 0x16, 0xf3],
        (3, 0, 188, 1_351_192_733),
    ),
    (
        &[
            0, 0, 3, 0xff, 0x13, 0x8d, 0xa9, 0xa4, 0x0b, 0x53, 0x80, 0x2f,
        ],
        (3, 255, 19, 229_221_387),
    ),
];

#[test]
fn reserved_bit_is_ignored_and_written_as_zero(rt: HostRuntime) {
    for (octets, head) in RESERVED {
        assert!(rt; is_frame(octets, *head), "{octets:?}");
    }
    let is_written_as_zero = is_written_as(
        rt.alloc(),
        &[0, 0, 1, 10, 0x93, 0x97, 0x3d, 0xf0, 0x39, 0xd4],
        &[0, 0, 1, 10, 0x93, 0x17, 0x3d, 0xf0, 0x39, 0xd4],
    );
    assert!(rt; is_written_as_zero);
}

#[test]
fn front_of_a_ping_is_no_frame_yet(rt: HostRuntime) {
    for count in 0..PING.len() {
        assert!(rt;
            read_frame(&PING[..count], MAX) == Got::More,
            "{count} octets"
        );
    }
    assert!(rt; read_frame(&PING, MAX) == Got::Frame(head(8, 6, 0, 0), 17));
}

const EMPTY: Head = Head {
    length: 0,
    kind: 0,
    flags: 0,
    stream: 1,
};

/// Octets, the most that a payload may have, and what stands first.
const LENGTHS: &[(&[u8], u32, Got)] = &[
    (&[0, 0, 0, 0, 0, 0, 0, 0, 1, 7], MAX, Got::Frame(EMPTY, 9)),
    (&[0, 0x40, 0, 0, 0, 0, 0, 0, 1, 7], MAX, Got::More),
    (&[0, 0x40, 1, 0, 0, 0, 0, 0, 1, 7], MAX, Got::Bad(6)),
    (&[0, 0x40, 1], MAX, Got::Bad(6)),
    (&[0, 0x40], MAX, Got::More),
    (&[0, 0x41], MAX, Got::Bad(6)),
    (&[1], MAX, Got::Bad(6)),
    (&[0, 0, 1, 0, 0, 0, 0, 0, 1, 7], 0, Got::Bad(6)),
    (
        &[0xff, 0xff, 0xff, 0, 0, 0, 0, 0, 1, 7],
        16_777_215,
        Got::More,
    ),
];

#[test]
fn lengths_against_the_most_that_is_allowed(rt: HostRuntime) {
    for (octets, max, got) in LENGTHS {
        assert!(rt; read_frame(octets, *max) == *got, "{octets:?}");
    }
}

// A frame with so many octets of payload.
fn frame_of_zeros(alloc: Global, length: u32) -> Result<Bytes, NoMemory>
    requires { length < 2 ^ 24 }
{
    let payload = vec![in alloc; 0u8; length as usize]?;
    let head = Head {
        length,
        kind: 0,
        flags: 0,
        stream: 1,
    };
    let mut out = Seq::empty(alloc);
    write_frame(&head, &payload, &mut out)?;
    Ok(out)
}

/// Whether this is what is got of a frame with so many octets of payload.
fn is_got(alloc: Global, length: u32, got: Got) -> bool
    requires { length < 2 ^ 24 }
{
    match frame_of_zeros(alloc, length) {
        Ok(frame) => read_frame(frame.items(), MAX) == got,
        Err(NoMemory) => false,
    }
}

#[test]
fn longest_frame_that_is_allowed(rt: HostRuntime) {
    let whole = Got::Frame(head(MAX, 0, 0, 1), 16_393);
    assert!(rt; is_got(rt.alloc(), MAX, whole));
    assert!(rt; is_got(rt.alloc(), MAX + 1, Got::Bad(6)));
}

#[test]
fn head_octets_stand_before_the_payload(rt: HostRuntime) {
    assert!(rt; head_octets(&head(8, 6, 0, 0)).as_slice() == &PING[..9]);
}
