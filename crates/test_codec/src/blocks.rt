//! Header blocks: what is refused, a list at its largest size, each form that is written.
ghost use Rattle.std.specs.Prelude.{◌≤◌, length};
ghost use Rattle.hpack_block.specs.Integers.{largest_integer};

use base_lists::{Bytes, NoMemory};
use hpack_block::{BlockFault, Decoder, Header, Headers, encode_block};
use std::alloc::Global;
use std::process::Abort;

fn is_refused(decoder: &mut Decoder, alloc: Global, block: &[u8]) -> bool {
    matches!(decoder.block(alloc, block), Err(BlockFault::Bad))
}

/// Whether the block is refused, and then each other one.
fn is_bad(alloc: Global, block: &[u8]) -> bool {
    let mut decoder = Decoder::make(alloc);
    is_refused(&mut decoder, alloc, block) && is_refused(&mut decoder, alloc, b"\x82")
}

/// The verdicts of python-hpack, and this product's bounds on integers.
const NO_BLOCKS: &[&[u8]] = &[
    // Index 0.
    b"\x80",
    // An index past the tables.
    b"\xbe",
    // The name of an index past the tables.
    b"\x7f\x00\x01\x61",
    // A size update to 4,097.
    b"\x3f\xe2\x1f",
    // A size update after a header.
    b"\x82\x20",
    // No name.
    b"\x40",
    // No value.
    b"\x00\x01\x61",
    // A text cut short.
    b"\x00\x01\x61\x05\x61",
    // A truncated integer.
    b"\xff",
    b"\x3f",
    b"\x0f",
    // 8 bits of padding.
    b"\x00\x01\x61\x81\xff",
    // A zero in the padding.
    b"\x82\x86\x84\x41\x8c\xf1\xe3\xc2\xe5\xf2\x3a\x6b\xa0\xab\x90\xf4\xfe",
    // Six octets after the prefix.
    b"\xff\x80\x80\x80\x80\x80\x00",
    // An index of 2,147,483,648.
    b"\xff\x81\xff\xff\xff\x07",
    // A length of more than 2,147,483,647.
    b"\x00\x7f\xff\xff\xff\xff\x0f",
];

#[test]
fn refuses_what_is_no_block(rt: HostRuntime) {
    for block in NO_BLOCKS {
        assert!(rt; is_bad(rt.alloc(), block), "{block:?}");
    }
}

// A literal that isn't added, with an empty name, a value of so many octets, and this as its length.
fn long_block(rt: &impl Abort, alloc: Global, length: &[u8], count: usize) -> Bytes {
    let mut block = Bytes::empty(alloc);
    block.extend_from_slice(b"\x00\x00").expect(rt, "memory");
    block.extend_from_slice(length).expect(rt, "memory");
    for _ in 0..count {
        block.push(b'v').expect(rt, "memory");
    }
    block
}

fn is_too_long(decoder: &mut Decoder, alloc: Global, block: &[u8]) -> bool {
    matches!(decoder.block(alloc, block), Err(BlockFault::TooLong))
}

/// Whether the block says the one header `a` with the value `b`.
fn says_a_b(decoder: &mut Decoder, alloc: Global, block: &[u8]) -> bool {
    let Ok(headers) = decoder.block(alloc, block) else {
        return false;
    };
    headers.len() == 1
        && headers.get(0).is_some_and(|header| {
            header.name.items() == b"a".as_slice() && header.value.items() == b"b".as_slice()
        })
}

fn takes(decoder: &mut Decoder, alloc: Global, block: &[u8]) -> bool {
    decoder.block(alloc, block).is_ok()
}

/// Whether the block is too long, and also where `a` with the value `b` is added to the table behind it.
fn is_too_long_twice(decoder: &mut Decoder, alloc: Global, block: Bytes) -> bool {
    let mut block = block;
    is_too_long(decoder, alloc, block.items())
        && block.extend_from_slice(b"\x40\x01a\x01b").is_ok()
        && is_too_long(decoder, alloc, block.items())
}

/// Whether a list of 16,384 is taken, one that is longer by 1 isn't, and what its block adds past the limit stands in the table.
fn goes_on(rt: &impl Abort, decoder: &mut Decoder, alloc: Global) -> bool {
    // 16,352 and 32 are 16,384.
    // 16,352 is 127 + 97 + 126 * 128.
    let block = long_block(rt, alloc, b"\x7f\xe1\x7e", 16_352);
    let is_taken = takes(decoder, alloc, block.items());
    let longer = long_block(rt, alloc, b"\x7f\xe2\x7e", 16_353);
    is_taken && is_too_long_twice(decoder, alloc, longer) && says_a_b(decoder, alloc, b"\xbe")
}

#[test]
fn takes_a_list_of_16_384_and_goes_on_after_a_longer_one(rt: HostRuntime) {
    let alloc = rt.alloc();
    assert!(rt; goes_on(&rt, &mut Decoder::make(alloc), alloc));
}

fn written(alloc: Global, name: &[u8], value: &[u8]) -> Result<Bytes, NoMemory>
    requires name { length name.now ≤ largest_integer }
    requires value { length value.now ≤ largest_integer }
{
    let name = Bytes::of(alloc, name)?;
    let value = Bytes::of(alloc, value)?;
    let mut headers = Headers::empty(alloc);
    headers.push(Header { name, value })?;
    let mut out = Bytes::empty(alloc);
    encode_block(&headers, &mut out)?;
    Ok(out)
}

/// RFC 7541, sections 6.1 and 6.2.2, worked by hand.
const FORMS: &[(&[u8], &[u8], &[u8])] = &[
    (b":status", b"200", b"\x88"),
    (b"accept-encoding", b"gzip, deflate", b"\x90"),
    (b":status", b"415", b"\x08\x03415"),
    (
        b"content-type",
        b"application/grpc",
        b"\x0f\x10\x10application/grpc",
    ),
    (b"grpc-status", b"0", b"\x00\x0bgrpc-status\x010"),
];

/// Whether a header of this name and value is written as these octets. Both are short.
fn is_written_as(alloc: Global, name: &[u8], value: &[u8], octets: &[u8]) -> bool {
    name.len() < 100
        && value.len() < 100
        && written(alloc, name, value).is_ok_and(|block| block.items() == octets)
}

#[test]
fn writes_each_form(rt: HostRuntime) {
    for (name, value, octets) in FORMS {
        assert!(rt; is_written_as(rt.alloc(), name, value, octets), "{name:?}");
    }
}
