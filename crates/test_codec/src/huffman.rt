//! The Huffman code of HPACK: the RFC's own examples, what another library coded, padding and the end mark.
use base_lists::Bytes;
use hpack_huff::{HuffFault, huff_decode};
use std::alloc::Global;
use std::process::Abort;

/// Whether these octets are decoded to this text.
fn decodes(alloc: Global, octets: &[u8], text: &[u8]) -> bool {
    let mut out = Bytes::empty(alloc);
    huff_decode(octets, &mut out) == Ok(()) && out.items() == text
}

/// Ends the test at the first of the rows whose octets aren't decoded to its text.
fn assert_decoded(rt: &impl Abort, alloc: Global, rows: &[(&[u8], &[u8])]) {
    for (octets, text) in rows {
        assert!(rt; decodes(alloc, octets, text), "{octets:?}");
    }
}

/// RFC 7541, appendices C.4 and C.6.
const EXAMPLES: &[(&[u8], &[u8])] = &[
    (
        b"\xf1\xe3\xc2\xe5\xf2\x3a\x6b\xa0\xab\x90\xf4\xff",
        b"www.example.com",
    ),
    (b"\xa8\xeb\x10\x64\x9c\xbf", b"no-cache"),
    (b"\x25\xa8\x49\xe9\x5b\xa9\x7d\x7f", b"custom-key"),
    (b"\x25\xa8\x49\xe9\x5b\xb8\xe8\xb4\xbf", b"custom-value"),
    (b"\x64\x02", b"302"),
    (b"\xae\xc3\x77\x1a\x4b", b"private"),
    (
        b"\xd0\x7a\xbe\x94\x10\x54\xd4\x44\xa8\x20\x05\x95\x04\x0b\x81\x66\xe0\x82\xa6\x2d\x1b\xff",
        b"Mon, 21 Oct 2013 20:13:21 GMT",
    ),
    (
        b"\x9d\x29\xad\x17\x18\x63\xc7\x8f\x0b\x97\xc8\xe9\xae\x82\xae\x43\xd3",
        b"https://www.example.com",
    ),
    (b"\x64\x0e\xff", b"307"),
    (b"\x9b\xd9\xab", b"gzip"),
    (
        b"\x94\xe7\x82\x1d\xd7\xf2\xe6\xc7\xb3\x35\xdf\xdf\xcd\x5b\x39\x60\xd5\xaf\x27\x08\x7f\x36\x72\xc1\xab\x27\x0f\xb5\x29\x1f\x95\x87\x31\x60\x65\xc0\x03\xed\x4e\xe5\xb1\x06\x3d\x50\x07",
        b"foo=ASDJKHQKBZXOQWEOPIUAXQWEOIU; max-age=3600; version=1",
    ),
];

#[test]
fn decodes_the_examples_of_the_rfc(rt: HostRuntime) {
    assert_decoded(&rt, rt.alloc(), EXAMPLES);
}

/// Made by python-hpack: octets with codes of up to 28 bits.
const CODED: &[(&[u8], &[u8])] = &[
    (b"\xff\xff\xfe\x3f", b"\x03"),
    (b"\xff\xff\xea", b"\x09"),
    (b"\xb8\xe1\x48\x3e\xfe\x80\x8f", b":6ecavy0s"),
    (
        b"\xff\xff\xff\xcf\xff\xe3\xff\xfe\xcf\xff\xf8\xe3\xff\xff\xfe\xff",
        b"\x7f\xc3\x9c\xd1b\x12",
    ),
    (
        b"\xff\xff\xc3\xff\xff\xfc\xdf\xff\xff\x83\xff\xff\xc5\x8f\xff\xff\xe7\xff\xde\x5f\xff\xfe\x7f\xff\xcd\x97\xff\xff\x7f",
        b"\x95\x06\xd3\xce/\x07[J\xe7\x80J\xb7",
    ),
    (
        b"\xff\xff\xfd\xdf\xff\xc7\xff\xfe\x8f\xff\xfb\x7f\xff\xdc\xff\xfe\x3f\xff\xfe\xbf\xff\xfe\xdf\xff\xf6\x7e\xff\xff\xf8\x7f",
        b"\xfc\xc3\xc6\x8a\x99\xc3\xed\xcf\x9c;\xbc",
    ),
];

#[test]
fn decodes_what_another_library_coded(rt: HostRuntime) {
    assert_decoded(&rt, rt.alloc(), CODED);
}

/// The code of 'a' is 00011, so that these end in 0, 3, 6, 1, 4, 7, 2, 5 and 0 ones.
const PADDED: &[(&[u8], &[u8])] = &[
    (b"", b""),
    (b"\x1f", b"a"),
    (b"\x18\xff", b"aa"),
    (b"\x18\xc7", b"aaa"),
    (b"\x18\xc6\x3f", b"aaaa"),
    (b"\x18\xc6\x31\xff", b"aaaaa"),
    (b"\x18\xc6\x31\x8f", b"aaaaaa"),
    (b"\x18\xc6\x31\x8c\x7f", b"aaaaaaa"),
    (b"\x18\xc6\x31\x8c\x63", b"aaaaaaaa"),
];

#[test]
fn takes_padding_of_up_to_seven_ones(rt: HostRuntime) {
    assert_decoded(&rt, rt.alloc(), PADDED);
}

/// Padding of 8 ones and more, padding with a zero, and the end mark, also last. Most were refused by python-hpack.
const REFUSED: &[&[u8]] = &[
    b"\xff",
    b"\x18\xc6\x31\x8c\x63\xff",
    b"\x1e",
    b"\x18",
    b"\xaf\xc4\x7f\xff",
    b"\xaf\xc4\x77",
    b"\xaf\xc4\x7f\xff\xff\xff\x8e\x3f",
    b"\xaf\xc4\x7f\xff\xff\xff\xff",
    b"\xff\xff\xff\xff",
    b"\xff\xff\xff\xfc\x71\xff",
    b"\xf1\xd6\x35\xf7",
    b"\x78\x0c\x7b\xff",
];

fn is_refused(alloc: Global, octets: &[u8]) -> bool {
    huff_decode(octets, &mut Bytes::empty(alloc)) == Err(HuffFault::BadCode)
}

#[test]
fn refuses_long_padding_zeros_and_the_end_mark(rt: HostRuntime) {
    for octets in REFUSED {
        assert!(rt; is_refused(rt.alloc(), octets), "{octets:?}");
    }
}

/// Whether these octets, decoded behind `>`, give this text.
fn decodes_behind(alloc: Global, octets: &[u8], text: &[u8]) -> bool {
    let mut out = Bytes::empty(alloc);
    out.push(b'>').is_ok() && huff_decode(octets, &mut out) == Ok(()) && out.items() == text
}

#[test]
fn adds_at_the_end_of_what_is_there(rt: HostRuntime) {
    assert!(rt; decodes_behind(rt.alloc(), b"\x64\x02", b">302"));
}
