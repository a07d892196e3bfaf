//! Messages of protocol buffers: what an independent library wrote or refuses, limits of varints and tags, values of
//! repeated fields, oneofs and map entries, and what is written.
use base_lists::{Bytes, Seq};
use pb_wire::{
    Body, Field, WireFault, entry_of, fields_of, joined, last_octets, last_varint, next_field,
    one_of, put_octets, put_varint, varint_of,
};
use std::alloc::Global;
use std::process::Abort;
use std::test::*;

/// Messages of an independent library's vectors, which it reads.
const READ: &[&[u8]] = &[
    b"\x18\xdc\x0b\x18\xf8\x0a",
    b"\x0a\x01\x61\x10\x05",
    b"\x10\x05\x0a\x01\x61",
    b"\x3a\x03\x08\x96\x01\x3a\x02\x10\x02",
    b"\x3a\x03\x08\x96\x01\x10\x01\x3a\x02\x10\x02",
    b"\x42\x04\x0a\x02\x10\x01\x42\x04\x0a\x02\x10\x02",
    b"\x10\xfb\xff\xff\xff\xff\xff\xff\xff\xff\x01",
    b"\x20\x07",
    b"\x20\x80\x00",
    b"\x12\x01\x78",
    b"\x08\x05\x18\x07",
    b"\x0a\x04\xf4\x8f\xbf\xbf",
    b"\x52\x02\xff\xfe",
    b"\x22\x01\x78\x22\x01\x79",
    b"\x1a\x08\x12\x06\x12\x01\x76\x0a\x01\x6b",
    b"\x1a\x02\x12\x00",
    b"\x1a\x0e\x12\x0c\x0a\x01\x6b\x0a\x01\x6c\x12\x01\x76\x12\x01\x77",
    b"\x0a\x03\x6f\x6c\x64",
    b"\x0a\x05\x1a\x03\x0a\x01\x61\x22\x00\x0a\x05\x1a\x03\x0a\x01\x62",
    b"\x22\x08\x1a\x02\x18\x05\x1a\x02\x10\x06",
    b"\x22\x00",
    b"\x22\x06\x12\x00\x1a\x02\x18\x05",
    b"\x28\x00\x28\x02",
    b"\x28\xff\xff\xff\xff\xff\xff\xff\xff\xff\x01",
    b"\x0a\x02\x28\x01\x0a\x02\x40\x02",
    b"\x0a\x02\x28\x01\x1a\x00",
    b"\x1a\x00\x0a\x02\x28\x02",
    b"\x0a\x02\x28\x01\x1a\x00\x0a\x02\x40\x02",
    b"\x22\x05\x0a\x01\x61\x1a\x00\x22\x02\x22\x00",
    b"\x22\x06\x12\x04\x0a\x02\x08\x05\x22\x06\x12\x04\x0a\x02\x10\x07",
    b"\x22\x0f\x12\x0d\x0a\x0b\x08\xf9\xff\xff\xff\xff\xff\xff\xff\xff\x01",
    b"\x22\x0f\x12\x0d\x0a\x0b\x10\xf9\xff\xff\xff\xff\xff\xff\xff\xff\x01",
    b"\x22\x06\x12\x04\x0a\x02\x08\x05\x22\x02\x1a\x00\x22\x02\x12\x00",
    b"\x12\x03\x00\x04\x02\x1a\x06\x30\x2e\x31\x30\x2e\x30",
    b"\x10\x00\x10\x04\x10\x02\x1a\x06\x30\x2e\x31\x30\x2e\x30",
    b"\x10\x00\x12\x02\x04\x02\x12\x00\x1a\x06\x30\x2e\x31\x30\x2e\x30",
    b"\x18\x00",
    b"\x08\xe8\x07\x09\x00\x00\x00\x00\x00\x00\x00\x00",
    b"",
    b"\x12\x07\x72\x66\x63\x37\x39\x35\x31\x1a\x05\x0a\x03\x6c\x61\x62",
    b"\x3a\x0b\x08\xff\xff\xff\xff\xf7\xff\xff\xff\xff\x01",
    b"\x3a\x06\x08\x80\x01\x10\xac\x02",
    b"\x3a\x03\x08\x80\x01",
    b"\x20\x01",
    b"\xa0\x06\xe1\xc3\x2c\x18\x00",
    b"\x52\x08\x6e\x6f\x74\x20\x6a\x73\x6f\x6e\x0a\x01\x78",
    b"\x10\x80\x80\x80\x80\x80\x80\x80\x80\x80\x01\x18\x00",
    b"\x2a\x00\x30\x01",
    b"\x08\x01\x12\x04\x22\x02\x72\x31\x08\xe8\x07",
    b"\x22\x05\x0a\x01\x74\x12\x00",
    b"\x1a\x02\x08\x05",
    b"\x22\x0e\x0a\x0a\x78\x78\x78\x78\x78\x78\x78\x78\x78\x78\x12\x00",
    b"\x22\x06\x0a\x02\x74\x31\x12\x00\xca\x0f\x07\x75\x6e\x6b\x6e\x6f\x77\x6e",
    b"\x22\x06\x0a\x02\xc3\xa4\x12\x00\x22\x00",
    b"\x0a\x00\x2a\x08\x22\x06\x0a\x02\x74\x31\x12\x00",
    b"\x18\x03",
    b"\x1a\x00",
    b"\x0a\x0e\x12\x08\x0a\x04\x22\x02\x72\x31\x10\x01\x28\x02\x40\x04",
    b"\x20\x80\x80\x98\xb5\xf5\xf9\xb3\xf7\x38",
    b"\x18\x01",
    b"\x0a\x02\x30\x01\x85\x7d\x00\x00\x00\x00",
];

/// Messages that the library, or the rule on groups, refuses.
const REFUSED: &[&[u8]] = &[
    b"\x08",
    b"\x0b\x0c",
    b"\x0b",
    b"\x0c",
    b"\x0e",
    b"\x0f",
    b"\x00\x01",
    b"\x08\xff\xff\xff\xff\xff\xff\xff\xff\xff\xff\x01",
    b"\x08\xff\xff\xff\xff\xff\xff\xff\xff\xff\x02",
    b"\x80\x80\x80\x80\x10\x01",
    b"\x0a\x05\x61",
    b"\x0a\x80\x80\x80\x80\x80\x20",
    b"\x0d\x01\x02\x03",
    b"\x09\x00\x00\x00\x00\x00\x00\x00",
    b"\x80",
    b"\x42\x04",
    b"\x22\x06\x0a",
    b"\x1a",
    b"\x12\x22\x12\x1e\x0a\x03\x6f\x6c\x64\x12\x03\x63\x6c\x69\x1a",
];

fn is_bad(alloc: Global, octets: &[u8]) -> bool {
    matches!(fields_of(alloc, octets), Err(WireFault::BadMessage))
}

/// Ends the test at the first of these that is a message.
fn assert_bad(rt: &impl Abort, alloc: Global, rows: &[&[u8]]) {
    for octets in rows {
        assert!(rt; is_bad(alloc, octets), "{octets:?}");
    }
}

fn is_read(alloc: Global, octets: &[u8]) -> bool {
    fields_of(alloc, octets).is_ok()
}

#[test]
fn outside_messages_are_read_or_refused(rt: HostRuntime) {
    for octets in READ {
        assert!(rt; is_read(rt.alloc(), octets));
    }
    assert_bad(&rt, rt.alloc(), REFUSED);
}

/// Octets of a message with one varint under 1, and the varint.
const VARINTS: &[(&[u8], u64)] = &[
    (b"\x08\x00", 0),
    (b"\x08\x7f", 127),
    (b"\x08\x80\x01", 128),
    (b"\x08\x80\x80\x80\x80\x80\x80\x80\x80\x80\x01", 1 << 63),
    (b"\x08\xff\xff\xff\xff\xff\xff\xff\xff\xff\x01", u64::MAX),
    // more octets than are needed
    (b"\x08\x80\x00", 0),
    (b"\x08\xff\x80\x80\x00", 127),
    (b"\x88\x80\x00\x96\x81\x00", 150),
];

/// Octets in which no varint ends within ten octets and 64 bits.
const NO_VARINTS: &[&[u8]] = &[
    // eleven octets, and 65 bits in ten
    b"\x08\x80\x80\x80\x80\x80\x80\x80\x80\x80\x80\x00",
    b"\x08\xff\xff\xff\xff\xff\xff\xff\xff\xff\x02",
    b"\x08\x80\x80\x80\x80\x80\x80\x80\x80\x80\x03",
    b"\x08\x80",
];

/// Whether these octets are a message of these fields.
fn has_fields(alloc: Global, octets: &[u8], wanted: &[Field]) -> bool {
    match fields_of(alloc, octets) {
        Ok(fields) => fields.items() == wanted,
        Err(_) => false,
    }
}

/// Whether these octets are a message with this varint under 1 alone.
fn is_varint(alloc: Global, octets: &[u8], value: u64) -> bool {
    let wanted = [Field {
        number: 1,
        body: Body::Varint(value),
    }];
    has_fields(alloc, octets, &wanted)
}

#[test]
fn varints_are_read_up_to_their_limits(rt: HostRuntime) {
    for (octets, value) in VARINTS {
        assert!(rt; is_varint(rt.alloc(), octets, *value), "{value}");
    }
    assert_bad(&rt, rt.alloc(), NO_VARINTS);
}

/// Octets whose tag has no field number or no wire type.
const NO_TAGS: &[&[u8]] = &[
    b"\x00\x01",
    b"\x80\x80\x80\x80\x10\x05",
    b"\x0b",
    b"\x0c",
    b"\x0e\x00",
    b"\x0f\x00",
];

/// The last varint under a number of the message that these octets are; none where they are no message.
fn varint_in(alloc: Global, octets: &[u8], number: u32) -> Option<u64> {
    match fields_of(alloc, octets) {
        Ok(fields) => last_varint(fields.items(), number),
        Err(_) => None,
    }
}

#[test]
fn tags_are_read_up_to_their_limits(rt: HostRuntime) {
    // 536,870,911 is the last field number; 0 and 536,870,912 are none
    let last = b"\xf8\xff\xff\xff\x0f\x05";
    assert!(rt; varint_in(rt.alloc(), last, 536_870_911) == Some(5));
    assert_bad(&rt, rt.alloc(), NO_TAGS);
}

/// A field of each wire type, the first three of protobuf.dev's examples and an unknown one among them.
const MESSAGE: &[u8] =
    b"\x08\x96\x01\x12\x07testing\xfd\x0f\x01\x02\x03\x04\x19\x01\x00\x00\x00\x00\x00\x00\x80";

const FIELDS: &[Field] = &[
    Field {
        number: 1,
        body: Body::Varint(150),
    },
    Field {
        number: 2,
        body: Body::Octets(5, 12),
    },
    Field {
        number: 255,
        body: Body::Four(0x0403_0201),
    },
    Field {
        number: 3,
        body: Body::Eight(0x8000_0000_0000_0001),
    },
];

#[test]
fn fields_of_each_kind_are_listed_with_their_places(rt: HostRuntime) {
    assert!(rt; has_fields(rt.alloc(), MESSAGE, FIELDS));
    for end in 0..MESSAGE.len() {
        let whole = matches!(end, 0 | 3 | 12 | 18);
        assert!(rt;
            is_bad(rt.alloc(), &MESSAGE[..end]) != whole,
            "cut at {end}"
        );
    }
}

/// Two varints under 3.
const TWICE: &[u8] = b"\x18\xdc\x0b\x18\xf8\x0a";

const BOTH: &[Field] = &[
    Field {
        number: 3,
        body: Body::Varint(1500),
    },
    Field {
        number: 3,
        body: Body::Varint(1400),
    },
];

#[test]
fn the_last_scalar_wins(rt: HostRuntime) {
    assert!(rt; has_fields(rt.alloc(), TWICE, BOTH));
    assert!(rt; varint_in(rt.alloc(), TWICE, 3) == Some(1400));
    assert!(rt; varint_in(rt.alloc(), TWICE, 4).is_none());
}

/// Parts under 1, 2, 1 and 1.
const PARTS: &[u8] = b"\x0a\x02ab\x12\x01x\x0a\x00\x0a\x01c";

/// Whether the parts under a number, one behind another, are these octets, if there are any.
fn is_joined(alloc: Global, number: u32, octets: Option<&[u8]>) -> bool {
    let mut out: Bytes = Seq::empty(alloc);
    let Ok(fields) = fields_of(alloc, PARTS) else {
        return false;
    };
    let found = joined(PARTS, fields.items(), number, &mut out);
    matches!(found, Ok(is_there) if is_there == octets.is_some())
        && out.items() == octets.unwrap_or_default()
}

fn are_no_varints(fields: &[Field]) -> bool {
    for field in fields {
        if varint_of(field, 1).is_some() {
            return false;
        }
    }
    true
}

fn has_no_varints(alloc: Global, octets: &[u8]) -> bool {
    match fields_of(alloc, octets) {
        Ok(fields) => are_no_varints(fields.items()),
        Err(_) => false,
    }
}

#[test]
fn octets_are_joined(rt: HostRuntime) {
    assert!(rt; is_joined(rt.alloc(), 1, Some(b"abc")));
    assert!(rt; is_joined(rt.alloc(), 3, None));
    assert!(rt; has_no_varints(rt.alloc(), PARTS));
}

/// Whether the two varints and the two texts could be written.
fn could_write(out: &mut Bytes) -> bool {
    put_varint(1, 150, out).is_ok()
        && put_octets(2, b"testing", out).is_ok()
        && put_varint(2, u64::MAX - 4, out).is_ok()
        && put_octets(15, b"", out).is_ok()
}

fn are_written_as(alloc: Global, octets: &[u8]) -> bool {
    let mut out: Bytes = Seq::empty(alloc);
    could_write(&mut out) && out.items() == octets
}

#[test]
fn fields_are_written_as_others_write_them(rt: HostRuntime) {
    let wanted = b"\x08\x96\x01\x12\x07testing\x10\xfb\xff\xff\xff\xff\xff\xff\xff\xff\x01\x7a\x00";
    assert!(rt; are_written_as(rt.alloc(), wanted));
}

/// Three texts under 1, 2 and 1, and a varint under 1.
const TEXTS: &[u8] = b"\x0a\x01a\x12\x01b\x0a\x01c\x08\x05";

/// Whether the last text under a number is this one.
fn is_last_text(alloc: Global, number: u32, text: Option<&[u8]>) -> bool {
    match fields_of(alloc, TEXTS) {
        Ok(fields) => last_octets(TEXTS, fields.items(), number) == text,
        Err(_) => false,
    }
}

#[test]
fn the_last_text_wins_and_a_varint_is_none(rt: HostRuntime) {
    assert!(rt; is_last_text(rt.alloc(), 1, Some(b"c")));
    assert!(rt; is_last_text(rt.alloc(), 2, Some(b"b")));
    assert!(rt; is_last_text(rt.alloc(), 3, None));
}

/// Members of a oneof, and how many fields it holds.
const MEMBERS: &[(&[(u32, u8)], usize)] = &[
    (&[(1, 2), (2, 2)], 2),
    (&[(1, 2)], 4),
    (&[(2, 2), (1, 0)], 1),
    (&[(9, 2)], 4),
];

/// How many fields the oneof of these members holds; none where the texts aren't read.
fn count_in(alloc: Global, members: &[(u32, u8)]) -> Option<usize> {
    match fields_of(alloc, TEXTS) {
        Ok(fields) => Some(one_of(fields.items(), members).len()),
        Err(_) => None,
    }
}

// protobuf.dev, "Encoding", "Oneofs": the last member that was written is what a oneof holds.
#[test]
fn a_oneof_holds_the_run_of_its_last_member(rt: HostRuntime) {
    for (members, count) in MEMBERS {
        assert!(rt;
            count_in(rt.alloc(), members) == Some(*count),
            "{members:?}"
        );
    }
}

/// Entries of a map, each with its key and its value.
const ENTRIES: &[(&[u8], &[u8], &[u8])] = &[
    (b"\x0a\x01k\x12\x01v", b"k", b"v"),
    (b"\x12\x01v\x0a\x01k", b"k", b"v"),
    (b"\x12\x01v", b"", b"v"),
    (b"", b"", b""),
];

fn is_entry(alloc: Global, entry: &[u8], key: &[u8], value: &[u8]) -> bool {
    match fields_of(alloc, entry) {
        Ok(fields) => entry_of(entry, fields.items()) == (key, value),
        Err(_) => false,
    }
}

#[test]
fn an_entry_without_its_key_or_value_has_an_empty_one(rt: HostRuntime) {
    for (entry, key, value) in ENTRIES {
        assert!(rt; is_entry(rt.alloc(), entry, key, value));
    }
}

/// Where each field of the message begins, and where it ends.
const PLACES: &[(usize, usize)] = &[(0, 3), (3, 12), (12, 18), (18, 27)];

/// No field begins at the end; and 96 01 is 150, whose lowest three bits are no wire type.
const NO_PLACES: &[usize] = &[27, 1];

/// Where the field that begins at this place ends; 0 where none does, and none past the end.
fn end_from(place: usize) -> Option<usize> {
    if place > MESSAGE.len() {
        return None;
    }
    match next_field(MESSAGE, place) {
        Some((_, end)) => Some(end),
        None => Some(0),
    }
}

#[test]
fn fields_are_read_one_at_a_time(rt: HostRuntime) {
    for (place, end) in PLACES {
        assert!(rt; end_from(*place) == Some(*end), "from {place}");
    }
    for place in NO_PLACES {
        assert!(rt; end_from(*place) == Some(0), "from {place}");
    }
}
