//! Notifications.
use base_kinds::{Given, Note, Path, Paths, Row, Rows};
use base_lists::{Bytes, Seq, Text};
use gnmi_data_msg::{MsgFault, read_path, read_typed};
use gnmi_kinds::Encoding;
use gnmi_note_msg::{write_note, write_whole};
use schema_core::Schema;
use std::alloc::Global;
use std::test::Fail;
use test_captures::SET_MTU;

/// A stamp, a target, and a Notification with these, as python-protobuf writes it.
type HeadRow = (u64, &'static [u8], &'static [u8]);

// The third has a timestamp of -1 there.
const HEADS: [HeadRow; 5] = [
    (0, b"", b""),
    (1000, b"", b"\x08\xe8\x07"),
    (1000, b"r1", b"\x08\xe8\x07\x12\x04\x22\x02\x72\x31"),
    (
        u64::MAX,
        b"r1",
        b"\x08\xff\xff\xff\xff\xff\xff\xff\xff\xff\x01\x12\x04\x22\x02\x72\x31",
    ),
    (
        1 << 62,
        b"r1",
        b"\x08\x80\x80\x80\x80\x80\x80\x80\x80\x40\x12\x04\x22\x02\x72\x31",
    ),
];

/// The octets of a Path, those of a TypedValue, and the field of an Update with these, as python-protobuf writes it.
type UpdateRow = (&'static [u8], &'static [u8], &'static [u8]);

const UPDATES: [UpdateRow; 3] = [
    (
        b"\x1a\x03\x0a\x01\x61\x1a\x03\x0a\x01\x62",
        b"\x18\x05",
        b"\x22\x10\x0a\x0a\x1a\x03\x0a\x01\x61\x1a\x03\x0a\x01\x62\x1a\x02\x18\x05",
    ),
    (
        b"\x1a\x0c\x0a\x0a\x69\x6e\x74\x65\x72\x66\x61\x63\x65\x73\x1a\x19\x0a\x09\x69\x6e\x74\x65\x72\x66\x61\x63\x65\x12\x0c\x0a\x04\x6e\x61\x6d\x65\x12\x04\x65\x74\x68\x30\x1a\x08\x0a\x06\x63\x6f\x6e\x66\x69\x67\x1a\x05\x0a\x03\x6d\x74\x75",
        b"\x18\xdc\x0b",
        SET_MTU,
    ),
    (
        b"\x1a\x08\x0a\x06\x73\x79\x73\x74\x65\x6d\x1a\x08\x0a\x06\x63\x6f\x6e\x66\x69\x67\x1a\x0a\x0a\x08\x68\x6f\x73\x74\x6e\x61\x6d\x65",
        b"\x0a\x01\x32",
        b"\x22\x27\x0a\x20\x1a\x08\x0a\x06\x73\x79\x73\x74\x65\x6d\x1a\x08\x0a\x06\x63\x6f\x6e\x66\x69\x67\x1a\x0a\x0a\x08\x68\x6f\x73\x74\x6e\x61\x6d\x65\x1a\x03\x0a\x01\x32",
    ),
];

// All of the second and third update, with two deletes, the second of which is of the root.
const SEVERAL: &[u8] =
    b"\x08\xe8\x07\x12\x04\x22\x02\x72\x31\x22\x41\x0a\x3a\x1a\x0c\x0a\x0a\x69\x6e\x74\x65\x72\x66\x61\x63\x65\x73\x1a\x19\x0a\x09\x69\x6e\x74\x65\x72\x66\x61\x63\x65\x12\x0c\x0a\x04\x6e\x61\x6d\x65\x12\x04\x65\x74\x68\x30\x1a\x08\x0a\x06\x63\x6f\x6e\x66\x69\x67\x1a\x05\x0a\x03\x6d\x74\x75\x1a\x03\x18\xdc\x0b\x22\x27\x0a\x20\x1a\x08\x0a\x06\x73\x79\x73\x74\x65\x6d\x1a\x08\x0a\x06\x63\x6f\x6e\x66\x69\x67\x1a\x0a\x0a\x08\x68\x6f\x73\x74\x6e\x61\x6d\x65\x1a\x03\x0a\x01\x32\x2a\x0a\x1a\x03\x0a\x01\x61\x1a\x03\x0a\x01\x62\x2a\x00";

const WHOLE_PATH: &[u8] =
    b"\x1a\x0b\x0a\x09\x69\x6e\x74\x65\x72\x66\x61\x63\x65\x1a\x03\x0a\x01\x61\x1a\x05\x0a\x03\x6d\x74\x75";

const WHOLE_JSON: &[u8] = b"{\"openconfig-system:config\":{\"hostname\":\"r1\"}}";

const WHOLE: &[u8] =
    b"\x08\x01\x22\x4d\x0a\x19\x1a\x0b\x0a\x09\x69\x6e\x74\x65\x72\x66\x61\x63\x65\x1a\x03\x0a\x01\x61\x1a\x05\x0a\x03\x6d\x74\x75\x1a\x30\x5a\x2e\x7b\x22\x6f\x70\x65\x6e\x63\x6f\x6e\x66\x69\x67\x2d\x73\x79\x73\x74\x65\x6d\x3a\x63\x6f\x6e\x66\x69\x67\x22\x3a\x7b\x22\x68\x6f\x73\x74\x6e\x61\x6d\x65\x22\x3a\x22\x72\x31\x22\x7d\x7d";

fn path_of(alloc: Global, octets: &[u8]) -> Result<Path, MsgFault> {
    Ok(read_path(alloc, octets)?.path)
}

// A row for each of the updates.
fn rows_of(alloc: Global, updates: &[UpdateRow]) -> Result<Rows, MsgFault> {
    let mut rows = Seq::empty(alloc);
    for (path, typed, _) in updates {
        let path = path_of(alloc, path)?;
        if let Given::Scalar(value) = read_typed(alloc, typed)? {
            rows.push(Row { path, value })?;
        }
    }
    Ok(rows)
}

fn octets_of(
    alloc: Global,
    stamp: u64,
    target: &[u8],
    updates: Rows,
    deletes: Paths,
) -> Result<Bytes, Fail> {
    let note = Note {
        stamp,
        deletes,
        updates,
    };
    let target = Text::of(alloc, target)?;
    let mut out = Bytes::empty(alloc);
    write_note(
        alloc,
        &note,
        &target,
        Encoding::Proto,
        &Schema::empty(alloc),
        &mut out,
    )?;
    Ok(out)
}

#[test]
fn heads_of_another_library(rt: HostRuntime) -> Result<(), Fail> {
    for (stamp, target, octets) in &HEADS {
        let alloc = rt.alloc();
        let out = octets_of(alloc, *stamp, target, Seq::empty(alloc), Seq::empty(alloc))?;
        assert!(rt; out.items() == *octets, "{octets:?}");
    }
    Ok(())
}

#[test]
fn updates_of_another_library(rt: HostRuntime) -> Result<(), Fail> {
    for row in &UPDATES {
        let alloc = rt.alloc();
        let rows = rows_of(alloc, &[*row])?;
        let out = octets_of(alloc, 0, b"", rows, Seq::empty(alloc))?;
        assert!(rt; out.items() == row.2, "{row:?}");
    }
    Ok(())
}

#[test]
fn several_updates_and_deletes(rt: HostRuntime) -> Result<(), Fail> {
    let alloc = rt.alloc();
    let mut deletes = Seq::empty(alloc);
    deletes.push(path_of(alloc, UPDATES[0].0)?)?;
    deletes.push(Seq::empty(alloc))?;
    let rows = rows_of(alloc, &UPDATES[1..])?;
    let out = octets_of(alloc, 1000, b"r1", rows, deletes)?;
    assert!(rt; out.items() == SEVERAL);
    Ok(())
}

#[test]
fn a_whole_value_of_another_library(rt: HostRuntime) -> Result<(), Fail> {
    let alloc = rt.alloc();
    let path = path_of(alloc, WHOLE_PATH)?;
    let target = Text::of(alloc, b"")?;
    let mut out = Bytes::empty(alloc);
    write_whole(
        alloc,
        1,
        &path,
        WHOLE_JSON,
        &target,
        Encoding::JsonIetf,
        &mut out,
    )?;
    assert!(rt; out.items() == WHOLE);
    Ok(())
}
