//! Records of entries: their octets, and octets that are none.
use crate::lists::{one, push, text_of};
use base_kinds::{Act, Bytes, Elem, Entry, Kind, Op, Path, Row, Seq, Text, Value, Values};
use journal_record::{RecordFault, put_entry, read_entry, write_entry};
use std::alloc::Global;
use std::process::Abort;

// Set down by hand after the table of the format.
const FIRST_SET: &[u8] = &[
    0, 0, 0, 1, 0, 0, 0, 0, 0, 0, 3, 232, 1, 0, 0, 0, 1, 3, 0, 3, 0, 0, 0, 6, 115, 121, 115, 116,
    101, 109, 0, 0, 0, 0, 0, 6, 99, 111, 110, 102, 105, 103, 0, 0, 0, 0, 0, 8, 104, 111, 115, 116,
    110, 97, 109, 101, 0, 0, 0, 0, 0, 1, 0, 3, 0, 0, 0, 6, 115, 121, 115, 116, 101, 109, 0, 0, 0,
    0, 0, 6, 99, 111, 110, 102, 105, 103, 0, 0, 0, 0, 0, 8, 104, 111, 115, 116, 110, 97, 109, 101,
    0, 0, 5, 0, 0, 0, 2, 114, 49,
];

const TRIAL: &[u8] = &[
    0, 0, 0, 7, 0, 0, 0, 0, 0, 0, 7, 208, 2, 0, 0, 0, 1, 116, 0, 0, 0, 0, 59, 154, 209, 208, 0, 0,
    0, 2, 1, 0, 1, 0, 0, 0, 1, 97, 0, 2, 0, 0, 0, 1, 107, 0, 0, 0, 1, 118, 0, 0, 0, 1, 108, 0, 0,
    0, 0, 0, 0, 0, 0, 2, 0, 0, 0, 0, 0, 8, 0, 1, 0, 0, 0, 1, 97, 0, 0, 1, 1, 0, 1, 0, 0, 0, 1, 98,
    0, 0, 2, 255, 255, 255, 255, 255, 255, 255, 254, 0, 1, 0, 0, 0, 1, 99, 0, 0, 3, 255, 255, 255,
    255, 255, 255, 255, 255, 0, 1, 0, 0, 0, 1, 100, 0, 0, 4, 255, 255, 255, 255, 255, 255, 255,
    106, 2, 0, 1, 0, 0, 0, 1, 101, 0, 0, 5, 0, 0, 0, 2, 195, 169, 0, 1, 0, 0, 0, 1, 102, 0, 0, 6,
    0, 0, 0, 2, 0, 255, 0, 1, 0, 0, 0, 1, 103, 0, 0, 7, 0, 0, 0, 2, 85, 80, 0, 1, 0, 0, 0, 1, 104,
    0, 0, 8, 0, 0, 0, 2, 1, 0, 3, 0, 0, 0, 0, 0, 0, 0, 7,
];

fn elem(rt: &impl Abort, alloc: Global, name: &[u8]) -> Elem {
    Elem {
        name: text_of(rt, alloc, name),
        keys: Seq::empty(alloc),
    }
}

fn hostname(rt: &impl Abort, alloc: Global) -> Path {
    let mut path = one(rt, alloc, elem(rt, alloc, b"system"));
    push(rt, &mut path, elem(rt, alloc, b"config"));
    push(rt, &mut path, elem(rt, alloc, b"hostname"));
    path
}

fn row(rt: &impl Abort, alloc: Global) -> Row {
    Row {
        path: hostname(rt, alloc),
        value: Value::Text(text_of(rt, alloc, b"r1")),
    }
}

fn update(rt: &impl Abort, alloc: Global) -> Op {
    Op {
        act: Act::Update,
        path: hostname(rt, alloc),
        rows: one(rt, alloc, row(rt, alloc)),
    }
}

fn first_set(rt: &impl Abort, alloc: Global) -> Entry {
    Entry {
        number: 1,
        author: 1,
        stamp: 1000,
        kind: Kind::Apply(one(rt, alloc, update(rt, alloc))),
    }
}

/// A list of a Bool and a Uint.
fn two_values(rt: &impl Abort, alloc: Global) -> Values {
    let mut values = one(rt, alloc, Value::Bool(false));
    push(rt, &mut values, Value::Uint(7));
    values
}

/// The value of the trial's row of this number.
fn value_of(rt: &impl Abort, alloc: Global, number: usize) -> Value {
    match number {
        0 => Value::Bool(true),
        1 => Value::Int(-2),
        2 => Value::Uint(18_446_744_073_709_551_615),
        3 => Value::Dec(-150, 2),
        4 => Value::Text(text_of(rt, alloc, "\u{e9}".as_bytes())),
        5 => Value::Bin(Seq::of(alloc, &[0, 255]).expect(rt, "memory")),
        6 => Value::Enum(text_of(rt, alloc, b"UP")),
        _ => Value::List(two_values(rt, alloc)),
    }
}

/// The octets that an entry is written as.
fn written(rt: &impl Abort, alloc: Global, entry: &Entry) -> Bytes {
    let mut out = Seq::empty(alloc);
    write_entry(alloc, entry, &mut out).expect(rt, "memory");
    out
}

/// Whether these octets, and no more than these, are a record of this entry.
fn reads_as(alloc: Global, octets: &[u8], entry: &Entry) -> bool {
    match read_entry(alloc, 1, octets) {
        Ok((read, rest)) => {
            let is_same = read == *entry && rest.is_empty();
            drop(read);
            is_same
        }
        Err(_) => false,
    }
}

fn is_written_as(rt: &impl Abort, alloc: Global, entry: &Entry, octets: &[u8]) -> bool {
    written(rt, alloc, entry).items() == octets
}

/// Whether an entry is written as these octets and read of them.
fn has_octets(rt: &impl Abort, alloc: Global, entry: &Entry, octets: &[u8]) -> bool {
    is_written_as(rt, alloc, entry, octets) && reads_as(alloc, octets, entry)
}

#[test]
fn the_first_set_is_its_109_octets(rt: HostRuntime) {
    let alloc = rt.alloc();
    assert!(rt; has_octets(&rt, alloc, &first_set(&rt, alloc), FIRST_SET));
}

/// Whether the rows of these operations have the values of the trial's rows, in their order.
fn have_values(rt: &impl Abort, alloc: Global, ops: &[Op]) -> bool {
    let mut count = 0;
    let mut are_same = true;
    for op in ops {
        for row in op.rows.items() {
            let value = value_of(rt, alloc, count);
            are_same = are_same && row.value == value;
            drop(value);
            count = count.saturating_add(1);
        }
    }
    are_same && count == 8
}

/// Whether an entry is the trial's.
fn is_trial(rt: &impl Abort, alloc: Global, entry: &Entry) -> bool {
    let Kind::Trial(id, ops, deadline) = &entry.kind else {
        return false;
    };
    (entry.number, entry.author, entry.stamp) == (2, 7, 2000)
        && id.octets() == b"t".as_slice()
        && *deadline == 1_000_002_000
        && have_values(rt, alloc, ops.items())
}

/// The octets that an entry is put as, by the call that takes room that was asked for.
fn put_as(rt: &impl Abort, alloc: Global, entry: &Entry) -> Vec<u8> {
    let mut out = Vec::new(alloc);
    put_entry(entry, &mut out).expect(rt, "memory");
    out
}

fn is_put_as(rt: &impl Abort, alloc: Global, entry: &Entry, octets: &[u8]) -> bool {
    put_as(rt, alloc, entry).as_slice() == octets
}

/// Whether the trial's octets, and no more than these, are a record of the trial's entry, and are put of it.
fn is_trial_read_and_put(rt: &impl Abort, alloc: Global) -> bool {
    match read_entry(alloc, 2, TRIAL) {
        Ok((read, rest)) => {
            let is_trial = is_trial(rt, alloc, &read);
            let is_put = is_put_as(rt, alloc, &read, TRIAL);
            drop(read);
            rest.is_empty() && is_trial && is_put
        }
        Err(_) => false,
    }
}

#[test]
fn every_kind_of_value_is_read_and_written(rt: HostRuntime) {
    assert!(rt; is_trial_read_and_put(&rt, rt.alloc()));
}

/// The octet of a kind without operations, by the table of the format; 0 for the others.
fn number_of(kind: &Kind) -> u8 {
    match kind {
        Kind::Confirm => 3,
        Kind::Cancel => 4,
        Kind::Expire => 5,
        Kind::Restart => 6,
        Kind::Apply(_) | Kind::Trial(_, _, _) | Kind::Extend(_) => 0,
    }
}

const EXTEND: &[u8] = &[
    0, 0, 0, 9, 0, 0, 0, 0, 0, 0, 0, 5, 7, 0, 0, 0, 0, 0, 0, 1, 2, 99,
];

/// Whether octets are a record of an entry of the kind with this number, by the author and at the stamp of the octets below.
fn has_number(alloc: Global, octets: &[u8], number: u8) -> bool {
    match read_entry(alloc, 1, octets) {
        Ok((read, rest)) => {
            let has_number = (read.author, read.stamp) == (9, 5)
                && number_of(&read.kind) == number
                && rest.is_empty();
            drop(read);
            has_number
        }
        Err(_) => false,
    }
}

/// The deadline that an entry of this kind gives a trial.
fn deadline_of(kind: &Kind) -> Option<u64> {
    match kind {
        Kind::Extend(deadline) => Some(*deadline),
        _ => None,
    }
}

/// Whether octets are a record that gives a trial this deadline, with this octet behind it.
fn extends(alloc: Global, octets: &[u8], deadline: u64, last: u8) -> bool {
    match read_entry(alloc, 1, octets) {
        Ok((read, rest)) => {
            let found = deadline_of(&read.kind);
            drop(read);
            found == Some(deadline) && rest == [last].as_slice()
        }
        Err(_) => false,
    }
}

#[test]
fn other_kinds_have_their_numbers(rt: HostRuntime) {
    for number in 3..7 {
        let octets = [0, 0, 0, 9, 0, 0, 0, 0, 0, 0, 0, 5, number];
        assert!(rt; has_number(rt.alloc(), &octets, number), "{number}");
    }
    assert!(rt; extends(rt.alloc(), EXTEND, 258, 99));
}

/// An octet of the trial's record that is another one, so that it is no record: a kind, an act, a
/// length, 33 elements, keys, rows, a delete with rows, tags, a Bool, places, UTF-8, a list in a
/// list, a count.
const CHANGED: &[(usize, u8)] = &[
    (12, 0),
    (12, 8),
    (30, 0),
    (30, 4),
    (13, 1),
    (32, 33),
    (44, 108),
    (76, 98),
    (63, 1),
    (79, 0),
    (79, 9),
    (80, 2),
    (135, 0),
    (135, 19),
    (151, 65),
    (198, 8),
    (194, 255),
];

/// Whether octets are no record.
fn is_none(alloc: Global, octets: &[u8]) -> bool {
    let read = read_entry(alloc, 1, octets);
    let is_none = matches!(read, Err(RecordFault::NoRecord));
    drop(read);
    is_none
}

/// Whether the trial's record with another octet at a place is none.
fn is_none_with(rt: &impl Abort, alloc: Global, place: usize, octet: u8) -> bool {
    let mut octets = TRIAL.to_vec(alloc).expect(rt, "memory");
    if let Some(changed) = octets.get_mut(place) {
        *changed = octet;
    }
    is_none(alloc, &octets)
}

#[test]
fn what_is_no_record_is_refused(rt: HostRuntime) {
    let alloc = rt.alloc();
    for length in 0..TRIAL.len() {
        assert!(rt; is_none(alloc, &TRIAL[..length]), "{length} octets");
    }
    for (place, octet) in CHANGED {
        assert!(rt;
            is_none_with(&rt, alloc, *place, *octet),
            "octet {place} as {octet}"
        );
    }
}
