//! Journals: their octets, what is read where one of them is changed, and each rule of what may
//! follow.
ghost use Rattle.base_kinds.specs.Limits.{AreInRange};

use crate::lists::{one, push, text_of};
use base_kinds::{Act, Bytes, Elem, Entry, Kind, Limits, Op, Ops, Path, Row, Seq, Text, Value};
use journal_format::{
    CLOSED_GATE, Journal, JournalFault, OPEN_GATE, read_journal, write_entry, write_header,
};
use std::alloc::Global;
use std::process::Abort;

// The octets, and what is read where one of them is changed, were worked out apart from this
// program, from the rules alone: a place below 1,000,000 is that of damage, and 1,000,000 and a
// number that of the entries.
const FIRST_SET: &[u8] = &[
    71, 78, 77, 73, 74, 82, 78, 49, 0, 1, 0, 0, 16, 0, 0, 0, 165, 0, 0, 0, 1, 0, 0, 0, 0, 0, 0, 3,
    232, 1, 0, 0, 0, 1, 3, 0, 3, 0, 0, 0, 6, 115, 121, 115, 116, 101, 109, 0, 0, 0, 0, 0, 6, 99,
    111, 110, 102, 105, 103, 0, 0, 0, 0, 0, 8, 104, 111, 115, 116, 110, 97, 109, 101, 0, 0, 0, 0,
    0, 1, 0, 3, 0, 0, 0, 6, 115, 121, 115, 116, 101, 109, 0, 0, 0, 0, 0, 6, 99, 111, 110, 102, 105,
    103, 0, 0, 0, 0, 0, 8, 104, 111, 115, 116, 110, 97, 109, 101, 0, 0, 5, 0, 0, 0, 2, 114, 49, 0,
];

const THREE: &[u8] = &[
    71, 78, 77, 73, 74, 82, 78, 49, 0, 1, 0, 0, 16, 0, 0, 0, 165, 0, 0, 0, 1, 0, 0, 0, 0, 0, 0, 3,
    232, 1, 0, 0, 0, 0, 165, 0, 0, 0, 2, 0, 0, 0, 0, 0, 0, 3, 233, 2, 0, 0, 0, 1, 116, 0, 0, 0, 0,
    59, 154, 205, 233, 0, 0, 0, 0, 165, 0, 0, 0, 3, 0, 0, 0, 0, 0, 0, 3, 234, 3, 0,
];

// each octet with all its bits turned
const FLIPPED: &[u32] = &[
    0, 0, 0, 0, 0, 0, 0, 0, 0, 0, 0, 0, 0, 0, 0, 0, 1000000, 1000003, 1000003, 1000003, 1000003,
    16, 34, 34, 34, 34, 34, 34, 1000003, 16, 16, 16, 16, 16, 1000001, 1000003, 1000003, 1000003,
    1000003, 34, 34, 34, 34, 34, 34, 34, 34, 34, 34, 34, 34, 34, 34, 34, 34, 34, 1000003, 1000003,
    34, 34, 34, 34, 34, 34, 34, 1000002, 1000003, 1000003, 1000003, 1000003, 65, 1000003, 1000003,
    1000003, 1000003, 1000003, 1000003, 65, 65, 1000003,
];

// each octet with its lowest bit turned
const LAST_BIT: &[u32] = &[
    0, 0, 0, 0, 0, 0, 0, 0, 0, 0, 0, 0, 0, 0, 0, 0, 1000000, 1000003, 1000003, 1000003, 16, 34, 34,
    34, 34, 34, 34, 1000003, 34, 16, 16, 16, 16, 16, 1000001, 1000003, 1000003, 1000003, 1000003,
    34, 34, 34, 34, 34, 34, 34, 34, 34, 34, 34, 34, 34, 1000003, 34, 34, 1000003, 1000003, 34,
    1000003, 34, 34, 34, 34, 34, 34, 1000002, 1000003, 1000003, 1000003, 1000003, 1000003, 1000003,
    1000003, 1000003, 1000003, 1000003, 65, 1000003, 65, 1000003,
];

const GREATEST: Limits = Limits {
    entries: 65_536,
    octets: 268_435_456,
};

const SMALL: Limits = Limits {
    entries: 2,
    octets: 4096,
};

/// What was read: the place of damage, or 1,000,000 and the number of entries; nothing where memory was wanting.
fn told(read: &Result<Journal, JournalFault>) -> Option<u64> {
    match read {
        Ok(journal) => Some((journal.entries.len() as u64).saturating_add(1_000_000)),
        Err(JournalFault::Damaged(place)) => Some(*place),
        Err(JournalFault::NoMemory) => None,
    }
}

/// What octets are: the place of damage, or 1,000,000 and the number of entries.
fn outcome(rt: &impl Abort, alloc: Global, octets: &[u8]) -> u64 {
    let read = read_journal(alloc, octets);
    let told = told(&read);
    drop(read);
    told.expect(rt, "memory")
}

/// The octets of a journal under these limits, to which entries may be put.
fn begun(rt: &impl Abort, alloc: Global, limits: &Limits) -> Bytes
    requires { AreInRange limits.now }
{
    let mut out = Seq::empty(alloc);
    write_header(limits, &mut out).expect(rt, "memory");
    out
}

fn put_entry(rt: &impl Abort, alloc: Global, out: &mut Bytes, entry: &Entry) {
    push(rt, out, OPEN_GATE);
    write_entry(alloc, entry, out).expect(rt, "memory");
}

/// A journal written again.
fn written(rt: &impl Abort, alloc: Global, journal: &Journal) -> Bytes
    requires { AreInRange journal.now.limits }
{
    let mut out = begun(rt, alloc, &journal.limits);
    for entry in journal.entries.items() {
        put_entry(rt, alloc, &mut out, entry);
    }
    push(rt, &mut out, CLOSED_GATE);
    out
}

/// Whether entries are one Set at stamp 1000 by author 1.
fn are_first(entries: &[Entry]) -> bool {
    match entries {
        [entry] => (entry.number, entry.author, entry.stamp) == (1, 1, 1000),
        _ => false,
    }
}

fn is_written_as(rt: &impl Abort, alloc: Global, journal: &Journal, octets: &[u8]) -> bool
    requires { AreInRange journal.now.limits }
{
    written(rt, alloc, journal).items() == octets
}

/// Whether a journal is that of the first Set, and is written as its octets.
fn is_first_set(rt: &impl Abort, alloc: Global, journal: &Journal) -> bool
    requires { AreInRange journal.now.limits }
{
    (journal.gate, journal.limits) == (126, GREATEST)
        && are_first(journal.entries.items())
        && is_written_as(rt, alloc, journal, FIRST_SET)
}

fn is_first_set_read(rt: &impl Abort, alloc: Global) -> bool {
    match read_journal(alloc, FIRST_SET) {
        Ok(journal) => {
            let is_first_set = is_first_set(rt, alloc, &journal);
            drop(journal);
            is_first_set
        }
        Err(_) => false,
    }
}

#[test]
fn the_first_set_is_its_127_octets(rt: HostRuntime) {
    assert!(rt; is_first_set_read(&rt, rt.alloc()));
}

/// The first octets of the first Set's journal, and what they are.
const CUT: &[(usize, u64)] = &[(126, 126), (100, 16), (15, 0), (0, 0)];

/// An octet of it that is another one, and what it is then.
const CHANGED: &[(usize, u8, u64)] = &[
    (0, 72, 0),
    (126, 0x7F, 1_000_001),
    (126, 0xA5, 126),
    (16, 0x7F, 1_000_000),
];

/// What octets are with another one at a place.
fn outcome_with(rt: &impl Abort, alloc: Global, octets: &[u8], place: usize, octet: u8) -> u64 {
    let mut octets = octets.to_vec(alloc).expect(rt, "memory");
    if let Some(changed) = octets.get_mut(place) {
        *changed = octet;
    }
    outcome(rt, alloc, &octets)
}

#[test]
fn the_first_set_cut_or_changed_is_damaged(rt: HostRuntime) {
    let alloc = rt.alloc();
    for (length, expected) in CUT {
        let found = outcome(&rt, alloc, FIRST_SET.get(..*length).unwrap_or_default());
        assert!(rt; found == *expected, "{length} octets: {found}");
    }
    for (place, octet, expected) in CHANGED {
        let found = outcome_with(&rt, alloc, FIRST_SET, *place, *octet);
        assert!(rt; found == *expected, "octet {place} as {octet}: {found}");
    }
}

/// What three entries are with these bits turned in the octet at a place.
fn outcome_turned(rt: &impl Abort, alloc: Global, turned: u8, place: usize) -> u64 {
    let octet = THREE.get(place).copied().unwrap_or_default() ^ turned;
    outcome_with(rt, alloc, THREE, place, octet)
}

/// Each octet of three entries with these bits turned.
fn turns_as(rt: &impl Abort, alloc: Global, turned: u8, table: &[u32]) {
    for (place, expected) in table.iter().enumerate() {
        let found = outcome_turned(rt, alloc, turned, place);
        assert!(rt;
            found == u64::from(*expected),
            "octet {place} and {turned}: {found}"
        );
    }
}

#[test]
fn each_octet_changed_is_found_at_its_gate(rt: HostRuntime) {
    assert!(rt; outcome(&rt, rt.alloc(), THREE) == 1_000_003);
    turns_as(&rt, rt.alloc(), 255, FLIPPED);
    turns_as(&rt, rt.alloc(), 1, LAST_BIT);
}

/// A path of one element.
fn short_path(rt: &impl Abort, alloc: Global) -> Path {
    let elem = Elem {
        name: text_of(rt, alloc, b"a"),
        keys: Seq::empty(alloc),
    };
    one(rt, alloc, elem)
}

/// So many octets.
fn sevens(rt: &impl Abort, alloc: Global, length: usize) -> Bytes {
    let mut octets = Seq::empty(alloc);
    for _ in 0..length {
        push(rt, &mut octets, 7);
    }
    octets
}

/// A row with so many octets.
fn long_row(rt: &impl Abort, alloc: Global, length: usize) -> Row {
    Row {
        path: short_path(rt, alloc),
        value: Value::Bin(sevens(rt, alloc, length)),
    }
}

/// A replace of the root by one row of so many octets: 21 octets and these.
fn long(rt: &impl Abort, alloc: Global, length: usize) -> Ops {
    let op = Op {
        act: Act::Replace,
        path: Seq::empty(alloc),
        rows: one(rt, alloc, long_row(rt, alloc, length)),
    };
    one(rt, alloc, op)
}

/// A kind as it stands in a table.
#[derive(Clone, Copy, Debug)]
enum Case {
    Apply,
    /// A plain Set whose record is so many octets longer.
    Long(usize),
    Trial(&'static [u8], u64),
    LongTrial(usize),
    Confirm,
    Cancel,
    Expire,
    Restart,
    Extend(u64),
}

fn trial(rt: &impl Abort, alloc: Global, id: &[u8], ops: Ops, deadline: u64) -> Kind {
    Kind::Trial(text_of(rt, alloc, id), ops, deadline)
}

fn kind_of(rt: &impl Abort, alloc: Global, case: Case) -> Kind {
    match case {
        Case::Apply => Kind::Apply(Seq::empty(alloc)),
        Case::Long(length) => Kind::Apply(long(rt, alloc, length)),
        Case::Trial(id, deadline) => trial(rt, alloc, id, Seq::empty(alloc), deadline),
        Case::LongTrial(length) => trial(rt, alloc, b"t", long(rt, alloc, length), 2_000_000_000),
        Case::Confirm => Kind::Confirm,
        Case::Cancel => Kind::Cancel,
        Case::Expire => Kind::Expire,
        Case::Restart => Kind::Restart,
        Case::Extend(deadline) => Kind::Extend(deadline),
    }
}

fn put(rt: &impl Abort, alloc: Global, out: &mut Bytes, author: u32, stamp: u64, case: Case) {
    let entry = Entry {
        number: 0,
        author,
        stamp,
        kind: kind_of(rt, alloc, case),
    };
    put_entry(rt, alloc, out, &entry);
    drop(entry);
}

/// What a journal is with one entry at stamp 1000 by author 1.
fn alone(rt: &impl Abort, alloc: Global, case: Case) -> u64 {
    let mut out = begun(rt, alloc, &SMALL);
    put(rt, alloc, &mut out, 1, 1000, case);
    push(rt, &mut out, CLOSED_GATE);
    outcome(rt, alloc, out.items())
}

/// What it is with another entry behind that one.
fn behind(
    rt: &impl Abort,
    alloc: Global,
    limits: &Limits,
    first: Case,
    author: u32,
    stamp: u64,
    case: Case,
) -> u64
    requires { AreInRange limits.now }
{
    let mut out = begun(rt, alloc, limits);
    put(rt, alloc, &mut out, 1, 1000, first);
    put(rt, alloc, &mut out, author, stamp, case);
    push(rt, &mut out, CLOSED_GATE);
    outcome(rt, alloc, out.items())
}

/// Authors, stamps and kinds behind a plain Set without operations at stamp 1000: the second gate
/// stands at 34.
const BEHIND_A_SET: &[(u32, u64, Case, u64)] = &[
    (2, 1001, Case::Apply, 1_000_002),
    (0, 1001, Case::Apply, 34),
    (2, 1000, Case::Apply, 34),
    (2, 4_102_444_800_000_000_002, Case::Apply, 1_000_002),
    (2, 4_102_444_800_000_000_003, Case::Apply, 34),
    (2, 1001, Case::Confirm, 34),
    (2, 1001, Case::Cancel, 34),
    (0, 1001, Case::Expire, 34),
    (0, 1001, Case::Restart, 34),
    (2, 1001, Case::Extend(2_000_000_000), 34),
    (0, 1001, Case::Trial(b"t", 2_000_000_000), 34),
    (2, 1001, Case::Trial(b"", 2_000_000_000), 34),
    (2, 1001, Case::Trial(&[b'i'; 64], 2_000_000_000), 1_000_002),
    (2, 1001, Case::Trial(&[b'i'; 65], 2_000_000_000), 34),
    (2, 1001, Case::Trial(b"t", 1_000_001_000), 34),
    (2, 1001, Case::Trial(b"t", 1_000_001_001), 1_000_002),
    (2, 1001, Case::Trial(b"t", 86_400_000_001_001), 1_000_002),
    (2, 1001, Case::Trial(b"t", 86_400_000_001_002), 34),
];

#[test]
fn each_rule_of_an_entry_is_kept(rt: HostRuntime) {
    for (author, stamp, case, expected) in BEHIND_A_SET {
        let found = behind(
            &rt,
            rt.alloc(),
            &GREATEST,
            Case::Apply,
            *author,
            *stamp,
            *case,
        );
        assert!(rt; found == *expected, "{author} {stamp} {case:?}: {found}");
    }
}

const OPEN_TRIAL: Case = Case::Trial(b"t", 2_000_000_000);

/// Authors and kinds at stamp 1001 behind a trial at stamp 1000, whose record has 30 octets: the
/// gate stands at 47.
const BEHIND_A_TRIAL: &[(u32, Case, u64)] = &[
    (2, Case::Confirm, 1_000_002),
    (2, Case::Cancel, 1_000_002),
    (0, Case::Expire, 1_000_002),
    (0, Case::Restart, 1_000_002),
    (2, Case::Extend(1_000_001_001), 1_000_002),
    (2, Case::Extend(1_000_001_000), 47),
    (2, Case::Extend(86_400_000_001_002), 47),
    (0, Case::Confirm, 47),
    (0, Case::Cancel, 47),
    (0, Case::Extend(1_000_001_001), 47),
    (2, Case::Expire, 47),
    (2, Case::Restart, 47),
    (2, Case::Apply, 47),
    (2, Case::Trial(b"u", 2_000_000_000), 47),
];

#[test]
fn each_rule_of_an_open_trial_is_kept(rt: HostRuntime) {
    for (author, case, expected) in BEHIND_A_TRIAL {
        let found = behind(&rt, rt.alloc(), &GREATEST, OPEN_TRIAL, *author, 1001, *case);
        assert!(rt; found == *expected, "{author} {case:?}: {found}");
    }
}

/// A plain Set fills a journal of 4,096 octets, or is an octet too long; a trial leaves 14 octets.
const LENGTHS: &[(Case, u64)] = &[
    (Case::Long(4040), 1_000_001),
    (Case::Long(4041), 16),
    (Case::LongTrial(4013), 1_000_001),
    (Case::LongTrial(4014), 16),
];

/// Two entries, and with a trial open one.
const COUNTS: &[(Case, u64)] = &[(Case::Apply, 1_000_002), (OPEN_TRIAL, 34)];

#[test]
fn the_limit_of_octets_is_kept(rt: HostRuntime) {
    for (case, expected) in LENGTHS {
        let found = alone(&rt, rt.alloc(), *case);
        assert!(rt; found == *expected, "{case:?}: {found}");
    }
}

/// What a small journal is with an entry of this case behind a plain Set.
fn behind_a_set(rt: &impl Abort, alloc: Global, case: Case) -> u64 {
    behind(rt, alloc, &SMALL, Case::Apply, 1, 1001, case)
}

#[test]
fn the_limit_of_entries_is_kept(rt: HostRuntime) {
    for (case, expected) in COUNTS {
        let found = behind_a_set(&rt, rt.alloc(), *case);
        assert!(rt; found == *expected, "{case:?}: {found}");
    }
}
