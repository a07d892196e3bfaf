use crate::short_paths::{path_of, text_of, texts_of};
use base_kinds::{
    Act, Ask, Bytes, Entries, LONGEST_DURATION, Limits, Op, Ops, Paths, Row, Rows, Seq, Shape,
    Sort, Texts, Value,
};
use reference_model::{
    Node, PlainWorld, covers, duration_of, effect, has_shape, is_valid, key_text, matches, part_of,
    size_of, stamp_of, step_of, world_of,
};
use std::alloc::Global;
use std::process::Abort;

const MINUTE: u64 = 60_000_000_000;

/// The stamps of these tests are below 2^62.
const LATEST_STAMP: u64 = 4_611_686_018_427_387_904;

const LIMITS: Limits = Limits {
    entries: 65_536,
    octets: 268_435_456,
};

/// Rows as pairs of a path and a text.
type Pairs = &'static [(&'static str, &'static str)];

/// What an operation does, its path, and its rows.
type Operation = (Act, &'static str, Pairs);

/// An ask: its id, its operations, and how long the trial is to last.
enum Asking {
    Apply(&'static [Operation]),
    Trial(&'static str, &'static [Operation], u64),
    Extend(&'static str, u64),
    Confirm(&'static str),
    Cancel(&'static str),
}

fn paths_of(rt: &impl Abort, alloc: Global, texts: &[&str]) -> Paths {
    let mut paths = Seq::empty(alloc);
    for text in texts {
        paths.push(path_of(rt, alloc, text)).expect(rt, "memory");
    }
    paths
}

fn rows_of(rt: &impl Abort, alloc: Global, pairs: &[(&str, &str)]) -> Rows {
    let mut rows = Seq::empty(alloc);
    for (path, text) in pairs {
        rows.push(Row {
            path: path_of(rt, alloc, path),
            value: Value::Text(text_of(rt, alloc, text)),
        })
        .expect(rt, "memory");
    }
    rows
}

fn ops_of(rt: &impl Abort, alloc: Global, operations: &[Operation]) -> Ops {
    let mut ops = Seq::empty(alloc);
    for (act, path, pairs) in operations {
        ops.push(Op {
            act: *act,
            path: path_of(rt, alloc, path),
            rows: rows_of(rt, alloc, pairs),
        })
        .expect(rt, "memory");
    }
    ops
}

fn ask_of(rt: &impl Abort, alloc: Global, asking: &Asking) -> Ask {
    match asking {
        Asking::Apply(operations) => Ask::Apply(ops_of(rt, alloc, operations)),
        Asking::Trial(id, operations, duration) => {
            let ops = ops_of(rt, alloc, operations);
            Ask::Trial(text_of(rt, alloc, id), ops, *duration)
        }
        Asking::Extend(id, duration) => Ask::Extend(text_of(rt, alloc, id), *duration),
        Asking::Confirm(id) => Ask::Confirm(text_of(rt, alloc, id)),
        Asking::Cancel(id) => Ask::Cancel(text_of(rt, alloc, id)),
    }
}

/// The stamp of the entry that the ask becomes, which is added to the entries, or the number of the refusal.
fn answer(
    rt: &impl Abort,
    alloc: Global,
    limits: &Limits,
    entries: &mut Entries,
    now: u64,
    ask: Ask,
) -> u64 {
    assert!(rt; stamp_of(entries.items()) < LATEST_STAMP && duration_of(&ask) <= LONGEST_DURATION);
    match step_of(alloc, limits, entries, now, 1, ask) {
        Ok(entry) => {
            let stamp = entry.stamp;
            entries.push(entry).expect(rt, "memory");
            stamp
        }
        Err(refusal) => u64::from(refusal.number()),
    }
}

/// The log behind asks one after another, each of them between the reading of the clock and what becomes of it: the
/// stamp of its entry, or the number of the refusal.
fn log_of(rt: &impl Abort, alloc: Global, limits: &Limits, asks: &[(u64, Asking, u64)]) -> Entries {
    let mut entries = Seq::empty(alloc);
    for (now, asking, wanted) in asks {
        let ask = ask_of(rt, alloc, asking);
        let answered = answer(rt, alloc, limits, &mut entries, *now, ask);
        assert!(rt; answered == *wanted, "{answered} at {now}");
    }
    entries
}

/// A pattern and a path that it matches on each line, worked out by hand, with `|` between them.
const MATCHING: &str = "\
|\n\
a|a\n\
a/b|a/b\n\
*|a\n\
a/*/c|a/b/c\n\
...|\n\
...|a/b/c\n\
a/.../c|a/c\n\
a/.../c|a/b/c\n\
a/.../c|a/b/b/c\n\
.../c|c/b/c\n\
a/...|a\n\
a/...|a/b/c\n\
.../b/...|a/b/c\n\
.../...|\n\
.../b/.../b|b/a/b\n\
.../*|a\n\
l,k=x|l,k=x\n\
l,k=*|l,k=x\n\
l|l,k=x\n\
l,k=x|l,j=y,k=x\n\
l,j=*,k=x|l,j=y,k=x\n\
*,k=x|l,k=x\n\
.../l,k=x|a/l,k=y/l,k=x\n\
...,k=x|a\n\
";

/// A pattern and a path that it doesn't match on each line.
const NOT_MATCHING: &str = "\
|a\n\
a|\n\
a|b\n\
a|a/b\n\
a/b|a\n\
*|\n\
*|a/b\n\
a/.../c|a/b\n\
a/.../c|c\n\
.../b/.../b|a/b\n\
.../*|\n\
.../c|c/b\n\
l,k=x|l,k=y\n\
l,k=x|l\n\
l,j=x,k=x|l,j=x,k=y\n\
**|a\n\
";

fn is_matched(rt: &impl Abort, alloc: Global, pattern: &str, path: &str) -> bool {
    matches(&path_of(rt, alloc, pattern), &path_of(rt, alloc, path))
}

/// On how many of the lines the pattern matches the path, or doesn't, as is wanted.
fn count_of(rt: &impl Abort, alloc: Global, lines: &str, wanted: bool) -> usize {
    let mut count = 0usize;
    for line in lines.lines() {
        if let Some((pattern, path)) = line.split_once('|') {
            if is_matched(rt, alloc, pattern, path) == wanted {
                count = count.saturating_add(1);
            }
        }
    }
    count
}

#[test]
fn patterns_match_as_worked_out_by_hand(rt: HostRuntime) {
    let alloc = rt.alloc();
    assert!(rt; count_of(&rt, alloc, MATCHING, true) == 25);
    assert!(rt; count_of(&rt, alloc, NOT_MATCHING, false) == 16);
}

/// Whether the part of a tree that these patterns cover is as wanted.
fn is_part(
    rt: &impl Abort,
    alloc: Global,
    patterns: &[&str],
    tree: &[(&str, &str)],
    wanted: &[(&str, &str)],
) -> bool {
    let patterns = paths_of(rt, alloc, patterns);
    let part = part_of(alloc, &patterns, &rows_of(rt, alloc, tree)).expect(rt, "memory");
    part == rows_of(rt, alloc, wanted)
}

fn is_covered(rt: &impl Abort, alloc: Global, pattern: &str, path: &str) -> bool {
    covers(&path_of(rt, alloc, pattern), &path_of(rt, alloc, path))
}

const TREE: Pairs = &[("a/b", "1"), ("a/c", "2"), ("d", "3")];

/// What the patterns `*/c` and `d` cover of it.
const PART: Pairs = &[("a/c", "2"), ("d", "3")];

#[test]
fn a_part_is_what_some_pattern_covers(rt: HostRuntime) {
    let alloc = rt.alloc();
    assert!(rt; is_part(&rt, alloc, &["*/c", "d"], TREE, PART));
    assert!(rt; is_covered(&rt, alloc, "a", "a/b"));
}

const UNORDERED: &[Operation] = &[
    (Act::Update, "a", &[("a", "u")]),
    (Act::Replace, "a", &[("a", "r")]),
    (Act::Delete, "a", &[]),
];

/// A tree, and what those operations make of it.
const BEFORE: Pairs = &[("a", "old"), ("b", "stays")];

const AFTER: Pairs = &[("a", "u"), ("b", "stays")];

/// Whether the operations make the wanted rows of a tree.
fn is_effect(
    rt: &impl Abort,
    alloc: Global,
    operations: &[Operation],
    tree: &[(&str, &str)],
    wanted: &[(&str, &str)],
) -> bool {
    let ops = ops_of(rt, alloc, operations);
    let rows = effect(alloc, &ops, &rows_of(rt, alloc, tree)).expect(rt, "memory");
    rows == rows_of(rt, alloc, wanted)
}

#[test]
fn deletes_come_before_replaces_and_these_before_updates(rt: HostRuntime) {
    assert!(rt; is_effect(&rt, rt.alloc(), UNORDERED, BEFORE, AFTER));
}

const DELETED: &[(u64, Asking, u64)] = &[(
    1000,
    Asking::Apply(&[(Act::Delete, "l,k=*/c", &[])]),
    1000,
)];

#[test]
fn a_wildcard_delete_of_nothing_is_an_entry(rt: HostRuntime) {
    let size = size_of(log_of(&rt, rt.alloc(), &LIMITS, DELETED).items());
    // 16, a gate, 13, a count, an act, two elements of which one has a key, a count, a gate
    assert!(rt; size == 16 + 1 + 13 + 4 + 1 + (2 + 7 + 10 + 7) + 4 + 1);
}

const HOSTNAME: &[Operation] = &[(Act::Update, "a", &[("a", "r1")])];

/// A trial of a minute from 1000 on, and what a confirm becomes at each of two readings.
const CONFIRMED: &[&[(u64, Asking, u64)]] = &[
    &[
        (1000, Asking::Trial("t", HOSTNAME, MINUTE), 1000),
        (60_000_000_999, Asking::Confirm("t"), 60_000_000_999),
    ],
    &[
        (1000, Asking::Trial("t", HOSTNAME, MINUTE), 1000),
        (60_000_001_000, Asking::Confirm("t"), 11),
    ],
];

#[test]
fn a_trial_is_confirmed_in_its_last_nanosecond(rt: HostRuntime) {
    for asks in CONFIRMED {
        let count = log_of(&rt, rt.alloc(), &LIMITS, asks).len();
        assert!(rt; count == 2);
    }
}

/// Asks one after another, and what becomes of each.
const ONE_TRIAL: &[(u64, Asking, u64)] = &[
    (1, Asking::Trial("t", &[], MINUTE), 1),
    (1, Asking::Trial("t", &[], MINUTE), 10),
    (1, Asking::Apply(&[]), 10),
    (1, Asking::Confirm("u"), 12),
    (1, Asking::Cancel("u"), 12),
    (1, Asking::Cancel("t"), 2),
    (1, Asking::Cancel("t"), 11),
];

#[test]
fn one_trial_at_a_time(rt: HostRuntime) {
    log_of(&rt, rt.alloc(), &LIMITS, ONE_TRIAL);
}

/// A Set, and a trial that overwrites one of its rows, deletes the other, and is cancelled.
const CANCELLED: &[(u64, Asking, u64)] = &[
    (
        1000,
        Asking::Apply(&[(Act::Update, "", &[("a", "1"), ("b", "2")])]),
        1000,
    ),
    (
        1000,
        Asking::Trial(
            "t",
            &[(Act::Update, "a", &[("a", "9")]), (Act::Delete, "b", &[])],
            MINUTE,
        ),
        1001,
    ),
    (1000, Asking::Cancel("t"), 1002),
];

const UNCANCELLED: Pairs = &[("a", "1"), ("b", "2")];

fn is_without_trial(world: &PlainWorld, rows: &Rows) -> bool {
    world.tree == *rows && world.trial.is_none()
}

/// Whether the asks leave these rows, and no open trial.
fn is_settled(
    rt: &impl Abort,
    alloc: Global,
    asks: &[(u64, Asking, u64)],
    pairs: &[(&str, &str)],
) -> bool {
    let log = log_of(rt, alloc, &LIMITS, asks);
    let world = world_of(alloc, log.items()).expect(rt, "memory");
    is_without_trial(&world, &rows_of(rt, alloc, pairs))
}

#[test]
fn cancel_brings_back_what_was_overwritten_and_what_was_deleted(rt: HostRuntime) {
    assert!(rt; is_settled(&rt, rt.alloc(), CANCELLED, UNCANCELLED));
}

/// A trial of a second that is extended by a clock that has gone back, and what a confirm becomes at each of two readings.
const EXTENDED: &[&[(u64, Asking, u64)]] = &[
    &[
        (5000, Asking::Trial("t", &[], 1_000_000_000), 5000),
        (10, Asking::Extend("t", 2_000_000_000), 5001),
        (2_000_005_000, Asking::Confirm("t"), 2_000_005_000),
    ],
    &[
        (5000, Asking::Trial("t", &[], 1_000_000_000), 5000),
        (10, Asking::Extend("t", 2_000_000_000), 5001),
        (2_000_005_001, Asking::Confirm("t"), 11),
    ],
];

#[test]
fn a_clock_that_goes_back_and_a_longer_trial(rt: HostRuntime) {
    for asks in EXTENDED {
        log_of(&rt, rt.alloc(), &LIMITS, asks);
    }
}

const NARROW: Limits = Limits {
    entries: 2,
    octets: 4096,
};

/// What becomes of each of three Sets where the log has room for two entries.
const THREE_SETS: &[(u64, Asking, u64)] = &[
    (1, Asking::Apply(&[]), 1),
    (1, Asking::Apply(&[]), 2),
    (1, Asking::Apply(&[]), 18),
];

/// What becomes of a trial behind a Set there.
const TRIAL_SECOND: &[(u64, Asking, u64)] = &[
    (1, Asking::Apply(&[]), 1),
    (1, Asking::Trial("t", HOSTNAME, MINUTE), 18),
];

#[test]
fn a_log_of_two_entries(rt: HostRuntime) {
    log_of(&rt, rt.alloc(), &NARROW, THREE_SETS);
    log_of(&rt, rt.alloc(), &NARROW, TRIAL_SECOND);
}

/// A leaf of texts below the root, which may refer to another one.
fn leaf(rt: &impl Abort, alloc: Global, name: &str, reference: Option<Texts>) -> Node {
    Node {
        names: texts_of(rt, alloc, name),
        sort: Sort::Leaf,
        shape: Some(Shape::Text),
        keys: Seq::empty(alloc),
        module_name: text_of(rt, alloc, "m"),
        is_mandatory: false,
        reference,
        maximum: None,
    }
}

/// The leaf `a`, and the leaf `b` that refers to it.
fn referring_leaves(rt: &impl Abort, alloc: Global) -> Seq<Node> {
    let mut schema = Seq::empty(alloc);
    schema.push(leaf(rt, alloc, "a", None)).expect(rt, "memory");
    schema
        .push(leaf(rt, alloc, "b", Some(texts_of(rt, alloc, "a"))))
        .expect(rt, "memory");
    schema
}

const REFERRING: Pairs = &[("a", "x"), ("b", "x")];

const REFERRING_ELSEWHERE: Pairs = &[("a", "x"), ("b", "y")];

/// Whether these rows are valid where the second refers to the first.
fn is_referring(rt: &impl Abort, alloc: Global, pairs: &[(&str, &str)]) -> bool {
    let schema = referring_leaves(rt, alloc);
    let rows = rows_of(rt, alloc, pairs);
    is_valid(alloc, schema.items(), rows.items()).expect(rt, "memory")
}

#[test]
fn a_reference_has_a_target(rt: HostRuntime) {
    assert!(rt; is_referring(&rt, rt.alloc(), REFERRING));
    assert!(rt; !is_referring(&rt, rt.alloc(), REFERRING_ELSEWHERE));
}

/// Digits, how many of them stand behind the point, and the text of the decimal.
const DECIMALS: &[(i64, u8, &str)] = &[
    (15, 1, "1.5"),
    (-5, 2, "-0.05"),
    (200, 2, "2.0"),
    (-9_223_372_036_854_775_808, 18, "-9.223372036854775808"),
];

fn has_key_text(rt: &impl Abort, alloc: Global, value: &Value, text: &str) -> bool {
    let octets = key_text(alloc, value).expect(rt, "memory");
    octets.items() == text.as_bytes()
}

/// Whether these digits are a decimal of so many places, with this text.
fn is_decimal(rt: &impl Abort, alloc: Global, digits: i64, places: u8, text: &str) -> bool {
    let value = Value::Dec(digits, places);
    has_shape(&Shape::Dec(places), &value) && has_key_text(rt, alloc, &value, text)
}

/// Whether the octets have this text.
fn is_base64(rt: &impl Abort, alloc: Global, octets: &[u8], text: &str) -> bool {
    let value = Value::Bin(Bytes::of(alloc, octets).expect(rt, "memory"));
    has_key_text(rt, alloc, &value, text)
}

#[test]
fn texts_of_keys(rt: HostRuntime) {
    let alloc = rt.alloc();
    for (digits, places, text) in DECIMALS {
        assert!(rt; is_decimal(&rt, alloc, *digits, *places, text));
    }
    assert!(rt; is_base64(&rt, alloc, b"fooba", "Zm9vYmE="));
}
