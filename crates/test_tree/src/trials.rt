ghost use Rattle.commit_core.specs.CoreView.{IsReplayable};

use crate::builders::{path_of, schema_of};
use crate::limits::{Asked, Changed, NOTHING, ask_of, marks_of, pass, step};
use base_kinds::{Entries, Limits, Paths, Refusal, Seq, View};
use commit_core::Core;
use plain_tree::PlainTree;
use std::alloc::Global;
use std::process::Abort;

const LIMITS: Limits = Limits {
    entries: 65_536,
    octets: 268_435_456,
};

/// Two texts, and a number in a container of its own.
const SCHEMA: &str = "\
module m\n\
container /system\n\
container /system/config\n\
leaf /system/config/hostname string\n\
leaf /system/config/motd string\n\
container /lab\n\
leaf /lab/big uint64\n\
";

fn new_core(rt: &impl Abort, alloc: Global, limits: Limits) -> Core<PlainTree> {
    let schema = schema_of(rt, alloc, SCHEMA);
    Core::make(alloc, schema, PlainTree::empty(alloc), limits)
}

/// A request of author 1 at a reading, and its answer.
#[derive(Clone, Copy)]
struct Line {
    now: u64,
    changed: Changed,
    asked: Asked,
    answer: Result<u64, Refusal>,
}

fn answer(
    rt: &impl Abort,
    alloc: Global,
    core: &mut Core<PlainTree>,
    line: Line,
) -> Result<u64, Refusal> {
    let ask = ask_of(rt, alloc, core.schema(), line.changed, line.asked)?;
    step(rt, alloc, core, line.now, 1, ask)
}

fn walk(rt: &impl Abort, alloc: Global, core: &mut Core<PlainTree>, lines: &[Line]) {
    for (at, line) in lines.iter().enumerate() {
        let found = answer(rt, alloc, core, *line);
        assert!(rt; found == line.answer, "line {at}");
    }
}

const HOSTNAME: Changed = Changed {
    deletes: &[],
    updates: &[("/system/config/hostname", "\"r1\"")],
};

const BEGUN: Line = Line {
    now: 1000,
    changed: HOSTNAME,
    asked: Asked::Trial("t", 60),
    answer: Ok(1000),
};

/// A trial of 60 seconds, confirmed just before its deadline, and at it.
const DEADLINES: &[(&[Line], (u64, u32, u64), usize)] = &[
    (
        &[
            BEGUN,
            Line {
                now: 60_000_000_999,
                changed: NOTHING,
                asked: Asked::Confirm("t"),
                answer: Ok(60_000_000_999),
            },
        ],
        (2, 1, 60_000_000_999),
        1,
    ),
    (
        &[
            BEGUN,
            Line {
                now: 60_000_001_000,
                changed: NOTHING,
                asked: Asked::Confirm("t"),
                answer: Err(Refusal::NoTrial),
            },
        ],
        (2, 0, 60_000_001_000),
        0,
    ),
];

fn rows_of(rt: &impl Abort, alloc: Global, core: &Core<PlainTree>) -> View {
    let mut patterns = Paths::empty(alloc);
    patterns.push(path_of(rt, alloc, "/")).expect(rt, "memory");
    core.look(alloc, &patterns).expect(rt, "memory")
}

fn row_count(rt: &impl Abort, alloc: Global, core: &Core<PlainTree>) -> usize {
    let view = rows_of(rt, alloc, core);
    let count = view.rows.len();
    drop(view);
    count
}

/// No trial is open behind this last entry, and there are so many rows.
fn assert_closed(
    rt: &impl Abort,
    alloc: Global,
    core: &Core<PlainTree>,
    last: (u64, u32, u64),
    rows: usize,
) {
    assert!(rt;
        core.entries().last().map(marks_of) == Some(last),
        "{last:?}"
    );
    assert!(rt;
        row_count(rt, alloc, core) == rows,
        "{rows} rows behind {last:?}"
    );
    assert!(rt; !core.is_trial_open(), "{last:?}");
}

/// Behind these lines no trial is open, this entry is the last, and there are so many rows.
fn assert_closed_behind(
    rt: &impl Abort,
    alloc: Global,
    core: &mut Core<PlainTree>,
    lines: &[Line],
    last: (u64, u32, u64),
    rows: usize,
) {
    walk(rt, alloc, core, lines);
    assert_closed(rt, alloc, core, last, rows);
}

#[test]
fn a_trial_ends_at_its_deadline(rt: HostRuntime) {
    let alloc = rt.alloc();
    for (lines, last, rows) in DEADLINES {
        let mut core = new_core(&rt, alloc, LIMITS);
        assert_closed_behind(&rt, alloc, &mut core, lines, *last, *rows);
        drop(core);
    }
}

/// A Set of three leaves.
const SET: &[Line] = &[Line {
    now: 1000,
    changed: Changed {
        deletes: &[],
        updates: &[
            ("/system/config", "{\"hostname\":\"a\",\"motd\":\"m\"}"),
            ("/lab/big", "\"5\""),
        ],
    },
    asked: Asked::Set,
    answer: Ok(1000),
}];

/// A trial over that Set, with other values and a delete.
const TRIED: &[Line] = &[Line {
    now: 1000,
    changed: Changed {
        deletes: &["/lab"],
        updates: &[("/system/config", "{\"hostname\":\"b\",\"motd\":\"n\"}")],
    },
    asked: Asked::Trial("t", 60),
    answer: Ok(1001),
}];

/// The cancel of the trial.
const CANCELLED: &[Line] = &[Line {
    now: 1000,
    changed: NOTHING,
    asked: Asked::Cancel("t"),
    answer: Ok(1002),
}];

const CANCELLED_AGAIN: &[Line] = &[Line {
    now: 1000,
    changed: NOTHING,
    asked: Asked::Cancel("t"),
    answer: Err(Refusal::NoTrial),
}];

/// The rows are the three of this view again, behind an entry with this stamp.
fn assert_back(rt: &impl Abort, before: &View, after: &View, stamp: u64) {
    assert!(rt; after.stamp == stamp);
    assert!(rt; before.rows.len() == 3);
    assert!(rt; after.rows == before.rows);
}

/// The trial leaves two rows, and its cancel those of before.
fn assert_cancelled(rt: &impl Abort, alloc: Global, core: &mut Core<PlainTree>, before: &View) {
    walk(rt, alloc, core, TRIED);
    assert!(rt; row_count(rt, alloc, core) == 2);
    walk(rt, alloc, core, CANCELLED);
    let after = rows_of(rt, alloc, core);
    assert_back(rt, before, &after, 1002);
    drop(after);
}

/// A trial over a Set is cancelled once.
fn assert_cancelled_once(rt: &impl Abort, alloc: Global, core: &mut Core<PlainTree>) {
    walk(rt, alloc, core, SET);
    let before = rows_of(rt, alloc, core);
    assert_cancelled(rt, alloc, core, &before);
    drop(before);
    walk(rt, alloc, core, CANCELLED_AGAIN);
}

#[test]
fn a_cancel_brings_the_tree_back(rt: HostRuntime) {
    let alloc = rt.alloc();
    let mut core = new_core(&rt, alloc, LIMITS);
    assert_cancelled_once(&rt, alloc, &mut core);
    drop(core);
}

/// What is refused while a trial is open, and before.
const REFUSED: &[Line] = &[
    Line {
        now: 1,
        changed: NOTHING,
        asked: Asked::Confirm("t"),
        answer: Err(Refusal::NoTrial),
    },
    Line {
        now: 1,
        changed: NOTHING,
        asked: Asked::Trial("t", 60),
        answer: Ok(1),
    },
    Line {
        now: 1,
        changed: NOTHING,
        asked: Asked::Set,
        answer: Err(Refusal::TrialOpen),
    },
    Line {
        now: 1,
        changed: NOTHING,
        asked: Asked::Trial("t", 60),
        answer: Err(Refusal::TrialOpen),
    },
    Line {
        now: 1,
        changed: NOTHING,
        asked: Asked::Confirm("u"),
        answer: Err(Refusal::WrongId),
    },
    Line {
        now: 1,
        changed: NOTHING,
        asked: Asked::Extend("t", 0),
        answer: Err(Refusal::BadDuration),
    },
    Line {
        now: 1,
        changed: NOTHING,
        asked: Asked::Extend("t", 86_401),
        answer: Err(Refusal::BadDuration),
    },
    Line {
        now: 1,
        changed: NOTHING,
        asked: Asked::Trial("t", 86_400),
        answer: Err(Refusal::TrialOpen),
    },
    Line {
        now: 1,
        changed: HOSTNAME,
        asked: Asked::Confirm("t"),
        answer: Err(Refusal::MixedAction),
    },
    Line {
        now: 1,
        changed: NOTHING,
        asked: Asked::Confirm("ttttttttttttttttttttttttttttttttttttttttttttttttttttttttttttttttt"),
        answer: Err(Refusal::BadId),
    },
];

/// Behind these lines there are so many entries.
fn assert_walked(
    rt: &impl Abort,
    alloc: Global,
    core: &mut Core<PlainTree>,
    lines: &[Line],
    count: usize,
) {
    walk(rt, alloc, core, lines);
    assert!(rt; core.entries().len() == count);
}

#[test]
fn trials_are_refused_for_their_causes(rt: HostRuntime) {
    let alloc = rt.alloc();
    let mut core = new_core(&rt, alloc, LIMITS);
    assert_walked(&rt, alloc, &mut core, REFUSED, 1);
    drop(core);
}

/// The clock goes back, and an extend counts from its own stamp.
const EXTENDED: &[Line] = &[
    Line {
        now: 5000,
        changed: NOTHING,
        asked: Asked::Trial("t", 1),
        answer: Ok(5000),
    },
    Line {
        now: 10,
        changed: NOTHING,
        asked: Asked::Extend("t", 2),
        answer: Ok(5001),
    },
    Line {
        now: 2_000_005_000,
        changed: NOTHING,
        asked: Asked::Extend("t", 1),
        answer: Ok(2_000_005_000),
    },
    Line {
        now: 3_000_005_000,
        changed: NOTHING,
        asked: Asked::Cancel("t"),
        answer: Err(Refusal::NoTrial),
    },
];

#[test]
fn an_extend_counts_from_its_own_stamp(rt: HostRuntime) {
    let alloc = rt.alloc();
    let mut core = new_core(&rt, alloc, LIMITS);
    assert_walked(&rt, alloc, &mut core, EXTENDED, 4);
    drop(core);
}

/// The entries of a trial that has begun.
fn begun(rt: &impl Abort, alloc: Global) -> Entries
    ensures { IsReplayable result }
{
    let mut core = new_core(rt, alloc, LIMITS);
    walk(rt, alloc, &mut core, &[BEGUN]);
    core.into_entries()
}

/// The restart of an open trial is its second entry, and leaves no row.
fn assert_restarted(rt: &impl Abort, alloc: Global, core: &mut Core<PlainTree>) {
    assert!(rt; core.is_trial_open());
    assert!(rt; row_count(rt, alloc, core) == 1);
    core.take(core.restart(1000));
    assert!(rt; core.entries().last().map(marks_of) == Some((2, 0, 1001)));
    assert!(rt; row_count(rt, alloc, core) == 0);
    pass(core, u64::MAX);
    assert!(rt; core.entries().len() == 2);
}

/// A core without entries has replayed these, and is restarted.
fn assert_replayed(rt: &impl Abort, alloc: Global, core: &mut Core<PlainTree>, entries: Entries)
    requires { IsReplayable entries }
{
    assert!(rt; core.entries().is_empty());
    core.replay(alloc, entries).expect(rt, "memory");
    assert_restarted(rt, alloc, core);
}

#[test]
fn a_restart_ends_a_trial_that_was_replayed(rt: HostRuntime) {
    let alloc = rt.alloc();
    let entries = begun(&rt, alloc);
    let mut core = new_core(&rt, alloc, LIMITS);
    assert_replayed(&rt, alloc, &mut core, entries);
    drop(core);
}
