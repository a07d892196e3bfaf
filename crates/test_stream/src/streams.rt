// Streams: the notifications of turns that are worked out by hand.
use crate::plain_lists::{Sub, accepted, ask_of, rows_of};
use base_kinds::{Bytes, ListMode, Note, SubMode, Value, View};
use path_core::write_path_text;
use std::alloc::Global;
use std::process::Abort;
use stream_core::Stream;
use sub_plan::Plan;
use tree_check::are_rising;

/// A turn: the reading, the stamp of the state, its rows, and the notification that is wanted. Of that the deletes have a `-`
/// and the updates a `+`.
type Step = (u64, u64, &'static [(&'static str, u64)], &'static str);

pub fn put(rt: &impl Abort, octets: &[u8], out: &mut Bytes) {
    out.extend_from_slice(octets).expect(rt, "memory");
}

pub fn put_number(rt: &impl Abort, alloc: Global, number: u64, out: &mut Bytes) {
    let text = format!(in alloc; "{number}").expect(rt, "memory");
    put(rt, text.as_bytes(), out);
}

fn put_value(rt: &impl Abort, alloc: Global, value: &Value, out: &mut Bytes) {
    if let Value::Uint(number) = value {
        put(rt, b"=", out);
        put_number(rt, alloc, *number, out);
    }
}

fn put_note(rt: &impl Abort, alloc: Global, note: &Note, out: &mut Bytes) {
    put_number(rt, alloc, note.stamp, out);
    for path in note.deletes.items() {
        put(rt, b" -", out);
        write_path_text(alloc, path, out).expect(rt, "memory");
    }
    for row in note.updates.items() {
        put(rt, b" +", out);
        write_path_text(alloc, &row.path, out).expect(rt, "memory");
        put_value(rt, alloc, &row.value, out);
    }
}

pub fn text_of(rt: &impl Abort, alloc: Global, note: &Option<Note>) -> Bytes {
    let mut text = Bytes::empty(alloc);
    match note {
        Some(note) => put_note(rt, alloc, note, &mut text),
        None => put(rt, b"quiet", &mut text),
    }
    text
}

fn plan(rt: &impl Abort, alloc: Global, subs: &'static [Sub], updates_only: bool) -> Plan {
    plan_in(rt, alloc, ListMode::Stream, subs, updates_only)
}

fn plan_in(
    rt: &impl Abort,
    alloc: Global,
    mode: ListMode,
    subs: &'static [Sub],
    updates_only: bool,
) -> Plan {
    let mut ask = ask_of(rt, alloc, "/", mode, subs);
    ask.updates_only = updates_only;
    accepted(rt, alloc, &ask)
}

/// A stream of the plan, and what it says first.
pub fn begun(
    rt: &impl Abort,
    alloc: Global,
    plan: Plan,
    now: u64,
    view: View,
) -> (Stream, Option<Note>) {
    let is_rising = are_rising(view.rows.items());
    assert!(rt; is_rising);
    Stream::start(alloc, plan, now, view).expect(rt, "memory")
}

/// What the stream says in a turn.
pub fn said(
    rt: &impl Abort,
    alloc: Global,
    stream: &mut Stream,
    now: u64,
    view: View,
) -> Option<Note> {
    let is_rising = are_rising(view.rows.items());
    assert!(rt; is_rising);
    stream.turn(alloc, now, view).expect(rt, "memory")
}

/// That a notification is this text; where it isn't, this is named.
pub fn assert_said(rt: &impl Abort, alloc: Global, note: &Option<Note>, text: &[u8], what: &str) {
    let found = text_of(rt, alloc, note);
    assert_eq!(rt; found.items(), text, "{what}");
}

fn view_of(rt: &impl Abort, alloc: Global, step: &Step) -> View {
    View {
        stamp: step.1,
        rows: rows_of(rt, alloc, step.2),
    }
}

fn take_step(rt: &impl Abort, alloc: Global, stream: &mut Stream, step: &Step) {
    let note = said(rt, alloc, stream, step.0, view_of(rt, alloc, step));
    assert_said(rt, alloc, &note, step.3.as_bytes(), step.3);
}

fn follow(rt: &impl Abort, alloc: Global, plan: Plan, first: &Step, steps: &'static [Step]) {
    let (mut stream, note) = begun(rt, alloc, plan, first.0, view_of(rt, alloc, first));
    assert_said(rt, alloc, &note, first.3.as_bytes(), first.3);
    for step in steps {
        take_step(rt, alloc, &mut stream, step);
    }
}

/// Changes below one container, and samples of all else once a second.
const TWO: &[Sub] = &[
    ("/system", SubMode::Change, 0, 0, false),
    ("/", SubMode::Sample, 1_000_000_000, 0, false),
];

const FIRST: Step = (
    1_000,
    1_000,
    &[("/if[name=e0]/mtu", 1_500), ("/system/host", 1)],
    "1000 +/if[name=e0]/mtu=1500 +/system/host=1",
);

/// The turns behind the first.
const LATER: &[Step] = &[
    // The sampled row is gone, and nobody is told before the second has passed.
    (2_000, 1_001, &[("/system/host", 2)], "1001 +/system/host=2"),
    (3_000, 1_001, &[("/system/host", 2)], "quiet"),
    (
        1_000_001_000,
        1_003,
        &[("/system/host", 2), ("/system/motd", 3)],
        "1003 -/if[name=e0]/mtu +/system/motd=3",
    ),
    // The clock went back: the stream's time stays.
    (5, 1_004, &[("/system/host", 2)], "1004 -/system/motd"),
];

#[test]
fn changes_come_at_once_and_samples_after_their_interval(rt: HostRuntime) {
    let alloc = rt.alloc();
    follow(&rt, alloc, plan(&rt, alloc, TWO, false), &FIRST, LATER);
}

const ONE_LATER: &[Step] = &[(2_000, 1_001, &[("/system/host", 2)], "1001 +/system/host=2")];

#[test]
fn the_state_at_the_beginning_may_be_left_out(rt: HostRuntime) {
    let alloc = rt.alloc();
    let first = (FIRST.0, FIRST.1, FIRST.2, "quiet");
    follow(&rt, alloc, plan(&rt, alloc, TWO, true), &first, ONE_LATER);
}

/// Samples that have changes alone, and all rows after half a second.
const SUPPRESSED: &[Sub] = &[("/system", SubMode::Sample, 100_000_000, 500_000_000, true)];

const BEFORE_HEARTBEATS: Step = (1_000, 1_000, &[("/system/host", 1)], "1000 +/system/host=1");

const HEARTBEATS: &[Step] = &[
    (100_001_000, 1_000, &[("/system/host", 1)], "quiet"),
    (499_999_999, 1_000, &[("/system/host", 1)], "quiet"),
    (
        500_001_000,
        1_000,
        &[("/system/host", 1)],
        "1000 +/system/host=1",
    ),
    (
        600_001_000,
        1_002,
        &[("/system/host", 7)],
        "1002 +/system/host=7",
    ),
];

#[test]
fn samples_without_a_change_wait_for_the_heartbeat(rt: HostRuntime) {
    let alloc = rt.alloc();
    let plan = plan(&rt, alloc, SUPPRESSED, false);
    follow(&rt, alloc, plan, &BEFORE_HEARTBEATS, HEARTBEATS);
}

/// Rows that are deleted and changed between two turns. The name "e0" is the number 100, and the texts are their letters'
/// places in the alphabet.
const WORKED: Step = (
    1_000,
    1_000,
    &[
        ("/interfaces/interface[name=e0]/config/mtu", 1_500),
        ("/interfaces/interface[name=e0]/name", 100),
        ("/system/config/hostname", 1),
    ],
    "1000 +/interfaces/interface[name=e0]/config/mtu=1500 +/interfaces/interface[name=e0]/name=100 +/system/config/hostname=1",
);

const WORKED_LATER: &[Step] = &[
    (
        1_000_001_000,
        1_003,
        &[("/system/config/hostname", 2), ("/system/config/motd", 13)],
        "1003 -/interfaces/interface[name=e0]/config/mtu -/interfaces/interface[name=e0]/name +/system/config/hostname=2 +/system/config/motd=13",
    ),
    // A trial began and ended again.
    (
        1_000_001_000,
        1_000_001_001,
        &[("/system/config/hostname", 2), ("/system/config/motd", 13)],
        "quiet",
    ),
];

#[test]
fn what_was_deleted_and_changed_comes_in_one_notification(rt: HostRuntime) {
    let alloc = rt.alloc();
    let told = plan(&rt, alloc, TWO, false);
    follow(&rt, alloc, told, &WORKED, WORKED_LATER);
    let first = (WORKED.0, WORKED.1, WORKED.2, "quiet");
    let silent = plan(&rt, alloc, TWO, true);
    follow(&rt, alloc, silent, &first, WORKED_LATER);
}

const CHANGES: &[Sub] = &[("/system", SubMode::Change, 0, 0, false)];

const POLLED: Step = (
    1_000,
    1_000,
    &[("/system/config/hostname", 1)],
    "1000 +/system/config/hostname=1",
);

#[test]
fn each_poll_begins_anew(rt: HostRuntime) {
    let alloc = rt.alloc();
    for _ in 0..2 {
        let plan = plan_in(&rt, alloc, ListMode::Poll, CHANGES, false);
        follow(&rt, alloc, plan, &POLLED, &[]);
    }
}
