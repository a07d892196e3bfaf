// Plans: which lists are refused, and the groups of those that aren't.
use crate::plain_lists::{Sub, accepted, ask_of, plain_text};
use base_kinds::{ListMode, Refusal, SubMode};
use gnmi_kinds::{Encoding, SubAsk};
use std::alloc::Global;
use std::process::Abort;
use sub_plan::{Group, GroupSort, Plan, patterns, plan_of};

const CHANGE: SubMode = SubMode::Change;

const SAMPLE: SubMode = SubMode::Sample;

/// Lists that are refused: what is wrong, the mode, the subscriptions, and the refusal.
const REFUSED: &[(&str, ListMode, &[Sub], Refusal)] = &[
    (
        "no subscription",
        ListMode::Stream,
        &[],
        Refusal::BadSubscribe,
    ),
    (
        "no mode of a list",
        ListMode::Other,
        &[("/a", CHANGE, 0, 0, false)],
        Refusal::BadSubscribe,
    ),
    (
        "no mode of a subscription",
        ListMode::Once,
        &[("/a", SubMode::Other, 0, 0, false)],
        Refusal::BadSubscribe,
    ),
    (
        "an interval that is too short",
        ListMode::Stream,
        &[("/a", SAMPLE, 99_999_999, 0, false)],
        Refusal::BadSubscribe,
    ),
    (
        "an interval that isn't used",
        ListMode::Poll,
        &[("/a", CHANGE, 1, 0, false)],
        Refusal::BadSubscribe,
    ),
    (
        "a heartbeat that is too short",
        ListMode::Stream,
        &[("/a", CHANGE, 0, 99_999_999, false)],
        Refusal::BadSubscribe,
    ),
    (
        "33 elements with the prefix",
        ListMode::Stream,
        &[(
            "/2/3/4/5/6/7/8/9/10/11/12/13/14/15/16/17/18/19/20/21/22/23/24/25/26/27/28/29/30/31/32/33",
            CHANGE,
            0,
            0,
            false,
        )],
        Refusal::BadPath,
    ),
];

/// How many groups the plan of a list has.
fn group_count(alloc: Global, ask: &SubAsk) -> Result<usize, Refusal> {
    match plan_of(alloc, ask) {
        Ok(plan) => Ok(plan.groups.len()),
        Err(refusal) => Err(refusal),
    }
}

fn answer(
    rt: &impl Abort,
    alloc: Global,
    mode: ListMode,
    subs: &'static [Sub],
) -> Result<usize, Refusal> {
    let ask = ask_of(rt, alloc, "/1", mode, subs);
    group_count(alloc, &ask)
}

#[test]
fn lists_that_are_none_are_refused(rt: HostRuntime) {
    let alloc = rt.alloc();
    for (what, mode, subs, refusal) in REFUSED {
        let found = answer(&rt, alloc, *mode, *subs);
        assert_eq!(rt; found, Err(*refusal), "{what}");
    }
}

/// Two lines that send changes, and two that are sampled.
const FOUR: &[Sub] = &[
    ("/a", CHANGE, 0, 300_000_000, false),
    ("/", SAMPLE, 0, 0, true),
    ("/b", CHANGE, 0, 200_000_000, false),
    ("/c", SAMPLE, 1_000_000_000, 0, false),
];

/// The group of the lines that send changes.
const CHANGES: Group = Group {
    sort: GroupSort::Change,
    interval: 0,
    suppress: false,
    heartbeat: 200_000_000,
};

/// That of the first line that is sampled.
const SAMPLES: Group = Group {
    sort: GroupSort::Sample,
    interval: 100_000_000,
    suppress: true,
    heartbeat: 0,
};

/// How many patterns a plan has.
fn pattern_count(rt: &impl Abort, alloc: Global, plan: &Plan) -> usize {
    patterns(alloc, plan).expect(rt, "memory").len()
}

/// Whether a plan has three groups, those of changes and of samples first, and four lines and patterns.
fn has_groups(rt: &impl Abort, alloc: Global, plan: &Plan) -> bool {
    plan.groups.len() == 3
        && plan.groups.get(0).copied() == Some(CHANGES)
        && plan.groups.get(1).copied() == Some(SAMPLES)
        && plan.lines.len() == 4
        && pattern_count(rt, alloc, plan) == 4
}

/// Whether the plan of the four lines has.
fn is_grouped(rt: &impl Abort, alloc: Global) -> bool {
    let ask = ask_of(rt, alloc, "/1", ListMode::Stream, FOUR);
    let plan = accepted(rt, alloc, &ask);
    has_groups(rt, alloc, &plan)
}

#[test]
fn changes_are_one_group_and_each_sample_is_another(rt: HostRuntime) {
    assert!(rt; is_grouped(&rt, rt.alloc()));
}

/// Whether a list of no mode, with this origin and this encoding, is refused so.
fn is_refused(
    rt: &impl Abort,
    alloc: Global,
    origin: &[u8],
    encoding: Encoding,
    refusal: Refusal,
) -> bool {
    let mut ask = ask_of(rt, alloc, "/", ListMode::Other, &[]);
    ask.prefix.origin = plain_text(rt, alloc, origin);
    ask.encoding = encoding;
    group_count(alloc, &ask) == Err(refusal)
}

#[test]
fn what_is_not_supported_is_refused_first(rt: HostRuntime) {
    let alloc = rt.alloc();
    assert!(rt;
        is_refused(&rt, alloc, b"ietf", Encoding::Proto, Refusal::Unsupported)
            && is_refused(&rt, alloc, b"", Encoding::Proto, Refusal::BadSubscribe)
            && is_refused(&rt, alloc, b"", Encoding::Other, Refusal::Unsupported)
    );
}
