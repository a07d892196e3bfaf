//! What a request does beside its operations: durations and ids of trials, and the first cause of a refusal.
use crate::asked::{Sent, answer, assert_answer, is_answered, put, put_number, refused, request};
use crate::builders::{octets_of, text_of};
use base_kinds::{Action, Bytes, Refusal, Span, Text, UnresolvedSet};
use std::alloc::Global;
use std::process::Abort;

fn action_of(word: &str, id: Text, span: Span) -> Action {
    match word {
        "trial" => Action::Trial(id, span),
        "confirm" => Action::Confirm(id),
        "cancel" => Action::Cancel(id),
        "extend" => Action::Extend(id, span),
        "mixed" => Action::Mixed,
        _ => Action::Plain,
    }
}

/// A request with these operations and this action.
fn acting(
    rt: &impl Abort,
    alloc: Global,
    lines: &[(&str, &str, Sent)],
    action: Action,
) -> UnresolvedSet {
    request(rt, alloc, "/", lines, action)
}

/// Spans, and their nanoseconds, which are 0 where they are refused.
const SPANS: &[(Span, u64)] = &[
    (Span::Absent, 600_000_000_000),
    (Span::Of(1, 0), 1_000_000_000),
    (Span::Of(0, 999_999_999), 0),
    (Span::Of(0, 1_000_000_000), 0),
    (Span::Of(1, -1), 0),
    (Span::Of(2, -1), 0),
    (Span::Of(1, 999_999_999), 1_999_999_999),
    (Span::Of(1, 1_000_000_000), 0),
    (Span::Of(86_399, 999_999_999), 86_399_999_999_999),
    (Span::Of(86_400, 0), 86_400_000_000_000),
    (Span::Of(86_400, 1), 0),
    (Span::Of(86_401, 0), 0),
    (Span::Of(-1, 0), 0),
    (Span::Of(i64::MAX, i64::MAX), 0),
    (Span::Of(i64::MIN, i64::MIN), 0),
    (Span::Of(18_446_744_074, 0), 0),
];

fn duration_text(rt: &impl Abort, alloc: Global, word: &str, nanos: u64) -> Bytes {
    if nanos == 0 {
        return refused(rt, alloc, Refusal::BadDuration);
    }
    let mut text = octets_of(rt, alloc, word.as_bytes());
    put(rt, &mut text, " t");
    put_number(rt, alloc, nanos, &mut text);
    text
}

/// Whether the span of an action without operations is so many nanoseconds, or refused where they are 0.
fn lasts(rt: &impl Abort, alloc: Global, word: &str, span: Span, nanos: u64) -> bool {
    let action = action_of(word, text_of(rt, alloc, "t"), span);
    let ask = acting(rt, alloc, &[], action);
    answer(rt, alloc, ask) == duration_text(rt, alloc, word, nanos)
}

#[test]
fn durations_have_bounds(rt: HostRuntime) {
    let alloc = rt.alloc();
    for (span, nanos) in SPANS {
        let is_trial = lasts(&rt, alloc, "trial", *span, *nanos);
        let is_extend = lasts(&rt, alloc, "extend", *span, *nanos);
        assert!(rt; is_trial && is_extend, "{span:?}");
    }
}

/// A text of so many octets.
fn long_text(rt: &impl Abort, alloc: Global, length: usize) -> Text {
    let mut octets = Bytes::empty(alloc);
    for _ in 0..length {
        octets.extend_from_slice(b"i").expect(rt, "memory");
    }
    Text::of(alloc, octets.items()).expect(rt, "a text")
}

/// Whether the action with an id of so many octets is refused for that.
fn id_is_refused(rt: &impl Abort, alloc: Global, word: &str, length: usize) -> bool {
    let id = long_text(rt, alloc, length);
    let ask = acting(rt, alloc, &[], action_of(word, id, Span::Absent));
    is_answered(rt, alloc, ask, "refused 15")
}

/// Lengths of ids, and whether they are taken.
const IDS: &[(usize, bool)] = &[(0, false), (1, true), (64, true), (65, false)];

/// Actions with an id.
const NAMED: &[&str] = &["trial", "confirm", "cancel", "extend"];

#[test]
fn ids_have_1_to_64_octets(rt: HostRuntime) {
    for (length, is_taken) in IDS {
        for word in NAMED {
            let is_refused = id_is_refused(&rt, rt.alloc(), word, *length);
            assert!(rt; is_refused != *is_taken, "{word} of {length}");
        }
    }
}

/// Whether something isn't supported, the action, its id, its span, the path of an update, and what becomes of the request.
const CAUSES: &[(bool, &str, &str, Span, &str, &str)] = &[
    (true, "extend", "", Span::Of(0, 0), "/none", "refused 9"),
    (false, "extend", "", Span::Of(0, 0), "/none", "refused 14"),
    (false, "trial", "", Span::Of(0, 0), "/none", "refused 15"),
    (false, "trial", "t", Span::Of(0, 0), "/none", "refused 13"),
    (false, "trial", "t", Span::Absent, "/none", "refused 6"),
    (
        false,
        "trial",
        "t",
        Span::Of(2, 1),
        "/lab/on",
        "trial t 2000000001; update /lab/on: /lab/on=true",
    ),
];

/// The request with an update of this path and this action.
fn updating(rt: &impl Abort, alloc: Global, path: &str, action: Action) -> UnresolvedSet {
    acting(rt, alloc, &[("update", path, Sent::Bool(true))], action)
}

/// The request, in which something isn't supported where it says so.
fn with_unsupported(ask: UnresolvedSet, unsupported: bool) -> UnresolvedSet {
    let mut ask = ask;
    ask.unsupported = unsupported;
    ask
}

#[test]
fn the_first_cause_of_a_request_decides(rt: HostRuntime) {
    let alloc = rt.alloc();
    for (unsupported, word, id, span, path, expected) in CAUSES {
        let action = action_of(word, text_of(&rt, alloc, id), *span);
        let ask = with_unsupported(updating(&rt, alloc, path, action), *unsupported);
        assert_answer(&rt, alloc, ask, expected);
    }
}

/// Actions, and how what becomes of them beside an operation begins.
const ACTIONS: &[(&str, &str)] = &[
    ("plain", "apply; "),
    ("trial", "trial t 600000000000; "),
    ("confirm", "refused 14"),
    ("cancel", "refused 14"),
    ("extend", "refused 14"),
    ("mixed", "refused 14"),
];

/// Whether what becomes of the action with this operation begins so.
fn begins(rt: &impl Abort, alloc: Global, word: &str, act: &str, expected: &str) -> bool {
    let action = action_of(word, text_of(rt, alloc, "t"), Span::Absent);
    let ask = acting(rt, alloc, &[(act, "/lab/on", Sent::Bool(true))], action);
    answer(rt, alloc, ask)
        .items()
        .starts_with(expected.as_bytes())
}

const ACTS: &[&str] = &["delete", "replace", "update"];

#[test]
fn an_action_without_operations_is_mixed_with_any(rt: HostRuntime) {
    for (word, expected) in ACTIONS {
        for act in ACTS {
            assert!(rt;
                begins(&rt, rt.alloc(), word, act, expected),
                "{word} with {act}"
            );
        }
    }
}
