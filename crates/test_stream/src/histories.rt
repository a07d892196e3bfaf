// Streams over generated histories and plans, beside the slow body.
use crate::plain_lists::{Sub, accepted, ask_of_lines, line_of, push_line, push_row, row_of};
use crate::reference::{
    ALL, CHANGES, PATHS, QUIET, Reference, SlowGroup, State, beat_at, beats, move_on,
};
use crate::streams::{assert_said, begun, put, put_number, said};
use base_kinds::{Bytes, ListMode, Rows, SubLines, SubMode, View};
use std::alloc::Global;
use std::process::Abort;
use stream_core::Stream;
use sub_plan::Plan;

/// Numbers that look drawn by chance, and are the same in each run (Knuth's constants for MMIX).
#[derive(Clone, Copy)]
struct Draws {
    state: u64,
}

fn draw(draws: &mut Draws, bound: u32) -> u32 {
    draws.state = draws
        .state
        .wrapping_mul(6_364_136_223_846_793_005)
        .wrapping_add(1_442_695_040_888_963_407);
    let drawn = (draws.state >> 32) as u32;
    drawn.checked_rem(bound).unwrap_or(0)
}

fn pattern(number: u32) -> &'static str {
    match number {
        0 => "/",
        1 => "/a",
        2 => "/b",
        _ => "/a/p0",
    }
}

fn covers(number: u32, path: usize) -> bool {
    match number {
        0 => true,
        1 => path < 4,
        2 => path >= 4,
        _ => path == 0,
    }
}

fn period(number: u32) -> u64 {
    match number {
        0 => 0,
        1 => 100_000_000,
        2 => 250_000_000,
        _ => 600_000_000,
    }
}

/// A subscription that is drawn: which pattern it has, and the rest.
#[derive(Clone, Copy)]
struct DrawnLine {
    pattern: u32,
    is_sample: bool,
    interval: u64,
    heartbeat: u64,
    suppress: bool,
}

fn drawn(draws: &mut Draws) -> DrawnLine {
    DrawnLine {
        pattern: draw(draws, 4),
        is_sample: draw(draws, 2) == 0,
        interval: period(draw(draws, 4)),
        heartbeat: period(draw(draws, 4)),
        suppress: draw(draws, 2) == 0,
    }
}

fn sub_of(drawn: DrawnLine) -> Sub {
    let mode = if drawn.is_sample {
        SubMode::Sample
    } else {
        SubMode::Change
    };
    (
        pattern(drawn.pattern),
        mode,
        drawn.interval,
        drawn.heartbeat,
        drawn.suppress,
    )
}

const NO_GROUP: SlowGroup = SlowGroup {
    change: true,
    interval: 0,
    suppress: false,
    heartbeat: 0,
    last: 0,
    full: 0,
};

fn sample_group(drawn: DrawnLine) -> SlowGroup {
    SlowGroup {
        change: false,
        interval: if drawn.interval == 0 {
            100_000_000
        } else {
            drawn.interval
        },
        suppress: drawn.suppress,
        heartbeat: drawn.heartbeat,
        last: 0,
        full: 0,
    }
}

/// The paths that have no group yet and are covered belong to this one.
fn own(reference: &mut Reference, pattern: u32, group: u8) {
    for path in 0..8usize {
        if reference.owners[path] == 255 && covers(pattern, path) {
            reference.owners[path] = group;
        }
    }
}

fn add(reference: &mut Reference, place: usize, drawn: DrawnLine) {
    if !drawn.is_sample {
        own(reference, drawn.pattern, 0);
        let least = reference.groups[0].heartbeat;
        if drawn.heartbeat != 0 && (least == 0 || drawn.heartbeat < least) {
            reference.groups[0].heartbeat = drawn.heartbeat;
        }
    } else if place < 3 {
        own(reference, drawn.pattern, place as u8 + 1);
        reference.groups[place + 1] = sample_group(drawn);
    }
}

/// Three lines that are drawn, which the slow body has then too.
fn lines(rt: &impl Abort, alloc: Global, draws: &mut Draws, reference: &mut Reference) -> SubLines {
    let mut lines = SubLines::empty(alloc);
    for place in 0..3usize {
        let drawn = drawn(draws);
        add(reference, place, drawn);
        push_line(rt, line_of(rt, alloc, sub_of(drawn)), &mut lines);
    }
    lines
}

/// A plan of three lines, and the slow body of a stream of it.
fn plan(rt: &impl Abort, alloc: Global, draws: &mut Draws, only: bool) -> (Plan, Reference) {
    let mut reference = Reference {
        groups: [NO_GROUP; 4],
        owners: [255; 8],
        sent: [0; 8],
        time: 0,
    };
    let lines = lines(rt, alloc, draws, &mut reference);
    let mut ask = ask_of_lines(rt, alloc, "/", ListMode::Stream, lines);
    ask.updates_only = only;
    (accepted(rt, alloc, &ask), reference)
}

fn change(draws: &mut Draws, state: &mut State) {
    for path in 0..8usize {
        if draw(draws, 4) == 0 {
            state[path] = u64::from(draw(draws, 3));
        }
    }
}

/// What the plan shows of the state: rows of paths that have a group.
fn view(rt: &impl Abort, alloc: Global, reference: &Reference, stamp: u64, state: &State) -> View {
    let mut rows = Rows::empty(alloc);
    for path in 0..8usize {
        if reference.owners[path] != 255 && state[path] != 0 {
            push_row(rt, row_of(rt, alloc, PATHS[path], state[path]), &mut rows);
        }
    }
    View { stamp, rows }
}

fn put_row(rt: &impl Abort, alloc: Global, path: usize, number: u64, out: &mut Bytes) {
    if path < 8 {
        put(rt, b" +", out);
        put(rt, PATHS[path].as_bytes(), out);
        put(rt, b"=", out);
        put_number(rt, alloc, number, out);
    }
}

fn put_deletes(
    rt: &impl Abort,
    reference: &Reference,
    beats: &[u8; 4],
    now: &State,
    out: &mut Bytes,
) {
    for path in 0..8usize {
        let beat = beat_at(reference, beats, path);
        if beat != QUIET && reference.sent[path] != 0 && now[path] == 0 {
            put(rt, b" -", out);
            put(rt, PATHS[path].as_bytes(), out);
        }
    }
}

fn put_updates(
    rt: &impl Abort,
    alloc: Global,
    reference: &Reference,
    beats: &[u8; 4],
    now: &State,
    out: &mut Bytes,
) {
    for path in 0..8usize {
        let beat = beat_at(reference, beats, path);
        let is_new = beat == CHANGES && reference.sent[path] != now[path];
        if now[path] != 0 && (beat == ALL || is_new) {
            put_row(rt, alloc, path, now[path], out);
        }
    }
}

fn put_turn(
    rt: &impl Abort,
    alloc: Global,
    reference: &Reference,
    beats: &[u8; 4],
    stamp: u64,
    now: &State,
    out: &mut Bytes,
) {
    if *beats == [QUIET; 4] {
        put(rt, b"quiet", out);
    } else {
        put_number(rt, alloc, stamp, out);
        put_deletes(rt, reference, beats, now, out);
        put_updates(rt, alloc, reference, beats, now, out);
    }
}

fn wanted(
    rt: &impl Abort,
    alloc: Global,
    reference: &Reference,
    beats: &[u8; 4],
    stamp: u64,
    now: &State,
) -> Bytes {
    let mut out = Bytes::empty(alloc);
    put_turn(rt, alloc, reference, beats, stamp, now, &mut out);
    out
}

/// The state as the plan shows it.
fn shown(reference: &Reference, state: &State) -> State {
    let mut shown = *state;
    for path in 0..8usize {
        if reference.owners[path] == 255 {
            shown[path] = 0;
        }
    }
    shown
}

fn start(reference: &mut Reference, now: u64, state: &State) {
    for group in 0..4usize {
        reference.groups[group].last = now;
        reference.groups[group].full = now;
    }
    reference.sent = shown(reference, state);
    reference.time = now;
}

/// One turn of both.
fn turn(
    rt: &impl Abort,
    alloc: Global,
    stream: &mut Stream,
    reference: &mut Reference,
    now: u64,
    stamp: u64,
    state: &State,
) {
    let note = said(
        rt,
        alloc,
        stream,
        now,
        view(rt, alloc, reference, stamp, state),
    );
    let time = now.max(reference.time);
    let shown = shown(reference, state);
    let beats = beats(reference, time, &shown);
    let text = wanted(rt, alloc, reference, &beats, stamp, &shown);
    assert_said(rt, alloc, &note, text.items(), "a turn");
    move_on(reference, time, &beats, &shown);
}

fn put_state(rt: &impl Abort, alloc: Global, reference: &Reference, out: &mut Bytes) {
    put_number(rt, alloc, 0, out);
    for path in 0..8usize {
        if reference.sent[path] != 0 {
            put_row(rt, alloc, path, reference.sent[path], out);
        }
    }
}

fn first_text(rt: &impl Abort, alloc: Global, reference: &Reference, only: bool) -> Bytes {
    let mut out = Bytes::empty(alloc);
    if only {
        put(rt, b"quiet", &mut out);
    } else {
        put_state(rt, alloc, reference, &mut out);
    }
    out
}

fn step(draws: &mut Draws) -> u64 {
    period(draw(draws, 3)) / 2
}

/// The reading at the beginning.
const BEGINNING: u64 = 1_000;

/// A stream of the plan, which says first what the slow body does.
fn begin(
    rt: &impl Abort,
    alloc: Global,
    plan: Plan,
    reference: &Reference,
    state: &State,
    only: bool,
) -> Stream {
    let view = view(rt, alloc, reference, 0, state);
    let (stream, note) = begun(rt, alloc, plan, BEGINNING, view);
    let text = first_text(rt, alloc, reference, only);
    assert_said(rt, alloc, &note, text.items(), "the beginning");
    stream
}

/// Twelve turns of both behind this state.
fn go_on(
    rt: &impl Abort,
    alloc: Global,
    draws: &mut Draws,
    stream: &mut Stream,
    reference: &mut Reference,
    state: State,
) {
    let mut state = state;
    let mut now = BEGINNING;
    for stamp in 1..13u64 {
        if draw(draws, 3) != 0 {
            change(draws, &mut state);
        }
        now = if draw(draws, 8) == 0 {
            now.saturating_sub(1)
        } else {
            now.saturating_add(step(draws))
        };
        turn(rt, alloc, stream, reference, now, stamp, &state);
    }
}

/// One history of twelve turns.
fn history(rt: &impl Abort, alloc: Global, draws: &mut Draws) {
    let only = draw(draws, 4) == 0;
    let (plan, mut reference) = plan(rt, alloc, draws, only);
    let mut state = [0u64; 8];
    change(draws, &mut state);
    start(&mut reference, BEGINNING, &state);
    let mut stream = begin(rt, alloc, plan, &reference, &state, only);
    go_on(rt, alloc, draws, &mut stream, &mut reference, state);
}

#[test]
fn three_hundred_histories_are_told_as_the_definitions_say(rt: HostRuntime) {
    let alloc = rt.alloc();
    let mut draws = Draws { state: 1 };
    for _ in 0..300 {
        history(&rt, alloc, &mut draws);
    }
}
