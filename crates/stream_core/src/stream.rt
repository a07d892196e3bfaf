ghost use Rattle.std.specs.Prelude.{◌≡◌, true, length, max, filter, map, not, ◌&&◌, IfOk, OnOk, OnErr, IsErr};
ghost use Rattle.std.specs.List.{list_any};
ghost use Rattle.base_kinds.specs.Step.{clamped_reading};
ghost use Rattle.base_kinds.specs.Tree.{set_rows};
ghost use Rattle.sub_plan.specs.Groups.{group_of};
ghost use Rattle.stream_laws.specs.Differences.{is_gone};
ghost use Rattle.base_kinds.specs.Rising.{IsRising};
ghost use Rattle.stream_core.specs.inner.Due.{input_of, deleted_paths, sent_rows, rows_after};
ghost use Rattle.stream_laws.specs.Beats.{is_due, beat_numbered, some_due, beats_from};
ghost use Rattle.stream_laws.specs.Notes.{note_of, is_sent};
ghost use Rattle.stream_laws.specs.Streams.{stream_from, turn_input_of, stream_after, begins_with};
ghost use Rattle.stream_core.specs.inner.Kept.{moved_all};

use crate::beats::find_beats;
use crate::notes::{deletes_of, is_due, sent_after, updates_of};
use crate::states::{move_on, no_findings, quiet_beats, started_all};
use crate::walk::Found;
use base_kinds::{Copied, LATEST_READING, NoMemory, Note, Row, Seq, View};
use std::alloc::Global;
use std::marker::Model;
use stream_laws::{Beat, GroupState, Mark};
use sub_plan::{Line, Lines, Plan};

/// One stream: what its subscriber has, and when its groups sent last.
#[derive(Drop)]
pub struct Stream {
    lines: Lines,
    states: Vec<GroupState>,
    /// Room for what a turn finds of each group.
    found: Vec<Found>,
    /// Room for the beats of a turn.
    beats: Vec<Beat>,
    sent: Vec<Row>,
    time: u64,
    /// The stamp of the state that the last turn was made at.
    since: u64,
    mark: Mark,
}

impl Model for Stream {
    ghost use Rattle.std.specs.Coded.{codes};
    ghost use Rattle.base_kinds.specs.contracts.value.Value as value;
    ghost use Rattle.stream_laws.specs.Streams.{StreamView};
    ghost use Rattle.stream_core.specs.inner.Kept.{IsKept};

    ghost Value = { StreamView };

    ghost coded = { Prim.hlevel (codes, value.the_row.coded) };

    ghost view = { λ stream. record {
      lines = stream.lines;
      sending = record { groups = stream.states.items; sent = stream.sent.items };
      time = stream.time;
      since = stream.since;
      mark = stream.mark;
    } };

    ghost invariant = { λ stream.
        IsKept stream.states.items stream.found.items stream.beats.items stream.sent.items };
}

fn clamped_reading(now: u64) -> u64
    ensures { result ≡ clamped_reading now }
{
    now.min(LATEST_READING)
}

fn later(now: u64, last: u64) -> u64
    ensures { result ≡ max (clamped_reading now) last }
{
    clamped_reading(now).max(last)
}

fn some_due(beats: &[Beat]) -> bool
    ensures { result ≡ list_any is_due beats.now }
{
    beats.iter().any(|beat| is_due(*beat))
}

/// The first Note, unless updates alone are asked for.
fn first_note(alloc: Global, updates_only: bool, view: &View) -> Result<Option<Note>, NoMemory>
    ensures { IfOk result (λ note. note ≡ begins_with updates_only view.now) }
{
    if updates_only {
        return Ok(None);
    }
    Ok(Some(Note {
        stamp: view.stamp,
        deletes: Seq::empty(alloc),
        updates: view.rows.copy(alloc)?,
    }))
}

fn beat_all(
    lines: &[Line],
    states: &[GroupState],
    sent: &[Row],
    rows: &[Row],
    time: u64,
    found: &mut Vec<Found>,
    beats: &mut Vec<Beat>,
)
    requires sent { IsRising sent.now }
    requires rows { IsRising rows.now }
    requires room { length beats.old.items ≡ length states.now }
    requires finding { length found.old.items ≡ length states.now }
    ensures room { length beats.new.items ≡ length states.now }
    ensures finding { length found.new.items ≡ length states.now }
    ensures found { let turn = input_of lines.now states.now sent.now rows.now time in
        beats.new.items ≡ beats_from turn 0 states.now }
{
    find_beats(lines, states, sent, rows, time, found, beats);
}

fn move_all(states: &mut Vec<GroupState>, beats: &[Beat], time: u64)
    requires { length beats.now ≡ length states.old.items }
    ensures room { length states.new.items ≡ length states.old.items }
    ensures moved { states.new.items ≡ moved_all time states.old.items beats.now }
{
    move_on(states, beats, time);
}

/// The Note of a turn with these beats, and what the subscriber has after it.
fn noted(
    alloc: Global,
    lines: &[Line],
    beats: &[Beat],
    sent: &[Row],
    view: &View,
) -> Result<(Note, Vec<Row>), NoMemory>
    requires sent { IsRising sent.now }
    requires rows { IsRising view.now.rows }
    ensures stamp { IfOk result (λ made. made.0.stamp ≡ view.now.stamp) }
    ensures deletes { let rows = view.now.rows in
        IfOk result (λ made. made.0.deletes ≡ deleted_paths lines.now beats.now sent.now rows) }
    ensures updates { let rows = view.now.rows in
        IfOk result (λ made. made.0.updates ≡ sent_rows lines.now beats.now sent.now rows) }
    ensures after { let rows = view.now.rows in
        IfOk result (λ made. made.1.items ≡ rows_after lines.now beats.now sent.now rows) }
{
    let rows = view.rows.items();
    let deletes = deletes_of(alloc, lines, beats, sent, rows)?;
    let updates = updates_of(alloc, lines, beats, sent, rows)?;
    let after = sent_after(alloc, lines, beats, sent, rows)?;
    let note = Note {
        stamp: view.stamp,
        deletes,
        updates,
    };
    Ok((note, after))
}

impl Stream {
    /// Begins a stream with what the plan's lines show at this reading of the clock, and gives its first Note, unless
    /// updates alone are asked for. A sync comes next.
    pub fn start(
        alloc: Global,
        plan: Plan,
        now: u64,
        view: View,
    ) -> Result<(Stream, Option<Note>), NoMemory>
        requires { IsRising view.rows }
        ensures stream { IfOk result (λ begun. begun.0 ≡ stream_from plan now view) }
        ensures note { IfOk result (λ begun. begun.1 ≡ begins_with plan.updates_only view) }
    {
        let time = clamped_reading(now);
        let note = first_note(alloc, plan.updates_only, &view)?;
        let states = started_all(alloc, plan.groups.items(), time)?;
        let found = no_findings(alloc, plan.groups.items())?;
        let beats = quiet_beats(alloc, plan.groups.items())?;
        let stream = Stream {
            lines: plan.lines,
            states,
            found,
            beats,
            sent: view.rows.into_vec(),
            time,
            since: view.stamp,
            mark: Mark {
                stamp: view.stamp,
                sync: true,
            },
        };
        Ok((stream, note))
    }

    /// A turn with what the plan's lines show now: a Note where some group is due. Where none is, it takes no memory.
    pub fn turn(&mut self, alloc: Global, now: u64, view: View) -> Result<Option<Note>, NoMemory>
        requires { IsRising view.rows }
        ensures said { let turn = turn_input_of self.old now view in
            IfOk result (λ note. note ≡ note_of turn view.stamp) }
        ensures after { OnOk result (self.new ≡ stream_after self.old now view) }
        ensures same { OnErr result (self.new ≡ self.old) }
        ensures due { IsErr result → some_due (turn_input_of self.old now view) ≡ true }
    {
        let time = later(now, self.time);
        let rows = view.rows.items();
        beat_all(
            self.lines.items(),
            &self.states,
            &self.sent,
            rows,
            time,
            &mut self.found,
            &mut self.beats,
        );
        if !some_due(&self.beats) {
            move_all(&mut self.states, &self.beats, time);
            self.time = time;
            self.since = view.stamp;
            return Ok(None);
        }
        let lines = self.lines.items();
        let (note, sent) = noted(alloc, lines, &self.beats, &self.sent, &view)?;
        move_all(&mut self.states, &self.beats, time);
        self.sent = sent;
        self.time = time;
        self.since = view.stamp;
        self.mark = Mark {
            stamp: view.stamp,
            sync: false,
        };
        Ok(Some(note))
    }

    /// The last mark.
    pub fn mark(&self) -> Mark
        ensures { result ≡ self.now.mark }
    {
        self.mark
    }
}
