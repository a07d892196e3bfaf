// Which groups are due at a turn. None of these takes memory.
ghost use Rattle.std.specs.Prelude.{◌≡◌, length};
ghost use Rattle.base_kinds.specs.Rising.{IsRising};
ghost use Rattle.stream_laws.specs.Differences.{same_value, is_gone, is_new_or_changed};
ghost use Rattle.stream_core.specs.inner.Due.{input_of};
ghost use Rattle.stream_laws.specs.Beats.{has_interval_passed, has_heartbeat_passed, sends_all, sends_changes, beat_by, beats_from};

use crate::search::value_of;
use crate::walk::{Found, find_rows};
use base_kinds::{Row, Same, Value};
use stream_laws::{Beat, GroupState};
use sub_plan::{GroupSort, Line};

#[tactic(auto, using(stream_laws::proofs::Equal::tells_same))]
fn same_value(a: &Value, b: &Value) -> bool
    ensures { result ≡ same_value a.now b.now }
{
    a.same(b)
}

pub fn is_gone(rows: &[Row], row: &Row) -> bool
    requires { IsRising rows.now }
    ensures { result ≡ is_gone rows.now row.now }
{
    value_of(rows, &row.path).is_none()
}

pub fn is_new_or_changed(rows: &[Row], row: &Row) -> bool
    requires { IsRising rows.now }
    ensures { result ≡ is_new_or_changed rows.now row.now }
{
    match value_of(rows, &row.path) {
        Some(old) => !same_value(old, &row.value),
        None => true,
    }
}

pub fn has_interval_passed(state: &GroupState, time: u64) -> bool
    ensures { result ≡ has_interval_passed state.now time }
{
    time.saturating_sub(state.last) >= state.group.interval
}

fn has_heartbeat_passed(state: &GroupState, time: u64) -> bool
    ensures { result ≡ has_heartbeat_passed state.now time }
{
    state.group.heartbeat != 0 && time.saturating_sub(state.full) >= state.group.heartbeat
}

fn sends_all(state: &GroupState, time: u64) -> bool
    ensures { result ≡ sends_all state.now time }
{
    match state.group.sort {
        GroupSort::Change => has_heartbeat_passed(state, time),
        GroupSort::Sample => {
            if state.group.suppress {
                has_heartbeat_passed(state, time)
            } else {
                has_interval_passed(state, time)
            }
        }
    }
}

fn sends_changes(state: &GroupState, time: u64) -> bool
    ensures { result ≡ sends_changes state.now time }
{
    match state.group.sort {
        GroupSort::Change => true,
        GroupSort::Sample => state.group.suppress && has_interval_passed(state, time),
    }
}

fn beat_of(state: &GroupState, time: u64, differ: bool, some: bool) -> Beat
    ensures { result ≡ beat_by state.now time differ some }
{
    if sends_all(state, time) && some {
        Beat::All
    } else if sends_changes(state, time) && differ {
        Beat::Changes
    } else {
        Beat::Quiet
    }
}

/// Writes the beat of each group.
pub fn find_beats(
    lines: &[Line],
    states: &[GroupState],
    sent: &[Row],
    rows: &[Row],
    time: u64,
    found: &mut [Found],
    beats: &mut [Beat],
)
    requires sent { IsRising sent.now }
    requires rows { IsRising rows.now }
    requires room { length beats.old ≡ length states.now }
    requires found { length found.old ≡ length states.now }
    ensures room { length found.new ≡ length states.now }
    ensures beats { let turn = input_of lines.now states.now sent.now rows.now time in
        beats.new ≡ beats_from turn 0 states.now }
{
    find_rows(lines, sent, rows, found);
    for (number, state) in states.iter().enumerate() {
        let one = found[number];
        beats[number] = beat_of(state, time, one.differs, one.some);
    }
}
