// The groups of a stream between its turns.
ghost use Rattle.std.specs.Prelude.{◌≡◌, length, map, IfOk};
ghost use Rattle.stream_laws.specs.Beats.{moved_on};
ghost use Rattle.stream_laws.specs.Runs.{started};
ghost use Rattle.stream_core.specs.inner.Kept.{moved_all};

use crate::beats::has_interval_passed;
use crate::walk::Found;
use base_kinds::NoMemory;
use std::alloc::Global;
use stream_laws::{Beat, GroupState};
use sub_plan::Group;

pub fn started_all(alloc: Global, groups: &[Group], time: u64) -> Result<Vec<GroupState>, NoMemory>
    ensures { IfOk result (λ states. states.items ≡ map (started time) groups.now) }
{
    let mut states = Vec::with_capacity(alloc, groups.len())?;
    for group in groups {
        states.push(GroupState {
            group: *group,
            last: time,
            full: time,
        })?;
    }
    Ok(states)
}

pub fn quiet_beats(alloc: Global, groups: &[Group]) -> Result<Vec<Beat>, NoMemory>
    ensures { IfOk result (λ beats. length beats.items ≡ length groups.now) }
{
    let mut beats = Vec::with_capacity(alloc, groups.len())?;
    for _group in groups {
        beats.push(Beat::Quiet)?;
    }
    Ok(beats)
}

pub fn no_findings(alloc: Global, groups: &[Group]) -> Result<Vec<Found>, NoMemory>
    ensures { IfOk result (λ found. length found.items ≡ length groups.now) }
{
    let mut found = Vec::with_capacity(alloc, groups.len())?;
    for _group in groups {
        found.push(Found {
            differs: false,
            some: false,
        })?;
    }
    Ok(found)
}

fn moved_on(state: &GroupState, beat: Beat, time: u64) -> GroupState
    ensures { result ≡ moved_on time beat state.now }
{
    let last = if has_interval_passed(state, time) {
        time
    } else {
        state.last
    };
    let full = match beat {
        Beat::All => time,
        Beat::Quiet | Beat::Changes => state.full,
    };
    GroupState {
        group: state.group,
        last,
        full,
    }
}

/// Moves each group on by its beat. Takes no memory.
pub fn move_on(states: &mut [GroupState], beats: &[Beat], time: u64)
    requires { length beats.now ≡ length states.old }
    ensures { states.new ≡ moved_all time states.old beats.now }
{
    for (number, beat) in beats.iter().enumerate() {
        let state = moved_on(&states[number], *beat, time);
        states[number] = state;
    }
}
