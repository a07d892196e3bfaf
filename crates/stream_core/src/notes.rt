// What the Note of a turn has, and what a subscriber has after it.
ghost use Rattle.std.specs.Prelude.{◌≡◌, ◌&&◌, ◌+◌, ◌<◌, [], ◌∷◌, ◌++◌, length, filter, map, not, IfOk, IfSome};
ghost use Rattle.std.specs.Option.{option_to_list};
ghost use Rattle.base_kinds.specs.Tree.{set_rows};
ghost use Rattle.base_kinds.specs.Rising.{IsRising};
ghost use Rattle.sub_plan.specs.Groups.{group_of};
ghost use Rattle.stream_laws.specs.Differences.{is_gone, is_new_or_changed};
ghost use Rattle.stream_core.specs.inner.Due.{is_deleted_row, is_sent_row, deleted_paths, sent_rows, due_part, other_part, rows_after};
ghost use Rattle.stream_laws.specs.Beats.{beat_numbered, is_due};
ghost use Rattle.stream_laws.specs.Notes.{is_sent};
ghost use Rattle.stream_core.specs.inner.Merging.{first_order};

use crate::beats::{is_gone, is_new_or_changed};
use crate::search::group_of;
use base_kinds::{Copied, NoMemory, Path, Paths, Row, Rows, Seq};
use path_core::cmp_paths;
use std::alloc::Global;
use std::cmp::Ordering;
use std::collections::VecDeque;
use stream_laws::Beat;
use sub_plan::Line;

pub fn is_due(beat: Beat) -> bool
    ensures { result ≡ is_due beat }
{
    match beat {
        Beat::Quiet => false,
        Beat::Changes | Beat::All => true,
    }
}

fn beat_at(lines: &[Line], beats: &[Beat], path: &Path) -> Beat
    ensures { result ≡ beat_numbered beats.now (group_of lines.now path.now) }
{
    match group_of(lines, path) {
        Some(group) => match beats.get(group as usize) {
            Some(beat) => *beat,
            None => Beat::Quiet,
        },
        None => Beat::Quiet,
    }
}

fn is_due_at(lines: &[Line], beats: &[Beat], path: &Path) -> bool
    ensures { result ≡ is_due (beat_numbered beats.now (group_of lines.now path.now)) }
{
    is_due(beat_at(lines, beats, path))
}

fn is_deleted(lines: &[Line], beats: &[Beat], rows: &[Row], row: &Row) -> bool
    requires { IsRising rows.now }
    ensures { result ≡ is_deleted_row lines.now beats.now rows.now row.now }
{
    is_due_at(lines, beats, &row.path) && is_gone(rows, row)
}

fn is_sent(lines: &[Line], beats: &[Beat], sent: &[Row], row: &Row) -> bool
    requires { IsRising sent.now }
    ensures { result ≡ is_sent_row lines.now beats.now sent.now row.now }
{
    match beat_at(lines, beats, &row.path) {
        Beat::Quiet => false,
        Beat::Changes => is_new_or_changed(sent, row),
        Beat::All => true,
    }
}

pub fn deletes_of(
    alloc: Global,
    lines: &[Line],
    beats: &[Beat],
    sent: &[Row],
    rows: &[Row],
) -> Result<Paths, NoMemory>
    requires { IsRising rows.now }
    ensures { IfOk result (λ found. found ≡ deleted_paths lines.now beats.now sent.now rows.now) }
{
    let mut found = Seq::empty(alloc);
    for row in sent {
        if is_deleted(lines, beats, rows, row) {
            found.push_copy(alloc, &row.path)?;
        }
    }
    Ok(found)
}

pub fn updates_of(
    alloc: Global,
    lines: &[Line],
    beats: &[Beat],
    sent: &[Row],
    rows: &[Row],
) -> Result<Rows, NoMemory>
    requires { IsRising sent.now }
    ensures { IfOk result (λ found. found ≡ sent_rows lines.now beats.now sent.now rows.now) }
{
    let mut found = Seq::empty(alloc);
    for row in rows {
        if is_sent(lines, beats, sent, row) {
            found.push_copy(alloc, row)?;
        }
    }
    Ok(found)
}

/// Copies of the rows of due groups, or of the others.
fn due_rows(
    alloc: Global,
    lines: &[Line],
    beats: &[Beat],
    rows: &[Row],
) -> Result<VecDeque<Row>, NoMemory>
    ensures { IfOk result (λ found. found.items ≡ due_part lines.now beats.now rows.now) }
{
    let mut found = VecDeque::new(alloc);
    for row in rows {
        if is_due_at(lines, beats, &row.path) {
            found.push_back(row.copy(alloc)?)?;
        }
    }
    Ok(found)
}

fn other_rows(
    alloc: Global,
    lines: &[Line],
    beats: &[Beat],
    rows: &[Row],
) -> Result<VecDeque<Row>, NoMemory>
    ensures { IfOk result (λ found. found.items ≡ other_part lines.now beats.now rows.now) }
{
    let mut found = VecDeque::new(alloc);
    for row in rows {
        if !is_due_at(lines, beats, &row.path) {
            found.push_back(row.copy(alloc)?)?;
        }
    }
    Ok(found)
}

/// How the first rows of both compare: a list that has none comes last.
fn first_order(kept: &VecDeque<Row>, now: &VecDeque<Row>) -> Option<Ordering>
    ensures { result ≡ first_order kept.now.items now.now.items }
{
    match (kept.front(), now.front()) {
        (Some(a), Some(b)) => Some(cmp_paths(&a.path, &b.path)),
        (Some(_), None) => Some(Ordering::Less),
        (None, Some(_)) => Some(Ordering::Greater),
        (None, None) => None,
    }
}

fn pop(rows: &mut VecDeque<Row>) -> Option<Row>
    ensures first { rows.old.items ≡ option_to_list result ++ rows.new.items }
    ensures none { result ≡ None → rows.old.items ≡ [] }
{
    rows.pop_front()
}

/// Takes the next row in path order off them. Where both have its path it is that of `now`.
fn take_next(kept: &mut VecDeque<Row>, now: &mut VecDeque<Row>) -> Option<Row>
    requires kept { IsRising kept.old.items }
    requires now { IsRising now.old.items }
    ensures taken { IfSome result (λ row. set_rows now.old.items kept.old.items ≡
        row ∷ set_rows now.new.items kept.new.items) }
    ensures end { result ≡ None → set_rows now.old.items kept.old.items ≡ [] }
    ensures kept { IsRising kept.new.items }
    ensures now { IsRising now.new.items }
    ensures fewer { IfSome result (λ row. length kept.new.items + length now.new.items
        < length kept.old.items + length now.old.items) }
{
    match first_order(kept, now) {
        Some(Ordering::Less) => pop(kept),
        Some(Ordering::Equal) => {
            pop(kept);
            pop(now)
        }
        Some(Ordering::Greater) => pop(now),
        None => None,
    }
}

fn joined(
    alloc: Global,
    mut kept: VecDeque<Row>,
    mut now: VecDeque<Row>,
) -> Result<Vec<Row>, NoMemory>
    requires kept { IsRising kept.items }
    requires now { IsRising now.items }
    ensures { IfOk result (λ all. all.items ≡ set_rows now.items kept.items) }
{
    let mut all = Vec::new(alloc);
    while let Some(row) = take_next(&mut kept, &mut now) {
        all.push(row)?;
    }
    Ok(all)
}

/// What a subscriber has after the turn.
pub fn sent_after(
    alloc: Global,
    lines: &[Line],
    beats: &[Beat],
    sent: &[Row],
    rows: &[Row],
) -> Result<Vec<Row>, NoMemory>
    requires sent { IsRising sent.now }
    requires rows { IsRising rows.now }
    ensures { IfOk result (λ all. all.items ≡ rows_after lines.now beats.now sent.now rows.now) }
{
    let kept = other_rows(alloc, lines, beats, sent)?;
    let now = due_rows(alloc, lines, beats, rows)?;
    joined(alloc, kept, now)
}
