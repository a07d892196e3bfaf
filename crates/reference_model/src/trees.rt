// What the operations of a Set do to a tree.
ghost use Rattle.std.specs.Prelude.{◌≡◌, ◌++◌, IfOk, OnOk};
ghost use Rattle.base_kinds.specs.Tree.{set_row, set_rows, uncovered, op_effect, with_act, in_turn, effect};

use crate::matching::covers;
use base_kinds::{Act, Copied, NoMemory, Op, Ops, Path, Row, Rows, Seq};
use std::alloc::Global;
use std::cmp::Ordering;

/// The tree after the operations: the deletes, then the replaces, then the updates.
pub fn effect(alloc: Global, ops: &Ops, tree: &Rows) -> Result<Rows, NoMemory>
    ensures { IfOk result (λ after. after ≡ effect ops.now tree.now) }
{
    let deleted = in_turn(alloc, Act::Delete, ops.items(), tree.copy(alloc)?)?;
    let replaced = in_turn(alloc, Act::Replace, ops.items(), deleted)?;
    in_turn(alloc, Act::Update, ops.items(), replaced)
}

/// The tree with the row's value at the row's path.
pub fn set_row(alloc: Global, row: &Row, tree: &Rows) -> Result<Rows, NoMemory>
    ensures { IfOk result (λ set. set ≡ set_row row.now tree.now) }
{
    let mut set = Seq::empty(alloc);
    put_set(alloc, row, tree.items(), &mut set)?;
    Ok(set)
}

/// The operations with this act, one after another.
fn in_turn(alloc: Global, act: Act, ops: &[Op], tree: Rows) -> Result<Rows, NoMemory>
    ensures { IfOk result (λ after. after ≡ in_turn (with_act act ops.now) tree) }
{
    let Some((op, others)) = ops.split_first() else {
        return Ok(tree);
    };
    if !op.act.is_act(act) {
        return in_turn(alloc, act, others, tree);
    }
    let next = op_effect(alloc, op, &tree);
    drop(tree);
    in_turn(alloc, act, others, next?)
}

fn op_effect(alloc: Global, op: &Op, tree: &Rows) -> Result<Rows, NoMemory>
    ensures { IfOk result (λ after. after ≡ op_effect op.now tree.now) }
{
    match op.act {
        Act::Delete => uncovered(alloc, &op.path, tree),
        Act::Replace => set_rows(alloc, op.rows.items(), uncovered(alloc, &op.path, tree)?),
        Act::Update => set_rows(alloc, op.rows.items(), tree.copy(alloc)?),
    }
}

fn uncovered(alloc: Global, pattern: &Path, tree: &Rows) -> Result<Rows, NoMemory>
    ensures { IfOk result (λ rest. rest ≡ uncovered pattern.now tree.now) }
{
    let mut rest = Seq::empty(alloc);
    put_uncovered(alloc, pattern, tree.items(), &mut rest)?;
    Ok(rest)
}

fn put_uncovered(
    alloc: Global,
    pattern: &Path,
    rows: &[Row],
    rest: &mut Rows,
) -> Result<(), NoMemory>
    ensures { OnOk result (rest.new ≡ rest.old ++ uncovered pattern.now rows.now) }
{
    let Some((row, others)) = rows.split_first() else {
        return Ok(());
    };
    if !covers(pattern, &row.path) {
        rest.push_copy(alloc, row)?;
    }
    put_uncovered(alloc, pattern, others, rest)
}

fn set_rows(alloc: Global, rows: &[Row], tree: Rows) -> Result<Rows, NoMemory>
    ensures { IfOk result (λ set. set ≡ set_rows rows.now tree) }
{
    let Some((row, others)) = rows.split_first() else {
        return Ok(tree);
    };
    let next = set_row(alloc, row, &tree);
    drop(tree);
    set_rows(alloc, others, next?)
}

fn put_set(alloc: Global, row: &Row, rows: &[Row], set: &mut Rows) -> Result<(), NoMemory>
    ensures { OnOk result (set.new ≡ set.old ++ set_row row.now rows.now) }
{
    let Some((first, others)) = rows.split_first() else {
        return set.push_copy(alloc, row);
    };
    match first.path.cmp(&row.path) {
        Ordering::Less => {
            set.push_copy(alloc, first)?;
            put_set(alloc, row, others, set)
        }
        Ordering::Equal => {
            set.push_copy(alloc, row)?;
            set.push_copies(alloc, others)
        }
        Ordering::Greater => {
            set.push_copy(alloc, row)?;
            set.push_copies(alloc, rows)
        }
    }
}
