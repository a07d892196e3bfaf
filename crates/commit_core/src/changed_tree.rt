// The tree that operations make of one, checked.
ghost use Rattle.std.specs.Prelude.{◌≡◌, true, IfOk, IfErr, OnOk};
ghost use Rattle.base_kinds.specs.Tree.{effect, in_turn, with_act};
ghost use Rattle.base_kinds.specs.Valid.{valid, fits};
ghost use Rattle.base_kinds.specs.Rising.{IsRising};
ghost use Rattle.commit_core.specs.inner.Refusals.{IsTreeRefusal};

use base_kinds::{Act, NoMemory, Op, Path, Paths, Refusal, Rows, TreeLike};
use schema_core::Schema;
use std::alloc::Global;
use tree_check::{CheckFault, check};

/// The tree after the operations, where it is valid and small enough.
#[tactic(auto, using(crate::proofs::Rising::changed_rises))]
pub fn changed_tree<T: TreeLike + Drop>(
    alloc: Global,
    schema: &Schema,
    tree: &T,
    ops: &[Op],
) -> Result<T, Refusal>
    requires { IsRising (T.rows tree.now) }
    ensures tree { IfOk result (λ next. T.rows next ≡ effect ops.now (T.rows tree.now)) }
    ensures valid { OnOk result (valid schema.now (effect ops.now (T.rows tree.now)) ≡ true) }
    ensures fits { OnOk result (fits (effect ops.now (T.rows tree.now)) ≡ true) }
    ensures refused { IfErr result (λ refusal.
        IsTreeRefusal schema.now (effect ops.now (T.rows tree.now)) refusal) }
{
    match tree_after(alloc, tree, ops) {
        Ok(next) => match check_tree(alloc, schema, &next) {
            Ok(()) => Ok(next),
            Err(refusal) => {
                drop(next);
                Err(refusal)
            }
        },
        Err(NoMemory) => Err(Refusal::NoMemory),
    }
}

fn check_tree<T: TreeLike>(alloc: Global, schema: &Schema, tree: &T) -> Result<(), Refusal>
    requires { IsRising (T.rows tree.now) }
    ensures valid { OnOk result (valid schema.now (T.rows tree.now) ≡ true) }
    ensures fits { OnOk result (fits (T.rows tree.now) ≡ true) }
    ensures refused { IfErr result (λ refusal. IsTreeRefusal schema.now (T.rows tree.now) refusal) }
{
    let rows = every_row(alloc, tree)?;
    let checked = check(alloc, schema, &rows);
    drop(rows);
    match checked {
        Ok(()) => Ok(()),
        Err(CheckFault::TreeInvalid) => Err(Refusal::TreeInvalid),
        Err(CheckFault::TreeFull) => Err(Refusal::TreeFull),
        Err(CheckFault::NoMemory) => Err(Refusal::NoMemory),
    }
}

/// The part of the tree that the root's path covers.
#[tactic(auto, using(crate::proofs::Wholes::whole))]
fn every_row<T: TreeLike>(alloc: Global, tree: &T) -> Result<Rows, NoMemory>
    ensures { IfOk result (λ rows. rows ≡ T.rows tree.now) }
{
    let mut patterns = Paths::empty(alloc);
    match patterns.push(Path::empty(alloc)) {
        Ok(()) => {
            let rows = tree.part(alloc, &patterns);
            drop(patterns);
            rows
        }
        Err(NoMemory) => {
            drop(patterns);
            Err(NoMemory)
        }
    }
}

/// A copy of the tree, after the operations.
fn tree_after<T: TreeLike + Drop>(alloc: Global, tree: &T, ops: &[Op]) -> Result<T, NoMemory>
    ensures { IfOk result (λ next. T.rows next ≡ effect ops.now (T.rows tree.now)) }
{
    let mut next = tree.copy(alloc)?;
    match apply_ops(alloc, &mut next, ops) {
        Ok(()) => Ok(next),
        Err(NoMemory) => {
            drop(next);
            Err(NoMemory)
        }
    }
}

/// Applies the operations: the deletes, then the replaces, then the updates, each in list order.
pub fn apply_ops<T: TreeLike>(alloc: Global, tree: &mut T, ops: &[Op]) -> Result<(), NoMemory>
    ensures { OnOk result (T.rows tree.new ≡ effect ops.now (T.rows tree.old)) }
{
    apply_all(alloc, tree, Act::Delete, ops)?;
    apply_all(alloc, tree, Act::Replace, ops)?;
    apply_all(alloc, tree, Act::Update, ops)
}

/// Applies the operations that have this act.
#[tactic(auto, using(crate::proofs::Effects::all_applied, crate::proofs::Effects::one_applied, crate::proofs::Effects::one_passed))]
fn apply_all<T: TreeLike>(alloc: Global, tree: &mut T, act: Act, ops: &[Op]) -> Result<(), NoMemory>
    ensures { OnOk result (T.rows tree.new ≡ in_turn (with_act act ops.now) (T.rows tree.old)) }
{
    for op in ops {
        if op.act.is_act(act) {
            tree.apply(alloc, op)?;
        }
    }
    Ok(())
}
