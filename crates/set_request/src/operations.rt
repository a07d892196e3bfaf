// The operations of a request, resolved by a schema.
ghost use Rattle.std.specs.Prelude.{◌≡◌, ◌≢◌, ◌++◌, [], Ok, Err, true, false, if◌then◌else◌, IfOk, IfErr, OnOk};
ghost use Rattle.set_request.specs.Operations.{is_whole_path, are_fit_rows, op_of_delete, op_with, op_at, op_of_change, ops_of_request};
ghost use Rattle.base_lists.specs.Results.{IsUnlessMemory, and_then, traverse};

use crate::fitness::{are_fit_rows, has_wildcard, is_whole_path};
use crate::key_leaves::key_leaves_of;
use crate::key_merge::{key_leaves_agree, with_keys};
use crate::value_rows::rows_of_value;
use base_kinds::{Act, Change, NoMemory, Op, Ops, Path, Refusal, Rows, Seq, UnresolvedSet};
use path_core::{PathFault, join_prefix};
use schema_core::Schema;
use std::alloc::Global;

/// The deletes, then the replaces, then the updates, each in list order.
pub(crate) fn ops_of_request(
    alloc: Global,
    schema: &Schema,
    ask: &UnresolvedSet,
) -> Result<Ops, Refusal>
    ensures answer { IsUnlessMemory Refusal.NoMemory result (ops_of_request schema.now ask.now) }
{
    let mut ops = Seq::empty(alloc);
    match push_ops(alloc, schema, ask, &mut ops) {
        Ok(()) => Ok(ops),
        Err(refusal) => {
            drop(ops);
            Err(refusal)
        }
    }
}

#[tactic(auto, using(crate::proofs::Traversals::in_three))]
fn push_ops(
    alloc: Global,
    schema: &Schema,
    ask: &UnresolvedSet,
    ops: &mut Ops,
) -> Result<(), Refusal>
    requires { ops.old ≡ [] }
    ensures ok { OnOk result (ops_of_request schema.now ask.now ≡ Ok ops.new) }
    ensures refused { IfErr result (λ refusal. refusal ≢ Refusal.NoMemory
        → ops_of_request schema.now ask.now ≡ Err refusal) }
{
    push_deletes(alloc, &ask.prefix, ask.deletes.items(), ops)?;
    push_changes(
        alloc,
        schema,
        &ask.prefix,
        Act::Replace,
        ask.replaces.items(),
        ops,
    )?;
    push_changes(
        alloc,
        schema,
        &ask.prefix,
        Act::Update,
        ask.updates.items(),
        ops,
    )
}

#[tactic(auto, using(crate::proofs::Traversals::none_behind, crate::proofs::Traversals::one_more, crate::proofs::Traversals::one_refused, crate::proofs::Traversals::refused_so))]
fn push_deletes(alloc: Global, prefix: &Path, paths: &[Path], ops: &mut Ops) -> Result<(), Refusal>
    ensures ok { OnOk result (and_then (traverse (op_of_delete prefix.now) paths.now)
        (λ more. Ok (ops.old ++ more)) ≡ Ok ops.new) }
    ensures refused { IfErr result (λ refusal. refusal ≢ Refusal.NoMemory
        → traverse (op_of_delete prefix.now) paths.now ≡ Err refusal) }
{
    for path in paths {
        let op = op_of_delete(alloc, prefix, path)?;
        ops.push(op)?;
    }
    Ok(())
}

#[tactic(auto, using(crate::proofs::Traversals::none_behind, crate::proofs::Traversals::one_more, crate::proofs::Traversals::one_refused, crate::proofs::Traversals::refused_so))]
fn push_changes(
    alloc: Global,
    schema: &Schema,
    prefix: &Path,
    act: Act,
    changes: &[Change],
    ops: &mut Ops,
) -> Result<(), Refusal>
    ensures ok { OnOk result
        (and_then (traverse (op_of_change schema.now prefix.now act) changes.now)
        (λ more. Ok (ops.old ++ more)) ≡ Ok ops.new) }
    ensures refused { IfErr result (λ refusal. refusal ≢ Refusal.NoMemory
        → traverse (op_of_change schema.now prefix.now act) changes.now ≡ Err refusal) }
{
    for change in changes {
        let op = op_of_change(alloc, schema, prefix, act, change)?;
        ops.push(op)?;
    }
    Ok(())
}

/// A delete names what it names, also by patterns and where nothing is.
fn op_of_delete(alloc: Global, prefix: &Path, path: &Path) -> Result<Op, Refusal>
    ensures answer { IsUnlessMemory Refusal.NoMemory result (op_of_delete prefix.now path.now) }
{
    let path = whole_path(alloc, prefix, path)?;
    Ok(Op {
        act: Act::Delete,
        path,
        rows: Seq::empty(alloc),
    })
}

/// The prefix's elements and the path's, where they are a path that an operation may have.
fn whole_path(alloc: Global, prefix: &Path, path: &Path) -> Result<Path, Refusal>
    ensures ok { IfOk result (λ joined. joined ≡ prefix.now ++ path.now) }
    ensures whole { OnOk result (is_whole_path (prefix.now ++ path.now) ≡ true) }
    ensures refused { IfErr result (λ refusal. refusal ≢ Refusal.NoMemory
        → refusal ≡ Refusal.BadPath) }
    ensures not_whole { IfErr result (λ refusal. refusal ≢ Refusal.NoMemory
        → is_whole_path (prefix.now ++ path.now) ≡ false) }
{
    match join_prefix(alloc, prefix, path) {
        Err(fault) => Err(refusal_of(fault)),
        Ok(joined) => {
            if is_whole_path(joined.items()) {
                Ok(joined)
            } else {
                Err(Refusal::BadPath)
            }
        }
    }
}

fn refusal_of(fault: PathFault) -> Refusal
    ensures bad { fault ≡ PathFault.BadPath → result ≡ Refusal.BadPath }
    ensures memory { fault ≡ PathFault.NoMemory → result ≡ Refusal.NoMemory }
{
    match fault {
        PathFault::BadPath => Refusal::BadPath,
        PathFault::NoMemory => Refusal::NoMemory,
    }
}

fn op_of_change(
    alloc: Global,
    schema: &Schema,
    prefix: &Path,
    act: Act,
    change: &Change,
) -> Result<Op, Refusal>
    ensures answer { IsUnlessMemory Refusal.NoMemory result
        (op_of_change schema.now prefix.now act change.now) }
{
    let path = whole_path(alloc, prefix, &change.path)?;
    if has_wildcard(path.items()) {
        drop(path);
        return Err(Refusal::BadPath);
    }
    op_at(alloc, schema, act, path, change)
}

/// The operation of a change whose whole path this is.
fn op_at(
    alloc: Global,
    schema: &Schema,
    act: Act,
    path: Path,
    change: &Change,
) -> Result<Op, Refusal>
    ensures answer { IsUnlessMemory Refusal.NoMemory result
        (op_at schema.now act path change.now) }
{
    match key_leaves_of(alloc, schema, &path) {
        Ok(keys) => match rows_of_value(alloc, schema, &path, &change.given) {
            Ok(rows) => op_with(alloc, act, path, keys, rows),
            Err(refusal) => {
                drop(path);
                drop(keys);
                Err(refusal)
            }
        },
        Err(refusal) => {
            drop(path);
            Err(refusal)
        }
    }
}

/// The operation with the rows of its value and the key leaves that its path names.
fn op_with(alloc: Global, act: Act, path: Path, keys: Rows, rows: Rows) -> Result<Op, Refusal>
    ensures answer { IsUnlessMemory Refusal.NoMemory result (op_with act path keys rows) }
{
    if !key_leaves_agree(keys.items(), rows.items()) {
        drop(path);
        drop(keys);
        drop(rows);
        return Err(Refusal::BadValue);
    }
    let rows = with_keys(alloc, rows, keys.items());
    drop(keys);
    match rows {
        Ok(rows) => fit_op(act, path, rows),
        Err(NoMemory) => {
            drop(path);
            Err(Refusal::NoMemory)
        }
    }
}

fn fit_op(act: Act, path: Path, rows: Rows) -> Result<Op, Refusal>
    ensures { result ≡ if are_fit_rows rows
        then Ok (record { act = act; path = path; rows = rows }) else Err Refusal.BadValue }
{
    if are_fit_rows(rows.items()) {
        Ok(Op { act, path, rows })
    } else {
        drop(path);
        drop(rows);
        Err(Refusal::BadValue)
    }
}
