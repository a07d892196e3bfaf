// The way of a path through a schema, and the key leaves that it names.
ghost use Rattle.std.specs.Prelude.{◌≡◌, ◌≢◌, ◌++◌, Ok, Err, Some, None, IfOk, IfErr, OnOk};
ghost use Rattle.std.specs.Option.{option_copied, option_and_then};
ghost use Rattle.value_core.specs.KeyValues.{key_value};
ghost use Rattle.base_lists.specs.Results.{IsUnlessMemory, and_then, traverse};
ghost use Rattle.base_kinds.specs.Schema.{node_at};
ghost use Rattle.base_kinds.specs.Ancestors.{child};
ghost use Rattle.set_request.specs.KeyLeaves.{shape_at, value_of_key, leaf_with, key_leaf, key_leaves_of_elem, key_leaves_from, key_leaves_of};

use crate::key_values::key_value;
use base_kinds::{Copied, Elem, NoMemory, Path, Refusal, Row, Rows, Seq, Shape, Text, Value};
use schema_core::{Schema, has_just_keys};
use std::alloc::Global;

/// The key leaves that the path names, in its order.
///
/// `NotInSchema`: no node has the element's name there. `BadPath`: the element's keys aren't just its node's, or a key's
/// text is that of no value of its leaf. The first element decides.
#[tactic(auto, using(crate::proofs::Traversals::none_before))]
pub(crate) fn key_leaves_of(alloc: Global, schema: &Schema, path: &Path) -> Result<Rows, Refusal>
    ensures { IsUnlessMemory Refusal.NoMemory result (key_leaves_of schema.now path.now) }
{
    let mut keys = Seq::empty(alloc);
    let mut entry = Seq::empty(alloc);
    let pushed = push_elems(alloc, schema, path.items(), &mut entry, &mut keys);
    drop(entry);
    match pushed {
        Ok(()) => Ok(keys),
        Err(refusal) => {
            drop(keys);
            Err(refusal)
        }
    }
}

/// Adds the key leaves of the elements behind the entry, which grows by them.
#[tactic(auto, using(crate::proofs::Traversals::none_behind))]
fn push_elems(
    alloc: Global,
    schema: &Schema,
    elems: &[Elem],
    entry: &mut Path,
    rows: &mut Rows,
) -> Result<(), Refusal>
    ensures ok { OnOk result (and_then (key_leaves_from schema.now entry.old elems.now)
        (λ leaves. Ok (rows.old ++ leaves)) ≡ Ok rows.new) }
    ensures refused { IfErr result (λ refusal. refusal ≢ Refusal.NoMemory
        → key_leaves_from schema.now entry.old elems.now ≡ Err refusal) }
{
    for elem in elems {
        entry.push_copy(alloc, elem)?;
        match push_elem(alloc, schema, entry, elem, rows) {
            Ok(()) => {}
            Err(refusal) => return Err(refusal),
        }
    }
    Ok(())
}

/// Adds the key leaves of the element that ends the entry's path.
fn push_elem(
    alloc: Global,
    schema: &Schema,
    entry: &Path,
    elem: &Elem,
    rows: &mut Rows,
) -> Result<(), Refusal>
    ensures ok { OnOk result (and_then
        (key_leaves_of_elem schema.now entry.now elem.now (node_at schema.now entry.now))
        (λ leaves. Ok (rows.old ++ leaves)) ≡ Ok rows.new) }
    ensures refused { IfErr result (λ refusal. refusal ≢ Refusal.NoMemory
        → key_leaves_of_elem schema.now entry.now elem.now (node_at schema.now entry.now)
        ≡ Err refusal) }
{
    let Some(id) = schema.find(entry) else {
        return Err(Refusal::NotInSchema);
    };
    let node = schema.node(id);
    if !has_just_keys(elem, node.keys().items()) {
        return Err(Refusal::BadPath);
    }
    push_keys(alloc, schema, entry, elem.keys.items(), rows)
}

#[tactic(auto, using(crate::proofs::Traversals::none_behind, crate::proofs::Traversals::one_more, crate::proofs::Traversals::one_refused, crate::proofs::Traversals::refused_so))]
fn push_keys(
    alloc: Global,
    schema: &Schema,
    entry: &Path,
    keys: &[(Text, Text)],
    rows: &mut Rows,
) -> Result<(), Refusal>
    ensures ok { OnOk result (and_then (traverse (key_leaf schema.now entry.now) keys.now)
        (λ leaves. Ok (rows.old ++ leaves)) ≡ Ok rows.new) }
    ensures refused { IfErr result (λ refusal. refusal ≢ Refusal.NoMemory
        → traverse (key_leaf schema.now entry.now) keys.now ≡ Err refusal) }
{
    for key in keys {
        let row = key_leaf(alloc, schema, entry, key)?;
        rows.push(row)?;
    }
    Ok(())
}

/// The leaf of a key of the entry.
fn key_leaf(
    alloc: Global,
    schema: &Schema,
    entry: &Path,
    key: &(Text, Text),
) -> Result<Row, Refusal>
    ensures { IsUnlessMemory Refusal.NoMemory result (key_leaf schema.now entry.now key.now) }
{
    let path = child(alloc, entry, &key.0)?;
    match value_at(alloc, schema, &path, &key.1) {
        Ok(value) => leaf_with(path, value),
        Err(NoMemory) => {
            drop(path);
            Err(Refusal::NoMemory)
        }
    }
}

/// The value that a key spells whose leaf has this path.
fn value_at(
    alloc: Global,
    schema: &Schema,
    path: &Path,
    text: &Text,
) -> Result<Option<Value>, NoMemory>
    ensures { IfOk result (λ value. option_and_then (λ shape. key_value shape text.now)
        (shape_at schema.now path.now) ≡ value) }
{
    match shape_at(schema, path) {
        None => Ok(None),
        Some(shape) => key_value(alloc, shape, text),
    }
}

/// A key's text has to be that of a value.
fn leaf_with(path: Path, value: Option<Value>) -> Result<Row, Refusal>
    ensures ok { IfOk result (λ row. (row.path ≡ path) × (value ≡ Some row.value)) }
    ensures refused { IfErr result (λ refusal. (refusal ≡ Refusal.BadPath) × (value ≡ None)) }
{
    match value {
        None => {
            drop(path);
            Err(Refusal::BadPath)
        }
        Some(value) => Ok(Row { path, value }),
    }
}

/// The shape of the leaf or the leaf-list at the path.
fn shape_at<'a>(schema: &'a Schema, path: &Path) -> Option<&'a Shape>
    ensures { option_copied result ≡ shape_at schema.now path.now }
{
    let id = schema.find(path)?;
    schema.node(id).shape()
}

/// The path of the leaf with this name right below the entry.
fn child(alloc: Global, entry: &Path, name: &Text) -> Result<Path, NoMemory>
    ensures { IfOk result (λ path. path ≡ child entry.now name.now) }
{
    let mut path = entry.copy(alloc)?;
    match push_name(alloc, name, &mut path) {
        Ok(()) => Ok(path),
        Err(NoMemory) => {
            drop(path);
            Err(NoMemory)
        }
    }
}

/// Adds an element of this name, without keys.
fn push_name(alloc: Global, name: &Text, path: &mut Path) -> Result<(), NoMemory>
    ensures { OnOk result (path.new ≡ child path.old name.now) }
{
    match name.copy(alloc) {
        Ok(name) => path.push(Elem {
            name,
            keys: Seq::empty(alloc),
        }),
        Err(NoMemory) => Err(NoMemory),
    }
}
