// Rows of leaves and leaf-lists, and the keys of entries that differ.
ghost use Rattle.std.specs.Prelude.{◌≡◌, ◌++◌, ◌∷◌, [], ◌<◌, Ok, Err, Some, None, if◌then◌else◌, length, IfOk, OnOk, false};
ghost use Rattle.std.specs.Option.{option_copied};
ghost use Rattle.serde_json.specs.View.{view, items_view};
ghost use Rattle.schema_core.specs.Nodes.{names_at};
ghost use Rattle.base_lists.specs.Results.{IsUnlessMemory, and_then};
ghost use Rattle.json_rows.specs.Leaves.{leaf_at, values_from};
ghost use Rattle.json_rows.specs.Entries.{keys_of_entry, keys_unless_seen};
ghost use Rattle.json_rows.specs.Walk.{below, rows_with_leaf, rows_with_leaf_list, rows_with_row};

use crate::entries::keys_of_entry;
use crate::fault::RowsFault;
use crate::leaves::leaf_at;
use crate::seen_keys::SeenKeys;
use crate::texts::text_of;
use base_kinds::{Elem, Keys, NoMemory, Path, Row, Rows, Seq, Shape, Text, Value, Values};
use schema_core::{NodeId, Schema};
use serde_json::Value as Json;
use std::alloc::Global;
use value_core::all_differ;

/// The path with one more element, in as much memory as it needs.
pub(crate) fn below(alloc: Global, above: &Path, name: &str, keys: Keys) -> Result<Path, NoMemory>
    ensures { IfOk result (λ path. path ≡ below above.now name.now keys) }
{
    let mut elems = match Vec::with_capacity(alloc, above.len().saturating_add(1)) {
        Ok(elems) => Seq::from_vec(elems),
        Err(_) => {
            drop(keys);
            return Err(NoMemory);
        }
    };
    match put_below(alloc, above, name, keys, &mut elems) {
        Ok(()) => Ok(elems),
        Err(NoMemory) => {
            drop(elems);
            Err(NoMemory)
        }
    }
}

/// Adds the elements of the path, and one more.
fn put_below(
    alloc: Global,
    above: &Path,
    name: &str,
    keys: Keys,
    elems: &mut Path,
) -> Result<(), NoMemory>
    ensures { OnOk result (elems.new ≡ elems.old ++ below above.now name.now keys) }
{
    match elems.push_copies(alloc, above.items()) {
        Ok(()) => put_elem(alloc, name, keys, elems),
        Err(NoMemory) => {
            drop(keys);
            Err(NoMemory)
        }
    }
}

fn put_elem(alloc: Global, name: &str, keys: Keys, elems: &mut Path) -> Result<(), NoMemory>
    ensures { OnOk result (elems.new ≡ elems.old ++ below [] name.now keys) }
{
    match text_of(alloc, name) {
        Ok(name) => elems.push(Elem { name, keys }),
        Err(NoMemory) => {
            drop(keys);
            Err(NoMemory)
        }
    }
}

/// Adds the row of this value at the child of this name.
fn put_row(
    alloc: Global,
    above: &Path,
    name: &str,
    value: Value,
    rows: &mut Rows,
) -> Result<(), NoMemory>
    ensures { OnOk result
        (rows.new ≡ rows_with_row (below above.now name.now []) rows.old value) }
{
    match below(alloc, above, name, Seq::empty(alloc)) {
        Ok(path) => rows.push(Row { path, value }),
        Err(NoMemory) => {
            drop(value);
            Err(NoMemory)
        }
    }
}

/// Adds the row of a leaf: its name, and the path above it.
pub(crate) fn add_leaf(
    alloc: Global,
    shape: Option<&Shape>,
    above: &Path,
    name: &str,
    json: &Json,
    rows: &mut Rows,
) -> Result<(), RowsFault>
    ensures answer { IsUnlessMemory RowsFault.NoMemory (and_then result (λ _. Ok rows.new))
        (rows_with_leaf (below above.now name.now []) rows.old
        (leaf_at (option_copied shape.entry) (view json.now))) }
{
    let Some(value) = leaf_at(alloc, shape, json)? else {
        return Err(RowsFault::BadValue);
    };
    match put_row(alloc, above, name, value, rows) {
        Ok(()) => Ok(()),
        Err(NoMemory) => Err(RowsFault::NoMemory),
    }
}

/// The values of a leaf-list, where none is equal to another. They are compared once all are read.
fn values_of(
    alloc: Global,
    shape: Option<&Shape>,
    items: &Vec<Json>,
) -> Result<Option<Values>, NoMemory>
    ensures { IfOk result (λ values. values ≡ values_from (option_copied shape.entry) []
        (items_view items.now.items)) }
{
    let mut done = Seq::empty(alloc);
    match put_values(alloc, shape, items, &mut done) {
        Ok(true) => Ok(Some(done)),
        Ok(false) => {
            drop(done);
            Ok(None)
        }
        Err(NoMemory) => {
            drop(done);
            Err(NoMemory)
        }
    }
}

/// Whether the items mean values, none equal to another. They are added.
fn put_values(
    alloc: Global,
    shape: Option<&Shape>,
    items: &Vec<Json>,
    done: &mut Values,
) -> Result<bool, NoMemory>
    requires { done.old ≡ [] }
    ensures { IfOk result (λ all. (if all then Some done.new else None)
        ≡ values_from (option_copied shape.entry) [] (items_view items.now.items)) }
{
    for item in items {
        let Some(value) = leaf_at(alloc, shape, item)? else {
            return Ok(false);
        };
        done.push(value)?;
    }
    all_differ(alloc, done.items())
}

/// Adds the row of a leaf-list, where it has a value: its name, and the path above it.
pub(crate) fn add_list(
    alloc: Global,
    shape: Option<&Shape>,
    above: &Path,
    name: &str,
    items: &Vec<Json>,
    rows: &mut Rows,
) -> Result<(), RowsFault>
    ensures answer { IsUnlessMemory RowsFault.NoMemory (and_then result (λ _. Ok rows.new))
        (rows_with_leaf_list (below above.now name.now []) rows.old
        (values_from (option_copied shape.entry) [] (items_view items.now.items))) }
{
    let Some(values) = values_of(alloc, shape, items)? else {
        return Err(RowsFault::BadValue);
    };
    if values.is_empty() {
        return Ok(());
    }
    put_row(alloc, above, name, Value::List(values), rows)?;
    Ok(())
}

/// The keys of an entry of an array, which no entry before it had. They are added to those seen.
pub(crate) fn fresh_keys(
    alloc: Global,
    schema: &Schema,
    list: NodeId,
    names: &[Text],
    seen: &mut SeenKeys,
    entry: &Json,
) -> Result<Keys, RowsFault>
    requires { list.0 < length schema.now }
    ensures answer { IsUnlessMemory RowsFault.NoMemory result
        (and_then (keys_of_entry schema.now (names_at schema.now list.0) (view entry.now) []
        names.now) (keys_unless_seen seen.old)) }
    ensures more { IfOk result (λ keys. seen.new ≡ seen.old ++ keys ∷ []) }
{
    match keys_of_entry(alloc, schema, list, names, entry) {
        Ok(keys) => match add_keys(alloc, seen, &keys) {
            Ok(()) => Ok(keys),
            Err(fault) => {
                drop(keys);
                Err(fault)
            }
        },
        Err(fault) => Err(fault),
    }
}

/// Adds the keys to those of the entries before, where no entry had them.
fn add_keys(alloc: Global, seen: &mut SeenKeys, keys: &Keys) -> Result<(), RowsFault>
    ensures answer { IsUnlessMemory RowsFault.NoMemory (and_then result (λ _. Ok keys.now))
        (keys_unless_seen seen.old keys.now) }
    ensures more { OnOk result (seen.new ≡ seen.old ++ keys.now ∷ []) }
{
    if seen.add(alloc, keys)? {
        Ok(())
    } else {
        Err(RowsFault::BadValue)
    }
}
