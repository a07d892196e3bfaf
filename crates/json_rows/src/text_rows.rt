// The rows that a JSON text means.
ghost use Rattle.std.specs.Prelude.{◌≡◌, ◌≢◌, ◌-◌, ◌++◌, ◌∷◌, [], Ok, Err, Some, None, length, take, slice_get, IfOk, IfErr, IfSome, OnOk, ◌<◌, IsTrue};
ghost use Rattle.std.specs.Option.{option_map, ForSome};
ghost use Rattle.base_lists.specs.Rising.{rises};
ghost use Rattle.base_kinds.specs.Paths.{path_cmp};
ghost use Rattle.base_kinds.specs.Schema.{names_of};
ghost use Rattle.schema_core.specs.Nodes.{names_at, names_above};
ghost use Rattle.serde_json.specs.View.{view};
ghost use Rattle.serde_json.specs.Errors.{IsMemory};
ghost use Rattle.base_lists.specs.Results.{IsUnlessMemory};
ghost use Rattle.json_rows.specs.Walk.{rows_at_node, rows_of_object};
ghost use Rattle.json_rows.specs.Rows.{data_of, is_entry, rows_of_entry, rows_at_last_elem, rows_of_walk, rows_of};

use crate::entries::{entry_keys_agree, str_of};
use crate::fault::RowsFault;
use crate::path_order::rows_by_path;
use crate::walk::{add_node, add_object};
use base_kinds::{Copied, Elem, NoMemory, Path, Rows, Seq, Sort};
use schema_core::{NodeId, Schema};
use serde_json::Value as Json;
use std::alloc::Global;

/// The text as JSON, where it is JSON.
#[tactic(auto, using(crate::proofs::TextData::data_of_text, crate::proofs::TextData::no_data))]
fn data_of(alloc: Global, text: &[u8]) -> Result<Option<Json>, NoMemory>
    ensures { IfOk result (λ json. data_of text.now ≡ option_map view json) }
{
    match Json::from_slice(alloc, text) {
        Ok(json) => Ok(Some(json)),
        Err(error) => no_json(&error),
    }
}

/// No JSON, unless memory was wanting.
fn no_json(error: &serde_json::Error) -> Result<Option<Json>, NoMemory>
    ensures bad { (IsMemory error.now → ⊥) → result ≡ Ok None }
    ensures memory { OnOk result (IsMemory error.now → ⊥) }
{
    if error.is_memory() {
        Err(NoMemory)
    } else {
        Ok(None)
    }
}

fn is_entry(sort: Sort, last: &Elem) -> bool
    ensures { result ≡ is_entry sort last.now.keys }
{
    match sort {
        Sort::List => !last.keys.is_empty(),
        Sort::Container | Sort::Leaf | Sort::LeafList => false,
    }
}

/// The path without its last element.
fn above_last(alloc: Global, path: &Path) -> Result<Path, NoMemory>
    ensures { IfOk result (λ above. above ≡ take (length path.now - 1) path.now) }
{
    match path.copy(alloc) {
        Ok(copy) => {
            let mut elems = copy.into_vec();
            drop(elems.pop());
            Ok(Seq::from_vec(elems))
        }
        Err(NoMemory) => Err(NoMemory),
    }
}

/// The rows of the value of an entry whose path has its keys.
fn rows_of_entry(
    alloc: Global,
    schema: &Schema,
    id: NodeId,
    path: &Path,
    last: &Elem,
    json: &Json,
) -> Result<Rows, RowsFault>
    requires within { id.0 < length schema.now }
    requires named { names_at schema.now id.0 ≡ names_of path.now }
    ensures answer { IfSome (slice_get schema.now id.0) (λ node. IsUnlessMemory RowsFault.NoMemory
        result (rows_of_entry schema.now node path.now last.now.keys (view json.now))) }
{
    let names = schema.node(id).keys().items();
    entry_keys_agree(alloc, schema, id, names, &last.keys, json)?;
    rows_of_object(alloc, schema, Some(id), path, json)
}

/// The rows of an object at the path of a list's entry, or of the root.
fn rows_of_object(
    alloc: Global,
    schema: &Schema,
    parent: Option<NodeId>,
    path: &Path,
    json: &Json,
) -> Result<Rows, RowsFault>
    requires within { ForSome parent (λ id. id.0 < length schema.now) }
    requires named { names_above schema.now parent ≡ names_of path.now }
    ensures answer { IsUnlessMemory RowsFault.NoMemory result
        (rows_of_object schema.now path.now [] (view json.now)) }
{
    let mut rows = Seq::empty(alloc);
    match add_object(alloc, schema, parent, path, json, &mut rows) {
        Ok(()) => Ok(rows),
        Err(fault) => {
            drop(rows);
            Err(fault)
        }
    }
}

/// The rows of a value at the node of a path with this last element.
#[tactic(auto, using(crate::proofs::Ends::names_above_last))]
fn rows_at_last_elem(
    alloc: Global,
    schema: &Schema,
    id: NodeId,
    path: &Path,
    last: &Elem,
    json: &Json,
) -> Result<Rows, RowsFault>
    requires within { id.0 < length schema.now }
    requires named { names_at schema.now id.0 ≡ names_of path.now }
    requires last { slice_get path.now (length path.now - 1) ≡ Some last.now }
    ensures answer { IfSome (slice_get schema.now id.0) (λ node. IsUnlessMemory RowsFault.NoMemory
        result (rows_at_last_elem schema.now node path.now last.now (view json.now))) }
{
    let node = schema.node(id);
    if is_entry(node.sort(), last) {
        return rows_of_entry(alloc, schema, id, path, last, json);
    }
    match above_last(alloc, path) {
        Ok(above) => {
            let rows = rows_at_node(alloc, schema, id, &above, str_of(&last.name), json);
            drop(above);
            rows
        }
        Err(NoMemory) => Err(RowsFault::NoMemory),
    }
}

/// The rows of a value at a node: its name, and the path above it.
fn rows_at_node(
    alloc: Global,
    schema: &Schema,
    id: NodeId,
    above: &Path,
    name: &str,
    json: &Json,
) -> Result<Rows, RowsFault>
    requires within { id.0 < length schema.now }
    requires named { names_at schema.now id.0 ≡ names_of above.now ++ name.now ∷ [] }
    ensures answer { IfSome (slice_get schema.now id.0) (λ node. IsUnlessMemory RowsFault.NoMemory
        result (rows_at_node node.sort schema.now node above.now name.now [] (view json.now))) }
{
    let mut rows = Seq::empty(alloc);
    match add_node(
        alloc,
        schema,
        id,
        schema.node(id),
        above,
        name,
        json,
        &mut rows,
    ) {
        Ok(()) => Ok(rows),
        Err(fault) => {
            drop(rows);
            Err(fault)
        }
    }
}

/// The rows of a text at the root.
fn rows_at_root(alloc: Global, schema: &Schema, path: &Path, text: &[u8]) -> Result<Rows, RowsFault>
    requires { path.now ≡ [] }
    ensures answer { IsUnlessMemory RowsFault.NoMemory result
        (rows_of_walk schema.now path.now (data_of text.now)) }
{
    match data_of(alloc, text) {
        Ok(Some(json)) => {
            let rows = rows_of_object(alloc, schema, None, path, &json);
            drop(json);
            rows
        }
        Ok(None) => Err(RowsFault::BadValue),
        Err(NoMemory) => Err(RowsFault::NoMemory),
    }
}

/// The rows of a text in the order of the walk.
fn rows_of_walk(alloc: Global, schema: &Schema, path: &Path, text: &[u8]) -> Result<Rows, RowsFault>
    ensures answer { IsUnlessMemory RowsFault.NoMemory result
        (rows_of_walk schema.now path.now (data_of text.now)) }
{
    let Some(last) = path.items().last() else {
        return rows_at_root(alloc, schema, path, text);
    };
    let Some(id) = schema.find(path) else {
        return Err(RowsFault::NotInSchema);
    };
    match data_of(alloc, text) {
        Ok(Some(json)) => {
            let rows = rows_at_last_elem(alloc, schema, id, path, last, &json);
            drop(json);
            rows
        }
        Ok(None) => Err(RowsFault::BadValue),
        Err(NoMemory) => Err(RowsFault::NoMemory),
    }
}

/// The rows that the JSON text means at the path, rising by path. The keys of a path
/// that ends at a list's entry are taken as they are; at another node those of the last element aren't looked at.
///
/// `NotInSchema`: the path has no node, or a member names no child. `BadValue`: the text isn't JSON, or its value isn't
/// taken there (RFC 7951 4 to 6). The first fault in the order of the walk decides.
#[tactic(auto, using(crate::proofs::Walks::walked_distinct))]
pub fn rows_of(alloc: Global, schema: &Schema, path: &Path, json: &[u8]) -> Result<Rows, RowsFault>
    ensures answer { IsUnlessMemory RowsFault.NoMemory result
        (rows_of schema.now path.now json.now) }
    ensures rising { IfOk result (λ rows. IsTrue (rises (λ a b. path_cmp a.path b.path) rows)) }
{
    match rows_of_walk(alloc, schema, path, json) {
        Ok(rows) => match rows_by_path(rows) {
            Ok(sorted) => Ok(sorted),
            Err(NoMemory) => Err(RowsFault::NoMemory),
        },
        Err(fault) => Err(fault),
    }
}
