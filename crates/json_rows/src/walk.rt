// The walk of a JSON value, which gives its rows.
ghost use Rattle.std.specs.Prelude.{◌≡◌, ◌<◌, ◌++◌, ◌∷◌, [], Ok, Err, Some, length, slice_get, IfOk};
ghost use Rattle.std.specs.Option.{ForSome};
ghost use Rattle.base_lists.specs.Results.{IsUnlessMemory, and_then};
ghost use Rattle.base_kinds.specs.Schema.{names_of};
ghost use Rattle.serde_json.specs.View.{view, items_view, members_view};
ghost use Rattle.schema_core.specs.Nodes.{names_at, names_above};
ghost use Rattle.json_rows.specs.Walk.{rows_at_node, rows_of_members, rows_of_entries, rows_of_object, below as path_below};

use crate::fault::RowsFault;
use crate::leaf_rows::{add_leaf, add_list, below, fresh_keys};
use crate::members::{fresh_child, spelling_of};
use crate::seen_keys::SeenKeys;
use crate::texts::put_text;
use base_kinds::{Keys, NoMemory, Path, Rows, Seq, Sort, Texts};
use schema_core::{Node, NodeId, Schema};
use serde_json::{Map, Value as Json};
use std::alloc::Global;

/// Adds the rows of the JSON value of a node: its name, and the path above it.
#[cycle(walk)]
pub(crate) fn add_node(
    alloc: Global,
    schema: &Schema,
    id: NodeId,
    node: &Node,
    above: &Path,
    name: &str,
    json: &Json,
    rows: &mut Rows,
) -> Result<(), RowsFault>
    requires node { slice_get schema.now id.0 ≡ Some node.now }
    requires within { id.0 < length schema.now }
    requires named { names_at schema.now id.0 ≡ names_of above.now ++ name.now ∷ [] }
    ensures answer { IsUnlessMemory RowsFault.NoMemory (and_then result (λ _. Ok rows.new))
        (rows_at_node node.now.sort schema.now node.now above.now name.now rows.old
        (view json.now)) }
{
    match (node.sort(), json) {
        (Sort::Container, Json::Object(_)) => add_object_below(
            alloc,
            schema,
            id,
            above,
            name,
            Seq::empty(alloc),
            json,
            rows,
        ),
        (Sort::List, Json::Array(items)) => add_entries(
            alloc, schema, id, node, above, name, items, rows,
        ),
        (Sort::LeafList, Json::Array(items)) => {
            add_list(alloc, node.shape(), above, name, items, rows)
        }
        (Sort::Leaf, _) => add_leaf(alloc, node.shape(), above, name, json, rows),
        _ => Err(RowsFault::BadValue),
    }
}

/// Adds the rows of an object's members at a path, whose node is the parent, or which is the root.
#[cycle(walk)]
fn add_members(
    alloc: Global,
    schema: &Schema,
    parent: Option<NodeId>,
    here: &Path,
    members: &Map<String, Json>,
    rows: &mut Rows,
) -> Result<(), RowsFault>
    requires within { ForSome parent (λ id. id.0 < length schema.now) }
    requires named { names_above schema.now parent ≡ names_of here.now }
    ensures answer { IsUnlessMemory RowsFault.NoMemory (and_then result (λ _. Ok rows.new))
        (rows_of_members schema.now here.now [] rows.old (members_view members.now.entries)) }
{
    let mut seen: Texts = Seq::empty(alloc);
    let outcome = add_members_behind(alloc, schema, parent, here, &mut seen, members, rows);
    drop(seen);
    outcome
}

/// Adds the rows of an object's members behind members that named the children seen.
#[cycle(walk)]
fn add_members_behind(
    alloc: Global,
    schema: &Schema,
    parent: Option<NodeId>,
    here: &Path,
    seen: &mut Texts,
    members: &Map<String, Json>,
    rows: &mut Rows,
) -> Result<(), RowsFault>
    requires within { ForSome parent (λ id. id.0 < length schema.now) }
    requires named { names_above schema.now parent ≡ names_of here.now }
    ensures answer { IsUnlessMemory RowsFault.NoMemory (and_then result (λ _. Ok rows.new))
        (rows_of_members schema.now here.now seen.old rows.old (members_view members.now.entries)) }
{
    for (text, json) in members.iter() {
        let id = fresh_child(schema, parent, seen, text.as_str())?;
        let name = spelling_of(text.as_str()).name;
        add_node(alloc, schema, id, schema.node(id), here, name, json, rows)?;
        put_text(alloc, name, seen)?;
    }
    Ok(())
}

/// Adds the rows of a list's entries.
#[cycle(walk)]
fn add_entries(
    alloc: Global,
    schema: &Schema,
    id: NodeId,
    node: &Node,
    above: &Path,
    name: &str,
    items: &Vec<Json>,
    rows: &mut Rows,
) -> Result<(), RowsFault>
    requires within { id.0 < length schema.now }
    requires named { names_at schema.now id.0 ≡ names_of above.now ++ name.now ∷ [] }
    ensures answer { IsUnlessMemory RowsFault.NoMemory (and_then result (λ _. Ok rows.new))
        (rows_of_entries schema.now node.now above.now name.now [] rows.old
        (items_view items.now.items)) }
{
    let mut seen = SeenKeys::empty(alloc);
    let outcome = add_entries_behind(alloc, schema, id, node, above, name, &mut seen, items, rows);
    drop(seen);
    outcome
}

/// Adds the rows of a list's entries behind entries that had the keys seen.
#[cycle(walk)]
fn add_entries_behind(
    alloc: Global,
    schema: &Schema,
    id: NodeId,
    node: &Node,
    above: &Path,
    name: &str,
    seen: &mut SeenKeys,
    items: &Vec<Json>,
    rows: &mut Rows,
) -> Result<(), RowsFault>
    requires within { id.0 < length schema.now }
    requires named { names_at schema.now id.0 ≡ names_of above.now ++ name.now ∷ [] }
    ensures answer { IsUnlessMemory RowsFault.NoMemory (and_then result (λ _. Ok rows.new))
        (rows_of_entries schema.now node.now above.now name.now seen.old rows.old
        (items_view items.now.items)) }
{
    for item in items {
        let keys = fresh_keys(alloc, schema, id, node.keys().items(), seen, item)?;
        add_object_below(alloc, schema, id, above, name, keys, item, rows)?;
    }
    Ok(())
}

/// Adds the rows of an object that stands at the element of this name and these keys.
#[cycle(walk)]
fn add_object_below(
    alloc: Global,
    schema: &Schema,
    id: NodeId,
    above: &Path,
    name: &str,
    keys: Keys,
    json: &Json,
    rows: &mut Rows,
) -> Result<(), RowsFault>
    requires within { id.0 < length schema.now }
    requires named { names_at schema.now id.0 ≡ names_of above.now ++ name.now ∷ [] }
    ensures answer { IsUnlessMemory RowsFault.NoMemory (and_then result (λ _. Ok rows.new))
        (rows_of_object schema.now (path_below above.now name.now keys) rows.old (view json.now)) }
{
    match below(alloc, above, name, keys) {
        Ok(here) => {
            let outcome = add_object(alloc, schema, Some(id), &here, json, rows);
            drop(here);
            outcome
        }
        Err(NoMemory) => Err(RowsFault::NoMemory),
    }
}

/// Adds the rows of an object at the path of a list's entry, or of the root.
#[cycle(walk)]
pub(crate) fn add_object(
    alloc: Global,
    schema: &Schema,
    parent: Option<NodeId>,
    here: &Path,
    json: &Json,
    rows: &mut Rows,
) -> Result<(), RowsFault>
    requires within { ForSome parent (λ id. id.0 < length schema.now) }
    requires named { names_above schema.now parent ≡ names_of here.now }
    ensures answer { IsUnlessMemory RowsFault.NoMemory (and_then result (λ _. Ok rows.new))
        (rows_of_object schema.now here.now rows.old (view json.now)) }
{
    match json {
        Json::Object(members) => add_members(alloc, schema, parent, here, members, rows),
        _ => Err(RowsFault::BadValue),
    }
}
