// The JSON of the rows at and below a path.
ghost use Rattle.std.specs.Prelude.{◌≡◌, ◌≤◌, ◌<◌, ◌+◌, ◌^◌, ◌∷◌, suc, Some, None, Ok, length, map, slice_get, string_bytes, IfOk, IsUtf8, OnOk};
ghost use Rattle.std.specs.Option.{option_copied, option_and_then, option_map, ForSome};
ghost use Rattle.serde_json.specs.Data.{object};
ghost use Rattle.serde_json.specs.View.{view, items_view, members_view};
ghost use Rattle.base_kinds.specs.Limits.{most_elements};
ghost use Rattle.base_kinds.specs.Schema.{SchemaNode};
ghost use Rattle.schema_core.specs.Nodes.{names_above, names_at};
ghost use Rattle.json_rows.specs.Rows.{data_of, rows_of};
ghost use Rattle.json_text.specs.laws.ReadBack.{ReadsBack};
ghost use Rattle.json_text.specs.Runs.{runs, share_name, share_entry, first_elem};
ghost use Rattle.json_text.specs.Trees.{ends_plain, member_name, is_module, value_data, node_data, child_of_rows, members_data, json_data, json_text_of};
ghost use Rattle.json_text.specs.inner.Steps.{member_step};

use crate::leaves::value_json;
use crate::runs::{Shared, split_run};
use base_kinds::{Bytes, Elem, MOST_ELEMENTS, NoMemory, Path, Row, Rows, Seq, Shape, Sort, Text};
use schema_core::{Node, NodeId, Schema, own_name};
use serde_json::{Map, Value as Json, put};
use std::alloc::Global;

/// The JSON text of the rows at and below the path, in the order that they stand in. So it is the whole value at the path
/// where the rows are all that a valid tree has there, rising by path. Of a list's entries and of a leaf-list's values
/// the order is kept.
///
/// The text is UTF-8, and serde_json reads it as the value. Where what is written means its rows, which the laws
/// `trees_read_back` and `valid_trees_read_back` say of valid trees, the text means them.
#[tactic(auto, using(crate::proofs::Depths::text_back))]
pub fn json_of(alloc: Global, schema: &Schema, path: &Path, rows: &Rows) -> Result<Bytes, NoMemory>
    ensures text { IfOk result (λ json. json ≡ json_text_of schema.now path.now rows.now) }
    ensures reads { IfOk result (λ json. data_of json
        ≡ Some (json_data schema.now path.now rows.now)) }
    ensures back { IfOk result (λ json. ReadsBack schema.now path.now rows.now
        → rows_of schema.now path.now json ≡ Ok rows.now) }
{
    let json = tree_text(alloc, schema, path, rows.items())?;
    Ok(json)
}

#[tactic(auto, using(crate::proofs::Plain::tree_has_no_float, crate::proofs::Depths::json_deep, crate::proofs::Depths::data_read))]
fn tree_text(alloc: Global, schema: &Schema, path: &Path, rows: &[Row]) -> Result<Bytes, NoMemory>
    ensures text { IfOk result (λ json. json ≡ json_text_of schema.now path.now rows.now) }
    ensures reads { IfOk result (λ json. data_of json
        ≡ Some (json_data schema.now path.now rows.now)) }
{
    let json = data_json(alloc, schema, path, rows)?;
    let text = json.to_vec(alloc);
    drop(json);
    match text {
        Ok(octets) => Ok(Seq::from_vec(octets)),
        Err(_) => Err(NoMemory),
    }
}

/// The value at the path.
fn data_json(alloc: Global, schema: &Schema, path: &Path, rows: &[Row]) -> Result<Json, NoMemory>
    ensures { IfOk result (λ json. view json ≡ json_data schema.now path.now rows.now) }
{
    if path.is_empty() {
        return object_json(alloc, schema, None, 0, rows);
    }
    let Some(id) = schema.find(path) else {
        return Ok(Json::Null);
    };
    if ends_plain(path.items()) {
        return node_json(alloc, schema, None, id, MOST_ELEMENTS, path.len() - 1, rows);
    }
    object_json(alloc, schema, Some(id), path.len(), rows)
}

/// An object that is a whole value.
fn object_json(
    alloc: Global,
    schema: &Schema,
    parent: Option<NodeId>,
    depth: usize,
    rows: &[Row],
) -> Result<Json, NoMemory>
    requires within { ForSome parent (λ id. id.0 < length schema.now) }
    requires deep { depth + most_elements < 2 ^ 64 }
    ensures { IfOk result (λ json. view json ≡ object (members_data most_elements schema.now None
        (names_above schema.now parent) depth rows.now)) }
{
    match members_json(alloc, schema, None, parent, MOST_ELEMENTS, depth, rows) {
        Ok(members) => Ok(Json::Object(members)),
        Err(NoMemory) => Err(NoMemory),
    }
}

/// Whether the last element has no keys.
fn ends_plain(path: &[Elem]) -> bool
    ensures { result ≡ ends_plain path.now }
{
    match path.split_last() {
        None => true,
        Some((elem, _)) => elem.keys.is_empty(),
    }
}

/// The members of an object, of so many levels at most.
#[cycle(object)]
#[tactic(auto, using(crate::proofs::Members::members_step))]
fn members_json(
    alloc: Global,
    schema: &Schema,
    above: Option<&Text>,
    parent: Option<NodeId>,
    levels: usize,
    depth: usize,
    rows: &[Row],
) -> Result<Map<String, Json>, NoMemory>
    requires within { ForSome parent (λ id. id.0 < length schema.now) }
    requires deep { depth + levels < 2 ^ 64 }
    ensures { IfOk result (λ members. members_view members.entries ≡ members_data levels schema.now
        (option_copied above.entry) (names_above schema.now parent) depth rows.now) }
{
    let mut members = Map::new(alloc);
    if levels == 0 {
        return Ok(members);
    }
    let mut rest = rows;
    while !rest.is_empty() {
        let (run, others) = split_run(Shared::Name, depth, rest);
        add_member(
            alloc,
            schema,
            above,
            parent,
            levels - 1,
            depth,
            run,
            &mut members,
        )?;
        rest = others;
    }
    Ok(members)
}

/// Adds the member of rows that share their name.
#[cycle(object)]
fn add_member(
    alloc: Global,
    schema: &Schema,
    above: Option<&Text>,
    parent: Option<NodeId>,
    levels: usize,
    depth: usize,
    rows: &[Row],
    members: &mut Map<String, Json>,
) -> Result<(), NoMemory>
    requires within { ForSome parent (λ id. id.0 < length schema.now) }
    requires deep { depth + levels + 1 < 2 ^ 64 }
    ensures { OnOk result (members_view members.new.entries ≡ member_step levels schema.now
        (option_copied above.entry) (names_above schema.now parent) depth
        (members_view members.old.entries) rows.now) }
{
    let Some(id) = child_of_rows(schema, parent, depth, rows) else {
        return Ok(());
    };
    let node = schema.node(id);
    let name = member_name(alloc, above, node)?;
    let json = node_json(
        alloc,
        schema,
        Some(node.module_name()),
        id,
        levels,
        depth,
        rows,
    )?;
    put(members, alloc, name.as_str(), json)?;
    Ok(())
}

/// The value of the node, whose element is at this depth.
#[cycle(object)]
fn node_json(
    alloc: Global,
    schema: &Schema,
    above: Option<&Text>,
    id: NodeId,
    levels: usize,
    depth: usize,
    rows: &[Row],
) -> Result<Json, NoMemory>
    requires within { id.0 < length schema.now }
    requires deep { depth + levels + 1 < 2 ^ 64 }
    ensures { IfOk result (λ json. (node : SchemaNode) → slice_get schema.now id.0 ≡ Some node
        → view json ≡ node_data (members_data levels schema.now (option_copied above.entry)
        node.names (suc depth)) node.sort node.shape depth rows.now) }
{
    let node = schema.node(id);
    match node.sort() {
        Sort::Container => {
            let members = members_json(alloc, schema, above, Some(id), levels, depth + 1, rows)?;
            Ok(Json::Object(members))
        }
        Sort::List => {
            Ok(Json::Array(entries_json(alloc, schema, above, id, levels, depth, rows)?))
        }
        Sort::Leaf | Sort::LeafList => first_json(alloc, node.shape(), rows),
    }
}

/// The entries of a list, whose element is at this depth.
#[cycle(object)]
fn entries_json(
    alloc: Global,
    schema: &Schema,
    above: Option<&Text>,
    id: NodeId,
    levels: usize,
    depth: usize,
    rows: &[Row],
) -> Result<Vec<Json>, NoMemory>
    requires within { id.0 < length schema.now }
    requires deep { depth + levels + 1 < 2 ^ 64 }
    ensures { IfOk result (λ items. map view items.items
        ≡ map (λ entry. object (members_data levels schema.now (option_copied above.entry)
        (names_at schema.now id.0) (suc depth) entry)) (runs (share_entry depth) rows.now)) }
{
    let mut items = Vec::new(alloc);
    let mut rest = rows;
    while !rest.is_empty() {
        let (entry, others) = split_run(Shared::Entry, depth, rest);
        let members = members_json(alloc, schema, above, Some(id), levels, depth + 1, entry)?;
        items.push(Json::Object(members))?;
        rest = others;
    }
    Ok(items)
}

/// The value of the first row.
fn first_json(alloc: Global, shape: Option<&Shape>, rows: &[Row]) -> Result<Json, NoMemory>
    ensures { IfOk result (λ json. view json ≡ value_data (option_copied shape.entry) rows.now) }
{
    match (shape, rows.first()) {
        (Some(shape), Some(row)) => value_json(alloc, shape, &row.value),
        _ => Ok(Json::Null),
    }
}

/// The node of the child that the first row stands at or below.
fn child_of_rows(
    schema: &Schema,
    parent: Option<NodeId>,
    depth: usize,
    rows: &[Row],
) -> Option<NodeId>
    requires { ForSome parent (λ id. id.0 < length schema.now) }
    ensures node { child_of_rows schema.now (names_above schema.now parent) depth rows.now
        ≡ option_and_then (λ id. slice_get schema.now id.0) result }
    ensures within { ForSome result (λ id. id.0 < length schema.now) }
{
    let elem = rows.first()?.path.get(depth)?;
    schema.child_of(parent, elem.name.octets())
}

/// The name of the node's member where this module is above.
fn member_name(alloc: Global, above: Option<&Text>, node: &Node) -> Result<String, NoMemory>
    ensures { IfOk result (λ name. string_bytes name ≡ member_name (option_copied above.entry)
        node.now) }
{
    let mut name = String::new(alloc);
    if !is_module(above, node.module_name()) {
        name.push_str(str_of(node.module_name().octets()))?;
        name.push_str(":")?;
    }
    name.push_str(str_of(own_name(node.names().items())))?;
    Ok(name)
}

fn is_module(above: Option<&Text>, module_name: &Text) -> bool
    ensures { result ≡ is_module (option_copied above.entry) module_name.now }
{
    match above {
        None => false,
        Some(above) => above.octets() == module_name.octets(),
    }
}

fn str_of(octets: &[u8]) -> &str
    requires { IsUtf8 octets.now }
    ensures { result.now ≡ octets.now }
{
    match std::str::from_utf8(octets) {
        Ok(text) => text,
        Err(_) => unreachable!(),
    }
}
