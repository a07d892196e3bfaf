// Keys and references, which count once every line could be taken (RFC 7950 7.8.2, 9.9).
ghost use Rattle.std.specs.Prelude.{◌≡◌, ◌<◌, ℕ, Some, length, slice_get};
ghost use Rattle.std.specs.List.{list_all};
ghost use Rattle.std.specs.Option.{option_map, option_copied};
ghost use Rattle.base_kinds.specs.Schema.{same_names};
ghost use Rattle.schema_core.specs.Shapes.{same_shape, same_shapes};
ghost use Rattle.schema_core.specs.WellFormed.{is_leaf, has_key_leaf, has_target};
ghost use Rattle.schema_text.specs.Schemas.{node_fault, first_fault};

use crate::cause::{Cause, SchemaFault};
use base_kinds::{Shape, Sort, Text};
use schema_core::{Node, NodeId, Schema};

fn is_leaf(sort: Sort) -> bool
    ensures { result ≡ is_leaf sort }
{
    match sort {
        Sort::Leaf => true,
        Sort::Container | Sort::List | Sort::LeafList => false,
    }
}

/// Whether the key has a leaf of its list, in the list's module.
fn has_key_leaf(schema: &Schema, id: NodeId, list: &Node, key: &Text) -> bool
    requires { slice_get schema.now id.0 ≡ Some list.now }
    ensures { result ≡ has_key_leaf schema.now list.now key.now }
{
    match schema.child_of(Some(id), key.octets()) {
        None => false,
        Some(child) => {
            let leaf = schema.node(child);
            is_leaf(leaf.sort()) && leaf.module_name().octets() == list.module_name().octets()
        }
    }
}

fn has_key_leaves(schema: &Schema, id: NodeId, list: &Node, keys: &[Text]) -> bool
    requires { slice_get schema.now id.0 ≡ Some list.now }
    ensures { result ≡ list_all (has_key_leaf schema.now list.now) keys.now }
{
    match keys.split_first() {
        None => true,
        Some((key, others)) => {
            has_key_leaf(schema, id, list, key) && has_key_leaves(schema, id, list, others)
        }
    }
}

fn same_names(names: &[Text], others: &[Text]) -> bool
    ensures { result ≡ same_names names.now others.now }
{
    match (names.split_first(), others.split_first()) {
        (None, None) => true,
        (Some((name, names)), Some((other, others))) => {
            name.octets() == other.octets() && same_names(names, others)
        }
        _ => false,
    }
}

fn same_shape(shape: &Shape, other: &Shape) -> bool
    ensures { result ≡ same_shape shape.now other.now }
{
    match (shape, other) {
        (Shape::Bool, Shape::Bool) => true,
        (Shape::Int(width), Shape::Int(other)) => width == other,
        (Shape::Uint(width), Shape::Uint(other)) => width == other,
        (Shape::Dec(places), Shape::Dec(other)) => places == other,
        (Shape::Text, Shape::Text) => true,
        (Shape::Bin, Shape::Bin) => true,
        (Shape::Enum(texts), Shape::Enum(others)) => same_names(texts.items(), others.items()),
        _ => false,
    }
}

fn same_shapes(shape: Option<&Shape>, other: Option<&Shape>) -> bool
    ensures { result ≡ same_shapes (option_copied shape.entry) (option_copied other.entry) }
{
    match (shape, other) {
        (None, None) => true,
        (Some(shape), Some(other)) => same_shape(shape, other),
        _ => false,
    }
}

/// Whether the node refers to nothing, or to a leaf of an equal shape.
fn has_target(schema: &Schema, node: &Node) -> bool
    ensures { result ≡ has_target schema.now node.now.shape node.now.reference }
{
    let Some(names) = node.reference() else {
        return true;
    };
    match schema.find_names(names.items()) {
        None => false,
        Some(id) => {
            let target = schema.node(id);
            is_leaf(target.sort()) && same_shapes(node.shape(), target.shape())
        }
    }
}

fn node_fault(schema: &Schema, id: NodeId) -> Option<Cause>
    requires { id.0 < length schema.now }
    ensures { option_map (node_fault schema.now) (slice_get schema.now id.0) ≡ Some result }
{
    let node = schema.node(id);
    if !has_key_leaves(schema, id, node, node.keys().items()) {
        return Some(Cause::NoKey);
    }
    if !has_target(schema, node) {
        return Some(Cause::BadRef);
    }
    None
}

/// The fault of the first node, in the order of the lines, that lacks a key or the leaf that it refers to.
pub(crate) fn first_fault(schema: &Schema, lines: &[u32]) -> Option<SchemaFault>
    ensures { result ≡ first_fault schema.now schema.now lines.now }
{
    for number in 0..schema.nodes() {
        let Some(line) = lines.get(number as usize) else {
            return None;
        };
        if let Some(cause) = node_fault(schema, NodeId(number)) {
            return Some(SchemaFault { line: *line, cause });
        }
    }
    None
}
