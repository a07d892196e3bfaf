// A schema as a list of its nodes, and the node of a path.
ghost use Rattle.std.specs.Prelude.{◌≡◌};
ghost use Rattle.std.specs.Option.{option_copied};
ghost use Rattle.base_kinds.specs.Schema.{names_of, same_names, node_at};

use crate::matching::is_text;
use base_kinds::{Elem, Shape, Sort, Text, Texts};
use std::marker::Model;

/// A data node of a schema: the names from the root to it, its sort, the shape of a leaf or a leaf-list, the names of a
/// list's keys, its module, whether a leaf is mandatory, the names of the leaf that it refers to, and how many entries
/// or values it may have (RFC 7950 4.2.2, 7.6.5, 7.7.6, 7.8.2, 9.9).
#[derive(Drop)]
pub struct Node {
    pub names: Texts,
    pub sort: Sort,
    pub shape: Option<Shape>,
    pub keys: Texts,
    pub module_name: Text,
    pub is_mandatory: bool,
    pub reference: Option<Texts>,
    pub maximum: Option<u32>,
}

impl Model for Node {
    ghost use Rattle.base_kinds.specs.Schema.{SchemaNode};

    ghost Value = { SchemaNode };

    ghost view = { λ n. record {
      names = n.names;
      sort = n.sort;
      shape = n.shape;
      keys = n.keys;
      module_name = n.module_name;
      is_mandatory = n.is_mandatory;
      reference = n.reference;
      maximum = n.maximum;
    } };
}

/// The node of the path, where the schema has one.
pub fn node_at<'a>(schema: &'a [Node], path: &[Elem]) -> Option<&'a Node>
    ensures { option_copied result ≡ node_at schema.now path.now }
{
    match schema.split_first() {
        None => None,
        Some((node, others)) => {
            if has_path(node.names.items(), path) {
                return Some(node);
            }
            node_at(others, path)
        }
    }
}

/// Whether the names are those of the path's elements.
fn has_path(names: &[Text], path: &[Elem]) -> bool
    ensures { result ≡ same_names names.now (names_of path.now) }
{
    let Some((name, others)) = names.split_first() else {
        return path.is_empty();
    };
    match path.split_first() {
        None => false,
        Some((elem, elems)) => { is_text(name, elem.name.octets()) && has_path(others, elems) }
    }
}

/// Whether the path's elements have these names.
pub(crate) fn has_names(path: &[Elem], names: &[Text]) -> bool
    ensures { result ≡ same_names (names_of path.now) names.now }
{
    let Some((elem, elems)) = path.split_first() else {
        return names.is_empty();
    };
    match names.split_first() {
        None => false,
        Some((name, others)) => { is_text(&elem.name, name.octets()) && has_names(elems, others) }
    }
}
