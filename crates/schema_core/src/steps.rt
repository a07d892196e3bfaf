// Paths of data nodes: each element has a node of the schema, and just its keys (RFC 7950 7.8.2).
ghost use Rattle.std.specs.Prelude.{◌≡◌, ◌<◌, ◌∷◌, ◌++◌, [], length, is_some, IfSome};
ghost use Rattle.std.specs.List.{list_all};
ghost use Rattle.std.specs.Option.{ForSome};
ghost use Rattle.base_kinds.specs.Ancestors.{path_steps};
ghost use Rattle.base_kinds.specs.Schema.{node_of};
ghost use Rattle.base_kinds.specs.Valid.{if_some, has_just_keys, step_has_node};
ghost use Rattle.schema_core.specs.Nodes.{names_at, names_above};

use crate::names::has_just_keys;
use crate::node::NodeId;
use crate::schema::Schema;
use base_kinds::Elem;

/// The node of an element right below a node, or below the root, where the element has just its keys.
fn known_child(schema: &Schema, above: Option<NodeId>, elem: &Elem) -> Option<NodeId>
    requires { ForSome above (λ id. id.0 < length schema.now) }
    ensures known { let names = names_above schema.now above ++ elem.now.name ∷ [] in
        is_some result
        ≡ if_some (node_of schema.now names) (λ node. has_just_keys elem.now node.keys) }
    ensures within { IfSome result (λ id. id.0 < length schema.now) }
    ensures named { let names = names_above schema.now above ++ elem.now.name ∷ [] in
        IfSome result (λ id. names_at schema.now id.0 ≡ names) }
{
    let id = schema.child_of(above, elem.name.octets())?;
    if has_just_keys(elem, schema.keys_of(id).items()) {
        Some(id)
    } else {
        None
    }
}

/// Whether each element of the path has just its node's keys. The nodes are found from the root down, each below the one
/// before. Takes no memory.
pub fn steps_have_nodes(schema: &Schema, path: &[Elem]) -> bool
    ensures { result ≡ list_all (step_has_node schema.now) (path_steps path.now) }
{
    let mut above = None;
    for elem in path {
        match known_child(schema, above, elem) {
            None => return false,
            Some(id) => above = Some(id),
        }
    }
    true
}
