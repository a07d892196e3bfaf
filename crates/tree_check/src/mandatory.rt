// Rule 4, mandatory: a mandatory leaf is present wherever some row is below the instance of its parent
// (RFC 7950 7.6.5).
ghost use Rattle.std.specs.Prelude.{◌≡◌, ◌<◌, length, take, true, IsTrue};
ghost use Rattle.std.specs.List.{list_all};
ghost use Rattle.base_kinds.specs.Rising.{IsRising};
ghost use Rattle.base_kinds.specs.Valid.{has_row, stands_below, node_is_present, mandatory_present};
ghost use Rattle.base_kinds.specs.Ancestors.{child, ancestors, parent_names};

use crate::leaf::find_leaf;
use crate::shared_prefix::shared_prefix_len;
use base_kinds::{Elem, Row, Text};
use schema_core::{Node, NodeId, Schema, has_names, own_name, parent_names};

/// Whether each mandatory leaf stands wherever some row is below the instance of its parent. Takes no memory.
#[tactic(auto, using(crate::proofs::RowFronts::one_fails, crate::proofs::RowFronts::one_passes))]
pub fn mandatory_present(schema: &Schema, rows: &[Row]) -> bool
    requires { IsRising rows.now }
    ensures { result ≡ mandatory_present schema.now rows.now }
{
    for number in 0..schema.nodes() {
        if !node_is_present(rows, schema.node(NodeId(number))) {
            return false;
        }
    }
    true
}

fn node_is_present(rows: &[Row], node: &Node) -> bool
    requires { IsRising rows.now }
    ensures { result ≡ node_is_present rows.now node.now }
{
    !node.is_mandatory() || stands_everywhere(rows, node.names().items())
}

/// Whether the leaf with these names stands below each instance of its parent.
fn stands_everywhere(rows: &[Row], names: &[Text]) -> bool
    requires { IsRising rows.now }
    ensures { result ≡ list_all
        (λ row. list_all (stands_below rows.now names.now) (ancestors row.path)) rows.now }
{
    let mut last: &[Elem] = &[];
    for row in rows {
        if !stands_along(rows, names, last, row) {
            return false;
        }
        last = row.path.items();
    }
    true
}

/// Whether it stands below each instance of its parent that the row is below, of which there is one at most: the front
/// of the row's path that is as long as the parent's names.
#[tactic(auto, using(crate::proofs::Instances::too_short, crate::proofs::Instances::just_there))]
fn stands_along(rows: &[Row], names: &[Text], last: &[Elem], row: &Row) -> bool
    requires rising { IsRising rows.now }
    requires passed { list_all (stands_below rows.now names.now) (ancestors last.now) ≡ true }
    ensures { result ≡ list_all (stands_below rows.now names.now) (ancestors row.now.path) }
{
    let path = row.path.items();
    path.len() <= parent_names(names).len() || stands_in_front(rows, names, last, path)
}

/// Whether it stands below that front. Below those of the last path it does, and so isn't looked for there again.
#[tactic(auto, using(crate::proofs::Instances::seen_there))]
fn stands_in_front(rows: &[Row], names: &[Text], last: &[Elem], path: &[Elem]) -> bool
    requires rising { IsRising rows.now }
    requires passed { list_all (stands_below rows.now names.now) (ancestors last.now) ≡ true }
    requires longer { length (parent_names names.now) < length path.now }
    ensures { let instance = take (length (parent_names names.now)) path.now in
        result ≡ stands_below rows.now names.now instance }
{
    let above = parent_names(names);
    let instance = &path[..above.len()];
    if !has_names(instance, above) || is_below_both(last, path, above.len()) {
        return true;
    }
    has_leaf(rows, instance, own_name(names))
}

/// Whether both paths are below the same front of so many elements.
#[tactic(auto, using(crate::proofs::Instances::front_same))]
fn is_below_both(last: &[Elem], path: &[Elem], depth: usize) -> bool
    ensures longer { IsTrue result → depth < length last.now }
    ensures same { IsTrue result → take depth last.now ≡ take depth path.now }
{
    depth < last.len() && depth <= shared_prefix_len(last, path)
}

fn has_leaf(rows: &[Row], instance: &[Elem], name: &[u8]) -> bool
    requires { IsRising rows.now }
    ensures { result ≡ has_row rows.now (child instance.now name.now) }
{
    find_leaf(rows, instance, name).is_some()
}
