// Rule 1, data nodes: each row is an instance of a leaf or a leaf-list of the schema, and each element of its path has
// just the keys of its node (RFC 7950 3, "data node"; 7.8.2).
ghost use Rattle.std.specs.Prelude.{◌≡◌, ◌≤◌, length, take, drop};
ghost use Rattle.std.specs.List.{list_any, list_all};
ghost use Rattle.std.specs.Str.{bytes_eq};
ghost use Rattle.base_kinds.specs.Valid.{is_leafy, has_just_keys, step_has_node, row_has_nodes, nodes_exist};
ghost use Rattle.base_kinds.specs.Ancestors.{path_steps_from};

use crate::matching::is_text;
use crate::paths::elem_at;
use crate::schema::{Node, node_at};
use base_kinds::{Elem, Row, Sort, Text};

pub(crate) fn nodes_exist(schema: &[Node], rows: &[Row]) -> bool
    ensures { result ≡ nodes_exist schema.now rows.now }
{
    match rows.split_first() {
        None => true,
        Some((row, others)) => row_has_nodes(schema, row) && nodes_exist(schema, others),
    }
}

fn row_has_nodes(schema: &[Node], row: &Row) -> bool
    ensures { result ≡ row_has_nodes schema.now row.now }
{
    match node_at(schema, row.path.items()) {
        None => false,
        Some(node) => is_leafy(node.sort) && steps_known(schema, row.path.items(), 0),
    }
}

fn is_leafy(sort: Sort) -> bool
    ensures { result ≡ is_leafy sort }
{
    match sort {
        Sort::Leaf | Sort::LeafList => true,
        Sort::Container | Sort::List => false,
    }
}

/// Whether the steps of the path are known, but for so many.
#[tactic(auto, using(crate::proofs::Children::drop_end))]
fn steps_known(schema: &[Node], path: &[Elem], n: usize) -> bool
    requires { n ≤ length path.now }
    ensures { let steps = path_steps_from (take n path.now) (drop n path.now) in
        result ≡ list_all (step_has_node schema.now) steps }
{
    if n == path.len() {
        return true;
    }
    let elem = elem_at(path, n);
    step_has_node(schema, &path[..n + 1], elem) && steps_known(schema, path, n + 1)
}

fn step_has_node(schema: &[Node], front: &[Elem], elem: &Elem) -> bool
    ensures { result ≡ step_has_node schema.now (front.now, elem.now) }
{
    match node_at(schema, front) {
        None => false,
        Some(node) => has_just_keys(elem, node.keys.items()),
    }
}

fn has_just_keys(elem: &Elem, keys: &[Text]) -> bool
    ensures { result ≡ has_just_keys elem.now keys.now }
{
    elem.keys.len() == keys.len() && has_keys(elem, keys)
}

fn has_keys(elem: &Elem, keys: &[Text]) -> bool
    ensures { result
        ≡ list_all (λ key. list_any (λ pair. bytes_eq key pair.0) elem.now.keys) keys.now }
{
    match keys.split_first() {
        None => true,
        Some((key, others)) => has_key(elem.keys.items(), key) && has_keys(elem, others),
    }
}

fn has_key(pairs: &[(Text, Text)], key: &Text) -> bool
    ensures { result ≡ list_any (λ pair. bytes_eq key.now pair.0) pairs.now }
{
    match pairs.split_first() {
        None => false,
        Some((pair, others)) => is_text(key, pair.0.octets()) || has_key(others, key),
    }
}
