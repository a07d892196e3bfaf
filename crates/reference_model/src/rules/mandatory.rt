// Rule 4, mandatory: a mandatory leaf is present wherever some row is below the instance of its parent
// (RFC 7950 7.6.5).
ghost use Rattle.std.specs.Prelude.{◌≡◌, ◌≤◌, length, take, drop};
ghost use Rattle.std.specs.List.{list_all};
ghost use Rattle.base_kinds.specs.Valid.{stands_below, node_is_present, mandatory_present};
ghost use Rattle.base_kinds.specs.Ancestors.{ancestors, ancestors_from};

use crate::paths::{has_row, own_name, parent_names};
use crate::schema::{Node, has_names};
use base_kinds::{Elem, Row, Text};

pub(crate) fn mandatory_present(schema: &[Node], rows: &[Row]) -> bool
    ensures { result ≡ mandatory_present schema.now rows.now }
{
    match schema.split_first() {
        None => true,
        Some((node, others)) => node_is_present(rows, node) && mandatory_present(others, rows),
    }
}

fn node_is_present(rows: &[Row], node: &Node) -> bool
    ensures { result ≡ node_is_present rows.now node.now }
{
    !node.is_mandatory || stands_below_each(rows, node.names.items())
}

/// Whether the leaf with these names stands below each instance of its parent.
fn stands_below_each(rows: &[Row], names: &[Text]) -> bool
    ensures { result ≡ list_all
        (λ row. list_all (stands_below rows.now names.now) (ancestors row.path)) rows.now }
{
    stands_below_each_of(rows, names, rows)
}

/// The same of the instances that these rows stand below, among all rows.
fn stands_below_each_of(all: &[Row], names: &[Text], rows: &[Row]) -> bool
    ensures { result ≡ list_all
        (λ row. list_all (stands_below all.now names.now) (ancestors row.path)) rows.now }
{
    match rows.split_first() {
        None => true,
        Some((row, others)) => {
            stands_on(all, names, row.path.items(), 0) && stands_below_each_of(all, names, others)
        }
    }
}

/// The same of the instances that the path stands below, but for so many.
#[tactic(auto, using(crate::proofs::Children::parents_at, crate::proofs::Children::drop_end))]
fn stands_on(rows: &[Row], names: &[Text], path: &[Elem], n: usize) -> bool
    requires { n ≤ length path.now }
    ensures { let instances = ancestors_from (take n path.now) (drop n path.now) in
        result ≡ list_all (stands_below rows.now names.now) instances }
{
    n == path.len()
        || (stands_below(rows, names, &path[..n]) && stands_on(rows, names, path, n + 1))
}

fn stands_below(rows: &[Row], names: &[Text], instance: &[Elem]) -> bool
    ensures { result ≡ stands_below rows.now names.now instance.now }
{
    !has_names(instance, parent_names(names)) || has_row(rows, instance, own_name(names))
}
