// Instances: a path, the one above it, and the leaf below it.
ghost use Rattle.std.specs.Prelude.{◌≡◌, ◌+◌, ◌<◌, [], ◌∷◌, length, take, drop};
ghost use Rattle.std.specs.Ordering.{is_eq};
ghost use Rattle.base_kinds.specs.Paths.{elem_cmp, same_path};
ghost use Rattle.base_kinds.specs.Valid.{has_row};
ghost use Rattle.base_kinds.specs.Ancestors.{path_steps_from, child, parent_of, parent_names, own_name};

use base_kinds::{Elem, Row, Text};
use std::cmp::Ordering;

pub(crate) fn same_path(a: &[Elem], b: &[Elem]) -> bool
    ensures { result ≡ same_path a.now b.now }
{
    match a.cmp(&b) {
        Ordering::Equal => true,
        Ordering::Less | Ordering::Greater => false,
    }
}

/// Whether the path is that of the leaf with this name below the instance.
#[tactic(auto, using(crate::proofs::Children::child_none))]
pub(crate) fn is_child(path: &[Elem], parent: &[Elem], name: &[u8]) -> bool
    ensures { result ≡ same_path path.now (child parent.now name.now) }
{
    match path.split_last() {
        None => false,
        Some((elem, front)) => same_path(front, parent) && is_leaf(elem, name),
    }
}

/// Whether the element has this name and no keys.
#[tactic(auto, using(crate::proofs::Children::elem_is))]
fn is_leaf(elem: &Elem, name: &[u8]) -> bool
    ensures { result ≡ is_eq (elem_cmp elem.now (record { name = name.now; keys = [] })) }
{
    elem.name.octets() == name && elem.keys.len() == 0
}

/// The element behind so many others, which ends a step.
#[tactic(auto, using(crate::proofs::Children::steps_at))]
pub(crate) fn elem_at(path: &[Elem], n: usize) -> &Elem
    requires { n < length path.now }
    ensures { path_steps_from (take n path.now) (drop n path.now)
        ≡ (take (n + 1) path.now, result.now)
        ∷ path_steps_from (take (n + 1) path.now) (drop (n + 1) path.now) }
{
    &path[n]
}

/// The path without its last element.
#[tactic(auto, using(crate::proofs::Children::above_last, crate::proofs::Children::above_none))]
pub(crate) fn parent_of(path: &[Elem]) -> &[Elem]
    ensures { result.now ≡ parent_of path.now }
{
    match path.split_last() {
        None => path,
        Some((_, front)) => front,
    }
}

/// The names of a node's parent.
#[tactic(auto, using(crate::proofs::Children::parent_last, crate::proofs::Children::parent_none))]
pub(crate) fn parent_names(names: &[Text]) -> &[Text]
    ensures { result.now ≡ parent_names names.now }
{
    match names.split_last() {
        None => names,
        Some((_, front)) => front,
    }
}

/// The name of the node itself.
#[tactic(auto, using(crate::proofs::Children::own_last))]
pub(crate) fn own_name(names: &[Text]) -> &[u8]
    ensures { result.now ≡ own_name names.now }
{
    match names.split_last() {
        None => &[],
        Some((name, _)) => name.octets(),
    }
}

pub(crate) fn has_row(rows: &[Row], parent: &[Elem], name: &[u8]) -> bool
    ensures { result ≡ has_row rows.now (child parent.now name.now) }
{
    match rows.split_first() {
        None => false,
        Some((row, others)) => {
            is_child(row.path.items(), parent, name) || has_row(others, parent, name)
        }
    }
}
