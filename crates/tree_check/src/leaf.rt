// The leaf below an instance, found among rows that rise by path.
ghost use Rattle.std.specs.Prelude.{◌≡◌, []};
ghost use Rattle.std.specs.List.{find};
ghost use Rattle.std.specs.Option.{option_copied};
ghost use Rattle.base_kinds.specs.Rising.{IsRising};
ghost use Rattle.base_kinds.specs.Paths.{elem_cmp, path_cmp, same_path};
ghost use Rattle.base_kinds.specs.Ancestors.{child};

use base_kinds::{Elem, Row};
use std::cmp::Ordering;

/// The row of the leaf with this name below the instance. Takes no memory, and compares as often as the logarithm of
/// the number of rows says.
pub fn find_leaf<'a>(rows: &'a [Row], instance: &[Elem], name: &[u8]) -> Option<&'a Row>
    requires { IsRising rows.now }
    ensures { option_copied result
        ≡ find (λ row. same_path row.path (child instance.now name.now)) rows.now }
{
    match rows.binary_search_by(|row| compare_child(row.path.items(), instance, name)) {
        Ok(place) => Some(&rows[place]),
        Err(_) => None,
    }
}

/// How the path compares with that of the leaf with this name below the instance.
#[tactic(auto, using(crate::proofs::Leaves::leaf_of_root))]
fn compare_child(path: &[Elem], instance: &[Elem], name: &[u8]) -> Ordering
    ensures { result ≡ path_cmp path.now (child instance.now name.now) }
{
    let Some((elem, others)) = path.split_first() else {
        return Ordering::Less;
    };
    let Some((first, rest)) = instance.split_first() else {
        return compare_leaf(elem, name).then(others.len().cmp(&0));
    };
    match elem.cmp(first) {
        Ordering::Equal => compare_child(others, rest, name),
        order => order,
    }
}

/// How the element compares with that of the leaf with this name.
#[tactic(auto, using(crate::proofs::Leaves::above_none))]
fn compare_leaf(elem: &Elem, name: &[u8]) -> Ordering
    ensures { result ≡ elem_cmp elem.now (record { name = name.now; keys = [] }) }
{
    elem.name.octets().cmp(&name).then(elem.keys.len().cmp(&0))
}
