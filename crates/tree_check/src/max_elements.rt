// Rule 6, max-elements: no list has more entries in one instance of its parent, and no leaf-list more values, than its
// maximum (RFC 7950 7.7.6).
ghost use Rattle.std.specs.Prelude.{◌≡◌, ◌<◌, ◌≤◌, ◌+◌, ◌^◌, ◌||◌, not, length, nat_le};
ghost use Rattle.std.specs.List.{list_all};
ghost use Rattle.std.specs.Option.{option_copied};
ghost use Rattle.base_kinds.specs.Schema.{names_of, same_names};
ghost use Rattle.base_kinds.specs.Values.{values_in};
ghost use Rattle.base_kinds.specs.Valid.{entries_of, few_beside, few_values, is_in_maximum, node_in_maximum, max_elements_hold};
ghost use Rattle.base_kinds.specs.Ancestors.{parent_of};
ghost use Rattle.base_kinds.specs.Rising.{IsRising};
ghost use Rattle.tree_check.specs.inner.ListEntries.{entry_of, count_after};

use base_kinds::{Elem, Row, Sort, Text};
use path_core::same_path;
use schema_core::{Node, NodeId, Schema, has_names};

#[tactic(auto, using(crate::proofs::Nodes::fails_there, crate::proofs::Nodes::holds_so_far))]
pub(crate) fn max_elements_hold(schema: &Schema, rows: &[Row]) -> bool
    requires { IsRising rows.now }
    ensures { result ≡ max_elements_hold schema.now rows.now }
{
    for number in 0..schema.nodes() {
        if !node_in_maximum(rows, schema.node(NodeId(number))) {
            return false;
        }
    }
    true
}

/// Takes no time where the node has no maximum.
fn node_in_maximum(rows: &[Row], node: &Node) -> bool
    requires { IsRising rows.now }
    ensures { result ≡ node_in_maximum rows.now node.now }
{
    match node.maximum() {
        None => true,
        Some(most) => is_in_maximum(rows, node.sort(), node.names().items(), most),
    }
}

fn is_in_maximum(rows: &[Row], sort: Sort, names: &[Text], most: u32) -> bool
    requires { IsRising rows.now }
    ensures { result ≡ is_in_maximum sort names.now rows.now most }
{
    match sort {
        Sort::List => few_entries(rows, names, most),
        Sort::LeafList => few_values(rows, names, most),
        Sort::Container | Sort::Leaf => true,
    }
}

fn few_values(rows: &[Row], names: &[Text], most: u32) -> bool
    ensures { result ≡ few_values most rows.now names.now }
{
    for row in rows {
        if !row_in_maximum(row, names, most) {
            return false;
        }
    }
    true
}

/// Whether the row has so many values at most, where it is of the leaf-list with these names.
fn row_in_maximum(row: &Row, names: &[Text], most: u32) -> bool
    ensures { result ≡ (not (same_names (names_of row.now.path) names.now)
        || nat_le (length (values_in row.now.value)) most) }
{
    !has_names(row.path.items(), names) || row.value.values().len() <= most as usize
}

/// The entry of the list with these names that the path stands below.
fn entry_of<'a>(path: &'a [Elem], names: &[Text]) -> Option<&'a [Elem]>
    ensures { option_copied result ≡ entry_of names.now path.now }
{
    if names.len() < path.len() && has_names(&path[..names.len()], names) {
        Some(&path[..names.len()])
    } else {
        None
    }
}

/// Whether no instance of its parent has more than so many entries of the list. Along rows that rise by path the
/// entries of one instance stand together, and so do an entry's rows.
#[tactic(auto, using(crate::proofs::Runs::too_many))]
fn few_entries(rows: &[Row], names: &[Text], most: u32) -> bool
    requires { IsRising rows.now }
    ensures { result ≡ few_beside most (entries_of rows.now names.now) }
{
    let mut last: &[Elem] = &[];
    let mut count = 0;
    for row in rows {
        if let Some(entry) = entry_of(row.path.items(), names) {
            count = count_after(last, count, entry);
            if count > u64::from(most) {
                return false;
            }
            last = entry;
        }
    }
    true
}

/// How many entries the parent of the last entry has so far, where this one comes up.
fn count_after(last: &[Elem], count: u64, entry: &[Elem]) -> u64
    requires { count < 2 ^ 32 }
    ensures { result ≡ count_after last.now count entry.now }
{
    if count == 0 {
        return 1;
    }
    if same_path(last, entry) {
        return count;
    }
    if same_path(parent_of(last), parent_of(entry)) {
        count + 1
    } else {
        1
    }
}

/// The path without its last element.
#[tactic(auto, using(crate::proofs::Fronts::above_last, crate::proofs::Fronts::above_none))]
fn parent_of(path: &[Elem]) -> &[Elem]
    ensures { result.now ≡ parent_of path.now }
{
    match path.split_last() {
        None => path,
        Some((_, front)) => front,
    }
}
