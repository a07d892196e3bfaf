// Rule 6, max-elements: no list has more entries in one instance of its parent, and no leaf-list more values, than its
// maximum (RFC 7950 7.7.6).
ghost use Rattle.std.specs.Prelude.{◌≡◌, ◌++◌, ◌∷◌, [], ◌||◌, not, IfOk, OnOk, filter, length, nat_le};
ghost use Rattle.std.specs.List.{list_any, list_all, flat_map};
ghost use Rattle.base_kinds.specs.Schema.{names_of, same_names};
ghost use Rattle.base_kinds.specs.Values.{values_in};
ghost use Rattle.base_kinds.specs.Valid.{each_once, entries_of, few_beside, few_values, is_in_maximum, node_in_maximum, max_elements_hold};
ghost use Rattle.base_kinds.specs.Paths.{same_path};
ghost use Rattle.base_kinds.specs.Ancestors.{ancestors, ancestors_from, parent_of};

use crate::paths::{parent_of, same_path};
use crate::schema::{Node, has_names};
use crate::values::values_in;
use base_kinds::{Copied, Elem, NoMemory, Path, Paths, Row, Seq, Sort, Text};
use std::alloc::Global;

pub(crate) fn max_elements_hold(
    alloc: Global,
    schema: &[Node],
    rows: &[Row],
) -> Result<bool, NoMemory>
    ensures { IfOk result (λ is. is ≡ max_elements_hold schema.now rows.now) }
{
    let Some((node, others)) = schema.split_first() else {
        return Ok(true);
    };
    if !node_in_maximum(alloc, rows, node)? {
        return Ok(false);
    }
    max_elements_hold(alloc, others, rows)
}

fn node_in_maximum(alloc: Global, rows: &[Row], node: &Node) -> Result<bool, NoMemory>
    ensures { IfOk result (λ is. is ≡ node_in_maximum rows.now node.now) }
{
    match node.maximum {
        None => Ok(true),
        Some(most) => is_in_maximum(alloc, node.sort, node.names.items(), rows, most),
    }
}

fn is_in_maximum(
    alloc: Global,
    sort: Sort,
    names: &[Text],
    rows: &[Row],
    most: u32,
) -> Result<bool, NoMemory>
    ensures { IfOk result (λ is. is ≡ is_in_maximum sort names.now rows.now most) }
{
    match sort {
        Sort::List => {
            let entries = entries_of(alloc, rows, names)?;
            let is_few = few_beside(most, entries.items());
            drop(entries);
            Ok(is_few)
        }
        Sort::LeafList => Ok(few_values(most, rows, names)),
        Sort::Container | Sort::Leaf => Ok(true),
    }
}

fn few_values(most: u32, rows: &[Row], names: &[Text]) -> bool
    ensures { result ≡ few_values most rows.now names.now }
{
    match rows.split_first() {
        None => true,
        Some((row, others)) => row_in_maximum(most, row, names) && few_values(most, others, names),
    }
}

/// Whether a row of the leaf-list with these names has so many values at most.
fn row_in_maximum(most: u32, row: &Row, names: &[Text]) -> bool
    ensures { result ≡ (not (same_names (names_of row.now.path) names.now)
        || nat_le (length (values_in row.now.value)) most) }
{
    !has_names(row.path.items(), names) || values_in(&row.value).len() <= most as usize
}

/// Whether so many of the paths at most have the same path above them.
fn few_beside(most: u32, paths: &[Path]) -> bool
    ensures { result ≡ few_beside most paths.now }
{
    few_beside_each(most, paths, paths)
}

/// Whether that holds beside each of these paths, among all.
fn few_beside_each(most: u32, all: &[Path], paths: &[Path]) -> bool
    ensures { result ≡ list_all (λ path. nat_le (length (filter
        (λ other. same_path (parent_of other) (parent_of path)) all.now)) most) paths.now }
{
    match paths.split_first() {
        None => true,
        Some((path, others)) => {
            few_beside_path(most, all, path) && few_beside_each(most, all, others)
        }
    }
}

/// Whether so many of the paths at most have the same path above them as this one.
fn few_beside_path(most: u32, paths: &[Path], path: &Path) -> bool
    ensures { let beside = filter
        (λ other. same_path (parent_of other) (parent_of path.now)) paths.now in
        result ≡ nat_le (length beside) most }
{
    few_below(most, parent_of(path.items()), paths)
}

/// Whether so many of the paths at most have this path above them.
fn few_below(most: u32, parent: &[Elem], paths: &[Path]) -> bool
    ensures { let beside = filter (λ other. same_path (parent_of other) parent.now) paths.now in
        result ≡ nat_le (length beside) most }
{
    match paths.split_first() {
        None => true,
        Some((path, others)) => {
            if !same_path(parent_of(path.items()), parent) {
                return few_below(most, parent, others);
            }
            most > 0 && few_below(most - 1, parent, others)
        }
    }
}

/// The entries of the lists with these names: the instances that some row stands below, each once.
fn entries_of(alloc: Global, rows: &[Row], names: &[Text]) -> Result<Paths, NoMemory>
    ensures { IfOk result (λ entries. entries ≡ entries_of rows.now names.now) }
{
    let mut instances = Seq::empty(alloc);
    let mut named = Seq::empty(alloc);
    let mut entries = Seq::empty(alloc);
    let put = put_entries(alloc, rows, names, &mut instances, &mut named, &mut entries);
    drop(instances);
    drop(named);
    match put {
        Ok(()) => Ok(entries),
        Err(NoMemory) => {
            drop(entries);
            Err(NoMemory)
        }
    }
}

/// Adds the instances that some row stands below, those with these names, and each of these once.
fn put_entries(
    alloc: Global,
    rows: &[Row],
    names: &[Text],
    instances: &mut Paths,
    named: &mut Paths,
    entries: &mut Paths,
) -> Result<(), NoMemory>
    requires instances { instances.old ≡ [] }
    requires named { named.old ≡ [] }
    requires entries { entries.old ≡ [] }
    ensures { OnOk result (entries.new ≡ entries_of rows.now names.now) }
{
    put_instances(alloc, rows, instances)?;
    put_named(alloc, names, instances.items(), named)?;
    put_once(alloc, named.items(), entries)
}

fn put_instances(alloc: Global, rows: &[Row], found: &mut Paths) -> Result<(), NoMemory>
    ensures { OnOk result (found.new ≡ found.old ++ flat_map (λ row. ancestors row.path) rows.now) }
{
    let Some((row, others)) = rows.split_first() else {
        return Ok(());
    };
    put_parents(alloc, Seq::empty(alloc), row.path.items(), found)?;
    put_instances(alloc, others, found)
}

/// Adds the fronts of a path that are shorter than it, where this much stands before the rest of it.
fn put_parents(
    alloc: Global,
    front: Path,
    elems: &[Elem],
    found: &mut Paths,
) -> Result<(), NoMemory>
    ensures { OnOk result (found.new ≡ found.old ++ ancestors_from front elems.now) }
{
    let Some((elem, others)) = elems.split_first() else {
        drop(front);
        return Ok(());
    };
    match longer_path(alloc, &front, elem) {
        Ok(longer) => match found.push(front) {
            Ok(()) => put_parents(alloc, longer, others, found),
            Err(NoMemory) => {
                drop(longer);
                Err(NoMemory)
            }
        },
        Err(NoMemory) => {
            drop(front);
            Err(NoMemory)
        }
    }
}

/// The path, and the element behind it.
fn longer_path(alloc: Global, path: &Path, elem: &Elem) -> Result<Path, NoMemory>
    ensures { IfOk result (λ longer. longer ≡ path.now ++ elem.now ∷ []) }
{
    let mut longer = path.copy(alloc)?;
    match longer.push_copy(alloc, elem) {
        Ok(()) => Ok(longer),
        Err(NoMemory) => {
            drop(longer);
            Err(NoMemory)
        }
    }
}

/// Adds the instances with these names.
fn put_named(
    alloc: Global,
    names: &[Text],
    instances: &[Path],
    found: &mut Paths,
) -> Result<(), NoMemory>
    ensures { OnOk result (found.new ≡ found.old
        ++ filter (λ instance. same_names (names_of instance) names.now) instances.now) }
{
    let Some((instance, others)) = instances.split_first() else {
        return Ok(());
    };
    if has_names(instance.items(), names) {
        found.push_copy(alloc, instance)?;
    }
    put_named(alloc, names, others, found)
}

/// Adds the paths that don't come again.
fn put_once(alloc: Global, paths: &[Path], found: &mut Paths) -> Result<(), NoMemory>
    ensures { OnOk result (found.new ≡ found.old ++ each_once paths.now) }
{
    let Some((path, others)) = paths.split_first() else {
        return Ok(());
    };
    if !is_among(path, others) {
        found.push_copy(alloc, path)?;
    }
    put_once(alloc, others, found)
}

fn is_among(path: &Path, paths: &[Path]) -> bool
    ensures { result ≡ list_any (same_path path.now) paths.now }
{
    match paths.split_first() {
        None => false,
        Some((other, others)) => {
            same_path(path.items(), other.items()) || is_among(path, others)
        }
    }
}
