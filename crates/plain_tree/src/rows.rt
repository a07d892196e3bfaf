// Changes of a list of rows, and what a tree's operations ask of it.
ghost use Rattle.std.specs.Prelude.{◌≡◌, ◌<◌, [], ◌∷◌, ◌++◌, length, slice_index_or, IfOk, IfErr, OnOk};
ghost use Rattle.base_kinds.specs.Paths.{path_cmp};
ghost use Rattle.base_kinds.specs.Parts.{is_covered, part};
ghost use Rattle.base_kinds.specs.Tree.{set_row, set_rows, uncovered};
ghost use Rattle.base_kinds.specs.Rising.{IsRising};
ghost use Rattle.plain_tree.specs.inner.Places.{IsGap};

use base_kinds::{Copied, NoMemory, Path, Paths, Row};
use path_core::{cmp_paths, covers};
use std::alloc::Global;
use std::cmp::Ordering;

pub fn copies(alloc: Global, rows: &[Row]) -> Result<Vec<Row>, NoMemory>
    ensures { IfOk result (λ copies. copies.items ≡ rows.now) }
{
    let mut copies = Vec::with_capacity(alloc, rows.len())?;
    match put_copies(alloc, rows, &mut copies) {
        Ok(()) => Ok(copies),
        Err(NoMemory) => {
            drop(copies);
            Err(NoMemory)
        }
    }
}

fn put_copies(alloc: Global, rows: &[Row], copies: &mut Vec<Row>) -> Result<(), NoMemory>
    requires { copies.old.items ≡ [] }
    ensures { OnOk result (copies.new.items ≡ rows.now) }
{
    for row in rows {
        put_copy(alloc, row, copies)?;
    }
    Ok(())
}

/// Adds a copy of the row.
fn put_copy(alloc: Global, row: &Row, copies: &mut Vec<Row>) -> Result<(), NoMemory>
    ensures { OnOk result (copies.new.items ≡ copies.old.items ++ row.now ∷ []) }
{
    match row.copy(alloc) {
        Ok(copy) => {
            copies.push(copy)?;
            Ok(())
        }
        Err(NoMemory) => Err(NoMemory),
    }
}

/// Copies of the rows that some pattern covers.
pub fn covered(alloc: Global, rows: &[Row], patterns: &Paths) -> Result<Vec<Row>, NoMemory>
    ensures { IfOk result (λ found. found.items ≡ part patterns.now rows.now) }
{
    let mut found = Vec::new(alloc);
    match put_covered(alloc, rows, patterns, &mut found) {
        Ok(()) => Ok(found),
        Err(NoMemory) => {
            drop(found);
            Err(NoMemory)
        }
    }
}

#[tactic(auto, using(crate::proofs::Chosen::part_with, crate::proofs::Chosen::part_without))]
fn put_covered(
    alloc: Global,
    rows: &[Row],
    patterns: &Paths,
    found: &mut Vec<Row>,
) -> Result<(), NoMemory>
    requires { found.old.items ≡ [] }
    ensures { OnOk result (found.new.items ≡ part patterns.now rows.now) }
{
    for row in rows {
        if is_covered(patterns.items(), &row.path) {
            put_copy(alloc, row, found)?;
        }
    }
    Ok(())
}

fn is_covered(patterns: &[Path], path: &Path) -> bool
    ensures { result ≡ is_covered patterns.now path.now }
{
    for pattern in patterns {
        if covers(pattern, path) {
            return true;
        }
    }
    false
}

/// Removes the rows that the pattern covers.
pub fn remove_covered(tree: &mut Vec<Row>, pattern: &Path)
    requires { IsRising tree.old.items }
    ensures rows { tree.new.items ≡ uncovered pattern.now tree.old.items }
    ensures rising { IsRising tree.new.items }
{
    tree.retain(|row| !covers(pattern, &row.path));
}

/// Sets each row, in order. After want of memory the first of them are set.
pub fn put_rows(alloc: Global, tree: &mut Vec<Row>, rows: &[Row]) -> Result<(), NoMemory>
    requires { IsRising tree.old.items }
    ensures rows { OnOk result (tree.new.items ≡ set_rows rows.now tree.old.items) }
    ensures rising { IsRising tree.new.items }
{
    for row in rows {
        put_row(alloc, tree, row)?;
    }
    Ok(())
}

#[tactic(auto, using(crate::proofs::Placing::set_there, crate::proofs::Placing::set_in_gap, crate::proofs::Placing::rising_there, crate::proofs::Placing::rising_in_gap))]
fn put_row(alloc: Global, tree: &mut Vec<Row>, row: &Row) -> Result<(), NoMemory>
    requires { IsRising tree.old.items }
    ensures row { OnOk result (tree.new.items ≡ set_row row.now tree.old.items) }
    ensures rising { IsRising tree.new.items }
{
    let copy = row.copy(alloc)?;
    match place_of(tree, row) {
        Ok(place) => {
            drop(std::mem::replace(&mut tree[place], copy));
            Ok(())
        }
        Err(gap) => {
            tree.insert(gap, copy)?;
            Ok(())
        }
    }
}

/// Where the row of the same path stands, or else the gap where the row belongs.
#[tactic(auto, using(crate::proofs::Gaps::whole, crate::proofs::Gaps::before_middle, crate::proofs::Gaps::behind_middle))]
fn place_of(rows: &[Row], row: &Row) -> Result<usize, usize>
    requires { IsRising rows.now }
    ensures inside { IfOk result (λ place. place < length rows.now) }
    ensures there { IfOk result (λ place.
        path_cmp (slice_index_or rows.now place row.now).path row.now.path ≡ Ordering.Equal) }
    ensures gap { IfErr result (λ gap. IsGap row.now rows.now gap gap) }
{
    let (mut low, mut high) = (0, rows.len());
    while low < high {
        let middle = low + (high - low) / 2;
        match cmp_paths(&rows[middle].path, &row.path) {
            Ordering::Equal => return Ok(middle),
            Ordering::Less => low = middle + 1,
            Ordering::Greater => high = middle,
        }
    }
    Err(low)
}
