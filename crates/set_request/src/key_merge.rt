// Key leaves among the rows of a value.
ghost use Rattle.std.specs.Prelude.{◌≡◌, ◌<◌, ◌≤◌, length, set, IfOk, IfErr, OnOk};
ghost use Rattle.std.specs.List.{list_all, insert};
ghost use Rattle.std.specs.Option.{option_copied};
ghost use Rattle.base_kinds.specs.Tree.{set_row, set_rows};
ghost use Rattle.base_kinds.specs.Valid.{unless_none};
ghost use Rattle.base_kinds.specs.Values.{same_scalar as equal_values};
ghost use Rattle.base_kinds.specs.Rising.{value_at};
ghost use Rattle.set_request.specs.Operations.{key_leaves_agree};

use base_kinds::{Copied, NoMemory, Path, Row, Rows, Seq, Value};
use path_core::{cmp_paths, same_path};
use std::alloc::Global;
use std::cmp::Ordering;
use value_core::same_scalar;

/// Whether the rows have no other value at a key leaf than the path's key spells.
pub(crate) fn key_leaves_agree(keys: &[Row], rows: &[Row]) -> bool
    ensures { result ≡ key_leaves_agree keys.now rows.now }
{
    keys.iter().all(|key| key_leaf_agrees(key, rows))
}

fn key_leaf_agrees(key: &Row, rows: &[Row]) -> bool
    ensures { result ≡ unless_none (value_at key.now.path rows.now) (equal_values key.now.value) }
{
    match value_at(&key.path, rows) {
        None => true,
        Some(value) => same_scalar(&key.value, value),
    }
}

/// The value of the first row that has the path.
fn value_at<'a>(path: &Path, rows: &'a [Row]) -> Option<&'a Value>
    ensures { option_copied result ≡ value_at path.now rows.now }
{
    for row in rows {
        if same_path(row.path.items(), path.items()) {
            return Some(&row.value);
        }
    }
    None
}

/// The rows with the keys' values at the keys' paths.
pub(crate) fn with_keys(alloc: Global, rows: Rows, keys: &[Row]) -> Result<Rows, NoMemory>
    ensures { IfOk result (λ all. all ≡ set_rows keys.now rows) }
{
    let mut stored = rows.into_vec();
    for key in keys {
        put_row(alloc, &mut stored, key)?;
    }
    Ok(Seq::from_vec(stored))
}

/// Where the row's path stands among the rows, or else the gap where the row belongs.
#[tactic(auto, using(crate::proofs::Placing::in_place, crate::proofs::Placing::before, crate::proofs::Placing::behind))]
fn place_of(rows: &[Row], row: &Row) -> Result<usize, usize>
    ensures within { IfOk result (λ place. place < length rows.now) }
    ensures there { IfOk result (λ place. set rows.now place row.now ≡ set_row row.now rows.now) }
    ensures inside { IfErr result (λ gap. gap ≤ length rows.now) }
    ensures gap { IfErr result (λ gap. insert rows.now gap row.now ≡ set_row row.now rows.now) }
{
    for i in 0..rows.len() {
        match cmp_paths(&rows[i].path, &row.path) {
            Ordering::Less => {}
            Ordering::Equal => return Ok(i),
            Ordering::Greater => return Err(i),
        }
    }
    Err(rows.len())
}

/// Sets the row's value at its path. Rows rise by path.
fn put_row(alloc: Global, rows: &mut Vec<Row>, row: &Row) -> Result<(), NoMemory>
    ensures { OnOk result (rows.new.items ≡ set_row row.now rows.old.items) }
{
    let copy = row.copy(alloc)?;
    match place_of(rows.as_slice(), row) {
        Ok(place) => drop(std::mem::replace(&mut rows[place], copy)),
        Err(gap) => rows.insert(gap, copy)?,
    }
    Ok(())
}
