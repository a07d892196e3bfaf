// Rule 3, list keys: each entry of a list has its key leaves as rows, and their key texts are the keys of its element
// (RFC 7950 7.8.2: all key leaves must be given values when an entry is created).
ghost use Rattle.std.specs.Prelude.{◌≡◌, ◌≤◌, length, take, drop, IfOk};
ghost use Rattle.std.specs.List.{list_all};
ghost use Rattle.std.specs.Str.{bytes_eq};
ghost use Rattle.base_kinds.specs.Keys.{key_text};
ghost use Rattle.base_kinds.specs.Valid.{has_key_leaf, row_has_keys, keys_hold};
ghost use Rattle.base_kinds.specs.Ancestors.{path_steps_from};

use crate::key_texts::key_text;
use crate::paths::{elem_at, is_child};
use base_kinds::{Elem, NoMemory, Row, Text, Value};
use std::alloc::Global;

pub(crate) fn keys_hold(alloc: Global, rows: &[Row]) -> Result<bool, NoMemory>
    ensures { IfOk result (λ is. is ≡ keys_hold rows.now) }
{
    are_keyed(alloc, rows, rows)
}

/// Whether each of these rows is keyed among all rows.
fn are_keyed(alloc: Global, all: &[Row], rows: &[Row]) -> Result<bool, NoMemory>
    ensures { IfOk result (λ is. is ≡ list_all (row_has_keys all.now) rows.now) }
{
    let Some((row, others)) = rows.split_first() else {
        return Ok(true);
    };
    if !steps_keyed(alloc, all, row.path.items(), 0)? {
        return Ok(false);
    }
    are_keyed(alloc, all, others)
}

/// Whether the keys of the path's steps have their leaves, but for so many steps.
#[tactic(auto, using(crate::proofs::Children::drop_end))]
fn steps_keyed(alloc: Global, rows: &[Row], path: &[Elem], n: usize) -> Result<bool, NoMemory>
    requires { n ≤ length path.now }
    ensures { let others = path_steps_from (take n path.now) (drop n path.now) in
        IfOk result (λ is. is
        ≡ list_all (λ step. list_all (has_key_leaf rows.now step.0) step.1.keys) others) }
{
    if n == path.len() {
        return Ok(true);
    }
    let elem = elem_at(path, n);
    if !have_key_leaves(alloc, rows, &path[..n + 1], elem.keys.items())? {
        return Ok(false);
    }
    steps_keyed(alloc, rows, path, n + 1)
}

fn have_key_leaves(
    alloc: Global,
    rows: &[Row],
    instance: &[Elem],
    keys: &[(Text, Text)],
) -> Result<bool, NoMemory>
    ensures { IfOk result (λ is. is ≡ list_all (has_key_leaf rows.now instance.now) keys.now) }
{
    let Some((key, others)) = keys.split_first() else {
        return Ok(true);
    };
    if !has_key_leaf(alloc, rows, instance, key)? {
        return Ok(false);
    }
    have_key_leaves(alloc, rows, instance, others)
}

/// Whether some row is the key's leaf below the instance, and has the key's text.
fn has_key_leaf(
    alloc: Global,
    rows: &[Row],
    instance: &[Elem],
    key: &(Text, Text),
) -> Result<bool, NoMemory>
    ensures { IfOk result (λ is. is ≡ has_key_leaf rows.now instance.now key.now) }
{
    let Some((row, others)) = rows.split_first() else {
        return Ok(false);
    };
    if is_child(row.path.items(), instance, key.0.octets())
        && has_key_text(alloc, &row.value, key.1.octets())?
    {
        return Ok(true);
    }
    has_key_leaf(alloc, others, instance, key)
}

/// Whether the value's text as a key is this one.
fn has_key_text(alloc: Global, value: &Value, octets: &[u8]) -> Result<bool, NoMemory>
    ensures { IfOk result (λ is. is ≡ bytes_eq (key_text value.now) octets.now) }
{
    let text = key_text(alloc, value)?;
    let is_same = text.items() == octets;
    drop(text);
    Ok(is_same)
}
