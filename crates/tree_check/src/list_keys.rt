// Rule 3, list keys: each entry of a list has its key leaves as rows, and their key texts are the keys of its element
// (RFC 7950 7.8.2: all key leaves must be given values when an entry is created).
ghost use Rattle.std.specs.Prelude.{◌≡◌, ◌≤◌, length, take, drop, true, IfOk};
ghost use Rattle.std.specs.List.{list_all};
ghost use Rattle.std.specs.Str.{bytes_eq};
ghost use Rattle.base_kinds.specs.Rising.{IsRising};
ghost use Rattle.base_kinds.specs.Keys.{key_text};
ghost use Rattle.base_kinds.specs.Valid.{has_key_leaf, row_has_keys, keys_hold};
ghost use Rattle.base_kinds.specs.Ancestors.{path_steps, path_steps_from};

use crate::leaf::find_leaf;
use crate::shared_prefix::shared_prefix_len;
use base_kinds::{Elem, NoMemory, Row, Text, Value};
use std::alloc::Global;
use value_core::key_text;

/// Whether each element with keys has its key leaves among the rows, with the keys as their key texts. Takes memory for
/// one key text at a time.
pub fn keys_hold(alloc: Global, rows: &[Row]) -> Result<bool, NoMemory>
    requires { IsRising rows.now }
    ensures { IfOk result (λ is. is ≡ keys_hold rows.now) }
{
    let mut last: &[Elem] = &[];
    for row in rows {
        if !row_has_keys(alloc, rows, last, row)? {
            return Ok(false);
        }
        last = row.path.items();
    }
    Ok(true)
}

/// Whether the keys of the row's path have their leaves, where those of the last path have them.
fn row_has_keys(alloc: Global, rows: &[Row], last: &[Elem], row: &Row) -> Result<bool, NoMemory>
    requires rising { IsRising rows.now }
    requires passed { list_all (λ step. list_all (has_key_leaf rows.now step.0) step.1.keys)
        (path_steps last.now) ≡ true }
    ensures { IfOk result (λ is. is ≡ row_has_keys rows.now row.now) }
{
    let path = row.path.items();
    steps_have_keys(alloc, rows, path, shared_prefix_len(last, path))
}

/// Whether the keys of the path's elements have their leaves, but for those of so many elements at its beginning.
#[tactic(auto, using(crate::proofs::RowFronts::steps_at))]
fn steps_have_keys(
    alloc: Global,
    rows: &[Row],
    path: &[Elem],
    seen: usize,
) -> Result<bool, NoMemory>
    requires rising { IsRising rows.now }
    requires within { seen ≤ length path.now }
    ensures { let others = path_steps_from (take seen path.now) (drop seen path.now) in
        IfOk result (λ is. is
        ≡ list_all (λ step. list_all (has_key_leaf rows.now step.0) step.1.keys) others) }
{
    for n in seen..path.len() {
        if !have_key_leaves(alloc, rows, &path[..n + 1], path[n].keys.items())? {
            return Ok(false);
        }
    }
    Ok(true)
}

/// Whether each of these keys has its leaf below the instance.
fn have_key_leaves(
    alloc: Global,
    rows: &[Row],
    instance: &[Elem],
    keys: &[(Text, Text)],
) -> Result<bool, NoMemory>
    requires { IsRising rows.now }
    ensures { IfOk result (λ is. is ≡ list_all (has_key_leaf rows.now instance.now) keys.now) }
{
    for key in keys {
        if !has_key_leaf(alloc, rows, instance, key)? {
            return Ok(false);
        }
    }
    Ok(true)
}

/// Whether the key has its leaf below the instance.
fn has_key_leaf(
    alloc: Global,
    rows: &[Row],
    instance: &[Elem],
    key: &(Text, Text),
) -> Result<bool, NoMemory>
    requires { IsRising rows.now }
    ensures { IfOk result (λ is. is ≡ has_key_leaf rows.now instance.now key.now) }
{
    match find_leaf(rows, instance, key.0.octets()) {
        None => Ok(false),
        Some(row) => has_key_text(alloc, &row.value, key.1.octets()),
    }
}

/// Whether the value's text as a key is this one.
fn has_key_text(alloc: Global, value: &Value, octets: &[u8]) -> Result<bool, NoMemory>
    ensures { IfOk result (λ is. is ≡ bytes_eq (key_text value.now) octets.now) }
{
    match value {
        Value::List(_) => Ok(octets.is_empty()),
        _ => match key_text(alloc, value) {
            Ok(text) => {
                let is_same = text.octets() == octets;
                drop(text);
                Ok(is_same)
            }
            Err(NoMemory) => Err(NoMemory),
        },
    }
}
