// The keys of a list's entries.
ghost use Rattle.std.specs.Prelude.{string_bytes, ◌≡◌, ◌<◌, ◌≤◌, ◌++◌, ◌∷◌, [], Ok, Err, Some, length, slice_get, IfOk, IfErr};
ghost use Rattle.std.specs.Option.{option_map};
ghost use Rattle.std.specs.Ordering.{is_gt};
ghost use Rattle.std.specs.List.{list_any, position_or_len};
ghost use Rattle.serde_json.specs.View.{view};
ghost use Rattle.serde_json.specs.Find.{get};
ghost use Rattle.base_kinds.specs.Paths.{text_cmp};
ghost use Rattle.schema_core.specs.Nodes.{names_at, names_above};
ghost use Rattle.base_lists.specs.Results.{IsUnlessMemory, and_then};
ghost use Rattle.json_rows.specs.Leaves.{leaf_at};
ghost use Rattle.json_rows.specs.Members.{qualified};
ghost use Rattle.json_rows.specs.Entries.{only_member, key_text_of, key_of_entry, required_key, with_key, keys_of_entry, same_key, key_as_in_path, entry_keys_agree};

use crate::fault::RowsFault;
use crate::leaves::leaf_at;
use base_kinds::{Copied, Keys, NoMemory, Seq, Text};
use schema_core::{Node, NodeId, Schema};
use serde_json::Value as Json;
use std::alloc::Global;
use std::cmp::Ordering;
use value_core::key_text;

pub(crate) fn str_of(text: &Text) -> &str
    ensures { result.now ≡ text.now }
{
    match std::str::from_utf8(text.octets()) {
        Ok(text) => text,
        Err(_) => unreachable!(),
    }
}

fn qualified(alloc: Global, module_name: &Text, name: &Text) -> Result<String, NoMemory>
    ensures { IfOk result (λ text. string_bytes text ≡ qualified module_name.now name.now) }
{
    let text = format!(in alloc; "{}:{}", str_of(module_name), str_of(name))?;
    Ok(text)
}

/// The member with one of the two names. There may be none, but not both.
fn only_member<'j>(
    entry: &'j Json,
    name: &str,
    qualified: &str,
) -> Result<Option<&'j Json>, RowsFault>
    ensures ok { IfOk result (λ found. only_member (get name.now (view entry.now))
        (get qualified.now (view entry.now)) ≡ Ok (option_map (λ json. view json.now) found)) }
    ensures fault { IfErr result (λ fault. only_member (get name.now (view entry.now))
        (get qualified.now (view entry.now)) ≡ Err fault) }
{
    match (entry.get(name), entry.get(qualified)) {
        (None, other) => Ok(other),
        (found, None) => Ok(found),
        (Some(_), Some(_)) => Err(RowsFault::BadValue),
    }
}

/// The text of the key that a key leaf's value is.
fn key_text_of(alloc: Global, leaf: &Node, json: &Json) -> Result<Text, RowsFault>
    ensures answer { IsUnlessMemory RowsFault.NoMemory (and_then result (λ text. Ok (Some text)))
        (key_text_of (leaf_at leaf.now.shape (view json.now))) }
{
    match leaf_at(alloc, leaf.shape(), json) {
        Ok(Some(value)) => {
            let text = key_text(alloc, &value);
            drop(value);
            match text {
                Ok(text) => Ok(text),
                Err(NoMemory) => Err(RowsFault::NoMemory),
            }
        }
        Ok(None) => Err(RowsFault::BadValue),
        Err(NoMemory) => Err(RowsFault::NoMemory),
    }
}

/// The text of the key with this name in an entry of the list, where the entry has it.
fn key_of_entry(
    alloc: Global,
    schema: &Schema,
    list: NodeId,
    name: &Text,
    entry: &Json,
) -> Result<Option<Text>, RowsFault>
    requires { list.0 < length schema.now }
    ensures answer { IsUnlessMemory RowsFault.NoMemory result
        (key_of_entry schema.now (names_at schema.now list.0) name.now (view entry.now)) }
{
    let Some(id) = schema.child_of(Some(list), name.octets()) else {
        return Err(RowsFault::BadValue);
    };
    let leaf = schema.node(id);
    let full = qualified(alloc, leaf.module_name(), name)?;
    let found = only_member(entry, str_of(name), full.as_str());
    drop(full);
    match found {
        Ok(Some(json)) => match key_text_of(alloc, leaf, json) {
            Ok(text) => Ok(Some(text)),
            Err(fault) => Err(fault),
        },
        Ok(None) => Ok(None),
        Err(fault) => Err(fault),
    }
}

fn is_above(text: &Text, other: &Text) -> bool
    ensures { result ≡ is_gt (text_cmp text.now other.now) }
{
    text.cmp(other) == Ordering::Greater
}

/// Where a key of this name belongs among the keys.
fn place_of(keys: &Keys, name: &Text) -> usize
    ensures place { result ≡ position_or_len (λ other. is_gt (text_cmp other.0 name.now)) keys.now }
    ensures within { result ≤ length keys.now }
{
    for (i, (other, _)) in keys.items().iter().enumerate() {
        if is_above(other, name) {
            return i;
        }
    }
    keys.len()
}

/// The keys with one more.
fn with_key(keys: Keys, key: (Text, Text)) -> Result<Keys, NoMemory>
    ensures { IfOk result (λ more. more ≡ with_key key keys) }
{
    let place = place_of(&keys, &key.0);
    let mut stored = keys.into_vec();
    stored.insert(place, key)?;
    Ok(Seq::from_vec(stored))
}

/// The keys of an entry of an array, which has them all.
pub(crate) fn keys_of_entry(
    alloc: Global,
    schema: &Schema,
    list: NodeId,
    names: &[Text],
    entry: &Json,
) -> Result<Keys, RowsFault>
    requires { list.0 < length schema.now }
    ensures answer { IsUnlessMemory RowsFault.NoMemory result
        (keys_of_entry schema.now (names_at schema.now list.0) (view entry.now) [] names.now) }
{
    let mut keys: Keys = Seq::empty(alloc);
    for name in names {
        let text = match required_key(alloc, schema, list, name, entry) {
            Ok(text) => text,
            Err(fault) => {
                drop(keys);
                return Err(fault);
            }
        };
        keys = with_named_key(alloc, name, text, keys)?;
    }
    Ok(keys)
}

/// The text of the key with this name in an entry of the list, which has it.
fn required_key(
    alloc: Global,
    schema: &Schema,
    list: NodeId,
    name: &Text,
    entry: &Json,
) -> Result<Text, RowsFault>
    requires { list.0 < length schema.now }
    ensures answer { IsUnlessMemory RowsFault.NoMemory result
        (and_then (key_of_entry schema.now (names_at schema.now list.0) name.now (view entry.now))
        required_key) }
{
    match key_of_entry(alloc, schema, list, name, entry) {
        Ok(found) => found.ok_or(RowsFault::BadValue),
        Err(fault) => Err(fault),
    }
}

/// The keys with this text as the key of this name.
fn with_named_key(alloc: Global, name: &Text, text: Text, keys: Keys) -> Result<Keys, NoMemory>
    ensures { IfOk result (λ more. more ≡ with_key (name.now, text) keys) }
{
    match name.copy(alloc) {
        Ok(name) => with_key(keys, (name, text)),
        Err(NoMemory) => {
            drop(text);
            drop(keys);
            Err(NoMemory)
        }
    }
}

fn has_key(keys: &Keys, name: &Text, text: &Text) -> bool
    ensures { result ≡ list_any (same_key (name.now, text.now)) keys.now }
{
    for (other_name, other_text) in keys.items() {
        if name.octets() == other_name.octets() && text.octets() == other_text.octets() {
            return true;
        }
    }
    false
}

/// Looks whether the entry's keys are those of its path, as far as it has them.
pub(crate) fn entry_keys_agree(
    alloc: Global,
    schema: &Schema,
    list: NodeId,
    names: &[Text],
    keys: &Keys,
    entry: &Json,
) -> Result<(), RowsFault>
    requires { list.0 < length schema.now }
    ensures answer { IsUnlessMemory RowsFault.NoMemory result
        (entry_keys_agree schema.now (names_at schema.now list.0) keys.now (view entry.now)
        names.now) }
{
    for name in names {
        if let Some(text) = key_of_entry(alloc, schema, list, name, entry)? {
            let is_there = has_key(keys, name, &text);
            drop(text);
            if !is_there {
                return Err(RowsFault::BadValue);
            }
        }
    }
    Ok(())
}
