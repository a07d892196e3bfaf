//! Reading a Path.
ghost use Rattle.std.specs.Prelude.{◌≡◌, Some, None, IfOk, IsErrOf, OnOk};
ghost use Rattle.std.specs.BTreeMap.{insert_entry};
ghost use Rattle.std.specs.Option.{option_map};
ghost use Rattle.base_kinds.specs.Paths.{text_cmp};
ghost use Rattle.pb_wire.specs.Message.{AreWithin};
ghost use Rattle.gnmi_data_msg.specs.Numbers.{elem_key};
ghost use Rattle.gnmi_data_msg.specs.Parts.{IsReadAs, messages_in};
ghost use Rattle.gnmi_data_msg.specs.Paths.{entry_of, path_of, keys_of};

use crate::fault::MsgFault;
use crate::numbers::{
    ELEM_KEY, ELEM_NAME, ENTRY_KEY, ENTRY_VALUE, PATH_ELEM, PATH_ELEMENT, PATH_ORIGIN, PATH_TARGET,
};
use crate::parts::{Message, are_texts, fields_in, messages_in, single_text};
use base_kinds::{Elem, Keys};
use base_lists::{NoMemory, Seq, Text};
use gnmi_kinds::GnmiPath;
use pb_wire::{Field, last_octets, octets_of};
use std::alloc::Global;
use std::collections::BTreeMap;

/// An entry of the map of keys.
impl Message for (Text, Text) {
    ghost use Rattle.gnmi_data_msg.specs.Paths.{entry_of};

    ghost meaning = { entry_of };

    #[tactic(auto, unfolding(crate::specs::Paths::entry_of))]
    fn read(alloc: Global, octets: &[u8]) -> Result<(Text, Text), MsgFault> {
        let fields = fields_in(alloc, octets)?;
        let key = single_text(alloc, octets, fields.items(), ENTRY_KEY)?;
        let value = single_text(alloc, octets, fields.items(), ENTRY_VALUE)?;
        Ok((key, value))
    }
}

/// The entry at its place among the others, or in place of the one with its name.
fn put_entry(entry: (Text, Text), map: &mut BTreeMap<Text, Text>) -> Result<(), NoMemory>
    ensures { OnOk result (map.new.entries
        ≡ insert_entry text_cmp map.old.entries entry.0 entry.1) }
{
    let (name, value) = entry;
    map.insert(name, value)?;
    Ok(())
}

/// The entries under the number of keys, by their names.
fn entries_in(
    alloc: Global,
    octets: &[u8],
    fields: &[Field],
) -> Result<BTreeMap<Text, Text>, MsgFault>
    requires { AreWithin octets.now fields.now }
    ensures ok { IfOk result (λ map. option_map keys_of
        (messages_in entry_of octets.now elem_key fields.now) ≡ Some map.entries) }
    ensures bad { IsErrOf result MsgFault.BadMessage →
        messages_in entry_of octets.now elem_key fields.now ≡ None }
{
    let mut map = BTreeMap::new(alloc);
    for field in fields {
        if let Some(piece) = octets_of(octets, field, ELEM_KEY) {
            let entry = <(Text, Text)>::read(alloc, piece)?;
            put_entry(entry, &mut map)?;
        }
    }
    Ok(map)
}

/// The entries of the map, in its order.
fn drained(alloc: Global, map: BTreeMap<Text, Text>) -> Result<Keys, NoMemory>
    ensures { IfOk result (λ keys. keys ≡ map.entries) }
{
    let mut rest = map;
    let mut keys = Seq::empty(alloc);
    while let Some(entry) = rest.pop_first() {
        keys.push(entry)?;
    }
    Ok(keys)
}

/// The keys by their names: of entries with one name the last counts.
fn keys_in(alloc: Global, octets: &[u8], fields: &[Field]) -> Result<Keys, MsgFault>
    requires { AreWithin octets.now fields.now }
    ensures { IsReadAs result (option_map keys_of
        (messages_in entry_of octets.now elem_key fields.now)) }
{
    let map = entries_in(alloc, octets, fields)?;
    let keys = drained(alloc, map)?;
    Ok(keys)
}

impl Message for Elem {
    ghost use Rattle.gnmi_data_msg.specs.Paths.{elem_of};

    ghost meaning = { elem_of };

    #[tactic(auto, unfolding(crate::specs::Paths::elem_of))]
    fn read(alloc: Global, octets: &[u8]) -> Result<Elem, MsgFault> {
        let fields = fields_in(alloc, octets)?;
        let name = single_text(alloc, octets, fields.items(), ELEM_NAME)?;
        let keys = keys_in(alloc, octets, fields.items())?;
        Ok(Elem { name, keys })
    }
}

/// The path that the octets of a Path are. BadMessage where they aren't fields, here or in an element or a key, or where a
/// string isn't UTF-8.
#[tactic(auto, unfolding(crate::specs::Paths::path_of))]
pub fn read_path(alloc: Global, octets: &[u8]) -> Result<GnmiPath, MsgFault>
    ensures { IsReadAs result (path_of octets.now) }
{
    let fields = fields_in(alloc, octets)?;
    let origin = single_text(alloc, octets, fields.items(), PATH_ORIGIN)?;
    let path = messages_in(alloc, octets, fields.items(), PATH_ELEM)?;
    let target = single_text(alloc, octets, fields.items(), PATH_TARGET)?;
    if !are_texts(octets, fields.items(), PATH_ELEMENT) {
        return Err(MsgFault::BadMessage);
    }
    let old_element = last_octets(octets, fields.items(), PATH_ELEMENT).is_some();
    Ok(GnmiPath {
        path,
        origin,
        target,
        old_element,
    })
}

impl Message for GnmiPath {
    ghost use Rattle.gnmi_data_msg.specs.Paths.{path_of};

    ghost meaning = { path_of };

    fn read(alloc: Global, octets: &[u8]) -> Result<GnmiPath, MsgFault> {
        read_path(alloc, octets)
    }
}
