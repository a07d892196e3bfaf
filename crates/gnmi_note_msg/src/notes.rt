//! Notifications.
ghost use Rattle.std.specs.Prelude.{◌≡◌, ◌++◌, IfOk, OnOk, OnErr};
ghost use Rattle.gnmi_data_msg.specs.Writing.{number_field};
ghost use Rattle.gnmi_data_msg.specs.Numbers.{note_timestamp};
ghost use Rattle.gnmi_note_msg.specs.Notifications.{prefix_field, json_number, note_octets, whole_octets};

use crate::rows::{put_updates, update_of};
use base_kinds::{Note, Path};
use base_lists::{Bytes, NoMemory, Text};
use gnmi_data_msg::{put_message, put_messages, put_number, put_text};
use gnmi_kinds::Encoding;
use schema_core::Schema;
use std::alloc::Global;

const PATH_TARGET: u32 = 4;

const JSON_VAL: u32 = 10;

const JSON_IETF_VAL: u32 = 11;

const NOTE_TIMESTAMP: u32 = 1;

const NOTE_PREFIX: u32 = 2;

const NOTE_UPDATE: u32 = 4;

const NOTE_DELETE: u32 = 5;

/// The stamp and the prefix.
fn note_head(alloc: Global, stamp: u64, target: &Text) -> Result<Bytes, NoMemory>
    ensures { IfOk result (λ head. head
        ≡ number_field note_timestamp stamp ++ prefix_field target.now) }
{
    let mut head = Bytes::empty(alloc);
    put_number(alloc, NOTE_TIMESTAMP, stamp, &mut head)?;
    if target.octets().is_empty() {
        return Ok(head);
    }
    let mut prefix = Bytes::empty(alloc);
    put_text(alloc, PATH_TARGET, target.octets(), &mut prefix)?;
    put_message(alloc, NOTE_PREFIX, prefix.items(), &mut head)?;
    Ok(head)
}

/// Adds the octets of a Notification (gNMI 2.1): the stamp, a prefix with the target where there is one, an update for each row
/// and the paths that are gone. The values are JSON texts by the schema (gNMI 2.3.1) in Json and JsonIetf, and scalars in Proto
/// and Other. The field of the stamp is an int64: a reader takes a stamp of 2^63 and more for one below 0. After want of memory
/// nothing is added.
pub fn write_note(
    alloc: Global,
    note: &Note,
    target: &Text,
    encoding: Encoding,
    schema: &Schema,
    out: &mut Bytes,
) -> Result<(), NoMemory>
    ensures ok { OnOk result (out.new ≡ out.old
        ++ note_octets schema.now encoding target.now note.now) }
    ensures err { OnErr result (out.new ≡ out.old) }
{
    let mut message = note_head(alloc, note.stamp, target)?;
    put_updates(alloc, note.updates.items(), encoding, schema, &mut message)?;
    put_messages(alloc, NOTE_DELETE, note.deletes.items(), &mut message)?;
    out.extend_from_slice(message.items())
}

/// The field of a TypedValue that holds a JSON text in this encoding.
fn json_number(encoding: Encoding) -> u32
    ensures { result ≡ json_number encoding }
{
    match encoding {
        Encoding::Json => JSON_VAL,
        Encoding::JsonIetf => JSON_IETF_VAL,
        Encoding::Proto => JSON_IETF_VAL,
        Encoding::Other => JSON_IETF_VAL,
    }
}

/// Adds the octets of a Notification with one update, whose value is the JSON text: in `json_val` for Json, and in
/// `json_ietf_val` for each other encoding. The text isn't read, and a reader takes a stamp of 2^63 and more for one below 0.
/// After want of memory nothing is added.
pub fn write_whole(
    alloc: Global,
    stamp: u64,
    path: &Path,
    json: &[u8],
    target: &Text,
    encoding: Encoding,
    out: &mut Bytes,
) -> Result<(), NoMemory>
    ensures ok { OnOk result (out.new ≡ out.old
        ++ whole_octets stamp path.now json.now target.now encoding) }
    ensures err { OnErr result (out.new ≡ out.old) }
{
    let mut message = note_head(alloc, stamp, target)?;
    let mut typed = Bytes::empty(alloc);
    put_message(alloc, json_number(encoding), json, &mut typed)?;
    let update = update_of(alloc, path, typed.items())?;
    put_message(alloc, NOTE_UPDATE, update.items(), &mut message)?;
    out.extend_from_slice(message.items())
}
