//! Writing a SetRequest and a GetRequest.
ghost use Rattle.std.specs.Prelude.{◌≡◌, ◌++◌, ◌≤◌, IfOk, OnOk, OnErr};
ghost use Rattle.gnmi_data_msg.specs.Writing.{message_fields};
ghost use Rattle.gnmi_client_msg.specs.Requests.{given_field, change_message, prefix_message, commit_field, set_message, get_message};

use crate::numbers::{
    EXTENSION_COMMIT, GET_ENCODING, GET_PATH, JSON_IETF_VAL, PATH_TARGET, SET_DELETE,
    SET_EXTENSION, SET_PREFIX, SET_REPLACE, SET_UPDATE, UPDATE_PATH, UPDATE_VAL,
};
use base_kinds::{Action, Change, Given, Path, Text, UnresolvedSet};
use base_lists::{Bytes, NoMemory};
use gnmi_data_msg::{
    ENCODING_PROTO, Written, put_message, put_messages, put_number, put_text, value_message,
};
use gnmi_ext_msg::write_commit;
use std::alloc::Global;

/// Adds the value of an Update, where there is one. After want of memory nothing is added.
fn put_given(alloc: Global, given: &Given, out: &mut Bytes) -> Result<(), NoMemory>
    ensures { OnOk result (out.new ≡ out.old ++ given_field given.now) }
{
    match given {
        Given::Json(json) => {
            let mut typed = Bytes::empty(alloc);
            put_message(alloc, JSON_IETF_VAL, json.items(), &mut typed)?;
            put_message(alloc, UPDATE_VAL, typed.items(), out)
        }
        Given::Scalar(value) => {
            let typed = value_message(alloc, value)?;
            put_message(alloc, UPDATE_VAL, typed.items(), out)
        }
        Given::Missing => Ok(()),
    }
}

/// The octets of an Update.
fn change_message(alloc: Global, change: &Change) -> Result<Bytes, NoMemory>
    ensures { IfOk result (λ message. message ≡ change_message change.now) }
{
    let mut message = Bytes::empty(alloc);
    let path = change.path.written(alloc)?;
    put_message(alloc, UPDATE_PATH, path.items(), &mut message)?;
    put_given(alloc, &change.given, &mut message)?;
    Ok(message)
}

/// Adds an Update for each change. What was added before memory ran out stays.
fn put_changes(
    alloc: Global,
    number: u32,
    changes: &[Change],
    out: &mut Bytes,
) -> Result<(), NoMemory>
    requires some { 1 ≤ number }
    requires one_octet { number ≤ 15 }
    ensures { OnOk result (out.new ≡ out.old ++ message_fields change_message number changes.now) }
{
    for change in changes {
        let message = change_message(alloc, change)?;
        put_message(alloc, number, message.items(), out)?;
    }
    Ok(())
}

/// The octets of the prefix.
fn prefix_message(alloc: Global, prefix: &Path, target: &Text) -> Result<Bytes, NoMemory>
    ensures { IfOk result (λ message. message ≡ prefix_message prefix.now target.now) }
{
    let mut message = prefix.written(alloc)?;
    put_text(alloc, PATH_TARGET, target.octets(), &mut message)?;
    Ok(message)
}

/// Adds the extension of the commit, where the action asks for one.
fn put_commit(alloc: Global, action: &Action, out: &mut Bytes) -> Result<(), NoMemory>
    ensures { OnOk result (out.new ≡ out.old ++ commit_field action.now) }
{
    if matches!(action, Action::Plain) {
        return Ok(());
    }
    let mut commit = Bytes::empty(alloc);
    write_commit(alloc, action, &mut commit)?;
    let mut extension = Bytes::empty(alloc);
    put_message(alloc, EXTENSION_COMMIT, commit.items(), &mut extension)?;
    put_message(alloc, SET_EXTENSION, extension.items(), out)
}

/// Adds the octets of a SetRequest that asks for this (gNMI 3.4.1): the prefix with its target, where it has elements or a target;
/// the deletes, the replaces and the updates, each in its order; and the commit extension, where the action isn't Plain. A JSON
/// text is sent as `json_ietf_val`, whatever it holds. Mixed is sent as a Commit without an action, which a target reads as Mixed.
/// That the request has something that isn't supported has no octets of its own. After want of memory nothing is added.
pub fn write_set(alloc: Global, ask: &UnresolvedSet, out: &mut Bytes) -> Result<(), NoMemory>
    ensures ok { OnOk result (out.new ≡ out.old ++ set_message ask.now) }
    ensures err { OnErr result (out.new ≡ out.old) }
{
    let mut message = Bytes::empty(alloc);
    let prefix = prefix_message(alloc, &ask.prefix, &ask.target)?;
    put_text(alloc, SET_PREFIX, prefix.items(), &mut message)?;
    put_messages(alloc, SET_DELETE, ask.deletes.items(), &mut message)?;
    put_changes(alloc, SET_REPLACE, ask.replaces.items(), &mut message)?;
    put_changes(alloc, SET_UPDATE, ask.updates.items(), &mut message)?;
    put_commit(alloc, &ask.action, &mut message)?;
    out.extend_from_slice(message.items())
}

/// Adds the octets of a GetRequest of the path (gNMI 3.3.1), which asks for all types of data and for values in PROTO. After want
/// of memory nothing is added.
pub fn write_get(alloc: Global, path: &Path, out: &mut Bytes) -> Result<(), NoMemory>
    ensures ok { OnOk result (out.new ≡ out.old ++ get_message path.now) }
    ensures err { OnErr result (out.new ≡ out.old) }
{
    let mut message = Bytes::empty(alloc);
    let written = path.written(alloc)?;
    put_message(alloc, GET_PATH, written.items(), &mut message)?;
    put_number(alloc, GET_ENCODING, u64::from(ENCODING_PROTO), &mut message)?;
    out.extend_from_slice(message.items())
}
