//! Writing a GetResponse and a CapabilityResponse.
ghost use Rattle.std.specs.Prelude.{◌≡◌, ◌++◌, IfOk, OnOk, OnErr};
ghost use Rattle.std.specs.List.{list_any};
ghost use Rattle.std.specs.Str.{bytes_eq};
ghost use Rattle.gnmi_data_msg.specs.Writing.{message_fields};
ghost use Rattle.gnmi_get_msg.specs.Numbers.{supported_models};
ghost use Rattle.gnmi_get_msg.specs.Replies.{get_reply, with_name, modules_of, model_message, encodings, capabilities};

use crate::numbers::{GNMI_VERSION, REPLY_NOTIFICATION, SUPPORTED_ENCODINGS, SUPPORTED_MODELS};
use base_lists::{Bytes, NoMemory, Text, Texts};
use gnmi_data_msg::{
    ENCODING_JSON, ENCODING_JSON_IETF, ENCODING_PROTO, MODEL_NAME, put_message, put_text,
};
use schema_core::{NodeId, Schema};
use std::alloc::Global;

/// Adds the octets of a GetResponse with these Notifications, each given by its octets, in their order (gNMI 3.3.2). That they are
/// Notifications isn't asked. After want of memory nothing is added.
pub fn write_get_reply(alloc: Global, notes: &[Bytes], out: &mut Bytes) -> Result<(), NoMemory>
    ensures ok { OnOk result (out.new ≡ out.old ++ get_reply notes.now) }
    ensures err { OnErr result (out.new ≡ out.old) }
{
    let mut message = Bytes::empty(alloc);
    for note in notes {
        put_message(alloc, REPLY_NOTIFICATION, note.items(), &mut message)?;
    }
    out.extend_from_slice(message.items())
}

/// Whether the name is one of these.
fn has_name(names: &[Text], name: &Text) -> bool
    ensures { result ≡ list_any (bytes_eq name.now) names.now }
{
    names.iter().any(|other| name.octets() == other.octets())
}

/// Adds the name, if it is none of those that are there.
fn add_name(alloc: Global, name: &Text, names: &mut Texts) -> Result<(), NoMemory>
    ensures { OnOk result (names.new ≡ with_name names.old name.now) }
{
    if has_name(names.items(), name) {
        return Ok(());
    }
    names.push_copy(alloc, name)
}

/// The modules of the schema, in the order of first appearance.
#[tactic(auto, using(crate::proofs::Modules::next_module))]
fn modules_of(alloc: Global, schema: &Schema) -> Result<Texts, NoMemory>
    ensures { IfOk result (λ names. names ≡ modules_of schema.now) }
{
    let mut names = Texts::empty(alloc);
    for number in 0..schema.nodes() {
        add_name(alloc, schema.module_of(NodeId(number)), &mut names)?;
    }
    Ok(names)
}

/// Adds a model for each name. What was added before memory ran out stays.
fn put_models(alloc: Global, names: &[Text], out: &mut Bytes) -> Result<(), NoMemory>
    ensures { OnOk result (out.new ≡ out.old
        ++ message_fields model_message supported_models names.now) }
{
    for name in names {
        let mut model = Bytes::empty(alloc);
        put_text(alloc, MODEL_NAME, name.octets(), &mut model)?;
        put_message(alloc, SUPPORTED_MODELS, model.items(), out)?;
    }
    Ok(())
}

/// The numbers of the encodings, each of which is a varint of one octet.
fn encodings() -> [u8; 3]
    ensures { result ≡ encodings }
{
    [
        ENCODING_JSON as u8,
        ENCODING_JSON_IETF as u8,
        ENCODING_PROTO as u8,
    ]
}

/// Adds the octets of a CapabilityResponse (gNMI 3.2.2): the modules of the schema's nodes, each once and in the order of first
/// appearance, the encodings JSON, JSON_IETF and PROTO, and the version of gNMI's specification, 0.10.0. A model has neither an
/// organization nor a version. After want of memory nothing is added.
pub fn write_capabilities(alloc: Global, schema: &Schema, out: &mut Bytes) -> Result<(), NoMemory>
    ensures ok { OnOk result (out.new ≡ out.old ++ capabilities schema.now) }
    ensures err { OnErr result (out.new ≡ out.old) }
{
    let names = modules_of(alloc, schema)?;
    let mut message = Bytes::empty(alloc);
    put_models(alloc, names.items(), &mut message)?;
    put_message(alloc, SUPPORTED_ENCODINGS, &encodings(), &mut message)?;
    put_message(alloc, GNMI_VERSION, b"0.10.0", &mut message)?;
    out.extend_from_slice(message.items())
}
