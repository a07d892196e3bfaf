//! Reading a CapabilityResponse.
ghost use Rattle.std.specs.Prelude.{◌≡◌, ◌++◌, length, map, false, IfOk, OnOk};
ghost use Rattle.std.specs.List.{flat_map};
ghost use Rattle.pb_wire.specs.Message.{IsWithin, AreWithin};
ghost use Rattle.pb_message.specs.Values.{text_under};
ghost use Rattle.gnmi_data_msg.specs.Parts.{IsReadAs};
ghost use Rattle.gnmi_client_msg.specs.Capabilities.{served_of, short_numbers, encodings_in, capabilities_of};

use crate::numbers::{
    GNMI_VERSION, MODEL_NAME, MODEL_ORGANIZATION, MODEL_VERSION, SUPPORTED_ENCODINGS,
    SUPPORTED_MODELS,
};
use crate::parts::{Told, each_told};
use base_lists::{NoMemory, Seq, Text, TextOfFault};
use gnmi_data_msg::{MsgFault, fields_in};
use pb_message::{is_message, text_under};
use pb_wire::{Field, octets_of, varint_of};
use std::alloc::Global;

/// An encoding that a target supports (gNMI 2.3).
#[derive(Clone, Copy, Debug, PartialEq, Eq, Drop)]
pub enum ServedEncoding {
    Json,
    Bytes,
    Proto,
    Ascii,
    JsonIetf,
    /// A number that gnmi.proto has no name for.
    Other(u64),
}

/// A model that a target supports (gNMI 2.6.1).
#[derive(Drop)]
pub struct ServedModel {
    pub name: Text,
    pub organization: Text,
    pub version: Text,
}

/// What a target supports (gNMI 3.2.2).
#[derive(Drop)]
pub struct Capabilities {
    pub models: Seq<ServedModel>,
    pub encodings: Seq<ServedEncoding>,
    /// The version of gNMI's specification.
    pub version: Text,
}

/// A single string.
fn read_text(alloc: Global, octets: &[u8], number: u32) -> Result<Text, MsgFault>
    ensures { IsReadAs result (text_under number octets.now) }
{
    match text_under(alloc, octets, number) {
        Ok(text) => Ok(text),
        Err(TextOfFault::NotUtf8) => Err(MsgFault::BadMessage),
        Err(TextOfFault::NoMemory) => Err(MsgFault::NoMemory),
    }
}

impl Told for ServedModel {
    ghost use Rattle.gnmi_client_msg.specs.Capabilities.{model_of};

    ghost meaning = { model_of };

    #[tactic(auto, unfolding(crate::specs::Capabilities::model_of))]
    fn read(alloc: Global, octets: &[u8]) -> Result<ServedModel, MsgFault> {
        if !is_message(octets) {
            return Err(MsgFault::BadMessage);
        }
        let name = read_text(alloc, octets, MODEL_NAME)?;
        let organization = read_text(alloc, octets, MODEL_ORGANIZATION)?;
        let version = read_text(alloc, octets, MODEL_VERSION)?;
        Ok(ServedModel {
            name,
            organization,
            version,
        })
    }
}

fn served_of(number: u64) -> ServedEncoding
    ensures { result ≡ served_of number }
{
    match number {
        0 => ServedEncoding::Json,
        1 => ServedEncoding::Bytes,
        2 => ServedEncoding::Proto,
        3 => ServedEncoding::Ascii,
        4 => ServedEncoding::JsonIetf,
        _ => ServedEncoding::Other(number),
    }
}

/// Adds the encodings of the packed numbers.
fn put_packed(octets: &[u8], out: &mut Seq<ServedEncoding>) -> Result<(), NoMemory>
    ensures { OnOk result (out.new ≡ out.old ++ map served_of (short_numbers false octets.now)) }
{
    let mut inside = false;
    for octet in octets {
        if *octet < 128 && !inside {
            out.push(served_of(u64::from(*octet)))?;
        }
        inside = *octet >= 128;
    }
    Ok(())
}

/// Adds the encodings in the field.
fn put_encodings(
    octets: &[u8],
    field: &Field,
    out: &mut Seq<ServedEncoding>,
) -> Result<(), NoMemory>
    requires { IsWithin (length octets.now) field.now.body }
    ensures { OnOk result (out.new ≡ out.old ++ encodings_in octets.now field.now) }
{
    if let Some(number) = varint_of(field, SUPPORTED_ENCODINGS) {
        return out.push(served_of(number));
    }
    match octets_of(octets, field, SUPPORTED_ENCODINGS) {
        Some(piece) => put_packed(piece, out),
        None => Ok(()),
    }
}

/// The encodings in the fields.
fn encodings_of(
    alloc: Global,
    octets: &[u8],
    fields: &[Field],
) -> Result<Seq<ServedEncoding>, NoMemory>
    requires { AreWithin octets.now fields.now }
    ensures { IfOk result (λ list. list ≡ flat_map (encodings_in octets.now) fields.now) }
{
    let mut list = Seq::empty(alloc);
    for field in fields {
        put_encodings(octets, field, &mut list)?;
    }
    Ok(list)
}

/// What the CapabilityResponse that the octets are tells (gNMI 3.2.2): the models, the encodings, packed or not, and the version, each
/// in its order. BadMessage where the octets aren't fields, or those of a model are a bad message, or a string isn't UTF-8.
#[tactic(auto, unfolding(crate::specs::Capabilities::capabilities_of))]
pub fn read_capabilities(alloc: Global, octets: &[u8]) -> Result<Capabilities, MsgFault>
    ensures { IsReadAs result (capabilities_of octets.now) }
{
    let fields = fields_in(alloc, octets)?;
    let models = each_told(alloc, octets, SUPPORTED_MODELS)?;
    let version = read_text(alloc, octets, GNMI_VERSION)?;
    let encodings = encodings_of(alloc, octets, fields.items())?;
    Ok(Capabilities {
        models,
        encodings,
        version,
    })
}
