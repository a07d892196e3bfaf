//! What every reader of a message is made of.
ghost use Rattle.std.specs.Prelude.{◌≡◌, not, IfOk};
ghost use Rattle.std.specs.Str.{is_utf8};
ghost use Rattle.pb_wire.specs.Message.{AreWithin};
ghost use Rattle.gnmi_data_msg.specs.Parts.{IsReadAs, fields_in, messages_in, are_texts, text_of, single_text};

use crate::fault::MsgFault;
use base_lists::{Seq, Text, TextOfFault};
use pb_wire::{Field, Fields, WireFault, fields_of, last_octets, octets_of};
use std::alloc::Global;

/// A value that the octets of one message stand for.
pub trait Message: Drop {
    ghost use Rattle.std.specs.Prelude.{List, ℕ, Option};

    ghost meaning: { List ℕ → Option Self };

    fn read(alloc: Global, octets: &[u8]) -> Result<Self, MsgFault>
        ensures { IsReadAs result (meaning octets.now) };
}

/// The fields of a message, in their order. BadMessage where the octets aren't fields; the octets that a field holds aren't
/// looked at.
#[tactic(auto, using(crate::proofs::FieldsIn::message_fields))]
pub fn fields_in(alloc: Global, octets: &[u8]) -> Result<Fields, MsgFault>
    ensures value { IsReadAs result (fields_in octets.now) }
    ensures within { IfOk result (λ fields. AreWithin octets.now fields) }
{
    match fields_of(alloc, octets) {
        Ok(fields) => Ok(fields),
        Err(WireFault::BadMessage) => Err(MsgFault::BadMessage),
        Err(WireFault::NoMemory) => Err(MsgFault::NoMemory),
    }
}

/// The messages of a repeated field.
pub fn messages_in<T: Message>(
    alloc: Global,
    octets: &[u8],
    fields: &[Field],
    number: u32,
) -> Result<Seq<T>, MsgFault>
    requires { AreWithin octets.now fields.now }
    ensures { IsReadAs result (messages_in T.meaning octets.now number fields.now) }
{
    let mut messages = Seq::empty(alloc);
    for field in fields {
        if let Some(piece) = octets_of(octets, field, number) {
            messages.push(T::read(alloc, piece)?)?;
        }
    }
    Ok(messages)
}

#[tactic(auto, using(crate::proofs::Texts::utf8_tests))]
fn is_no_text(octets: &[u8]) -> bool
    ensures { result ≡ not (is_utf8 octets.now) }
{
    match std::str::from_utf8(octets) {
        Ok(_) => false,
        Err(_) => true,
    }
}

/// Whether each string of the number is UTF-8. Takes no memory.
pub fn are_texts(octets: &[u8], fields: &[Field], number: u32) -> bool
    requires { AreWithin octets.now fields.now }
    ensures { result ≡ are_texts octets.now number fields.now }
{
    for field in fields {
        if let Some(piece) = octets_of(octets, field, number) {
            if is_no_text(piece) {
                return false;
            }
        }
    }
    true
}

/// The text that the octets of a string are.
#[tactic(auto, using(crate::proofs::Texts::utf8_tests))]
pub fn text_of(alloc: Global, octets: &[u8]) -> Result<Text, MsgFault>
    ensures { IsReadAs result (text_of octets.now) }
{
    match Text::of(alloc, octets) {
        Ok(text) => Ok(text),
        Err(TextOfFault::NotUtf8) => Err(MsgFault::BadMessage),
        Err(TextOfFault::NoMemory) => Err(MsgFault::NoMemory),
    }
}

/// A single string: the last of the number, or an empty one.
pub fn single_text(
    alloc: Global,
    octets: &[u8],
    fields: &[Field],
    number: u32,
) -> Result<Text, MsgFault>
    requires { AreWithin octets.now fields.now }
    ensures { IsReadAs result (single_text octets.now number fields.now) }
{
    if !are_texts(octets, fields, number) {
        return Err(MsgFault::BadMessage);
    }
    text_of(alloc, last_octets(octets, fields, number).unwrap_or(&[]))
}
