// The text of a value in scripts and logs.
ghost use Rattle.std.specs.Prelude.{◌≡◌, [], ◌∷◌, ◌++◌, map, OnErr, OnOk};
ghost use Rattle.base_kinds.specs.Texts.{value_text, comma_separated};
ghost use Rattle.value_core.specs.inner.ValueTexts.{separator};

use crate::base64_texts::put_base64;
use crate::quotes::put_quoted;
use crate::written::{bool_word, put_decimal, put_integer, put_natural};
use base_kinds::{Bytes, NoMemory, Seq, Value};
use std::alloc::Global;

/// Adds the value's text.
pub fn value_text(alloc: Global, value: &Value, out: &mut Bytes) -> Result<(), NoMemory>
    ensures ok { OnOk result (out.new ≡ out.old ++ value_text value.now) }
    ensures err { OnErr result (out.new ≡ out.old) }
{
    let mut text = Seq::empty(alloc);
    match put_value(alloc, value, &mut text) {
        Ok(()) => {
            let outcome = out.extend_from_slice(text.items());
            drop(text);
            outcome
        }
        Err(NoMemory) => {
            drop(text);
            Err(NoMemory)
        }
    }
}

#[cycle(values)]
#[tactic(auto, using(crate::proofs::Lists::of_a_list))]
fn put_value(alloc: Global, value: &Value, out: &mut Bytes) -> Result<(), NoMemory>
    ensures { OnOk result (out.new ≡ out.old ++ value_text value.now) }
{
    match value {
        Value::Bool(is) => out.extend_from_slice(bool_word(*is).as_bytes()),
        Value::Int(number) => put_integer(alloc, *number, out),
        Value::Uint(number) => put_natural(alloc, *number, out),
        Value::Dec(digits, places) => put_decimal(alloc, *digits, *places, out),
        Value::Text(text) => put_quoted(text.octets(), out),
        Value::Bin(octets) => {
            out.extend_from_slice(b"b:")?;
            put_base64(alloc, octets.items(), out)
        }
        Value::Enum(text) => put_quoted(text.octets(), out),
        Value::List(values) => put_list(alloc, values.items(), out),
    }
}

/// Adds the texts of the values between brackets.
#[cycle(values)]
fn put_list(alloc: Global, values: &[Value], out: &mut Bytes) -> Result<(), NoMemory>
    ensures { OnOk result (out.new ≡ out.old
        ++ (91 ∷ (comma_separated (map value_text values.now) ++ 93 ∷ []))) }
{
    out.extend_from_slice(b"[")?;
    put_values(alloc, values, out)?;
    out.extend_from_slice(b"]")
}

/// Adds the texts of the values, with a comma between two of them.
#[cycle(values)]
fn put_values(alloc: Global, values: &[Value], out: &mut Bytes) -> Result<(), NoMemory>
    ensures { OnOk result (out.new ≡ out.old ++ comma_separated (map value_text values.now)) }
{
    for (place, value) in values.iter().enumerate() {
        put_separator(place, out)?;
        put_value(alloc, value, out)?;
    }
    Ok(())
}

/// Adds what stands before the value at this place: a comma, but for the first.
fn put_separator(place: usize, out: &mut Bytes) -> Result<(), NoMemory>
    ensures { OnOk result (out.new ≡ out.old ++ separator place) }
{
    if place == 0 {
        return Ok(());
    }
    out.extend_from_slice(b",")
}
