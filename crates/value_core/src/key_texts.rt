// The text of a value as a key.
ghost use Rattle.std.specs.Prelude.{◌≡◌, ◌++◌, false, IfOk, IsUtf8, OnOk};
ghost use Rattle.base_kinds.specs.Keys.{key_text};
ghost use Rattle.base_kinds.specs.Values.{is_list};

use crate::base64_texts::put_base64;
use crate::written::{bool_word, put_decimal, put_integer, put_natural};
use base_kinds::{Bytes, NoMemory, Seq, Text, Value};
use plain_texts::text_of;
use std::alloc::Global;

/// The text of the value where it is the key of a list's entry.
pub fn key_text(alloc: Global, value: &Value) -> Result<Text, NoMemory>
    requires { is_list value.now ≡ false }
    ensures { IfOk result (λ text. text ≡ key_text value.now) }
{
    let mut octets = Seq::empty(alloc);
    match put_key(alloc, value, &mut octets) {
        Ok(()) => {
            let text = text_of(alloc, octets.items());
            drop(octets);
            text
        }
        Err(NoMemory) => {
            drop(octets);
            Err(NoMemory)
        }
    }
}

/// Adds the value's key text; a list has none.
fn put_key(alloc: Global, value: &Value, out: &mut Bytes) -> Result<(), NoMemory>
    ensures ok { OnOk result (out.new ≡ out.old ++ key_text value.now) }
    ensures is_utf8 { OnOk result (IsUtf8 (key_text value.now)) }
{
    match value {
        Value::Bool(is) => out.extend_from_slice(bool_word(*is).as_bytes()),
        Value::Int(number) => put_integer(alloc, *number, out),
        Value::Uint(number) => put_natural(alloc, *number, out),
        Value::Dec(digits, places) => put_decimal(alloc, *digits, *places, out),
        Value::Text(text) => out.extend_from_slice(text.octets()),
        Value::Bin(octets) => put_base64(alloc, octets.items(), out),
        Value::Enum(text) => out.extend_from_slice(text.octets()),
        Value::List(_) => Ok(()),
    }
}
