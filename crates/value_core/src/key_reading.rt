// Key texts, read exactly.
ghost use Rattle.std.specs.Prelude.{◌≡◌, ℕ, ℤ, Bool, ◌^◌, ◌<◌, nat_lt, IsTrue, IfOk, OnOk, OnErr, IsErrOf};
ghost use Rattle.std.specs.List.{list_any};
ghost use Rattle.std.specs.Str.{bytes_eq};
ghost use Rattle.std.specs.Fmt.{decimal, signed_decimal};
ghost use Rattle.base_kinds.specs.Texts.{bool_text};
ghost use Rattle.base_kinds.specs.Values.{fits_signed as fits};
ghost use Rattle.base_kinds.specs.declared.value.Value.{Value as AnyValue};
ghost use Rattle.value_core.specs.KeyTexts.{IsKeyOf};

use crate::base64_texts::read_base64;
use crate::decimals::read_decimal_key;
use crate::fault::ValueFault;
use crate::numbers::read_integer;
use crate::shapes::{fits_signed, is_below_power};
use base_kinds::{Copied, NoMemory, Shape, Text, Value};
use plain_texts::{has_text, natural_of};
use std::alloc::Global;

/// The value of this shape whose key text this is. There is one at most.
pub fn read_key(alloc: Global, shape: &Shape, text: &Text) -> Result<Value, ValueFault>
    ensures ok { IfOk result (λ value. IsKeyOf shape.now text.now value) }
    ensures bad_value { IsErrOf result ValueFault.BadValue → (value : AnyValue)
        → IsKeyOf shape.now text.now value → ⊥ }
{
    let octets = text.octets();
    match shape {
        Shape::Bool => read_bool(octets).map(Value::Bool),
        Shape::Int(width) => read_int(*width, octets).map(Value::Int),
        Shape::Uint(width) => read_uint(*width, octets).map(Value::Uint),
        Shape::Dec(places) => match read_decimal_key(alloc, *places, octets) {
            Ok(digits) => Ok(Value::Dec(digits, *places)),
            Err(fault) => Err(fault),
        },
        Shape::Text => match text.copy(alloc) {
            Ok(copy) => Ok(Value::Text(copy)),
            Err(NoMemory) => Err(ValueFault::NoMemory),
        },
        Shape::Bin => match read_base64(alloc, octets) {
            Ok(octets) => Ok(Value::Bin(octets)),
            Err(fault) => Err(fault),
        },
        Shape::Enum(texts) => read_enum(alloc, texts.items(), text).map(Value::Enum),
    }
}

fn read_bool(octets: &[u8]) -> Result<bool, ValueFault>
    ensures ok { IfOk result (λ is. octets.now ≡ bool_text is) }
    ensures err { OnErr result ((is : Bool) → octets.now ≡ bool_text is → ⊥) }
{
    if octets == b"true".as_slice() {
        Ok(true)
    } else if octets == b"false".as_slice() {
        Ok(false)
    } else {
        Err(ValueFault::BadValue)
    }
}

/// The number of so many bits that the octets spell.
fn read_int(width: u8, octets: &[u8]) -> Result<i64, ValueFault>
    ensures ok { IfOk result (λ number. octets.now ≡ signed_decimal number) }
    ensures held { IfOk result (λ number. IsTrue (fits 64 number)) }
    ensures fits { IfOk result (λ number. IsTrue (fits width number)) }
    ensures err { OnErr result ((number : ℤ) → IsTrue (fits 64 number) → IsTrue (fits width number)
        → octets.now ≡ signed_decimal number → ⊥) }
{
    let Some(number) = read_integer(octets) else {
        return Err(ValueFault::BadValue);
    };
    if !fits_signed(width, number) {
        return Err(ValueFault::BadValue);
    }
    Ok(number)
}

/// The number of so many bits without a sign that the octets spell.
fn read_uint(width: u8, octets: &[u8]) -> Result<u64, ValueFault>
    ensures ok { IfOk result (λ number. octets.now ≡ decimal number) }
    ensures fits { IfOk result (λ number. IsTrue (nat_lt number (2 ^ width))) }
    ensures err { OnErr result ((number : ℕ) → number < 2 ^ 64 → IsTrue (nat_lt number (2 ^ width))
        → octets.now ≡ decimal number → ⊥) }
{
    let Some(number) = natural_of(octets) else {
        return Err(ValueFault::BadValue);
    };
    if !is_below_power(number, width) {
        return Err(ValueFault::BadValue);
    }
    Ok(number)
}

/// The text, where it is one of these.
fn read_enum(alloc: Global, texts: &[Text], text: &Text) -> Result<Text, ValueFault>
    ensures ok { IfOk result (λ copy. copy ≡ text.now) }
    ensures listed { OnOk result (IsTrue (list_any (bytes_eq text.now) texts.now)) }
    ensures bad_value { IsErrOf result ValueFault.BadValue
        → IsTrue (list_any (bytes_eq text.now) texts.now) → ⊥ }
{
    if !has_text(text.octets(), texts) {
        return Err(ValueFault::BadValue);
    }
    Ok(text.copy(alloc)?)
}
