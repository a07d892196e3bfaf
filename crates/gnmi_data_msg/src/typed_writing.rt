//! Writing a TypedValue.
ghost use Rattle.std.specs.Prelude.{◌≡◌, ◌++◌, ◌≤◌, IfOk, OnOk, OnErr};
ghost use Rattle.gnmi_data_msg.specs.Writing.{number_field, bit_of, decimal_message, scalar_message, value_message};

use crate::numbers::{
    ARRAY_ELEMENT, BOOL_VAL, BYTES_VAL, DECIMAL_DIGITS, DECIMAL_PRECISION, DECIMAL_VAL, INT_VAL,
    LEAFLIST_VAL, STRING_VAL, UINT_VAL,
};
use crate::path_writing::{Written, put_messages};
use base_kinds::Value;
use base_lists::{Bytes, NoMemory};
use pb_wire::{put_octets, put_varint};
use std::alloc::Global;

/// Adds a single number, where it isn't 0. After want of memory nothing is added.
pub fn put_number(alloc: Global, number: u32, value: u64, out: &mut Bytes) -> Result<(), NoMemory>
    requires some { 1 ≤ number }
    requires one_octet { number ≤ 15 }
    ensures ok { OnOk result (out.new ≡ out.old ++ number_field number value) }
    ensures err { OnErr result (out.new ≡ out.old) }
{
    if value == 0 {
        return Ok(());
    }
    let mut added = Bytes::empty(alloc);
    put_varint(number, value, &mut added)?;
    out.extend_from_slice(added.items())
}

/// The octets of a Decimal64.
fn decimal_message(alloc: Global, digits: i64, places: u8) -> Result<Bytes, NoMemory>
    ensures { IfOk result (λ message. message ≡ decimal_message digits places) }
{
    let mut message = Bytes::empty(alloc);
    put_number(alloc, DECIMAL_DIGITS, digits.cast_unsigned(), &mut message)?;
    put_number(alloc, DECIMAL_PRECISION, u64::from(places), &mut message)?;
    Ok(message)
}

fn bit_of(is: bool) -> u64
    ensures { result ≡ bit_of is }
{
    if is { 1 } else { 0 }
}

/// Adds the member of a TypedValue that a scalar is; a list is none.
fn put_scalar(alloc: Global, value: &Value, out: &mut Bytes) -> Result<(), NoMemory>
    ensures { OnOk result (out.new ≡ out.old ++ scalar_message value.now) }
{
    match value {
        Value::Bool(is) => put_varint(BOOL_VAL, bit_of(*is), out),
        Value::Int(number) => put_varint(INT_VAL, number.cast_unsigned(), out),
        Value::Uint(number) => put_varint(UINT_VAL, *number, out),
        Value::Dec(digits, places) => {
            let message = decimal_message(alloc, *digits, *places)?;
            put_octets(DECIMAL_VAL, message.items(), out)
        }
        Value::Text(text) => put_octets(STRING_VAL, text.octets(), out),
        Value::Bin(octets) => put_octets(BYTES_VAL, octets.items(), out),
        Value::Enum(text) => put_octets(STRING_VAL, text.octets(), out),
        Value::List(_) => Ok(()),
    }
}

/// An element of a ScalarArray.
impl Written for Value {
    ghost use Rattle.gnmi_data_msg.specs.Writing.{scalar_message};

    ghost octets = { scalar_message };

    fn written(&self, alloc: Global) -> Result<Bytes, NoMemory> {
        let mut message = Bytes::empty(alloc);
        put_scalar(alloc, self, &mut message)?;
        Ok(message)
    }
}

/// The octets of a TypedValue with the value of a leaf or a leaf-list, as scalars (gNMI 2.3.3).
pub fn value_message(alloc: Global, value: &Value) -> Result<Bytes, NoMemory>
    ensures { IfOk result (λ message. message ≡ value_message value.now) }
{
    if !value.is_list() {
        return value.written(alloc);
    }
    let mut array = Bytes::empty(alloc);
    put_messages(alloc, ARRAY_ELEMENT, value.values(), &mut array)?;
    let mut message = Bytes::empty(alloc);
    put_octets(LEAFLIST_VAL, array.items(), &mut message)?;
    Ok(message)
}
