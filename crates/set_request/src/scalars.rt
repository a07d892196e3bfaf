// Which value of a shape a scalar stands for.
ghost use Rattle.std.specs.Prelude.{◌≡◌, ◌^◌, [], false, Some, None, IfOk, if◌then◌else◌};
ghost use Rattle.std.specs.List.{list_any};
ghost use Rattle.std.specs.Str.{bytes_eq};
ghost use Rattle.base_kinds.specs.declared.value.Value.TheVariants as values;
ghost use Rattle.base_kinds.specs.Values.{fits_signed, has_shape};
ghost use Rattle.std.specs.Option.{option_and_then};
ghost use Rattle.value_core.specs.Decimals.{with_sign};
ghost use Rattle.set_request.specs.Numbers.{natural};
ghost use Rattle.set_request.specs.Scalars.{decimal_with, value_in_shape, values_in_shape};

use crate::numbers::{digits_with, natural};
use base_kinds::{Copied, NoMemory, Seq, Shape, Text, Value, Values};
use plain_texts::has_text;
use std::alloc::Global;
use value_core::{check_value, with_sign};

/// The value of a leaf of this shape that the scalar stands for.
pub(crate) fn value_in_shape(
    alloc: Global,
    shape: &Shape,
    value: &Value,
) -> Result<Option<Value>, NoMemory>
    ensures { IfOk result (λ found. found ≡ value_in_shape shape.now value.now) }
{
    match (shape, value) {
        (Shape::Int(_), Value::Uint(number)) => Ok(signed_in(shape, *number)),
        (Shape::Uint(_), Value::Int(number)) => Ok(unsigned_in(shape, *number)),
        (Shape::Dec(places), Value::Dec(digits, others)) => {
            Ok(decimal_with(*places, *digits, *others))
        }
        (Shape::Enum(texts), Value::Text(text)) => listed_in(alloc, texts.items(), text),
        _ => kept_in(alloc, shape, value),
    }
}

/// The values of a leaf-list of this shape that the scalars stand for, in their order.
pub(crate) fn values_in_shape(
    alloc: Global,
    shape: &Shape,
    scalars: &[Value],
) -> Result<Option<Values>, NoMemory>
    ensures { IfOk result (λ found. found ≡ values_in_shape shape.now [] scalars.now) }
{
    let mut done = Seq::empty(alloc);
    for scalar in scalars {
        let Some(value) = value_in_shape(alloc, shape, scalar)? else {
            return Ok(None);
        };
        done.push(value)?;
    }
    Ok(Some(done))
}

/// A number without a sign at a leaf of numbers with one.
fn signed_in(shape: &Shape, number: u64) -> Option<Value>
    ensures { result ≡ option_and_then
        (λ n. if has_shape shape.now (values.Int n) then Some (values.Int n) else None)
        (with_sign false number) }
{
    let value = Value::Int(with_sign(false, number)?);
    if check_value(shape, &value) {
        Some(value)
    } else {
        drop(value);
        None
    }
}

/// A number with a sign at a leaf of numbers without one.
fn unsigned_in(shape: &Shape, number: i64) -> Option<Value>
    ensures { result ≡ option_and_then
        (λ n. if has_shape shape.now (values.Uint n) then Some (values.Uint n) else None)
        (natural number) }
{
    let value = Value::Uint(natural(number)?);
    if check_value(shape, &value) {
        Some(value)
    } else {
        drop(value);
        None
    }
}

/// The equal decimal with so many places behind the point.
fn decimal_with(places: u8, digits: i64, others: u8) -> Option<Value>
    ensures { result ≡ decimal_with places digits others }
{
    let digits = digits_with(digits, others, places)?;
    Some(Value::Dec(digits, places))
}

/// The text as a value of an enum that lists it.
fn listed_in(alloc: Global, texts: &[Text], text: &Text) -> Result<Option<Value>, NoMemory>
    ensures { IfOk result (λ found. found
        ≡ (if list_any (bytes_eq text.now) texts.now then Some (values.Enum text.now) else None)) }
{
    if has_text(text.octets(), texts) {
        Ok(Some(Value::Enum(text.copy(alloc)?)))
    } else {
        Ok(None)
    }
}

/// The value as it is, where it has the shape.
fn kept_in(alloc: Global, shape: &Shape, value: &Value) -> Result<Option<Value>, NoMemory>
    ensures { IfOk result (λ found. found
        ≡ (if has_shape shape.now value.now then Some value.now else None)) }
{
    if check_value(shape, value) {
        Ok(Some(value.copy(alloc)?))
    } else {
        Ok(None)
    }
}
