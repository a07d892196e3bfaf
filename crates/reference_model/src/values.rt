// Values and their shapes.
ghost use Rattle.std.specs.Prelude.{◌≡◌, ◌^◌, nat_lt};
ghost use Rattle.std.specs.List.{list_any};
ghost use Rattle.std.specs.Str.{bytes_eq};
ghost use Rattle.base_kinds.specs.Values.{has_shape, is_list, values_in, same_scalar, all_differ, fits_signed};

use crate::matching::is_text;
use base_kinds::{Shape, Text, Value};

/// Whether the value is one of a leaf of this shape.
pub fn has_shape(shape: &Shape, value: &Value) -> bool
    ensures { result ≡ has_shape shape.now value.now }
{
    match (shape, value) {
        (Shape::Bool, Value::Bool(_)) => true,
        (Shape::Int(width), Value::Int(number)) => fits_signed(*width, *number),
        (Shape::Uint(width), Value::Uint(number)) => is_below_power(*number, *width),
        (Shape::Dec(places), Value::Dec(_, others)) => places == others,
        (Shape::Text, Value::Text(_)) => true,
        (Shape::Bin, Value::Bin(_)) => true,
        (Shape::Enum(texts), Value::Enum(text)) => is_one_of(text, texts.items()),
        _ => false,
    }
}

pub(crate) fn is_list(value: &Value) -> bool
    ensures { result ≡ is_list value.now }
{
    match value {
        Value::List(_) => true,
        _ => false,
    }
}

/// The values of a leaf-list; a leaf has none.
pub(crate) fn values_in(value: &Value) -> &[Value]
    ensures { result.now ≡ values_in value.now }
{
    match value {
        Value::List(values) => values.items(),
        _ => &[],
    }
}

/// Whether two values that are no lists are equal.
pub(crate) fn same_scalar(a: &Value, b: &Value) -> bool
    ensures { result ≡ same_scalar a.now b.now }
{
    match (a, b) {
        (Value::Bool(a), Value::Bool(b)) => *a == *b,
        (Value::Int(a), Value::Int(b)) => *a == *b,
        (Value::Uint(a), Value::Uint(b)) => *a == *b,
        (Value::Dec(a, places), Value::Dec(b, others)) => *a == *b && *places == *others,
        (Value::Text(a), Value::Text(b)) => same_octets(a.octets(), b.octets()),
        (Value::Bin(a), Value::Bin(b)) => same_octets(a.items(), b.items()),
        (Value::Enum(a), Value::Enum(b)) => same_octets(a.octets(), b.octets()),
        _ => false,
    }
}

fn same_octets(a: &[u8], b: &[u8]) -> bool
    ensures { result ≡ bytes_eq a.now b.now }
{
    a == b
}

/// Whether no two of the values are equal.
pub(crate) fn all_differ(values: &[Value]) -> bool
    ensures { result ≡ all_differ values.now }
{
    match values.split_first() {
        None => true,
        Some((value, others)) => !has_same(value, others) && all_differ(others),
    }
}

fn has_same(value: &Value, others: &[Value]) -> bool
    ensures { result ≡ list_any (same_scalar value.now) others.now }
{
    match others.split_first() {
        None => false,
        Some((other, rest)) => same_scalar(value, other) || has_same(value, rest),
    }
}

fn is_one_of(text: &Text, texts: &[Text]) -> bool
    ensures { result ≡ list_any (bytes_eq text.now) texts.now }
{
    match texts.split_first() {
        None => false,
        Some((other, others)) => { is_text(text, other.octets()) || is_one_of(text, others) }
    }
}

/// Whether the number is one of two's complement in so many bits.
fn fits_signed(width: u8, number: i64) -> bool
    ensures { result ≡ fits_signed width number }
{
    let places = if width == 0 { 0 } else { width - 1 };
    if number < 0 {
        return is_below_power(-(number + 1) as u64, places);
    }
    is_below_power(number as u64, places)
}

/// Whether the number needs no more binary digits than this.
#[tactic(auto, using(crate::proofs::Powers::halved))]
fn is_below_power(number: u64, places: u8) -> bool
    ensures { result ≡ nat_lt number (2 ^ places) }
{
    if places == 0 {
        return number == 0;
    }
    is_below_power(number / 2, places - 1)
}
