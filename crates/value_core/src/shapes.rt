// Whether a value has a shape.
ghost use Rattle.std.specs.Prelude.{◌≡◌, ◌-◌, ◌^◌, nat_lt};
ghost use Rattle.base_kinds.specs.Values.{fits_signed, has_shape};

use base_kinds::{Shape, Value};
use plain_texts::has_text;

/// Whether the value is one of a leaf of this shape: of the same kind, in its range, with its digits behind the point,
/// or listed. The values of a leaf-list are looked at one by one; a list itself has no shape. Takes no memory.
pub fn check_value(shape: &Shape, value: &Value) -> bool
    ensures { result ≡ has_shape shape.now value.now }
{
    match (shape, value) {
        (Shape::Bool, Value::Bool(_)) => true,
        (Shape::Int(width), Value::Int(number)) => fits_signed(*width, *number),
        (Shape::Uint(width), Value::Uint(number)) => is_below_power(*number, *width),
        (Shape::Dec(places), Value::Dec(_, others)) => places == others,
        (Shape::Text, Value::Text(_)) => true,
        (Shape::Bin, Value::Bin(_)) => true,
        (Shape::Enum(texts), Value::Enum(text)) => has_text(text.octets(), texts.items()),
        _ => false,
    }
}

/// Whether the number is one of two's complement in so many bits.
pub(crate) fn fits_signed(width: u8, number: i64) -> bool
    ensures { result ≡ fits_signed width number }
{
    let magnitude = if number < 0 {
        -(number + 1) as u64
    } else {
        number as u64
    };
    is_below_power(magnitude, width.saturating_sub(1))
}

/// Whether the number needs no more binary digits than this.
pub(crate) fn is_below_power(number: u64, places: u8) -> bool
    ensures { result ≡ nat_lt number (2 ^ places) }
{
    places >= 64 || number < 1 << places
}
