// The shapes of leaves.
ghost use Rattle.std.specs.Prelude.{◌≡◌, IfOk};
ghost use Rattle.schema_text.specs.Words.{word_shape, integer_shape, decimal_shape, enum_shape, shape_of};

use crate::numbers::number_up_to;
use crate::octets::{after, before};
use crate::texts::read_enum_texts;
use base_kinds::{NoMemory, Shape};
use plain_texts::is_word;
use schema_core::MOST_PLACES;
use std::alloc::Global;

fn word_shape(field: &[u8]) -> Option<Shape>
    ensures { result ≡ word_shape field.now }
{
    if is_word(field, b"bool") {
        return Some(Shape::Bool);
    }
    if is_word(field, b"string") {
        return Some(Shape::Text);
    }
    if is_word(field, b"binary") {
        return Some(Shape::Bin);
    }
    None
}

fn integer_shape(field: &[u8]) -> Option<Shape>
    ensures { result ≡ integer_shape field.now }
{
    if is_word(field, b"int8") {
        return Some(Shape::Int(8));
    }
    if is_word(field, b"int16") {
        return Some(Shape::Int(16));
    }
    if is_word(field, b"int32") {
        return Some(Shape::Int(32));
    }
    if is_word(field, b"int64") {
        return Some(Shape::Int(64));
    }
    if is_word(field, b"uint8") {
        return Some(Shape::Uint(8));
    }
    if is_word(field, b"uint16") {
        return Some(Shape::Uint(16));
    }
    if is_word(field, b"uint32") {
        return Some(Shape::Uint(32));
    }
    if is_word(field, b"uint64") {
        return Some(Shape::Uint(64));
    }
    None
}

/// `dec` and a number from 1 to 18.
fn decimal_shape(field: &[u8]) -> Option<Shape>
    ensures { result ≡ decimal_shape field.now }
{
    let digits = after(field, b"dec")?;
    let places = number_up_to(MOST_PLACES, digits)?;
    Some(Shape::Dec(places as u8))
}

/// `enum(`, 1 to 256 texts and `)`.
fn enum_shape(alloc: Global, field: &[u8]) -> Result<Option<Shape>, NoMemory>
    ensures { IfOk result (λ shape. shape ≡ enum_shape field.now) }
{
    let Some(opened) = after(field, b"enum(") else {
        return Ok(None);
    };
    let Some(texts) = before(opened, b")") else {
        return Ok(None);
    };
    let Some(texts) = read_enum_texts(alloc, texts)? else {
        return Ok(None);
    };
    Ok(Some(Shape::Enum(texts)))
}

/// The shape that the field names.
pub(crate) fn read_shape(alloc: Global, field: &[u8]) -> Result<Option<Shape>, NoMemory>
    ensures { IfOk result (λ shape. shape ≡ shape_of field.now) }
{
    if let Some(shape) = word_shape(field) {
        return Ok(Some(shape));
    }
    if let Some(shape) = integer_shape(field) {
        return Ok(Some(shape));
    }
    if let Some(shape) = decimal_shape(field) {
        return Ok(Some(shape));
    }
    enum_shape(alloc, field)
}
