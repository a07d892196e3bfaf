// A leaf or a leaf-list as JSON (RFC 7951 5.1, 5.3 and 6).
ghost use Rattle.std.specs.Prelude.{◌≡◌, ◌++◌, false, map, Some, string_bytes, IfOk, IsUtf8, OnOk, OnErr};
ghost use Rattle.serde_json.specs.Data.{string};
ghost use Rattle.serde_json.specs.View.{view, items_of, items_view};
ghost use Rattle.base_kinds.specs.Keys.{key_text as key_text_of};
ghost use Rattle.base_kinds.specs.Values.{is_list};
ghost use Rattle.json_rows.specs.Rows.{data_of};
ghost use Rattle.json_text.specs.Leaves.{is_wide, scalar_data, leaf_data, leaf_text};

use base_kinds::{Bytes, NoMemory, Shape, Text, Value};
use serde_json::Value as Json;
use std::alloc::Global;
use value_core::key_text;

/// Adds the JSON text of a leaf or a leaf-list with values of the shape. After want of memory nothing is added.
///
/// The text is UTF-8, and serde_json reads it as the value.
#[tactic(auto, using(crate::proofs::Plain::leaf_has_no_float, crate::proofs::Depths::leaf_within, crate::proofs::Depths::data_read))]
pub fn leaf_json(
    alloc: Global,
    shape: &Shape,
    value: &Value,
    out: &mut Bytes,
) -> Result<(), NoMemory>
    ensures ok { OnOk result (out.new ≡ out.old ++ leaf_text shape.now value.now) }
    ensures reads { OnOk result (data_of (leaf_text shape.now value.now)
        ≡ Some (leaf_data shape.now value.now)) }
    ensures err { OnErr result (out.new ≡ out.old) }
{
    let json = value_json(alloc, shape, value)?;
    let text = json.to_vec(alloc);
    drop(json);
    match text {
        Ok(octets) => {
            let outcome = out.extend_from_slice(octets.as_slice());
            drop(octets);
            outcome
        }
        Err(_) => Err(NoMemory),
    }
}

/// A leaf or a leaf-list.
pub(crate) fn value_json(alloc: Global, shape: &Shape, value: &Value) -> Result<Json, NoMemory>
    ensures { IfOk result (λ json. view json ≡ leaf_data shape.now value.now) }
{
    match value {
        Value::List(values) => Ok(Json::Array(scalars_json(alloc, shape, values.items())?)),
        _ => scalar_json(alloc, shape, value),
    }
}

fn scalars_json(alloc: Global, shape: &Shape, values: &[Value]) -> Result<Vec<Json>, NoMemory>
    ensures { IfOk result (λ items. items_view items.items ≡ items_of
        (map (scalar_data shape.now) values.now)) }
{
    let mut items = Vec::with_capacity(alloc, values.len())?;
    for value in values {
        items.push(scalar_json(alloc, shape, value)?)?;
    }
    Ok(items)
}

fn scalar_json(alloc: Global, shape: &Shape, value: &Value) -> Result<Json, NoMemory>
    ensures { IfOk result (λ json. view json ≡ scalar_data shape.now value.now) }
{
    match value {
        Value::Bool(is) => Ok(Json::Bool(*is)),
        Value::Int(number) => {
            if is_wide(shape) {
                key_json(alloc, value)
            } else {
                Ok(Json::from(*number))
            }
        }
        Value::Uint(number) => {
            if is_wide(shape) {
                key_json(alloc, value)
            } else {
                Ok(Json::from(*number))
            }
        }
        Value::Text(text) | Value::Enum(text) => text_json(alloc, text),
        Value::Dec(_, _) | Value::Bin(_) => key_json(alloc, value),
        Value::List(_) => Ok(Json::Null),
    }
}

/// Whether the integers have 64 bits.
fn is_wide(shape: &Shape) -> bool
    ensures { result ≡ is_wide shape.now }
{
    match shape {
        Shape::Int(width) | Shape::Uint(width) => *width == 64,
        _ => false,
    }
}

/// The value's text as a key, as a string.
fn key_json(alloc: Global, value: &Value) -> Result<Json, NoMemory>
    requires { is_list value.now ≡ false }
    ensures { IfOk result (λ json. view json ≡ string (key_text_of value.now)) }
{
    match key_text(alloc, value) {
        Ok(text) => {
            let json = text_json(alloc, &text);
            drop(text);
            json
        }
        Err(NoMemory) => Err(NoMemory),
    }
}

fn text_json(alloc: Global, text: &Text) -> Result<Json, NoMemory>
    ensures { IfOk result (λ json. view json ≡ string text.now) }
{
    Ok(Json::String(string_of(alloc, text.octets())?))
}

fn string_of(alloc: Global, octets: &[u8]) -> Result<String, NoMemory>
    requires { IsUtf8 octets.now }
    ensures { IfOk result (λ text. string_bytes text ≡ octets.now) }
{
    match std::str::from_utf8(octets) {
        Ok(text) => Ok(String::from_str(alloc, text)?),
        Err(_) => unreachable!(),
    }
}
