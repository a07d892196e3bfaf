// The values that JSON values mean at leaves and leaf-lists.
ghost use Rattle.std.specs.Prelude.{◌≡◌, false, IfOk, IfSome};
ghost use Rattle.std.specs.Option.{option_copied};
ghost use Rattle.base_kinds.specs.declared.schema.Shape.TheVariants as shapes;
ghost use Rattle.base_kinds.specs.Values.{is_list};
ghost use Rattle.serde_json.specs.Data.{number as number_data_of, string};
ghost use Rattle.serde_json.specs.View.{view, number_view};
ghost use Rattle.json_rows.specs.Leaves.{value_of_data, leaf_of, leaf_at};

use crate::texts::{octets_of, text_of};
use base_kinds::{NoMemory, Shape, Value};
use plain_texts::natural_of;
use serde_json::{Number, Value as Json};
use std::alloc::Global;
use value_core::{check_value, read_decimal, read_integer};

fn int_of(width: u8, json: &Json) -> Option<Value>
    ensures { result ≡ value_of_data (shapes.Int width) (view json.now) }
{
    match json {
        Json::Number(number) => number.as_i64().map(Value::Int),
        Json::String(text) => if width == 64 {
            read_integer(text.as_bytes()).map(Value::Int)
        } else {
            None
        },
        _ => None,
    }
}

fn uint_of(width: u8, json: &Json) -> Option<Value>
    ensures { result ≡ value_of_data (shapes.Uint width) (view json.now) }
{
    match json {
        Json::Number(number) => number.as_u64().map(Value::Uint),
        Json::String(text) => if width == 64 {
            natural_of(text.as_bytes()).map(Value::Uint)
        } else {
            None
        },
        _ => None,
    }
}

/// The decimal that the text of the integer spells.
fn decimal_of_integer(alloc: Global, places: u8, number: &Number) -> Result<Option<Value>, NoMemory>
    ensures { IfOk result (λ value. value ≡ value_of_data (shapes.Dec places)
        (number_data_of (number_view number.now))) }
{
    let Some(integer) = number.as_i64() else {
        return Ok(None);
    };
    let text = format!(in alloc; "{integer}")?;
    Ok(decimal_of_text(places, text.as_bytes()))
}

fn decimal_of_text(places: u8, text: &[u8]) -> Option<Value>
    ensures { result ≡ value_of_data (shapes.Dec places) (string text.now) }
{
    let digits = read_decimal(places, text)?;
    Some(Value::Dec(digits, places))
}

/// What the JSON value would mean, before its range or the listed texts are looked at.
fn value_of_data(alloc: Global, shape: &Shape, json: &Json) -> Result<Option<Value>, NoMemory>
    ensures { IfOk result (λ value. value ≡ value_of_data shape.now (view json.now)) }
{
    match (shape, json) {
        (Shape::Bool, Json::Bool(is)) => Ok(Some(Value::Bool(*is))),
        (Shape::Int(width), _) => Ok(int_of(*width, json)),
        (Shape::Uint(width), _) => Ok(uint_of(*width, json)),
        (Shape::Dec(places), Json::Number(number)) => decimal_of_integer(alloc, *places, number),
        (Shape::Dec(places), Json::String(text)) => Ok(decimal_of_text(*places, text.as_bytes())),
        (Shape::Text, Json::String(text)) => Ok(Some(Value::Text(text_of(alloc, text.as_str())?))),
        (Shape::Bin, Json::String(text)) => Ok(octets_of(alloc, text.as_bytes())?.map(Value::Bin)),
        (Shape::Enum(_), Json::String(text)) => Ok(Some(Value::Enum(text_of(
            alloc,
            text.as_str(),
        )?))),
        _ => Ok(None),
    }
}

/// The value of the shape that the JSON value means.
pub(crate) fn leaf_of(alloc: Global, shape: &Shape, json: &Json) -> Result<Option<Value>, NoMemory>
    ensures ok { IfOk result (λ value. value ≡ leaf_of shape.now (view json.now)) }
    ensures scalar { IfOk result (λ value. IfSome value (λ v. is_list v ≡ false)) }
{
    match value_of_data(alloc, shape, json) {
        Ok(Some(value)) => if check_value(shape, &value) {
            Ok(Some(value))
        } else {
            drop(value);
            Ok(None)
        },
        other => other,
    }
}

/// The same at a node, which has a shape where it is a leaf or a leaf-list.
pub(crate) fn leaf_at(
    alloc: Global,
    shape: Option<&Shape>,
    json: &Json,
) -> Result<Option<Value>, NoMemory>
    ensures ok { IfOk result (λ value. value ≡ leaf_at (option_copied shape.entry)
        (view json.now)) }
    ensures scalar { IfOk result (λ value. IfSome value (λ v. is_list v ≡ false)) }
{
    match shape {
        None => Ok(None),
        Some(shape) => leaf_of(alloc, shape, json),
    }
}
