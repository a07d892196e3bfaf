//! Reading a TypedValue.
ghost use Rattle.std.specs.Prelude.{◌≡◌, IfOk};
ghost use Rattle.pb_wire.specs.Message.{AreWithin};
ghost use Rattle.pb_wire.specs.Values.{joined_octets, one_of};
ghost use Rattle.std.specs.Option.{option_map};
ghost use Rattle.gnmi_data_msg.specs.Numbers.{array_element, decimal_val, leaflist_val};
ghost use Rattle.gnmi_data_msg.specs.Parts.{IsReadAs, messages_in};
ghost use Rattle.gnmi_data_msg.specs.TypedValues.{members, precision_of, decimal_of, number_in, scalar_in, typed_fields, element_of, with_last, scalars_of, list_given, list_of, scalar_given, given_in, typed_of};

use crate::fault::MsgFault;
use crate::numbers::{
    ANY_VAL, ARRAY_ELEMENT, ASCII_VAL, BOOL_VAL, BYTES_VAL, DECIMAL_DIGITS, DECIMAL_PRECISION,
    DECIMAL_VAL, DOUBLE_VAL, FLOAT_VAL, INT_VAL, JSON_IETF_VAL, JSON_VAL, LEAFLIST_VAL,
    PROTO_BYTES, STRING_VAL, UINT_VAL,
};
use crate::parts::{are_texts, fields_in, text_of};
use base_kinds::{Given, Value, Values};
use base_lists::{Bytes, NoMemory, Seq};
use pb_wire::{Field, Fields, joined, last_octets, last_varint, octets_of, one_of};
use std::alloc::Global;

/// The members of the oneof, each with its wire type.
fn members() -> &'static [(u32, u8)]
    ensures { result.now ≡ members }
{
    &[
        (STRING_VAL, 2),
        (INT_VAL, 0),
        (UINT_VAL, 0),
        (BOOL_VAL, 0),
        (BYTES_VAL, 2),
        (FLOAT_VAL, 5),
        (DECIMAL_VAL, 2),
        (LEAFLIST_VAL, 2),
        (ANY_VAL, 2),
        (JSON_VAL, 2),
        (JSON_IETF_VAL, 2),
        (ASCII_VAL, 2),
        (PROTO_BYTES, 2),
        (DOUBLE_VAL, 1),
    ]
}

/// The fields from the oneof's last member on, with its occurrences directly before. What isn't a member among them holds
/// nothing under the numbers of the members.
fn held<'a>(octets: &[u8], fields: &'a [Field]) -> &'a [Field]
    requires { AreWithin octets.now fields.now }
    ensures scalar { scalar_in octets.now result.now ≡ scalar_in octets.now
        (one_of members fields.now) }
    ensures given { given_in octets.now result.now ≡ given_in octets.now
        (one_of members fields.now) }
    ensures within { AreWithin octets.now result.now }
{
    one_of(fields, members())
}

/// The fields of a TypedValue, whose strings are UTF-8.
#[tactic(auto, unfolding(crate::specs::TypedValues::typed_fields))]
fn typed_fields(alloc: Global, octets: &[u8]) -> Result<Fields, MsgFault>
    ensures value { IsReadAs result (typed_fields octets.now) }
    ensures within { IfOk result (λ fields. AreWithin octets.now fields) }
{
    let fields = fields_in(alloc, octets)?;
    if are_texts(octets, fields.items(), STRING_VAL)
        && are_texts(octets, fields.items(), ASCII_VAL)
    {
        Ok(fields)
    } else {
        Err(MsgFault::BadMessage)
    }
}

/// A uint32, of which 255 and all above it are 255.
fn precision_of(number: u64) -> u8
    ensures { result ≡ precision_of number }
{
    let low = number % (1 << 32);
    if low > 255 { 255 } else { low as u8 }
}

/// The decimal that the octets of a Decimal64 are.
#[tactic(auto, unfolding(crate::specs::TypedValues::decimal_of))]
fn decimal_of(alloc: Global, octets: &[u8]) -> Result<Value, MsgFault>
    ensures { IsReadAs result (decimal_of octets.now) }
{
    let fields = fields_in(alloc, octets)?;
    let digits = last_varint(fields.items(), DECIMAL_DIGITS).unwrap_or(0);
    let precision = last_varint(fields.items(), DECIMAL_PRECISION).unwrap_or(0);
    Ok(Value::Dec(digits.cast_signed(), precision_of(precision)))
}

/// The decimal whose occurrences are joined.
fn joined_decimal(alloc: Global, octets: &[u8], run: &[Field]) -> Result<Value, MsgFault>
    requires { AreWithin octets.now run.now }
    ensures { IsReadAs result (decimal_of (joined_octets octets.now decimal_val run.now)) }
{
    let mut whole = Bytes::empty(alloc);
    joined(octets, run, DECIMAL_VAL, &mut whole)?;
    decimal_of(alloc, whole.items())
}

/// The number or truth value that the run holds.
#[tactic(auto, unfolding(crate::specs::TypedValues::number_in))]
fn number_in(run: &[Field]) -> Option<Value>
    ensures { result ≡ number_in run.now }
{
    if let Some(number) = last_varint(run, INT_VAL) {
        return Some(Value::Int(number.cast_signed()));
    }
    if let Some(number) = last_varint(run, UINT_VAL) {
        return Some(Value::Uint(number));
    }
    let number = last_varint(run, BOOL_VAL)?;
    Some(Value::Bool(number != 0))
}

/// The scalar that the run holds, if a leaf can have it.
#[tactic(auto, unfolding(crate::specs::TypedValues::scalar_in))]
fn scalar_in(alloc: Global, octets: &[u8], run: &[Field]) -> Result<Option<Value>, MsgFault>
    requires { AreWithin octets.now run.now }
    ensures { IsReadAs result (scalar_in octets.now run.now) }
{
    if let Some(text) = last_octets(octets, run, STRING_VAL) {
        let text = text_of(alloc, text)?;
        return Ok(Some(Value::Text(text)));
    }
    if let Some(bytes) = last_octets(octets, run, BYTES_VAL) {
        let bytes = Bytes::of(alloc, bytes)?;
        return Ok(Some(Value::Bin(bytes)));
    }
    if last_octets(octets, run, DECIMAL_VAL).is_some() {
        let decimal = joined_decimal(alloc, octets, run)?;
        return Ok(Some(decimal));
    }
    Ok(number_in(run))
}

/// The scalar of an element of a ScalarArray, if it holds one.
#[tactic(auto, unfolding(crate::specs::TypedValues::element_of))]
fn element_of(alloc: Global, octets: &[u8]) -> Result<Option<Value>, MsgFault>
    ensures { IsReadAs result (element_of octets.now) }
{
    let fields = typed_fields(alloc, octets)?;
    scalar_in(alloc, octets, held(octets, fields.items()))
}

/// The scalars and one more, where all are scalars.
fn with_last(scalars: Option<Values>, element: Option<Value>) -> Result<Option<Values>, NoMemory>
    ensures { IfOk result (λ more. more ≡ with_last scalars element) }
{
    let Some(scalars) = scalars else {
        return Ok(None);
    };
    let Some(scalar) = element else {
        return Ok(None);
    };
    let mut more = scalars;
    more.push(scalar)?;
    Ok(Some(more))
}

/// The scalars of the elements, where all are scalars.
fn scalars_in(alloc: Global, octets: &[u8], fields: &[Field]) -> Result<Option<Values>, MsgFault>
    requires { AreWithin octets.now fields.now }
    ensures { IsReadAs result (option_map scalars_of
        (messages_in element_of octets.now array_element fields.now)) }
{
    let mut scalars = Some(Seq::empty(alloc));
    for field in fields {
        if let Some(piece) = octets_of(octets, field, ARRAY_ELEMENT) {
            let element = element_of(alloc, piece)?;
            scalars = with_last(scalars, element)?;
        }
    }
    Ok(scalars)
}

fn list_given(scalars: Option<Values>) -> Given
    ensures { result ≡ list_given scalars }
{
    match scalars {
        Some(scalars) => Given::Scalar(Value::List(scalars)),
        None => Given::Missing,
    }
}

/// The list that the octets of a ScalarArray are, or a missing value where an element isn't a scalar.
#[tactic(auto, unfolding(crate::specs::TypedValues::list_of))]
fn list_of(alloc: Global, octets: &[u8]) -> Result<Given, MsgFault>
    ensures { IsReadAs result (list_of octets.now) }
{
    let fields = fields_in(alloc, octets)?;
    let scalars = scalars_in(alloc, octets, fields.items())?;
    Ok(list_given(scalars))
}

/// The list whose occurrences are joined.
fn joined_list(alloc: Global, octets: &[u8], run: &[Field]) -> Result<Given, MsgFault>
    requires { AreWithin octets.now run.now }
    ensures { IsReadAs result (list_of (joined_octets octets.now leaflist_val run.now)) }
{
    let mut whole = Bytes::empty(alloc);
    joined(octets, run, LEAFLIST_VAL, &mut whole)?;
    list_of(alloc, whole.items())
}

fn scalar_given(scalar: Option<Value>) -> Given
    ensures { result ≡ scalar_given scalar }
{
    match scalar {
        Some(scalar) => Given::Scalar(scalar),
        None => Given::Missing,
    }
}

/// What the run gives.
#[tactic(auto, unfolding(crate::specs::TypedValues::given_in))]
fn given_in(alloc: Global, octets: &[u8], run: &[Field]) -> Result<Given, MsgFault>
    requires { AreWithin octets.now run.now }
    ensures { IsReadAs result (given_in octets.now run.now) }
{
    if let Some(json) = last_octets(octets, run, JSON_VAL) {
        let json = Bytes::of(alloc, json)?;
        return Ok(Given::Json(json));
    }
    if let Some(json) = last_octets(octets, run, JSON_IETF_VAL) {
        let json = Bytes::of(alloc, json)?;
        return Ok(Given::Json(json));
    }
    if last_octets(octets, run, LEAFLIST_VAL).is_some() {
        return joined_list(alloc, octets, run);
    }
    let scalar = scalar_in(alloc, octets, run)?;
    Ok(scalar_given(scalar))
}

/// The value that the octets of a TypedValue are: JSON, a scalar, a list of scalars, or a missing value, which the members
/// that no leaf takes are read as. BadMessage where the octets aren't fields, or those of a Decimal64 or a ScalarArray that
/// is held aren't, or where a string isn't UTF-8.
#[tactic(auto, unfolding(crate::specs::TypedValues::typed_of))]
pub fn read_typed(alloc: Global, octets: &[u8]) -> Result<Given, MsgFault>
    ensures { IsReadAs result (typed_of octets.now) }
{
    let fields = typed_fields(alloc, octets)?;
    given_in(alloc, octets, held(octets, fields.items()))
}
