// The values of leaves, in an order that tells all of them apart.
ghost use Rattle.std.specs.Prelude.{◌≡◌, Some, None, if◌then◌else◌};
ghost use Rattle.std.specs.Option.{option_map};
ghost use Rattle.base_kinds.specs.Values.{is_list};
ghost use Rattle.value_core.specs.Scalars.{value_of};

use base_kinds::Value;

/// The value of a leaf where it stands in a tree: texts and octets are borrowed. Values of one sort are in order, and
/// the sorts are in the order in which they stand here.
#[derive(Clone, Copy, PartialEq, Eq, PartialOrd, Ord)]
pub enum Scalar<'a> {
    Bool(bool),
    Int(i64),
    Uint(u64),
    Dec(i64, u8),
    Text(&'a [u8]),
    Bin(&'a [u8]),
    Enum(&'a [u8]),
}

/// The value as a scalar; that of a leaf-list is none.
pub fn scalar_of(value: &Value) -> Option<Scalar<'_>>
    ensures { option_map value_of result ≡ (if is_list value.now then None else Some value.now) }
{
    match value {
        Value::Bool(is) => Some(Scalar::Bool(*is)),
        Value::Int(number) => Some(Scalar::Int(*number)),
        Value::Uint(number) => Some(Scalar::Uint(*number)),
        Value::Dec(digits, places) => Some(Scalar::Dec(*digits, *places)),
        Value::Text(text) => Some(Scalar::Text(text.octets())),
        Value::Bin(octets) => Some(Scalar::Bin(octets.items())),
        Value::Enum(text) => Some(Scalar::Enum(text.octets())),
        Value::List(_) => None,
    }
}
