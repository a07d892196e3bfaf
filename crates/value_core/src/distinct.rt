// Whether the values of a leaf-list are equal (RFC 7950 7.7).
ghost use Rattle.std.specs.Prelude.{◌≡◌, ◌≤◌, length, IfOk, IsOk};
ghost use Rattle.std.specs.List.{list_any};
ghost use Rattle.base_kinds.specs.Values.{same_scalar, all_differ};
ghost use Rattle.value_core.specs.Scalars.{few_values};

use crate::scalar::scalar_of;
use base_kinds::{NoMemory, Value};
use std::alloc::Global;
use std::collections::BTreeSet;

/// So many values are compared each with each, which is cheaper than to sort them.
const FEW_VALUES: usize = 16;

/// Whether no two of the values are equal (RFC 7950 7.7). Memory is taken only where there are more than a few.
pub fn all_differ(alloc: Global, values: &[Value]) -> Result<bool, NoMemory>
    ensures ok { IfOk result (λ is. is ≡ all_differ values.now) }
    ensures few { length values.now ≤ few_values → IsOk result }
{
    if values.len() <= FEW_VALUES {
        Ok(few_differ(values))
    } else {
        many_differ(alloc, values)
    }
}

/// The same by comparing each two values.
fn few_differ(values: &[Value]) -> bool
    ensures { result ≡ all_differ values.now }
{
    for (n, value) in values.iter().enumerate() {
        if has_same(value, &values[n + 1..]) {
            return false;
        }
    }
    true
}

/// The same from the last value to the first, where those behind it are kept in order.
fn many_differ(alloc: Global, values: &[Value]) -> Result<bool, NoMemory>
    ensures { IfOk result (λ is. is ≡ all_differ values.now) }
{
    let mut behind = BTreeSet::new(alloc);
    for n in (0..values.len()).rev() {
        if let Some(scalar) = scalar_of(&values[n]) {
            let added = match behind.insert(scalar) {
                Ok(added) => added,
                Err(failed) => {
                    drop(failed);
                    drop(behind);
                    return Err(NoMemory);
                }
            };
            if !added {
                drop(behind);
                return Ok(false);
            }
        }
    }
    drop(behind);
    Ok(true)
}

fn has_same(value: &Value, others: &[Value]) -> bool
    ensures { result ≡ list_any (same_scalar value.now) others.now }
{
    for other in others {
        if same_scalar(value, other) {
            return true;
        }
    }
    false
}

/// Whether two values that are no lists are equal.
pub fn same_scalar(a: &Value, b: &Value) -> bool
    ensures { result ≡ same_scalar a.now b.now }
{
    match (a, b) {
        (Value::Bool(a), Value::Bool(b)) => a == b,
        (Value::Int(a), Value::Int(b)) => a == b,
        (Value::Uint(a), Value::Uint(b)) => a == b,
        (Value::Dec(a, places), Value::Dec(b, others)) => a == b && places == others,
        (Value::Text(a), Value::Text(b)) => a.octets() == b.octets(),
        (Value::Bin(a), Value::Bin(b)) => a.items() == b.items(),
        (Value::Enum(a), Value::Enum(b)) => a.octets() == b.octets(),
        _ => false,
    }
}
