// What rows weigh. Each function adds to a sum that stops at the greatest number.
ghost use Rattle.std.specs.Prelude.{◌≡◌, ◌+◌, ◌*◌, length, sum_by};
ghost use Rattle.base_kinds.specs.Records.{counted};
ghost use Rattle.base_kinds.specs.Weights.{elem_weight, key_weight, row_weight, tree_weight, value_weight};

use base_kinds::{Elem, Keys, Path, Row, Value};

pub fn add_rows(sum: u64, rows: &[Row]) -> u64
    ensures { result ≡ counted (sum + tree_weight rows.now) }
{
    let mut whole = sum;
    for row in rows {
        whole = add_row(whole, row);
    }
    whole
}

fn add_row(sum: u64, row: &Row) -> u64
    ensures { result ≡ counted (sum + row_weight row.now) }
{
    add_value(add_path(sum.saturating_add(64), &row.path), &row.value)
}

fn add_path(sum: u64, path: &Path) -> u64
    ensures { result ≡ counted (sum + sum_by elem_weight path.now) }
{
    let mut whole = sum;
    for elem in path.items() {
        whole = add_elem(whole, elem);
    }
    whole
}

fn add_elem(sum: u64, elem: &Elem) -> u64
    ensures { result ≡ counted (sum + elem_weight elem.now) }
{
    let named = add_octets(sum.saturating_add(16), elem.name.octets());
    add_keys(named, &elem.keys)
}

fn add_keys(sum: u64, keys: &Keys) -> u64
    ensures { result ≡ counted (sum + sum_by key_weight keys.now) }
{
    let mut whole = sum;
    for key in keys.items() {
        whole = add_octets(
            add_octets(whole.saturating_add(16), key.0.octets()),
            key.1.octets(),
        );
    }
    whole
}

fn add_octets(sum: u64, octets: &[u8]) -> u64
    ensures { result ≡ counted (sum + length octets.now) }
{
    sum.saturating_add(octets.len() as u64)
}

#[cycle(values)]
#[tactic(auto, using(base_kinds::proofs::Lists::of_a_list))]
fn add_value(sum: u64, value: &Value) -> u64
    ensures { result ≡ counted (sum + value_weight value.now) }
{
    match value {
        Value::Bool(_) => sum.saturating_add(8),
        Value::Int(_) | Value::Uint(_) | Value::Dec(_, _) => sum.saturating_add(32),
        Value::Text(text) | Value::Enum(text) => add_times(sum, 2, 6, text.octets()),
        Value::Bin(octets) => add_times(sum, 8, 2, octets.items()),
        Value::List(values) => add_values(sum.saturating_add(8), values.items()),
    }
}

/// Adds this much, and so much for each octet.
fn add_times(sum: u64, base: u64, each: u64, octets: &[u8]) -> u64
    ensures { result ≡ counted (sum + (base + each * length octets.now)) }
{
    sum.saturating_add(base)
        .saturating_add(each.saturating_mul(octets.len() as u64))
}

#[cycle(values)]
fn add_values(sum: u64, values: &[Value]) -> u64
    ensures { result ≡ counted (sum + sum_by (λ value. value_weight value + 8) values.now) }
{
    let mut whole = sum;
    for value in values {
        whole = add_value(whole.saturating_add(8), value);
    }
    whole
}
