// How many rows a tree may have, and what they may weigh: a bound on what they take in JSON (this project's own
// measure).
ghost use Rattle.std.specs.Prelude.{◌≡◌, ◌*◌, length, nat_le, sum_by, ◌+◌};
ghost use Rattle.base_kinds.specs.Limits.{most_weight};
ghost use Rattle.base_kinds.specs.Valid.{fits};
ghost use Rattle.base_kinds.specs.Weights.{value_weight, key_weight, elem_weight, row_weight, tree_weight};
ghost use Rattle.tree_check.specs.inner.WeightLeft.{IsLeft};

use base_kinds::{Elem, MOST_LEAVES, MOST_WEIGHT, Row, Text, Value};

pub(crate) fn fits(rows: &[Row]) -> bool
    ensures { result ≡ fits rows.now }
{
    rows.len() <= MOST_LEAVES && is_light(rows)
}

/// Whether the rows weigh no more than a tree may. Stops at the row that is too much.
fn is_light(rows: &[Row]) -> bool
    ensures { result ≡ nat_le (tree_weight rows.now) most_weight }
{
    let mut left = MOST_WEIGHT;
    for row in rows {
        match after_row(left, row) {
            None => return false,
            Some(rest) => left = rest,
        }
    }
    true
}

fn after_row(left: u64, row: &Row) -> Option<u64>
    ensures { IsLeft left (row_weight row.now) result }
{
    let Some(left) = left.checked_sub(64) else {
        return None;
    };
    let Some(left) = after_value(left, &row.value) else {
        return None;
    };
    after_elems(left, row.path.items())
}

fn after_elems(left: u64, elems: &[Elem]) -> Option<u64>
    ensures { IsLeft left (sum_by elem_weight elems.now) result }
{
    let mut left = left;
    for elem in elems {
        match after_elem(left, elem) {
            None => return None,
            Some(rest) => left = rest,
        }
    }
    Some(left)
}

fn after_elem(left: u64, elem: &Elem) -> Option<u64>
    ensures { IsLeft left (elem_weight elem.now) result }
{
    let Some(left) = after_text(left, 16, 1, elem.name.octets()) else {
        return None;
    };
    after_keys(left, elem.keys.items())
}

fn after_keys(left: u64, keys: &[(Text, Text)]) -> Option<u64>
    ensures { IsLeft left (sum_by key_weight keys.now) result }
{
    let mut left = left;
    for key in keys {
        match after_key(left, key) {
            None => return None,
            Some(rest) => left = rest,
        }
    }
    Some(left)
}

fn after_key(left: u64, key: &(Text, Text)) -> Option<u64>
    ensures { IsLeft left (key_weight key.now) result }
{
    let Some(left) = after_text(left, 16, 1, key.0.octets()) else {
        return None;
    };
    after_octets(left, 1, key.1.octets())
}

#[cycle(value_weight)]
#[tactic(auto, using(base_kinds::proofs::Lists::of_a_list))]
fn after_value(left: u64, value: &Value) -> Option<u64>
    ensures { IsLeft left (value_weight value.now) result }
{
    match value {
        Value::Bool(_) => left.checked_sub(8),
        Value::Int(_) | Value::Uint(_) | Value::Dec(..) => left.checked_sub(32),
        Value::Text(text) | Value::Enum(text) => after_text(left, 2, 6, text.octets()),
        Value::Bin(octets) => after_text(left, 8, 2, octets.items()),
        Value::List(values) => match left.checked_sub(8) {
            None => None,
            Some(rest) => after_values(rest, values.items()),
        },
    }
}

/// The weight of each value of a list is its own and 8.
#[cycle(value_weight)]
fn after_values(left: u64, values: &[Value]) -> Option<u64>
    ensures { IsLeft left (sum_by (λ value. value_weight value + 8) values.now) result }
{
    let mut left = left;
    for value in values {
        let Some(rest) = after_value(left, value) else {
            return None;
        };
        match rest.checked_sub(8) {
            None => return None,
            Some(rest) => left = rest,
        }
    }
    Some(left)
}

/// What is left after a weight of its own, and octets that weigh so much each.
fn after_text(left: u64, own: u64, each: u64, octets: &[u8]) -> Option<u64>
    ensures { IsLeft left (own + each * length octets.now) result }
{
    match left.checked_sub(own) {
        None => None,
        Some(rest) => after_octets(rest, each, octets),
    }
}

/// What is left after octets that weigh so much each.
fn after_octets(left: u64, each: u64, octets: &[u8]) -> Option<u64>
    ensures { IsLeft left (each * length octets.now) result }
{
    match each.checked_mul(octets.len() as u64) {
        None => None,
        Some(weight) => left.checked_sub(weight),
    }
}
