// How long an entry's record is. Each function adds to a count that stops at the greatest number.
ghost use Rattle.std.specs.Prelude.{◌≡◌, ◌+◌, sum_by};
ghost use Rattle.base_kinds.specs.Records.{counted, text_octets, key_octets, elem_octets, path_octets, value_octets, row_octets, op_octets, ops_octets, kind_octets, record_octets};

use crate::entry::{Entry, Kind};
use crate::operation::{Op, Ops, Row, Rows};
use crate::path::{Elem, Keys, Path};
use crate::value::Value;
use base_lists::{Bytes, Text};

impl Entry {
    /// The length of the entry's record in a journal, or 18446744073709551615 where it is longer.
    pub fn record_octets(&self) -> u64
        ensures { result ≡ counted (record_octets self.now) }
    {
        add_kind(13, &self.kind)
    }
}

fn add_kind(count: u64, kind: &Kind) -> u64
    ensures { result ≡ counted (count + kind_octets kind.now) }
{
    match kind {
        Kind::Apply(ops) => add_ops(count, ops),
        Kind::Trial(id, ops, _) => add_ops(add_text(count, id).saturating_add(8), ops),
        Kind::Extend(_) => count.saturating_add(8),
        Kind::Confirm | Kind::Cancel | Kind::Expire | Kind::Restart => count,
    }
}

fn add_ops(count: u64, ops: &Ops) -> u64
    ensures { result ≡ counted (count + ops_octets ops.now) }
{
    let mut sum = count.saturating_add(4);
    for op in ops.items() {
        sum = add_op(sum, op);
    }
    sum
}

fn add_op(count: u64, op: &Op) -> u64
    ensures { result ≡ counted (count + op_octets op.now) }
{
    add_rows(add_path(count.saturating_add(1), &op.path), &op.rows)
}

fn add_rows(count: u64, rows: &Rows) -> u64
    ensures { result ≡ counted (count + (4 + sum_by row_octets rows.now)) }
{
    let mut sum = count.saturating_add(4);
    for row in rows.items() {
        sum = add_row(sum, row);
    }
    sum
}

fn add_row(count: u64, row: &Row) -> u64
    ensures { result ≡ counted (count + row_octets row.now) }
{
    add_value(add_path(count, &row.path), &row.value)
}

fn add_path(count: u64, path: &Path) -> u64
    ensures { result ≡ counted (count + path_octets path.now) }
{
    let mut sum = count.saturating_add(2);
    for elem in path.items() {
        sum = add_elem(sum, elem);
    }
    sum
}

fn add_elem(count: u64, elem: &Elem) -> u64
    ensures { result ≡ counted (count + elem_octets elem.now) }
{
    add_keys(add_text(count, &elem.name), &elem.keys)
}

fn add_keys(count: u64, keys: &Keys) -> u64
    ensures { result ≡ counted (count + (2 + sum_by key_octets keys.now)) }
{
    let mut sum = count.saturating_add(2);
    for key in keys.items() {
        sum = add_text(add_text(sum, &key.0), &key.1);
    }
    sum
}

fn add_text(count: u64, text: &Text) -> u64
    ensures { result ≡ counted (count + text_octets text.now) }
{
    add_octets(count, text.octets())
}

fn add_bytes(count: u64, octets: &Bytes) -> u64
    ensures { result ≡ counted (count + text_octets octets.now) }
{
    add_octets(count, octets.items())
}

fn add_octets(count: u64, octets: &[u8]) -> u64
    ensures { result ≡ counted (count + text_octets octets.now) }
{
    count.saturating_add(4).saturating_add(octets.len() as u64)
}

#[cycle(values)]
#[tactic(auto, using(crate::proofs::Lists::of_a_list))]
fn add_value(count: u64, value: &Value) -> u64
    ensures { result ≡ counted (count + value_octets value.now) }
{
    match value {
        Value::Bool(_) => count.saturating_add(2),
        Value::Int(_) | Value::Uint(_) => count.saturating_add(9),
        Value::Dec(_, _) => count.saturating_add(10),
        Value::Text(text) | Value::Enum(text) => add_text(count.saturating_add(1), text),
        Value::Bin(octets) => add_bytes(count.saturating_add(1), octets),
        Value::List(values) => add_values(count.saturating_add(5), values.items()),
    }
}

#[cycle(values)]
fn add_values(count: u64, values: &[Value]) -> u64
    ensures { result ≡ counted (count + sum_by value_octets values.now) }
{
    let mut sum = count;
    for value in values {
        sum = add_value(sum, value);
    }
    sum
}
