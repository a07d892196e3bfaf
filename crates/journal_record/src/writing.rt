// Writing the record of an entry.
ghost use Rattle.std.specs.Prelude.{◌≡◌, ◌+◌, ◌^◌, ◌<◌, ◌≤◌, ◌∷◌, [], ◌++◌, sum_by, vec_len, vec_capacity, IsOk, OnOk, OnErr};
ghost use Rattle.std.specs.List.{flat_map, AllByRecursion};
ghost use Rattle.base_kinds.specs.Records.{path_octets, value_octets, row_octets, ops_octets, kind_octets, record_octets};
ghost use Rattle.journal_record.specs.Spelling.{act_octet, path_spelling, value_spelling, rows_spelling, ops_spelling, kind_spelling, record_of};
ghost use Rattle.journal_record.specs.Representable.{IsRepresentablePath, IsRepresentableValue, IsRepresentableRow, AreRepresentableOps, IsRepresentableKind, IsRepresentable};

use crate::putting::{
    Spelled, put_all, put_counted, put_eight, put_four, put_octets, put_signed, put_text, put_two,
};
use base_kinds::{
    Act, Bytes, Elem, Entry, Kind, NoMemory, Op, Ops, Path, Row, Rows, Seq, Text, Value,
};
use std::alloc::Global;
use std::mem;

impl Spelled for (Text, Text) {
    ghost use Rattle.base_kinds.specs.Records.{key_octets};
    ghost use Rattle.journal_record.specs.Spelling.{key_spelling};
    ghost use Rattle.journal_record.specs.Representable.{IsRepresentableKey};

    ghost spelling = { key_spelling };

    ghost octets = { key_octets };

    ghost is_representable = { IsRepresentableKey };

    #[tactic(auto, unfolding(crate::specs::Spelling::key_spelling))]
    fn put(&self, out: &mut Vec<u8>) {
        put_text(&self.0, out);
        put_text(&self.1, out);
    }
}

impl Spelled for Elem {
    ghost use Rattle.base_kinds.specs.Records.{elem_octets};
    ghost use Rattle.journal_record.specs.Spelling.{elem_spelling};
    ghost use Rattle.journal_record.specs.Representable.{IsRepresentableElem};

    ghost spelling = { elem_spelling };

    ghost octets = { elem_octets };

    ghost is_representable = { IsRepresentableElem };

    #[tactic(auto, unfolding(crate::specs::Spelling::elem_spelling, crate::specs::Spelling::keys_spelling))]
    fn put(&self, out: &mut Vec<u8>) {
        put_text(&self.name, out);
        put_two(self.keys.len(), out);
        put_all(self.keys.items(), out);
    }
}

#[tactic(auto, unfolding(crate::specs::Spelling::path_spelling))]
fn put_path(path: &Path, out: &mut Vec<u8>)
    requires { vec_len out.old + path_octets path.now ≤ vec_capacity out.old }
    ensures items { out.new.items ≡ out.old.items ++ path_spelling path.now }
    ensures len { vec_len out.new ≡ vec_len out.old + path_octets path.now }
    ensures capacity { vec_capacity out.old ≤ vec_capacity out.new }
    ensures kept { IsRepresentablePath path.now }
{
    put_two(path.len(), out);
    put_all(path.items(), out);
}

fn put_tag(tag: u8, out: &mut Vec<u8>)
    requires { vec_len out.old + 1 ≤ vec_capacity out.old }
    ensures items { out.new.items ≡ out.old.items ++ tag ∷ [] }
    ensures len { vec_len out.new ≡ vec_len out.old + 1 }
    ensures capacity { vec_capacity out.old ≤ vec_capacity out.new }
{
    out.push_reserved(tag);
}

#[cycle(values)]
#[tactic(auto, using(crate::proofs::Records::of_a_list))]
fn put_value(value: &Value, out: &mut Vec<u8>)
    requires { vec_len out.old + value_octets value.now ≤ vec_capacity out.old }
    ensures items { out.new.items ≡ out.old.items ++ value_spelling value.now }
    ensures len { vec_len out.new ≡ vec_len out.old + value_octets value.now }
    ensures capacity { vec_capacity out.old ≤ vec_capacity out.new }
    ensures kept { IsRepresentableValue value.now }
{
    match value {
        Value::Bool(is) => {
            put_tag(1, out);
            put_tag(if *is { 1 } else { 0 }, out);
        }
        Value::Int(number) => {
            put_tag(2, out);
            put_signed(*number, out);
        }
        Value::Uint(number) => {
            put_tag(3, out);
            put_eight(*number, out);
        }
        Value::Dec(digits, places) => {
            put_tag(4, out);
            put_signed(*digits, out);
            put_tag(*places, out);
        }
        Value::Text(text) => {
            put_tag(5, out);
            put_text(text, out);
        }
        Value::Bin(octets) => {
            put_tag(6, out);
            put_counted(octets.items(), out);
        }
        Value::Enum(text) => {
            put_tag(7, out);
            put_text(text, out);
        }
        Value::List(values) => {
            put_tag(8, out);
            put_four(values.len(), out);
            put_values(values.items(), out);
        }
    }
}

#[cycle(values)]
fn put_values(values: &[Value], out: &mut Vec<u8>)
    requires { vec_len out.old + sum_by value_octets values.now ≤ vec_capacity out.old }
    ensures items { out.new.items ≡ out.old.items ++ flat_map value_spelling values.now }
    ensures len { vec_len out.new ≡ vec_len out.old + sum_by value_octets values.now }
    ensures capacity { vec_capacity out.old ≤ vec_capacity out.new }
    ensures kept { AllByRecursion IsRepresentableValue values.now }
{
    for value in values {
        put_value(value, out);
    }
}

impl Spelled for Row {
    ghost use Rattle.base_kinds.specs.Records.{row_octets};
    ghost use Rattle.journal_record.specs.Spelling.{row_spelling};
    ghost use Rattle.journal_record.specs.Representable.{IsRepresentableRow};

    ghost spelling = { row_spelling };

    ghost octets = { row_octets };

    ghost is_representable = { IsRepresentableRow };

    #[tactic(auto, unfolding(crate::specs::Spelling::row_spelling))]
    fn put(&self, out: &mut Vec<u8>) {
        put_path(&self.path, out);
        put_value(&self.value, out);
    }
}

#[tactic(auto, unfolding(crate::specs::Spelling::rows_spelling))]
fn put_rows(rows: &Rows, out: &mut Vec<u8>)
    requires { vec_len out.old + 4 + sum_by row_octets rows.now ≤ vec_capacity out.old }
    ensures items { out.new.items ≡ out.old.items ++ rows_spelling rows.now }
    ensures len { vec_len out.new ≡ vec_len out.old + 4 + sum_by row_octets rows.now }
    ensures capacity { vec_capacity out.old ≤ vec_capacity out.new }
    ensures kept { AllByRecursion IsRepresentableRow rows.now }
{
    put_four(rows.len(), out);
    put_all(rows.items(), out);
}

fn act_octet(act: Act) -> u8
    ensures { result ≡ act_octet act }
{
    match act {
        Act::Delete => 1,
        Act::Replace => 2,
        Act::Update => 3,
    }
}

impl Spelled for Op {
    ghost use Rattle.base_kinds.specs.Records.{op_octets};
    ghost use Rattle.journal_record.specs.Spelling.{op_spelling};
    ghost use Rattle.journal_record.specs.Representable.{IsRepresentableOp};

    ghost spelling = { op_spelling };

    ghost octets = { op_octets };

    ghost is_representable = { IsRepresentableOp };

    #[tactic(auto, unfolding(crate::specs::Spelling::op_spelling))]
    fn put(&self, out: &mut Vec<u8>) {
        put_tag(act_octet(self.act), out);
        put_path(&self.path, out);
        put_rows(&self.rows, out);
    }
}

#[tactic(auto, unfolding(crate::specs::Spelling::ops_spelling))]
fn put_ops(ops: &Ops, out: &mut Vec<u8>)
    requires { vec_len out.old + ops_octets ops.now ≤ vec_capacity out.old }
    ensures items { out.new.items ≡ out.old.items ++ ops_spelling ops.now }
    ensures len { vec_len out.new ≡ vec_len out.old + ops_octets ops.now }
    ensures capacity { vec_capacity out.old ≤ vec_capacity out.new }
    ensures kept { AreRepresentableOps ops.now }
{
    put_four(ops.len(), out);
    put_all(ops.items(), out);
}

#[tactic(auto, unfolding(crate::specs::Spelling::kind_spelling))]
fn put_kind(kind: &Kind, out: &mut Vec<u8>)
    requires { vec_len out.old + 1 + kind_octets kind.now ≤ vec_capacity out.old }
    ensures items { out.new.items ≡ out.old.items ++ kind_spelling kind.now }
    ensures len { vec_len out.new ≡ vec_len out.old + 1 + kind_octets kind.now }
    ensures capacity { vec_capacity out.old ≤ vec_capacity out.new }
    ensures kept { IsRepresentableKind kind.now }
{
    match kind {
        Kind::Apply(ops) => {
            put_tag(1, out);
            put_ops(ops, out);
        }
        Kind::Trial(id, ops, deadline) => {
            put_tag(2, out);
            put_text(id, out);
            put_eight(*deadline, out);
            put_ops(ops, out);
        }
        Kind::Confirm => put_tag(3, out),
        Kind::Cancel => put_tag(4, out),
        Kind::Expire => put_tag(5, out),
        Kind::Restart => put_tag(6, out),
        Kind::Extend(deadline) => {
            put_tag(7, out);
            put_eight(*deadline, out);
        }
    }
}

#[tactic(auto, unfolding(crate::specs::Spelling::record_of))]
fn put_record(entry: &Entry, out: &mut Vec<u8>)
    requires { vec_len out.old + record_octets entry.now ≤ vec_capacity out.old }
    ensures items { out.new.items ≡ out.old.items ++ record_of entry.now }
    ensures capacity { vec_capacity out.old ≤ vec_capacity out.new }
    ensures kept { IsRepresentable entry.now }
{
    put_octets(&entry.author.to_be_bytes(), out);
    put_eight(entry.stamp, out);
    put_kind(&entry.kind, out);
}

/// Writes the record of the entry behind what is there. Where there is room for it, this takes no
/// memory.
pub fn put_entry(entry: &Entry, out: &mut Vec<u8>) -> Result<(), NoMemory>
    ensures ok { OnOk result (out.new.items ≡ out.old.items ++ record_of entry.now) }
    // What the types of the entry keep.
    ensures kept { OnOk result (IsRepresentable entry.now) }
    ensures err { OnErr result (out.new.items ≡ out.old.items) }
    ensures capacity { vec_capacity out.old ≤ vec_capacity out.new }
    ensures within { record_octets entry.now < 2 ^ 32
        → vec_len out.old + record_octets entry.now ≤ vec_capacity out.old → IsOk result }
{
    let octets = entry.record_octets();
    if octets == u64::MAX {
        return Err(NoMemory);
    }
    out.reserve(octets as usize)?;
    put_record(entry, out);
    Ok(())
}

/// Writes the record of the entry behind what is there.
pub fn write_entry(alloc: Global, entry: &Entry, out: &mut Bytes) -> Result<(), NoMemory>
    ensures ok { OnOk result (out.new ≡ out.old ++ record_of entry.now) }
    // What the types of the entry keep.
    ensures kept { OnOk result (IsRepresentable entry.now) }
    ensures err { OnErr result (out.new ≡ out.old) }
{
    let mut octets = mem::replace(out, Seq::empty(alloc)).into_vec();
    let written = put_entry(entry, &mut octets);
    *out = Seq::from_vec(octets);
    written
}
