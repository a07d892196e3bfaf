ghost use Rattle.std.specs.Prelude.{◌≡◌, ◌++◌, OnOk, OnErr};
ghost use Rattle.std.specs.List.{flat_map};
ghost use Rattle.base_kinds.specs.Tree.{with_act};
ghost use Rattle.log_text.specs.Logs.{act_text, op_lines, ops_lines, ops_of, kind_text, entry_front, entry_lines, log_text};

use crate::rows::append_rows;
use base_kinds::{Act, Bytes, Entry, Kind, NoMemory, Op};
use path_core::{write_path_text, write_value_text};
use plain_texts::put_number;
use std::alloc::Global;

/// Adds a line for each entry, followed by a line for each of its operations and of their rows. Without memory nothing
/// is added.
pub fn put_log(alloc: Global, entries: &[Entry], out: &mut Bytes) -> Result<(), NoMemory>
    ensures ok { OnOk result (out.new ≡ out.old ++ log_text entries.now) }
    ensures err { OnErr result (out.new ≡ out.old) }
{
    let mut text = Bytes::empty(alloc);
    append_entries(alloc, entries, &mut text)?;
    out.extend_from_slice(text.items())
}

fn append_entries(alloc: Global, entries: &[Entry], out: &mut Bytes) -> Result<(), NoMemory>
    ensures { OnOk result (out.new ≡ out.old ++ log_text entries.now) }
{
    for entry in entries {
        append_entry(alloc, entry, out)?;
    }
    Ok(())
}

fn append_entry(alloc: Global, entry: &Entry, out: &mut Bytes) -> Result<(), NoMemory>
    ensures { OnOk result (out.new ≡ out.old ++ entry_lines entry.now) }
{
    append_front(alloc, entry, out)?;
    append_kind(alloc, &entry.kind, out)?;
    out.extend_from_slice(b"\n")?;
    append_ops(alloc, ops_of(&entry.kind), out)
}

fn append_front(alloc: Global, entry: &Entry, out: &mut Bytes) -> Result<(), NoMemory>
    ensures { OnOk result (out.new ≡ out.old ++ entry_front entry.now) }
{
    put_number(alloc, entry.number, out)?;
    out.extend_from_slice(b" ")?;
    put_number(alloc, entry.stamp, out)?;
    out.extend_from_slice(b" ")?;
    put_number(alloc, u64::from(entry.author), out)?;
    out.extend_from_slice(b" ")
}

fn append_kind(alloc: Global, kind: &Kind, out: &mut Bytes) -> Result<(), NoMemory>
    ensures { OnOk result (out.new ≡ out.old ++ kind_text kind.now) }
{
    match kind {
        Kind::Apply(_) => out.extend_from_slice(b"apply"),
        Kind::Trial(id, _, deadline) => {
            out.extend_from_slice(b"trial ")?;
            write_value_text(alloc, id, out)?;
            out.extend_from_slice(b" ")?;
            put_number(alloc, *deadline, out)
        }
        Kind::Confirm => out.extend_from_slice(b"confirm"),
        Kind::Cancel => out.extend_from_slice(b"cancel"),
        Kind::Expire => out.extend_from_slice(b"expire"),
        Kind::Restart => out.extend_from_slice(b"restart"),
        Kind::Extend(deadline) => {
            out.extend_from_slice(b"extend ")?;
            put_number(alloc, *deadline, out)
        }
    }
}

/// The operations that the entry brought.
fn ops_of(kind: &Kind) -> &[Op]
    ensures { result.now ≡ ops_of kind.now }
{
    match kind {
        Kind::Apply(ops) | Kind::Trial(_, ops, _) => ops.items(),
        Kind::Confirm | Kind::Cancel | Kind::Expire | Kind::Restart | Kind::Extend(_) => &[],
    }
}

fn append_ops(alloc: Global, ops: &[Op], out: &mut Bytes) -> Result<(), NoMemory>
    ensures { OnOk result (out.new ≡ out.old ++ ops_lines ops.now) }
{
    append_ops_with(alloc, Act::Delete, ops, out)?;
    append_ops_with(alloc, Act::Replace, ops, out)?;
    append_ops_with(alloc, Act::Update, ops, out)
}

fn append_ops_with(alloc: Global, act: Act, ops: &[Op], out: &mut Bytes) -> Result<(), NoMemory>
    ensures { OnOk result (out.new ≡ out.old ++ flat_map op_lines (with_act act ops.now)) }
{
    for op in ops {
        if op.act.is_act(act) {
            append_op(alloc, op, out)?;
        }
    }
    Ok(())
}

fn append_act(act: Act, out: &mut Bytes) -> Result<(), NoMemory>
    ensures { OnOk result (out.new ≡ out.old ++ act_text act) }
{
    match act {
        Act::Delete => out.extend_from_slice(b"delete"),
        Act::Replace => out.extend_from_slice(b"replace"),
        Act::Update => out.extend_from_slice(b"update"),
    }
}

fn append_op(alloc: Global, op: &Op, out: &mut Bytes) -> Result<(), NoMemory>
    ensures { OnOk result (out.new ≡ out.old ++ op_lines op.now) }
{
    out.extend_from_slice(b"  ")?;
    append_act(op.act, out)?;
    out.extend_from_slice(b" ")?;
    write_path_text(alloc, &op.path, out)?;
    out.extend_from_slice(b"\n")?;
    append_rows(alloc, b"    ", op.rows.items(), out)
}
