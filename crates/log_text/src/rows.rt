ghost use Rattle.std.specs.Prelude.{◌≡◌, ◌++◌, OnOk, OnErr};
ghost use Rattle.std.specs.List.{flat_map};
ghost use Rattle.log_text.specs.Logs.{row_text};

use base_kinds::{Bytes, NoMemory, Row};
use path_core::write_path_text;
use std::alloc::Global;
use value_core::value_text;

/// Adds a line for each row: this front, the row's path, a space and its value. Without memory nothing is added.
pub fn put_rows(alloc: Global, front: &[u8], rows: &[Row], out: &mut Bytes) -> Result<(), NoMemory>
    ensures ok { OnOk result (out.new ≡ out.old ++ flat_map
        (λ row. front.now ++ row_text row) rows.now) }
    ensures err { OnErr result (out.new ≡ out.old) }
{
    let mut text = Bytes::empty(alloc);
    append_rows(alloc, front, rows, &mut text)?;
    out.extend_from_slice(text.items())
}

pub(crate) fn append_rows(
    alloc: Global,
    front: &[u8],
    rows: &[Row],
    out: &mut Bytes,
) -> Result<(), NoMemory>
    ensures { OnOk result (out.new ≡ out.old ++ flat_map
        (λ row. front.now ++ row_text row) rows.now) }
{
    for row in rows {
        out.extend_from_slice(front)?;
        append_row(alloc, row, out)?;
    }
    Ok(())
}

fn append_row(alloc: Global, row: &Row, out: &mut Bytes) -> Result<(), NoMemory>
    ensures { OnOk result (out.new ≡ out.old ++ row_text row.now) }
{
    write_path_text(alloc, &row.path, out)?;
    out.extend_from_slice(b" ")?;
    value_text(alloc, &row.value, out)?;
    out.extend_from_slice(b"\n")
}
