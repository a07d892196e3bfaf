// The Notification of one path of a Get, from the rows that were found.
ghost use Rattle.std.specs.Prelude.{◌≡◌, ◌∷◌, [], IfOk};
ghost use Rattle.base_kinds.specs.Parts.{is_covered, part};
ghost use Rattle.request_desk.specs.Notes.{is_json, whole_note, row_note, path_note, note_of_path};

use crate::whole::is_of_one;
use base_kinds::{Note, Path, Paths, Row, Rows, View};
use base_lists::{Bytes, NoMemory};
use gnmi_kinds::{Encoding, GetAsk};
use gnmi_note_msg::{write_note, write_whole};
use json_text::json_of;
use path_core::covers;
use schema_core::Schema;
use std::alloc::Global;

fn is_json(encoding: Encoding) -> bool
    ensures { result ≡ is_json encoding }
{
    match encoding {
        Encoding::Json => true,
        Encoding::JsonIetf => true,
        Encoding::Proto => false,
        Encoding::Other => false,
    }
}

/// Whether the path covers that of the row.
#[tactic(auto, using(crate::proofs::Covered::alone))]
pub(crate) fn is_covered(path: &Path, row: &Row) -> bool
    ensures { result ≡ is_covered (path.now ∷ []) row.now.path }
{
    covers(path, &row.path)
}

/// Copies of the rows that the path covers.
#[tactic(auto, using(crate::proofs::Covered::kept, crate::proofs::Covered::left_out))]
fn rows_under(alloc: Global, path: &Path, rows: &[Row]) -> Result<Rows, NoMemory>
    ensures { IfOk result (λ found. found ≡ part (path.now ∷ []) rows.now) }
{
    let mut found = Rows::empty(alloc);
    for row in rows {
        if is_covered(path, row) {
            found.push_copy(alloc, row)?;
        }
    }
    Ok(found)
}

/// One update, with the value that all the rows are.
fn whole_note(
    alloc: Global,
    schema: &Schema,
    ask: &GetAsk,
    stamp: u64,
    path: &Path,
    rows: &Rows,
) -> Result<Bytes, NoMemory>
    ensures { IfOk result (λ note. note ≡ whole_note schema.now ask.now stamp path.now rows.now) }
{
    let target = &ask.prefix.target;
    let encoding = ask.encoding;
    let json = json_of(alloc, schema, path, rows)?;
    let mut note = Bytes::empty(alloc);
    write_whole(
        alloc,
        stamp,
        path,
        json.items(),
        target,
        encoding,
        &mut note,
    )?;
    Ok(note)
}

/// An update for each row.
fn row_note(
    alloc: Global,
    schema: &Schema,
    ask: &GetAsk,
    stamp: u64,
    rows: Rows,
) -> Result<Bytes, NoMemory>
    ensures { IfOk result (λ note. note ≡ row_note schema.now ask.now stamp rows) }
{
    let target = &ask.prefix.target;
    let updates = Note {
        stamp,
        deletes: Paths::empty(alloc),
        updates: rows,
    };
    let mut note = Bytes::empty(alloc);
    write_note(alloc, &updates, target, ask.encoding, schema, &mut note)?;
    Ok(note)
}

/// The octets of the Notification of one path.
#[tactic(auto, unfolding(crate::specs::Notes::path_note))]
pub(crate) fn note_of_path(
    alloc: Global,
    schema: &Schema,
    ask: &GetAsk,
    view: &View,
    path: &Path,
) -> Result<Bytes, NoMemory>
    ensures { IfOk result (λ note. note
        ≡ note_of_path schema.now ask.now view.now.stamp view.now.rows path.now) }
{
    let rows = rows_under(alloc, path, view.rows.items())?;
    if is_json(ask.encoding) && is_of_one(schema, path.items()) {
        whole_note(alloc, schema, ask, view.stamp, path, &rows)
    } else {
        row_note(alloc, schema, ask, view.stamp, rows)
    }
}
