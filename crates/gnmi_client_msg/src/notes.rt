//! Reading a Notification.
ghost use Rattle.std.specs.Prelude.{◌≡◌, map, IfOk};
ghost use Rattle.gnmi_data_msg.specs.Parts.{IsReadAs};
ghost use Rattle.pb_message.specs.Values.{message_under};
ghost use Rattle.gnmi_client_msg.specs.Notifications.{leaf_value, row_behind, path_behind};
ghost use Rattle.gnmi_client_msg.specs.inner.Steps.{stamp_of, prefix_of};

use crate::numbers::{
    NOTE_DELETE, NOTE_PREFIX, NOTE_TIMESTAMP, NOTE_UPDATE, UPDATE_PATH, UPDATE_VAL,
};
use crate::parts::{Told, each_told};
use base_kinds::{Copied, Given, Note, Path, Paths, Row, Rows, Seq, Value};
use base_lists::NoMemory;
use gnmi_data_msg::{MsgFault, count_under, read_path, read_typed, single_message};
use pb_message::{is_message, message_under};
use std::alloc::Global;

/// What the Notifications of a Get tell, in their order.
pub type Notes = Seq<Note>;

/// The stamp that an int64 is.
pub(crate) fn stamp_of(number: u64) -> Result<u64, MsgFault>
    ensures { IsReadAs result (stamp_of number) }
{
    if number < 1 << 63 {
        Ok(number)
    } else {
        Err(MsgFault::BadMessage)
    }
}

/// The elements of a prefix; none where there is no prefix.
pub(crate) fn read_prefix(alloc: Global, octets: &[u8], number: u32) -> Result<Path, MsgFault>
    ensures { IsReadAs result (prefix_of (message_under number octets.now)) }
{
    match message_under(alloc, octets, number)? {
        None => Ok(Seq::empty(alloc)),
        Some(prefix) => Ok(read_path(alloc, prefix.items())?.path),
    }
}

/// The value of a leaf or a leaf-list.
fn leaf_value(given: Given) -> Result<Value, MsgFault>
    ensures { IsReadAs result (leaf_value given) }
{
    match given {
        Given::Scalar(value) => Ok(value),
        Given::Json(_) => Err(MsgFault::BadMessage),
        Given::Missing => Err(MsgFault::BadMessage),
    }
}

/// The row of an Update, behind no prefix.
impl Told for Row {
    ghost use Rattle.gnmi_client_msg.specs.inner.Steps.{row_of};

    ghost meaning = { row_of };

    #[tactic(auto, unfolding(crate::specs::inner::Steps::row_of))]
    fn read(alloc: Global, octets: &[u8]) -> Result<Row, MsgFault> {
        if !is_message(octets) {
            return Err(MsgFault::BadMessage);
        }
        let path = single_message(alloc, octets, UPDATE_PATH)?;
        let path = read_path(alloc, path.items())?.path;
        let value = single_message(alloc, octets, UPDATE_VAL)?;
        let given = read_typed(alloc, value.items())?;
        let value = leaf_value(given)?;
        Ok(Row { path, value })
    }
}

/// The elements of a Path.
impl Told for Path {
    ghost use Rattle.gnmi_client_msg.specs.inner.Steps.{elems_of};

    ghost meaning = { elems_of };

    fn read(alloc: Global, octets: &[u8]) -> Result<Path, MsgFault> {
        Ok(read_path(alloc, octets)?.path)
    }
}

/// The path behind the prefix.
fn path_behind(alloc: Global, prefix: &Path, path: Path) -> Result<Path, NoMemory>
    ensures { IfOk result (λ whole. whole ≡ path_behind prefix.now path) }
{
    if prefix.is_empty() {
        return Ok(path);
    }
    let mut whole = prefix.copy(alloc)?;
    whole.push_copies(alloc, path.items())?;
    Ok(whole)
}

/// Each path behind the prefix.
fn paths_behind(alloc: Global, prefix: &Path, paths: Paths) -> Result<Paths, NoMemory>
    ensures { IfOk result (λ wholes. wholes ≡ map (path_behind prefix.now) paths) }
{
    let mut wholes = Seq::empty(alloc);
    for path in paths.into_vec() {
        wholes.push(path_behind(alloc, prefix, path)?)?;
    }
    Ok(wholes)
}

/// Each row behind the prefix.
fn rows_behind(alloc: Global, prefix: &Path, rows: Rows) -> Result<Rows, NoMemory>
    ensures { IfOk result (λ wholes. wholes ≡ map (row_behind prefix.now) rows) }
{
    let mut wholes = Seq::empty(alloc);
    for row in rows.into_vec() {
        let Row { path, value } = row;
        let path = path_behind(alloc, prefix, path)?;
        wholes.push(Row { path, value })?;
    }
    Ok(wholes)
}

/// What a Notification tells.
impl Told for Note {
    ghost use Rattle.gnmi_client_msg.specs.inner.Steps.{note_told};

    ghost meaning = { note_told };

    #[tactic(auto, unfolding(crate::specs::inner::Steps::note_told))]
    fn read(alloc: Global, octets: &[u8]) -> Result<Note, MsgFault> {
        if !is_message(octets) {
            return Err(MsgFault::BadMessage);
        }
        let stamp = stamp_of(count_under(octets, NOTE_TIMESTAMP))?;
        let prefix = read_prefix(alloc, octets, NOTE_PREFIX)?;
        let updates = each_told(alloc, octets, NOTE_UPDATE)?;
        let deletes = each_told(alloc, octets, NOTE_DELETE)?;
        Ok(Note {
            stamp,
            deletes: paths_behind(alloc, &prefix, deletes)?,
            updates: rows_behind(alloc, &prefix, updates)?,
        })
    }
}
