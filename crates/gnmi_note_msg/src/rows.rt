//! Updates, each with the value of a row.
ghost use Rattle.std.specs.Prelude.{◌≡◌, ◌++◌, ◌≤◌, IfOk, OnOk, OnErr};
ghost use Rattle.std.specs.Option.{option_and_then, option_copied};
ghost use Rattle.base_kinds.specs.Schema.{node_at};
ghost use Rattle.pb_wire.specs.Writing.{octets_field};
ghost use Rattle.gnmi_data_msg.specs.Numbers.{note_update};
ghost use Rattle.gnmi_data_msg.specs.Writing.{message_fields};
ghost use Rattle.gnmi_note_msg.specs.Notifications.{update_message, row_text, row_value, row_update};

use base_kinds::{Path, Row, Shape};
use base_lists::{Bytes, NoMemory};
use gnmi_data_msg::{Written, put_message, value_message};
use gnmi_kinds::Encoding;
use json_text::leaf_json;
use schema_core::Schema;
use std::alloc::Global;

const JSON_VAL: u32 = 10;

const JSON_IETF_VAL: u32 = 11;

const UPDATE_PATH: u32 = 1;

const UPDATE_VAL: u32 = 3;

const NOTE_UPDATE: u32 = 4;

/// The octets of an Update of the path with these octets of a TypedValue.
pub(crate) fn update_of(alloc: Global, path: &Path, typed: &[u8]) -> Result<Bytes, NoMemory>
    ensures { IfOk result (λ message. message ≡ update_message path.now typed.now) }
{
    let mut message = Bytes::empty(alloc);
    let written = path.written(alloc)?;
    put_message(alloc, UPDATE_PATH, written.items(), &mut message)?;
    put_message(alloc, UPDATE_VAL, typed, &mut message)?;
    Ok(message)
}

/// The shape of the leaf or leaf-list at the path.
fn shape_at<'a>(schema: &'a Schema, path: &Path) -> Option<&'a Shape>
    ensures { option_and_then (λ node. node.shape) (node_at schema.now path.now)
        ≡ option_copied result }
{
    let node = schema.find(path)?;
    schema.shape_of(node)
}

/// The JSON text of the row.
fn row_text(alloc: Global, row: &Row, schema: &Schema) -> Result<Bytes, NoMemory>
    ensures { IfOk result (λ text. text ≡ row_text schema.now row.now) }
{
    let mut text = Bytes::empty(alloc);
    if let Some(shape) = shape_at(schema, &row.path) {
        leaf_json(alloc, shape, &row.value, &mut text)?;
    }
    Ok(text)
}

/// The octets of a TypedValue with the value of the row.
fn row_value(
    alloc: Global,
    row: &Row,
    encoding: Encoding,
    schema: &Schema,
) -> Result<Bytes, NoMemory>
    ensures { IfOk result (λ message. message ≡ row_value schema.now encoding row.now) }
{
    let number = match encoding {
        Encoding::Json => JSON_VAL,
        Encoding::JsonIetf => JSON_IETF_VAL,
        Encoding::Proto => return value_message(alloc, &row.value),
        Encoding::Other => return value_message(alloc, &row.value),
    };
    let text = row_text(alloc, row, schema)?;
    let mut message = Bytes::empty(alloc);
    put_message(alloc, number, text.items(), &mut message)?;
    Ok(message)
}

/// Adds an update for each row. What was added before memory ran out stays.
pub(crate) fn put_updates(
    alloc: Global,
    rows: &[Row],
    encoding: Encoding,
    schema: &Schema,
    out: &mut Bytes,
) -> Result<(), NoMemory>
    ensures { OnOk result (out.new ≡ out.old ++ message_fields (row_update schema.now encoding)
        note_update rows.now) }
{
    for row in rows {
        let typed = row_value(alloc, row, encoding, schema)?;
        let update = update_of(alloc, &row.path, typed.items())?;
        put_message(alloc, NOTE_UPDATE, update.items(), out)?;
    }
    Ok(())
}
