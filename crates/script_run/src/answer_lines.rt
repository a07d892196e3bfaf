ghost use Rattle.std.specs.Prelude.{◌≡◌, ◌++◌, OnOk};
ghost use Rattle.std.specs.List.{flat_map};
ghost use Rattle.script_run.specs.AnswerLines.{call_lines, delete_line, first_lines, note_lines, refusal_line, reply_line, turn_lines, view_lines};
ghost use Rattle.script_run.specs.inner.Replies.{reply_lines};

use crate::subscribing::CallReply;
use base_kinds::{Bytes, NoMemory, Note, Path, Refusal, View};
use log_text::put_rows;
use path_core::write_path_text;
use plain_texts::{put_number, put_number_line};
use std::alloc::Global;

/// What a line is answered.
#[derive(Drop)]
pub enum Reply {
    /// The stamp of the new entry.
    Set(Result<u64, Refusal>),
    Get(Result<View, Refusal>),
    Call(CallReply),
}

/// Adds the lines of an answer, where there is one.
pub fn put_reply(alloc: Global, reply: Option<Reply>, out: &mut Bytes) -> Result<(), NoMemory>
    ensures { OnOk result (out.new ≡ out.old ++ reply_lines reply) }
{
    match reply {
        None => Ok(()),
        Some(Reply::Set(reply)) => put_stamp(alloc, reply, out),
        Some(Reply::Get(view)) => put_view(alloc, view, out),
        Some(Reply::Call(reply)) => put_call_reply(alloc, reply, out),
    }
}

/// Adds the line that answers a Set.
fn put_stamp(alloc: Global, reply: Result<u64, Refusal>, out: &mut Bytes) -> Result<(), NoMemory>
    ensures { OnOk result (out.new ≡ out.old ++ reply_line reply) }
{
    match reply {
        Ok(stamp) => put_number_line(alloc, b"ok ", stamp, out),
        Err(refusal) => put_refusal(alloc, refusal, out),
    }
}

/// Adds the lines that answer a read.
fn put_view(alloc: Global, view: Result<View, Refusal>, out: &mut Bytes) -> Result<(), NoMemory>
    ensures { OnOk result (out.new ≡ out.old ++ view_lines view) }
{
    match view {
        Ok(view) => {
            put_rows(alloc, b"row ", view.rows.items(), out)?;
            put_number_line(alloc, b"state ", view.stamp, out)
        }
        Err(refusal) => put_refusal(alloc, refusal, out),
    }
}

/// Adds the lines that answer a line of subscriptions.
fn put_call_reply(alloc: Global, reply: CallReply, out: &mut Bytes) -> Result<(), NoMemory>
    ensures { OnOk result (out.new ≡ out.old ++ call_lines reply) }
{
    match reply {
        CallReply::Taken => put_word(b"name taken\n", out),
        CallReply::NoStream => put_word(b"no stream\n", out),
        CallReply::Opened => put_word(b"opened\n", out),
        CallReply::Ended => put_word(b"ended\n", out),
        CallReply::Refused(refusal) => put_refusal(alloc, refusal, out),
        CallReply::Began(note) => {
            put_first(alloc, note, out)?;
            put_word(b"sync\n", out)
        }
        CallReply::Once(note) => {
            put_first(alloc, note, out)?;
            put_word(b"sync\nend\n", out)
        }
        CallReply::Turned(note) => match note {
            Some(note) => put_note(alloc, note, out),
            None => put_word(b"quiet\n", out),
        },
    }
}

fn put_word(word: &[u8], out: &mut Bytes) -> Result<(), NoMemory>
    ensures { OnOk result (out.new ≡ out.old ++ word.now) }
{
    out.extend_from_slice(word)
}

/// Adds the lines of a notification, where there is one.
fn put_first(alloc: Global, note: Option<Note>, out: &mut Bytes) -> Result<(), NoMemory>
    ensures { OnOk result (out.new ≡ out.old ++ first_lines note) }
{
    match note {
        Some(note) => put_note(alloc, note, out),
        None => Ok(()),
    }
}

/// Adds the lines of a notification: its stamp, the paths that are gone, and the rows that are sent.
fn put_note(alloc: Global, note: Note, out: &mut Bytes) -> Result<(), NoMemory>
    ensures { OnOk result (out.new ≡ out.old ++ note_lines note) }
{
    put_number_line(alloc, b"note ", note.stamp, out)?;
    put_deletes(alloc, note.deletes.items(), out)?;
    put_rows(alloc, b"update ", note.updates.items(), out)
}

fn put_deletes(alloc: Global, paths: &[Path], out: &mut Bytes) -> Result<(), NoMemory>
    ensures { OnOk result (out.new ≡ out.old ++ flat_map delete_line paths.now) }
{
    for path in paths {
        put_delete(alloc, path, out)?;
    }
    Ok(())
}

fn put_delete(alloc: Global, path: &Path, out: &mut Bytes) -> Result<(), NoMemory>
    ensures { OnOk result (out.new ≡ out.old ++ delete_line path.now) }
{
    out.extend_from_slice(b"delete ")?;
    write_path_text(alloc, path, out)?;
    out.push(b'\n')
}

/// Adds a line with the refusal's number and its gRPC status code.
fn put_refusal(alloc: Global, refusal: Refusal, out: &mut Bytes) -> Result<(), NoMemory>
    ensures { OnOk result (out.new ≡ out.old ++ refusal_line refusal) }
{
    out.extend_from_slice(b"refused ")?;
    put_number(alloc, u64::from(refusal.number()), out)?;
    put_number_line(alloc, b" ", u64::from(refusal.code()), out)
}
