//! The octets of the messages that a turn says.
ghost use Rattle.std.specs.Prelude.{◌≡◌, ◌++◌, ◌∷◌, [], IfOk, OnOk};
ghost use Rattle.stream_laws.specs.Runs.{note_messages};
ghost use Rattle.subscribe_calls.specs.Calls.{replies_octets, reply_octets};
ghost use Rattle.gnmi_kinds.specs.declared.reply.SubReply.TheVariants as replies;
ghost use Rattle.gnmi_sub_msg.specs.Replies.{sync_reply};

use base_kinds::{Note, Seq};
use base_lists::{Bytes, NoMemory};
use gnmi_note_msg::write_note;
use gnmi_sub_msg::{write_sub_note, write_sync};
use schema_core::Schema;
use std::alloc::Global;
use sub_plan::Plan;

/// The octets of SubscribeResponses, in order.
pub type Messages = Seq<Bytes>;

/// The octets of a SubscribeResponse with the notification.
fn note_octets(alloc: Global, schema: &Schema, plan: &Plan, note: &Note) -> Result<Bytes, NoMemory>
    ensures { IfOk result (λ octets. octets
        ≡ reply_octets schema.now plan.now (replies.Note note.now)) }
{
    let mut octets = Bytes::empty(alloc);
    write_note(
        alloc,
        note,
        &plan.target,
        plan.encoding,
        schema,
        &mut octets,
    )?;
    let mut reply = Bytes::empty(alloc);
    write_sub_note(alloc, octets.items(), &mut reply)?;
    Ok(reply)
}

/// The message with the notification, where there is one.
pub(crate) fn note_replies(
    alloc: Global,
    schema: &Schema,
    plan: &Plan,
    note: &Option<Note>,
) -> Result<Messages, NoMemory>
    ensures { IfOk result (λ messages. messages ≡
        replies_octets schema.now plan.now (note_messages note.now)) }
{
    let mut messages = Seq::empty(alloc);
    match note {
        Some(note) => {
            let octets = note_octets(alloc, schema, plan, note)?;
            messages.push(octets)?;
        }
        None => {}
    }
    Ok(messages)
}

/// Adds the message that says that what was there at the beginning has been sent.
pub(crate) fn put_sync(alloc: Global, messages: &mut Messages) -> Result<(), NoMemory>
    ensures { OnOk result (messages.new ≡ messages.old ++ sync_reply ∷ []) }
{
    let mut octets = Bytes::empty(alloc);
    write_sync(alloc, &mut octets)?;
    messages.push(octets)
}
