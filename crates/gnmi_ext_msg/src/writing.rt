//! Writing a Commit.
ghost use Rattle.std.specs.Prelude.{◌≡◌, ◌++◌, ◌≤◌, IfOk, OnOk, OnErr};
ghost use Rattle.pb_wire.specs.Writing.{octets_field};
ghost use Rattle.gnmi_data_msg.specs.Writing.{text_field};
ghost use Rattle.gnmi_ext_msg.specs.Numbers.{commit_id};
ghost use Rattle.gnmi_ext_msg.specs.Writing.{span_message, commit_message};

use crate::numbers::{
    COMMIT_CANCEL, COMMIT_COMMIT, COMMIT_CONFIRM, COMMIT_ID, COMMIT_SET_ROLLBACK_DURATION,
    DURATION_NANOS, DURATION_SECONDS, ROLLBACK_DURATION,
};
use base_kinds::{Action, Span};
use base_lists::{Bytes, NoMemory, Text};
use gnmi_data_msg::{put_message, put_number, put_text};
use std::alloc::Global;

/// A message with the duration.
fn span_message(alloc: Global, span: Span) -> Result<Bytes, NoMemory>
    ensures { IfOk result (λ message. message ≡ span_message span) }
{
    let mut message = Bytes::empty(alloc);
    if let Span::Of(seconds, nanos) = span {
        let mut duration = Bytes::empty(alloc);
        put_number(
            alloc,
            DURATION_SECONDS,
            seconds.cast_unsigned(),
            &mut duration,
        )?;
        put_number(alloc, DURATION_NANOS, nanos.cast_unsigned(), &mut duration)?;
        put_message(alloc, ROLLBACK_DURATION, duration.items(), &mut message)?;
    }
    Ok(message)
}

/// Adds an id and the member with this number. After want of memory nothing is added.
fn put_member(
    alloc: Global,
    id: &Text,
    number: u32,
    message: &[u8],
    out: &mut Bytes,
) -> Result<(), NoMemory>
    requires some { 1 ≤ number }
    requires one_octet { number ≤ 15 }
    ensures ok { OnOk result (out.new ≡ out.old ++ (text_field commit_id id.now
        ++ octets_field number message.now)) }
    ensures err { OnErr result (out.new ≡ out.old) }
{
    let mut commit = Bytes::empty(alloc);
    put_text(alloc, COMMIT_ID, id.octets(), &mut commit)?;
    put_message(alloc, number, message, &mut commit)?;
    out.extend_from_slice(commit.items())
}

/// Adds the octets of a Commit with the action. Mixed adds nothing, as an empty Commit is read as Mixed; nor does Plain, which
/// is a request without a Commit: for it the caller leaves the whole field out. After want of memory nothing is added.
pub fn write_commit(alloc: Global, action: &Action, out: &mut Bytes) -> Result<(), NoMemory>
    ensures ok { OnOk result (out.new ≡ out.old ++ commit_message action.now) }
    ensures err { OnErr result (out.new ≡ out.old) }
{
    match action {
        Action::Plain => Ok(()),
        Action::Trial(id, span) => {
            let message = span_message(alloc, *span)?;
            put_member(alloc, id, COMMIT_COMMIT, message.items(), out)
        }
        Action::Confirm(id) => put_member(alloc, id, COMMIT_CONFIRM, &[], out),
        Action::Cancel(id) => put_member(alloc, id, COMMIT_CANCEL, &[], out),
        Action::Extend(id, span) => {
            let message = span_message(alloc, *span)?;
            put_member(
                alloc,
                id,
                COMMIT_SET_ROLLBACK_DURATION,
                message.items(),
                out,
            )
        }
        Action::Mixed => Ok(()),
    }
}
