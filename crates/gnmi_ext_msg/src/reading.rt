//! Reading a Commit.
ghost use Rattle.std.specs.Prelude.{◌≡◌, IfOk};
ghost use Rattle.gnmi_data_msg.specs.Parts.{IsReadAs};
ghost use Rattle.pb_message.specs.Values.{text_under, member_under};
ghost use Rattle.gnmi_ext_msg.specs.Numbers.{commit_id, commit_actions};
ghost use Rattle.gnmi_ext_msg.specs.Commits.{duration_of, span_of, if_message, action_of, commit_of};

use crate::numbers::{
    COMMIT_CANCEL, COMMIT_COMMIT, COMMIT_CONFIRM, COMMIT_ID, COMMIT_SET_ROLLBACK_DURATION,
    DURATION_NANOS, DURATION_SECONDS, ROLLBACK_DURATION,
};
use base_kinds::{Action, Span};
use base_lists::{Bytes, NoMemory, Text, TextOfFault};
use gnmi_data_msg::MsgFault;
use pb_message::{is_message, member_under, message_under, number_under, text_under};
use std::alloc::Global;

/// The duration that the octets of a Duration are.
#[tactic(auto, unfolding(crate::specs::Commits::duration_of))]
fn duration_of(octets: &[u8]) -> Result<Span, MsgFault>
    ensures { IsReadAs result (duration_of octets.now) }
{
    if !is_message(octets) {
        return Err(MsgFault::BadMessage);
    }
    let seconds = number_under(octets, DURATION_SECONDS).unwrap_or(0);
    let nanos = number_under(octets, DURATION_NANOS).unwrap_or(0);
    let low = (nanos % (1 << 32)) as u32;
    Ok(Span::Of(seconds.cast_signed(), i64::from(low.cast_signed())))
}

/// The duration in a CommitRequest or a CommitSetRollbackDuration.
#[tactic(auto, unfolding(crate::specs::Commits::span_of))]
fn span_of(alloc: Global, octets: &[u8]) -> Result<Span, MsgFault>
    ensures { IsReadAs result (span_of octets.now) }
{
    if !is_message(octets) {
        return Err(MsgFault::BadMessage);
    }
    match message_under(alloc, octets, ROLLBACK_DURATION)? {
        None => Ok(Span::Absent),
        Some(duration) => duration_of(duration.items()),
    }
}

/// The action, where the octets are a message.
fn if_message(octets: &[u8], action: Action) -> Result<Action, MsgFault>
    ensures { IsReadAs result (if_message octets.now action) }
{
    if is_message(octets) {
        Ok(action)
    } else {
        Err(MsgFault::BadMessage)
    }
}

/// What the member with this number asks for.
#[tactic(auto, unfolding(crate::specs::Commits::action_of))]
fn action_of(alloc: Global, id: Text, number: u32, octets: &[u8]) -> Result<Action, MsgFault>
    ensures { IsReadAs result (action_of id number octets.now) }
{
    if number == COMMIT_COMMIT {
        let span = span_of(alloc, octets)?;
        return Ok(Action::Trial(id, span));
    }
    if number == COMMIT_CONFIRM {
        return if_message(octets, Action::Confirm(id));
    }
    if number == COMMIT_CANCEL {
        return if_message(octets, Action::Cancel(id));
    }
    let span = span_of(alloc, octets)?;
    Ok(Action::Extend(id, span))
}

/// The id of a Commit.
fn id_of(alloc: Global, octets: &[u8]) -> Result<Text, MsgFault>
    ensures { IsReadAs result (text_under commit_id octets.now) }
{
    match text_under(alloc, octets, COMMIT_ID) {
        Ok(id) => Ok(id),
        Err(TextOfFault::NotUtf8) => Err(MsgFault::BadMessage),
        Err(TextOfFault::NoMemory) => Err(MsgFault::NoMemory),
    }
}

/// The oneof's member, if one is set.
fn member_of(alloc: Global, octets: &[u8]) -> Result<Option<(u32, Bytes)>, NoMemory>
    ensures { IfOk result (λ member. member ≡ member_under commit_actions octets.now) }
{
    member_under(
        alloc,
        octets,
        &[
            COMMIT_COMMIT,
            COMMIT_CONFIRM,
            COMMIT_CANCEL,
            COMMIT_SET_ROLLBACK_DURATION,
        ],
    )
}

/// What the octets of a Commit ask for: that of the oneof's last member, whose occurrences directly before are joined with it
/// (protobuf.dev, "Language Guide (proto 3)", "Oneof Features"), or Mixed where there is none. BadMessage where the octets
/// aren't fields, or those of that member or its Duration aren't, or where an id isn't UTF-8. Ids and durations are not judged
/// here.
#[tactic(auto, unfolding(crate::specs::Commits::commit_of))]
pub fn read_commit(alloc: Global, octets: &[u8]) -> Result<Action, MsgFault>
    ensures { IsReadAs result (commit_of octets.now) }
{
    if !is_message(octets) {
        return Err(MsgFault::BadMessage);
    }
    let id = id_of(alloc, octets)?;
    match member_of(alloc, octets)? {
        None => Ok(Action::Mixed),
        Some((number, message)) => action_of(alloc, id, number, message.items()),
    }
}
