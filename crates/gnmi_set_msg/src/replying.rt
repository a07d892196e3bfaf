//! Writing a SetResponse.
ghost use Rattle.std.specs.Prelude.{◌≡◌, ◌++◌, Some, None, IfOk, OnOk, OnErr, IsErrOf};
ghost use Rattle.std.specs.Option.{option_map};
ghost use Rattle.gnmi_data_msg.specs.Writing.{message_fields};
ghost use Rattle.gnmi_set_msg.specs.Numbers.{op_of, reply_response};
ghost use Rattle.gnmi_set_msg.specs.Asks.{set_of};
ghost use Rattle.gnmi_set_msg.specs.Replies.{result_message, update_result, prefix_field, reply_message, reply_of};

use crate::numbers::{REPLY_PREFIX, REPLY_RESPONSE, REPLY_TIMESTAMP, RESULT_OP, RESULT_PATH};
use crate::request::{SetRequest, Update, read_request};
use base_kinds::Act;
use base_lists::{Bytes, NoMemory};
use gnmi_data_msg::{MsgFault, Written, put_message, put_number};
use gnmi_kinds::GnmiPath;
use std::alloc::Global;

fn op_of(act: Act) -> u64
    ensures { result ≡ op_of act }
{
    match act {
        Act::Delete => 1,
        Act::Replace => 2,
        Act::Update => 3,
    }
}

/// The octets of an UpdateResult.
fn result_message(alloc: Global, act: Act, path: &GnmiPath) -> Result<Bytes, NoMemory>
    ensures { IfOk result (λ message. message ≡ result_message act path.now) }
{
    let mut message = Bytes::empty(alloc);
    let written = path.written(alloc)?;
    put_message(alloc, RESULT_PATH, written.items(), &mut message)?;
    put_number(alloc, RESULT_OP, op_of(act), &mut message)?;
    Ok(message)
}

/// Adds a result for each path. What was added before memory ran out stays.
fn put_results(alloc: Global, act: Act, paths: &[GnmiPath], out: &mut Bytes) -> Result<(), NoMemory>
    ensures { OnOk result (out.new ≡ out.old
        ++ message_fields (result_message act) reply_response paths.now) }
{
    for path in paths {
        let message = result_message(alloc, act, path)?;
        put_message(alloc, REPLY_RESPONSE, message.items(), out)?;
    }
    Ok(())
}

/// Adds a result for each update. What was added before memory ran out stays.
fn put_update_results(
    alloc: Global,
    act: Act,
    updates: &[Update],
    out: &mut Bytes,
) -> Result<(), NoMemory>
    ensures { OnOk result (out.new ≡ out.old
        ++ message_fields (update_result act) reply_response updates.now) }
{
    for update in updates {
        let message = result_message(alloc, act, &update.path)?;
        put_message(alloc, REPLY_RESPONSE, message.items(), out)?;
    }
    Ok(())
}

/// Adds the prefix, if the request has one.
fn put_prefix(alloc: Global, request: &SetRequest, out: &mut Bytes) -> Result<(), NoMemory>
    ensures { OnOk result (out.new ≡ out.old ++ prefix_field request.now) }
{
    if !request.has_prefix {
        return Ok(());
    }
    let prefix = request.prefix.written(alloc)?;
    put_message(alloc, REPLY_PREFIX, prefix.items(), out)
}

/// The octets of the reply to the request.
fn reply_message(alloc: Global, stamp: u64, request: &SetRequest) -> Result<Bytes, NoMemory>
    ensures { IfOk result (λ message. message ≡ reply_message stamp request.now) }
{
    let mut message = Bytes::empty(alloc);
    put_prefix(alloc, request, &mut message)?;
    put_results(alloc, Act::Delete, request.deletes.items(), &mut message)?;
    put_update_results(alloc, Act::Replace, request.replaces.items(), &mut message)?;
    put_update_results(alloc, Act::Update, request.updates.items(), &mut message)?;
    put_number(alloc, REPLY_TIMESTAMP, stamp, &mut message)?;
    Ok(message)
}

/// Adds the octets of the SetResponse to the SetRequest with these octets (gNMI 3.4.2): its prefix, if it has one, a result with
/// the path of each delete, then of each replace, then of each update, and the stamp, in nanoseconds. Each path is written with
/// the origin and the target that it was read with. BadMessage exactly where `read_set` answers it. After a fault nothing is added.
pub fn write_set_reply(
    alloc: Global,
    octets: &[u8],
    stamp: u64,
    out: &mut Bytes,
) -> Result<(), MsgFault>
    ensures ok { OnOk result (option_map (λ reply. out.old ++ reply) (reply_of octets.now stamp)
        ≡ Some out.new) }
    ensures bad { IsErrOf result MsgFault.BadMessage → set_of octets.now ≡ None }
    ensures err { OnErr result (out.new ≡ out.old) }
{
    let request = read_request(alloc, octets)?;
    let message = reply_message(alloc, stamp, &request)?;
    out.extend_from_slice(message.items())?;
    Ok(())
}
