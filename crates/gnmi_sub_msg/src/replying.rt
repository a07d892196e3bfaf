//! Writing a SubscribeResponse.
ghost use Rattle.std.specs.Prelude.{◌≡◌, ◌++◌, OnOk, OnErr};
ghost use Rattle.gnmi_sub_msg.specs.Replies.{note_reply, sync_reply};

use crate::numbers::{REPLY_SYNC_RESPONSE, REPLY_UPDATE};
use base_lists::{Bytes, NoMemory};
use gnmi_data_msg::{put_message, put_number};
use std::alloc::Global;

/// Adds the octets of a SubscribeResponse with these octets of a Notification. After want of memory nothing is added.
pub fn write_sub_note(alloc: Global, note: &[u8], out: &mut Bytes) -> Result<(), NoMemory>
    ensures ok { OnOk result (out.new ≡ out.old ++ note_reply note.now) }
    ensures err { OnErr result (out.new ≡ out.old) }
{
    put_message(alloc, REPLY_UPDATE, note, out)
}

/// Adds the octets of a SubscribeResponse that says that what was there at the beginning has been sent (gNMI 3.5.1.4). After want
/// of memory nothing is added.
pub fn write_sync(alloc: Global, out: &mut Bytes) -> Result<(), NoMemory>
    ensures ok { OnOk result (out.new ≡ out.old ++ sync_reply) }
    ensures err { OnErr result (out.new ≡ out.old) }
{
    put_number(alloc, REPLY_SYNC_RESPONSE, 1, out)
}
