//! Reading a SetResponse and a GetResponse.
ghost use Rattle.gnmi_data_msg.specs.Parts.{IsReadAs};
ghost use Rattle.gnmi_client_msg.specs.Replies.{set_stamp_of, notes_of};
ghost use Rattle.gnmi_client_msg.specs.inner.Steps.{stamp_told, notes_told};

use crate::notes::{Notes, read_prefix, stamp_of};
use crate::numbers::{
    GET_REPLY_NOTIFICATION, RESULT_PATH, SET_REPLY_PREFIX, SET_REPLY_RESPONSE, SET_REPLY_TIMESTAMP,
};
use crate::parts::{Told, each_told};
use base_kinds::Seq;
use gnmi_data_msg::{MsgFault, count_under, read_path, single_message};
use gnmi_kinds::GnmiPath;
use pb_message::is_message;
use std::alloc::Global;

/// An UpdateResult (gNMI 3.4.2), of which the path is read.
#[derive(Drop)]
pub(crate) struct UpdateResult {
    path: GnmiPath,
}

impl Told for UpdateResult {
    ghost use Rattle.gnmi_client_msg.specs.inner.Steps.{result_of};

    ghost meaning = { result_of };

    #[tactic(auto, unfolding(crate::specs::inner::Steps::result_of))]
    fn read(alloc: Global, octets: &[u8]) -> Result<UpdateResult, MsgFault> {
        if !is_message(octets) {
            return Err(MsgFault::BadMessage);
        }
        let path = single_message(alloc, octets, RESULT_PATH)?;
        let path = read_path(alloc, path.items())?;
        Ok(UpdateResult { path })
    }
}

/// The stamp of a SetResponse, whose other parts are read and dropped.
#[tactic(auto, unfolding(crate::specs::inner::Steps::stamp_told))]
fn stamp_told(alloc: Global, octets: &[u8]) -> Result<u64, MsgFault>
    ensures { IsReadAs result (stamp_told octets.now) }
{
    if !is_message(octets) {
        return Err(MsgFault::BadMessage);
    }
    read_prefix(alloc, octets, SET_REPLY_PREFIX)?;
    let _results: Seq<UpdateResult> = each_told(alloc, octets, SET_REPLY_RESPONSE)?;
    stamp_of(count_under(octets, SET_REPLY_TIMESTAMP))
}

/// What each Notification of a GetResponse tells.
#[tactic(auto, unfolding(crate::specs::inner::Steps::notes_told))]
fn notes_told(alloc: Global, octets: &[u8]) -> Result<Notes, MsgFault>
    ensures { IsReadAs result (notes_told octets.now) }
{
    if !is_message(octets) {
        return Err(MsgFault::BadMessage);
    }
    each_told(alloc, octets, GET_REPLY_NOTIFICATION)
}

/// The stamp of the SetResponse that the octets are (gNMI 3.4.2), in nanoseconds. BadMessage where the octets aren't fields, or
/// those of the prefix or of a result are a bad message, or where the stamp is below 0.
pub fn read_set_reply(alloc: Global, octets: &[u8]) -> Result<u64, MsgFault>
    ensures { IsReadAs result (set_stamp_of octets.now) }
{
    stamp_told(alloc, octets)
}

/// What the Notifications of the GetResponse that the octets are tell (gNMI 3.3.2), in their order: the stamp, a row for each
/// update and the deleted paths, each path behind the Notification's prefix. Origins, targets and the deprecated fields `element`
/// and `value` are skipped, and so are `duplicates` and `atomic`. BadMessage where the octets aren't fields, or those of a
/// Notification or of what is read in it are a bad message; where a stamp is below 0; and where a value is missing, or neither a
/// scalar nor a list of scalars: a target that is asked for PROTO sends no other.
pub fn read_get_reply(alloc: Global, octets: &[u8]) -> Result<Notes, MsgFault>
    ensures { IsReadAs result (notes_of octets.now) }
{
    notes_told(alloc, octets)
}
