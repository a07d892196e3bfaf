//! Reading a SetRequest.
ghost use Rattle.gnmi_data_msg.specs.Parts.{IsReadAs};
ghost use Rattle.gnmi_set_msg.specs.Requests.{request_of};

use crate::numbers::{
    SET_DELETE, SET_EXTENSION, SET_PREFIX, SET_REPLACE, SET_UPDATE, UPDATE_PATH, UPDATE_VAL,
};
use base_kinds::{Given, Seq};
use gnmi_data_msg::{
    Message, MsgFault, fields_in, messages_in, or_empty, read_path, read_typed, single_message,
};
use gnmi_ext_msg::Extension;
use gnmi_kinds::GnmiPath;
use pb_message::{has_number_above, is_message, message_under};
use std::alloc::Global;

/// One replace or update of a Set, with its path as the message has it.
#[derive(Drop)]
pub struct Update {
    pub path: GnmiPath,
    pub given: Given,
}

pub type Updates = Seq<Update>;

/// A SetRequest as the message has it (gNMI 3.4.1).
#[derive(Drop)]
pub struct SetRequest {
    /// A path without elements where the message has none.
    pub prefix: GnmiPath,
    pub has_prefix: bool,
    pub deletes: Seq<GnmiPath>,
    pub replaces: Updates,
    pub updates: Updates,
    pub extensions: Seq<Extension>,
    /// There is a field with a number above that of `extension`.
    pub union_replace: bool,
}

impl Message for Update {
    ghost use Rattle.gnmi_set_msg.specs.Requests.{update_of};

    ghost meaning = { update_of };

    #[tactic(auto, unfolding(crate::specs::Requests::update_of))]
    fn read(alloc: Global, octets: &[u8]) -> Result<Update, MsgFault> {
        if !is_message(octets) {
            return Err(MsgFault::BadMessage);
        }
        let path = single_message(alloc, octets, UPDATE_PATH)?;
        let path = read_path(alloc, path.items())?;
        let value = single_message(alloc, octets, UPDATE_VAL)?;
        let given = read_typed(alloc, value.items())?;
        Ok(Update { path, given })
    }
}

/// The SetRequest that the octets are. BadMessage where they aren't fields, or those of a path, a value, an Update or an
/// Extension with a commit are a bad message.
#[tactic(auto, unfolding(crate::specs::Requests::request_of))]
pub fn read_request(alloc: Global, octets: &[u8]) -> Result<SetRequest, MsgFault>
    ensures { IsReadAs result (request_of octets.now) }
{
    let fields = fields_in(alloc, octets)?;
    let prefix = message_under(alloc, octets, SET_PREFIX)?;
    let has_prefix = prefix.is_some();
    let prefix = read_path(alloc, or_empty(alloc, prefix).items())?;
    let deletes = messages_in(alloc, octets, fields.items(), SET_DELETE)?;
    let replaces = messages_in(alloc, octets, fields.items(), SET_REPLACE)?;
    let updates = messages_in(alloc, octets, fields.items(), SET_UPDATE)?;
    let extensions = messages_in(alloc, octets, fields.items(), SET_EXTENSION)?;
    Ok(SetRequest {
        prefix,
        has_prefix,
        deletes,
        replaces,
        updates,
        extensions,
        union_replace: has_number_above(octets, SET_EXTENSION),
    })
}
