//! Reading a SubscribeRequest.
ghost use Rattle.std.specs.Prelude.{◌≡◌, IfOk};
ghost use Rattle.pb_message.specs.Values.{member_under};
ghost use Rattle.gnmi_data_msg.specs.Parts.{IsReadAs};
ghost use Rattle.gnmi_sub_msg.specs.Numbers.{sub_members};
ghost use Rattle.gnmi_sub_msg.specs.Requests.{poll_in, member_given, request_of};

use crate::lists::{SubscriptionList, read_list};
use crate::numbers::{SUB_EXTENSION, SUB_POLL, SUB_SUBSCRIBE};
use base_kinds::Seq;
use base_lists::{Bytes, NoMemory};
use gnmi_data_msg::{MsgFault, fields_in, messages_in};
use gnmi_ext_msg::Extension;
use pb_message::{is_message, member_under};
use std::alloc::Global;

/// The member of a SubscribeRequest's oneof.
#[derive(Drop)]
pub enum SubMember {
    Subscribe(SubscriptionList),
    Poll,
}

/// A SubscribeRequest as the message has it (gNMI 3.5.1.1).
#[derive(Drop)]
pub struct SubRequest {
    /// A list without fields where the message has none.
    pub member: SubMember,
    pub extensions: Seq<Extension>,
}

/// The oneof's member, if one is set.
fn member_of(alloc: Global, octets: &[u8]) -> Result<Option<(u32, Bytes)>, NoMemory>
    ensures { IfOk result (λ member. member ≡ member_under sub_members octets.now) }
{
    member_under(alloc, octets, &[SUB_SUBSCRIBE, SUB_POLL])
}

fn poll_in(octets: &[u8]) -> Result<SubMember, MsgFault>
    ensures { IsReadAs result (poll_in octets.now) }
{
    if is_message(octets) {
        Ok(SubMember::Poll)
    } else {
        Err(MsgFault::BadMessage)
    }
}

/// What the member is.
fn member_given(alloc: Global, member: Option<(u32, Bytes)>) -> Result<SubMember, MsgFault>
    ensures { IsReadAs result (member_given member) }
{
    match member {
        None => {
            let list = read_list(alloc, &[])?;
            Ok(SubMember::Subscribe(list))
        }
        Some((number, message)) => {
            if number == SUB_POLL {
                return poll_in(message.items());
            }
            let list = read_list(alloc, message.items())?;
            Ok(SubMember::Subscribe(list))
        }
    }
}

/// The SubscribeRequest that the octets are: the oneof's last member counts, with its occurrences directly before (protobuf.dev,
/// "Language Guide (proto 3)", "Oneof Features"). BadMessage where the octets aren't fields, or those of that member or of an
/// Extension are a bad message.
#[tactic(auto, unfolding(crate::specs::Requests::request_of))]
pub fn read_request(alloc: Global, octets: &[u8]) -> Result<SubRequest, MsgFault>
    ensures { IsReadAs result (request_of octets.now) }
{
    let fields = fields_in(alloc, octets)?;
    let member = member_of(alloc, octets)?;
    let member = member_given(alloc, member)?;
    let extensions = messages_in(alloc, octets, fields.items(), SUB_EXTENSION)?;
    Ok(SubRequest { member, extensions })
}
