//! Reading an Extension.
ghost use Rattle.std.specs.Prelude.{◌≡◌, IfOk};
ghost use Rattle.pb_message.specs.Values.{member_under};
ghost use Rattle.gnmi_data_msg.specs.Parts.{IsReadAs};
ghost use Rattle.gnmi_ext_msg.specs.Numbers.{extension_members};
ghost use Rattle.gnmi_ext_msg.specs.Extensions.{extension_given, extension_of};

use crate::numbers::{
    EXTENSION_COMMIT, EXTENSION_CONFIG_SUBSCRIPTION, EXTENSION_DEPTH, EXTENSION_HISTORY,
    EXTENSION_MASTER_ARBITRATION, EXTENSION_REGISTERED_EXT,
};
use crate::reading::read_commit;
use base_kinds::Action;
use base_lists::{Bytes, NoMemory};
use gnmi_data_msg::{Message, MsgFault};
use pb_message::{is_message, member_under};
use std::alloc::Global;

/// An extension of a request (gNMI 2.7).
#[derive(Drop)]
pub enum Extension {
    /// The commit extension, with what it asks for.
    Commit(Action),
    /// Another one, or an Extension in which none is set.
    Other,
}

/// The oneof's member, if one is set.
fn member_of(alloc: Global, octets: &[u8]) -> Result<Option<(u32, Bytes)>, NoMemory>
    ensures { IfOk result (λ member. member ≡ member_under extension_members octets.now) }
{
    member_under(
        alloc,
        octets,
        &[
            EXTENSION_REGISTERED_EXT,
            EXTENSION_MASTER_ARBITRATION,
            EXTENSION_HISTORY,
            EXTENSION_COMMIT,
            EXTENSION_DEPTH,
            EXTENSION_CONFIG_SUBSCRIPTION,
        ],
    )
}

/// What the member is.
fn extension_given(alloc: Global, member: Option<(u32, Bytes)>) -> Result<Extension, MsgFault>
    ensures { IsReadAs result (extension_given member) }
{
    match member {
        None => Ok(Extension::Other),
        Some((number, message)) => {
            if number == EXTENSION_COMMIT {
                let action = read_commit(alloc, message.items())?;
                Ok(Extension::Commit(action))
            } else {
                Ok(Extension::Other)
            }
        }
    }
}

/// What the octets of an Extension are: the oneof's last member counts, with its occurrences directly before (protobuf.dev,
/// "Encoding", "Oneofs"). BadMessage where the octets aren't fields, or where those of a Commit are a bad message; the octets
/// of another extension aren't looked at.
#[tactic(auto, unfolding(crate::specs::Extensions::extension_of))]
pub fn read_extension(alloc: Global, octets: &[u8]) -> Result<Extension, MsgFault>
    ensures { IsReadAs result (extension_of octets.now) }
{
    if !is_message(octets) {
        return Err(MsgFault::BadMessage);
    }
    let member = member_of(alloc, octets)?;
    extension_given(alloc, member)
}

impl Message for Extension {
    ghost use Rattle.gnmi_ext_msg.specs.Extensions.{extension_of};

    ghost meaning = { extension_of };

    fn read(alloc: Global, octets: &[u8]) -> Result<Extension, MsgFault> {
        read_extension(alloc, octets)
    }
}
