//! Reading a SubscriptionList.
ghost use Rattle.std.specs.Prelude.{◌≡◌};
ghost use Rattle.gnmi_data_msg.specs.Parts.{IsReadAs};
ghost use Rattle.gnmi_sub_msg.specs.Lists.{sub_mode_of, list_mode_of, list_of};

use crate::numbers::{
    LINE_HEARTBEAT_INTERVAL, LINE_MODE, LINE_PATH, LINE_SAMPLE_INTERVAL, LINE_SUPPRESS_REDUNDANT,
    LIST_ENCODING, LIST_MODE, LIST_PREFIX, LIST_SUBSCRIPTION, LIST_UPDATES_ONLY, LIST_USE_MODELS,
    ON_CHANGE, ONCE, POLL, SAMPLE, STREAM, TARGET_DEFINED,
};
use base_kinds::{ListMode, Seq, SubMode};
use gnmi_data_msg::{
    Message, ModelData, MsgFault, count_under, encoding_of, enum_under, fields_in, flag_under,
    messages_in, read_path, single_message,
};
use gnmi_kinds::{Encoding, GnmiPath};
use pb_message::is_message;
use std::alloc::Global;

/// One subscription of a list, with its path as the message has it. Intervals are in nanoseconds.
#[derive(Drop)]
pub struct Subscription {
    pub path: GnmiPath,
    pub mode: SubMode,
    pub interval: u64,
    pub suppress: bool,
    pub heartbeat: u64,
}

/// A SubscriptionList as the message has it (gNMI 3.5.1.2).
#[derive(Drop)]
pub struct SubscriptionList {
    pub prefix: GnmiPath,
    pub subscriptions: Seq<Subscription>,
    pub mode: ListMode,
    pub models: Seq<ModelData>,
    pub encoding: Encoding,
    pub updates_only: bool,
}

fn sub_mode_of(number: u32) -> SubMode
    ensures { result ≡ sub_mode_of number }
{
    if number == TARGET_DEFINED || number == ON_CHANGE {
        SubMode::Change
    } else if number == SAMPLE {
        SubMode::Sample
    } else {
        SubMode::Other
    }
}

fn list_mode_of(number: u32) -> ListMode
    ensures { result ≡ list_mode_of number }
{
    if number == STREAM {
        ListMode::Stream
    } else if number == ONCE {
        ListMode::Once
    } else if number == POLL {
        ListMode::Poll
    } else {
        ListMode::Other
    }
}

impl Message for Subscription {
    ghost use Rattle.gnmi_sub_msg.specs.Lists.{subscription_of};

    ghost meaning = { subscription_of };

    #[tactic(auto, unfolding(crate::specs::Lists::subscription_of))]
    fn read(alloc: Global, octets: &[u8]) -> Result<Subscription, MsgFault> {
        if !is_message(octets) {
            return Err(MsgFault::BadMessage);
        }
        let path = single_message(alloc, octets, LINE_PATH)?;
        let path = read_path(alloc, path.items())?;
        Ok(Subscription {
            path,
            mode: sub_mode_of(enum_under(octets, LINE_MODE)),
            interval: count_under(octets, LINE_SAMPLE_INTERVAL),
            suppress: flag_under(octets, LINE_SUPPRESS_REDUNDANT),
            heartbeat: count_under(octets, LINE_HEARTBEAT_INTERVAL),
        })
    }
}

/// The SubscriptionList that the octets are. BadMessage where they aren't fields, or those of a path, a Subscription or a model
/// are a bad message.
#[tactic(auto, unfolding(crate::specs::Lists::list_of))]
pub fn read_list(alloc: Global, octets: &[u8]) -> Result<SubscriptionList, MsgFault>
    ensures { IsReadAs result (list_of octets.now) }
{
    let fields = fields_in(alloc, octets)?;
    let prefix = single_message(alloc, octets, LIST_PREFIX)?;
    let prefix = read_path(alloc, prefix.items())?;
    let subscriptions = messages_in(alloc, octets, fields.items(), LIST_SUBSCRIPTION)?;
    let models = messages_in(alloc, octets, fields.items(), LIST_USE_MODELS)?;
    Ok(SubscriptionList {
        prefix,
        subscriptions,
        mode: list_mode_of(enum_under(octets, LIST_MODE)),
        models,
        encoding: encoding_of(enum_under(octets, LIST_ENCODING)),
        updates_only: flag_under(octets, LIST_UPDATES_ONLY),
    })
}
