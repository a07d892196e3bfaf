//! What a SubscribeRequest asks for.
ghost use Rattle.std.specs.Prelude.{◌≡◌, map, IfOk};
ghost use Rattle.std.specs.List.{list_any};
ghost use Rattle.gnmi_data_msg.specs.Parts.{IsReadAs};
ghost use Rattle.gnmi_data_msg.specs.Profile.{is_foreign};
ghost use Rattle.gnmi_sub_msg.specs.Turns.{line_of, ask_of, member_turn, turn_asked, turn_of, IsTold};

use crate::lists::{Subscription, SubscriptionList};
use crate::request::{SubMember, SubRequest, read_request};
use base_kinds::{Seq, SubLine, SubLines};
use base_lists::NoMemory;
use gnmi_data_msg::{MsgFault, is_foreign};
use gnmi_ext_msg::are_other;
use gnmi_kinds::SubAsk;
use std::alloc::Global;

/// What one message of a Subscribe call asks for (gNMI 3.5.1.1).
#[derive(Drop)]
pub enum SubTurn {
    List(SubAsk),
    Poll,
    /// The message has an extension other than a commit, whatever else it has.
    Unsupported,
}

fn have_foreign(subscriptions: &[Subscription]) -> bool
    ensures { result ≡ list_any (λ subscription. is_foreign subscription.path) subscriptions.now }
{
    subscriptions
        .iter()
        .any(|subscription| is_foreign(&subscription.path))
}

fn line_of(subscription: Subscription) -> SubLine
    ensures { result ≡ line_of subscription }
{
    let Subscription {
        path,
        mode,
        interval,
        suppress,
        heartbeat,
    } = subscription;
    SubLine {
        path: path.path,
        mode,
        interval,
        suppress,
        heartbeat,
    }
}

/// The subscriptions with the elements of their paths.
fn lines_of(alloc: Global, subscriptions: Seq<Subscription>) -> Result<SubLines, NoMemory>
    ensures { IfOk result (λ lines. lines ≡ map line_of subscriptions) }
{
    let mut lines = Seq::empty(alloc);
    for subscription in subscriptions.into_vec() {
        lines.push(line_of(subscription))?;
    }
    Ok(lines)
}

/// What the list asks for.
fn ask_of(alloc: Global, list: SubscriptionList) -> Result<SubAsk, NoMemory>
    ensures { IfOk result (λ ask. ask ≡ ask_of list) }
{
    let unsupported = list.models.len() != 0 || have_foreign(list.subscriptions.items());
    let SubscriptionList {
        prefix,
        subscriptions,
        mode,
        models: _,
        encoding,
        updates_only,
    } = list;
    let lines = lines_of(alloc, subscriptions)?;
    Ok(SubAsk {
        prefix,
        lines,
        mode,
        updates_only,
        encoding,
        unsupported,
    })
}

fn member_turn(alloc: Global, member: SubMember) -> Result<SubTurn, NoMemory>
    ensures { IfOk result (λ turn. turn ≡ member_turn member) }
{
    match member {
        SubMember::Subscribe(list) => {
            let ask = ask_of(alloc, list)?;
            Ok(SubTurn::List(ask))
        }
        SubMember::Poll => Ok(SubTurn::Poll),
    }
}

/// What the request asks for.
fn turn_asked(alloc: Global, request: SubRequest) -> Result<SubTurn, NoMemory>
    ensures { IfOk result (λ turn. turn ≡ turn_asked request) }
{
    let SubRequest { member, extensions } = request;
    if are_other(extensions.items()) {
        return Ok(SubTurn::Unsupported);
    }
    member_turn(alloc, member)
}

/// What the octets of a SubscribeRequest ask for (gNMI 3.5.1.1): a list, a poll, or, where there is an extension other than a
/// commit, what isn't supported; with neither list nor poll it is a list without subscriptions. In a list the subscriptions stand
/// in their order, each with its path behind no prefix. It tells as unsupported a model in `use_models`, and a path with an origin
/// other than the empty one and `openconfig` or with texts in the deprecated field `element`; the prefix's own, the encoding, the
/// modes and the intervals are told and not judged. A target of another path than the prefix isn't told. BadMessage where the
/// octets aren't fields, or those of a part that is read are a bad message: of the oneof that is the last member.
#[tactic(auto, using(crate::proofs::Told::is_told))]
pub fn read_sub(alloc: Global, octets: &[u8]) -> Result<SubTurn, MsgFault>
    ensures asked { IsReadAs result (turn_of octets.now) }
    // A list tells what isn't supported, as the plan of its subscriptions takes it.
    ensures told { IfOk result (IsTold octets.now) }
{
    let request = read_request(alloc, octets)?;
    let turn = turn_asked(alloc, request)?;
    Ok(turn)
}
