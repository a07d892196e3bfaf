//! What one message of a Subscribe call asks of it.
ghost use Rattle.std.specs.Prelude.{◌≡◌};
ghost use Rattle.base_lists.specs.Results.{IsUnlessMemory};
ghost use Rattle.sub_plan.specs.Plans.{plan_of};
ghost use Rattle.request_desk.specs.Subscribes.{begun, first_step, later_step, poll_step, second_step, subscribe_step};

use base_kinds::{ListMode, Refusal};
use gnmi_data_msg::MsgFault;
use gnmi_kinds::SubAsk;
use gnmi_sub_msg::{SubTurn, read_sub};
use std::alloc::Global;
use sub_plan::{Plan, plan_of};

/// What a message asks of its Subscribe call, where it isn't refused.
#[derive(Drop)]
pub enum SubscribeStep {
    /// The call begins, with this plan.
    Begin(Plan),
    /// The state is asked for once more, of a call of mode POLL.
    Poll,
}

/// The first list of a call.
fn first_list(alloc: Global, ask: &SubAsk) -> Result<SubscribeStep, Refusal>
    ensures { IsUnlessMemory Refusal.NoMemory result (begun (plan_of ask.now)) }
{
    match plan_of(alloc, ask) {
        Ok(plan) => Ok(SubscribeStep::Begin(plan)),
        Err(refusal) => Err(refusal),
    }
}

/// Why a second list is refused.
fn second_list(alloc: Global, ask: &SubAsk) -> Result<SubscribeStep, Refusal>
    ensures { IsUnlessMemory Refusal.NoMemory result (second_step (plan_of ask.now)) }
{
    match plan_of(alloc, ask) {
        Ok(_) => Err(Refusal::BadSubscribe),
        Err(Refusal::NoMemory) => Err(Refusal::NoMemory),
        Err(Refusal::Unsupported) => Err(Refusal::Unsupported),
        Err(_) => Err(Refusal::BadSubscribe),
    }
}

fn poll_step(mode: ListMode) -> Result<SubscribeStep, Refusal>
    ensures { result ≡ poll_step mode }
{
    match mode {
        ListMode::Stream => Err(Refusal::BadSubscribe),
        ListMode::Once => Err(Refusal::BadSubscribe),
        ListMode::Poll => Ok(SubscribeStep::Poll),
        ListMode::Other => Err(Refusal::BadSubscribe),
    }
}

fn first_step(alloc: Global, turn: SubTurn) -> Result<SubscribeStep, Refusal>
    ensures { IsUnlessMemory Refusal.NoMemory result (first_step turn) }
{
    match turn {
        SubTurn::List(ask) => first_list(alloc, &ask),
        SubTurn::Poll => Err(Refusal::BadSubscribe),
        SubTurn::Unsupported => Err(Refusal::Unsupported),
    }
}

fn later_step(alloc: Global, mode: ListMode, turn: SubTurn) -> Result<SubscribeStep, Refusal>
    ensures { IsUnlessMemory Refusal.NoMemory result (later_step mode turn) }
{
    match turn {
        SubTurn::List(ask) => second_list(alloc, &ask),
        SubTurn::Poll => poll_step(mode),
        SubTurn::Unsupported => Err(Refusal::Unsupported),
    }
}

/// What a message asks of its call, behind the first list of this mode, if there was one.
pub(crate) fn subscribe_step(
    alloc: Global,
    body: &[u8],
    started: Option<ListMode>,
) -> Result<SubscribeStep, Refusal>
    ensures { IsUnlessMemory Refusal.NoMemory result (subscribe_step started body.now) }
{
    let turn = match read_sub(alloc, body) {
        Ok(turn) => turn,
        Err(MsgFault::BadMessage) => return Err(Refusal::BadMessage),
        Err(MsgFault::NoMemory) => return Err(Refusal::NoMemory),
    };
    match started {
        None => first_step(alloc, turn),
        Some(mode) => later_step(alloc, mode, turn),
    }
}
