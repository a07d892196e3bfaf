//! What comes behind the first message of a Subscribe call: Polls, faults of its messages, and the peer's end.
ghost use Rattle.std.specs.Prelude.{◌≡◌, ℕ, List, ◌++◌, IfOk, Some, Ok};
ghost use Rattle.base_kinds.specs.Schema.{SchemaNode};
ghost use Rattle.book_port.specs.Ports.{PortView};
ghost use Rattle.base_kinds.specs.declared.request.ListMode.TheVariants as modes;
ghost use Rattle.request_desk.specs.Subscribes.{subscribe_step};
ghost use Rattle.request_desk.specs.declared.subscribe_steps.SubscribeStep.TheVariants.{Poll};
ghost use Rattle.grpc_requests.specs.declared.request.Asked.TheVariants as asks;
ghost use Rattle.grpc_requests.specs.declared.request.Later.TheVariants as later;
ghost use Rattle.session_core.specs.declared.reply.Reply.TheVariants as replies;
ghost use Rattle.session_core.specs.inner.Steps.{IsFound, IsLaterDone, IsReplied, list_of, service};

use crate::reply::{Answered, Reply};
use crate::served::{Served, ServedCalls};
use base_kinds::{ListMode, Refusal};
use base_lists::NoMemory;
use grpc_requests::Later;
use request_desk::{Desk, SubscribeStep};
use std::alloc::Global;
use subscribe_calls::Messages;

/// How many Polls of a call wait at most.
const MOST_POLLS: u32 = 16;

/// The call on a stream, if one is served there, and those before and behind it.
#[derive(Drop)]
struct Found {
    before: ServedCalls,
    served: Option<Served>,
    after: ServedCalls,
}

fn find(alloc: Global, calls: ServedCalls, stream: u32) -> Result<Found, NoMemory>
    ensures { IfOk result (λ found. IsFound stream found.before found.served found.after calls) }
{
    let mut before = ServedCalls::empty(alloc);
    let mut at = None;
    let mut after = ServedCalls::empty(alloc);
    for served in calls.into_vec() {
        match at {
            Some(_) => after.push(served)?,
            None => {
                if served.stream == stream {
                    at = Some(served);
                } else {
                    before.push(served)?;
                }
            }
        }
    }
    Ok(Found {
        before,
        served: at,
        after,
    })
}

/// The calls with this one between them, if there is one.
fn joined(
    before: ServedCalls,
    served: Option<Served>,
    after: ServedCalls,
) -> Result<ServedCalls, NoMemory>
    ensures { IfOk result (λ calls. calls ≡ before ++ list_of served ++ after) }
{
    let mut calls = before;
    match served {
        Some(served) => calls.push(served)?,
        None => {}
    }
    for served in after.into_vec() {
        calls.push(served)?;
    }
    Ok(calls)
}

/// What is said, and the call if it is still served.
#[derive(Drop)]
pub(crate) struct Step {
    pub(crate) reply: Reply,
    pub(crate) left: Option<Served>,
}

/// One Poll more.
fn polled(served: Served) -> Step
    ensures { (body : List ℕ) → subscribe_step (Some served.call.plan.mode) body ≡ Ok Poll
        → IsLaterDone (later.Message body) served result.reply result.left }
{
    let mut served = served;
    if served.polls < MOST_POLLS {
        served.polls += 1;
        Step {
            reply: Reply::Nothing,
            left: Some(served),
        }
    } else {
        Step {
            reply: Reply::Of(Err(Refusal::BadSubscribe)),
            left: None,
        }
    }
}

/// A further message.
fn messaged(alloc: Global, desk: &Desk, served: Served, body: &[u8]) -> Step
    ensures { IsLaterDone (later.Message body.now) served result.reply result.left }
{
    match desk.subscribe(alloc, body, Some(served.call.plan().mode)) {
        Ok(SubscribeStep::Poll) => polled(served),
        Ok(SubscribeStep::Begin(_)) => Step {
            reply: Reply::Of(Err(Refusal::BadSubscribe)),
            left: None,
        },
        Err(refusal) => Step {
            reply: Reply::Of(Err(refusal)),
            left: None,
        },
    }
}

/// The peer has ended the call, which is of mode POLL.
fn polls_ended(alloc: Global, served: Served) -> Step
    ensures { served.call.plan.mode ≡ modes.Poll
        → IsLaterDone later.End served result.reply result.left }
{
    let mut served = served;
    if served.polls == 0 {
        Step {
            reply: Reply::Say(Messages::empty(alloc), true),
            left: None,
        }
    } else {
        served.ended = true;
        Step {
            reply: Reply::Nothing,
            left: Some(served),
        }
    }
}

/// The call goes on as it is.
fn unmoved(served: Served) -> Step
    ensures reply { result.reply ≡ replies.Nothing }
    ensures left { result.left ≡ Some served }
{
    Step {
        reply: Reply::Nothing,
        left: Some(served),
    }
}

/// The peer has ended the call.
fn ended(alloc: Global, served: Served) -> Step
    ensures { IsLaterDone later.End served result.reply result.left }
{
    match served.call.plan().mode {
        ListMode::Poll => polls_ended(alloc, served),
        ListMode::Stream => unmoved(served),
        ListMode::Once => unmoved(served),
        ListMode::Other => unmoved(served),
    }
}

fn step_of(alloc: Global, desk: &Desk, served: Served, what: Later) -> Step
    ensures { IsLaterDone what served result.reply result.left }
{
    match what {
        Later::Message(body) => messaged(alloc, desk, served, body.items()),
        Later::Fault(refusal) => Step {
            reply: Reply::Of(Err(refusal)),
            left: None,
        },
        Later::End => ended(alloc, served),
    }
}

/// What is said to what comes behind the first message of a call, and which calls are served then.
pub(crate) fn answer_later(
    alloc: Global,
    desk: &Desk,
    calls: ServedCalls,
    stream: u32,
    what: Later,
) -> Result<Answered, NoMemory>
    ensures { IfOk result (λ done. (schema : List SchemaNode) (port : PortView) (readings : List ℕ)
        → IsReplied schema stream (asks.Later what) done.reply
        (service port calls) (service port done.calls) readings readings) }
{
    let Found {
        before,
        served,
        after,
    } = find(alloc, calls, stream)?;
    match served {
        None => Ok(Answered {
            reply: Reply::Nothing,
            calls: before,
        }),
        Some(served) => {
            let Step { reply, left } = step_of(alloc, desk, served, what);
            let calls = joined(before, left, after)?;
            Ok(Answered { reply, calls })
        }
    }
}
