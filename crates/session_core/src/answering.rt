//! Requests are answered by the desk, at the port of a book, and calls of the modes STREAM and POLL begin to be served.
ghost use Rattle.std.specs.Prelude.{◌≡◌, ◌⊎◌, ℕ, List, [], ◌∷◌, ◌++◌, map, IfOk, MatchResult, OnOk, None, Ok};
ghost use Rattle.base_kinds.specs.Schema.{SchemaNode};
ghost use Rattle.base_kinds.specs.declared.request.ListMode.TheVariants as modes;
ghost use Rattle.h2_events.specs.declared.said.Said.TheVariants.{Message};
ghost use Rattle.book_port.specs.Ports.{PortView};
ghost use Rattle.request_desk.specs.Subscribes.{subscribe_step};
ghost use Rattle.request_desk.specs.declared.subscribe_steps.SubscribeStep.TheVariants.{Begin};
ghost use Rattle.grpc_requests.specs.declared.request.Asked.TheVariants as asks;
ghost use Rattle.session_core.specs.declared.served.Served.{Served as Serving};
ghost use Rattle.session_core.specs.Deeds.{others_than, told_all};
ghost use Rattle.session_core.specs.inner.Feeders.{AreOfSession, book_of};
ghost use Rattle.session_core.specs.inner.Steps.{IsReplied, IsRepliedBeside, said_in, service};
ghost use Rattle.session_core.specs.inner.Words.{words};

use crate::handing::Handing;
use crate::later::answer_later;
use crate::reply::{Answered, Reply};
use crate::sending::Sending;
use crate::served::{Served, ServedCalls};
use crate::waiting::{Waiting, Waitings};
use base_kinds::{ListMode, Refusal};
use base_lists::NoMemory;
use book_port::BookPort;
use environment::Clock;
use grpc_requests::Asked;
use h2_events::Said;
use request_desk::{Desk, SubscribeStep};
use std::alloc::Global;
use sub_plan::Plan;
use subscribe_calls::{Messages, SubscribeCall};

/// The answer to a ONCE call with this plan, at a reading of the clock.
fn answer_once<P: BookPort, C: Clock>(
    alloc: Global,
    desk: &Desk,
    book: &mut P,
    clock: &mut C,
    plan: Plan,
) -> Reply
    ensures replied { (stream : ℕ) (body : List ℕ) (calls : List Serving)
        → subscribe_step None body ≡ Ok (Begin plan) → plan.mode ≡ modes.Once
        → IsReplied desk.now stream (asks.Subscribe body) result
        (service (P.port book.old) calls) (service (P.port book.new) calls)
        (C.readings clock.old) (C.readings clock.new) }
    ensures book { book_of (P.port book.new) ≡ book_of (P.port book.old) }
{
    let mut call = match SubscribeCall::of(alloc, plan) {
        Ok(call) => call,
        Err(_) => return Reply::Of(Err(Refusal::NoMemory)),
    };
    let now = clock.now();
    match call.turn(alloc, desk.schema(), now, book) {
        Ok(messages) => Reply::Say(messages, true),
        Err(refusal) => Reply::Of(Err(refusal)),
    }
}

/// The calls that aren't on the stream.
fn others_than(alloc: Global, calls: ServedCalls, stream: u32) -> Result<ServedCalls, NoMemory>
    ensures { IfOk result (λ others. others ≡ others_than stream calls) }
{
    let mut others = ServedCalls::empty(alloc);
    for served in calls.into_vec() {
        if served.stream != stream {
            others.push(served)?;
        }
    }
    Ok(others)
}

/// A call of mode STREAM or POLL is served from now on.
fn begin(alloc: Global, calls: ServedCalls, stream: u32, plan: Plan) -> Result<Answered, NoMemory>
    ensures { (schema : List SchemaNode) (body : List ℕ) (port : PortView) (readings : List ℕ)
        → subscribe_step None body ≡ Ok (Begin plan)
        → (plan.mode ≡ modes.Stream) ⊎ (plan.mode ≡ modes.Poll)
        → IfOk result (λ done. IsReplied schema stream (asks.Subscribe body) done.reply
        (service port calls) (service port done.calls) readings readings) }
{
    let call = match SubscribeCall::of(alloc, plan) {
        Ok(call) => call,
        Err(_) => {
            return Ok(Answered {
                reply: Reply::Of(Err(Refusal::NoMemory)),
                calls,
            });
        }
    };
    let mut calls = others_than(alloc, calls, stream)?;
    calls.push(Served {
        stream,
        call,
        polls: 0,
        ended: false,
    })?;
    Ok(Answered {
        reply: Reply::Nothing,
        calls,
    })
}

/// The answer to a Subscribe call that begins with this plan.
fn answer_plan<P: BookPort, C: Clock, W: Sending, H: Handing<P, W, C>>(
    alloc: Global,
    desk: &Desk,
    book: &mut P,
    clock: &mut C,
    wire: &mut W,
    feeders: &mut H,
    calls: ServedCalls,
    stream: u32,
    plan: Plan,
) -> Result<Answered, NoMemory>
    ensures replied { (body : List ℕ) → subscribe_step None body ≡ Ok (Begin plan)
        → MatchResult result
        (λ done. IsRepliedBeside (W.history wire.old).name desk.now stream (asks.Subscribe body)
        done.reply (service (P.port book.old) calls) (service (P.port book.new) done.calls)
        (C.readings clock.old) (C.readings clock.new)
        (H.feeding feeders.old).started (H.feeding feeders.new).started)
        (λ _. (P.port book.new ≡ P.port book.old)
        × (C.readings clock.new ≡ C.readings clock.old)
        × ((H.feeding feeders.new).started ≡ (H.feeding feeders.old).started)) }
    ensures book { book_of (P.port book.new) ≡ book_of (P.port book.old) }
    ensures wire { W.progress wire.new ≡ W.progress wire.old }
    ensures history { W.history wire.new ≡ W.history wire.old }
    ensures ours { AreOfSession (P.port book.old) (W.history wire.old) (H.feeding feeders.old)
        → AreOfSession (P.port book.new) (W.history wire.new) (H.feeding feeders.new) }
{
    match plan.mode {
        ListMode::Once => Ok(Answered {
            reply: answer_once(alloc, desk, book, clock, plan),
            calls,
        }),
        ListMode::Stream => match feeders.hand(alloc, book, wire, clock, stream, plan) {
            Ok(()) => Ok(Answered {
                reply: Reply::Nothing,
                calls,
            }),
            Err(plan) => begin(alloc, calls, stream, plan),
        },
        ListMode::Poll => begin(alloc, calls, stream, plan),
        ListMode::Other => Ok(Answered {
            reply: Reply::Of(Err(Refusal::Unsupported)),
            calls,
        }),
    }
}

/// The answer to the first message of a Subscribe call.
fn answer_subscribe<P: BookPort, C: Clock, W: Sending, H: Handing<P, W, C>>(
    alloc: Global,
    desk: &Desk,
    book: &mut P,
    clock: &mut C,
    wire: &mut W,
    feeders: &mut H,
    calls: ServedCalls,
    stream: u32,
    body: &[u8],
) -> Result<Answered, NoMemory>
    ensures replied { MatchResult result
        (λ done. IsRepliedBeside (W.history wire.old).name desk.now stream
        (asks.Subscribe body.now) done.reply
        (service (P.port book.old) calls) (service (P.port book.new) done.calls)
        (C.readings clock.old) (C.readings clock.new)
        (H.feeding feeders.old).started (H.feeding feeders.new).started)
        (λ _. (P.port book.new ≡ P.port book.old)
        × (C.readings clock.new ≡ C.readings clock.old)
        × ((H.feeding feeders.new).started ≡ (H.feeding feeders.old).started)) }
    ensures book { book_of (P.port book.new) ≡ book_of (P.port book.old) }
    ensures wire { W.progress wire.new ≡ W.progress wire.old }
    ensures history { W.history wire.new ≡ W.history wire.old }
    ensures ours { AreOfSession (P.port book.old) (W.history wire.old) (H.feeding feeders.old)
        → AreOfSession (P.port book.new) (W.history wire.new) (H.feeding feeders.new) }
{
    match desk.subscribe(alloc, body, None) {
        Ok(SubscribeStep::Begin(plan)) => {
            answer_plan(alloc, desk, book, clock, wire, feeders, calls, stream, plan)
        }
        Ok(SubscribeStep::Poll) => Ok(Answered {
            reply: Reply::Of(Err(Refusal::BadSubscribe)),
            calls,
        }),
        Err(refusal) => Ok(Answered {
            reply: Reply::Of(Err(refusal)),
            calls,
        }),
    }
}

/// The answer to what was asked on a stream. A message of a unary call, and the turn of a ONCE call, is answered at a reading of
/// the clock of its own. A call of mode STREAM is handed over, where somebody takes it. Want of memory is told where nothing was
/// done.
pub(crate) fn answer_of<P: BookPort, C: Clock, W: Sending, H: Handing<P, W, C>>(
    alloc: Global,
    desk: &Desk,
    book: &mut P,
    clock: &mut C,
    wire: &mut W,
    feeders: &mut H,
    calls: ServedCalls,
    stream: u32,
    asked: Asked,
) -> Result<Answered, NoMemory>
    requires { (P.port book.old).opened.schema ≡ desk.now }
    ensures replied { MatchResult result
        (λ done. IsRepliedBeside (W.history wire.old).name desk.now stream asked done.reply
        (service (P.port book.old) calls) (service (P.port book.new) done.calls)
        (C.readings clock.old) (C.readings clock.new)
        (H.feeding feeders.old).started (H.feeding feeders.new).started)
        (λ _. (P.port book.new ≡ P.port book.old)
        × (C.readings clock.new ≡ C.readings clock.old)
        × ((H.feeding feeders.new).started ≡ (H.feeding feeders.old).started)) }
    ensures book { book_of (P.port book.new) ≡ book_of (P.port book.old) }
    ensures wire { W.progress wire.new ≡ W.progress wire.old }
    ensures history { W.history wire.new ≡ W.history wire.old }
    ensures ours { AreOfSession (P.port book.old) (W.history wire.old) (H.feeding feeders.old)
        → AreOfSession (P.port book.new) (W.history wire.new) (H.feeding feeders.new) }
{
    match asked {
        Asked::Call(method, body) => {
            let now = clock.now();
            Ok(Answered {
                reply: Reply::Of(desk.answer(alloc, method, body.items(), now, book)),
                calls,
            })
        }
        Asked::Subscribe(body) => {
            answer_subscribe(
                alloc,
                desk,
                book,
                clock,
                wire,
                feeders,
                calls,
                stream,
                body.items(),
            )
        }
        Asked::Later(what) => answer_later(alloc, desk, calls, stream, what),
        Asked::Http(status) => Ok(Answered {
            reply: Reply::Http(status),
            calls,
        }),
        Asked::Refused(refusal) => Ok(Answered {
            reply: Reply::Of(Err(refusal)),
            calls,
        }),
    }
}

fn put(waiting: &mut Waitings, stream: u32, said: Said) -> Result<(), NoMemory>
    ensures { OnOk result (waiting.new ≡ waiting.old ++ words stream (said ∷ [])) }
{
    waiting.push(Waiting { stream, said })
}

/// Puts messages behind what waits.
fn put_messages(waiting: &mut Waitings, stream: u32, messages: Messages) -> Result<(), NoMemory>
    ensures { OnOk result (waiting.new ≡ waiting.old ++ words stream (map Message messages)) }
{
    for octets in messages.into_vec() {
        put(waiting, stream, Said::Message(octets))?;
    }
    Ok(())
}

/// Puts the messages of a call behind what waits, and its end, if it ends with them.
fn put_all(
    waiting: &mut Waitings,
    stream: u32,
    messages: Messages,
    ends: bool,
) -> Result<(), NoMemory>
    ensures { OnOk result (waiting.new ≡ waiting.old ++ words stream (told_all messages ends)) }
{
    put_messages(waiting, stream, messages)?;
    if ends {
        put(waiting, stream, Said::Finish(None))
    } else {
        Ok(())
    }
}

/// Puts what is said by a reply behind what waits.
pub(crate) fn put_reply(waiting: &mut Waitings, stream: u32, reply: Reply) -> Result<(), NoMemory>
    ensures { OnOk result (waiting.new ≡ waiting.old ++ words stream (said_in reply)) }
{
    match reply {
        Reply::Of(Ok(message)) => {
            put(waiting, stream, Said::Message(message))?;
            put(waiting, stream, Said::Finish(None))
        }
        Reply::Of(Err(refusal)) => put(waiting, stream, Said::Finish(Some(refusal))),
        Reply::Say(messages, ends) => put_all(waiting, stream, messages, ends),
        Reply::Http(status) => put(waiting, stream, Said::Status(status)),
        Reply::Nothing => Ok(()),
    }
}
