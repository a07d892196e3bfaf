ghost use Rattle.std.specs.Prelude.{◌≡◌, ℕ, List, [], ◌∷◌, ◌++◌, ◌||◌, length, drop, take, IfOk, Some, None, Option, option_map};
ghost use Rattle.grpc_requests.specs.Calls.{Call, with_piece, asks_by, asks_with, asks_over, asks_open, further, has_message, one_message, subscribe_end, unary_end};
ghost use Rattle.grpc_requests.specs.Requests.{still_open};
ghost use Rattle.grpc_requests.specs.inner.Tables.{Keeps, KeepsCall, IsStep, kept_messages};

use crate::request::{Asked, Later};
use base_kinds::Refusal;
use base_lists::{Bytes, NoMemory, Seq};
use grpc_core::{CallHead, Messages, Method, SplitFault, Splitter, head_of};
use h2_events::RecvEvent;
use hpack_block::Headers;
use std::alloc::Global;

/// A call of which the peer may still send something that matters.
#[derive(Drop)]
pub(crate) struct OpenCall {
    pub(crate) method: Method,
    pub(crate) splitter: Splitter,
    /// Of a unary call its messages so far, two of them at most.
    pub(crate) messages: Messages,
    /// Whether it had a message.
    pub(crate) begun: bool,
}

/// What becomes of a call with an event, and what it asks then.
#[derive(Drop)]
pub(crate) struct Step {
    pub(crate) call: Option<OpenCall>,
    pub(crate) asked: Seq<Asked>,
}

/// Nothing is asked.
fn silent(alloc: Global, call: Option<OpenCall>) -> Step
    ensures call { result.call ≡ call }
    ensures asked { result.asked ≡ [] }
{
    Step {
        call,
        asked: Seq::empty(alloc),
    }
}

/// This is asked, and then nothing more.
fn asks_once(alloc: Global, asked: Asked) -> Result<Step, NoMemory>
    ensures { IfOk result (λ step. (step.call ≡ None) × (step.asked ≡ asked ∷ [])) }
{
    let mut all = Seq::empty(alloc);
    all.push(asked)?;
    Ok(Step {
        call: None,
        asked: all,
    })
}

/// The call of a stream after an event on it.
pub(crate) fn call_after(
    alloc: Global,
    call: Option<OpenCall>,
    event: &RecvEvent,
) -> Result<Step, NoMemory>
    ensures { (before : Option Call) → KeepsCall call before
        → IfOk result (λ step. IsStep step event.now before) }
{
    match event {
        RecvEvent::Call(_, headers, ended) => opened(alloc, headers, *ended),
        RecvEvent::TooLong(_) => asks_once(alloc, Asked::Refused(Refusal::TooLarge)),
        RecvEvent::Piece(_, octets, _, ended) => continued(alloc, call, octets.items(), *ended),
        RecvEvent::Trailers(_) => continued(alloc, call, &[], true),
        RecvEvent::Reset(_) => Ok(silent(alloc, None)),
        RecvEvent::StreamFault(_, _) => Ok(silent(alloc, None)),
        RecvEvent::Settings(_, _) => Ok(silent(alloc, call)),
        RecvEvent::SettingsAck => Ok(silent(alloc, call)),
        RecvEvent::Ping(_) => Ok(silent(alloc, call)),
        RecvEvent::Window(_, _) => Ok(silent(alloc, call)),
        RecvEvent::GoAway => Ok(silent(alloc, call)),
    }
}

/// The call that headers open.
fn opened(alloc: Global, headers: &Headers, ended: bool) -> Result<Step, NoMemory>
    ensures kept { IfOk result (λ step. KeepsCall step.call (still_open
        (Some (record { headers = Some headers.now; octets = []; ended = ended })))) }
    ensures asked { IfOk result (λ step. step.asked ≡ asks_with (Some headers.now) [] ended) }
{
    match head_of(headers) {
        CallHead::Call(method) => {
            if ended {
                over(alloc, method, false, Messages::empty(alloc), 0, None)
            } else {
                Ok(silent(
                    alloc,
                    Some(OpenCall {
                        method,
                        splitter: Splitter::make(alloc),
                        messages: Messages::empty(alloc),
                        begun: false,
                    }),
                ))
            }
        }
        CallHead::Http(status) => asks_once(alloc, Asked::Http(status)),
        CallHead::Refused(refusal) => asks_once(alloc, Asked::Refused(refusal)),
    }
}

fn continued(
    alloc: Global,
    call: Option<OpenCall>,
    octets: &[u8],
    ended: bool,
) -> Result<Step, NoMemory>
    ensures { (before : Option Call) → KeepsCall call before → IfOk result (λ step.
        KeepsCall step.call (still_open (option_map (with_piece octets.now ended) before))
        × (step.asked ≡ drop (length (asks_by before))
        (asks_by (option_map (with_piece octets.now ended) before)))) }
{
    match call {
        None => Ok(silent(alloc, None)),
        Some(call) => call.with_piece(alloc, octets, ended),
    }
}

impl OpenCall {
    /// The call with the next piece of its octets, and whether the peer ends it with them.
    fn with_piece(self, alloc: Global, octets: &[u8], ended: bool) -> Result<Step, NoMemory>
        ensures { (call : Call) → Keeps self call → IfOk result (λ step.
            KeepsCall step.call (still_open (Some (with_piece octets.now ended call)))
            × (step.asked ≡ drop (length (asks_by (Some call)))
            (asks_by (Some (with_piece octets.now ended call))))) }
    {
        let OpenCall {
            method,
            mut splitter,
            mut messages,
            begun,
        } = self;
        match splitter.feed(alloc, octets, &mut messages) {
            Err(SplitFault::NoMemory) => Err(NoMemory),
            Err(SplitFault::Compressed) => {
                let fault = Some(Refusal::Compressed);
                over(alloc, method, begun, messages, 0, fault)
            }
            Err(SplitFault::TooLarge) => {
                let fault = Some(Refusal::TooLarge);
                over(alloc, method, begun, messages, 0, fault)
            }
            Ok(()) => {
                if ended {
                    over(alloc, method, begun, messages, splitter.held(), None)
                } else {
                    going_on(alloc, method, begun, messages, splitter)
                }
            }
        }
    }
}

/// The first two messages, where there are more.
fn first_two(messages: Messages) -> Messages
    ensures { result ≡ take 2 messages }
{
    let mut messages = messages.into_vec();
    messages.truncate(2);
    Messages::from_vec(messages)
}

/// What a unary call asks for that the peer has ended, with so many octets behind its messages.
fn one_message(method: Method, messages: Messages, held: usize) -> Asked
    ensures { (rest : List ℕ) → length rest ≡ held → result ≡ one_message method messages rest }
{
    let mut messages = messages.into_vec();
    match messages.pop() {
        Some(message) if held == 0 && messages.is_empty() => Asked::Call(method, message),
        _ => Asked::Refused(Refusal::BadMessage),
    }
}

/// What a unary call asks for that is over, for a fault where there is one.
fn unary_end(method: Method, messages: Messages, held: usize, fault: Option<Refusal>) -> Asked
    ensures { (rest : List ℕ) → length rest ≡ held
        → result ≡ unary_end method messages rest fault }
{
    match fault {
        Some(refusal) => Asked::Refused(refusal),
        None => one_message(method, messages, held),
    }
}

/// What a Subscribe call asks with further messages: the first one begins it, unless it has begun.
fn further(alloc: Global, begun: bool, messages: Messages) -> Result<Seq<Asked>, NoMemory>
    ensures { IfOk result (λ asked. asked ≡ further begun messages) }
{
    let mut asked = Seq::empty(alloc);
    let mut begun = begun;
    for message in messages.into_vec() {
        if begun {
            asked.push(Asked::Later(Later::Message(message)))?;
        } else {
            asked.push(Asked::Subscribe(message))?;
        }
        begun = true;
    }
    Ok(asked)
}

/// What the end of a Subscribe call asks, for a fault where there is one, behind the beginning of the call or before it.
fn subscribe_end(begun: bool, fault: Option<Refusal>) -> Asked
    ensures { result ≡ subscribe_end begun fault }
{
    match fault {
        Some(refusal) => {
            if begun {
                Asked::Later(Later::Fault(refusal))
            } else {
                Asked::Refused(refusal)
            }
        }
        None => {
            if begun {
                Asked::Later(Later::End)
            } else {
                Asked::Refused(Refusal::BadSubscribe)
            }
        }
    }
}

/// A Subscribe call that is over with these messages.
fn subscribe_over(
    alloc: Global,
    begun: bool,
    messages: Messages,
    fault: Option<Refusal>,
) -> Result<Step, NoMemory>
    ensures { IfOk result (λ step. (step.call ≡ None)
        × (step.asked ≡ further begun messages
        ++ subscribe_end (begun || has_message messages) fault ∷ [])) }
{
    let begins = begun || !messages.is_empty();
    let mut asked = further(alloc, begun, messages)?;
    asked.push(subscribe_end(begins, fault))?;
    Ok(Step { call: None, asked })
}

/// A call that is over with these messages, and so many octets behind them.
fn over(
    alloc: Global,
    method: Method,
    begun: bool,
    messages: Messages,
    held: usize,
    fault: Option<Refusal>,
) -> Result<Step, NoMemory>
    ensures { (rest : List ℕ) → length rest ≡ held → IfOk result (λ step. (step.call ≡ None)
        × (step.asked ≡ asks_over method begun messages rest fault)) }
{
    match method {
        Method::Capabilities => asks_once(alloc, unary_end(method, messages, held, fault)),
        Method::Get => asks_once(alloc, unary_end(method, messages, held, fault)),
        Method::Set => asks_once(alloc, unary_end(method, messages, held, fault)),
        Method::Subscribe => subscribe_over(alloc, begun, messages, fault),
    }
}

/// A call that goes on.
fn going_on(
    alloc: Global,
    method: Method,
    begun: bool,
    messages: Messages,
    splitter: Splitter,
) -> Result<Step, NoMemory>
    ensures { IfOk result (λ step. (step.asked ≡ asks_open method begun messages)
        × (step.call ≡ Some (record {
          method = method;
          splitter = splitter;
          messages = kept_messages method messages;
          begun = begun || has_message messages;
        }))) }
{
    match method {
        Method::Capabilities => Ok(unary_going_on(alloc, method, begun, messages, splitter)),
        Method::Get => Ok(unary_going_on(alloc, method, begun, messages, splitter)),
        Method::Set => Ok(unary_going_on(alloc, method, begun, messages, splitter)),
        Method::Subscribe => {
            let begins = begun || !messages.is_empty();
            let asked = further(alloc, begun, messages)?;
            let call = OpenCall {
                method,
                splitter,
                messages: Messages::empty(alloc),
                begun: begins,
            };
            Ok(Step {
                call: Some(call),
                asked,
            })
        }
    }
}

fn unary_going_on(
    alloc: Global,
    method: Method,
    begun: bool,
    messages: Messages,
    splitter: Splitter,
) -> Step
    ensures { (result.asked ≡ []) × (result.call ≡ Some (record {
      method = method;
      splitter = splitter;
      messages = take 2 messages;
      begun = begun || has_message messages;
    })) }
{
    let begun = begun || !messages.is_empty();
    let messages = first_two(messages);
    silent(
        alloc,
        Some(OpenCall {
            method,
            splitter,
            messages,
            begun,
        }),
    )
}
