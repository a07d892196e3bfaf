ghost use Rattle.std.specs.Prelude.{◌≡◌, [], ◌∷◌, ◌++◌, List, OnOk, OnErr, IfOk};
ghost use Rattle.h2_events.specs.declared.event.RecvEvent.{RecvEvent as Event};
ghost use Rattle.grpc_requests.specs.Calls.{stream_of};
ghost use Rattle.grpc_requests.specs.Requests.{requests, requests_of, requests_with};
ghost use Rattle.grpc_requests.specs.inner.Tables.{KeepsAll};

use crate::open_call::{OpenCall, Step, call_after};
use crate::request::{Asked, Request, Requests};
use base_lists::{NoMemory, Remembered, Seq};
use h2_events::RecvEvent;
use std::alloc::Global;
use std::collections::BTreeMap;
use std::marker::Model;

/// The calls that are open on a connection. Contracts see the events that were heard, of which nothing else is kept than
/// the calls: of each, the message that isn't whole yet and two messages at most.
#[derive(Drop)]
pub struct CallTable {
    calls: BTreeMap<u32, OpenCall>,
    heard: Remembered<RecvEvent>,
}

impl Model for CallTable {
    ghost use Rattle.std.specs.Prelude.{List};
    ghost use Rattle.h2_events.specs.declared.event.RecvEvent.{RecvEvent as EventValue};
    ghost use Rattle.grpc_requests.specs.inner.Tables.{KeepsAll as KeepsEach};

    ghost Value = { List EventValue };

    ghost view = { λ t. t.heard };

    ghost invariant = { λ t. KeepsEach t.heard t.calls };
}

impl CallTable {
    /// At the beginning of a connection. Takes no memory.
    pub fn make(alloc: Global) -> CallTable
        ensures { result ≡ [] }
    {
        CallTable {
            calls: BTreeMap::new(alloc),
            heard: Remembered::nothing(),
        }
    }

    /// Hears the next event, and answers the requests that come with it. Where memory ran out all calls are lost.
    pub fn hear(&mut self, alloc: Global, event: &RecvEvent) -> Result<Requests, NoMemory>
        ensures heard { OnOk result (self.new ≡ self.old ++ event.now ∷ []) }
        ensures request { IfOk result (λ more.
            requests (self.old ++ event.now ∷ []) ≡ requests self.old ++ more) }
        ensures lost { OnErr result (self.new ≡ []) }
    {
        match hear_in(alloc, &mut self.calls, event) {
            Ok(more) => {
                self.heard.remember(event);
                Ok(more)
            }
            Err(fault) => {
                self.calls = BTreeMap::new(alloc);
                self.heard = Remembered::nothing();
                Err(fault)
            }
        }
    }
}

/// What is asked on a stream.
fn requests_of(alloc: Global, stream: u32, asked: Seq<Asked>) -> Result<Requests, NoMemory>
    ensures { IfOk result (λ more. more ≡ requests_of stream asked) }
{
    let mut more = Requests::empty(alloc);
    for asked in asked.into_vec() {
        more.push(Request { stream, asked })?;
    }
    Ok(more)
}

fn hear_in(
    alloc: Global,
    calls: &mut BTreeMap<u32, OpenCall>,
    event: &RecvEvent,
) -> Result<Requests, NoMemory>
    ensures keeps { (heard : List Event) → KeepsAll heard calls.old
        → OnOk result (KeepsAll (heard ++ event.now ∷ []) calls.new) }
    ensures request { (heard : List Event) → KeepsAll heard calls.old
        → IfOk result (λ more. more ≡ requests_with heard event.now) }
{
    let Some(stream) = stream_of(event) else {
        return Ok(Requests::empty(alloc));
    };
    let call = calls.remove(&stream);
    let Step { call, asked } = call_after(alloc, call, event)?;
    match call {
        None => {}
        Some(call) => {
            calls.insert(stream, call)?;
        }
    }
    requests_of(alloc, stream, asked)
}

/// The stream of an event of a call.
fn stream_of(event: &RecvEvent) -> Option<u32>
    ensures { result ≡ stream_of event.now }
{
    match event {
        RecvEvent::Call(stream, _, _) => Some(*stream),
        RecvEvent::TooLong(stream) => Some(*stream),
        RecvEvent::Piece(stream, _, _, _) => Some(*stream),
        RecvEvent::Trailers(stream) => Some(*stream),
        RecvEvent::Reset(stream) => Some(*stream),
        RecvEvent::StreamFault(stream, _) => Some(*stream),
        RecvEvent::Settings(_, _) => None,
        RecvEvent::SettingsAck => None,
        RecvEvent::Ping(_) => None,
        RecvEvent::Window(_, _) => None,
        RecvEvent::GoAway => None,
    }
}
