//! The steps of a feeder. Each says what it makes of all that came before it, from wherever that began.
ghost use Rattle.std.specs.Prelude.{◌≡◌, ◌≢◌, ℕ, List, [], None, Some};
ghost use Rattle.base_kinds.specs.Schema.{SchemaNode};
ghost use Rattle.book_port.specs.Ports.{PortView};
ghost use Rattle.sub_plan.specs.declared.plan.Plan.{Plan as PlanValue};
ghost use Rattle.subscribe_calls.specs.Calls.{CallView, new_call};
ghost use Rattle.stream_worker.specs.Feeds.{Ports, ports_of};
ghost use Rattle.stream_worker.specs.inner.Steps.{Comes, HasFed, LooksAgain};

use crate::job::FeedEnd;
use crate::waiting::Waiting;
use base_kinds::Refusal;
use book_port::BookPort;
use environment::{Clock, Pacer};
use h2_events::{Piece, Ready, Took};
use h2_send::WirePort;
use schema_core::Schema;
use std::alloc::Global;
use sub_plan::Plan;
use subscribe_calls::SubscribeCall;

/// Offers the refusal of a call for which memory was wanting.
fn say_refusal<W: WirePort>(alloc: Global, stream: u32, wire: &mut W) -> Option<FeedEnd>
    ensures { (schema : List SchemaNode) (plan : PlanValue) (from : Ports) (waiting : List (List ℕ))
        (book : PortView)
        → HasFed schema stream plan 1 from None waiting
        (ports_of book (W.connection wire.old) (W.counts wire.old) (W.progress wire.old)
        (W.owns wire.old) (W.given wire.old) (W.authors wire.old))
        → Comes schema stream plan result from None waiting
        (ports_of book (W.connection wire.new) (W.counts wire.new) (W.progress wire.new)
        (W.owns wire.new) (W.given wire.new) (W.authors wire.new)) }
{
    match wire.offer(alloc, stream, Piece::Finish(Some(Refusal::NoMemory))) {
        Took::Taken => Some(FeedEnd::Refused(Refusal::NoMemory)),
        Took::Busy => None,
        Took::Gone => Some(FeedEnd::Gone),
        Took::WriteFault => Some(FeedEnd::Gone),
        Took::NoMemory => Some(FeedEnd::Gone),
    }
}

/// Offers the first of the messages that wait, which goes once it is taken. Where none can be offered, for want of memory or since
/// it is longer than what is sent, the call isn't served any more.
fn say_message<W: WirePort>(
    alloc: Global,
    stream: u32,
    call: &mut Option<SubscribeCall>,
    waiting: &mut Waiting,
    wire: &mut W,
) -> Option<FeedEnd>
    requires { waiting.old ≢ [] }
    ensures { (schema : List SchemaNode) (plan : PlanValue) (from : Ports) (served : CallView)
        (book : PortView) → call.old ≡ Some served
        → HasFed schema stream plan 1 from (Some served) waiting.old
        (ports_of book (W.connection wire.old) (W.counts wire.old) (W.progress wire.old)
        (W.owns wire.old) (W.given wire.old) (W.authors wire.old))
        → Comes schema stream plan result from call.new waiting.new
        (ports_of book (W.connection wire.new) (W.counts wire.new) (W.progress wire.new)
        (W.owns wire.new) (W.given wire.new) (W.authors wire.new)) }
{
    let Some(message) = waiting.first(alloc) else {
        *call = None;
        return say_refusal(alloc, stream, wire);
    };
    match wire.offer(alloc, stream, message) {
        Took::Taken => {
            waiting.take_first();
            None
        }
        Took::Busy => None,
        Took::Gone => Some(FeedEnd::Gone),
        Took::WriteFault => Some(FeedEnd::Gone),
        Took::NoMemory => Some(FeedEnd::Gone),
    }
}

/// Takes one turn of the call at a reading of the clock; what it says waits then. It pauses where nothing is said, and where the
/// disk failed, and then the turn is tried again later. A call for which memory is wanting isn't served any more.
fn take_turn<P: BookPort, C: Clock, Q: Pacer>(
    alloc: Global,
    schema: &Schema,
    call: &mut Option<SubscribeCall>,
    waiting: &mut Waiting,
    book: &mut P,
    clock: &mut C,
    pacer: &mut Q,
)
    requires { waiting.old ≡ [] }
    ensures { (served : CallView) → call.old ≡ Some served
        → LooksAgain schema.now served (P.port book.old) call.new waiting.new (P.port book.new) }
{
    let Some(serving) = call else {
        return;
    };
    let now = clock.now();
    match serving.turn(alloc, schema, now, book) {
        Ok(messages) => {
            if messages.is_empty() {
                pacer.pause();
            }
            *waiting = Waiting::of(messages);
        }
        Err(Refusal::DiskFault) => pacer.pause(),
        Err(_) => *call = None,
    }
}

/// A call that is served, or for which memory was wanting, and all that it is served with.
#[derive(Drop)]
pub(crate) struct Feeder<P, W, C, Q> {
    pub call: Option<SubscribeCall>,
    pub waiting: Waiting,
    pub book: P,
    pub wire: W,
    pub clock: C,
    pub pacer: Q,
}

/// The call with this plan, if memory isn't wanting for it.
pub(crate) fn call_of(alloc: Global, plan: Plan) -> Option<SubscribeCall>
    ensures { (schema : List SchemaNode) (stream : ℕ) (from : Ports)
        → HasFed schema stream plan 0 from result [] from }
{
    match SubscribeCall::of(alloc, plan) {
        Ok(call) => Some(call),
        Err(_) => None,
    }
}

impl<P: BookPort, W: WirePort, C: Clock, Q: Pacer> Feeder<P, W, C, Q> {
    /// What is done while the stream is free.
    fn use_free(&mut self, alloc: Global, schema: &Schema, stream: u32) -> Option<FeedEnd>
        ensures { (plan : PlanValue) (from : Ports)
            → HasFed schema.now stream plan 1 from self.old.call self.old.waiting
            (ports_of (P.port self.old.book) (W.connection self.old.wire) (W.counts self.old.wire)
            (W.progress self.old.wire) (W.owns self.old.wire) (W.given self.old.wire)
            (W.authors self.old.wire))
            → Comes schema.now stream plan result from self.new.call self.new.waiting
            (ports_of (P.port self.new.book) (W.connection self.new.wire) (W.counts self.new.wire)
            (W.progress self.new.wire) (W.owns self.new.wire) (W.given self.new.wire)
            (W.authors self.new.wire)) }
    {
        match &self.call {
            None => say_refusal(alloc, stream, &mut self.wire),
            Some(_) => {
                if self.waiting.is_empty() {
                    take_turn(
                        alloc,
                        schema,
                        &mut self.call,
                        &mut self.waiting,
                        &mut self.book,
                        &mut self.clock,
                        &mut self.pacer,
                    );
                    None
                } else {
                    say_message(
                        alloc,
                        stream,
                        &mut self.call,
                        &mut self.waiting,
                        &mut self.wire,
                    )
                }
            }
        }
    }

    /// Asks how the stream stands, pauses where octets wait on it, and uses it where it is free.
    pub fn step(&mut self, alloc: Global, schema: &Schema, stream: u32) -> Option<FeedEnd>
        ensures { (plan : PlanValue) (from : Ports)
            → HasFed schema.now stream plan 0 from self.old.call self.old.waiting
            (ports_of (P.port self.old.book) (W.connection self.old.wire) (W.counts self.old.wire)
            (W.progress self.old.wire) (W.owns self.old.wire) (W.given self.old.wire)
            (W.authors self.old.wire))
            → Comes schema.now stream plan result from self.new.call self.new.waiting
            (ports_of (P.port self.new.book) (W.connection self.new.wire) (W.counts self.new.wire)
            (W.progress self.new.wire) (W.owns self.new.wire) (W.given self.new.wire)
            (W.authors self.new.wire)) }
    {
        match self.wire.ready(stream) {
            Ready::Free => self.use_free(alloc, schema, stream),
            Ready::Busy => {
                self.pacer.pause();
                None
            }
            Ready::Gone => Some(FeedEnd::Gone),
        }
    }
}
