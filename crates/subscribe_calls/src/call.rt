ghost use Rattle.std.specs.Prelude.{◌≡◌, Some, IfOk, OnOk};
ghost use Rattle.base_kinds.specs.Rising.{IsRising};
ghost use Rattle.stream_laws.specs.Streams.{stream_from, turn_input_of, stream_after};
ghost use Rattle.stream_laws.specs.Follows.{started_messages, messages_at};
ghost use Rattle.subscribe_calls.specs.Calls.{new_call, next_messages, next_stream, replies_octets};
ghost use Rattle.subscribe_calls.specs.Turns.{TurnsOnce, TurnsAnew};

use crate::replies::{Messages, note_replies, put_sync};
use base_kinds::{Copied, NoMemory, Paths, Refusal, Seq, View};
use book_port::BookPort;
use schema_core::Schema;
use std::alloc::Global;
use std::marker::Model;
use stream_core::Stream;
use sub_plan::{Line, Lines, Plan, patterns};

/// A Subscribe call that was accepted. Contracts see its plan, and its stream once the first turn was made.
#[derive(Drop)]
pub struct SubscribeCall {
    plan: Plan,
    patterns: Paths,
    stream: Option<Stream>,
}

impl Model for SubscribeCall {
    ghost use Rattle.std.specs.Coded.{codes};
    ghost use Rattle.std.specs.Prelude.{◌≡◌};
    ghost use Rattle.base_kinds.specs.contracts.value.Value as value;
    ghost use Rattle.sub_plan.specs.Groups.{patterns_of};
    ghost use Rattle.subscribe_calls.specs.Calls.{CallView};

    ghost Value = { CallView };

    ghost coded = { Prim.hlevel (codes, value.the_row.coded) };

    ghost view = { λ c. record { plan = c.plan; stream = c.stream } };

    ghost invariant = { λ c. c.patterns ≡ patterns_of c.plan.lines };
}

fn copy_of_lines(alloc: Global, lines: &[Line]) -> Result<Lines, NoMemory>
    ensures { IfOk result (λ copy. copy ≡ lines.now) }
{
    let mut copy = Seq::empty(alloc);
    for line in lines {
        copy.push(Line {
            pattern: line.pattern.copy(alloc)?,
            group: line.group,
        })?;
    }
    Ok(copy)
}

fn copy_of(alloc: Global, plan: &Plan) -> Result<Plan, NoMemory>
    ensures { IfOk result (λ copy. copy ≡ plan.now) }
{
    Ok(Plan {
        lines: copy_of_lines(alloc, plan.lines.items())?,
        groups: Seq::of(alloc, plan.groups.items())?,
        mode: plan.mode,
        updates_only: plan.updates_only,
        encoding: plan.encoding,
        target: plan.target.copy(alloc)?,
    })
}

/// Begins the plan's stream with what its lines show, and gives what the first turn says.
fn begin(
    alloc: Global,
    schema: &Schema,
    plan: &Plan,
    now: u64,
    view: View,
) -> Result<(Stream, Messages), NoMemory>
    requires { IsRising view.rows }
    ensures stream { IfOk result (λ begun. begun.0 ≡ stream_from plan.now now view) }
    ensures said { IfOk result (λ begun. begun.1 ≡
        replies_octets schema.now plan.now (started_messages plan.now view)) }
{
    let copy = copy_of(alloc, plan)?;
    let (stream, note) = Stream::start(alloc, copy, now, view)?;
    let mut messages = note_replies(alloc, schema, plan, &note)?;
    put_sync(alloc, &mut messages)?;
    Ok((stream, messages))
}

/// What the first turn of a stream of the plan says.
fn say_anew(
    alloc: Global,
    schema: &Schema,
    plan: &Plan,
    now: u64,
    view: View,
) -> Result<Messages, NoMemory>
    requires { IsRising view.rows }
    ensures { IfOk result (λ messages. messages ≡
        replies_octets schema.now plan.now (started_messages plan.now view)) }
{
    let (_, messages) = begin(alloc, schema, plan, now, view)?;
    Ok(messages)
}

/// A later turn of a stream of the plan, and what it says.
fn go_on(
    alloc: Global,
    schema: &Schema,
    plan: &Plan,
    now: u64,
    view: View,
    stream: &mut Stream,
) -> Result<Messages, NoMemory>
    requires { IsRising view.rows }
    ensures stream { OnOk result (stream.new ≡ stream_after stream.old now view) }
    ensures said { IfOk result (λ messages. messages ≡
        replies_octets schema.now plan.now (messages_at stream.old now view)) }
{
    let note = stream.turn(alloc, now, view)?;
    note_replies(alloc, schema, plan, &note)
}

/// A turn of the call, and what it says.
fn say(
    alloc: Global,
    schema: &Schema,
    plan: &Plan,
    now: u64,
    view: View,
    stream: &mut Option<Stream>,
) -> Result<Messages, NoMemory>
    requires { IsRising view.rows }
    ensures stream { OnOk result
        (stream.new ≡ Some (next_stream plan.now stream.old now view)) }
    ensures said { IfOk result (λ messages. messages ≡
        replies_octets schema.now plan.now (next_messages plan.now stream.old now view)) }
{
    match stream {
        Some(stream) => go_on(alloc, schema, plan, now, view, stream),
        None => {
            let (begun, messages) = begin(alloc, schema, plan, now, view)?;
            *stream = Some(begun);
            Ok(messages)
        }
    }
}

impl SubscribeCall {
    /// A call with this plan, before its first turn.
    pub fn of(alloc: Global, plan: Plan) -> Result<SubscribeCall, NoMemory>
        ensures { IfOk result (λ call. call ≡ new_call plan) }
    {
        let patterns = patterns(alloc, &plan)?;
        Ok(SubscribeCall {
            plan,
            patterns,
            stream: None,
        })
    }

    /// The plan.
    pub fn plan(&self) -> &Plan
        ensures { result.now ≡ self.now.plan }
    {
        &self.plan
    }

    /// One turn of a call of mode STREAM, or the only one of a ONCE, at this reading of the clock in nanoseconds since 1970: a look,
    /// and the messages that come of it. The first turn says the state, unless updates alone are asked for, and a sync. `DiskFault`
    /// leaves the call as it was, to be tried again; behind `NoMemory` it isn't served any more. There is no other refusal.
    #[tactic(auto, using(crate::proofs::Turning::view_rises, crate::proofs::Turning::refused, crate::proofs::Turning::said, crate::proofs::Turning::starved))]
    pub fn turn<P: BookPort>(
        &mut self,
        alloc: Global,
        schema: &Schema,
        now: u64,
        port: &mut P,
    ) -> Result<Messages, Refusal>
        ensures { TurnsOnce schema.now now self.old (P.port port.old) result self.new
            (P.port port.new) }
    {
        let view = match port.look(alloc, now, &self.patterns) {
            Ok(view) => view,
            Err(refusal) => return Err(refusal),
        };
        match say(alloc, schema, &self.plan, now, view, &mut self.stream) {
            Ok(messages) => Ok(messages),
            Err(_) => Err(Refusal::NoMemory),
        }
    }

    /// One Poll of a call of mode POLL: a first turn, which leaves the call as it is.
    #[tactic(auto, using(crate::proofs::Turning::view_rises, crate::proofs::Turning::refused_anew, crate::proofs::Turning::said_anew, crate::proofs::Turning::starved_anew))]
    pub fn poll<P: BookPort>(
        &self,
        alloc: Global,
        schema: &Schema,
        now: u64,
        port: &mut P,
    ) -> Result<Messages, Refusal>
        ensures { TurnsAnew schema.now now self.now.plan (P.port port.old) result
            (P.port port.new) }
    {
        let view = match port.look(alloc, now, &self.patterns) {
            Ok(view) => view,
            Err(refusal) => return Err(refusal),
        };
        match say_anew(alloc, schema, &self.plan, now, view) {
            Ok(messages) => Ok(messages),
            Err(_) => Err(Refusal::NoMemory),
        }
    }
}
