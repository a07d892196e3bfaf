// The lines of subscriptions.
ghost use Rattle.std.specs.Prelude.{◌≡◌, ◌<◌, IfOk, OnOk, Ok, Some};
ghost use Rattle.base_kinds.specs.Rising.{IsRising};
ghost use Rattle.base_kinds.specs.declared.request.ListMode.TheVariants.{Stream as Streams, Poll as Polls};
ghost use Rattle.sub_plan.specs.Groups.{patterns_of};
ghost use Rattle.stream_laws.specs.Streams.{begins_with};
ghost use Rattle.script_run.specs.OpenCalls.{call_named};
ghost use Rattle.script_run.specs.Subscribing.{step_with, end_step, open_by, open_look, once_reply, open_step, planned_look, poll_look, poll_step, sub_ask, turn_look, turn_step};
ghost use Rattle.script_run.specs.inner.ScriptBooks.{IsLeft, MayStand, left_by_look, looked_at};
ghost use Rattle.script_run.specs.inner.StreamCalls.{IsStreamOf};

use crate::book::{ScriptBook, look};
use crate::calls::{NamedCall, OpenCall, call_named, put_call, take_call};
use crate::open_call::{OpenPoll, OpenStream};
use crate::pending::empty_text;
use base_kinds::{ListMode, NoMemory, Note, Path, Refusal, Seq, SubLines, Text, View};
use gnmi_kinds::{Encoding, GnmiPath, SubAsk};
use std::alloc::Global;
use stream_core::Stream;
use sub_plan::{Plan, patterns, plan_of};

/// What a line of subscriptions is answered.
#[derive(Drop)]
pub enum CallReply {
    /// The name is that of an open call.
    Taken,
    /// No open call has the name.
    NoStream,
    Opened,
    Ended,
    Refused(Refusal),
    /// The first notification, unless updates alone are asked for, and a sync.
    Began(Option<Note>),
    /// Those of a call of mode ONCE, which ends with them.
    Once(Option<Note>),
    /// What is due at a turn.
    Turned(Option<Note>),
}

/// What a line opens.
#[derive(Drop)]
pub struct Opening {
    pub author: u32,
    pub name: Text,
    pub mode: ListMode,
    pub only: bool,
}

fn ask_of(alloc: Global, mode: ListMode, only: bool, subs: SubLines) -> Result<SubAsk, NoMemory>
    ensures { IfOk result (λ ask. ask ≡ sub_ask mode only subs) }
{
    Ok(SubAsk {
        prefix: GnmiPath {
            path: Path::empty(alloc),
            origin: empty_text(alloc)?,
            target: empty_text(alloc)?,
            old_element: false,
        },
        lines: subs,
        mode,
        updates_only: only,
        encoding: Encoding::Json,
        unsupported: false,
    })
}

/// The first notification of what a look has shown, unless updates alone are asked for.
fn first_note(alloc: Global, only: bool, view: View) -> Option<Note>
    ensures { result ≡ begins_with only view }
{
    if only {
        return None;
    }
    Some(Note {
        stamp: view.stamp,
        deletes: Seq::empty(alloc),
        updates: view.rows,
    })
}

/// Opens a call of mode STREAM, whose first notification is made.
fn open_stream(
    alloc: Global,
    book: &mut ScriptBook,
    calls: &mut Vec<NamedCall>,
    reading: u64,
    author: u32,
    name: Text,
    plan: Plan,
) -> Result<CallReply, NoMemory>
    requires author { 0 < author }
    requires may_stand { MayStand book.old }
    ensures may_stand { MayStand book.new }
    ensures left { OnOk result
        (IsLeft (left_by_look (Some (patterns_of plan.lines)) reading book.old)
        book.old book.new) }
    ensures step { IfOk result (λ reply. step_with reply calls.new.items
        ≡ open_by author name Streams plan reading
        (looked_at (Some (patterns_of plan.lines)) reading book.old) calls.old.items) }
{
    let patterns = match patterns(alloc, &plan) {
        Ok(patterns) => patterns,
        Err(NoMemory) => {
            drop(plan);
            drop(name);
            return Err(NoMemory);
        }
    };
    match look(alloc, book, reading, author, &patterns) {
        Ok(Ok(view)) => match Stream::start(alloc, plan, reading, view) {
            Ok((stream, note)) => {
                let call = OpenStream::of(author, patterns, stream);
                match put_call(calls, name, OpenCall::Stream(call)) {
                    Ok(()) => Ok(CallReply::Began(note)),
                    Err(NoMemory) => {
                        drop(note);
                        Err(NoMemory)
                    }
                }
            }
            Err(NoMemory) => {
                drop(patterns);
                drop(name);
                Err(NoMemory)
            }
        },
        Ok(Err(refusal)) => {
            drop(patterns);
            drop(plan);
            drop(name);
            Ok(CallReply::Refused(refusal))
        }
        Err(NoMemory) => {
            drop(patterns);
            drop(plan);
            drop(name);
            Err(NoMemory)
        }
    }
}

/// Makes a call of mode ONCE.
fn look_once(
    alloc: Global,
    book: &mut ScriptBook,
    reading: u64,
    author: u32,
    plan: Plan,
) -> Result<CallReply, NoMemory>
    requires author { 0 < author }
    requires may_stand { MayStand book.old }
    ensures may_stand { MayStand book.new }
    ensures left { OnOk result
        (IsLeft (left_by_look (Some (patterns_of plan.lines)) reading book.old)
        book.old book.new) }
    ensures reply { IfOk result (λ reply. reply
        ≡ once_reply plan (looked_at (Some (patterns_of plan.lines)) reading book.old)) }
{
    let only = plan.updates_only;
    let patterns = patterns(alloc, &plan);
    drop(plan);
    let patterns = patterns?;
    let seen = look(alloc, book, reading, author, &patterns);
    drop(patterns);
    match seen? {
        Ok(view) => Ok(CallReply::Once(first_note(alloc, only, view))),
        Err(refusal) => Ok(CallReply::Refused(refusal)),
    }
}

/// Opens a call whose list is accepted.
fn open_accepted(
    alloc: Global,
    book: &mut ScriptBook,
    calls: &mut Vec<NamedCall>,
    reading: u64,
    asked: Opening,
    plan: Plan,
) -> Result<CallReply, NoMemory>
    requires author { 0 < asked.author }
    requires may_stand { MayStand book.old }
    ensures may_stand { MayStand book.new }
    ensures left { OnOk result
        (IsLeft (left_by_look (planned_look asked.mode (Ok plan)) reading book.old)
        book.old book.new) }
    ensures step { IfOk result (λ reply. step_with reply calls.new.items
        ≡ open_by asked.author asked.name asked.mode plan reading
        (looked_at (planned_look asked.mode (Ok plan)) reading book.old) calls.old.items) }
{
    let Opening {
        author,
        name,
        mode,
        ..
    } = asked;
    match mode {
        ListMode::Poll => {
            let call = OpenPoll::of(alloc, author, plan)?;
            put_call(calls, name, OpenCall::Poll(call))?;
            Ok(CallReply::Opened)
        }
        ListMode::Stream => open_stream(alloc, book, calls, reading, author, name, plan),
        ListMode::Once | ListMode::Other => look_once(alloc, book, reading, author, plan),
    }
}

/// Opens a call of this name with these subscriptions.
pub fn open(
    alloc: Global,
    book: &mut ScriptBook,
    calls: &mut Vec<NamedCall>,
    reading: u64,
    asked: Opening,
    subs: SubLines,
) -> Result<CallReply, NoMemory>
    requires author { 0 < asked.author }
    requires may_stand { MayStand book.old }
    ensures may_stand { MayStand book.new }
    ensures left { OnOk result (IsLeft
        (left_by_look (open_look asked.name asked.mode asked.only subs calls.old.items) reading
        book.old)
        book.old book.new) }
    ensures step { IfOk result (λ reply. step_with reply calls.new.items
        ≡ open_step asked.author asked.name asked.mode asked.only subs reading
        (looked_at (open_look asked.name asked.mode asked.only subs calls.old.items) reading
        book.old)
        calls.old.items) }
{
    if call_named(calls, &asked.name).is_some() {
        drop(asked);
        drop(subs);
        return Ok(CallReply::Taken);
    }
    let ask = ask_of(alloc, asked.mode, asked.only, subs)?;
    let planned = plan_of(alloc, &ask);
    drop(ask);
    match planned {
        Ok(plan) => open_accepted(alloc, book, calls, reading, asked, plan),
        Err(refusal) => {
            drop(asked);
            if refusal.is_memory() {
                return Err(NoMemory);
            }
            Ok(CallReply::Refused(refusal))
        }
    }
}

/// Makes a turn of the stream of this name with what a look has shown.
fn turn_stream(
    alloc: Global,
    calls: &mut Vec<NamedCall>,
    reading: u64,
    name: Text,
    view: View,
) -> Result<CallReply, NoMemory>
    requires rows { IsRising view.rows }
    requires stream { IsStreamOf (call_named name calls.old.items) }
    ensures { IfOk result (λ reply. step_with reply calls.new.items
        ≡ turn_step name (call_named name calls.old.items) reading (Ok view) calls.old.items) }
{
    match take_call(calls, &name) {
        Some(OpenCall::Stream(call)) => {
            let mut call = call;
            let note = call.turn(alloc, reading, view)?;
            put_call(calls, name, OpenCall::Stream(call))?;
            Ok(CallReply::Turned(note))
        }
        Some(OpenCall::Poll(_)) => unreachable!(),
        None => unreachable!(),
    }
}

/// Makes a turn of the stream of this name.
pub fn turn(
    alloc: Global,
    book: &mut ScriptBook,
    calls: &mut Vec<NamedCall>,
    reading: u64,
    name: Text,
) -> Result<CallReply, NoMemory>
    requires may_stand { MayStand book.old }
    ensures may_stand { MayStand book.new }
    ensures left { OnOk result (IsLeft
        (left_by_look (turn_look (call_named name calls.old.items)) reading book.old)
        book.old book.new) }
    ensures step { IfOk result (λ reply. step_with reply calls.new.items
        ≡ turn_step name (call_named name calls.old.items) reading
        (looked_at (turn_look (call_named name calls.old.items)) reading book.old)
        calls.old.items) }
{
    match call_named(calls, &name) {
        None => Ok(CallReply::NoStream),
        Some(OpenCall::Poll(_)) => Ok(CallReply::Refused(Refusal::BadSubscribe)),
        Some(OpenCall::Stream(call)) => {
            match look(alloc, book, reading, call.author(), call.patterns())? {
                Ok(view) => turn_stream(alloc, calls, reading, name, view),
                Err(refusal) => Ok(CallReply::Refused(refusal)),
            }
        }
    }
}

/// Polls the call of this name. A stream can't be polled, and ends.
pub fn poll(
    alloc: Global,
    book: &mut ScriptBook,
    calls: &mut Vec<NamedCall>,
    reading: u64,
    name: Text,
) -> Result<CallReply, NoMemory>
    requires may_stand { MayStand book.old }
    ensures may_stand { MayStand book.new }
    ensures left { OnOk result (IsLeft
        (left_by_look (poll_look (call_named name calls.old.items)) reading book.old)
        book.old book.new) }
    ensures step { IfOk result (λ reply. step_with reply calls.new.items
        ≡ poll_step name (call_named name calls.old.items)
        (looked_at (poll_look (call_named name calls.old.items)) reading book.old)
        calls.old.items) }
{
    match call_named(calls, &name) {
        None => Ok(CallReply::NoStream),
        Some(OpenCall::Stream(_)) => {
            drop(take_call(calls, &name));
            Ok(CallReply::Refused(Refusal::BadSubscribe))
        }
        Some(OpenCall::Poll(call)) => {
            match look(alloc, book, reading, call.author(), call.patterns())? {
                Ok(view) => Ok(CallReply::Began(first_note(alloc, call.plan().updates_only, view))),
                Err(fault) => Ok(CallReply::Refused(fault)),
            }
        }
    }
}

/// Ends the call of this name.
pub fn end(calls: &mut Vec<NamedCall>, name: &Text) -> CallReply
    ensures { step_with result calls.new.items
        ≡ end_step name.now (call_named name.now calls.old.items) calls.old.items }
{
    match take_call(calls, name) {
        None => CallReply::NoStream,
        Some(_) => CallReply::Ended,
    }
}
