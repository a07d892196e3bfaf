//! What the turns of Subscribe calls say over a book.
use crate::books::{Port, port, schema, set};
use base_kinds::ListMode;
use request_desk::{Desk, SubscribeStep};
use schema_core::Schema;
use std::alloc::Global;
use std::process::Abort;
use sub_plan::Plan;
use subscribe_calls::{Messages, SubscribeCall, calls_go_on};
use test_captures::SET_A;

/// All changes, in PROTO.
const STREAM: &[u8] = b"\x0a\x08\x12\x04\x0a\x00\x10\x01\x40\x02";

/// The same, without the state at the beginning.
const UPDATES_ONLY: &[u8] = b"\x0a\x0a\x12\x04\x0a\x00\x10\x01\x40\x02\x48\x01";

/// Each Poll shows `/a` in PROTO.
const POLLED: &[u8] = b"\x0a\x0d\x12\x07\x0a\x05\x1a\x03\x0a\x01a\x28\x02\x40\x02";

/// SetRequests that update `/b` to `y`, and delete `/a`.
const SET_B: &[u8] = b"\x22\x0e\x0a\x05\x1a\x03\x0a\x01b\x1a\x05\x5a\x03\"y\"";

const DELETE_A: &[u8] = b"\x12\x05\x1a\x03\x0a\x01a";

const NOTHING: &[u8] = b"\x0a\x00";

const SYNC: &[u8] = b"\x18\x01";

/// Notifications of `/a` at stamp 1000, of `/b` at 1001, and of the delete of `/a` at 1002.
const A_IS_SET: &[u8] = b"\x0a\x11\x08\xe8\x07\x22\x0c\x0a\x05\x1a\x03\x0a\x01a\x1a\x03\x0a\x01x";

const B_IS_SET: &[u8] = b"\x0a\x11\x08\xe9\x07\x22\x0c\x0a\x05\x1a\x03\x0a\x01b\x1a\x03\x0a\x01y";

const A_IS_GONE: &[u8] = b"\x0a\x0a\x08\xea\x07\x2a\x05\x1a\x03\x0a\x01a";

/// The plan of a list at this desk.
fn plan_at(rt: &impl Abort, alloc: Global, desk: &Desk, body: &[u8]) -> Plan {
    match desk.subscribe(alloc, body, None).expect(rt, "a list") {
        SubscribeStep::Begin(plan) => plan,
        SubscribeStep::Poll => panic!(rt; "a poll"),
    }
}

fn plan(rt: &impl Abort, alloc: Global, body: &[u8]) -> Plan {
    let desk = Desk::make(schema(rt, alloc));
    plan_at(rt, alloc, &desk, body)
}

fn call(rt: &impl Abort, alloc: Global, body: &[u8]) -> SubscribeCall {
    SubscribeCall::of(alloc, plan(rt, alloc, body)).expect(rt, "memory")
}

fn are_said(messages: &Messages, wanted: &[&[u8]]) -> bool {
    let mut are_said = messages.len() == wanted.len();
    for (message, wanted) in messages.items().iter().zip(wanted) {
        are_said = are_said && message.items() == *wanted;
    }
    are_said
}

/// What is set before a turn, if anything, and the messages that the turn says.
type Step = (&'static [u8], &'static [&'static [u8]]);

/// Whether a turn says these messages.
fn turn_says(
    alloc: Global,
    schema: &Schema,
    port: &mut Port,
    call: &mut SubscribeCall,
    wanted: &[&[u8]],
) -> bool {
    match call.turn(alloc, schema, 1_000, port) {
        Ok(messages) => are_said(&messages, wanted),
        Err(_) => false,
    }
}

fn take_step(
    rt: &impl Abort,
    alloc: Global,
    schema: &Schema,
    port: &mut Port,
    call: &mut SubscribeCall,
    step: &Step,
) {
    if !step.0.is_empty() {
        set(rt, alloc, schema, 1_000, step.0, port);
    }
    let are_said = turn_says(alloc, schema, port, call, step.1);
    assert!(rt; are_said, "{:?}", step.0);
}

/// The call takes a turn behind each of these Sets.
fn take_steps(
    rt: &impl Abort,
    alloc: Global,
    schema: &Schema,
    port: &mut Port,
    call: &mut SubscribeCall,
    steps: &[Step],
) {
    for step in steps {
        take_step(rt, alloc, schema, port, call, step);
    }
}

/// A call with this list does so.
fn follow(rt: &impl Abort, alloc: Global, list: &[u8], steps: &[Step]) {
    let schema = schema(rt, alloc);
    let mut port = port(rt, alloc);
    let mut call = call(rt, alloc, list);
    take_steps(rt, alloc, &schema, &mut port, &mut call, steps);
}

const CHANGES: &[Step] = &[
    (b"", &[NOTHING, SYNC]),
    (SET_A, &[A_IS_SET]),
    (b"", &[]),
    (SET_B, &[B_IS_SET]),
    (DELETE_A, &[A_IS_GONE]),
];

#[test]
fn changes_come_as_they_are_committed(rt: HostRuntime) {
    follow(&rt, rt.alloc(), STREAM, CHANGES);
    calls_go_on();
}

const UPDATES: &[Step] = &[(SET_A, &[SYNC]), (SET_B, &[B_IS_SET])];

#[test]
fn updates_alone_begin_with_a_sync(rt: HostRuntime) {
    follow(&rt, rt.alloc(), UPDATES_ONLY, UPDATES);
}

/// Whether a Poll at this reading says the state of `/a` and a sync.
fn poll_says_the_state(
    alloc: Global,
    schema: &Schema,
    port: &mut Port,
    call: &SubscribeCall,
    now: u64,
) -> bool {
    match call.poll(alloc, schema, now, port) {
        Ok(messages) => are_said(&messages, &[A_IS_SET, SYNC]),
        Err(_) => false,
    }
}

/// The call is one of mode POLL, and each Poll of it says so.
fn take_polls(
    rt: &impl Abort,
    alloc: Global,
    schema: &Schema,
    port: &mut Port,
    call: &SubscribeCall,
) {
    let mode = call.plan().mode;
    assert!(rt; mode == ListMode::Poll);
    for now in &[1_000, 2_000] {
        let are_said = poll_says_the_state(alloc, schema, port, call, *now);
        assert!(rt; are_said, "at {now}");
    }
}

/// A call with a list of mode POLL is asked for the state again and again, over a book in which `/a` is `x`.
fn follow_polls(rt: &impl Abort, alloc: Global) {
    let schema = schema(rt, alloc);
    let mut port = port(rt, alloc);
    set(rt, alloc, &schema, 1_000, SET_A, &mut port);
    let call = call(rt, alloc, POLLED);
    take_polls(rt, alloc, &schema, &mut port, &call);
}

#[test]
fn each_poll_says_the_state_and_a_sync(rt: HostRuntime) {
    follow_polls(&rt, rt.alloc());
}
