//! What a feeder writes until a write fails, and of a stream that isn't open.
use crate::books::{Port, port, schema, set};
use base_kinds::Seq;
use environment::{IdlePacer, MemSink, StepClock};
use h2_events::RecvEvent;
use h2_send::Wire;
use hpack_block::Headers;
use request_desk::{Desk, SubscribeStep};
use schema_core::Schema;
use std::alloc::Global;
use std::process::Abort;
use std::sync::Wait;
use stream_worker::{FeedDone, FeedEnd, FeedJob};
use sub_plan::Plan;
use test_builders::decimals;
use test_captures::{FAILING_WRITES, SAMPLE_LIST, SAMPLED, SET_A};

/// SETTINGS, which a wire writes first, in octets.
const GREETING: usize = 21;

/// Readings of a clock, of which the second comes too early for a sample.
const READINGS: &[u64] = &[
    1_000_000_000,
    1_500_000_000,
    2_000_000_000,
    3_000_000_000,
    4_000_000_000,
    5_000_000_000,
    6_000_000_000,
    7_000_000_000,
    8_000_000_000,
];

fn plan(rt: &impl Abort, alloc: Global, desk: &Desk) -> Plan {
    match desk
        .subscribe(alloc, SAMPLE_LIST, None)
        .expect(rt, "a list")
    {
        SubscribeStep::Begin(plan) => plan,
        SubscribeStep::Poll => panic!(rt; "a poll"),
    }
}

/// A sink that fails in this call of `write`.
fn sink(rt: &impl Abort, alloc: Global, fails: u64) -> MemSink {
    MemSink::make(alloc, decimals(alloc, &[fails]).expect(rt, "memory"))
}

/// A wire over such a sink.
fn wire(rt: &impl Abort, alloc: Global, fails: u64) -> Wire<MemSink> {
    let mut wire = Wire::make(alloc, sink(rt, alloc, fails));
    let _greeting = wire.greet();
    wire
}

/// A port of a book in which `/a` is `x`, under the schema of the desk.
fn port_with_a(rt: &impl Abort, alloc: Global, desk: &Desk) -> Port {
    let mut book = port(rt, alloc);
    set(rt, alloc, desk.schema(), 1_000, SET_A, &mut book);
    book
}

/// A clock of `READINGS`.
fn clock(rt: &impl Abort, alloc: Global) -> StepClock {
    StepClock::make(Seq::of(alloc, READINGS).expect(rt, "memory"))
}

/// A run of a feeder on stream 1, over a book with `/a` and this wire: how it ends, and what is written.
fn run<R: Wait + Abort + Drop>(rt: R, alloc: Global, wire: Wire<MemSink>) -> (FeedEnd, MemSink) {
    let desk = Desk::make(schema(&rt, alloc));
    let done = FeedJob {
        stream: 1,
        plan: plan(&rt, alloc, &desk),
        schema: schema(&rt, alloc),
        book: port_with_a(&rt, alloc, &desk),
        wire,
        clock: clock(&rt, alloc),
        pacer: IdlePacer,
        alloc,
        rt,
    }
    .run();
    let FeedDone { end, wire, .. } = done;
    (end, wire.give())
}

/// What was written behind the greeting and the headers of the reply.
fn data(sink: &MemSink) -> &[u8] {
    let written = sink.octets().get(GREETING..).unwrap_or(&[]);
    let length = match written {
        [0, 0, length, 1, ..] => *length as usize,
        _ => 0,
    };
    written.get(9 + length..).unwrap_or(&[])
}

/// A wire over such a sink, on which stream 1 is called.
fn called_wire(rt: &impl Abort, alloc: Global, fails: u64) -> Wire<MemSink> {
    let mut wire = wire(rt, alloc, fails);
    let _call = wire.act(alloc, &RecvEvent::Call(1, Headers::empty(alloc), true));
    wire
}

/// Whether nothing goes out any more behind so many octets of DATA, where this call of `write` fails.
fn ends_behind<R: Wait + Abort + Drop>(rt: R, alloc: Global, fails: u64, count: usize) -> bool {
    let wire = called_wire(&rt, alloc, fails);
    let (end, sink) = run(rt, alloc, wire);
    end == FeedEnd::Gone && data(&sink) == SAMPLED.get(..count).unwrap_or(&[])
}

#[test]
fn messages_go_out_in_order_until_a_write_fails(rt: HostRuntime) {
    for (fails, count) in FAILING_WRITES {
        assert!(rt; ends_behind(rt, rt.alloc(), *fails, *count), "call {fails}");
    }
}

/// Whether nothing goes out but the greeting on a wire on which no stream is called.
fn ends_uncalled<R: Wait + Abort + Drop>(rt: R, alloc: Global) -> bool {
    let wire = wire(&rt, alloc, 3);
    let (end, sink) = run(rt, alloc, wire);
    end == FeedEnd::Gone && sink.octets().len() == GREETING
}

#[test]
fn a_stream_that_is_not_open_ends_a_call(rt: HostRuntime) {
    assert!(rt; ends_uncalled(rt, rt.alloc()));
}
