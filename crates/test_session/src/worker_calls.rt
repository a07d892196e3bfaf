//! Calls that are handed to feeders.
ghost use Rattle.std.specs.Prelude.{◌≡◌};

use crate::worker_connections::{TestBook, TestWire, book, schema, wire};
use base_lists::{Copied, Seq};
use environment::{IdlePacer, MemSink, MemStarter, StepClock};
use request_desk::{Desk, SubscribeStep};
use std::alloc::Global;
use std::process::Abort;
use std::sync::Wait;
use std::thread::Threads;
use stream_workers::Feeders;
use sub_plan::Plan;
use test_captures::{FAILING_WRITES, SAMPLE_LIST, SAMPLED};

type TestFeeders<R> = Feeders<TestBook<R>, MemSink, R, StepClock, IdlePacer, MemStarter>;

/// SETTINGS, which a wire writes first, in octets.
const GREETING: usize = 21;

/// Readings of a clock, each of which is one of a sample.
const READINGS: &[u64] = &[
    1_000_000_000,
    2_000_000_000,
    3_000_000_000,
    4_000_000_000,
    5_000_000_000,
    6_000_000_000,
    7_000_000_000,
    8_000_000_000,
];

fn plan(rt: &impl Abort, alloc: Global, desk: &Desk) -> Plan {
    match desk
        .subscribe(alloc, SAMPLE_LIST, None)
        .expect(rt, "a list")
    {
        SubscribeStep::Begin(plan) => plan,
        SubscribeStep::Poll => panic!(rt; "a poll"),
    }
}

/// Hands a call on stream 1 to a feeder, by a starter that does so many jobs, ends all feeders, and then the connection, whose sink
/// fails in this call of `write`. Whether the call was handed over, and what was written.
fn handed<R: Threads + Wait + Abort + Copy + Drop>(
    rt: R,
    alloc: Global,
    jobs: u64,
    fails: u64,
) -> (bool, MemSink) {
    let schema = schema(&rt, alloc);
    let desk = Desk::make(schema.copy(alloc).expect(&rt, "memory"));
    let under = schema.copy(alloc).expect(&rt, "memory");
    let mut book = book(rt, alloc, &desk, schema);
    let mut wire = wire(rt, alloc, fails);
    let clock = StepClock::make(Seq::of(alloc, READINGS).expect(&rt, "memory"));
    let plan = plan(&rt, alloc, &desk);
    let mut feeders: TestFeeders<R> = Feeders::make(
        rt,
        alloc,
        MemStarter::make(jobs),
        IdlePacer,
        under,
    );
    let is_handed = feeders
        .hand(alloc, &mut book, &mut wire, &clock, 1, plan)
        .ok()
        .is_some();
    feeders.finish(&mut book, &mut wire);
    let _end = wire.close(0);
    let _book = book.finish();
    (is_handed, wire.finish().give())
}

/// What was written behind the greeting and the headers of the reply.
fn data(sink: &MemSink) -> &[u8] {
    let written = sink.octets().get(GREETING..).unwrap_or(&[]);
    let length = match written {
        [0, 0, length, 1, ..] => *length as usize,
        _ => 0,
    };
    written.get(9 + length..).unwrap_or(&[])
}

/// Whether the call was handed over, and so many octets of DATA were written; where none are told, whether it came back, and nothing was
/// written behind the greeting.
fn is_as_told(is_handed: bool, sink: &MemSink, octets: Option<usize>) -> bool {
    match octets {
        Some(octets) => is_handed && data(sink) == SAMPLED.get(..octets).unwrap_or(&[]),
        None => !is_handed && sink.octets().len() == GREETING,
    }
}

/// Whether handing a call over, by a starter that does so many jobs, before a sink that fails in this call of `write`, comes to that.
fn comes_to<R: Threads + Wait + Abort + Copy + Drop>(
    rt: R,
    alloc: Global,
    jobs: u64,
    fails: u64,
    octets: Option<usize>,
) -> bool {
    let (is_handed, sink) = handed(rt, alloc, jobs, fails);
    is_as_told(is_handed, &sink, octets)
}

#[test]
fn a_feeder_says_what_its_call_asks_for(rt: HostRuntime) {
    for (fails, octets) in FAILING_WRITES {
        assert!(rt;
            comes_to(rt, rt.alloc(), 1, *fails, Some(*octets)),
            "call {fails}"
        );
    }
}

#[test]
fn a_call_comes_back_that_can_not_be_started(rt: HostRuntime) {
    assert!(rt; comes_to(rt, rt.alloc(), 0, 0, None));
}
