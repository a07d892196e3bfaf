//! A connection that is served alone, or beside feeders.
ghost use Rattle.std.specs.Thread.{IsSend};
ghost use Rattle.std_environment.specs.HeldStarters.{StartsJob};

use crate::shared::{Counter, TestBook, YieldingPacer, again, book, counted, counter};
use crate::worker_edges::{CountingSink, CountingStarter, Goals, TestFeeding, WaitingSource};
use base_lists::{Bytes, Copied, Seq, Texts};
use environment::{MemSink, MemSource, Running, Starter, StepClock};
use gnmi_server::start_feeder;
use request_desk::Desk;
use schema_core::Schema;
use schema_text::read_schema;
use session_core::{How, SessionEnd, serve_alone, serve_session};
use std::alloc::Global;
use std::process::Abort;
use std::sync::Wait;
use std::thread::Threads;
use std_environment::{HeldStarter, ReadyStarter, Starting, ThreadStarter};
use test_builders::decimals;

const SCHEMA: &[u8] = b"module m\nleaf /a string\nleaf /b string\nleaf /c string\n";

/// So often a source lets other threads go on at most.
const PATIENCE: u32 = 50_000_000;

/// What a connection is served with.
#[derive(Clone, Copy)]
pub(crate) struct Given<'a> {
    pub(crate) octets: &'a [u8],
    /// How much has to be taken before each read, and before the end.
    pub(crate) each: &'a [u64],
    pub(crate) last: u64,
    /// What is counted as taken: this text, or octets where it is empty.
    pub(crate) text: &'static [u8],
    /// The calls that are refused: of the starter, of the source and of the sink. 0 is none.
    pub(crate) starts: &'a [u64],
    pub(crate) read: u64,
    pub(crate) write: u64,
}

/// What a connection came to: how it ended, what was written, how many entries its book has, how much was taken before each read,
/// and how many threads were started.
#[derive(Drop)]
pub(crate) struct Outcome {
    pub(crate) how: How,
    pub(crate) written: Bytes,
    pub(crate) entries: u64,
    pub(crate) found: Seq<u64>,
    pub(crate) started: u64,
}

fn schema(rt: &impl Abort, alloc: Global) -> Schema {
    read_schema(alloc, SCHEMA).expect(rt, "a schema")
}

/// A clock that always reads 1000.
fn clock(rt: &impl Abort, alloc: Global) -> StepClock {
    StepClock::make(Seq::of(alloc, &[1000]).expect(rt, "memory"))
}

/// Where octets come in.
fn source_of(rt: &impl Abort, alloc: Global, given: &Given<'_>, taken: Counter) -> WaitingSource {
    let octets = Bytes::of(alloc, given.octets).expect(rt, "memory");
    let each = Seq::of(alloc, given.each).expect(rt, "memory");
    WaitingSource {
        source: MemSource::make(octets, decimals(alloc, &[given.read]).expect(rt, "memory")),
        left: given.octets.len(),
        taken,
        goals: Goals {
            each,
            last: given.last,
        },
        found: Seq::empty(alloc),
        patience: PATIENCE,
    }
}

/// Where octets go out.
fn sink_of(rt: &impl Abort, alloc: Global, given: &Given<'_>, taken: Counter) -> CountingSink {
    CountingSink {
        sink: MemSink::make(alloc, decimals(alloc, &[given.write]).expect(rt, "memory")),
        text: given.text,
        taken,
    }
}

/// Where octets come in and go out.
fn edges(rt: &impl Abort, alloc: Global, given: &Given<'_>) -> (WaitingSource, CountingSink) {
    let taken = counter(rt, alloc);
    let theirs = again(rt, &taken);
    let source = source_of(rt, alloc, given, taken);
    (source, sink_of(rt, alloc, given, theirs))
}

/// What is looked at of what a session handed back.
fn outcome_of<R: Wait + Abort + Copy + Drop>(
    rt: R,
    alloc: Global,
    end: SessionEnd<WaitingSource, CountingSink, TestBook<R>, StepClock>,
    started: u64,
) -> Outcome {
    let SessionEnd {
        how,
        input,
        output,
        book,
        clock: _,
    } = end;
    Outcome {
        how,
        written: Bytes::of(alloc, output.sink.octets()).expect(&rt, "memory"),
        entries: book.finish().count(),
        found: input.found,
        started,
    }
}

/// Serves a connection alone.
pub(crate) fn alone<R: Wait + Abort + Copy + Drop>(
    rt: R,
    alloc: Global,
    given: &Given<'_>,
) -> Outcome {
    let (input, output) = edges(&rt, alloc, given);
    let schema = schema(&rt, alloc);
    let desk = Desk::make(schema.copy(alloc).expect(&rt, "memory"));
    let port = book(rt, alloc, schema);
    let end = serve_alone(alloc, input, output, port, &desk, clock(&rt, alloc));
    outcome_of(rt, alloc, end, 0)
}

/// Serves a connection beside the feeders that this starter starts.
fn serve_with<R, S>(
    rt: R,
    alloc: Global,
    given: &Given<'_>,
    starter: S,
) -> SessionEnd<WaitingSource, CountingSink, TestBook<R>, StepClock>
where
    R: Threads + Wait + Abort + Copy + Drop,
    S: Starter<TestFeeding<R>> + Drop,
{
    let (input, output) = edges(&rt, alloc, given);
    let schema = schema(&rt, alloc);
    let desk = Desk::make(schema.copy(alloc).expect(&rt, "memory"));
    let port = book(rt, alloc, schema);
    serve_session(
        rt,
        alloc,
        input,
        output,
        port,
        &desk,
        starter,
        clock(&rt, alloc),
        YieldingPacer,
    )
}

/// The same for a starter that is ready to start feeders, and counts them.
fn serve_ready<R, S>(
    rt: R,
    alloc: Global,
    given: &Given<'_>,
    starting: S,
    started: Counter,
) -> SessionEnd<WaitingSource, CountingSink, TestBook<R>, StepClock>
where
    R: Threads + Wait + Abort + Copy + Drop,
    S: Starting<TestFeeding<R>> + Drop,
    requires { S.ready starting }
{
    let starter = ReadyStarter::make(starting);
    serve_with(rt, alloc, given, CountingStarter { starter, started })
}

/// Serves a connection beside feeders in threads of their own.
pub(crate) fn beside<R: Threads + Wait + Abort + Copy + Drop + Send + Sync + 'static>(
    rt: R,
    alloc: Global,
    given: &Given<'_>,
) -> Outcome {
    let refused = decimals(alloc, given.starts).expect(&rt, "memory");
    let threads = ThreadStarter::refusing(rt, alloc, refused, Texts::empty(alloc));
    let start = |threads: &mut ThreadStarter<R>, job: TestFeeding<R>| -> Result<
        Running<TestFeeding<R>>,
        TestFeeding<R>,
    >
        requires { IsSend R.row }
        ensures { StartsJob (λ running. running) job result threads.old threads.new }
    { start_feeder::<R, CountingSink, TestBook<R>, StepClock, YieldingPacer>(threads, job) };
    let started = counter(&rt, alloc);
    let theirs = again(&rt, &started);
    let starting = HeldStarter::make(threads, start);
    let end = serve_ready(rt, alloc, given, starting, theirs);
    outcome_of(rt, alloc, end, counted(&started))
}
