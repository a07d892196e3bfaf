//! A server over connections in memory.
ghost use Rattle.std.specs.Prelude.{◌≡◌};
ghost use Rattle.environment.specs.Memory.{input_of};
ghost use Rattle.std.specs.Thread.{IsSend};
ghost use Rattle.std_environment.specs.HeldStarters.{StartsJob};

use crate::frames::{Step, begin, put};
use crate::server_edges::{Count, CountingSink, HeldSource, Hold, Holds, TestDoor};
use crate::shared::{Counter, TestBook, YieldingPacer, again, book, counted, counter};
use base_lists::{Copied, Seq, Texts};
use connection_server::{Ending, LinkEnd, ServedLinks};
use environment::{MemSink, MemSource, Running, StepClock};
use gnmi_server::{DeskPort, Feeding, serve_book, start_feeder};
use request_desk::Desk;
use schema_core::Schema;
use schema_text::read_schema;
use session_core::How;
use std::alloc::Global;
use std::collections::VecDeque;
use std::process::Abort;
use std::sync::{Arc, Wait};
use std::thread::Threads;
use std_environment::{HeldStarter, ReadyStarter, Starting, ThreadStarter};
use test_builders::decimals;

/// The job of a feeder of these tests.
type TestFeeding<R> = Feeding<TestBook<R>, CountingSink, R, StepClock, YieldingPacer>;

const SCHEMA: &[u8] = b"module m\nleaf /a string\nleaf /b string\n";

/// What a peer does: it sends a frame, or waits until this text of this connection was counted so often.
#[derive(Clone, Copy)]
pub(crate) enum Part {
    Do(Step),
    Until(usize, u64),
}

/// A connection: what its peer does, and the texts that are counted in what it is sent.
#[derive(Clone, Copy)]
pub(crate) struct Peer {
    pub(crate) parts: &'static [Part],
    pub(crate) first: &'static [u8],
    pub(crate) second: &'static [u8],
}

/// What serving came to.
#[derive(Drop)]
pub(crate) struct Outcome {
    pub(crate) ending: Ending,
    /// How many connections ended without an error.
    pub(crate) closed: u64,
    /// How often each text of each connection was sent.
    pub(crate) first: Seq<u64>,
    pub(crate) second: Seq<u64>,
    /// How many holds were given up.
    pub(crate) late: u64,
    pub(crate) entries: u64,
}

fn counters(rt: &impl Abort, alloc: Global, count: usize) -> Vec<Counter> {
    let mut counters = Vec::new(alloc);
    for _ in 0..count {
        counters.push(counter(rt, alloc)).expect(rt, "memory");
    }
    counters
}

fn all_counted(rt: &impl Abort, alloc: Global, counters: &[Counter]) -> Seq<u64> {
    let mut all = Seq::empty(alloc);
    for counter in counters {
        all.push(counted(counter)).expect(rt, "memory");
    }
    all
}

/// What a peer sends, and where it waits.
fn source(
    rt: &impl Abort,
    alloc: Global,
    parts: &[Part],
    firsts: &[Counter],
    late: &Counter,
) -> HeldSource
    ensures { (input_of result.source).faults ≡ 0 }
{
    let mut octets = begin(alloc).expect(rt, "memory");
    let mut holds = VecDeque::new(alloc);
    for part in parts {
        match part {
            Part::Do(step) => put(&mut octets, step).expect(rt, "memory"),
            Part::Until(of, goal) => {
                let hold = Hold {
                    place: octets.len(),
                    taken: again(rt, firsts.get(*of).expect(rt, "a connection")),
                    goal: *goal,
                };
                holds.push_back(hold).expect(rt, "memory");
            }
        }
    }
    HeldSource {
        source: MemSource::make(octets, Texts::empty(alloc)),
        given: 0,
        holds: Holds {
            holds,
            late: again(rt, late),
        },
    }
}

fn sink(
    rt: &impl Abort,
    alloc: Global,
    peer: &Peer,
    first: &Counter,
    second: &Counter,
) -> CountingSink
    ensures { result.sink.seen.faults ≡ 0 }
{
    CountingSink {
        sink: MemSink::make(alloc, Texts::empty(alloc)),
        first: Count {
            text: peer.first,
            taken: again(rt, first),
        },
        second: Count {
            text: peer.second,
            taken: again(rt, second),
        },
    }
}

/// A door with these connections.
fn door(
    rt: &impl Abort,
    alloc: Global,
    peers: &[Peer],
    firsts: &[Counter],
    seconds: &[Counter],
    late: &Counter,
) -> TestDoor {
    let mut door = TestDoor::empty(alloc);
    for (place, peer) in peers.iter().enumerate() {
        let reader = source(rt, alloc, peer.parts, firsts, late);
        let first = firsts.get(place).expect(rt, "a counter");
        let second = seconds.get(place).expect(rt, "a counter");
        let writer = sink(rt, alloc, peer, first, second);
        door.add(reader, writer).expect(rt, "memory");
    }
    door
}

fn schema(rt: &impl Abort, alloc: Global) -> Schema {
    read_schema(alloc, SCHEMA).expect(rt, "a schema")
}

/// The first port of a new book.
fn port<R: Wait + Abort + Copy + Drop>(rt: R, alloc: Global) -> DeskPort<TestBook<R>> {
    let schema = schema(&rt, alloc);
    let desk = Desk::make(schema.copy(alloc).expect(&rt, "memory"));
    let desk = Arc::new(alloc, desk).expect(&rt, "memory");
    DeskPort::make(book(rt, alloc, schema), desk)
}

/// A starter that refuses the calls with these numbers, and whose twins refuse those with these.
fn starter<R: Threads + Wait + Abort + Copy + Drop>(
    rt: &R,
    alloc: Global,
    own: &[u64],
    twins: &[u64],
) -> ThreadStarter<R> {
    ThreadStarter::refusing(
        *rt,
        alloc,
        decimals(alloc, own).expect(rt, "memory"),
        decimals(alloc, twins).expect(rt, "memory"),
    )
}

/// How many connections ended without an error.
fn closed_of(links: &[LinkEnd<HeldSource, CountingSink, How>]) -> u64 {
    let mut closed = 0_u64;
    for link in links {
        if link.how == How::Closed {
            closed = closed.saturating_add(1);
        }
    }
    closed
}

/// Serves with what is ready to start feeders.
fn serve_ready<R, S>(
    rt: &R,
    alloc: Global,
    count: u32,
    starting: S,
    starter: &mut ThreadStarter<R>,
    door: &mut TestDoor,
    port: &mut DeskPort<TestBook<R>>,
) -> ServedLinks<HeldSource, CountingSink, How>
where
    R: Threads + Wait + Abort + Copy + Drop + Send + Sync + 'static,
    S: Starting<TestFeeding<R>> + Send + Drop + 'static,
    requires { S.ready starting }
{
    let clock = StepClock::make(Seq::of(alloc, &[1000]).expect(rt, "memory"));
    let feeders = ReadyStarter::make(starting);
    serve_book(
        rt,
        alloc,
        "",
        count,
        &clock,
        &YieldingPacer,
        &feeders,
        starter,
        door,
        port,
    )
}

/// Serves these connections, and as many as there are. The starter refuses the sessions with these numbers, and another one
/// the feeders of each session with these.
pub(crate) fn serve<R: Threads + Wait + Abort + Copy + Drop + Send + Sync + 'static>(
    rt: R,
    alloc: Global,
    peers: &[Peer],
    sessions: &[u64],
    feeders: &[u64],
) -> Outcome {
    let firsts = counters(&rt, alloc, peers.len());
    let seconds = counters(&rt, alloc, peers.len());
    let late = counter(&rt, alloc);
    let mut door = door(&rt, alloc, peers, &firsts, &seconds, &late);
    let mut port = port(rt, alloc);
    let start = |threads: &mut ThreadStarter<R>, job: TestFeeding<R>| -> Result<
        Running<TestFeeding<R>>,
        TestFeeding<R>,
    >
        requires { IsSend R.row }
        ensures { StartsJob (λ running. running) job result threads.old threads.new }
    { start_feeder::<R, CountingSink, TestBook<R>, StepClock, YieldingPacer>(threads, job) };
    let served = serve_ready(
        &rt,
        alloc,
        u32::try_from(peers.len()).unwrap_or(u32::MAX),
        HeldStarter::make(starter(&rt, alloc, &[], feeders), start),
        &mut starter(&rt, alloc, sessions, &[]),
        &mut door,
        &mut port,
    );
    Outcome {
        ending: served.ending,
        closed: closed_of(served.links.as_slice()),
        first: all_counted(&rt, alloc, &firsts),
        second: all_counted(&rt, alloc, &seconds),
        late: counted(&late),
        entries: port.give().finish().count(),
    }
}
