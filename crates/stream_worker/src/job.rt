//! The job of a feeder, from its beginning to its end.
ghost use Rattle.std.specs.Prelude.{◌≡◌};
ghost use Rattle.sub_plan.specs.declared.plan.Plan.{Plan as PlanValue};
ghost use Rattle.stream_worker.specs.Feeds.{Feeds, Ports, ports_of};
ghost use Rattle.stream_worker.specs.inner.Steps.{HasFed};

use crate::steps::{Feeder, call_of};
use crate::waiting::Waiting;
use base_kinds::Refusal;
use book_port::BookPort;
use environment::{Clock, Job, Pacer};
use h2_send::WirePort;
use schema_core::Schema;
use std::alloc::Global;
use std::sync::Wait;
use sub_plan::Plan;

/// Why a feeder ended.
#[derive(Clone, Copy, Debug, PartialEq, Eq)]
pub enum FeedEnd {
    /// Nothing can be said on the stream: it was reset or ended, or the connection is closed; or it was never opened.
    Gone,
    /// The call ended with this refusal, which is `NoMemory`.
    Refused(Refusal),
}

/// A Subscribe call of mode STREAM that is to be served on this stream of a connection: under the schema of its book, over ports of
/// the book and of the connection of its own, and by a clock and a pacer.
#[derive(Drop)]
pub struct FeedJob<P, W, C, Q, R> {
    pub stream: u32,
    pub plan: Plan,
    pub schema: Schema,
    pub book: P,
    pub wire: W,
    pub clock: C,
    pub pacer: Q,
    pub alloc: Global,
    pub rt: R,
}

/// What a feeder hands back.
#[derive(Drop)]
pub struct FeedDone<P, W> {
    pub end: FeedEnd,
    pub book: P,
    pub wire: W,
}

/// Takes steps until one ends it.
fn feed<R: Wait, P: BookPort, W: WirePort, C: Clock, Q: Pacer>(
    rt: &R,
    alloc: Global,
    schema: &Schema,
    stream: u32,
    feeder: &mut Feeder<P, W, C, Q>,
) -> FeedEnd
    ensures { (plan : PlanValue) (from : Ports)
        → HasFed schema.now stream plan 0 from feeder.old.call feeder.old.waiting
        (ports_of (P.port feeder.old.book) (W.connection feeder.old.wire)
        (W.counts feeder.old.wire) (W.progress feeder.old.wire) (W.owns feeder.old.wire)
        (W.given feeder.old.wire) (W.authors feeder.old.wire))
        → Feeds schema.now stream plan result from
        (ports_of (P.port feeder.new.book) (W.connection feeder.new.wire)
        (W.counts feeder.new.wire) (W.progress feeder.new.wire) (W.owns feeder.new.wire)
        (W.given feeder.new.wire) (W.authors feeder.new.wire)) }
{
    for _ in rt.forever() {
        match feeder.step(alloc, schema, stream) {
            Some(end) => return end,
            None => {}
        }
    }
    unreachable!()
}

impl<P, W, C, Q, R> FeedJob<P, W, C, Q, R>
where
    P: BookPort + Drop,
    W: WirePort + Drop,
    C: Clock + Drop,
    Q: Pacer + Drop,
    R: Wait + Drop,
{
    /// Serves the call until nothing goes out on its stream any more (`Gone`), or memory is wanting for it, and then it is refused with
    /// that. It asks the wire how the stream stands before each turn and each message, so that no notification is made for a
    /// stream that octets wait on. It pauses while they do, where a turn says nothing, and where the disk fails, and tries again
    /// then. A message of more than 123,600,000 octets isn't sent: it counts as one for which memory is wanting.
    pub fn run(self) -> FeedDone<P, W>
        ensures { Feeds self.schema self.stream self.plan result.end
            (ports_of (P.port self.book) (W.connection self.wire) (W.counts self.wire)
            (W.progress self.wire) (W.owns self.wire) (W.given self.wire) (W.authors self.wire))
            (ports_of (P.port result.book) (W.connection result.wire) (W.counts result.wire)
            (W.progress result.wire) (W.owns result.wire) (W.given result.wire)
            (W.authors result.wire)) }
    {
        let FeedJob {
            stream,
            plan,
            schema,
            book,
            wire,
            clock,
            pacer,
            alloc,
            rt,
        } = self;
        let mut feeder = Feeder {
            call: call_of(alloc, plan),
            waiting: Waiting::nothing(alloc),
            book,
            wire,
            clock,
            pacer,
        };
        let end = feed(&rt, alloc, &schema, stream, &mut feeder);
        let Feeder { book, wire, .. } = feeder;
        FeedDone { end, book, wire }
    }
}

impl<P, W, C, Q, R> Job for FeedJob<P, W, C, Q, R>
where
    P: BookPort + Drop,
    W: WirePort + Drop,
    C: Clock + Drop,
    Q: Pacer + Drop,
    R: Wait + Drop,
{
    type Done = FeedDone<P, W>;

    ghost use Rattle.stream_worker.specs.Feeds.{Feeds, ports_of};

    ghost gives = { λ job done. Feeds job.schema job.stream job.plan done.end
        (ports_of (P.port job.book) (W.connection job.wire) (W.counts job.wire)
        (W.progress job.wire) (W.owns job.wire) (W.given job.wire) (W.authors job.wire))
        (ports_of (P.port done.book) (W.connection done.wire) (W.counts done.wire)
        (W.progress done.wire) (W.owns done.wire) (W.given done.wire) (W.authors done.wire)) };

    fn run(self) -> FeedDone<P, W> {
        FeedJob::run(self)
    }
}
