ghost use Rattle.std.specs.Prelude.{◌≡◌, [], false, IfOk, IfErr, OnOk, OnErr};
ghost use Rattle.stream_workers.specs.Feeders.{AllEnd, AreOf, IsStarted};
ghost use Rattle.stream_workers.specs.Ports.{StayTheirs};

use crate::ending::end_all;
use crate::twins::{meet_ports, tools_of, twins};
use book_port::{BookPort, Twin};
use environment::{Clock, Pacer, Running, Sink, Starter, join_done};
use schema_core::Schema;
use shared_wire::WireVisit;
use std::alloc::Global;
use std::marker::Model;
use std::sync::Wait;
use std::thread::Threads;
use stream_worker::FeedJob;
use sub_plan::Plan;

/// The feeders of one connection: those that run, in the order in which they were started, and what further ones are made of. Who
/// makes some ends them all by `finish`, since none can be let go.
pub struct Feeders<P, O, R, C, Q, S>
where
    P: BookPort + Drop,
    O: Sink + Drop,
    R: Wait + Clone + Drop,
    C: Clock + Drop,
    Q: Pacer + Drop,
{
    running: Vec<Running<FeedJob<P, WireVisit<O, R>, C, Q, R>>>,
    starter: S,
    pacer: Q,
    schema: Schema,
    rt: R,
}

impl<P, O, R, C, Q, S> Model for Feeders<P, O, R, C, Q, S>
where
    P: BookPort + Drop,
    O: Sink + Drop,
    R: Wait + Clone + Drop,
    C: Clock + Drop,
    Q: Pacer + Drop,
{
    ghost use Rattle.std.specs.Prelude.{map};
    ghost use Rattle.std.specs.Coded.{codes};
    ghost use Rattle.base_kinds.specs.contracts.value.Value as value;
    ghost use Rattle.stream_workers.specs.Feeders.{AreUnder, FeedersView, started_of};

    ghost Value = { FeedersView };

    ghost coded = { Prim.hlevel (codes, value.the_row.coded) };

    ghost view = { λ f. record {
      schema = f.schema;
      started = map (started_of P.port) f.running.items;
    } };

    ghost invariant = { λ f. AreUnder f.schema f.running.items };
}

impl<P, O, R, C, Q, S> Feeders<P, O, R, C, Q, S>
where
    P: Twin + Drop,
    O: Sink + Drop,
    R: Threads + Wait + Clone + Drop,
    C: Clock + Drop,
    Q: Pacer + Drop,
    S: Starter<FeedJob<P, WireVisit<O, R>, C, Q, R>> + Drop,
{
    /// None runs yet. Takes no memory.
    pub fn make(
        rt: R,
        alloc: Global,
        starter: S,
        pacer: Q,
        schema: Schema,
    ) -> Feeders<P, O, R, C, Q, S>
        ensures { result ≡ record { schema = schema; started = [] } }
    {
        Feeders {
            running: Vec::new(alloc),
            starter,
            pacer,
            schema,
            rt,
        }
    }

    /// Starts a feeder of the call with this plan on this stream, over twins of both ports. The plan is given back where a twin or
    /// something else that the feeder needs can't be made, and where the starter gives its job back; twins that were made are met
    /// again then.
    pub fn hand(
        &mut self,
        alloc: Global,
        book: &mut P,
        wire: &mut WireVisit<O, R>,
        clock: &C,
        stream: u32,
        plan: Plan,
    ) -> Result<(), Plan>
        ensures ok { OnOk result (IsStarted stream plan self.old self.new
            (P.port book.old) (P.port book.new) wire.old wire.new) }
        ensures plan { IfErr result (λ back. back ≡ plan) }
        ensures none { OnErr result (self.new ≡ self.old) }
        ensures ports { StayTheirs (P.port book.old) (P.port book.new) wire.old wire.new }
        ensures all { AreOf (P.port book.old).book wire.old.lock self.old.started
            → AreOf (P.port book.new).book wire.new.lock self.new.started }
    {
        self.join_done();
        self.start(alloc, book, wire, clock, stream, plan)
    }

    /// Joins the threads of the workers that have ended. Their ports are met when the connection ends, with the others'.
    fn join_done(&mut self)
        ensures { self.new ≡ self.old }
    {
        join_done(&self.rt, &mut self.running);
    }

    fn start(
        &mut self,
        alloc: Global,
        book: &mut P,
        wire: &mut WireVisit<O, R>,
        clock: &C,
        stream: u32,
        plan: Plan,
    ) -> Result<(), Plan>
        ensures ok { OnOk result (IsStarted stream plan self.old self.new
            (P.port book.old) (P.port book.new) wire.old wire.new) }
        ensures plan { IfErr result (λ back. back ≡ plan) }
        ensures none { OnErr result (self.new ≡ self.old) }
        ensures ports { StayTheirs (P.port book.old) (P.port book.new) wire.old wire.new }
        ensures all { AreOf (P.port book.old).book wire.old.lock self.old.started
            → AreOf (P.port book.new).book wire.new.lock self.new.started }
    {
        let Ok(()) = self.running.reserve(1) else {
            return Err(plan);
        };
        let Ok(tools) = tools_of(alloc, clock, &self.pacer, &self.schema, &self.rt) else {
            return Err(plan);
        };
        let Some((own, visit)) = twins(book, wire) else {
            return Err(plan);
        };
        let job = FeedJob {
            stream,
            plan,
            schema: tools.schema,
            book: own,
            wire: visit,
            clock: tools.clock,
            pacer: tools.pacer,
            alloc,
            rt: tools.rt,
        };
        match self.starter.start(job) {
            Ok(running) => {
                self.running.push_reserved(running);
                Ok(())
            }
            Err(job) => {
                meet_ports(book, wire, job.book, job.wire);
                Err(job.plan)
            }
        }
    }

    /// Waits until all have ended, one after the other, and meets their ports.
    pub fn finish(self, book: &mut P, wire: &mut WireVisit<O, R>)
        requires shared { (P.port book.old).is_alone ≡ false }
        requires all { AreOf (P.port book.old).book wire.old.lock self.started }
        ensures { AllEnd self.schema self.started
            (P.port book.old) wire.old (P.port book.new) wire.new }
    {
        let Feeders {
            running,
            starter: _,
            pacer: _,
            schema: _,
            rt,
        } = self;
        end_all(&rt, running, book, wire);
    }
}
