//! Who takes calls of mode STREAM off a session.
ghost use Rattle.std.specs.Prelude.{◌≡◌, IfErr, OnErr, OnOk};
ghost use Rattle.session_core.specs.inner.Feeders.{AreOfSession, Starts};

use crate::sending::Sending;
use book_port::BookPort;
use environment::Clock;
use std::alloc::Global;
use sub_plan::Plan;

/// Those who serve calls of mode STREAM beside a session, over further ports of its book and of its sending half.
pub(crate) trait Handing<P: BookPort, W: Sending, C: Clock> {
    ghost use Rattle.stream_workers.specs.Feeders.{FeedersView};

    /// The schema under which they serve, and those that were started so far, in order.
    ghost feeding: { Self → FeedersView };

    /// Hands over the call with this plan on this stream. The plan is given back where nobody takes it: the session serves it then.
    fn hand(
        &mut self,
        alloc: Global,
        book: &mut P,
        wire: &mut W,
        clock: &C,
        stream: u32,
        plan: Plan,
    ) -> Result<(), Plan>
        ensures ok { OnOk result (Starts (W.history wire.old).name stream plan (P.port book.old)
            (feeding self.old).started (feeding self.new).started) }
        ensures plan { IfErr result (λ back. back ≡ plan) }
        ensures none { OnErr result ((feeding self.new).started ≡ (feeding self.old).started) }
        ensures book { P.port book.new ≡ P.port book.old }
        ensures wire { W.progress wire.new ≡ W.progress wire.old }
        ensures history { W.history wire.new ≡ W.history wire.old }
        ensures ours { AreOfSession (P.port book.old) (W.history wire.old) (feeding self.old)
            → AreOfSession (P.port book.new) (W.history wire.new) (feeding self.new) };
}

/// Nobody: the session serves all calls itself.
#[derive(Drop)]
pub(crate) struct Nobody;

impl<P: BookPort, W: Sending, C: Clock> Handing<P, W, C> for Nobody {
    ghost use Rattle.std.specs.Prelude.{[]};

    ghost feeding = { λ n. record { schema = []; started = [] } };

    fn hand(
        &mut self,
        alloc: Global,
        book: &mut P,
        wire: &mut W,
        clock: &C,
        stream: u32,
        plan: Plan,
    ) -> Result<(), Plan> {
        Err(plan)
    }
}
