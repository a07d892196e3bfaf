//! The feeders of a connection as those who take calls of mode STREAM off its session.
use crate::handing::Handing;
use crate::own_port::OwnPort;
use crate::shared::SharedWire;
use book_port::Twin;
use environment::{Clock, Pacer, Sink, Starter};
use shared_wire::WireVisit;
use std::alloc::Global;
use std::sync::Wait;
use std::thread::Threads;
use stream_worker::FeedJob;
use stream_workers::Feeders;
use sub_plan::Plan;

impl<P, O, R, C, Q, S> Handing<OwnPort<P>, SharedWire<O, R>, C> for Feeders<P, O, R, C, Q, S>
where
    P: Twin + Drop,
    O: Sink + Drop,
    R: Threads + Wait + Clone + Drop,
    C: Clock + Drop,
    Q: Pacer + Drop,
    S: Starter<FeedJob<P, WireVisit<O, R>, C, Q, R>> + Drop,
{
    ghost feeding = { λ f. f };

    fn hand(
        &mut self,
        alloc: Global,
        book: &mut OwnPort<P>,
        wire: &mut SharedWire<O, R>,
        clock: &C,
        stream: u32,
        plan: Plan,
    ) -> Result<(), Plan> {
        Feeders::hand(
            self,
            alloc,
            &mut book.port,
            &mut wire.visit,
            clock,
            stream,
            plan,
        )
    }
}
