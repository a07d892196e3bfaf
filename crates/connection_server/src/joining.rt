//! The sessions are joined, and their ports met.
ghost use Rattle.std.specs.Prelude.{◌≡◌, ◌≤◌, [], length, map, vec_len, vec_capacity};
ghost use Rattle.std.specs.List.{AllByRecursion};
ghost use Rattle.book_port.specs.Ports.{CanMeet};
ghost use Rattle.connection_server.specs.Accepting.{port_in};
ghost use Rattle.connection_server.specs.Jobs.{IsDone};
ghost use Rattle.connection_server.specs.inner.Joins.{Joins};
ghost use Rattle.connection_server.specs.Twins.{MeetEach};

use crate::job::LinkJob;
use crate::link::LinkEnd;
use crate::session::Session;
use book_port::Twin;
use environment::Running;
use std::collections::VecDeque;
use std::thread::Threads;

/// Waits for the end of each session, in order, and meets its port. Takes no memory for the list.
pub(crate) fn join<R, I, O, P, S>(
    rt: &R,
    port: &mut P,
    running: Vec<Running<LinkJob<S, I, O, P>>>,
    ends: &mut Vec<LinkEnd<I, O, S::How>>,
)
where
    R: Threads,
    I: Drop,
    O: Drop,
    P: Twin + Drop,
    S: Session<I, O, P> + Drop,
    S::How: Drop,
    requires ports { AllByRecursion (λ job. CanMeet (P.port port.old) (P.port (port_in S.link job)))
        running.items }
    requires empty { (ends.old.items ≡ []) × (vec_len ends.old ≡ 0) }
    requires room { length running.items ≤ vec_capacity ends.old }
    ensures { Joins P.port (IsDone S.link P.port S.serves S.unserved) (P.port port.old)
        running.items ends.new.items (P.port port.new) }
{
    for session in running {
        let done = session.finish(rt);
        port.meet(done.port);
        ends.push_reserved(done.end);
    }
}

/// Meets the ports for which no connection came.
pub(crate) fn meet_all<P: Twin + Drop>(port: &mut P, others: VecDeque<P>)
    requires { AllByRecursion (λ other. CanMeet (P.port port.old) (P.port other)) others.items }
    ensures { MeetEach (P.port port.old) (map P.port others.items) (P.port port.new) }
{
    for other in others {
        port.meet(other);
    }
}
