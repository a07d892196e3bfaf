//! Connections are served, from the opening of the door until all sessions have ended.
ghost use Rattle.std.specs.Prelude.{◌≡◌, ◌≤◌, [], length, IfOk, vec_len, vec_capacity};
ghost use Rattle.std.specs.VecDeque.{deque_len, deque_capacity};
ghost use Rattle.book_port.specs.Ports.{most_authors};
ghost use Rattle.connection_server.specs.Accepting.{IsEnded};
ghost use Rattle.connection_server.specs.Jobs.{IsDone};
ghost use Rattle.connection_server.specs.Joining.{AreCounted, authors_of, numbers_of};
ghost use Rattle.connection_server.specs.Serving.{Begins, ServesLinks};
ghost use Rattle.connection_server.specs.Twins.{RiseAbove};

use crate::accepting::{Ending, open};
use crate::job::LinkJob;
use crate::joining::{join, meet_all};
use crate::link::LinkEnd;
use crate::session::{Session, Sessions};
use crate::twins::make_twins;
use base_lists::NoMemory;
use book_port::{PassFault, Twin};
use environment::Running;
use listening::Door;
use std::alloc::Global;
use std::collections::VecDeque;
use std::thread::Threads;
use std_environment::ThreadStarter;

/// What comes of serving connections.
#[derive(Drop)]
pub struct ServedLinks<I, O, H> {
    pub ending: Ending,
    /// What is kept of the connections, in the order in which the door gave them.
    pub links: Vec<LinkEnd<I, O, H>>,
}

/// What the acceptor has in hand: ports for which no connection has come yet, the sessions that it began, and the records of
/// those that have ended.
struct Hands<I: Drop, O: Drop, P: Twin, S: Session<I, O, P>> {
    twins: VecDeque<P>,
    running: Vec<Running<LinkJob<S, I, O, P>>>,
    ends: Vec<LinkEnd<I, O, S::How>>,
}

/// Takes the room of so many connections.
fn empty_hands<I, O, P, S>(alloc: Global, count: u32) -> Result<Hands<I, O, P, S>, NoMemory>
where
    I: Drop,
    O: Drop,
    P: Twin + Drop,
    S: Session<I, O, P> + Drop,
    S::How: Drop,
    ensures twins { IfOk result (λ hands. (hands.twins.items ≡ []) × (deque_len hands.twins ≡ 0)
        × (count ≤ deque_capacity hands.twins)) }
    ensures running { IfOk result (λ hands. (hands.running.items ≡ []) × (vec_len hands.running ≡ 0)
        × (count ≤ vec_capacity hands.running)) }
    ensures ends { IfOk result (λ hands. (hands.ends.items ≡ []) × (vec_len hands.ends ≡ 0)
        × (count ≤ vec_capacity hands.ends)) }
{
    let twins = VecDeque::with_capacity(alloc, count as usize)?;
    let running = Vec::with_capacity(alloc, count as usize)?;
    let ends = Vec::with_capacity(alloc, count as usize)?;
    Ok(Hands {
        twins,
        running,
        ends,
    })
}

/// Makes the ports of all sessions, opens the door, and begins a session for each connection that it gives.
fn begin<R, P, S, D, M>(
    alloc: Global,
    address: &str,
    sessions: &M,
    starter: &mut ThreadStarter<R>,
    door: &mut D,
    port: &mut P,
    twins: &mut VecDeque<P>,
    running: &mut Vec<Running<LinkJob<S, D::Reader, D::Writer, P>>>,
    count: u32,
) -> Ending
where
    R: Threads + Clone + Drop,
    P: Twin + Send + Drop + 'static,
    S: Session<D::Reader, D::Writer, P> + Send + Drop + 'static,
    S::How: Send + Drop + 'static,
    D: Door,
    D::Reader: Send + Drop + 'static,
    D::Writer: Send + Drop + 'static,
    M: Sessions<D::Reader, D::Writer, P, S>,
    requires twins { (twins.old.items ≡ []) × (deque_len twins.old ≡ 0)
        × (count ≤ deque_capacity twins.old) }
    requires running { (running.old.items ≡ []) × (vec_len running.old ≡ 0)
        × (count ≤ vec_capacity running.old) }
    ensures { Begins D.Reader.seen D.Writer.seen S.link (M.makes sessions.now) P.port count result
        (P.port port.old) (D.seen door.old) running.new.items twins.new.items (P.port port.new)
        (D.seen door.new) }
{
    match make_twins(port, twins, count) {
        Ok(()) => open(
            alloc, address, sessions, starter, door, twins, running, count,
        ),
        Err(PassFault::Spent) => Ending::Spent,
        Err(PassFault::NoMemory) => Ending::NoMemory,
    }
}

/// Accepts so many connections at an address, or fewer where the door is at its end or fails, and serves each by a session of
/// its own, with a port of the book of its own: beside the others, where the starter starts it, and else at once. Then it waits
/// for the end of each. The room of all that is kept of them, and the ports, are taken before the door is opened.
pub fn serve_links<R, P, S, D, M>(
    rt: &R,
    alloc: Global,
    address: &str,
    count: u32,
    sessions: &M,
    starter: &mut ThreadStarter<R>,
    door: &mut D,
    port: &mut P,
) -> ServedLinks<D::Reader, D::Writer, S::How>
where
    R: Threads + Clone + Drop,
    P: Twin + Send + Drop + 'static,
    S: Session<D::Reader, D::Writer, P> + Send + Drop + 'static,
    S::How: Send + Drop + 'static,
    D: Door,
    D::Reader: Send + Drop + 'static,
    D::Writer: Send + Drop + 'static,
    M: Sessions<D::Reader, D::Writer, P, S>,
    ensures serves { ServesLinks D.Reader.seen D.Writer.seen S.link (M.makes sessions.now) P.port
        (IsDone S.link P.port S.serves S.unserved) count result.ending result.links.items
        (P.port port.old) (D.seen door.old) (P.port port.new) (D.seen door.new) }
    ensures end { IsEnded count result.ending (length result.links.items) (D.seen door.old)
        (D.seen door.new) }
    ensures numbers { AreCounted 1 (numbers_of result.links.items) }
    ensures authors { RiseAbove (P.port port.old).known (authors_of result.links.items) }
    ensures spent { result.ending ≡ Ending.Spent → most_authors ≤ (P.port port.new).known }
{
    let Ok(hands) = empty_hands::<D::Reader, D::Writer, P, S>(alloc, count) else {
        return ServedLinks {
            ending: Ending::NoMemory,
            links: Vec::new(alloc),
        };
    };
    let Hands {
        mut twins,
        mut running,
        mut ends,
    } = hands;
    let ending = begin(
        alloc,
        address,
        sessions,
        starter,
        door,
        port,
        &mut twins,
        &mut running,
        count,
    );
    join(rt, port, running, &mut ends);
    meet_all(port, twins);
    ServedLinks {
        ending,
        links: ends,
    }
}
