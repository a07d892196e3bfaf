//! Connections are accepted, each with a session of its own.
ghost use Rattle.std.specs.Prelude.{◌≡◌, ◌≤◌, ◌<◌, ◌+◌, ◌++◌, ◌∷◌, [], length, vec_len, vec_capacity};
ghost use Rattle.std.specs.VecDeque.{deque_len};
ghost use Rattle.connection_server.specs.Accepting.{Accepts, IsDoorEnding, IsEnded, IsMadeFor};
ghost use Rattle.connection_server.specs.Jobs.{link_of};

use crate::job::LinkJob;
use crate::link::Link;
use crate::session::{Session, Sessions};
use book_port::Twin;
use environment::Running;
use listening::{Door, Next};
use std::alloc::Global;
use std::collections::VecDeque;
use std::thread::Threads;
use std_environment::ThreadStarter;

/// How it ended that connections were accepted.
#[derive(Clone, Copy, Debug, PartialEq, Eq)]
pub enum Ending {
    /// All were accepted that were asked for.
    All,
    /// The door was at its end before.
    DoorEnd,
    /// The door failed.
    DoorFault,
    /// Nothing was accepted, since all numbers of authors are given out.
    Spent,
    /// Nothing was accepted, for want of memory.
    NoMemory,
}

/// Starts a job, or does it where that can't be.
fn start<R, I, O, P, S>(
    starter: &mut ThreadStarter<R>,
    job: LinkJob<S, I, O, P>,
) -> Running<LinkJob<S, I, O, P>>
where
    R: Threads + Clone + Drop,
    I: Send + Drop + 'static,
    O: Send + Drop + 'static,
    P: Twin + Send + Drop + 'static,
    S: Session<I, O, P> + Send + Drop + 'static,
    S::How: Send + Drop + 'static,
    ensures { result ≡ job }
{
    match starter.start(job) {
        Ok(running) => running,
        Err(job) => Running::ended(job),
    }
}

/// Begins to serve a connection. Where memory is wanting for its session it is closed at once.
fn begin<R, I, O, P, S, M>(
    alloc: Global,
    sessions: &M,
    starter: &mut ThreadStarter<R>,
    link: Link<I, O, P>,
) -> Running<LinkJob<S, I, O, P>>
where
    R: Threads + Clone + Drop,
    I: Send + Drop + 'static,
    O: Send + Drop + 'static,
    P: Twin + Send + Drop + 'static,
    S: Session<I, O, P> + Send + Drop + 'static,
    S::How: Send + Drop + 'static,
    M: Sessions<I, O, P, S>,
    ensures link { link_of S.link result ≡ link }
    ensures number { result.number ≡ link.number }
    ensures made { IsMadeFor S.link (M.makes sessions.now) P.port result }
{
    let number = link.number;
    let author = S::author(&link.port);
    match sessions.session(alloc, link) {
        Ok(session) => start(
            starter,
            LinkJob {
                number,
                author,
                session: Ok(session),
            },
        ),
        Err(link) => Running::ended(LinkJob {
            number,
            author,
            session: Err(link),
        }),
    }
}

/// Puts a session that has begun behind the others. Of those that have ended the threads are joined, so that no stack of theirs is kept
/// until all have ended.
fn put<R, I, O, P, S>(
    starter: &ThreadStarter<R>,
    session: Running<LinkJob<S, I, O, P>>,
    running: &mut Vec<Running<LinkJob<S, I, O, P>>>,
)
where
    R: Threads + Clone + Drop,
    I: Drop,
    O: Drop,
    P: Twin + Drop,
    S: Session<I, O, P> + Drop,
    S::How: Drop,
    requires { vec_len running.old < vec_capacity running.old }
    ensures items { running.new.items ≡ running.old.items ++ session ∷ [] }
    ensures len { vec_len running.new ≡ vec_len running.old + 1 }
    ensures capacity { vec_capacity running.new ≡ vec_capacity running.old }
{
    starter.join_done(running);
    running.push_reserved(session);
}

/// Accepts a connection for each of these ports, until the door is at its end, or fails. Takes no memory for the list.
pub(crate) fn accept<R, P, S, D, M>(
    alloc: Global,
    sessions: &M,
    starter: &mut ThreadStarter<R>,
    door: &mut D,
    twins: &mut VecDeque<P>,
    running: &mut Vec<Running<LinkJob<S, D::Reader, D::Writer, P>>>,
    count: u32,
) -> Ending
where
    R: Threads + Clone + Drop,
    P: Twin + Send + Drop + 'static,
    S: Session<D::Reader, D::Writer, P> + Send + Drop + 'static,
    S::How: Send + Drop + 'static,
    D: Door,
    D::Reader: Send + Drop + 'static,
    D::Writer: Send + Drop + 'static,
    M: Sessions<D::Reader, D::Writer, P, S>,
    requires ports { (length twins.old.items ≡ count) × (deque_len twins.old ≡ count) }
    requires empty { (running.old.items ≡ []) × (vec_len running.old ≡ 0) }
    requires room { count ≤ vec_capacity running.old }
    ensures accepts { Accepts D.Reader.seen D.Writer.seen S.link (M.makes sessions.now) P.port
        twins.old.items (D.seen door.old) running.new.items twins.new.items (D.seen door.new) }
    ensures end { IsEnded count result (length running.new.items) (D.seen door.old)
        (D.seen door.new) }
    ensures own { IsDoorEnding result }
    ensures len { vec_len running.new ≡ length running.new.items }
{
    for number in 0..count {
        match door.next() {
            Next::Link(input, output) => {
                let Some(port) = twins.pop_front() else {
                    unreachable!()
                };
                let link = Link {
                    number: number + 1,
                    input,
                    output,
                    port,
                };
                let session = begin(alloc, sessions, starter, link);
                put(starter, session, running);
            }
            Next::End => return Ending::DoorEnd,
            Next::Failed => return Ending::DoorFault,
        }
    }
    Ending::All
}

/// Opens the door, accepts a connection for each of these ports, and closes it, so that who dials then is refused.
pub(crate) fn open<R, P, S, D, M>(
    alloc: Global,
    address: &str,
    sessions: &M,
    starter: &mut ThreadStarter<R>,
    door: &mut D,
    twins: &mut VecDeque<P>,
    running: &mut Vec<Running<LinkJob<S, D::Reader, D::Writer, P>>>,
    count: u32,
) -> Ending
where
    R: Threads + Clone + Drop,
    P: Twin + Send + Drop + 'static,
    S: Session<D::Reader, D::Writer, P> + Send + Drop + 'static,
    S::How: Send + Drop + 'static,
    D: Door,
    D::Reader: Send + Drop + 'static,
    D::Writer: Send + Drop + 'static,
    M: Sessions<D::Reader, D::Writer, P, S>,
    requires ports { (length twins.old.items ≡ count) × (deque_len twins.old ≡ count) }
    requires empty { (running.old.items ≡ []) × (vec_len running.old ≡ 0) }
    requires room { count ≤ vec_capacity running.old }
    ensures accepts { Accepts D.Reader.seen D.Writer.seen S.link (M.makes sessions.now) P.port
        twins.old.items (D.seen door.old) running.new.items twins.new.items (D.seen door.new) }
    ensures end { IsEnded count result (length running.new.items) (D.seen door.old)
        (D.seen door.new) }
    ensures own { IsDoorEnding result }
{
    let Ok(()) = door.listen(address) else {
        return Ending::DoorFault;
    };
    let ending = accept(alloc, sessions, starter, door, twins, running, count);
    door.close();
    ending
}
