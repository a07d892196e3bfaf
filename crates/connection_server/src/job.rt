//! The job of one session.
ghost use Rattle.std.specs.Prelude.{◌≡◌};
ghost use Rattle.connection_server.specs.Jobs.{IsDone, IsEndOf, IsSamePort, IsServed, left_unserved, link_in};

use crate::link::{Link, LinkEnd, LinkLeft};
use crate::session::Session;
use book_port::Twin;
use environment::Job;
use std::snapshot::Snapshot;

/// A connection that is to be served. Where memory was wanting for its session it is closed at once.
#[derive(Drop)]
pub struct LinkJob<S, I, O, P> {
    pub number: u32,
    pub author: u32,
    pub session: Result<S, Link<I, O, P>>,
}

/// What is left of a connection that was served, and its port of the book.
#[derive(Drop)]
pub struct LinkDone<I, O, P, H> {
    pub end: LinkEnd<I, O, H>,
    pub port: P,
}

/// Closes a connection that isn't served.
fn close_unserved<I, O, P: Twin, S: Session<I, O, P>>(
    link: Link<I, O, P>,
) -> LinkLeft<I, O, P, S::How>
    ensures { result ≡ left_unserved S.unserved link }
{
    let Link {
        number: _,
        input,
        output,
        port,
    } = link;
    LinkLeft {
        how: S::no_session(),
        input,
        output,
        port,
    }
}

/// Serves the connection to its end.
fn serve<I, O, P: Twin, S: Session<I, O, P>>(
    session: Result<S, Link<I, O, P>>,
) -> LinkLeft<I, O, P, S::How>
    ensures served { IsServed S.serves S.unserved session result }
    ensures same { IsSamePort (P.port (link_in S.link session).port) (P.port result.port) }
{
    match session {
        Ok(session) => session.serve(),
        Err(link) => close_unserved::<I, O, P, S>(link),
    }
}

/// Lets the halves of a connection go.
fn close<I: Drop, O: Drop, P, H>(
    number: u32,
    author: u32,
    left: LinkLeft<I, O, P, H>,
) -> LinkDone<I, O, P, H>
    ensures end { IsEndOf number author left result.end }
    ensures port { result.port ≡ left.port }
{
    let LinkLeft {
        how,
        input,
        output,
        port,
    } = left;
    let end = LinkEnd {
        number,
        author,
        how,
        input: Snapshot::of(&input),
        output: Snapshot::of(&output),
    };
    LinkDone { end, port }
}

impl<I: Drop, O: Drop, P: Twin, S: Session<I, O, P>> Job for LinkJob<S, I, O, P> {
    type Done = LinkDone<I, O, P, S::How>;

    ghost use Rattle.connection_server.specs.Jobs.{IsDone};

    ghost gives = { λ job done. IsDone S.link P.port S.serves S.unserved job done };

    /// Serves the connection, and lets its halves go.
    fn run(self) -> LinkDone<I, O, P, S::How> {
        let LinkJob {
            number,
            author,
            session,
        } = self;
        close(number, author, serve(session))
    }
}
