//! Connections are served over one book.
ghost use Rattle.std.specs.Prelude.{◌≡◌, ◌≤◌, length};
ghost use Rattle.book_port.specs.Ports.{most_authors};
ghost use Rattle.connection_server.specs.Accepting.{IsEnded};
ghost use Rattle.connection_server.specs.Joining.{AreCounted, authors_of, numbers_of};
ghost use Rattle.connection_server.specs.Twins.{RiseAbove};
ghost use Rattle.gnmi_server.specs.Serving.{ServesBook};

use crate::desk_port::{DeskPort, Numbered};
use crate::feeding::Feeding;
use crate::session::{GnmiSession, GnmiSessions, twin_tools};
use connection_server::{Ending, ServedLinks, serve_links};
use environment::{Clock, Pacer, Starter};
use listening::Door;
use session_core::How;
use std::alloc::Global;
use std::sync::Wait;
use std::thread::Threads;
use std_environment::ThreadStarter;

/// Accepts so many connections at an address, or fewer where the door is at its end or fails, and serves each as a gNMI session,
/// beside the others, with a port of the book of its own. The one starter starts the sessions, and twins of the other their
/// feeders. It waits for all of them.
pub fn serve_book<R, D, P, C, Q, S>(
    rt: &R,
    alloc: Global,
    address: &str,
    count: u32,
    clock: &C,
    pacer: &Q,
    feeders: &S,
    starter: &mut ThreadStarter<R>,
    door: &mut D,
    port: &mut DeskPort<P>,
) -> ServedLinks<D::Reader, D::Writer, How>
where
    R: Threads + Wait + Clone + Drop + Send + Sync + 'static,
    D: Door,
    D::Reader: Send + Drop + 'static,
    D::Writer: Send + Drop + 'static,
    P: Numbered + Send + Drop + 'static,
    C: Clock + Send + Drop + 'static,
    Q: Pacer + Send + Drop + 'static,
    S: Starter<Feeding<P, D::Writer, R, C, Q>> + Send + Drop + 'static,
    ensures serves { ServesBook D.Reader.seen D.Writer.seen count result.ending
        result.links.items port.old (D.seen door.old) port.new (D.seen door.new) }
    ensures end { IsEnded count result.ending (length result.links.items) (D.seen door.old)
        (D.seen door.new) }
    ensures numbers { AreCounted 1 (numbers_of result.links.items) }
    ensures authors { RiseAbove port.old.known (authors_of result.links.items) }
    ensures spent { result.ending ≡ Ending.Spent → most_authors ≤ port.new.known }
{
    match twin_tools::<Feeding<P, D::Writer, R, C, Q>, R, C, Q, S>(
        rt, alloc, clock, pacer, feeders,
    ) {
        Ok(tools) => serve_links::<
            R,
            DeskPort<P>,
            GnmiSession<D::Reader, D::Writer, P, R, C, Q, S>,
            D,
            GnmiSessions<R, C, Q, S>,
        >(
            rt,
            alloc,
            address,
            count,
            &GnmiSessions { tools },
            starter,
            door,
            port,
        ),
        Err(_) => ServedLinks {
            ending: Ending::NoMemory,
            links: Vec::new(alloc),
        },
    }
}
