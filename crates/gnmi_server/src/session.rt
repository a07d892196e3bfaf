//! The session of one connection, and what makes sessions.
ghost use Rattle.std.specs.Prelude.{◌≡◌, [], IfOk, IfErr, ⊤};
ghost use Rattle.connection_server.specs.Jobs.{IsSamePort};
ghost use Rattle.gnmi_server.specs.Sessions.{ServesLink};

use crate::desk_port::{DeskPort, Numbered};
use crate::feeding::Feeding;
use base_lists::NoMemory;
use book_port::BookPort;
use connection_server::{Link, LinkLeft, Session, Sessions};
use environment::{Clock, Job, Pacer, Sink, Source, Starter};
use session_core::{How, SessionEnd, serve_session};
use std::alloc::Global;
use std::sync::Wait;
use std::thread::Threads;

/// What a session needs beside its connection. The starter starts its feeders.
#[derive(Drop)]
pub struct Tools<R, C, Q, S> {
    pub rt: R,
    pub alloc: Global,
    pub clock: C,
    pub pacer: Q,
    pub starter: S,
}

/// Tools of the same kinds as these, for another thread. The clock has given nothing yet.
pub(crate) fn twin_tools<J, R, C, Q, S>(
    rt: &R,
    alloc: Global,
    clock: &C,
    pacer: &Q,
    starter: &S,
) -> Result<Tools<R, C, Q, S>, NoMemory>
where
    J: Job,
    R: Clone + Drop,
    C: Clock + Drop,
    Q: Pacer + Drop,
    S: Starter<J> + Drop,
    ensures { IfOk result (λ tools. C.readings tools.clock ≡ []) }
{
    let Ok(rt) = rt.clone() else {
        return Err(NoMemory);
    };
    let clock = clock.twin(alloc)?;
    let pacer = pacer.twin()?;
    let starter = starter.twin()?;
    Ok(Tools {
        rt,
        alloc,
        clock,
        pacer,
        starter,
    })
}

/// A session that serves one connection, its calls of mode STREAM by feeders.
#[derive(Drop)]
pub struct GnmiSession<I, O, P: BookPort, R, C: Clock, Q, S> {
    link: Link<I, O, DeskPort<P>>,
    tools: Tools<R, C, Q, S>,
    ghost unread: { C.readings tools.clock ≡ [] },
}

impl<I, O, P, R, C, Q, S> Session<I, O, DeskPort<P>> for GnmiSession<I, O, P, R, C, Q, S>
where
    I: Source,
    O: Sink + Drop,
    P: Numbered + Drop,
    R: Threads + Wait + Clone + Drop,
    C: Clock + Drop,
    Q: Pacer + Drop,
    S: Starter<Feeding<P, O, R, C, Q>> + Drop,
{
    ghost use Rattle.gnmi_server.specs.Sessions.{ServesLink};
    ghost use Rattle.session_core.specs.declared.how.How.TheVariants.{NoMemory};

    type How = How;

    ghost link = { λ s. s.link };

    ghost serves = { λ s left. ServesLink I.seen O.seen s.link left };

    ghost unserved = { NoMemory };

    fn serve(self) -> LinkLeft<I, O, DeskPort<P>, How> {
        let GnmiSession { link, tools } = self;
        serve(link, tools)
    }

    fn no_session() -> How {
        How::NoMemory
    }

    fn author(port: &DeskPort<P>) -> u32 {
        port.author()
    }
}

/// Serves the connection.
fn serve<I, O, P, R, C, Q, S>(
    link: Link<I, O, DeskPort<P>>,
    tools: Tools<R, C, Q, S>,
) -> LinkLeft<I, O, DeskPort<P>, How>
where
    I: Source,
    O: Sink + Drop,
    P: Numbered + Drop,
    R: Threads + Wait + Clone + Drop,
    C: Clock + Drop,
    Q: Pacer + Drop,
    S: Starter<Feeding<P, O, R, C, Q>> + Drop,
    requires unread { C.readings tools.clock ≡ [] }
    ensures serves { ServesLink I.seen O.seen link result }
    ensures same { IsSamePort link.port result.port }
{
    let Tools {
        rt,
        alloc,
        clock,
        pacer,
        starter,
    } = tools;
    let Link {
        number: _,
        input,
        output,
        port,
    } = link;
    let DeskPort { port, desk } = port;
    let SessionEnd {
        how,
        input,
        output,
        book,
        clock: _,
    } = serve_session(rt, alloc, input, output, port, &desk, starter, clock, pacer);
    LinkLeft {
        how,
        input,
        output,
        port: DeskPort { port: book, desk },
    }
}

/// What makes the sessions of connections, each with tools of the same kinds.
#[derive(Drop)]
pub struct GnmiSessions<R, C, Q, S> {
    pub tools: Tools<R, C, Q, S>,
}

impl<I, O, P, R, C, Q, S> Sessions<I, O, DeskPort<P>, GnmiSession<I, O, P, R, C, Q, S>>
    for GnmiSessions<R, C, Q, S>
where
    I: Source,
    O: Sink + Drop,
    P: Numbered + Drop,
    R: Threads + Wait + Clone + Drop,
    C: Clock + Drop,
    Q: Pacer + Drop,
    S: Starter<Feeding<P, O, R, C, Q>> + Drop,
{
    ghost use Rattle.std.specs.Prelude.{⊤};

    ghost makes = { λ _ _. ⊤ };

    fn session(
        &self,
        alloc: Global,
        link: Link<I, O, DeskPort<P>>,
    ) -> Result<GnmiSession<I, O, P, R, C, Q, S>, Link<I, O, DeskPort<P>>>
        ensures ok { IfOk result (λ session. ⊤ × (session.link ≡ link)) }
        ensures err { IfErr result (λ back. back ≡ link) }
    {
        let own = &self.tools;
        match twin_tools::<Feeding<P, O, R, C, Q>, R, C, Q, S>(
            &own.rt,
            alloc,
            &own.clock,
            &own.pacer,
            &own.starter,
        ) {
            Ok(tools) => Ok(GnmiSession { link, tools }),
            Err(NoMemory) => Err(link),
        }
    }
}
