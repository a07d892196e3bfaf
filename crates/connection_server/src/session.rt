//! What serves one connection, and what makes that.
ghost use Rattle.std.specs.Prelude.{◌≡◌, IfOk, IfErr};
ghost use Rattle.connection_server.specs.declared.link.Link.{Link as Handed};
ghost use Rattle.connection_server.specs.declared.link.LinkLeft.{LinkLeft as Left};
ghost use Rattle.connection_server.specs.Jobs.{IsSamePort};

use crate::link::{Link, LinkLeft};
use book_port::Twin;
use std::alloc::Global;

/// What serves one connection, once. It has the connection and its port of the book in hand.
///
/// Of what the type parameters of an impl may send to a thread the toolchain knows nothing. A session that starts threads itself
/// has a starter of its own that does so.
pub trait Session<I, O, P: Twin>: Sized {
    /// How a session ends.
    type How;

    /// The connection that it serves.
    ghost link: { Self → Handed I O P };

    /// What it may leave of the connection.
    ghost serves: { Self → Left I O P Self.How → Type 0 };

    /// How a connection ends for which memory was wanting to make a session.
    ghost unserved: { Self.How };

    /// Serves the connection to its end. The port that it hands back is the one that it was handed.
    fn serve(self) -> LinkLeft<I, O, P, Self::How>
        ensures serves { serves self result }
        ensures same { IsSamePort (P.port (link self).port) (P.port result.port) };

    fn no_session() -> Self::How
        ensures { result ≡ unserved };

    /// The number of a port's author.
    fn author(port: &P) -> u32
        ensures { result ≡ (P.port port.now).author };
}

/// What makes the sessions of connections, one after the other. What a session has to know of its port, as which schema the book
/// has, is a fact of the port's own type.
pub trait Sessions<I, O, P: Twin, S: Session<I, O, P>>: Sized {
    /// The sessions that it makes.
    ghost makes: { Self → S → Type 0 };

    /// A session for a connection, which is given back where memory is wanting.
    fn session(&self, alloc: Global, link: Link<I, O, P>) -> Result<S, Link<I, O, P>>
        ensures ok { IfOk result (λ session. makes self.now session × (S.link session ≡ link)) }
        ensures err { IfErr result (λ back. back ≡ link) };
}
