//! A port of a book, and the desk that answers under the book's schema.
ghost use Rattle.std.specs.Prelude.{◌≡◌, false, IfOk, IsErrOf};
ghost use Rattle.std.specs.Arc.{arc_value};
ghost use Rattle.base_kinds.specs.Legal.{IsFit};
ghost use Rattle.book_port.specs.Ports.{SetsOnce, LooksOnce, IsTwin, Meets, CanMeet, knows_all, most_authors};

use base_kinds::{Ask, Paths, Refusal, TreeLike, View};
use book_port::{BookPort, PassFault, Twin};
use disk_model::Disk;
use request_desk::Desk;
use shared_book::Visit;
use std::alloc::Global;
use std::marker::Model;
use std::sync::{Arc, Wait};

/// A port that tells the number of its author.
pub trait Numbered: Twin {
    fn author(&self) -> u32
        ensures { result ≡ (Self.port self.now).author };
}

impl<D: Disk + Drop, T: TreeLike + Drop, R: Wait + Clone + Drop> Numbered for Visit<D, T, R> {
    fn author(&self) -> u32 {
        Visit::author(self)
    }
}

/// A port of a book that others have ports of too, with a desk under the schema of that book, which all twins share. Contracts see
/// the port.
#[derive(Drop)]
pub struct DeskPort<P: BookPort> {
    pub(crate) port: P,
    pub(crate) desk: Arc<Desk, Global>,
}

impl<P: BookPort> Model for DeskPort<P> {
    ghost use Rattle.std.specs.Prelude.{◌≡◌, false};
    ghost use Rattle.std.specs.Arc.{arc_value};
    ghost use Rattle.std.specs.Coded.{codes};
    ghost use Rattle.base_kinds.specs.contracts.value.Value as value;
    ghost use Rattle.book_port.specs.Ports.{PortView};

    ghost Value = { PortView };

    ghost coded = { Prim.hlevel (codes, value.the_row.coded) };

    ghost view = { λ d. P.port d.port };

    ghost invariant = { λ d. ((P.port d.port).is_alone ≡ false)
        × ((P.port d.port).opened.schema ≡ arc_value d.desk) };
}

impl<P: BookPort> DeskPort<P> {
    /// Takes no memory.
    pub fn make(port: P, desk: Arc<Desk, Global>) -> DeskPort<P>
        requires shared { (P.port port).is_alone ≡ false }
        requires schema { (P.port port).opened.schema ≡ arc_value desk }
        ensures { result ≡ P.port port }
    {
        DeskPort { port, desk }
    }

    /// Gives the port back, without the desk.
    pub fn give(self) -> P
        ensures { P.port result ≡ self }
    {
        let DeskPort { port, desk: _ } = self;
        port
    }
}

impl<P: Numbered> DeskPort<P> {
    /// The number of its author.
    pub fn author(&self) -> u32
        ensures { result ≡ self.now.author }
    {
        self.port.author()
    }
}

impl<P: BookPort> BookPort for DeskPort<P> {
    ghost port = { λ d. d };

    fn set(&mut self, alloc: Global, now: u64, ask: Ask) -> Result<u64, Refusal> {
        self.port.set(alloc, now, ask)
    }

    fn look(&mut self, alloc: Global, now: u64, patterns: &Paths) -> Result<View, Refusal> {
        self.port.look(alloc, now, patterns)
    }
}

impl<P: Twin + Drop> Twin for DeskPort<P> {
    fn twin(&mut self) -> Result<DeskPort<P>, PassFault> {
        let Ok(desk) = Arc::try_clone(&self.desk) else {
            return Err(PassFault::NoMemory);
        };
        match self.port.twin() {
            Ok(port) => Ok(DeskPort { port, desk }),
            Err(PassFault::Spent) => Err(PassFault::Spent),
            Err(PassFault::NoMemory) => Err(PassFault::NoMemory),
        }
    }

    fn meet(&mut self, other: DeskPort<P>) {
        let DeskPort { port, desk: _ } = other;
        self.port.meet(port);
    }
}
