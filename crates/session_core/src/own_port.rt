//! A session's port of a book that others have ports of too.
use base_kinds::{Ask, Paths, Refusal, View};
use book_port::BookPort;
use std::alloc::Global;
use std::marker::Model;

/// A port of a book that isn't alone. Contracts see it without what it knows of other ports.
pub(crate) struct OwnPort<P: BookPort> {
    pub(crate) port: P,
}

impl<P: BookPort> Model for OwnPort<P> {
    ghost use Rattle.std.specs.Prelude.{◌≡◌, false};
    ghost use Rattle.std.specs.Coded.{codes};
    ghost use Rattle.base_kinds.specs.contracts.value.Value as value;
    ghost use Rattle.book_port.specs.Ports.{PortView};

    ghost Value = { PortView };

    ghost coded = { Prim.hlevel (codes, value.the_row.coded) };

    ghost view = { λ o. P.port o.port };

    ghost invariant = { λ o. (P.port o.port).is_alone ≡ false };
}

impl<P: BookPort> BookPort for OwnPort<P> {
    ghost use Rattle.stream_workers.specs.Ports.{own_port};

    ghost port = { own_port };

    fn set(&mut self, alloc: Global, now: u64, ask: Ask) -> Result<u64, Refusal> {
        self.port.set(alloc, now, ask)
    }

    fn look(&mut self, alloc: Global, now: u64, patterns: &Paths) -> Result<View, Refusal> {
        self.port.look(alloc, now, patterns)
    }
}
