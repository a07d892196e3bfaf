ghost use Rattle.std.specs.Prelude.{◌≡◌, IfOk, IfErr, IsErrOf};
ghost use Rattle.base_kinds.specs.Legal.{IsFit};
ghost use Rattle.book_port.specs.Ports.{SetsOnce, LooksOnce, IsTwin, Meets, CanMeet, knows_all, most_authors};
ghost use Rattle.shared_book.specs.Visits.{IsFirstPort, GivesBack};

use crate::held::HeldBook;
use crate::item::SharedItem;
use base_kinds::{Ask, Paths, Refusal, TreeLike, View};
use book_core::Book;
use book_port::{BookPort, PassFault, Twin};
use disk_model::Disk;
use std::alloc::Global;
use std::marker::Model;
use std::sync::{Arc, Wait};
use turn_lock::{Pass, TurnLock};

/// A port of a book that others reach too. Each call of `set` and `look` waits for its turn, takes one, and gives the book back
/// whether what is asked was accepted or refused.
#[derive(Drop)]
pub struct Visit<D: Disk + Drop, T: TreeLike + Drop, R> {
    rt: R,
    lock: Arc<TurnLock<HeldBook<D, T>>, Global>,
    pass: Pass<HeldBook<D, T>, SharedItem>,
}

impl<D: Disk + Drop, T: TreeLike + Drop, R> Model for Visit<D, T, R> {
    ghost use Rattle.std.specs.Prelude.{◌≡◌};
    ghost use Rattle.std.specs.Coded.{codes};
    ghost use Rattle.std.specs.Arc.{arc_value};
    ghost use Rattle.base_kinds.specs.contracts.value.Value as value;
    ghost use Rattle.book_port.specs.Ports.{PortView};
    ghost use Rattle.turn_lock.specs.Passes.{IsOutside};
    ghost use Rattle.shared_book.specs.Visits.{port_of};
    ghost use Rattle.shared_book.specs.inner.Keeping.{KeepsBook};

    ghost Value = { PortView };

    ghost coded = { Prim.hlevel (codes, value.the_row.coded) };

    ghost view = { λ visit. port_of visit.pass.seat.table_id visit.pass.seat.me.0 };

    ghost invariant = { λ visit.
        (visit.pass.seat.table_id ≡ (arc_value visit.lock).table.shared.table_id)
        × IsOutside visit.pass.seat × KeepsBook visit.pass.seat.me.0 };
}

impl<D: Disk + Drop, T: TreeLike + Drop, R: Drop> Visit<D, T, R> {
    /// A lock round the book, and the first port of it, whose author is 1. The book is handed back for want of memory alone.
    pub fn make(rt: R, alloc: Global, book: Book<D, T>) -> Result<Visit<D, T, R>, Book<D, T>>
        ensures ok { IfOk result (λ visit. IsFirstPort book visit) }
        ensures err { IfErr result (λ back. back ≡ book) }
    {
        let held = HeldBook { book };
        let Ok((lock, mut pass)) = TurnLock::open(alloc, &held) else {
            return Err(held.book);
        };
        match Arc::new(alloc, lock) {
            Ok(lock) => {
                lock.leave(&mut pass, held);
                Ok(Visit { rt, lock, pass })
            }
            Err(_) => Err(held.book),
        }
    }

    /// The number of its author.
    pub fn author(&self) -> u32
        ensures { result ≡ self.now.author }
    {
        self.lock.number(&self.pass)
    }
}

impl<D: Disk + Drop, T: TreeLike + Drop, R: Wait + Clone + Drop> Visit<D, T, R> {
    /// Waits for its turn, and gives the book back for good, with all that was done through its ports. A port of the book that
    /// comes later waits for ever, so whoever ends a book meets all other ports before.
    pub fn finish(self) -> Book<D, T>
        ensures { GivesBack self result }
    {
        let Visit { rt, lock, pass } = self;
        lock.last(&rt, pass).book
    }
}

impl<D: Disk + Drop, T: TreeLike + Drop, R: Wait + Clone + Drop> BookPort for Visit<D, T, R> {
    ghost port = { λ visit. visit };

    fn set(&mut self, alloc: Global, now: u64, ask: Ask) -> Result<u64, Refusal>
        requires { IsFit ask }
        ensures once { SetsOnce self.old now ask result self.new }
    {
        let author = self.lock.number(&self.pass);
        let mut held = self.lock.enter(&self.rt, &mut self.pass);
        let answer = held.set(alloc, now, author, ask);
        self.lock.leave(&mut self.pass, held);
        answer
    }

    fn look(&mut self, alloc: Global, now: u64, patterns: &Paths) -> Result<View, Refusal>
        ensures once { LooksOnce self.old now patterns.now result self.new }
    {
        let author = self.lock.number(&self.pass);
        let mut held = self.lock.enter(&self.rt, &mut self.pass);
        let answer = held.look(alloc, now, author, patterns);
        self.lock.leave(&mut self.pass, held);
        answer
    }
}

impl<D: Disk + Drop, T: TreeLike + Drop, R: Wait + Clone + Drop> Twin for Visit<D, T, R> {
    fn twin(&mut self) -> Result<Visit<D, T, R>, PassFault>
        ensures ok { IfOk result (λ twin. IsTwin self.old self.new twin) }
        ensures spent { IsErrOf result PassFault.Spent → self.new ≡ knows_all self.old }
        ensures memory { IsErrOf result PassFault.NoMemory → self.new ≡ self.old }
        ensures always { self.old.known ≡ most_authors → IfOk result (λ _. ⊥) }
    {
        let Ok(lock) = Arc::try_clone(&self.lock) else {
            return Err(PassFault::NoMemory);
        };
        let Ok(rt) = self.rt.clone() else {
            return Err(PassFault::NoMemory);
        };
        let Ok(pass) = self.lock.split(&self.rt, &mut self.pass) else {
            return Err(PassFault::Spent);
        };
        Ok(Visit { rt, lock, pass })
    }

    fn meet(&mut self, other: Visit<D, T, R>)
        requires { CanMeet self.old other }
        ensures { Meets self.old other self.new }
    {
        let Visit {
            rt: _,
            lock: _,
            pass,
        } = other;
        self.lock.join(&mut self.pass, pass);
    }
}
