ghost use Rattle.std.specs.Prelude.{◌≡◌, ◌<◌, [], ◌∷◌, ◌++◌, length, None, IsErrOf};
ghost use Rattle.base_kinds.specs.Legal.{IsFit};
ghost use Rattle.base_kinds.specs.Step.{after_expiry, step};
ghost use Rattle.book_port.specs.Answers.{set_stages, look_stages};
ghost use Rattle.book_port.specs.Chronicles.{Adds, marks_of};
ghost use Rattle.book_port.specs.Opened.{rules_in};
ghost use Rattle.book_port.specs.Ports.{SetsOnce, LooksOnce};
ghost use Rattle.book_core.specs.Calls.{answer_entry};
ghost use Rattle.commit_core.specs.CoreView.{EndsTrial};
ghost use Rattle.book_core.specs.Singles.{SingleView, port_of};
ghost use Rattle.book_core.specs.Uses.{UsesDisk};
ghost use Rattle.book_core.specs.Views.{history_in, most_marks};

use crate::book::Book;
use base_kinds::{Ask, Paths, Refusal, TreeLike, View};
use base_lists::Remembered;
use book_port::BookPort;
use disk_model::Disk;
use std::alloc::Global;
use std::marker::Model;
use std::snapshot::Snapshot;

/// A book that one author alone reaches.
///
/// Its disk is armed before it is made of the book, since a port can't be armed. What the port knows
/// of its own turns ends with it: a port that is made of a book that another one gave back begins
/// anew, without finds, own entries or marks.
#[derive(Drop)]
pub struct Single<D: Disk + Drop, T: TreeLike + Drop> {
    book: Book<D, T>,
    author: u32,
    /// The book as it was when the port was made, and as each turn found it.
    start: Snapshot<Book<D, T>>,
    finds: Remembered<Book<D, T>>,
}

impl<D: Disk + Drop, T: TreeLike + Drop> Model for Single<D, T> {
    ghost use Rattle.std.specs.Coded.{codes};
    ghost use Rattle.base_kinds.specs.contracts.value.Value as value;
    ghost use Rattle.book_core.specs.Singles.{SingleView, IsSingle, single_code};

    ghost Value = { SingleView D };

    ghost coded = { single_code D.code (Prim.hlevel (codes, value.the_row.coded)) };

    ghost view = { λ s. record {
      book = s.book;
      author = s.author;
      start = s.start.value;
      finds = s.finds;
    } };

    ghost invariant = { λ s. IsSingle s.book s.author s.start.value };
}

impl<D: Disk + Drop, T: TreeLike + Drop> Single<D, T> {
    /// A port of this author.
    pub fn make(book: Book<D, T>, author: u32) -> Single<D, T>
        requires { 0 < author }
        ensures { result ≡ record { book = book; author = author; start = book; finds = [] } }
    {
        let start = Snapshot::of(&book);
        Single {
            book,
            author,
            start,
            finds: Remembered::nothing(),
        }
    }

    /// Gives the book back.
    pub fn give(self) -> Book<D, T>
        ensures { result ≡ self.book }
    {
        self.book
    }
}

impl<D: Disk + Drop, T: TreeLike + Drop> BookPort for Single<D, T> {
    ghost use Rattle.book_core.specs.Singles.{port_of};

    ghost port = { port_of D.faults };

    fn set(&mut self, alloc: Global, now: u64, ask: Ask) -> Result<u64, Refusal>
        requires { IsFit ask }
        ensures once { SetsOnce (port_of D.faults self.old) now ask result
            (port_of D.faults self.new) }
        ensures kept { self.new ≡ record self.old {
          book = self.new.book;
          finds = self.old.finds ++ self.old.book ∷ [];
        } }
        ensures adds { Adds self.old.author result self.old.book.chronicle
            self.new.book.chronicle }
        ensures disk { let rules = rules_in self.old.book.opened in
            let h = history_in self.old.book in
            UsesDisk D.told D.faults D.fuse now (set_stages rules h now self.old.author ask)
            (answer_entry (step rules h now self.old.author ask)) result
            self.old.book self.new.book }
        ensures closes { IsErrOf result Refusal.NoMemory
            → length (marks_of self.old.book.chronicle) < most_marks
            → (history_in self.new.book ≡ after_expiry (history_in self.old.book) now)
            × (self.new.book.doubt ≡ None) × (EndsTrial ask → ⊥) }
    {
        self.finds.remember(&self.book);
        self.book.set(alloc, now, self.author, ask)
    }

    fn look(&mut self, alloc: Global, now: u64, patterns: &Paths) -> Result<View, Refusal>
        ensures once { LooksOnce (port_of D.faults self.old) now patterns.now result
            (port_of D.faults self.new) }
        ensures kept { self.new ≡ record self.old {
          book = self.new.book;
          finds = self.old.finds ++ self.old.book ∷ [];
        } }
        ensures adds { Adds self.old.author result self.old.book.chronicle
            self.new.book.chronicle }
        ensures disk { let h = history_in self.old.book in
            UsesDisk D.told D.faults D.fuse now (look_stages h now) None result
            self.old.book self.new.book }
        ensures memory { IsErrOf result Refusal.NoMemory
            → length (marks_of self.old.book.chronicle) < most_marks
            → (history_in self.new.book ≡ after_expiry (history_in self.old.book) now)
            × (self.new.book.doubt ≡ None) }
    {
        self.finds.remember(&self.book);
        self.book.look(alloc, now, self.author, patterns)
    }
}
