ghost use Rattle.std.specs.Prelude.{◌≡◌, ◌<◌, None};
ghost use Rattle.base_kinds.specs.Legal.{IsFit};
ghost use Rattle.base_kinds.specs.Step.{step};
ghost use Rattle.book_port.specs.Answers.{AnswersSet, AnswersLook, set_stages, look_stages};
ghost use Rattle.book_port.specs.Chronicles.{Adds};
ghost use Rattle.book_port.specs.Opened.{IsRun, rules_in};
ghost use Rattle.book_core.specs.Calls.{answer_entry};
ghost use Rattle.book_core.specs.Uses.{UsesDisk};
ghost use Rattle.book_core.specs.Views.{history_in};
ghost use Rattle.shared_book.specs.Items.{items_of, item_author};

use crate::item::SharedItem;
use base_kinds::{Ask, Paths, Refusal, TreeLike, View};
use book_core::Book;
use disk_model::Disk;
use std::alloc::Global;
use turn_lock::Chronicle;

/// A book as a turn has it in hand.
#[derive(Drop)]
pub struct HeldBook<D: Disk, T: TreeLike> {
    pub book: Book<D, T>,
}

impl<D: Disk, T: TreeLike + Drop> Chronicle for HeldBook<D, T> {
    type Entry = SharedItem;

    ghost entries = { λ held. items_of held.book };

    ghost author = { item_author };

    fn count(&self) -> u64 {
        self.book.count() + 1
    }
}

impl<D: Disk, T: TreeLike + Drop> HeldBook<D, T> {
    /// The turn of a Set, as `Book::set` answers it. Clause `disk` has the journals that a stop leaves at any moment since the
    /// turn found the book.
    pub fn set(&mut self, alloc: Global, now: u64, author: u32, ask: Ask) -> Result<u64, Refusal>
        requires author { 0 < author }
        requires fit { IsFit ask }
        ensures answer { AnswersSet (rules_in self.old.book.opened) (history_in self.old.book) now
            author ask result (history_in self.new.book) }
        ensures adds { Adds author result self.old.book.chronicle self.new.book.chronicle }
        ensures opened { self.new.book.opened ≡ self.old.book.opened }
        ensures run { IsRun self.old.book.opened (history_in self.old.book) }
        ensures run_on { IsRun self.new.book.opened (history_in self.new.book) }
        ensures disk { let rules = rules_in self.old.book.opened in
            let h = history_in self.old.book in
            UsesDisk D.told D.faults D.fuse now (set_stages rules h now author ask)
            (answer_entry (step rules h now author ask)) result self.old.book self.new.book }
    {
        self.book.set(alloc, now, author, ask)
    }

    /// The turn of a look, as `Book::look` answers it.
    pub fn look(
        &mut self,
        alloc: Global,
        now: u64,
        author: u32,
        patterns: &Paths,
    ) -> Result<View, Refusal>
        requires author { 0 < author }
        ensures answer { AnswersLook (history_in self.old.book) now patterns.now result
            (history_in self.new.book) }
        ensures adds { Adds author result self.old.book.chronicle self.new.book.chronicle }
        ensures opened { self.new.book.opened ≡ self.old.book.opened }
        ensures run { IsRun self.old.book.opened (history_in self.old.book) }
        ensures run_on { IsRun self.new.book.opened (history_in self.new.book) }
        ensures disk { let h = history_in self.old.book in
            UsesDisk D.told D.faults D.fuse now (look_stages h now) None result
            self.old.book self.new.book }
    {
        self.book.look(alloc, now, author, patterns)
    }
}
