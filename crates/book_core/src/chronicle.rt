ghost use Rattle.std.specs.Prelude.{◌≡◌, [], ◌∷◌, ◌++◌};
ghost use Rattle.book_port.specs.Chronicles.{entered};
ghost use Rattle.book_port.specs.declared.happening.Happening.TheVariants.{Entered, Marked};

use base_kinds::Entry;
use std::marker::Model;
use std::snapshot::Snapshot;

/// What was told, the latest in front. Nothing of it is kept at run time.
#[derive(Drop)]
enum Told {
    Nothing,
    Entry(Snapshot<Told>, Snapshot<Entry>),
    Mark(Snapshot<Told>, Snapshot<u32>),
}

/// All that happened to a book, in order. Contracts alone see it, and adding to it takes no memory.
#[derive(Drop)]
pub struct Chronicle {
    told: Told,
}

impl Model for Chronicle {
    ghost use Rattle.std.specs.Prelude.{List};
    ghost use Rattle.std.specs.Coded.{codes};
    ghost use Rattle.base_kinds.specs.contracts.value.Value as value;
    ghost use Rattle.book_port.specs.declared.happening.Happening.{Happening};
    ghost use Rattle.book_core.specs.inner.Tellings.{happenings};

    ghost Value = { List Happening };

    ghost coded = { Prim.hlevel (codes, value.the_row.coded) };

    ghost view = { λ c. happenings c.told };
}

impl Chronicle {
    pub fn empty() -> Chronicle
        ensures { result ≡ [] }
    {
        Chronicle {
            told: Told::Nothing,
        }
    }

    pub fn enter(&mut self, entry: &Entry)
        ensures { self.new ≡ self.old ++ Entered entry.now ∷ [] }
    {
        self.told = Told::Entry(Snapshot::of(&self.told), Snapshot::of(entry));
    }

    pub fn mark(&mut self, author: u32)
        ensures { self.new ≡ self.old ++ Marked author ∷ [] }
    {
        self.told = Told::Mark(Snapshot::of(&self.told), Snapshot::of(&author));
    }
}
