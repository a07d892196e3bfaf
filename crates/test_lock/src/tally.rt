// A value that keeps who added to it, in order.
ghost use Rattle.std.specs.Prelude.{◌≡◌, ◌++◌, [], ◌∷◌, MatchBool};

use std::alloc::Global;
use turn_lock::Chronicle;

/// Authors, each with which of its own turns it was.
#[derive(Drop)]
pub(crate) struct Tally {
    pub entries: Vec<(u64, u64)>,
}

impl Chronicle for Tally {
    type Entry = (u64, u64);

    ghost entries = { λ t. t.entries.items };

    ghost author = { λ e. e.0 };

    fn count(&self) -> u64 {
        self.entries.len() as u64
    }
}

impl Tally {
    pub(crate) fn empty(alloc: Global) -> Tally
        ensures { result.entries.items ≡ [] }
    {
        Tally {
            entries: Vec::new(alloc),
        }
    }

    /// Adds an entry, and answers whether memory was there for it.
    pub(crate) fn add(&mut self, author: u64, turn: u64) -> bool
        ensures { MatchBool result
            (self.new.entries.items ≡ self.old.entries.items ++ (author, turn) ∷ [])
            (self.new.entries.items ≡ self.old.entries.items) }
    {
        self.entries.push((author, turn)).is_ok()
    }

    /// Whether the author's entries are those of its turns 0 to this number, in their order.
    pub(crate) fn has_turns_of(&self, author: u64, turns: u64) -> bool {
        let mut next = 0;
        for (other, turn) in self.entries.iter().copied() {
            if other == author {
                if turn != next || next == turns {
                    return false;
                }
                next += 1;
            }
        }
        next == turns
    }
}
