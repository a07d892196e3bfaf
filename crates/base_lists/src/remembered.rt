ghost use Rattle.std.specs.Prelude.{◌≡◌, [], ◌∷◌, ◌++◌};
ghost use Rattle.base_lists.specs.Remembered.{values};

use std::marker::Model;
use std::snapshot::Snapshot;

/// Values that were there, of which nothing is kept at run time.
#[derive(Drop)]
pub enum Past<T> {
    Nothing,
    After(Snapshot<Past<T>>, Snapshot<T>),
}

/// A list that contracts alone know: at run time none of its values is kept, and adding to it takes no memory.
#[derive(Drop)]
pub struct Remembered<T> {
    past: Past<T>,
}

impl<T> Model for Remembered<T> {
    ghost use Rattle.std.specs.Prelude.{List};
    ghost use Rattle.std.specs.Coded.{coded_list};

    ghost Value = { List T };

    ghost coded = { coded_list T.code };

    ghost use Rattle.base_lists.specs.Remembered.{values};

    ghost view = { λ r. values r.past };
}

impl<T> Past<T> {
    fn after(&self, value: &T) -> Past<T>
        ensures { values result ≡ values self.now ++ value.now ∷ [] }
    {
        Past::After(Snapshot::of(self), Snapshot::of(value))
    }
}

impl<T> Remembered<T> {
    pub fn nothing() -> Remembered<T>
        ensures { result ≡ [] }
    {
        Remembered {
            past: Past::Nothing,
        }
    }
}

impl<T: Drop> Remembered<T> {
    /// Remembers the value that is here now, as the latest.
    pub fn remember(&mut self, value: &T)
        ensures { self.new ≡ self.old ++ value.now ∷ [] }
    {
        self.past = self.past.after(value);
    }
}
