ghost use Rattle.std.specs.Prelude.{◌≡◌, [], ◌∷◌, ◌++◌, not, IfOk, IsTrue};
ghost use Rattle.std.specs.List.{list_any};
ghost use Rattle.json_rows.specs.Entries.{same_keys};

use base_kinds::{Copied, Keys, NoMemory};
use base_lists::Remembered;
use std::alloc::Global;
use std::collections::BTreeSet;
use std::marker::Model;

/// The keys of the entries of an array so far, which an ordered set finds.
#[derive(Drop)]
pub(crate) struct SeenKeys {
    index: BTreeSet<Keys>,
    seen: Remembered<Keys>,
}

impl Model for SeenKeys {
    ghost use Rattle.std.specs.Prelude.{List};
    ghost use Rattle.json_rows.specs.Entries.{KeyList};
    ghost use Rattle.json_rows.specs.inner.Indexes.{IsIndexed};

    ghost Value = { List KeyList };

    ghost view = { λ s. s.seen };

    ghost invariant = { λ s. IsIndexed s.index s.seen };
}

impl SeenKeys {
    /// Takes no memory.
    pub(crate) fn empty(alloc: Global) -> SeenKeys
        ensures { result ≡ [] }
    {
        SeenKeys {
            index: BTreeSet::new(alloc),
            seen: Remembered::nothing(),
        }
    }

    /// Adds the keys, and says whether they are other ones than all before.
    pub(crate) fn add(&mut self, alloc: Global, keys: &Keys) -> Result<bool, NoMemory>
        ensures added { IfOk result
            (λ added. added ≡ not (list_any (same_keys keys.now) self.old)) }
        ensures more { IfOk result (λ added. IsTrue added → self.new ≡ self.old ++ keys.now ∷ []) }
    {
        let copy = keys.copy(alloc)?;
        let added = match self.index.insert(copy) {
            Ok(added) => added,
            Err(failed) => {
                drop(failed);
                return Err(NoMemory);
            }
        };
        if added {
            self.seen.remember(keys);
        }
        Ok(added)
    }
}
