ghost use Rattle.std.specs.Prelude.{◌≡◌, [], ◌∷◌, ◌++◌, ◌+◌, ◌<◌, ◌≤◌, OnOk, OnErr};

use base_kinds::{Entries, Entry, NoMemory};
use std::alloc::Global;
use std::marker::Model;

/// The entries in order. Contracts see also how many more it has room for, since putting one takes no memory.
#[derive(Drop)]
pub struct Log {
    stored: Vec<Entry>,
}

impl Model for Log {
    ghost use Rattle.std.specs.Prelude.{◌-◌, vec_len, vec_capacity};
    ghost use Rattle.std.specs.Coded.{codes};
    ghost use Rattle.base_kinds.specs.contracts.value.Value as value;
    ghost use Rattle.commit_core.specs.inner.LogView.{LogView};

    ghost Value = { LogView };

    ghost coded = { Prim.hlevel (codes, value.the_row.coded) };

    ghost view = { λ log. record {
      items = log.stored.items;
      room = vec_capacity log.stored - vec_len log.stored;
    } };
}

impl Log {
    pub fn empty(alloc: Global) -> Log
        ensures { result.items ≡ [] }
    {
        Log {
            stored: Vec::new(alloc),
        }
    }

    /// The log of these entries. Takes no memory.
    pub fn of(entries: Entries) -> Log
        ensures { result.items ≡ entries }
    {
        Log {
            stored: entries.into_vec(),
        }
    }

    pub fn items(&self) -> &[Entry]
        ensures { result.now ≡ self.now.items }
    {
        self.stored.as_slice()
    }

    /// The entries. Takes no memory.
    pub fn into_entries(self) -> Entries
        ensures { result ≡ self.items }
    {
        let Log { stored } = self;
        Entries::from_vec(stored)
    }

    /// Takes room for so many more entries, where there is less.
    pub fn reserve(&mut self, more: usize) -> Result<(), NoMemory>
        ensures items { self.new.items ≡ self.old.items }
        ensures ok { OnOk result (more ≤ self.new.room) }
        ensures kept { self.old.room ≤ self.new.room }
        ensures enough { OnErr result (self.old.room < more) }
    {
        if self.stored.capacity() - self.stored.len() >= more {
            return Ok(());
        }
        self.stored.reserve(more)?;
        Ok(())
    }

    /// Takes no memory.
    pub fn put(&mut self, entry: Entry)
        requires { 0 < self.old.room }
        ensures items { self.new.items ≡ self.old.items ++ entry ∷ [] }
        ensures room { self.old.room ≤ self.new.room + 1 }
    {
        self.stored.push(entry).unwrap();
    }
}
