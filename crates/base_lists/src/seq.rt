ghost use Rattle.std.specs.Prelude.{◌≡◌, [], ◌∷◌, ◌++◌, length, slice_get, ◌↔◌, IsTrue, IfOk, OnOk, OnErr};
ghost use Rattle.std.specs.Option.{option_copied};

use crate::no_memory::NoMemory;
use std::alloc::Global;
use std::marker::Model;

/// A list of items in one block of memory. Contracts see the list alone, and no capacity.
#[derive(Debug, Drop)]
pub struct Seq<T> {
    stored: Vec<T>,
}

impl<T> Model for Seq<T> {
    ghost use Rattle.std.specs.Prelude.{List};
    ghost use Rattle.std.specs.Coded.{coded_list};

    ghost Value = { List T };

    ghost coded = { coded_list T.code };

    ghost view = { λ s. s.stored.items };
}

/// A value that can be copied, where memory allows.
pub trait Copied {
    fn copy(&self, alloc: Global) -> Result<Self, NoMemory>
        ensures { IfOk result (λ c. c ≡ self.now) };
}

/// A value that can be compared whole.
pub trait Same {
    fn same(&self, other: &Self) -> bool
        ensures { IsTrue result ↔ (self.now ≡ other.now) };
}

impl<T> Seq<T> {
    /// Takes no memory.
    pub fn empty(alloc: Global) -> Seq<T>
        ensures { result ≡ [] }
    {
        Seq {
            stored: Vec::new(alloc),
        }
    }

    /// Takes no memory.
    pub fn from_vec(stored: Vec<T>) -> Seq<T>
        ensures { result ≡ stored.items }
    {
        Seq { stored }
    }

    /// Takes no memory.
    pub fn into_vec(self) -> Vec<T>
        ensures { result.items ≡ self }
    {
        let Seq { stored } = self;
        stored
    }

    pub fn items(&self) -> &[T]
        ensures { result.now ≡ self.now }
    {
        self.stored.as_slice()
    }

    pub fn len(&self) -> usize
        ensures { result ≡ length self.now }
    {
        self.stored.len()
    }

    pub fn is_empty(&self) -> bool
        ensures { IsTrue result ↔ (self.now ≡ []) }
    {
        self.stored.is_empty()
    }

    pub fn get(&self, at: usize) -> Option<&T>
        ensures { option_copied result ≡ slice_get self.now at }
    {
        self.stored.get(at)
    }
}

impl<T: Drop> Seq<T> {
    pub fn push(&mut self, item: T) -> Result<(), NoMemory>
        ensures ok { OnOk result (self.new ≡ self.old ++ item ∷ []) }
        ensures err { OnErr result (self.new ≡ self.old) }
    {
        self.stored.push(item)?;
        Ok(())
    }
}

impl<T: Copy> Seq<T> {
    /// Copies of these items.
    pub fn of(alloc: Global, items: &[T]) -> Result<Seq<T>, NoMemory>
        ensures { IfOk result (λ list. list ≡ items.now) }
    {
        let mut list = Seq::empty(alloc);
        list.extend_from_slice(items)?;
        Ok(list)
    }

    /// Adds copies of these items at the end.
    pub fn extend_from_slice(&mut self, items: &[T]) -> Result<(), NoMemory>
        ensures ok { OnOk result (self.new ≡ self.old ++ items.now) }
        ensures err { OnErr result (self.new ≡ self.old) }
    {
        self.stored.extend_from_slice(items)?;
        Ok(())
    }
}

impl<T: Copied + Drop> Seq<T> {
    /// Adds a copy of the item at the end.
    pub fn push_copy(&mut self, alloc: Global, item: &T) -> Result<(), NoMemory>
        ensures ok { OnOk result (self.new ≡ self.old ++ item.now ∷ []) }
        ensures err { OnErr result (self.new ≡ self.old) }
    {
        match item.copy(alloc) {
            Ok(copy) => self.push(copy),
            Err(NoMemory) => Err(NoMemory),
        }
    }

    /// Adds copies of these items at the end. After an `Err` some of them may stand there.
    pub fn push_copies(&mut self, alloc: Global, items: &[T]) -> Result<(), NoMemory>
        ensures { OnOk result (self.new ≡ self.old ++ items.now) }
    {
        for item in items {
            self.push_copy(alloc, item)?;
        }
        Ok(())
    }
}

impl Copied for u8 {
    fn copy(&self, _alloc: Global) -> Result<u8, NoMemory> {
        Ok(*self)
    }
}

impl<A: Copied + Drop, B: Copied> Copied for (A, B) {
    fn copy(&self, alloc: Global) -> Result<(A, B), NoMemory> {
        let first = self.0.copy(alloc)?;
        let second = self.1.copy(alloc)?;
        Ok((first, second))
    }
}

impl<T: Copied + Drop> Copied for Seq<T> {
    fn copy(&self, alloc: Global) -> Result<Seq<T>, NoMemory> {
        let mut stored = Vec::with_capacity(alloc, self.stored.len())?;
        for item in &self.stored {
            stored.push(item.copy(alloc)?)?;
        }
        Ok(Seq { stored })
    }
}

impl Same for u8 {
    fn same(&self, other: &u8) -> bool {
        *self == *other
    }
}

impl<A: Same, B: Same> Same for (A, B) {
    fn same(&self, other: &(A, B)) -> bool {
        self.0.same(&other.0) && self.1.same(&other.1)
    }
}

impl<T: Same> Same for Seq<T> {
    fn same(&self, other: &Seq<T>) -> bool {
        same_items(self.items(), other.items())
    }
}

fn same_items<T: Same>(xs: &[T], ys: &[T]) -> bool
    ensures { IsTrue result ↔ (xs.now ≡ ys.now) }
{
    if xs.len() != ys.len() {
        return false;
    }
    for (i, x) in xs.iter().enumerate() {
        if !x.same(&ys[i]) {
            return false;
        }
    }
    true
}
