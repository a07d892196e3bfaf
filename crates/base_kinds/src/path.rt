use base_lists::{Copied, NoMemory, Same, Seq, Text};
use std::alloc::Global;

/// The keys of a path element, as pairs of name and value, rising by name and distinct (gNMI path conventions 2.2.1).
pub type Keys = Seq<(Text, Text)>;

/// One element of a path. In a pattern the names `*` and `...` and the key value `*` are wildcards.
///
/// Elements compare by name, and then by their keys, pair by pair, all as octets.
#[derive(PartialEq, Eq, PartialOrd, Ord, Drop)]
pub struct Elem {
    pub name: Text,
    pub keys: Keys,
}

/// A path from the root. It compares with another element by element, and a front of a path comes before it.
pub type Path = Seq<Elem>;

pub type Paths = Seq<Path>;

impl Copied for Elem {
    fn copy(&self, alloc: Global) -> Result<Elem, NoMemory> {
        let name = self.name.copy(alloc)?;
        let keys = self.keys.copy(alloc)?;
        Ok(Elem { name, keys })
    }
}

impl Same for Elem {
    fn same(&self, other: &Elem) -> bool {
        self.name.same(&other.name) && self.keys.same(&other.keys)
    }
}
