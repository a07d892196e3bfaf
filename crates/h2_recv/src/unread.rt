ghost use Rattle.std.specs.Prelude.{◌≡◌, ◌↔◌, [], ◌++◌, length, IsTrue, OnOk, OnErr};

use base_lists::NoMemory;
use std::alloc::Global;
use std::marker::Model;

/// The octets of a frame that isn't whole. Contracts see them as a list. Its memory is kept for the next frame.
#[derive(Drop)]
pub struct Unread {
    stored: Vec<u8>,
}

impl Model for Unread {
    ghost use Rattle.std.specs.Prelude.{ℕ, List};

    ghost Value = { List ℕ };

    ghost view = { λ u. u.stored.items };
}

impl Unread {
    /// Takes no memory.
    pub(crate) fn empty(alloc: Global) -> Unread
        ensures { result ≡ [] }
    {
        Unread {
            stored: Vec::new(alloc),
        }
    }

    pub fn items(&self) -> &[u8]
        ensures { result.now ≡ self.now }
    {
        self.stored.as_slice()
    }

    pub fn len(&self) -> usize
        ensures { result ≡ length self.now }
    {
        self.stored.len()
    }

    pub fn is_empty(&self) -> bool
        ensures { IsTrue result ↔ (self.now ≡ []) }
    {
        self.stored.is_empty()
    }

    pub(crate) fn extend(&mut self, octets: &[u8]) -> Result<(), NoMemory>
        ensures ok { OnOk result (self.new ≡ self.old ++ octets.now) }
        ensures err { OnErr result (self.new ≡ self.old) }
    {
        self.stored.extend_from_slice(octets)?;
        Ok(())
    }

    pub(crate) fn clear(&mut self)
        ensures { self.new ≡ [] }
    {
        self.stored.clear();
    }
}
