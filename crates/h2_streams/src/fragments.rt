ghost use Rattle.std.specs.Prelude.{◌≡◌, ◌≤◌, ◌+◌, ◌++◌, [], length, nat_lt, OnOk};
ghost use Rattle.h2_streams.specs.Codes.{largest_block};

use base_lists::{Bytes, NoMemory};
use std::alloc::Global;
use std::marker::Model;

const LARGEST_BLOCK: usize = 65_536;

/// The octets of a header block so far, at most 65,536. Contracts see them as a list.
#[derive(Drop)]
pub struct Fragments {
    stored: Bytes,
}

impl Model for Fragments {
    ghost use Rattle.std.specs.Prelude.{ℕ, List, ◌≤◌, length};
    ghost use Rattle.h2_streams.specs.Codes.{largest_block};

    ghost Value = { List ℕ };

    ghost view = { λ f. f.stored };

    ghost invariant = { λ f. length f.stored ≤ largest_block };
}

impl Fragments {
    /// Takes no memory.
    pub fn empty(alloc: Global) -> Fragments
        ensures { result ≡ [] }
    {
        Fragments {
            stored: Bytes::empty(alloc),
        }
    }

    pub fn items(&self) -> &[u8]
        ensures { result.now ≡ self.now }
    {
        self.stored.items()
    }

    pub fn len(&self) -> usize
        ensures length { result ≡ length self.now }
        ensures few { result ≤ 65536 }
    {
        self.stored.len()
    }

    /// Whether a fragment more is more than a block may have.
    pub fn is_too_large_with(&self, fragment: &[u8]) -> bool
        ensures { result ≡ nat_lt largest_block (length self.now + length fragment.now) }
    {
        LARGEST_BLOCK - self.stored.len() < fragment.len()
    }

    /// Adds a fragment.
    pub fn extend(&mut self, fragment: &[u8]) -> Result<(), NoMemory>
        requires { length self.old + length fragment.now ≤ largest_block }
        ensures { OnOk result (self.new ≡ self.old ++ fragment.now) }
    {
        self.stored.extend_from_slice(fragment)
    }
}
