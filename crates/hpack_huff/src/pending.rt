//! The bits that were read and are not yet part of a code.
ghost use Rattle.std.specs.Prelude.{◌≡◌, ◌≤◌, ◌++◌, ◌↔◌, [], length, IsTrue};
ghost use Rattle.hpack_huff.specs.Bits.{bits_of};
ghost use Rattle.hpack_huff.specs.Huffman.{IsPadding};
ghost use Rattle.hpack_huff.specs.inner.Next.{IsNext};

use crate::table::{END_MARK, WINDOW, find};
use std::marker::Model;

// How many bits padding has at most.
const PADDING: u32 = 7;

/// Some bits. Contracts see them as a list.
#[derive(Drop)]
pub struct Pending {
    value: u64,
    count: u32,
}

impl Model for Pending {
    ghost use Rattle.std.specs.Prelude.{List, Bool, ◌<◌, ◌≤◌, ◌^◌};
    ghost use Rattle.hpack_huff.specs.Bits.{bits_of};

    ghost Value = { List Bool };

    ghost view = { λ p. bits_of p.count p.value };

    ghost invariant = { λ p. (p.count ≤ 40) × (p.value < 2 ^ p.count) };
}

/// What stands first among some bits.
#[derive(Clone, Copy)]
pub enum Next {
    Octet(u8),
    EndMark,
    /// No whole code.
    Unfinished,
}

impl Pending {
    pub fn nothing() -> Pending
        ensures { result ≡ [] }
    {
        Pending { value: 0, count: 0 }
    }

    /// Adds the bits of an octet at the end.
    pub fn push(&mut self, octet: u8)
        requires { length self.old ≤ 32 }
        ensures { self.new ≡ self.old ++ bits_of 8 octet }
    {
        self.value = (self.value << 8) + u64::from(octet);
        self.count += 8;
    }

    /// Takes the code that stands first, if it is whole.
    pub fn next(&mut self) -> Next
        ensures { IsNext self.old self.new result }
    {
        let found = find(self.value << (WINDOW - self.count));
        if found.length > self.count {
            return Next::Unfinished;
        }
        self.count -= found.length;
        self.value &= (1 << self.count) - 1;
        if found.symbol == END_MARK {
            Next::EndMark
        } else {
            Next::Octet(found.symbol as u8)
        }
    }

    /// Whether the bits are padding.
    pub fn is_padding(&self) -> bool
        ensures { IsTrue result ↔ IsPadding self.now }
    {
        self.count <= PADDING && self.value == (1 << self.count) - 1
    }
}
