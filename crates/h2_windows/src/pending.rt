ghost use Rattle.std.specs.Prelude.{◌≡◌, ◌≤◌, [], length, drop};
ghost use Rattle.h2_windows.specs.Bounds.{largest_pending};

use base_lists::Bytes;
use std::alloc::Global;
use std::marker::Model;

/// Octets that wait to be sent. Contracts see those alone.
#[derive(Drop)]
pub struct Pending {
    octets: Bytes,
    /// How many of them are sent.
    sent: usize,
}

impl Model for Pending {
    ghost use Rattle.std.specs.Prelude.{List, ℕ, drop, length, ◌≤◌};
    ghost use Rattle.h2_windows.specs.Bounds.{HoldsWithin};

    ghost Value = { List ℕ };

    ghost view = { λ p. drop p.sent p.octets };

    ghost invariant = { λ p. HoldsWithin p.sent p.octets };
}

impl Pending {
    /// Takes no memory.
    pub fn none(alloc: Global) -> Pending
        ensures { result ≡ [] }
    {
        Pending {
            octets: Bytes::empty(alloc),
            sent: 0,
        }
    }

    pub fn of(octets: Bytes) -> Pending
        requires { length octets ≤ largest_pending }
        ensures { result ≡ octets }
    {
        Pending { octets, sent: 0 }
    }

    pub fn octets(&self) -> &[u8]
        ensures { result.now ≡ self.now }
    {
        &self.octets.items()[self.sent..]
    }

    /// At most 123,600,005.
    pub fn len(&self) -> usize
        ensures length { result ≡ length self.now }
        ensures bound { result ≤ largest_pending }
    {
        self.octets.len() - self.sent
    }

    /// The first octets are sent.
    pub fn advance(&mut self, count: usize)
        requires { count ≤ length self.old }
        ensures { self.new ≡ drop count self.old }
    {
        let left = self.len() - count;
        self.sent = self.octets.len() - left;
    }
}
