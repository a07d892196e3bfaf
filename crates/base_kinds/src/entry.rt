ghost use Rattle.std.specs.Prelude.{◌≡◌, IsTrue, ◌↔◌};
ghost use Rattle.base_kinds.specs.Limits.{AreInRange, default_limits};

use crate::limits::{LEAST_LOG_ENTRIES, LEAST_LOG_OCTETS, MOST_LOG_ENTRIES, MOST_LOG_OCTETS};
use crate::operation::{Ops, Rows};
use base_lists::{Seq, Text};

/// What an entry of the commit log did (gNMI commit-confirmed extension). Deadlines are in nanoseconds since 1970.
#[derive(PartialEq, Drop)]
pub enum Kind {
    /// A plain Set.
    Apply(Ops),
    /// A Set that is undone at its deadline unless it is confirmed: its id, its operations, its deadline.
    Trial(Text, Ops, u64),
    Confirm,
    Cancel,
    /// The trial came to its deadline.
    Expire,
    /// The target was started anew while the trial was open.
    Restart,
    /// The trial has this deadline from now on.
    Extend(u64),
}

/// One entry of the commit log. Author 0 is the target itself; the stamp is in nanoseconds since 1970.
#[derive(PartialEq, Drop)]
pub struct Entry {
    pub number: u64,
    pub author: u32,
    pub stamp: u64,
    pub kind: Kind,
}

pub type Entries = Seq<Entry>;

/// What is asked of the target. Durations are in nanoseconds.
#[derive(Drop)]
pub enum Ask {
    Apply(Ops),
    Trial(Text, Ops, u64),
    Confirm(Text),
    Cancel(Text),
    Extend(Text, u64),
}

/// How long the commit log may get: in entries, and in octets of its journal.
#[derive(Clone, Copy, PartialEq, Eq)]
pub struct Limits {
    pub entries: u32,
    pub octets: u32,
}

/// A part of a tree, and the stamp of the state that it is of.
#[derive(Drop)]
pub struct View {
    pub stamp: u64,
    pub rows: Rows,
}

impl Limits {
    /// Whether a commit log may be made with these limits.
    pub fn in_range(&self) -> bool
        ensures { IsTrue result ↔ AreInRange self.now }
    {
        self.entries >= LEAST_LOG_ENTRIES
            && self.entries <= MOST_LOG_ENTRIES
            && self.octets >= LEAST_LOG_OCTETS
            && self.octets <= MOST_LOG_OCTETS
    }
}

/// The limits of a log for which none are given: the greatest.
pub fn default_limits() -> Limits
    ensures { result ≡ default_limits }
{
    Limits {
        entries: MOST_LOG_ENTRIES,
        octets: MOST_LOG_OCTETS,
    }
}
