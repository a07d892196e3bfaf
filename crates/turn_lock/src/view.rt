// What a seat at the table knows, and the rule of the table.
use crate::chronicle::Chronicle;
use atomic_table::TableRule;
use std::collections::LinkedList;
use std::snapshot::Snapshot;

/// The part of a view that is about turns.
pub struct Turn {
    /// The pass's number, or 0 before it has one.
    pub number: u64,
    /// The ticket, counted over all draws, so that no two are equal.
    pub ticket: Option<u64>,
    /// The ticket is the one that is served.
    pub own: bool,
    /// The value was found in this turn, and is out.
    pub found: bool,
    /// The slot is at home and holds nothing yet.
    pub hollow: bool,
}

/// A pass that was joined into another, as it was then.
pub struct Ended<E> {
    pub number: u64,
    /// The entries that it had seen when it was made, and those that it had seen by then.
    pub start: LinkedList<E>,
    pub seen: LinkedList<E>,
    /// The entries that each of its turns found.
    pub finds: LinkedList<LinkedList<E>>,
    /// Its own entries.
    pub made: LinkedList<E>,
    /// The entries that the pass had seen into which it was joined.
    pub host_seen: LinkedList<E>,
}

/// What a pass knows, for contracts alone: no value of it is made.
pub struct View<E> {
    pub turn: Turn,
    /// Nothing is known of a view whose pass was joined into another.
    pub live: bool,
    /// The entries with which the lock was made.
    pub first: LinkedList<E>,
    /// The entries that the pass had seen when it was made.
    pub start: LinkedList<E>,
    /// The entries that the pass found or left last, or took over from a pass that had seen more.
    pub seen: LinkedList<E>,
    /// The entries that each of its turns found.
    pub finds: LinkedList<LinkedList<E>>,
    /// Its own entries.
    pub made: LinkedList<E>,
    /// The passes that were joined into it.
    pub ended: LinkedList<Ended<E>>,
    /// So many numbers at least are given out.
    pub known: u64,
}

/// The rule of the lock's table.
///
/// Word 0 is the next ticket and word 1 the one that is served, both modulo 2 to the 64. Word 2 is the length of the
/// value's list, and word 3 the last number that was given out.
pub struct Ruled;

impl<V: Chronicle> TableRule<Option<V>, View<V::Entry>, Snapshot<V>> for Ruled {
    ghost use Rattle.turn_lock.specs.inner.Rule.{KeepsRule};
    ghost use Rattle.turn_lock.specs.Passes.{opening_view};

    ghost holds = { λ key. KeepsRule V.entries V.author (V.entries key.value) };

    ghost first = { λ key. opening_view (V.entries key.value) };
}
