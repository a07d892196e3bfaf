// Whether an entry may follow those that were read.
ghost use Rattle.std.specs.Prelude.{◌≡◌, ◌+◌, ◌^◌, ◌<◌, ◌≤◌, []};
ghost use Rattle.base_kinds.specs.Limits.{AreInRange, closing_octets};
ghost use Rattle.journal_format.specs.Histories.{is_author_of, happens, is_fit_deadline};
ghost use Rattle.journal_format.specs.inner.Progress.{Summarizes, IsWithinLimits, opens, is_fit_but_for_ops, is_later, may_happen, with_entry, has_so_much_room, leaves_room, follow};

use base_kinds::{
    CLOSING_OCTETS, EMPTY_LOG_OCTETS, Entry, GATE_OCTETS, Kind, LATEST_READING, LONGEST_DURATION,
    Limits, SHORTEST_DURATION, is_fit_id,
};

/// What is known of the entries that were read.
#[derive(Clone, Copy)]
pub(crate) struct Progress {
    pub count: u64,
    pub stamp: u64,
    pub is_open: bool,
    /// The octets up to and with the closed gate.
    pub octets: u64,
}

impl Progress {
    pub(crate) fn start() -> Progress
        ensures { Summarizes result [] }
    {
        Progress {
            count: 0,
            stamp: 0,
            is_open: false,
            octets: EMPTY_LOG_OCTETS,
        }
    }

    /// The place of the gate behind the entries.
    pub(crate) fn gate(&self) -> u64
        requires { 1 ≤ self.now.octets }
        ensures { result + 1 ≡ self.now.octets }
    {
        self.octets - 1
    }
}

fn opens(kind: &Kind) -> bool
    ensures { result ≡ opens kind.now }
{
    match kind {
        Kind::Trial(_, _, _) | Kind::Extend(_) => true,
        Kind::Apply(_) | Kind::Confirm | Kind::Cancel | Kind::Expire | Kind::Restart => false,
    }
}

fn is_author_of(kind: &Kind, author: u32) -> bool
    ensures { result ≡ is_author_of kind.now author }
{
    match kind {
        Kind::Expire | Kind::Restart => author == 0,
        Kind::Apply(_) | Kind::Trial(_, _, _) | Kind::Confirm | Kind::Cancel | Kind::Extend(_) => {
            author >= 1
        }
    }
}

fn happens(kind: &Kind, open_before: bool) -> bool
    ensures { result ≡ happens kind.now open_before }
{
    match kind {
        Kind::Apply(_) | Kind::Trial(_, _, _) => !open_before,
        Kind::Confirm | Kind::Cancel | Kind::Expire | Kind::Restart | Kind::Extend(_) => {
            open_before
        }
    }
}

fn is_fit_deadline(stamp: u64, deadline: u64) -> bool
    ensures { result ≡ is_fit_deadline stamp deadline }
{
    let duration = deadline.saturating_sub(stamp);
    duration >= SHORTEST_DURATION && duration <= LONGEST_DURATION
}

fn is_fit_but_for_ops(stamp: u64, kind: &Kind) -> bool
    ensures { result ≡ is_fit_but_for_ops stamp kind.now }
{
    match kind {
        Kind::Trial(id, _, deadline) => is_fit_id(id) && is_fit_deadline(stamp, *deadline),
        Kind::Extend(deadline) => is_fit_deadline(stamp, *deadline),
        Kind::Apply(_) | Kind::Confirm | Kind::Cancel | Kind::Expire | Kind::Restart => true,
    }
}

fn is_later(stamp: u64, entry: &Entry) -> bool
    requires { entry.now.number < 2 ^ 33 }
    ensures { result ≡ is_later stamp entry.now }
{
    entry.stamp > stamp && entry.stamp <= LATEST_READING + entry.number
}

fn may_happen(so_far: &Progress, entry: &Entry) -> bool
    requires { entry.now.number < 2 ^ 33 }
    ensures { result ≡ may_happen so_far.now entry.now }
{
    is_later(so_far.stamp, entry)
        && is_author_of(&entry.kind, entry.author)
        && happens(&entry.kind, so_far.is_open)
        && is_fit_but_for_ops(entry.stamp, &entry.kind)
}

fn has_so_much_room(limits: &Limits, so_far: &Progress, entries: u64, octets: u64) -> bool
    requires entries_fit { so_far.now.count + entries < 2 ^ 64 }
    requires octets_fit { so_far.now.octets + octets < 2 ^ 64 }
    ensures { result ≡ has_so_much_room limits.now so_far.now entries octets }
{
    so_far.count + entries <= u64::from(limits.entries)
        && so_far.octets + octets <= u64::from(limits.octets)
}

fn leaves_room(limits: &Limits, so_far: &Progress) -> bool
    requires entries_fit { so_far.now.count + 1 < 2 ^ 64 }
    requires octets_fit { so_far.now.octets + closing_octets < 2 ^ 64 }
    ensures { result ≡ leaves_room limits.now so_far.now }
{
    if so_far.is_open {
        has_so_much_room(limits, so_far, 1, CLOSING_OCTETS)
    } else {
        has_so_much_room(limits, so_far, 0, 0)
    }
}

/// What is known with the entry, whose record has so many octets, if it may follow.
pub(crate) fn follow(
    limits: &Limits,
    so_far: &Progress,
    entry: &Entry,
    octets: usize,
) -> Option<Progress>
    requires in_range { AreInRange limits.now }
    requires within { IsWithinLimits limits.now so_far.now }
    requires number { entry.now.number ≡ so_far.now.count + 1 }
    ensures { result ≡ follow limits.now so_far.now entry.now octets }
{
    if octets > limits.octets as usize {
        return None;
    }
    let next = Progress {
        count: so_far.count + 1,
        stamp: entry.stamp,
        is_open: opens(&entry.kind),
        octets: so_far.octets + GATE_OCTETS + octets as u64,
    };
    if may_happen(so_far, entry) && leaves_room(limits, &next) {
        Some(next)
    } else {
        None
    }
}
