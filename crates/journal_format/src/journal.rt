use base_kinds::{Entries, Limits};

/// What a journal holds.
#[derive(Drop)]
pub struct Journal {
    pub limits: Limits,
    pub entries: Entries,
    /// The place of the closed gate.
    pub gate: u64,
}

#[derive(Clone, Copy, Debug, PartialEq, Eq)]
pub enum JournalFault {
    /// The octets are no journal from this place on.
    Damaged(u64),
    NoMemory,
}
