//! The journal of a commit log: which octets are one, of which history, and where other octets are
//! damaged.
//!
//! Start at `read_journal` (reading.rt) and at `IsJournal` (specs/Journal.antt), which says of
//! octets that they are a journal of a history. specs/Histories.antt says which histories a journal
//! may hold, specs/laws/Following.antt that what a target judges may be appended. The ledger of
//! commit_journal writes journals on disks.
#![tactic(auto)]

mod gates;
mod header;
mod journal;
mod laws;
mod progress;
mod reading;

pub use gates::{CLOSED_GATE, OPEN_GATE, gates_are_the_formats};
pub use header::write_header;
pub use journal::{Journal, JournalFault};
pub use journal_record::{put_entry, write_entry};
pub use laws::{
    empty_journal, journal_histories_are_sound, journal_length, made_entries_may_follow,
    one_damage, one_history, one_more, worked_journal,
};
pub use reading::read_journal;
