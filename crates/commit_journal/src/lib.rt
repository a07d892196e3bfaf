//! The ledger: a journal on a disk that takes one entry after the other, each of which is there
//! whole or not at all, wherever a stop comes.
//!
//! Start at `Ledger::append` (ledger.rt): its clauses stand in the order of all calls here, what it
//! needs, what holds after each answer, what a stop leaves, how many calls of the disk it makes.
//! `IsJournalOr` (specs/Images.antt) is what a stop leaves, specs/Writes.antt what is written in
//! which order.
#![tactic(auto)]

mod disk_faults;
mod faults;
mod laws;
mod ledger;
mod opening;

pub use faults::{CreateFault, LedgerFault};
pub use laws::{one_of_more_histories, one_of_two_histories};
pub use ledger::Ledger;
pub use opening::Opening;
