//! The book: a commit core, and the ledger that keeps its history on a disk, as one. Every answer
//! is given at that one history.
//!
//! Start at `Book::set` (book.rt): an entry is in the journal before anything shows it, and what an
//! append left in doubt is settled before anything else is done. `Book::reopen` (opening.rt) goes
//! on from what a disk has. What callers see is specs/Views.antt; which journals a stop leaves, at
//! any moment of a call, specs/Moments.antt; that they reopen, specs/laws/ReopeningLaws.antt.
//! `Single` (single.rt) is a book that one author alone reaches, as a port.
#![tactic(auto)]

mod book;
mod chronicle;
mod disk_faults;
mod laws;
mod opening;
mod single;

pub use book::{Book, BookEnd};
pub use laws::{books_reopen, doubts_may_stand, endings_want_no_memory, openings_reopen};
pub use opening::BookOpening;
pub use single::Single;
