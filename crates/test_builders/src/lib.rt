//! What tests are made over: a disk with a journal, a book on it, and the numbers of the calls in which an object in memory fails.
//!
//! Each call answers what it makes, or `NoMemory`, so that it needs no leave to end the program: a test adds `.expect(rt, ..)`.
#![tactic(auto)]

mod books;
mod numbers;

pub use books::{book_on, fuse_book, journal_disk, new_book};
pub use numbers::decimals;
