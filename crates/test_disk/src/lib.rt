//! Tests of disks, of what is kept on them (records of entries, journals and the ledger), and of the book over them.
//!
//! Octets and tables were worked out apart from the program. Of the book book_faults.rt has the calls of the disk that fail, and what
//! the book's calls answer then; book_openings.rt what an opening gives. What a function still holds at its end of disks, ledgers and
//! entries it gives to `drop`, so that its proof need not go through what these are made of.
#![tactic(auto)]

#[cfg(test)]
mod book_calls;
#[cfg(test)]
mod book_faults;
#[cfg(test)]
mod book_openings;
#[cfg(test)]
mod books;
#[cfg(test)]
mod disks;
#[cfg(test)]
mod files;
#[cfg(test)]
mod journals;
#[cfg(test)]
mod ledgers;
#[cfg(test)]
mod lists;
#[cfg(test)]
mod records;
