//! Tests of locks: what the value of a lock that is taken by turns, a book and a wire hold after several threads have used them.
//!
//! Start at `lock_turns`, whose threads share the value of `tally`; `books` has the book of `book_turns`, and `wires` the wire of
//! `wire_turns`.
#![tactic(auto)]

#[cfg(test)]
mod book_turns;
#[cfg(test)]
mod books;
#[cfg(test)]
mod lock_turns;
#[cfg(test)]
mod tally;
#[cfg(test)]
mod wire_turns;
#[cfg(test)]
mod wires;
