//! Tests of subscriptions: the plan of a list, the notifications of a stream, what the messages and turns of Subscribe calls say over a
//! book, and a whole run of a stream's worker over a book and a wire in memory.
//!
//! `reference` is a slow stream that follows the definitions.
#![tactic(auto)]

#[cfg(test)]
mod books;
#[cfg(test)]
mod histories;
#[cfg(test)]
mod plain_lists;
#[cfg(test)]
mod plans;
#[cfg(test)]
mod reference;
#[cfg(test)]
mod streams;
#[cfg(test)]
mod subscribe_messages;
#[cfg(test)]
mod subscribe_turns;
#[cfg(test)]
mod worker_runs;
