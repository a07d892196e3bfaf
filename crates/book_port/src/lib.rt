//! A book as one author reaches it: the port through which sessions set and look, and what holds of the history that they find.
//!
//! Start at `BookPort` (port.rt) and at what contracts see of a port (specs/Ports.antt). specs/Chronicles.antt has the one list
//! that history and marks are read off, specs/Answers.antt what a Set and a look are answered, specs/Opened.antt what an opening
//! gives, specs/Follows.antt how an author's turns stand in a history that others share. The book itself is book_core.
#![tactic(auto)]

mod happening;
mod laws;
mod port;

pub use happening::Happening;
pub use laws::{
    answers_move_with_the_clock, chronicles_are_counted, reopened_histories_are_closed, runs_go_on,
    turns_are_taken, turns_follow, twins_have_their_own_authors,
};
pub use port::{BookPort, PassFault, Twin};
