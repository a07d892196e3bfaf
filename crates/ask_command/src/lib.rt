//! The client's program as one call, `ask`, over the words, a dial and an output that it is handed.
//!
//! Start at `ask` (run.rt) and specs/Run.antt, which says what every run is. specs/Words.antt has the forms of the words,
//! specs/Requests.antt what is sent for them, and specs/Printing.antt what is printed.
#![tactic(auto)]

mod answer;
mod ending;
mod printing;
mod request;
mod run;
mod words;

pub use ending::Ending;
pub use request::Request;
pub use run::{AskEnd, ask};
