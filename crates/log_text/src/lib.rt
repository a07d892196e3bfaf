//! The text of a commit log, with the lines that rows, entries and their operations have in it.
//!
//! Start at `log_text` (specs/Logs.antt), which `put_log` (src/log.rt) adds to its output. `put_rows` adds a line for each row,
//! as a script's answers have them too. A call that wants memory leaves its output as it was.
#![tactic(auto)]

mod log;
mod rows;

pub use log::put_log;
pub use plain_texts::{put_number, put_number_line};
pub use rows::put_rows;
