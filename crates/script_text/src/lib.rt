//! The lines of a script, read exactly.
//!
//! Start at `IsLine` (specs/Grammar.antt): which octets are which line, word by word (specs/Words.antt). `read_line`
//! (src/grammar.rt) reads one, and `next_line` cuts the first off a text (specs/Lines.antt). In which ranges a line's numbers
//! are is specs/Ranges.antt.
#![tactic(auto)]

mod first_word;
mod grammar;
mod keywords;
mod laws;
mod line;
mod line_split;
mod words;

pub use grammar::read_line;
pub use laws::{first_lines_stay, lines_are_in_range, one_meaning};
pub use line::{Line, LineFault};
pub use line_split::next_line;
