//! What the texts of schemas, scripts and logs have in common: names, words, a text cut at a separator, and
//! numbers in decimal.
//!
//! Start at specs/Names.antt, the grammar of a NAME; specs/Splits.antt has a cut, specs/Numbers.antt a number. `is_name`,
//! `Parts`, `cut_before`, `natural_of` and `put_number` are these definitions as functions over octets; `is_word` is
//! plain equality, and `has_text` looks for a text by it.
#![tactic(auto)]

mod names;
mod numbers;
mod splits;
mod words;

pub use names::{has_text, is_in_name, is_name, name_text, text_of};
pub use numbers::{natural_of, put_number, put_number_line};
pub use splits::{Parts, cut_before};
pub use words::is_word;
