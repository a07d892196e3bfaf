//! Paths: which ones a pattern matches, their order, and their texts, read and written exactly.
//!
//! Start at specs/PathText.antt: which text is which path, with the escapes that keep it on a line. `read_path_text` and
//! `write_path_text` go between the two, and src/laws.rt says that each reads the other back. `matches`, `covers`, `cmp_paths`
//! and `same_path` are base_kinds' definitions of these names (specs/Match.antt and specs/Paths.antt there). A call that wants
//! memory leaves its output as it was.
#![tactic(auto)]

mod escapes;
mod fault;
mod laws;
mod order;
mod patterns;
mod prefix;
mod reading;
mod writing;

pub use fault::PathFault;
pub use laws::{one_path, one_text, one_value, texts_read_back};
pub use order::{cmp_paths, same_path};
pub use patterns::{covers, matches};
pub use prefix::{MOST_PATH_ELEMENTS, join_prefix};
pub use reading::{read_path_text, read_value_text};
pub use writing::{write_path_text, write_value_text};
