//! The JSON that the rows of a configuration tree are (RFC 7951).
//!
//! Start at `json_of` (src/trees.rt) and its definition `json_text_of` (specs/Trees.antt); leaves are specs/Leaves.antt.
//! That what is written of a valid tree is read as its rows is the law `valid_trees_read_back` (specs/laws/ValidTrees.antt),
//! over the reading of json_rows.
#![tactic(auto)]

mod laws;
mod leaves;
mod runs;
mod trees;
mod valid_laws;

pub use laws::{leaf_lists_read_back, leaves_read_back, trees_read_back};
pub use leaves::leaf_json;
pub use trees::json_of;
pub use valid_laws::valid_trees_read_back;
