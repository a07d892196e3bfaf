//! The rows that a JSON value means at a node of a schema (RFC 7951).
//!
//! Start at `rows_of` (src/text_rows.rt) and its definition `rows_of` (specs/Rows.antt): the value is read (`data_of`), walked
//! (specs/Walk.antt), and its rows put in the order of their paths. Leaves are in specs/Leaves.antt, members of objects in
//! specs/Members.antt, keys of list entries in specs/Entries.antt. That the walk means what RFC 7951 means is json_text's law
//! `valid_trees_read_back`: what is written of a valid tree is read as its rows.
#![tactic(auto)]

mod entries;
mod fault;
mod laws;
mod leaf_rows;
mod leaves;
mod members;
mod path_order;
mod seen_keys;
mod text_rows;
mod texts;
mod walk;

pub use fault::RowsFault;
pub use laws::{rows_are_fit, rows_rise, values_mean_rows_or_fail};
pub use text_rows::rows_of;
