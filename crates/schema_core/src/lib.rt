//! The schema: its data nodes in the order of its text, found by their names.
//!
//! A `Node` has what RFC 7950 calls a data node, a `Schema` the nodes in order: contracts see base_kinds' `SchemaNode` and
//! the list of them. Start at `Schema::find` and `specs/Nodes`; what a schema that was read from a text has besides is
//! `IsWellFormed` of `specs/WellFormed`, its limits are `limits.rt`.
#![tactic(auto)]

mod limits;
mod names;
mod node;
mod schema;
mod steps;
mod wanted;

pub use limits::{MOST_ENUM_TEXTS, MOST_KEYS, MOST_NAMES, MOST_PLACES};
pub use names::{has_just_keys, has_names, own_name, parent_names};
pub use node::{Node, NodeId};
pub use schema::Schema;
pub use steps::steps_have_nodes;
