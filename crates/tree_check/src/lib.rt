//! Whether a tree is valid under a schema, by six rules (RFC 7950 8.1, narrowed to this project's profile), and small
//! enough.
//!
//! Start at `check` (validity.rt). What it answers is `valid` and `fits` of base_kinds/specs/Valid.antt, whose rules have
//! the numbers at the head of each file: 1 data_nodes.rt, 2 types.rt, 3 list_keys.rt, 4 mandatory.rt, 5 leafref.rt,
//! 6 max_elements.rt. Called by commit_core and book_core.
#![tactic(auto)]

mod data_nodes;
mod fault;
mod leaf;
mod leafref;
mod list_keys;
mod mandatory;
mod max_elements;
mod row_order;
mod shared_prefix;
mod tree_size;
mod types;
mod validity;

pub use fault::CheckFault;
pub use leaf::find_leaf;
pub use leafref::leafrefs_resolve;
pub use list_keys::keys_hold;
pub use mandatory::mandatory_present;
pub use row_order::are_rising;
pub use validity::check;
