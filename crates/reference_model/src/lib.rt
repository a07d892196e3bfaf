//! Slow functions over lists that compute the definitions of base_kinds, each as its definition says: the reference that
//! tests hold faster programs against. It shares no body with them, and so no mistake.
//!
//! Start at `effect` (trees.rt), `step_of` (steps.rt) and `is_valid` (validity.rt), each beside its definition in
//! base_kinds/specs: Tree, Step, Valid. Called by tree_tests and commit_tests alone.
#![tactic(auto)]

mod key_texts;
mod matching;
mod parts;
mod paths;
mod rules;
mod schema;
mod steps;
mod trees;
mod validity;
mod values;
mod worlds;

pub use key_texts::key_text;
pub use matching::{covers, matches};
pub use parts::{is_covered, part_of};
pub use schema::{Node, node_at};
pub use steps::{duration_of, size_of, stamp_of, step_of};
pub use trees::{effect, set_row};
pub use validity::is_valid;
pub use values::has_shape;
pub use worlds::{PlainTrial, PlainWorld, world_after, world_of};
