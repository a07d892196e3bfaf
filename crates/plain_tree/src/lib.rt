//! A configuration tree kept as the list of its rows, rising by path: the plain program that other trees are compared
//! with.
//!
//! Start at `PlainTree` (plain_tree.rt). Its contract is that of the trait `TreeLike` of base_kinds, in the words of
//! base_kinds/specs/Tree.antt, Parts.antt and Weights.antt. Used by script_run and program as the tree of their cores.
#![tactic(auto)]

mod plain_tree;
mod rows;
mod weights;

pub use plain_tree::PlainTree;
