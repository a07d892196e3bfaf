//! The commit core: one history of entries, the tree that it stands for, and the judgement of what comes next.
//!
//! Start at `Core` (history_core.rt) and what callers see of it (specs/CoreView.antt). What `Core::judge` answers is
//! `judge` of base_kinds/specs/Step.antt, ask by ask in judging.rt; the tree after a Set is made and checked in
//! changed_tree.rt, by tree_check. An entry that is taken goes through trial.rt, which keeps the tree from before an open
//! trial; a whole history is gone through in replay.rt. Called by book_core.
#![tactic(auto)]

mod changed_tree;
mod history_core;
mod judging;
mod log;
mod replay;
mod trial;

pub use history_core::Core;
