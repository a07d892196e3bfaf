//! A lock that is taken by turns, whose passes know what its value has been.
//!
//! Start at `TurnLock::enter` and `leave` (lock.rt), and at what a pass knows (specs/Passes.antt): who enters finds a value
//! whose list begins with all that he has seen, and holds of his number just what he made. Turns go by tickets over
//! `atomic_table`; its rule is specs/inner/Rule.antt, in four parts: the tickets, the lists, the numbers, and what was seen
//! of their entries. A lock promises nothing of progress: not that a turn comes, nor fairness, nor freedom from deadlock.
#![tactic(auto)]

mod chronicle;
mod lock;
mod steps;
mod view;

pub use chronicle::Chronicle;
pub use lock::{Pass, Spent, TurnLock};
pub use view::{Ended, Ruled, Turn, View};
