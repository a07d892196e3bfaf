//! What a Subscribe call asks, once it is accepted: its lines, and the groups of lines that are sent together (gNMI 3.5.1).
//!
//! Start at specs/Plans.antt: when a list is refused, and the plan of one that isn't. Groups.antt says which rows a group has.
#![tactic(auto)]

mod plan;
mod reading;

pub use plan::{Group, GroupSort, Groups, Line, Lines, Plan};
pub use reading::{LEAST_INTERVAL, MOST_SUBSCRIPTIONS, MOST_TARGET_OCTETS, patterns, plan_of};
