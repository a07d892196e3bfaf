//! A Set request, resolved by a schema to what it asks of the target (gNMI 3.4).
//!
//! Start at `resolve` (src/resolution.rt) and its definition `resolved` (specs/Resolution.antt): the order of the refusals
//! is the order of its conditions. Operations are in specs/Operations.antt, the values of replaces and updates in
//! specs/ValueRows.antt, the key leaves that paths name in specs/KeyLeaves.antt. The law `refusals_of_requests` lists the
//! refusals that come, and `refusals_have_causes` their causes under a schema that was read; where the rows of operations
//! stand is `rows_belong_to_their_paths`. JSON values are those of json_rows.
#![tactic(auto)]

mod actions;
mod fitness;
mod key_leaves;
mod key_merge;
mod key_values;
mod laws;
mod numbers;
mod operations;
mod resolution;
mod scalars;
mod value_rows;

pub use laws::{
    asks_of_requests, refusals_have_causes, refusals_of_requests, rows_belong_to_their_paths,
};
pub use resolution::resolve;
