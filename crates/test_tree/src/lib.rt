//! Tests of trees and of the commit core: the reference model, trees compared with it over operations that a fixed generator makes,
//! the six rules of validity, single Sets and their limits, and trials from the Set that begins one to what ends it.
//!
//! Start at the tables: of the reference model in model.rt, of whole trees in validity.rt, of three rules by themselves in rules.rt,
//! and in trials.rt, where a line is a request at a reading of the clock, and its answer.
#![tactic(auto)]

#[cfg(test)]
mod builders;
#[cfg(test)]
mod commits;
#[cfg(test)]
mod compared;
#[cfg(test)]
mod generated_events;
#[cfg(test)]
mod generator;
#[cfg(test)]
mod kinds;
#[cfg(test)]
mod limits;
#[cfg(test)]
mod model;
#[cfg(test)]
mod rules;
#[cfg(test)]
mod short_paths;
#[cfg(test)]
mod trials;
#[cfg(test)]
mod validity;
