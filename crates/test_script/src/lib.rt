//! Tests of scripts: their lines, what they print, the text of the log, and disks that fail and stop.
//!
//! Start at scripts.rt.
#![tactic(auto)]

#[cfg(test)]
mod failures;
#[cfg(test)]
mod lines;
#[cfg(test)]
mod logs;
#[cfg(test)]
mod scripts;
#[cfg(test)]
mod stops;
#[cfg(test)]
mod subscriptions;
#[cfg(test)]
mod trials;
