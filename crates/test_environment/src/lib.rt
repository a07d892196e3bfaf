//! Tests of the environment, of its traits and of the real one: octets that are read and written, work that is started, connections in
//! memory and over TCP, and pauses.
#![tactic(auto)]

#[cfg(test)]
mod connections;
#[cfg(test)]
mod doors;
#[cfg(test)]
mod jobs;
#[cfg(test)]
mod pauses;
#[cfg(test)]
mod starters;
#[cfg(test)]
mod streams;
