//! Tests of whole connections over objects in memory, and of the workers of a connection: calls that are handed to them and served to
//! their end, and calls that come back.
//!
//! Start at one_connection.rt, and for workers at worker_calls.rt; worker_connections.rt has the book and the wire that they share.
#![tactic(auto)]

#[cfg(test)]
mod edges;
#[cfg(test)]
mod frames;
#[cfg(test)]
mod one_connection;
#[cfg(test)]
mod served;
#[cfg(test)]
mod streams;
#[cfg(test)]
mod subscribe;
#[cfg(test)]
mod worker_calls;
#[cfg(test)]
mod worker_connections;
