//! Tests of connections that are served beside workers, in threads of their own or by the session where their start is refused, and of a
//! gNMI server, whose connections are served beside one another over one book.
//!
//! Start at `worker_sessions` and at `server_sessions`. `worker_served` runs a connection and `server_served` a server, `worker_edges` and
//! `server_edges` have what they run over, `frames` what peers send, `folds` what is read of answers.
#![tactic(auto)]

#[cfg(test)]
mod folds;
#[cfg(test)]
mod frames;
#[cfg(test)]
mod server_edges;
#[cfg(test)]
mod server_served;
#[cfg(test)]
mod server_sessions;
#[cfg(test)]
mod shared;
#[cfg(test)]
mod worker_edges;
#[cfg(test)]
mod worker_served;
#[cfg(test)]
mod worker_sessions;
