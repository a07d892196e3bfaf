//! Tests of the whole program over files, a disk, streams and a clock in memory, and with the command that serves a connection.
//!
//! Start at `run_with` (host.rt): it is run in one place, since each call of `run` owes that what it is handed may cross threads.
#![tactic(auto)]

#[cfg(test)]
mod host;
#[cfg(test)]
mod journals;
#[cfg(test)]
mod runs;
#[cfg(test)]
mod sessions;
