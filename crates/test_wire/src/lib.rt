//! Tests of the halves of an HTTP/2 connection: the checks of frames, one row each, what real clients send, and what the sending half
//! writes to a sink in memory after what the receiving half has read.
#![tactic(auto)]

#[cfg(test)]
mod captures;
#[cfg(test)]
mod checks;
#[cfg(test)]
mod halves;
#[cfg(test)]
mod receiving;
#[cfg(test)]
mod saying;
#[cfg(test)]
mod sending;
