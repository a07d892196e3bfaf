//! Tests of the desk over a book on a disk in memory: what real clients sent is answered as gnmi.proto has it, each refusal comes in
//! its order, a Get is answered after the event of the clock, and what is refused changes nothing.
#![tactic(auto)]

#[cfg(test)]
mod calls;
#[cfg(test)]
mod client_tables;
#[cfg(test)]
mod get_tables;
#[cfg(test)]
mod lengths;
#[cfg(test)]
mod runs;
#[cfg(test)]
mod target;
#[cfg(test)]
mod trial_tables;
