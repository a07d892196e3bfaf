//! One stream of notifications: what its subscriber has, and which notification comes of a turn (gNMI 3.5.2.3).
//!
//! Start at `Stream`; stream_laws has the definitions that its contracts cite, and what follows from them.
#![tactic(auto)]

mod beats;
mod notes;
mod search;
mod states;
mod stream;
mod walk;

pub use stream::Stream;
