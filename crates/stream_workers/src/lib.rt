//! The feeders of a connection: each serves one Subscribe call of mode STREAM in a thread of its own, over twins of the session's
//! ports of the book and of the wire.
//!
//! Start at `Feeders` (feeders.rt), which starts them and ends them. specs/Ports.antt has a session's ports without what they know
//! of others, specs/Feeders.antt what feeders are and what they have done at their end.
#![tactic(auto)]

mod ending;
mod feeders;
mod laws;
mod twins;

pub use feeders::Feeders;
pub use laws::{others_are_feeders, ports_keep_what_is_theirs};
