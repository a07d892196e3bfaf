//! The messages of a Get and of Capabilities of gnmi.proto: a GetRequest read, and the two responses written.
//!
//! Start at `read_get`, `write_get_reply` and `write_capabilities`. What a request's octets ask for is specs/Asks.antt, and the
//! responses are specs/Replies.antt; what a reader finds in them is specs/ReadBack.antt. The numbers of the fields stand in one
//! table, specs/Numbers.antt (src/numbers.rt). Of a CapabilityRequest nothing is read, so there is no call for it.
#![tactic(auto)]

mod asking;
mod laws;
mod numbers;
mod replying;

pub use asking::read_get;
pub use laws::{capabilities_read_back, notes_read_back};
pub use replying::{write_capabilities, write_get_reply};
