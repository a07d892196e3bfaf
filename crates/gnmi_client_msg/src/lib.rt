//! The client's halves of gNMI's messages: requests written and responses read.
//!
//! Start at `write_set` and `write_get`, and at what they write: specs/Requests.antt. What responses tell is specs/Replies.antt,
//! with specs/Notifications.antt for a Get and specs/Capabilities.antt; specs/ReadBack.antt says what a target reads of a request,
//! and a client of a response. A CapabilityRequest is no octets at all, so there is no call that writes one.
#![tactic(auto)]

mod capabilities;
mod laws;
mod notes;
mod numbers;
mod parts;
mod replies;
mod requests;

pub use capabilities::{Capabilities, ServedEncoding, ServedModel, read_capabilities};
pub use laws::{
    capabilities_are_read, get_replies_are_read, gets_read_back, set_replies_are_read,
    sets_read_back, spelled_paths_are_texts,
};
pub use notes::Notes;
pub use replies::{read_get_reply, read_set_reply};
pub use requests::{write_get, write_set};
