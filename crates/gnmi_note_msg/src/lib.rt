//! Notifications of gnmi.proto, written from what a stream sends and from a whole value.
//!
//! Start at `write_note` and `write_whole`, and at what they write: specs/Notifications.antt. What the octets of a Notification
//! say is specs/Reading.antt, and `notes_read_back` that those that are written say just what they were written for.
#![tactic(auto)]

mod laws;
mod notes;
mod rows;

pub use laws::notes_read_back;
pub use notes::{write_note, write_whole};
