//! The plain types of gNMI's messages that the configuration side has no use for: a path as a message has it, encodings, what
//! a Get and a Subscribe ask, and what a stream says.
//!
//! Start at src/ask.rt, what a Get and a Subscribe ask; src/reply.rt is what a stream says, src/path.rt a path as a message has
//! it. Those that both sides use (`UnresolvedSet`, `SubLine`, `Note` and the like) stand in base_kinds.
#![tactic(auto)]

mod ask;
mod path;
mod reply;

pub use ask::{Encoding, GetAsk, SubAsk};
pub use path::GnmiPath;
pub use reply::{SubReplies, SubReply};
