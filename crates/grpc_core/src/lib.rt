//! gRPC over HTTP/2: messages cut from the octets of a stream, the head of a call, and the headers that end a reply. The
//! source is grpc's PROTOCOL-HTTP2.md. Start with `Splitter::feed` and specs/Messages.antt, which says what the messages of
//! octets are; `head_of` and specs/Heads.antt say which call a header list is, and specs/Replies.antt what is written.
#![tactic(auto)]

mod head;
mod laws;
mod message;
mod method;
mod reply;
mod splitter;

pub use head::{CallHead, head_of};
pub use laws::{
    computed, joined_at_a_cut, least_missing, methods_at_their_paths, one_list, plain_texts,
    short_headers, written_run,
};
pub use message::{SplitFault, Standing, frame_message};
pub use method::Method;
pub use reply::{opening_headers, trailers_of};
pub use splitter::{Messages, Splitter};
