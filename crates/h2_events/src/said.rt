use base_kinds::Refusal;
use base_lists::Bytes;

/// What a port takes for a stream.
#[derive(Drop)]
pub enum Piece {
    /// A message of the reply, without the five octets that gRPC puts before it.
    Message(Bytes),
    /// The end of the call: it is accepted, or refused.
    Finish(Option<Refusal>),
}

/// What may be said on a stream.
#[derive(Drop)]
pub enum Said {
    /// A message of the reply, without the five octets that gRPC puts before it.
    Message(Bytes),
    /// The end of the call: it is accepted, or refused.
    Finish(Option<Refusal>),
    /// An HTTP status in place of an answer of gRPC.
    Status(u16),
}
