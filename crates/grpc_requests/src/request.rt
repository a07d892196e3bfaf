use base_kinds::Refusal;
use base_lists::{Bytes, Seq};
use grpc_core::Method;

/// What comes behind the first message of a Subscribe call.
#[derive(Drop)]
pub enum Later {
    Message(Bytes),
    /// A fault of its messages, for which the call is refused.
    Fault(Refusal),
    /// The peer has ended the call.
    End,
}

/// Something that a call asks for.
#[derive(Drop)]
pub enum Asked {
    /// A unary method, and the message for it.
    Call(Method, Bytes),
    /// The first message of a Subscribe call.
    Subscribe(Bytes),
    Later(Later),
    /// No call of gRPC: it is answered with this HTTP status alone.
    Http(u16),
    Refused(Refusal),
}

/// What is to be answered on a stream.
#[derive(Drop)]
pub struct Request {
    pub stream: u32,
    pub asked: Asked,
}

pub type Requests = Seq<Request>;
