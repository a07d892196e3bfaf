use base_lists::Seq;
use subscribe_calls::SubscribeCall;

/// A Subscribe call of mode STREAM or POLL that is served on a stream.
#[derive(Drop)]
pub struct Served {
    pub stream: u32,
    pub call: SubscribeCall,
    /// How many of its Polls wait for their turns.
    pub polls: u32,
    /// Whether the peer has ended the call.
    pub ended: bool,
}

/// The calls that are served, in the order in which they began.
pub type ServedCalls = Seq<Served>;
