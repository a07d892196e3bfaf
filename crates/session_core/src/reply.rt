use crate::served::ServedCalls;
use base_kinds::Refusal;
use base_lists::Bytes;
use subscribe_calls::Messages;

/// What is said to what was asked, or by a turn of a call.
#[derive(Drop)]
pub(crate) enum Reply {
    Of(Result<Bytes, Refusal>),
    /// Messages of a Subscribe call, and whether the call ends with them.
    Say(Messages, bool),
    Http(u16),
    Nothing,
}

/// What is said to a request, and which calls are served then.
#[derive(Drop)]
pub(crate) struct Answered {
    pub(crate) reply: Reply,
    pub(crate) calls: ServedCalls,
}
