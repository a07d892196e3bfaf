//! Subscribe calls as they are served: what a turn of one looks up at a port of a book, and the messages that come of it
//! (gNMI 3.5).
//!
//! Start at `SubscribeCall`; specs/Turns.antt says what one turn is, specs/Calls.antt what it says and that the turns of a call are
//! one run of a stream (stream_laws), as the law `calls_go_on` has it.
#![tactic(auto)]

mod call;
mod laws;
mod replies;

pub use call::SubscribeCall;
pub use laws::calls_go_on;
pub use replies::Messages;
