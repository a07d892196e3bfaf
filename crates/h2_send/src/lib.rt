//! The sending half of an HTTP/2 connection (RFC 9113): what this side writes for each event and for what is said on a
//! stream, within the peer's windows. Start with `Wire` and specs/Wires.antt; what an event tells is specs/Lines.antt, and
//! what is written for an input specs/Acting.antt. What goes out of what was said on a stream are the laws `data_of_streams`
//! and `frames_of_streams`. `WirePort` (specs/Port.antt) is the port by which messages are given. The HEADERS frames of
//! replies (RFC 9113 6.2; gRPC over HTTP/2, "Responses") are specs/Headers.antt: `opening` before a first message, `ending`
//! at the end of a stream, `status_answer` for a status of HTTP in place of an answer.
#![tactic(auto)]

mod condition;
mod connection;
mod fault;
mod gathered;
mod given;
mod laws;
mod offers;
mod port;
mod replies;
mod reply_block;
mod reply_laws;
mod wire;

pub use condition::Condition;
pub use fault::WireFaultOut;
pub use given::Given;
pub use laws::{
    data_of_streams, frames_of_inputs_fit, frames_of_streams, lines_go_on, lines_of_inputs,
    octets_kept_back, offers_and_their_answers, order_of_inputs, outputs_go_on,
    paced_after_each_input, ports_go_on, streams_that_something_can_be_said_on, windows_kept,
    windows_of_orders,
};
pub use port::{Port, WirePort};
pub use replies::{ending, opening, status_answer};
pub use reply_laws::{replies_fit, replies_of_http};
pub use wire::Wire;
