//! Windows of HTTP/2 flow control (RFC 9113 sections 5.2 and 6.9), the streams that send within them, and the frames that
//! are written without taking memory. Start with `send_allowed` and specs/Sending.antt; that no window is passed, and that
//! octets wait only where a window is 0 or below, are the laws of laws.rt over specs/Pacing.antt.
#![tactic(auto)]

mod control;
mod frames;
mod holding;
mod laws;
mod pending;
mod sending;
mod stream;
mod streams;
mod window;

pub use control::{
    put_goaway, put_grants, put_greeting, put_ping_ack, put_rst_stream, put_settings_ack,
};
pub use frames::{put_data, put_frame};
pub use holding::held;
pub use laws::{
    frames_fit, paced_after_sending, streams_stay_rising, within_the_connection, within_the_stream,
};
pub use pending::Pending;
pub use sending::send_allowed;
pub use stream::Stream;
pub use streams::{close, grant, initial_passes, is_open, open, place_of, stream_passes};
pub use window::Window;
