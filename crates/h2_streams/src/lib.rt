//! What the frames of an HTTP/2 client mean to a server (RFC 9113 sections 5, 6 and 8). Start with specs/Meanings.antt, one
//! definition a kind of frame, and specs/Calls.antt, which chains them; `Peer::frame` reads one whole frame.
#![tactic(auto)]

mod control;
mod data;
mod fragments;
mod frame;
mod headers;
mod kind;
mod laws;
mod numbers;
mod payload;
mod peer;
mod request;
mod settings;
mod streams;
mod worked;

pub use control::{Answer, has};
pub use fragments::Fragments;
pub use kind::{Kind, kind_of};
pub use laws::{
    calls_join, frames_decide, highest_of_events, one_outcome, others_stay, sound_events,
};
pub use numbers::{of_4, of_8};
pub use payload::content;
pub use peer::{HeaderBlock, Peer};
pub use settings::{Settings, settings_in};
pub use streams::{Stream, StreamState, Streams};
pub use worked::{
    worked_control_frames, worked_data_frames, worked_first_frames, worked_header_frames,
    worked_request_headers, worked_settings_frames, worked_whole_blocks, worked_window_frames,
};
