//! What the frames of an HTTP/2 server mean to a client that makes one call at a time (RFC 9113 sections 5, 6 and 8). Start
//! with specs/Meanings.antt, one definition a kind of frame; `Server::frame` reads one whole frame.
#![tactic(auto)]

mod control;
mod data;
mod event;
mod frame;
mod headers;
mod laws;
mod server;
mod worked;

pub use control::Answer;
pub use event::ServerEvent;
pub use laws::one_outcome;
pub use server::{ResponseState, Server};
pub use worked::{worked_control_frames, worked_first_frames, worked_response_frames};
