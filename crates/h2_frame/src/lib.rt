//! Frames of HTTP/2 (RFC 9113 section 4.1): one is read from the front of octets, and one is written after others.
//! Start with `read_frame`, `write_frame` and specs/Frames.antt. specs/Kinds.antt and specs/ErrorCodes.antt have the
//! numbers of sections 6 and 7, kinds.rt and codes.rt the same as constants. That octets in any pieces are one list of
//! frames are the laws of laws.rt.
#![tactic(auto)]

mod codes;
mod frame;
mod kinds;
mod laws;
mod read;
mod write;

pub use codes::{
    CANCEL, COMPRESSION_ERROR, CONNECT_ERROR, ENHANCE_YOUR_CALM, FLOW_CONTROL_ERROR,
    FRAME_SIZE_ERROR, HTTP_1_1_REQUIRED, INADEQUATE_SECURITY, INTERNAL_ERROR, NO_ERROR,
    PROTOCOL_ERROR, REFUSED_STREAM, SETTINGS_TIMEOUT, STREAM_CLOSED,
};
pub use frame::{Got, Head};
pub use kinds::{
    ACK, CONTINUATION, DATA, END_HEADERS, END_STREAM, GOAWAY, HEADERS, PADDED, PING, PRIORITY,
    PRIORITY_FLAG, PUSH_PROMISE, RST_STREAM, SETTINGS, WINDOW_UPDATE,
};
pub use laws::{
    cut_anywhere, every_run_ends, first_of_the_list, first_then_rest, head_then_payload,
    joined_at_a_cut, least_length, none_begins_another, numbers_of_the_standard, one_list,
    reads_back, worked_frames, written_run,
};
pub use read::read_frame;
pub use write::{head_octets, write_frame};
