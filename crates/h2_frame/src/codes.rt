//! Error codes (RFC 9113 section 7).

/// No error: a graceful end.
pub const NO_ERROR: u32 = 0;

/// The peer broke the protocol in a way that no other code says.
pub const PROTOCOL_ERROR: u32 = 1;

/// Something went wrong on this side.
pub const INTERNAL_ERROR: u32 = 2;

/// More was sent than a window allows, or a window was made too large.
pub const FLOW_CONTROL_ERROR: u32 = 3;

/// Settings weren't acknowledged in time.
pub const SETTINGS_TIMEOUT: u32 = 4;

/// A frame for a stream that is half closed or closed.
pub const STREAM_CLOSED: u32 = 5;

/// A frame whose length its kind, or the largest size, forbids.
pub const FRAME_SIZE_ERROR: u32 = 6;

/// A stream on which nothing was done yet.
pub const REFUSED_STREAM: u32 = 7;

/// The stream is no longer needed.
pub const CANCEL: u32 = 8;

/// A header block that can't be decoded.
pub const COMPRESSION_ERROR: u32 = 9;

/// The connection of a CONNECT request failed.
pub const CONNECT_ERROR: u32 = 10;

/// The peer asks for too much.
pub const ENHANCE_YOUR_CALM: u32 = 11;

/// The transport isn't secure enough.
pub const INADEQUATE_SECURITY: u32 = 12;

/// HTTP/1.1 is wanted.
pub const HTTP_1_1_REQUIRED: u32 = 13;
