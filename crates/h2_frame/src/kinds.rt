//! Kinds of frames and their flags (RFC 9113 section 6).

/// RFC 9113 section 6.1.
pub const DATA: u8 = 0;

/// RFC 9113 section 6.2.
pub const HEADERS: u8 = 1;

/// RFC 9113 section 6.3.
pub const PRIORITY: u8 = 2;

/// RFC 9113 section 6.4.
pub const RST_STREAM: u8 = 3;

/// RFC 9113 section 6.5.
pub const SETTINGS: u8 = 4;

/// RFC 9113 section 6.6.
pub const PUSH_PROMISE: u8 = 5;

/// RFC 9113 section 6.7.
pub const PING: u8 = 6;

/// RFC 9113 section 6.8.
pub const GOAWAY: u8 = 7;

/// RFC 9113 section 6.9.
pub const WINDOW_UPDATE: u8 = 8;

/// RFC 9113 section 6.10.
pub const CONTINUATION: u8 = 9;

/// Of DATA and HEADERS: nothing follows on the stream.
pub const END_STREAM: u8 = 0x1;

/// Of SETTINGS and PING: an answer.
pub const ACK: u8 = 0x1;

/// Of HEADERS and CONTINUATION: the header block is complete.
pub const END_HEADERS: u8 = 0x4;

/// Of DATA and HEADERS: a length of padding stands first.
pub const PADDED: u8 = 0x8;

/// Of HEADERS: five octets of priority stand before the header block (PRIORITY in section 6.2).
pub const PRIORITY_FLAG: u8 = 0x20;
