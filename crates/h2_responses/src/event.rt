use base_lists::Bytes;
use hpack_block::Headers;

/// What a frame of the server means for this side. An event on a stream has the stream first.
#[derive(Drop)]
pub enum ServerEvent {
    /// SETTINGS: the server's initial window of a stream after the frame, in octets, and whether the frame has
    /// HEADER_TABLE_SIZE (RFC 9113 section 6.5.2).
    Settings(u32, bool),
    /// SETTINGS with ACK.
    SettingsAck,
    /// PING without ACK, and its eight octets as a number, the highest octet first (section 6.7).
    Ping(u64),
    /// WINDOW_UPDATE: the stream, or 0 for the connection, and the increment in octets (section 6.9).
    Window(u32, u32),
    /// The headers that begin a response, and whether it ends with them (section 8.1).
    Head(u32, Headers, bool),
    /// DATA: its octets without padding, the length of its payload with padding, and END_STREAM (section 6.1). Of a
    /// stream that is over it has no octets, that length, and `true`.
    Piece(u32, Bytes, u32, bool),
    /// The headers that end a response (section 8.1).
    Trailers(u32, Headers),
    /// RST_STREAM on a stream that wasn't over, with its code (section 6.4).
    Reset(u32, u32),
    /// GOAWAY: the last stream that the server takes (section 6.8).
    GoAway(u32),
}
