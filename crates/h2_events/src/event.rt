ghost use Rattle.std.specs.Prelude.{◌≡◌};

use base_lists::{Bytes, NoMemory, Seq};
use hpack_block::Headers;

/// What a frame of the peer means for this side. An event on a stream has the stream first.
#[derive(Drop)]
pub enum RecvEvent {
    /// SETTINGS: the peer's initial window of a stream after the frame, in octets, and whether the frame has
    /// HEADER_TABLE_SIZE (RFC 9113 section 6.5.2).
    Settings(u32, bool),
    /// SETTINGS with ACK.
    SettingsAck,
    /// PING without ACK, and its eight octets as a number, the highest octet first (section 6.7).
    Ping(u64),
    /// WINDOW_UPDATE: the stream, or 0 for the connection, and the increment in octets (section 6.9).
    Window(u32, u32),
    /// The headers that opened a stream, and whether the peer ended the stream with them.
    Call(u32, Headers, bool),
    /// A stream was opened with a list of headers that is longer than this side takes (section 6.5.2).
    TooLong(u32),
    /// DATA: its octets without padding, the length of its payload with padding, and END_STREAM (section 6.1). Of a
    /// closed stream it has no octets, that length, and `true`.
    Piece(u32, Bytes, u32, bool),
    /// Headers that ended a stream behind its DATA (section 8.1).
    Trailers(u32),
    /// RST_STREAM on a stream that wasn't closed (section 6.4).
    Reset(u32),
    /// A stream error, which this side answers with RST_STREAM, and its code (section 5.4.2).
    StreamFault(u32, u32),
    /// GOAWAY (section 6.8).
    GoAway,
}

/// Events, in the order of their frames.
pub type RecvEvents = Seq<RecvEvent>;

/// Why no further frame is read.
#[derive(Clone, Copy, Debug, PartialEq, Eq)]
pub enum RecvFault {
    /// A connection error, with its code (RFC 9113 section 5.4.1).
    Protocol(u32),
    NoMemory,
}

impl From<NoMemory> for RecvFault {
    ghost use Rattle.h2_events.specs.declared.event.RecvFault.TheVariants.{NoMemory as OutOfMemory};

    ghost from_gives = { λ _ fault. fault ≡ OutOfMemory };

    fn from(_fault: NoMemory) -> RecvFault {
        RecvFault::NoMemory
    }
}
