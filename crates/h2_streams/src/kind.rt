ghost use Rattle.std.specs.Prelude.{◌≡◌};
ghost use Rattle.h2_streams.specs.Codes.{kind_of};

use h2_frame::{
    CONTINUATION, DATA, GOAWAY, HEADERS, PING, PRIORITY, PUSH_PROMISE, RST_STREAM, SETTINGS,
    WINDOW_UPDATE,
};

/// The kind of a frame (RFC 9113 section 6).
#[derive(Clone, Copy, Debug, PartialEq, Eq)]
pub enum Kind {
    Data,
    Headers,
    Priority,
    RstStream,
    Settings,
    PushPromise,
    Ping,
    GoAway,
    WindowUpdate,
    Continuation,
    Unknown,
}

/// The kind that has this number.
pub fn kind_of(number: u8) -> Kind
    ensures { result ≡ kind_of number }
{
    match number {
        DATA => Kind::Data,
        HEADERS => Kind::Headers,
        PRIORITY => Kind::Priority,
        RST_STREAM => Kind::RstStream,
        SETTINGS => Kind::Settings,
        PUSH_PROMISE => Kind::PushPromise,
        PING => Kind::Ping,
        GOAWAY => Kind::GoAway,
        WINDOW_UPDATE => Kind::WindowUpdate,
        CONTINUATION => Kind::Continuation,
        _ => Kind::Unknown,
    }
}
