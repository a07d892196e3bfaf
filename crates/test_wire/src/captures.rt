//! What real clients send, and what each of their frames says.
use crate::saying::Says;
use test_captures::{
    GRPCIO_CAPABILITIES, GRPCIO_GET, GRPCIO_SET, GRPCIO_SET_TWO, GRPCIO_SUBSCRIBE, NGHTTP_SET,
};

/// What a client sends from its beginning, and what its frames say.
pub(crate) struct Capture {
    pub(crate) octets: &'static [u8],
    pub(crate) says: &'static [Says],
}

pub(crate) const CAPTURES: &[Capture] = &[
    Capture {
        octets: GRPCIO_CAPABILITIES,
        says: &[
            Says::Settings(4194303, false),
            Says::SettingsAck,
            Says::Call(1, 9, false),
            Says::Window(1, 5),
            Says::Piece(1, 5, 5, true),
            Says::Window(0, 4128773),
            Says::Ping(0),
        ],
    },
    Capture {
        octets: GRPCIO_GET,
        says: &[
            Says::Settings(4194303, false),
            Says::SettingsAck,
            Says::Call(1, 9, false),
            Says::Window(1, 5),
            Says::Piece(1, 68, 68, true),
            Says::Window(0, 4128773),
            Says::Ping(0),
        ],
    },
    Capture {
        octets: GRPCIO_SET_TWO,
        says: &[
            Says::Settings(4194303, false),
            Says::SettingsAck,
            Says::Call(1, 9, false),
            Says::Window(1, 5),
            Says::Piece(1, 46, 46, true),
            Says::Window(0, 4128773),
            Says::Ping(0),
            Says::Call(3, 9, false),
            Says::Window(3, 5),
            Says::Piece(3, 46, 46, true),
            Says::Window(0, 8),
            Says::Call(5, 9, false),
            Says::Window(5, 5),
            Says::Piece(5, 46, 46, true),
            Says::Window(0, 8),
            Says::Ping(1),
        ],
    },
    Capture {
        octets: GRPCIO_SET,
        says: &[
            Says::Settings(4194303, false),
            Says::Window(0, 4128768),
            Says::SettingsAck,
            Says::Call(1, 9, false),
            Says::Window(1, 5),
            Says::Piece(1, 81, 81, true),
            Says::Window(0, 5),
            Says::Ping(0),
        ],
    },
    Capture {
        octets: GRPCIO_SUBSCRIBE,
        says: &[
            Says::Settings(4194303, false),
            Says::SettingsAck,
            Says::Call(1, 9, false),
            Says::Piece(1, 15, 15, false),
            Says::Window(0, 4128768),
            Says::Window(1, 58),
            Says::Window(0, 58),
            Says::Ping(0),
            Says::Reset(1),
        ],
    },
    Capture {
        octets: NGHTTP_SET,
        says: &[
            Says::Settings(65535, false),
            Says::Call(13, 10, false),
            Says::Piece(13, 72, 72, true),
            Says::SettingsAck,
            Says::GoAway,
        ],
    },
];
