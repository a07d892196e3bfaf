//! What octets of a client say, one row a check of RFC 9113 sections 3 to 6 and 8.
use crate::saying::Says;

/// What a client has sent before.
#[derive(Clone, Copy)]
pub(crate) enum Before {
    Nothing,
    Preface,
    /// Stream 1 is open, 3 was ended by the client and 5 by this side, 7 is closed, 9 was skipped, 11 is open, and 13 idle.
    Busy,
    /// Likewise, and stream 13 has a header block of so many frames of 64 octets, whose end has not come.
    Block(usize),
    /// The 32 streams from 1 to 63 are open.
    Full,
    /// Stream 13 is open too, and HEADERS with END_STREAM have begun such a block.
    LastBlock(usize),
}

/// A row: what is sent, and what the last of it says.
pub(crate) struct Row {
    pub(crate) before: Before,
    pub(crate) octets: &'static [u8],
    pub(crate) says: Says,
}

pub(crate) const TABLE: &[Row] = &[
    // Another preface, from its first octet on.
    Row {
        before: Before::Nothing,
        octets: b"GET / HTTP/1.1",
        says: Says::Fault(1),
    },
    // Another preface, from its last octet on.
    Row {
        before: Before::Nothing,
        octets: b"PRI * HTTP/2.0\r\n\r\nSM\r\n\r\r",
        says: Says::Fault(1),
    },
    // DATA as the first frame.
    Row {
        before: Before::Preface,
        octets: &[0, 0, 3, 0, 0, 0, 0, 0, 11, 1, 2, 3],
        says: Says::Fault(1),
    },
    // PING as the first frame.
    Row {
        before: Before::Preface,
        octets: &[0, 0, 8, 6, 0, 0, 0, 0, 0, 0, 0, 0, 0, 0, 0, 0, 0],
        says: Says::Fault(1),
    },
    // SETTINGS with ACK as the first frame.
    Row {
        before: Before::Preface,
        octets: &[0, 0, 0, 4, 1, 0, 0, 0, 0],
        says: Says::Fault(1),
    },
    // A first frame that is longer than 16,384 octets.
    Row {
        before: Before::Preface,
        octets: &[0, 0x40, 1, 4],
        says: Says::Fault(6),
    },
    // Longer than 16,384 octets.
    Row {
        before: Before::Busy,
        octets: &[0, 0x40, 1],
        says: Says::Fault(6),
    },
    // DATA on stream 0.
    Row {
        before: Before::Busy,
        octets: &[0, 0, 0, 0, 0, 0, 0, 0, 0],
        says: Says::Fault(1),
    },
    // DATA on an idle stream.
    Row {
        before: Before::Busy,
        octets: &[0, 0, 0, 0, 0, 0, 0, 0, 0xd],
        says: Says::Fault(1),
    },
    // DATA on an even stream.
    Row {
        before: Before::Busy,
        octets: &[0, 0, 0, 0, 0, 0, 0, 0, 2],
        says: Says::Fault(1),
    },
    // DATA without its octet of padding.
    Row {
        before: Before::Busy,
        octets: &[0, 0, 0, 0, 8, 0, 0, 0, 1],
        says: Says::Fault(6),
    },
    // DATA with more padding than octets.
    Row {
        before: Before::Busy,
        octets: &[0, 0, 2, 0, 8, 0, 0, 0, 1, 2, 7],
        says: Says::Fault(1),
    },
    // DATA that is padding alone.
    Row {
        before: Before::Busy,
        octets: &[0, 0, 2, 0, 8, 0, 0, 0, 1, 1, 7],
        says: Says::Piece(1, 0, 2, false),
    },
    // DATA with padding, and END_STREAM.
    Row {
        before: Before::Busy,
        octets: &[0, 0, 4, 0, 9, 0, 0, 0, 1, 1, 7, 8, 0],
        says: Says::Piece(1, 2, 4, true),
    },
    // DATA on a closed stream counts for the connection alone.
    Row {
        before: Before::Busy,
        octets: &[0, 0, 1, 0, 0, 0, 0, 0, 7, 7],
        says: Says::Piece(7, 0, 1, true),
    },
    // DATA on a closed stream without its octet of padding.
    Row {
        before: Before::Busy,
        octets: &[0, 0, 0, 0, 8, 0, 0, 0, 7],
        says: Says::Fault(6),
    },
    // DATA on a closed stream with more padding than octets.
    Row {
        before: Before::Busy,
        octets: &[0, 0, 1, 0, 8, 0, 0, 0, 7, 1],
        says: Says::Fault(1),
    },
    // DATA on a stream that was skipped, likewise.
    Row {
        before: Before::Busy,
        octets: &[0, 0, 1, 0, 0, 0, 0, 0, 9, 7],
        says: Says::Piece(9, 0, 1, true),
    },
    // DATA after END_STREAM.
    Row {
        before: Before::Busy,
        octets: &[0, 0, 1, 0, 0, 0, 0, 0, 3, 7],
        says: Says::StreamFault(3, 5),
    },
    // DATA on a stream that this side has ended.
    Row {
        before: Before::Busy,
        octets: &[0, 0, 1, 0, 0, 0, 0, 0, 5, 7],
        says: Says::Piece(5, 1, 1, false),
    },
    // HEADERS on stream 0.
    Row {
        before: Before::Busy,
        octets: &[0, 0, 3, 1, 5, 0, 0, 0, 0, 0x83, 0x86, 0x84],
        says: Says::Fault(1),
    },
    // HEADERS on an even stream.
    Row {
        before: Before::Busy,
        octets: &[0, 0, 3, 1, 5, 0, 0, 0, 0xe, 0x83, 0x86, 0x84],
        says: Says::Fault(1),
    },
    // HEADERS without their octet of padding.
    Row {
        before: Before::Busy,
        octets: &[0, 0, 0, 1, 0xd, 0, 0, 0, 0xd],
        says: Says::Fault(6),
    },
    // HEADERS without their octets of priority.
    Row {
        before: Before::Busy,
        octets: &[0, 0, 4, 1, 0x25, 0, 0, 0, 0xd, 0, 0, 0, 0],
        says: Says::Fault(6),
    },
    // HEADERS with more padding than octets.
    Row {
        before: Before::Busy,
        octets: &[0, 0, 4, 1, 0xd, 0, 0, 0, 0xd, 4, 0x83, 0x86, 0x84],
        says: Says::Fault(1),
    },
    // HEADERS with padding and priority.
    Row {
        before: Before::Busy,
        octets: &[
            0, 0, 0xb, 1, 0x2d, 0, 0, 0, 0xd, 2, 0, 0, 0, 0, 0, 0x83, 0x86, 0x84, 0, 0,
        ],
        says: Says::Call(13, 3, true),
    },
    // A block that is none: index 0.
    Row {
        before: Before::Busy,
        octets: &[0, 0, 1, 1, 5, 0, 0, 0, 0xd, 0x80],
        says: Says::Fault(9),
    },
    // A size update behind a header.
    Row {
        before: Before::Busy,
        octets: &[0, 0, 4, 1, 5, 0, 0, 0, 0xd, 0x83, 0x86, 0x84, 0x20],
        says: Says::Fault(9),
    },
    // A size update before the first header.
    Row {
        before: Before::Busy,
        octets: &[0, 0, 4, 1, 4, 0, 0, 0, 0xd, 0x20, 0x83, 0x86, 0x84],
        says: Says::Call(13, 3, false),
    },
    // HEADERS on a closed stream.
    Row {
        before: Before::Busy,
        octets: &[0, 0, 3, 1, 5, 0, 0, 0, 7, 0x83, 0x86, 0x84],
        says: Says::Nothing,
    },
    // They are decoded: the next block finds the entry that they have added to the table.
    Row {
        before: Before::Busy,
        octets: &[
            0, 0, 5, 1, 5, 0, 0, 0, 7, 0x40, 1, 0x61, 1, 0x62, 0, 0, 4, 1, 5, 0, 0, 0, 0xd, 0x83,
            0x86, 0x84, 0xbe,
        ],
        says: Says::Call(13, 4, true),
    },
    // HEADERS on a stream that was skipped.
    Row {
        before: Before::Busy,
        octets: &[0, 0, 3, 1, 5, 0, 0, 0, 9, 0x83, 0x86, 0x84],
        says: Says::Nothing,
    },
    // HEADERS after END_STREAM.
    Row {
        before: Before::Busy,
        octets: &[0, 0, 3, 1, 5, 0, 0, 0, 3, 0x83, 0x86, 0x84],
        says: Says::StreamFault(3, 5),
    },
    // HEADERS without END_STREAM on an open stream.
    Row {
        before: Before::Busy,
        octets: &[0, 0, 3, 1, 4, 0, 0, 0, 1, 0x83, 0x86, 0x84],
        says: Says::StreamFault(1, 1),
    },
    // Trailers.
    Row {
        before: Before::Busy,
        octets: &[0, 0, 3, 1, 5, 0, 0, 0, 1, 0x83, 0x86, 0x84],
        says: Says::Trailers(1),
    },
    // HEADERS without END_STREAM on a stream that this side has ended.
    Row {
        before: Before::Busy,
        octets: &[0, 0, 3, 1, 4, 0, 0, 0, 5, 0x83, 0x86, 0x84],
        says: Says::StreamFault(5, 1),
    },
    // Trailers on a stream that this side has ended.
    Row {
        before: Before::Busy,
        octets: &[0, 0, 3, 1, 5, 0, 0, 0, 5, 0x83, 0x86, 0x84],
        says: Says::Trailers(5),
    },
    // No path.
    Row {
        before: Before::Busy,
        octets: &[0, 0, 2, 1, 5, 0, 0, 0, 0xd, 0x83, 0x86],
        says: Says::StreamFault(13, 1),
    },
    // No method.
    Row {
        before: Before::Busy,
        octets: &[0, 0, 2, 1, 5, 0, 0, 0, 0xd, 0x86, 0x84],
        says: Says::StreamFault(13, 1),
    },
    // No scheme.
    Row {
        before: Before::Busy,
        octets: &[0, 0, 2, 1, 5, 0, 0, 0, 0xd, 0x83, 0x84],
        says: Says::StreamFault(13, 1),
    },
    // A malformed request has opened its stream, and it is closed.
    Row {
        before: Before::Busy,
        octets: &[
            0, 0, 2, 1, 4, 0, 0, 0, 0xd, 0x83, 0x86, 0, 0, 1, 0, 0, 0, 0, 0, 0xd, 7,
        ],
        says: Says::Piece(13, 0, 1, true),
    },
    // A method twice.
    Row {
        before: Before::Busy,
        octets: &[0, 0, 4, 1, 5, 0, 0, 0, 0xd, 0x83, 0x86, 0x84, 0x82],
        says: Says::StreamFault(13, 1),
    },
    // A scheme twice.
    Row {
        before: Before::Busy,
        octets: &[0, 0, 4, 1, 5, 0, 0, 0, 0xd, 0x83, 0x86, 0x84, 0x87],
        says: Says::StreamFault(13, 1),
    },
    // A path twice.
    Row {
        before: Before::Busy,
        octets: &[0, 0, 4, 1, 5, 0, 0, 0, 0xd, 0x83, 0x86, 0x84, 0x85],
        says: Says::StreamFault(13, 1),
    },
    // Another pseudo-header.
    Row {
        before: Before::Busy,
        octets: &[0, 0, 4, 1, 5, 0, 0, 0, 0xd, 0x83, 0x86, 0x84, 0x88],
        says: Says::StreamFault(13, 1),
    },
    // Two authorities.
    Row {
        before: Before::Busy,
        octets: &[
            0, 0, 9, 1, 5, 0, 0, 0, 0xd, 0x83, 0x86, 0x84, 1, 1, 0x61, 1, 1, 0x62,
        ],
        says: Says::StreamFault(13, 1),
    },
    // A pseudo-header behind another header.
    Row {
        before: Before::Busy,
        octets: &[
            0, 0, 8, 1, 5, 0, 0, 0, 0xd, 0x83, 0x86, 0, 2, 0x74, 0x65, 0, 0x84,
        ],
        says: Says::StreamFault(13, 1),
    },
    // An upper-case letter in a name.
    Row {
        before: Before::Busy,
        octets: &[
            0, 0, 8, 1, 5, 0, 0, 0, 0xd, 0x83, 0x86, 0x84, 0, 2, 0x74, 0x45, 0,
        ],
        says: Says::StreamFault(13, 1),
    },
    // A header of HTTP/1.1 connections: `upgrade`.
    Row {
        before: Before::Busy,
        octets: &[
            0, 0, 0xd, 1, 5, 0, 0, 0, 0xd, 0x83, 0x86, 0x84, 0, 7, 0x75, 0x70, 0x67, 0x72, 0x61,
            0x64, 0x65, 0,
        ],
        says: Says::StreamFault(13, 1),
    },
    // `connection`.
    Row {
        before: Before::Busy,
        octets: &[
            0, 0, 0x10, 1, 5, 0, 0, 0, 0xd, 0x83, 0x86, 0x84, 0, 0xa, 0x63, 0x6f, 0x6e, 0x6e, 0x65,
            0x63, 0x74, 0x69, 0x6f, 0x6e, 0,
        ],
        says: Says::StreamFault(13, 1),
    },
    // `proxy-connection`.
    Row {
        before: Before::Busy,
        octets: &[
            0, 0, 0x16, 1, 5, 0, 0, 0, 0xd, 0x83, 0x86, 0x84, 0, 0x10, 0x70, 0x72, 0x6f, 0x78,
            0x79, 0x2d, 0x63, 0x6f, 0x6e, 0x6e, 0x65, 0x63, 0x74, 0x69, 0x6f, 0x6e, 0,
        ],
        says: Says::StreamFault(13, 1),
    },
    // `keep-alive`.
    Row {
        before: Before::Busy,
        octets: &[
            0, 0, 0x10, 1, 5, 0, 0, 0, 0xd, 0x83, 0x86, 0x84, 0, 0xa, 0x6b, 0x65, 0x65, 0x70, 0x2d,
            0x61, 0x6c, 0x69, 0x76, 0x65, 0,
        ],
        says: Says::StreamFault(13, 1),
    },
    // `transfer-encoding`.
    Row {
        before: Before::Busy,
        octets: &[
            0, 0, 0x17, 1, 5, 0, 0, 0, 0xd, 0x83, 0x86, 0x84, 0, 0x11, 0x74, 0x72, 0x61, 0x6e,
            0x73, 0x66, 0x65, 0x72, 0x2d, 0x65, 0x6e, 0x63, 0x6f, 0x64, 0x69, 0x6e, 0x67, 0,
        ],
        says: Says::StreamFault(13, 1),
    },
    // te is not looked at.
    Row {
        before: Before::Busy,
        octets: &[
            0, 0, 9, 1, 5, 0, 0, 0, 0xd, 0x83, 0x86, 0x84, 0, 2, 0x74, 0x65, 1, 0x78,
        ],
        says: Says::Call(13, 4, true),
    },
    // PRIORITY on stream 0.
    Row {
        before: Before::Busy,
        octets: &[0, 0, 5, 2, 0, 0, 0, 0, 0, 0, 0, 0, 0, 0],
        says: Says::Fault(1),
    },
    // PRIORITY that has not five octets, on an open stream.
    Row {
        before: Before::Busy,
        octets: &[0, 0, 4, 2, 0, 0, 0, 0, 1, 0, 0, 0, 0],
        says: Says::StreamFault(1, 6),
    },
    // PRIORITY that has not five octets, on an idle stream.
    Row {
        before: Before::Busy,
        octets: &[0, 0, 4, 2, 0, 0, 0, 0, 0xd, 0, 0, 0, 0],
        says: Says::StreamFault(13, 6),
    },
    // The stream may be opened behind that.
    Row {
        before: Before::Busy,
        octets: &[
            0, 0, 4, 2, 0, 0, 0, 0, 0xd, 0, 0, 0, 0, 0, 0, 3, 1, 5, 0, 0, 0, 0xd, 0x83, 0x86, 0x84,
        ],
        says: Says::Call(13, 3, true),
    },
    // PRIORITY.
    Row {
        before: Before::Busy,
        octets: &[0, 0, 5, 2, 0, 0, 0, 0, 0xd, 0, 0, 0, 0, 0],
        says: Says::Nothing,
    },
    // RST_STREAM that has not four octets.
    Row {
        before: Before::Busy,
        octets: &[0, 0, 3, 3, 0, 0, 0, 0, 0xd, 0, 0, 0],
        says: Says::Fault(6),
    },
    // RST_STREAM on stream 0.
    Row {
        before: Before::Busy,
        octets: &[0, 0, 4, 3, 0, 0, 0, 0, 0, 0, 0, 0, 0],
        says: Says::Fault(1),
    },
    // RST_STREAM on an idle stream.
    Row {
        before: Before::Busy,
        octets: &[0, 0, 4, 3, 0, 0, 0, 0, 0xd, 0, 0, 0, 0],
        says: Says::Fault(1),
    },
    // RST_STREAM.
    Row {
        before: Before::Busy,
        octets: &[0, 0, 4, 3, 0, 0, 0, 0, 1, 0, 0, 0, 0],
        says: Says::Reset(1),
    },
    // It closes the stream.
    Row {
        before: Before::Busy,
        octets: &[
            0, 0, 4, 3, 0, 0, 0, 0, 1, 0, 0, 0, 0, 0, 0, 1, 0, 0, 0, 0, 0, 1, 7,
        ],
        says: Says::Piece(1, 0, 1, true),
    },
    // RST_STREAM on a closed stream.
    Row {
        before: Before::Busy,
        octets: &[0, 0, 4, 3, 0, 0, 0, 0, 7, 0, 0, 0, 0],
        says: Says::Nothing,
    },
    // SETTINGS with ACK and a length.
    Row {
        before: Before::Busy,
        octets: &[0, 0, 6, 4, 1, 0, 0, 0, 0, 0, 0, 0, 0, 0, 0],
        says: Says::Fault(6),
    },
    // SETTINGS whose length is no multiple of six.
    Row {
        before: Before::Busy,
        octets: &[0, 0, 5, 4, 0, 0, 0, 0, 1, 0, 0, 0, 0, 0],
        says: Says::Fault(6),
    },
    // SETTINGS on a stream.
    Row {
        before: Before::Busy,
        octets: &[0, 0, 0, 4, 0, 0, 0, 0, 1],
        says: Says::Fault(1),
    },
    // SETTINGS with ACK.
    Row {
        before: Before::Busy,
        octets: &[0, 0, 0, 4, 1, 0, 0, 0, 0],
        says: Says::SettingsAck,
    },
    // ENABLE_PUSH of 2.
    Row {
        before: Before::Busy,
        octets: &[0, 0, 6, 4, 0, 0, 0, 0, 0, 0, 2, 0, 0, 0, 2],
        says: Says::Fault(1),
    },
    // ENABLE_PUSH of 1.
    Row {
        before: Before::Busy,
        octets: &[0, 0, 6, 4, 0, 0, 0, 0, 0, 0, 2, 0, 0, 0, 1],
        says: Says::Settings(65535, false),
    },
    // INITIAL_WINDOW_SIZE above 2,147,483,647.
    Row {
        before: Before::Busy,
        octets: &[0, 0, 6, 4, 0, 0, 0, 0, 0, 0, 4, 0x80, 0, 0, 0],
        says: Says::Fault(3),
    },
    // INITIAL_WINDOW_SIZE of 2,147,483,647.
    Row {
        before: Before::Busy,
        octets: &[0, 0, 6, 4, 0, 0, 0, 0, 0, 0, 4, 0x7f, 0xff, 0xff, 0xff],
        says: Says::Settings(2_147_483_647, false),
    },
    // MAX_FRAME_SIZE of 16,383.
    Row {
        before: Before::Busy,
        octets: &[0, 0, 6, 4, 0, 0, 0, 0, 0, 0, 5, 0, 0, 0x3f, 0xff],
        says: Says::Fault(1),
    },
    // MAX_FRAME_SIZE of 16,777,216.
    Row {
        before: Before::Busy,
        octets: &[0, 0, 6, 4, 0, 0, 0, 0, 0, 0, 5, 1, 0, 0, 0],
        says: Says::Fault(1),
    },
    // MAX_FRAME_SIZE of 16,777,215.
    Row {
        before: Before::Busy,
        octets: &[0, 0, 6, 4, 0, 0, 0, 0, 0, 0, 5, 0, 0xff, 0xff, 0xff],
        says: Says::Settings(65535, false),
    },
    // HEADER_TABLE_SIZE.
    Row {
        before: Before::Busy,
        octets: &[
            0, 0, 0xc, 4, 0, 0, 0, 0, 0, 0, 1, 0, 0, 0, 0, 0, 4, 0, 0, 1, 0,
        ],
        says: Says::Settings(256, true),
    },
    // A setting that is unknown.
    Row {
        before: Before::Busy,
        octets: &[0, 0, 6, 4, 0, 0, 0, 0, 0, 0, 9, 0xff, 0xff, 0xff, 0xff],
        says: Says::Settings(65535, false),
    },
    // Of two settings the first fault.
    Row {
        before: Before::Busy,
        octets: &[
            0, 0, 0xc, 4, 0, 0, 0, 0, 0, 0, 4, 0x80, 0, 0, 0, 0, 2, 0, 0, 0, 2,
        ],
        says: Says::Fault(3),
    },
    // PUSH_PROMISE.
    Row {
        before: Before::Busy,
        octets: &[0, 0, 0, 5, 4, 0, 0, 0, 1],
        says: Says::Fault(1),
    },
    // PING that has not eight octets.
    Row {
        before: Before::Busy,
        octets: &[0, 0, 7, 6, 0, 0, 0, 0, 1, 0, 0, 0, 0, 0, 0, 0],
        says: Says::Fault(6),
    },
    // PING on a stream.
    Row {
        before: Before::Busy,
        octets: &[0, 0, 8, 6, 0, 0, 0, 0, 1, 0, 0, 0, 0, 0, 0, 0, 0],
        says: Says::Fault(1),
    },
    // PING with ACK.
    Row {
        before: Before::Busy,
        octets: &[0, 0, 8, 6, 1, 0, 0, 0, 0, 0, 0, 0, 0, 0, 0, 0, 0],
        says: Says::Nothing,
    },
    // PING.
    Row {
        before: Before::Busy,
        octets: &[0, 0, 8, 6, 0, 0, 0, 0, 0, 1, 0, 0, 0, 0, 0, 0, 2],
        says: Says::Ping(0x0100_0000_0000_0002),
    },
    // GOAWAY below eight octets.
    Row {
        before: Before::Busy,
        octets: &[0, 0, 7, 7, 0, 0, 0, 0, 1, 0, 0, 0, 0, 0, 0, 0],
        says: Says::Fault(6),
    },
    // GOAWAY on a stream.
    Row {
        before: Before::Busy,
        octets: &[0, 0, 8, 7, 0, 0, 0, 0, 1, 0, 0, 0, 0, 0, 0, 0, 0],
        says: Says::Fault(1),
    },
    // GOAWAY.
    Row {
        before: Before::Busy,
        octets: &[0, 0, 9, 7, 0, 0, 0, 0, 0, 0, 0, 0, 0, 0, 0, 0, 0, 0],
        says: Says::GoAway,
    },
    // WINDOW_UPDATE that has not four octets.
    Row {
        before: Before::Busy,
        octets: &[0, 0, 3, 8, 0, 0, 0, 0, 0xd, 0, 0, 0],
        says: Says::Fault(6),
    },
    // WINDOW_UPDATE on an idle stream.
    Row {
        before: Before::Busy,
        octets: &[0, 0, 4, 8, 0, 0, 0, 0, 0xd, 0, 0, 0, 1],
        says: Says::Fault(1),
    },
    // WINDOW_UPDATE on an even stream.
    Row {
        before: Before::Busy,
        octets: &[0, 0, 4, 8, 0, 0, 0, 0, 2, 0, 0, 0, 1],
        says: Says::Fault(1),
    },
    // An increment of 0 for the connection.
    Row {
        before: Before::Busy,
        octets: &[0, 0, 4, 8, 0, 0, 0, 0, 0, 0, 0, 0, 0],
        says: Says::Fault(1),
    },
    // An increment of 0 for a stream.
    Row {
        before: Before::Busy,
        octets: &[0, 0, 4, 8, 0, 0, 0, 0, 1, 0, 0, 0, 0],
        says: Says::StreamFault(1, 1),
    },
    // An increment of 0 for a closed stream.
    Row {
        before: Before::Busy,
        octets: &[0, 0, 4, 8, 0, 0, 0, 0, 7, 0, 0, 0, 0],
        says: Says::StreamFault(7, 1),
    },
    // WINDOW_UPDATE for the connection, and the reserved bit.
    Row {
        before: Before::Busy,
        octets: &[0, 0, 4, 8, 0, 0, 0, 0, 0, 0x80, 0, 0, 5],
        says: Says::Window(0, 5),
    },
    // WINDOW_UPDATE for a stream that the peer has ended.
    Row {
        before: Before::Busy,
        octets: &[0, 0, 4, 8, 0, 0, 0, 0, 3, 0, 0, 0, 5],
        says: Says::Window(3, 5),
    },
    // WINDOW_UPDATE for a stream that this side has ended.
    Row {
        before: Before::Busy,
        octets: &[0, 0, 4, 8, 0, 0, 0, 0, 5, 0, 0, 0, 5],
        says: Says::Nothing,
    },
    // WINDOW_UPDATE for a closed stream.
    Row {
        before: Before::Busy,
        octets: &[0, 0, 4, 8, 0, 0, 0, 0, 7, 0, 0, 0, 5],
        says: Says::Nothing,
    },
    // CONTINUATION outside a block.
    Row {
        before: Before::Busy,
        octets: &[0, 0, 0, 9, 4, 0, 0, 0, 1],
        says: Says::Fault(1),
    },
    // Another frame in a block.
    Row {
        before: Before::Busy,
        octets: &[
            0, 0, 3, 1, 1, 0, 0, 0, 0xd, 0x83, 0x86, 0x84, 0, 0, 8, 6, 0, 0, 0, 0, 0, 0, 0, 0, 0,
            0, 0, 0, 0,
        ],
        says: Says::Fault(1),
    },
    // A kind that is unknown in a block.
    Row {
        before: Before::Busy,
        octets: &[
            0, 0, 3, 1, 1, 0, 0, 0, 0xd, 0x83, 0x86, 0x84, 0, 0, 0, 0x20, 0, 0, 0, 0, 0xd,
        ],
        says: Says::Fault(1),
    },
    // CONTINUATION of another stream in a block.
    Row {
        before: Before::Busy,
        octets: &[
            0, 0, 3, 1, 1, 0, 0, 0, 0xd, 0x83, 0x86, 0x84, 0, 0, 0, 9, 4, 0, 0, 0, 1,
        ],
        says: Says::Fault(1),
    },
    // A block in two frames.
    Row {
        before: Before::Busy,
        octets: &[
            0, 0, 1, 1, 1, 0, 0, 0, 0xd, 0x83, 0, 0, 2, 9, 4, 0, 0, 0, 0xd, 0x86, 0x84,
        ],
        says: Says::Call(13, 3, true),
    },
    // A kind that is unknown.
    Row {
        before: Before::Busy,
        octets: &[0, 0, 3, 0x20, 0xff, 0, 0, 0, 1, 1, 2, 3],
        says: Says::Nothing,
    },
    // Trailers with such a list.
    Row {
        before: Before::LastBlock(7),
        octets: &[0, 0, 0, 9, 4, 0, 0, 0, 13],
        says: Says::Trailers(13),
    },
    // A 33rd stream.
    Row {
        before: Before::Full,
        octets: &[0, 0, 3, 1, 4, 0, 0, 0, 65, 0x83, 0x86, 0x84],
        says: Says::StreamFault(65, 7),
    },
    // It has opened its stream, and is closed.
    Row {
        before: Before::Full,
        octets: &[
            0, 0, 3, 1, 4, 0, 0, 0, 65, 0x83, 0x86, 0x84, 0, 0, 1, 0, 0, 0, 0, 0, 65, 7,
        ],
        says: Says::Piece(65, 0, 1, true),
    },
    // A 33rd stream behind the end of another.
    Row {
        before: Before::Full,
        octets: &[
            0, 0, 4, 3, 0, 0, 0, 0, 1, 0, 0, 0, 0, 0, 0, 3, 1, 4, 0, 0, 0, 65, 0x83, 0x86, 0x84,
        ],
        says: Says::Call(65, 3, false),
    },
    // A header list of more than 16,384 octets, of headers that count 42 octets each.
    Row {
        before: Before::Block(7),
        octets: &[0, 0, 0, 9, 4, 0, 0, 0, 13],
        says: Says::TooLong(13),
    },
    // It opens its stream.
    Row {
        before: Before::Block(7),
        octets: &[0, 0, 0, 9, 4, 0, 0, 0, 13, 0, 0, 1, 0, 1, 0, 0, 0, 13, 7],
        says: Says::Piece(13, 1, 1, true),
    },
    // A shorter one, which repeats a pseudo-header.
    Row {
        before: Before::Block(6),
        octets: &[0, 0, 0, 9, 4, 0, 0, 0, 13],
        says: Says::StreamFault(13, 1),
    },
    // A block of 65,536 octets.
    Row {
        before: Before::Block(1024),
        octets: &[0, 0, 0, 9, 4, 0, 0, 0, 13],
        says: Says::TooLong(13),
    },
    // A block of an octet more.
    Row {
        before: Before::Block(1024),
        octets: &[0, 0, 1, 9, 0, 0, 0, 0, 13, 0x82],
        says: Says::Fault(11),
    },
];
