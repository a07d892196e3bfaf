//! The frames that answer what was read, and those that begin and end a connection. They take no memory.
ghost use Rattle.std.specs.Prelude.{◌≡◌, [], ◌∷◌, length};
ghost use Rattle.h2_frame.specs.Frames.{frame_of};
ghost use Rattle.h2_windows.specs.Written.{Writes, spelled};
ghost use Rattle.h2_windows.specs.Control.{greeting, settings_ack, ping_ack, rst_stream, window_update, granted_again, goaway};

use crate::frames::put_frame;
use environment::{Failed, Sink, write_whole};
use h2_frame::{ACK, GOAWAY, Head, PING, RST_STREAM, SETTINGS, WINDOW_UPDATE, head_octets};

/// MAX_CONCURRENT_STREAMS 32 and MAX_HEADER_LIST_SIZE 16,384 (RFC 9113 section 6.5.2).
const GREETING: [u8; 12] = [0, 3, 0, 0, 0, 32, 0, 6, 0, 0, 64, 0];

fn put_one<S: Sink>(sink: &mut S, head: &Head, payload: &[u8]) -> Result<(), Failed>
    requires { length payload.now ≡ head.now.length }
    ensures { Writes result (frame_of head.now payload.now ∷ [])
        (S.seen sink.old) (S.seen sink.new) }
{
    put_frame(sink, head, payload)
}

/// Writes the SETTINGS frame that a server begins with.
pub fn put_greeting<S: Sink>(sink: &mut S) -> Result<(), Failed>
    ensures { Writes result (greeting ∷ []) (S.seen sink.old) (S.seen sink.new) }
{
    let head = Head {
        length: 12,
        kind: SETTINGS,
        flags: 0,
        stream: 0,
    };
    put_one(sink, &head, &GREETING)
}

pub fn put_settings_ack<S: Sink>(sink: &mut S) -> Result<(), Failed>
    ensures { Writes result (settings_ack ∷ []) (S.seen sink.old) (S.seen sink.new) }
{
    let head = Head {
        length: 0,
        kind: SETTINGS,
        flags: ACK,
        stream: 0,
    };
    put_one(sink, &head, &[])
}

/// Answers a PING with its eight octets, the first of them the highest.
pub fn put_ping_ack<S: Sink>(sink: &mut S, octets: u64) -> Result<(), Failed>
    ensures { Writes result (ping_ack octets ∷ []) (S.seen sink.old) (S.seen sink.new) }
{
    let head = Head {
        length: 8,
        kind: PING,
        flags: ACK,
        stream: 0,
    };
    put_one(sink, &head, &octets.to_be_bytes())
}

pub fn put_rst_stream<S: Sink>(sink: &mut S, stream: u32, code: u32) -> Result<(), Failed>
    ensures { Writes result (rst_stream stream code ∷ []) (S.seen sink.old) (S.seen sink.new) }
{
    let head = Head {
        length: 4,
        kind: RST_STREAM,
        flags: 0,
        stream,
    };
    put_one(sink, &head, &code.to_be_bytes())
}

#[tactic(auto, unfolding(crate::specs::Written::spelled))]
fn update_octets(stream: u32, increment: u32) -> [u8; 13]
    ensures { result ≡ spelled (window_update stream increment) }
{
    let head = Head {
        length: 4,
        kind: WINDOW_UPDATE,
        flags: 0,
        stream,
    };
    let [h0, h1, h2, h3, h4, h5, h6, h7, h8] = head_octets(&head);
    let [i0, i1, i2, i3] = increment.to_be_bytes();
    [h0, h1, h2, h3, h4, h5, h6, h7, h8, i0, i1, i2, i3]
}

/// Grants again the octets that were received, padding with them: to the connection, and to a stream that the peer
/// hasn't ended. Both frames go in one piece.
#[tactic(auto, using(crate::proofs::Fronts::wrote_nothing))]
pub fn put_grants<S: Sink>(sink: &mut S, stream: u32, size: u32, ended: bool) -> Result<(), Failed>
    ensures { Writes result (granted_again stream size ended) (S.seen sink.old) (S.seen sink.new) }
{
    if size == 0 {
        return Ok(());
    }
    let both = [update_octets(0, size), update_octets(stream, size)];
    let count = if ended { 1 } else { 2 };
    write_whole(sink, both[..count].as_flattened())
}

/// Says that the connection ends: the highest stream that was opened, and an error code.
pub fn put_goaway<S: Sink>(sink: &mut S, highest: u32, code: u32) -> Result<(), Failed>
    ensures { Writes result (goaway highest code ∷ []) (S.seen sink.old) (S.seen sink.new) }
{
    let head = Head {
        length: 8,
        kind: GOAWAY,
        flags: 0,
        stream: 0,
    };
    let [h0, h1, h2, h3] = highest.to_be_bytes();
    let [c0, c1, c2, c3] = code.to_be_bytes();
    put_one(sink, &head, &[h0, h1, h2, h3, c0, c1, c2, c3])
}
