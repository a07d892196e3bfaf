//! Frames, written to a sink without taking memory.
ghost use Rattle.std.specs.Prelude.{◌≡◌, length};
ghost use Rattle.h2_frame.specs.Frames.{frame_of};
ghost use Rattle.h2_windows.specs.Written.{Writes, WritesOctets, spelled};
ghost use Rattle.h2_windows.specs.Sending.{data_frames};

use environment::{Failed, Sink, write_whole};
use h2_frame::{DATA, Head, head_octets};

/// The largest payload that every peer takes (RFC 9113 section 4.2).
const LARGEST_PAYLOAD: usize = 16_384;

/// Writes one frame.
#[tactic(auto, unfolding(crate::specs::Written::spelled))]
pub fn put_frame<S: Sink>(sink: &mut S, head: &Head, payload: &[u8]) -> Result<(), Failed>
    requires { length payload.now ≡ head.now.length }
    ensures { WritesOctets result (spelled (frame_of head.now payload.now))
        (S.seen sink.old) (S.seen sink.new) }
{
    write_whole(sink, &head_octets(head))?;
    write_whole(sink, payload)
}

/// Writes the octets of a stream in DATA frames of at most 16,384, as few as can be.
#[tactic(auto, using(crate::proofs::Fronts::wrote_all))]
pub fn put_data<S: Sink>(sink: &mut S, stream: u32, octets: &[u8]) -> Result<(), Failed>
    ensures { Writes result (data_frames stream octets.now) (S.seen sink.old) (S.seen sink.new) }
{
    let mut rest = octets;
    while !rest.is_empty() {
        let (payload, after) = rest.split_at(rest.len().min(LARGEST_PAYLOAD));
        let head = Head {
            length: payload.len() as u32,
            kind: DATA,
            flags: 0,
            stream,
        };
        put_frame(sink, &head, payload)?;
        rest = after;
    }
    Ok(())
}
