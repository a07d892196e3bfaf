//! Whole frames, as a source gives their octets.
ghost use Rattle.std.specs.Prelude.{◌≡◌, ◌<◌, ℕ, length, slice_index, IfOk, IfErr};
ghost use Rattle.grpc_client.specs.Frames.{Fills, StopsFilling, head_at, IsFrameOf, StopsReading};

use base_lists::{Bytes, NoMemory};
use environment::{Failed, Source};
use h2_frame::Head;
use std::alloc::Global;

/// The octets before a payload (RFC 9113 section 4.1).
const HEAD_OCTETS: usize = 9;

/// The largest payload that this side takes (RFC 9113 section 6.5.2).
const LARGEST_FRAME: u32 = 16_384;

/// Octets that are asked for in one read at most.
const PIECE: usize = 4_096;

/// A whole frame.
#[derive(Drop)]
pub struct WholeFrame {
    pub head: Head,
    pub payload: Bytes,
}

/// Why there is no further frame.
#[derive(Clone, Copy, Debug, PartialEq, Eq)]
pub enum ReadEnd {
    /// The source is at its end, perhaps inside a frame.
    Ended,
    Failed,
    /// The frame is longer than this side takes.
    TooLong,
    NoMemory,
}

impl From<Failed> for ReadEnd {
    ghost use Rattle.grpc_client.specs.declared.octets.ReadEnd.TheVariants.{Failed as ReadFailed};

    ghost from_gives = { λ _ end. end ≡ ReadFailed };

    fn from(_fault: Failed) -> ReadEnd {
        ReadEnd::Failed
    }
}

impl From<NoMemory> for ReadEnd {
    ghost use Rattle.grpc_client.specs.declared.octets.ReadEnd.TheVariants.{NoMemory as OutOfMemory};

    ghost from_gives = { λ _ end. end ≡ OutOfMemory };

    fn from(_fault: NoMemory) -> ReadEnd {
        ReadEnd::NoMemory
    }
}

/// Reads just so many octets.
fn read_exactly<I: Source>(alloc: Global, input: &mut I, count: usize) -> Result<Bytes, ReadEnd>
    ensures ok { IfOk result (λ octets. Fills count octets (I.seen input.old) (I.seen input.new)) }
    ensures err { IfErr result (λ why. StopsFilling why (I.seen input.old) (I.seen input.new)) }
{
    let mut octets = Bytes::empty(alloc);
    let mut buffer = [0u8; PIECE];
    while octets.len() < count {
        let room = PIECE.min(count - octets.len());
        let given = input.read(&mut buffer[..room])?;
        if given == 0 {
            return Err(ReadEnd::Ended);
        }
        octets.extend_from_slice(&buffer[..given])?;
    }
    Ok(octets)
}

/// The head that nine octets are.
fn head_at(octets: &[u8]) -> Head
    requires { length octets.now ≡ 9 }
    ensures head { result ≡ head_at octets.now }
    ensures fit { (i : ℕ) → slice_index octets.now i < 256 }
{
    let [l0, l1, l2, kind, flags, s0, s1, s2, s3] = octets else {
        unreachable!()
    };
    Head {
        length: u32::from(*l0) * 65_536 + u32::from(*l1) * 256 + u32::from(*l2),
        kind: *kind,
        flags: *flags,
        stream: u32::from(*s0 % 128) * 16_777_216
            + u32::from(*s1) * 65_536
            + u32::from(*s2) * 256
            + u32::from(*s3),
    }
}

/// The next frame that the source gives, of at most 16,384 octets of payload.
pub(crate) fn next_frame<I: Source>(alloc: Global, input: &mut I) -> Result<WholeFrame, ReadEnd>
    ensures ok { IfOk result (λ frame. IsFrameOf frame (I.seen input.old) (I.seen input.new)) }
    ensures err { IfErr result (λ why. StopsReading why (I.seen input.old) (I.seen input.new)) }
{
    let octets = read_exactly(alloc, input, HEAD_OCTETS)?;
    let head = head_at(octets.items());
    if head.length > LARGEST_FRAME {
        return Err(ReadEnd::TooLong);
    }
    let payload = read_exactly(alloc, input, head.length as usize)?;
    Ok(WholeFrame { head, payload })
}
