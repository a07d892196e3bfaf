ghost use Rattle.std.specs.Prelude.{◌≡◌, ℕ, ◌^◌, ◌<◌, List, fold};
ghost use Rattle.h2_frame.specs.Frames.{Frame, FramesTo, frame_of};
ghost use Rattle.benches.specs.Frames.{mixed};

use crate::checksum::added;
use crate::codecs::Report;
use crate::draws::Draws;
use base_lists::{Bytes, NoMemory, Seq};
use h2_frame::{Got, Head, read_frame, write_frame};
use std::alloc::Global;

const MAX: u32 = 16_384;

// Frames have fewer octets of payload than this, so that there are about 1 MiB of octets.
const PAYLOAD: u32 = 64;

const FRAMES: u32 = 26_000;

/// Reads small frames in rounds.
pub fn run(alloc: Global, rounds: u32) -> Result<Report, NoMemory> {
    let octets = made(alloc)?;
    let mut checksum = 0u64;
    for _ in 0..rounds {
        checksum = read_all(octets.items(), checksum);
    }
    let octets = u64::from(rounds).wrapping_mul(octets.len() as u64);
    Ok(Report { octets, checksum })
}

fn made(alloc: Global) -> Result<Bytes, NoMemory> {
    let mut draws = Draws::new();
    let payload = payload(&mut draws);
    let mut out = Seq::empty(alloc);
    for _ in 0..FRAMES {
        let head = drawn_head(&mut draws);
        write_frame(&head, &payload[..head.length as usize], &mut out)?;
    }
    Ok(out)
}

fn payload(draws: &mut Draws) -> [u8; 64] {
    let mut payload = [0u8; 64];
    for octet in payload.iter_mut() {
        *octet = (draws.next() % 256) as u8;
    }
    payload
}

fn drawn_head(draws: &mut Draws) -> Head
    ensures length { result.length < 64 }
    ensures stream { result.stream < 2 ^ 31 }
{
    let drawn = draws.next();
    Head {
        length: drawn % PAYLOAD,
        kind: (drawn / 64 % 10) as u8,
        flags: (drawn / 1024 % 256) as u8,
        stream: draws.next() % 2_147_483_648,
    }
}

// Reads the frames that the octets are, up to an end, and adds them to the checksum.
fn read_all(octets: &[u8], before: u64) -> u64
    ensures { (frames : List Frame) (rest : List ℕ) → FramesTo MAX octets.now frames rest
        → result ≡ fold mixed before frames }
{
    let mut checksum = before;
    let mut rest = octets;
    while let Got::Frame(head, used) = read_frame(rest, MAX) {
        checksum = mixed(checksum, &head);
        rest = &rest[used..];
    }
    checksum
}

fn mixed(before: u64, head: &Head) -> u64
    ensures { (payload : List ℕ) → result ≡ mixed before (frame_of head.now payload) }
{
    let checksum = added(before, u64::from(head.length));
    let checksum = added(checksum, u64::from(head.kind));
    let checksum = added(checksum, u64::from(head.flags));
    added(checksum, u64::from(head.stream))
}
