ghost use Rattle.std.specs.Prelude.{◌≡◌, ℕ, ◌+◌, ◌*◌, ◌^◌, ◌<◌, ◌≤◌, ◌%◌, length, slice_index};
ghost use Rattle.h2_frame.specs.declared.frame.Head.{Head};
ghost use Rattle.h2_frame.specs.ErrorCodes.{frame_size_error};
ghost use Rattle.h2_frame.specs.Frames.{IsReadAs, StandsFirst, IsPart, IsTooLong, stated_length};

use crate::codes::FRAME_SIZE_ERROR;
use crate::frame::{Got, Head};

const HEAD_OCTETS: usize = 9;

/// What stands first in the octets, where a frame may have at most `max` octets of payload. Takes no memory.
///
/// Where fewer than three octets are there, the length is too large as soon as each length that they can begin is.
pub fn read_frame(octets: &[u8], max: u32) -> Got
    ensures says { IsReadAs max octets.now result }

    // And each answer comes wherever what it says holds.
    ensures frame { (head : Head) (used : ℕ)
        → StandsFirst max octets.now head used → result ≡ Got.Frame head used }
    ensures more { IsPart max octets.now → result ≡ Got.More }
    ensures bad { IsTooLong max octets.now → result ≡ Got.Bad frame_size_error }
{
    first(octets, max)
}

#[tactic(auto, using(crate::proofs::Reading::begins, crate::proofs::Reading::stands))]
fn first(octets: &[u8], max: u32) -> Got
    ensures { IsReadAs max octets.now result }
{
    let [first, second, third, kind, flags, s0, s1, s2, s3, ..] = octets else {
        return short(octets, max);
    };
    let length = u32::from(*first) * 65536 + u32::from(*second) * 256 + u32::from(*third);
    if max < length {
        return Got::Bad(FRAME_SIZE_ERROR);
    }
    let used = HEAD_OCTETS + length as usize;
    if octets.len() < used {
        return Got::More;
    }
    let stream = u32::from(*s0 % 128) * 16_777_216
        + u32::from(*s1) * 65536
        + u32::from(*s2) * 256
        + u32::from(*s3);
    let head = Head {
        length,
        kind: *kind,
        flags: *flags,
        stream,
    };
    Got::Frame(head, used)
}

// What fewer octets than a head are.
#[tactic(auto, using(crate::proofs::Reading::begins))]
fn short(octets: &[u8], max: u32) -> Got
    requires { length octets.now < 9 }
    ensures { IsReadAs max octets.now result }
{
    if max < least_length(octets) {
        Got::Bad(FRAME_SIZE_ERROR)
    } else {
        Got::More
    }
}

fn least_length(octets: &[u8]) -> u32
    ensures { result ≡ stated_length octets.now }
{
    octet(octets, 0) * 65536 + octet(octets, 1) * 256 + octet(octets, 2)
}

fn octet(octets: &[u8], at: usize) -> u32
    ensures value { result ≡ slice_index octets.now at }
    ensures small { result < 256 }
{
    match octets.get(at) {
        Some(octet) => u32::from(*octet),
        None => 0,
    }
}
