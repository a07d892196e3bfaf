ghost use Rattle.std.specs.Prelude.{◌≡◌, fold};
ghost use Rattle.benches.specs.Messages.{with_length};

use crate::checksum::added;
use crate::codecs::Report;
use crate::fault::Fault;
use base_lists::Bytes;
use grpc_core::{Messages, SplitFault, Splitter, frame_message};
use std::alloc::Global;

// The largest message that is read has this many blocks.
const BLOCKS: u32 = 256;

// Fewer for single octets, of which each is a piece.
const FEWER_BLOCKS: u32 = 16;

const BLOCK: [u8; 16_384] = [7; 16_384];

const LARGEST_MESSAGE: usize = 4_194_304;

// How many octets come at once: the payload of the largest frame that every peer takes (RFC 9113 section 4.2).
const PIECE: usize = 16_384;

/// Cuts the largest message out of large pieces, in rounds.
pub fn run(alloc: Global, rounds: u32) -> Result<Report, Fault> {
    in_pieces(alloc, rounds, BLOCKS, PIECE)
}

/// Cuts a message out of its octets, one after the other, in rounds.
pub fn run_single_octets(alloc: Global, rounds: u32) -> Result<Report, Fault> {
    in_pieces(alloc, rounds, FEWER_BLOCKS, 1)
}

fn in_pieces(alloc: Global, rounds: u32, blocks: u32, size: usize) -> Result<Report, Fault> {
    let octets = made(alloc, blocks)?;
    let mut checksum = 0u64;
    for _ in 0..rounds {
        checksum = read_all(alloc, octets.items(), size, checksum)?;
    }
    let octets = u64::from(rounds).wrapping_mul(octets.len() as u64);
    Ok(Report { octets, checksum })
}

fn made(alloc: Global, blocks: u32) -> Result<Bytes, Fault> {
    let mut message = Bytes::empty(alloc);
    for _ in 0..blocks {
        message.extend_from_slice(&BLOCK)?;
    }
    if message.len() > LARGEST_MESSAGE {
        return Err(Fault::Refused);
    }
    let mut out = Bytes::empty(alloc);
    frame_message(message.items(), &mut out)?;
    Ok(out)
}

// Cuts the messages out of pieces of this size, and adds their lengths to the checksum.
fn read_all(alloc: Global, octets: &[u8], size: usize, before: u64) -> Result<u64, Fault> {
    let mut splitter = Splitter::make(alloc);
    let mut messages = Messages::empty(alloc);
    let cut = cut_all(alloc, octets, size, &mut splitter, &mut messages);
    drop(splitter);
    let checksum = lengths(before, messages.items());
    drop(messages);
    match cut {
        Ok(()) => Ok(checksum),
        Err(fault) => Err(fault),
    }
}

fn cut_all(
    alloc: Global,
    octets: &[u8],
    size: usize,
    splitter: &mut Splitter,
    messages: &mut Messages,
) -> Result<(), Fault> {
    for piece in octets.chunks(size.max(1)) {
        match splitter.feed(alloc, piece, messages) {
            Ok(()) => {}
            Err(SplitFault::NoMemory) => return Err(Fault::NoMemory),
            Err(_) => return Err(Fault::Refused),
        }
    }
    Ok(())
}

fn lengths(before: u64, messages: &[Bytes]) -> u64
    ensures { result ≡ fold with_length before messages.now }
{
    messages.iter().fold(before, |checksum, message| {
        added(checksum, message.len() as u64)
    })
}
