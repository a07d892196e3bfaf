ghost use Rattle.std.specs.Prelude.{◌≡◌, fold};
ghost use Rattle.benches.specs.Events.{value_of, with_event};

use crate::checksum::added;
use crate::codecs::Report;
use crate::draws::Draws;
use crate::fault::Fault;
use base_lists::{Bytes, NoMemory};
use h2_events::{RecvEvent, RecvEvents, RecvFault};
use h2_frame::{DATA, Head, PING, WINDOW_UPDATE, write_frame};
use h2_recv::Recv;
use std::alloc::Global;

// The preface of a client, SETTINGS, and HEADERS that open stream 1: `:method: POST`, `:scheme: http` and `:path: /` of
// the static table (RFC 7541, appendix A).
const OPENING: &[u8] =
    b"PRI * HTTP/2.0\r\n\r\nSM\r\n\r\n\0\0\0\x04\0\0\0\0\0\0\0\x03\x01\x04\0\0\0\x01\x83\x86\x84";

// A PING and a WINDOW_UPDATE, so that there are about 1 MiB of octets.
const PAIRS: u32 = 35_000;

// DATA frames of the largest payload that every peer takes (RFC 9113 section 4.2), so that there is 1 MiB of it.
const DATA_FRAMES: u32 = 64;

const PAYLOAD: [u8; 16_384] = [7; 16_384];

// How many octets come at once: 16 of the DATA frames.
const PIECE: usize = 262_288;

/// Receives small frames, in rounds.
pub fn run_small_frames(alloc: Global, rounds: u32) -> Result<Report, Fault> {
    receive(alloc, rounds, small_frames(alloc)?)
}

/// Receives DATA frames, in rounds.
pub fn run_data_frames(alloc: Global, rounds: u32) -> Result<Report, Fault> {
    receive(alloc, rounds, data_frames(alloc)?)
}

fn receive(alloc: Global, rounds: u32, octets: Bytes) -> Result<Report, Fault> {
    let mut checksum = 0u64;
    for _ in 0..rounds {
        checksum = read_all(alloc, octets.items(), checksum)?;
    }
    let octets = u64::from(rounds).wrapping_mul(octets.len() as u64);
    Ok(Report { octets, checksum })
}

fn small_frames(alloc: Global) -> Result<Bytes, NoMemory> {
    let mut draws = Draws::new();
    let mut out = Bytes::of(alloc, OPENING)?;
    for _ in 0..PAIRS {
        let ping = Head {
            length: 8,
            kind: PING,
            flags: 0,
            stream: 0,
        };
        write_frame(&ping, &u64::from(draws.next()).to_be_bytes(), &mut out)?;
        let window_update = Head {
            length: 4,
            kind: WINDOW_UPDATE,
            flags: 0,
            stream: 0,
        };
        let increment = draws.next() % 16 + 1;
        write_frame(&window_update, &increment.to_be_bytes(), &mut out)?;
    }
    Ok(out)
}

fn data_frames(alloc: Global) -> Result<Bytes, NoMemory> {
    let mut out = Bytes::of(alloc, OPENING)?;
    for _ in 0..DATA_FRAMES {
        let data = Head {
            length: 16_384,
            kind: DATA,
            flags: 0,
            stream: 1,
        };
        write_frame(&data, &PAYLOAD, &mut out)?;
    }
    Ok(out)
}

// Receives the octets in pieces, and adds their events to the checksum.
fn read_all(alloc: Global, octets: &[u8], before: u64) -> Result<u64, Fault> {
    let mut recv = Recv::make(alloc);
    let read = read_pieces(alloc, &mut recv, octets, before);
    drop(recv);
    read
}

fn read_pieces(alloc: Global, recv: &mut Recv, octets: &[u8], before: u64) -> Result<u64, Fault> {
    let mut checksum = before;
    for piece in octets.chunks(PIECE) {
        checksum = read_piece(alloc, recv, piece, checksum)?;
    }
    Ok(checksum)
}

fn read_piece(alloc: Global, recv: &mut Recv, piece: &[u8], before: u64) -> Result<u64, Fault> {
    let mut events = RecvEvents::empty(alloc);
    let fed = recv.feed(alloc, piece, &mut events);
    let checksum = checksum_of(before, events.items());
    drop(events);
    match fed {
        Ok(()) => Ok(checksum),
        Err(RecvFault::NoMemory) => Err(Fault::NoMemory),
        Err(RecvFault::Protocol(_)) => Err(Fault::Refused),
    }
}

fn checksum_of(before: u64, events: &[RecvEvent]) -> u64
    ensures { result ≡ fold with_event before events.now }
{
    events
        .iter()
        .fold(before, |checksum, event| added(checksum, value_of(event)))
}

// The octets of a PING as a number, an increment, or how many octets of DATA.
fn value_of(event: &RecvEvent) -> u64
    ensures { result ≡ value_of event.now }
{
    match event {
        RecvEvent::Ping(octets) => *octets,
        RecvEvent::Window(_, by) => u64::from(*by),
        RecvEvent::Piece(_, _, size, _) => u64::from(*size),
        _ => 1,
    }
}
