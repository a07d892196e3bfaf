ghost use Rattle.std.specs.Prelude.{◌≡◌, ℕ, List, fold, IfOk, IsErrOf};
ghost use Rattle.hpack_huff.specs.Huffman.{Huff};
ghost use Rattle.benches.specs.Checksum.{added};
ghost use Rattle.benches.specs.Huffman.{ReadsText};

use crate::checksum::added;
use crate::codecs::Report;
use crate::draws::Draws;
use crate::fault::Fault;
use base_lists::{Bytes, NoMemory, Seq};
use hpack_huff::{HuffFault, huff_decode};
use std::alloc::Global;

// So that there are about 1 MiB of octets.
const GROUPS: u32 = 210_000;

/// Decodes a text in rounds.
pub fn run(alloc: Global, rounds: u32) -> Result<Report, Fault> {
    let octets = made(alloc)?;
    let mut checksum = 0u64;
    for _ in 0..rounds {
        checksum = read_all(alloc, octets.items(), checksum)?;
    }
    let octets = u64::from(rounds).wrapping_mul(octets.len() as u64);
    Ok(Report { octets, checksum })
}

fn made(alloc: Global) -> Result<Bytes, NoMemory> {
    let mut draws = Draws::new();
    let mut out = Seq::empty(alloc);
    for _ in 0..GROUPS {
        out.extend_from_slice(&drawn_group(&mut draws))?;
    }
    Ok(out)
}

// Eight codes of 5 bits: those from 0 to 9 are codes of symbols (RFC 7541, appendix B). They end with an octet.
fn drawn_group(draws: &mut Draws) -> [u8; 5] {
    let mut codes = 0u64;
    for _ in 0..8 {
        let code = draws.next() % 10;
        codes = codes.wrapping_mul(32).wrapping_add(u64::from(code));
    }
    let octets = codes.to_be_bytes();
    [octets[3], octets[4], octets[5], octets[6], octets[7]]
}

// Where the octets are a text's code, the checksum is that text's.
fn read_all(alloc: Global, octets: &[u8], before: u64) -> Result<u64, Fault>
    ensures read { IfOk result (λ checksum. ReadsText octets.now before checksum) }
    ensures bad { IsErrOf result Fault.Refused → (text : List ℕ) → Huff octets.now text → ⊥ }
{
    let mut text = Bytes::empty(alloc);
    match huff_decode(octets, &mut text) {
        Ok(()) => Ok(checksum_of(before, text.items())),
        Err(HuffFault::BadCode) => Err(Fault::Refused),
        Err(HuffFault::NoMemory) => Err(Fault::NoMemory),
    }
}

fn checksum_of(before: u64, text: &[u8]) -> u64
    ensures { result ≡ fold added before text.now }
{
    text.iter().fold(before, |checksum, symbol| {
        added(checksum, u64::from(*symbol))
    })
}
