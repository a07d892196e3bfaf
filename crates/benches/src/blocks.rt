ghost use Rattle.std.specs.Prelude.{◌≡◌, ℕ, fold, IfOk, IsErrOf};
ghost use Rattle.hpack_block.specs.Tables.{empty_table};
ghost use Rattle.benches.specs.Checksum.{added};
ghost use Rattle.benches.specs.Blocks.{mixed, ReadsBlocks};

use crate::checksum::added;
use crate::codecs::Report;
use crate::draws::Draws;
use crate::fault::Fault;
use base_lists::{Bytes, NoMemory, Seq};
use hpack_block::{BlockFault, Decoder, Header};
use std::alloc::Global;

// So that there are about 800,000 octets.
const BLOCKS: u32 = 58_000;

// How many entries the table has at least, once the first block is read.
const ENTRIES: u32 = 32;

/// Reads blocks of one connection in rounds.
pub fn run(alloc: Global, rounds: u32) -> Result<Report, Fault> {
    let blocks = made(alloc)?;
    let mut octets = 0u64;
    for block in blocks.items() {
        octets = octets.wrapping_add(block.len() as u64);
    }
    let mut checksum = 0u64;
    for _ in 0..rounds {
        checksum = read_all(alloc, blocks.items(), checksum)?;
    }
    let octets = u64::from(rounds).wrapping_mul(octets);
    Ok(Report { octets, checksum })
}

// The first block fills the table, and each further one has up to eight fields.
fn made(alloc: Global) -> Result<Seq<Bytes>, NoMemory> {
    let mut draws = Draws::new();
    let mut blocks = Seq::empty(alloc);
    let mut first = Bytes::empty(alloc);
    for _ in 0..ENTRIES {
        add_literal(&mut draws, &mut first)?;
    }
    blocks.push(first)?;
    for _ in 1..BLOCKS {
        let mut block = Bytes::empty(alloc);
        for _ in 0..draws.next() % 8 + 1 {
            add_field(&mut draws, &mut block)?;
        }
        blocks.push(block)?;
    }
    Ok(blocks)
}

// An entry of one of the tables, or a literal (RFC 7541, sections 6.1 and 6.2.1).
fn add_field(draws: &mut Draws, block: &mut Bytes) -> Result<(), NoMemory> {
    match draws.next() % 4 {
        0 => block.push((draws.next() % 61) as u8 + 129),
        1 | 2 => block.push((draws.next() % ENTRIES) as u8 + 190),
        _ => add_literal(draws, block),
    }
}

// A name of the static table and a value of at most 15 digits, added to the dynamic one, where it has at most 75 octets
// of 4,096.
fn add_literal(draws: &mut Draws, block: &mut Bytes) -> Result<(), NoMemory> {
    block.push((draws.next() % 61) as u8 + 65)?;
    let length = draws.next() % 16;
    block.push(length as u8)?;
    for _ in 0..length {
        block.push((draws.next() % 10) as u8 + 48)?;
    }
    Ok(())
}

// Where the blocks give headers, one after the other, the checksum is that of these.
fn read_all(alloc: Global, blocks: &[Bytes], before: u64) -> Result<u64, Fault>
    ensures read { IfOk result (λ checksum. ReadsBlocks empty_table blocks.now before checksum) }
    ensures bad { IsErrOf result Fault.Refused
        → (checksum : ℕ) → ReadsBlocks empty_table blocks.now before checksum → ⊥ }
{
    let mut decoder = Decoder::make(alloc);
    let mut checksum = before;
    for block in blocks {
        match decoder.block(alloc, block.items()) {
            Ok(headers) => checksum = checksum_of(checksum, headers.items()),
            Err(BlockFault::NoMemory) => return Err(Fault::NoMemory),
            Err(BlockFault::Bad) => return Err(Fault::Refused),
            Err(BlockFault::TooLong) => return Err(Fault::Refused),
        }
    }
    Ok(checksum)
}

fn checksum_of(before: u64, headers: &[Header]) -> u64
    ensures { result ≡ fold mixed before headers.now }
{
    headers
        .iter()
        .fold(before, |checksum, header| mixed(checksum, header))
}

fn mixed(before: u64, header: &Header) -> u64
    ensures { result ≡ mixed before header.now }
{
    octets_added(
        octets_added(before, header.name.items()),
        header.value.items(),
    )
}

fn octets_added(before: u64, octets: &[u8]) -> u64
    ensures { result ≡ fold added before octets.now }
{
    octets.iter().fold(before, |checksum, octet| {
        added(checksum, u64::from(*octet))
    })
}
