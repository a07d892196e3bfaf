ghost use Rattle.std.specs.Prelude.{◌≡◌, ◌<◌, ◌≤◌, List, fold, IfOk, IsErrOf};
ghost use Rattle.pb_wire.specs.Message.{IsMessage};
ghost use Rattle.pb_wire.specs.declared.field.Field.{Field as FieldValue};
ghost use Rattle.benches.specs.Fields.{figure, mixed, ReadsFields};

use crate::checksum::added;
use crate::codecs::Report;
use crate::draws::Draws;
use crate::fault::Fault;
use base_lists::{Bytes, NoMemory, Seq};
use pb_wire::{Body, Field, WireFault, fields_of, put_octets, put_varint};
use std::alloc::Global;

// Pairs of a field with a number and one with octets, so that there are about 1 MiB of octets.
const PAIRS: u32 = 78_000;

/// Reads small fields in rounds.
pub fn run(alloc: Global, rounds: u32) -> Result<Report, Fault> {
    let octets = made(alloc)?;
    let mut checksum = 0u64;
    for _ in 0..rounds {
        checksum = read_all(alloc, octets.items(), checksum)?;
    }
    let octets = u64::from(rounds).wrapping_mul(octets.len() as u64);
    Ok(Report { octets, checksum })
}

fn made(alloc: Global) -> Result<Bytes, NoMemory> {
    let mut draws = Draws::new();
    let content = content(&mut draws);
    let mut out = Seq::empty(alloc);
    for _ in 0..PAIRS {
        let number = drawn_number(&mut draws);
        let value = draws.next() % 2_097_152;
        put_varint(number, u64::from(value), &mut out)?;
        let number = drawn_number(&mut draws);
        let length = draws.next() % 16;
        put_octets(number, &content[..length as usize], &mut out)?;
    }
    Ok(out)
}

fn content(draws: &mut Draws) -> [u8; 15] {
    let mut content = [0u8; 15];
    for octet in content.iter_mut() {
        *octet = (draws.next() % 256) as u8;
    }
    content
}

// A number that a tag of one octet has.
fn drawn_number(draws: &mut Draws) -> u32
    ensures some { 1 ≤ result }
    ensures one_octet { result ≤ 15 }
{
    draws.next() % 15 + 1
}

// Where the octets are a message, the checksum is that of its fields.
fn read_all(alloc: Global, octets: &[u8], before: u64) -> Result<u64, Fault>
    ensures read { IfOk result (λ checksum. ReadsFields octets.now before checksum) }
    ensures bad { IsErrOf result Fault.Refused
        → (fields : List FieldValue) → IsMessage octets.now fields → ⊥ }
{
    match fields_of(alloc, octets) {
        Ok(fields) => Ok(checksum_of(before, fields.items())),
        Err(WireFault::BadMessage) => Err(Fault::Refused),
        Err(WireFault::NoMemory) => Err(Fault::NoMemory),
    }
}

fn checksum_of(before: u64, fields: &[Field]) -> u64
    ensures { result ≡ fold mixed before fields.now }
{
    fields
        .iter()
        .fold(before, |checksum, field| mixed(checksum, field))
}

fn mixed(before: u64, field: &Field) -> u64
    ensures { result ≡ mixed before field.now }
{
    added(added(before, u64::from(field.number)), figure(&field.body))
}

// The number that a field holds, or how many octets.
fn figure(body: &Body) -> u64
    ensures { result ≡ figure body.now }
{
    match *body {
        Body::Varint(value) | Body::Eight(value) => value,
        Body::Octets(from, to) => to.saturating_sub(from) as u64,
        Body::Four(value) => u64::from(value),
    }
}
