//! A Notification of rows that the program makes itself is written, or its updates are read as a SetRequest: how many octets
//! these are, and how many rows.
use crate::fault::Fault;
use crate::rows::made;
use base_kinds::{Note, Paths, Text};
use base_lists::Bytes;
use gnmi_kinds::Encoding;
use gnmi_note_msg::write_note;
use gnmi_set_msg::read_set;
use schema_core::Schema;
use std::alloc::Global;
use std::io;

#[derive(Clone, Copy, Debug)]
pub enum Case {
    /// The rows alone are made, once.
    Rows,
    /// A Notification is written in each round, its values as scalars.
    Written,
    /// And its octets are read as a SetRequest.
    Read,
}

pub const CASES: [Case; 3] = [Case::Rows, Case::Written, Case::Read];

/// How many octets were written or read in all rounds, and how many rows they held.
#[derive(Clone, Copy, Debug)]
pub struct Sums {
    pub octets: u64,
    pub rows: u64,
}

impl Case {
    pub fn named(name: &str) -> Option<Case> {
        match name {
            "rows" => Some(Case::Rows),
            "written" => Some(Case::Written),
            "read" => Some(Case::Read),
            _ => None,
        }
    }

    pub fn name(self) -> &'static str {
        match self {
            Case::Rows => "rows",
            Case::Written => "written",
            Case::Read => "read",
        }
    }

    pub fn run(self, alloc: Global, number: u32, rounds: u32) -> Result<Sums, Fault> {
        let note = note(alloc, number)?;
        match self {
            Case::Rows => Ok(Sums {
                octets: 0,
                rows: note.updates.len() as u64,
            }),
            Case::Written => writes(alloc, &note, rounds),
            Case::Read => reads(alloc, &note, rounds),
        }
    }
}

/// A notification without a time, a target and deletes: its octets are those of a SetRequest with the same updates (gnmi.proto:
/// `update` is field 4 of both).
fn note(alloc: Global, number: u32) -> Result<Note, Fault> {
    Ok(Note {
        stamp: 0,
        deletes: Paths::empty(alloc),
        updates: made(alloc, number, 1500)?,
    })
}

/// The octets of a Notification of these rows.
fn octets_of(alloc: Global, note: &Note) -> Result<Bytes, Fault> {
    let target = Text::of(alloc, b"")?;
    let schema = Schema::empty(alloc);
    let mut octets = Bytes::empty(alloc);
    write_note(alloc, note, &target, Encoding::Proto, &schema, &mut octets)?;
    Ok(octets)
}

fn writes(alloc: Global, note: &Note, rounds: u32) -> Result<Sums, Fault> {
    let mut sums = Sums { octets: 0, rows: 0 };
    for _ in 0..rounds {
        let octets = octets_of(alloc, note)?;
        sums.octets = sums.octets.wrapping_add(octets.len() as u64);
        sums.rows = sums.rows.wrapping_add(note.updates.len() as u64);
    }
    Ok(sums)
}

fn reads(alloc: Global, note: &Note, rounds: u32) -> Result<Sums, Fault> {
    let octets = octets_of(alloc, note)?;
    let mut sums = Sums { octets: 0, rows: 0 };
    for _ in 0..rounds {
        let ask = read_set(alloc, octets.items())?;
        sums.octets = sums.octets.wrapping_add(octets.len() as u64);
        sums.rows = sums.rows.wrapping_add(ask.updates.len() as u64);
    }
    Ok(sums)
}

/// Runs a case, and prints what it did.
pub fn print_case(
    alloc: Global,
    rt: &impl Print,
    case: Case,
    number: u32,
    rounds: u32,
) -> io::Result<()> {
    let Sums { octets, rows } = case.run(alloc, number, rounds)?;
    let name = case.name();
    println!(rt; "{name}: {number} rows, {rounds} rounds, {octets} octets, {rows} rows in them")
}
