//! Turns of streams over rows that the program makes itself: how many rows were sent.
ghost use Rattle.std.specs.Prelude.{IfOk};
ghost use Rattle.base_kinds.specs.Rising.{IsRising};

use crate::fault::Fault;
use crate::rows::{made, with_first};
use base_kinds::{Copied, ListMode, NoMemory, Path, Rows, Seq, Text, View};
use gnmi_kinds::Encoding;
use std::alloc::Global;
use std::io;
use stream_core::Stream;
use sub_plan::{Group, GroupSort, Line, Plan};
use tree_check::are_rising;

#[derive(Clone, Copy, Debug)]
pub enum Case {
    /// The rows of each turn are copied, and no turn is made.
    Copies,
    /// Turns at which nothing has changed.
    Nothing,
    /// Turns at which one row has changed.
    One,
    /// Turns at which all rows have changed.
    All,
    /// As many streams as there are rounds.
    Streams,
}

pub const CASES: [Case; 5] = [
    Case::Copies,
    Case::Nothing,
    Case::One,
    Case::All,
    Case::Streams,
];

impl Case {
    pub fn named(name: &str) -> Option<Case> {
        match name {
            "copies" => Some(Case::Copies),
            "nothing" => Some(Case::Nothing),
            "one" => Some(Case::One),
            "all" => Some(Case::All),
            "streams" => Some(Case::Streams),
            _ => None,
        }
    }

    pub fn name(self) -> &'static str {
        match self {
            Case::Copies => "copies",
            Case::Nothing => "nothing",
            Case::One => "one",
            Case::All => "all",
            Case::Streams => "streams",
        }
    }

    /// How many rows and deletes were sent in all rounds.
    pub fn run(self, alloc: Global, number: u32, rounds: u32) -> Result<u64, Fault> {
        let first = made(alloc, number, 1)?;
        match self {
            Case::Copies => copies(alloc, &first, rounds),
            Case::Nothing => turns(alloc, &first, &first, rounds),
            Case::One => {
                let other = with_first(alloc, number, 1, 2)?;
                turns(alloc, &first, &other, rounds)
            }
            Case::All => {
                let other = made(alloc, number, 2)?;
                turns(alloc, &first, &other, rounds)
            }
            Case::Streams => streams(alloc, &first, rounds),
        }
    }
}

fn view_of(alloc: Global, stamp: u64, rows: &Rows) -> Result<View, NoMemory>
    requires { IsRising rows.now }
    ensures { IfOk result (λ view. IsRising view.rows) }
{
    let rows = rows.copy(alloc)?;
    Ok(View { stamp, rows })
}

/// All rows as they change, without those that the subscriber knows at the beginning.
fn plan(alloc: Global) -> Result<Plan, Fault> {
    let mut lines = Seq::empty(alloc);
    lines.push(Line {
        pattern: Path::empty(alloc),
        group: 0,
    })?;
    let mut groups = Seq::empty(alloc);
    groups.push(Group {
        sort: GroupSort::Change,
        interval: 0,
        suppress: false,
        heartbeat: 0,
    })?;
    Ok(Plan {
        lines,
        groups,
        mode: ListMode::Stream,
        updates_only: true,
        encoding: Encoding::Proto,
        target: Text::of(alloc, b"")?,
    })
}

fn copies(alloc: Global, rows: &Rows, rounds: u32) -> Result<u64, Fault> {
    let mut copied = 0u64;
    for _ in 0..rounds {
        let rows = rows.copy(alloc)?;
        copied = copied.wrapping_add(rows.len() as u64);
    }
    Ok(copied)
}

fn turn(alloc: Global, stream: &mut Stream, stamp: u64, rows: &Rows) -> Result<u64, NoMemory>
    requires { IsRising rows.now }
{
    let view = view_of(alloc, stamp, rows)?;
    match stream.turn(alloc, stamp, view)? {
        Some(note) => {
            let deletes = note.deletes.len() as u64;
            Ok(deletes.wrapping_add(note.updates.len() as u64))
        }
        None => Ok(0),
    }
}

// Turns over one list of rows and the other, one after the other.
fn turns(alloc: Global, first: &Rows, other: &Rows, rounds: u32) -> Result<u64, Fault> {
    if !are_rising(first.items()) || !are_rising(other.items()) {
        return Err(Fault::Refused);
    }
    let view = view_of(alloc, 0, first)?;
    let (mut stream, _) = Stream::start(alloc, plan(alloc)?, 0, view)?;
    let mut sent = 0u64;
    for round in 0..rounds {
        let stamp = u64::from(round);
        let more = if round % 2 == 0 {
            turn(alloc, &mut stream, stamp, other)?
        } else {
            turn(alloc, &mut stream, stamp, first)?
        };
        sent = sent.wrapping_add(more);
    }
    Ok(sent)
}

fn started(alloc: Global, rows: &Rows) -> Result<Stream, Fault>
    requires { IsRising rows.now }
{
    let view = view_of(alloc, 0, rows)?;
    let (stream, _) = Stream::start(alloc, plan(alloc)?, 0, view)?;
    Ok(stream)
}

fn add(alloc: Global, all: &mut Vec<Stream>, rows: &Rows) -> Result<(), Fault>
    requires { IsRising rows.now }
{
    match all.push(started(alloc, rows)?) {
        Ok(()) => Ok(()),
        Err(_) => Err(Fault::NoMemory),
    }
}

// Streams that are kept until the last one is there.
fn streams(alloc: Global, rows: &Rows, rounds: u32) -> Result<u64, Fault> {
    if !are_rising(rows.items()) {
        return Err(Fault::Refused);
    }
    let mut all = Vec::new(alloc);
    for _ in 0..rounds {
        add(alloc, &mut all, rows)?;
    }
    Ok(all.len() as u64)
}

/// Runs a case, and prints what it did.
pub fn print_case(
    alloc: Global,
    rt: &impl Print,
    case: Case,
    number: u32,
    rounds: u32,
) -> io::Result<()> {
    let sent = case.run(alloc, number, rounds)?;
    let name = case.name();
    println!(rt; "{name}: {number} rows, {rounds} rounds, {sent} sent")
}
