//! A connection that was served from its first octet to its last one.
use crate::edges::Pieces;
use base_kinds::Copied;
use base_lists::{Bytes, Seq, Texts};
use book_core::Single;
use environment::{MemSink, MemSource, StepClock};
use memory_disks::MemDisk;
use plain_tree::PlainTree;
use request_desk::Desk;
use schema_core::Schema;
use schema_text::read_schema;
use session_core::{How, SessionEnd, serve_alone};
use std::alloc::Global;
use std::process::Abort;
use test_builders::{decimals, new_book};
use test_captures::SCHEMA;

/// What a connection came to: how it ended, what was written, and how many entries its book has.
#[derive(Drop)]
pub(crate) struct Outcome {
    pub(crate) how: How,
    pub(crate) written: Bytes,
    pub(crate) entries: u64,
}

impl Outcome {
    /// Whether it ended so, and just these octets were written.
    pub(crate) fn came_to(&self, how: How, written: &[u8]) -> bool {
        self.how == how && self.written.items() == written
    }
}

fn schema(rt: &impl Abort, alloc: Global) -> Schema {
    read_schema(alloc, SCHEMA.as_bytes()).expect(rt, "a schema")
}

/// A clock that always reads 1000.
fn clock(rt: &impl Abort, alloc: Global) -> StepClock {
    StepClock::make(Seq::of(alloc, &[1000]).expect(rt, "memory"))
}

/// The calls of an object that fail: none for 0, or the one with this number.
fn fails(rt: &impl Abort, alloc: Global, number: u64) -> Texts {
    decimals(alloc, &[number]).expect(rt, "memory")
}

/// A source of these octets in pieces of this size, at least 1, that fails in the read with this number.
fn pieces(rt: &impl Abort, alloc: Global, octets: &[u8], size: usize, read: u64) -> Pieces {
    let octets = Bytes::of(alloc, octets).expect(rt, "memory");
    Pieces {
        source: MemSource::make(octets, fails(rt, alloc, read)),
        size: size.max(1),
    }
}

/// What is looked at of what a session handed back.
fn outcome_of(
    rt: &impl Abort,
    alloc: Global,
    end: SessionEnd<Pieces, MemSink, Single<MemDisk, PlainTree>, StepClock>,
) -> Outcome {
    let SessionEnd {
        how,
        input: _,
        output,
        book,
        clock: _,
    } = end;
    Outcome {
        how,
        written: Bytes::of(alloc, output.octets()).expect(rt, "memory"),
        entries: book.give().count(),
    }
}

/// Serves a connection over a source that fails in the read, and a sink that fails in the write, with this number; none where it
/// is 0. The octets come in pieces of this size, at least 1. The clock always reads 1000.
pub(crate) fn served_with(
    rt: &impl Abort,
    alloc: Global,
    octets: &[u8],
    size: usize,
    read: u64,
    write: u64,
) -> Outcome {
    let clock = clock(rt, alloc);
    let input = pieces(rt, alloc, octets, size, read);
    let output = MemSink::make(alloc, fails(rt, alloc, write));
    let schema = schema(rt, alloc);
    let desk = Desk::make(schema.copy(alloc).expect(rt, "memory"));
    let port = Single::make(new_book(alloc, schema).expect(rt, "a book"), 1);
    let end = serve_alone(alloc, input, output, port, &desk, clock);
    outcome_of(rt, alloc, end)
}

/// Serves a connection over objects that don't fail.
pub(crate) fn served(rt: &impl Abort, alloc: Global, octets: &[u8], size: usize) -> Outcome {
    served_with(rt, alloc, octets, size, 0, 0)
}
