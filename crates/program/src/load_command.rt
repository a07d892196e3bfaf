ghost use Rattle.std.specs.Prelude.{◌≡◌, ◌<◌, ◌≤◌, ◌⊎◌, ◌^◌, [], ◌∷◌, length, IfErr, IfOk, Ok, Some};
ghost use Rattle.base_kinds.specs.Events.{view_of};
ghost use Rattle.base_kinds.specs.Limits.{default_limits};
ghost use Rattle.base_kinds.specs.Step.{after_expiry};
ghost use Rattle.schema_text.specs.Schemas.{schema_of};
ghost use Rattle.book_core.specs.Openings.{HasJournal};
ghost use Rattle.book_core.specs.Views.{history_in};
ghost use Rattle.generated_sets.specs.Schemas.{schema_text};
ghost use Rattle.program.specs.LoadRun.{Counts, CountsNone, HasNoSchema, IsMemory, LoadRun, Serves, line_of, load_line, load_reading};
ghost use Rattle.program.specs.inner.Loads.{CannotRead, CountsDisk, ServesOctets, counted_on, one_if, seen_memory};

use crate::ending::Ending;
use crate::host::{Host, Kit};
use crate::printing::{out_of_memory, print};
use crate::session_command::{DiskSession, Streams, on_disk};
use crate::steady_clock::SteadyClock;
use base_kinds::{Bytes, Entries, Entry, NoMemory, Path, Paths, Texts, View, default_limits};
use base_lists::Copied;
use book_core::{Book, BookEnd, BookOpening};
use commit_journal::Ledger;
use disk_model::Disk;
use environment::{MemSink, MemSource};
use generated_sets::{connection_of_sets, schema_text};
use memory_disks::MemDisk;
use plain_texts::put_number;
use plain_tree::PlainTree;
use request_desk::Desk;
use schema_core::Schema;
use schema_text::{SchemaError, read_schema};
use std::alloc::Global;

/// What the clock of a load always reads.
const READING: u64 = 1000;

/// The author of the Sets.
const CLIENT: u32 = 1;

/// What a connection of generated Sets leaves.
#[derive(Drop)]
struct LoadEnd {
    disk: MemDisk,
    ending: Ending,
}

/// Makes so many generated Sets over memory, and prints what came of them.
pub fn load<K: Kit>(alloc: Global, seed: u64, count: u32, host: &mut Host<K>) -> Ending
    requires { count < 2 ^ 30 }
    ensures run { LoadRun seed count host.old host.new result }
    ensures door { host.new.door ≡ host.old.door }
{
    match report(alloc, seed, count) {
        Ok(line) => print(line.items(), Ending::Done, &mut host.output),
        Err(Ending::NoMemory) => out_of_memory(&mut host.output),
        Err(ending) => ending,
    }
}

/// The line on what came of the Sets.
fn report(alloc: Global, seed: u64, count: u32) -> Result<Bytes, Ending>
    requires { count < 2 ^ 30 }
    ensures ok { IfOk result (λ line. Counts seed count line) }
    ensures err { IfErr result (λ ending. CountsNone seed count ending) }
{
    let schema = schema_of_sets(alloc)?;
    let Ok(copy) = schema.copy(alloc) else {
        return Err(Ending::NoMemory);
    };
    let Ok(end) = served(alloc, seed, count, schema) else {
        return Err(Ending::NoMemory);
    };
    let LoadEnd { disk, ending } = end;
    match ending {
        Ending::Done => line_of_disk(alloc, count, disk, copy),
        _ => Err(ending),
    }
}

/// The schema under which the Sets are made.
fn schema_of_sets(alloc: Global) -> Result<Schema, Ending>
    ensures ok { IfOk result (λ schema. schema_of schema_text ≡ Ok schema) }
    ensures err { IfErr result (λ ending. (ending ≡ Ending.NoMemory) ⊎ HasNoSchema ending) }
{
    match read_schema(alloc, schema_text()) {
        Ok(schema) => Ok(schema),
        Err(SchemaError::NoMemory) => Err(Ending::NoMemory),
        Err(SchemaError::Fault(_)) => Err(Ending::NoSchema),
    }
}

/// A disk with a journal without entries.
fn new_journal(alloc: Global) -> Result<MemDisk, NoMemory>
    ensures journal { IfOk result (λ disk. HasJournal (Some disk.content) default_limits []) }
    ensures memory { IfOk result (λ disk. IsMemory (seen_memory disk)) }
{
    let mut disk = MemDisk::make(alloc);
    match Ledger::create(alloc, &mut disk, &default_limits()) {
        Ok(()) => Ok(looked_at(disk)),
        Err(_) => {
            drop(disk);
            Err(NoMemory)
        }
    }
}

/// Serves the client under this schema.
fn served(alloc: Global, seed: u64, count: u32, schema: Schema) -> Result<LoadEnd, NoMemory>
    requires count { count < 2 ^ 30 }
    requires schema { schema_of schema_text ≡ Ok schema }
    ensures serves { IfOk result (λ end.
        Serves seed count schema (seen_memory end.disk) end.ending) }
    ensures memory { IfOk result (λ end. IsMemory (seen_memory end.disk)) }
{
    match schema.copy(alloc) {
        Ok(copy) => served_by(alloc, seed, count, schema, &Desk::make(copy)),
        Err(NoMemory) => {
            drop(schema);
            Err(NoMemory)
        }
    }
}

/// Serves the client by this desk.
fn served_by(
    alloc: Global,
    seed: u64,
    count: u32,
    schema: Schema,
    desk: &Desk,
) -> Result<LoadEnd, NoMemory>
    requires count { count < 2 ^ 30 }
    requires schema { schema_of schema_text ≡ Ok schema }
    requires desk { desk.now ≡ schema }
    ensures serves { IfOk result (λ end.
        Serves seed count schema (seen_memory end.disk) end.ending) }
    ensures memory { IfOk result (λ end. IsMemory (seen_memory end.disk)) }
{
    match new_journal(alloc) {
        Ok(disk) => served_on(alloc, seed, count, schema, desk, disk),
        Err(NoMemory) => {
            drop(schema);
            Err(NoMemory)
        }
    }
}

/// Serves the client over the journal on this disk.
fn served_on(
    alloc: Global,
    seed: u64,
    count: u32,
    schema: Schema,
    desk: &Desk,
    disk: MemDisk,
) -> Result<LoadEnd, NoMemory>
    requires count { count < 2 ^ 30 }
    requires schema { schema_of schema_text ≡ Ok schema }
    requires desk { desk.now ≡ schema }
    requires journal { HasJournal (Some disk.content) default_limits [] }
    requires memory { IsMemory (seen_memory disk) }
    ensures serves { IfOk result (λ end.
        Serves seed count schema (seen_memory end.disk) end.ending) }
    ensures memory { IfOk result (λ end. IsMemory (seen_memory end.disk)) }
{
    match connection_of_sets(alloc, seed, count) {
        Ok(octets) => Ok(served_octets(alloc, schema, desk, disk, octets)),
        Err(NoMemory) => {
            drop(schema);
            drop(disk);
            Err(NoMemory)
        }
    }
}

/// Serves a client that sends these octets.
fn served_octets(
    alloc: Global,
    schema: Schema,
    desk: &Desk,
    disk: MemDisk,
    octets: Bytes,
) -> LoadEnd
    requires { desk.now ≡ schema }
    ensures serves { ServesOctets octets schema (seen_memory disk) (seen_memory result.disk)
        result.ending }
    ensures memory { IsMemory (seen_memory result.disk) }
{
    let streams = Streams {
        input: MemSource::make(octets, Texts::empty(alloc)),
        output: MemSink::make(alloc, Texts::empty(alloc)),
        clock: SteadyClock::make(),
    };
    let DiskSession {
        disk,
        streams,
        how: _,
        ending,
    } = on_disk(alloc, schema, desk, disk, streams);
    let Streams {
        input,
        output,
        clock: _clock,
    } = streams;
    drop(input);
    drop(output);
    let disk = looked_at(disk);
    LoadEnd { disk, ending }
}

/// The disk, of which it is known then that what its reads give is what a stop may leave.
fn looked_at(disk: MemDisk) -> MemDisk
    ensures same { result ≡ disk }
    ensures memory { IsMemory (seen_memory disk) }
{
    let mut disk = disk;
    let _length = disk.len();
    disk
}

/// The line on what the journal on this disk has.
fn line_of_disk(alloc: Global, count: u32, disk: MemDisk, schema: Schema) -> Result<Bytes, Ending>
    ensures ok { IfOk result (λ line. CountsDisk count (seen_memory disk) line) }
    ensures err { IfErr result (λ ending. (ending ≡ Ending.NoMemory)
        ⊎ CannotRead schema (seen_memory disk) ending) }
{
    match Book::reopen(alloc, disk, PlainTree::empty(alloc), schema, READING) {
        BookOpening::Ready(book) => match line_of_book(alloc, count, book) {
            Ok(line) => Ok(line),
            Err(NoMemory) => Err(Ending::NoMemory),
        },
        BookOpening::Damaged(_, disk) => {
            drop(disk);
            Err(Ending::JournalDamaged)
        }
        BookOpening::Unfit(disk) => {
            drop(disk);
            Err(Ending::SchemaUnfit)
        }
        BookOpening::DiskFault(disk) => {
            drop(disk);
            Err(Ending::DiskFault)
        }
        BookOpening::NoMemory(disk) => {
            drop(disk);
            Err(Ending::NoMemory)
        }
    }
}

/// The line on the history of this book.
fn line_of_book(
    alloc: Global,
    count: u32,
    book: Book<MemDisk, PlainTree>,
) -> Result<Bytes, NoMemory>
    ensures { IfOk result (λ line.
        line ≡ load_line count (after_expiry (history_in book) load_reading)) }
{
    let mut book = book;
    let view = view_of_all(alloc, &mut book);
    // The book is let go here, on one way.
    let entries = entries_of(book);
    match view {
        Ok(view) => line_of_view(alloc, count, entries.items(), &view),
        Err(NoMemory) => Err(NoMemory),
    }
}

/// The whole tree of this book, behind the event of the clock.
fn view_of_all(alloc: Global, book: &mut Book<MemDisk, PlainTree>) -> Result<View, NoMemory>
    ensures view { IfOk result (λ view. view ≡ view_of (history_in book.new) ([] ∷ [])) }
    ensures history { IfOk result (λ _.
        history_in book.new ≡ after_expiry (history_in book.old) load_reading) }
{
    let mut root = Paths::empty(alloc);
    root.push(Path::empty(alloc))?;
    match book.look(alloc, READING, CLIENT, &root) {
        Ok(view) => Ok(view),
        Err(_) => Err(NoMemory),
    }
}

/// The history of this book.
fn entries_of(book: Book<MemDisk, PlainTree>) -> Entries
    ensures { result ≡ history_in book }
{
    let BookEnd { disk, entries } = book.end();
    drop(disk);
    entries
}

/// The line on a history and the view of its whole tree.
fn line_of_view(
    alloc: Global,
    count: u32,
    entries: &[Entry],
    view: &View,
) -> Result<Bytes, NoMemory>
    ensures { IfOk result (λ line. line ≡ line_of count (counted_on 1 0 entries.now)
        (length entries.now) (length view.now.rows) view.now.stamp) }
{
    let made = count_by(entries, CLIENT);
    line_of(
        alloc,
        u64::from(count),
        made,
        entries.len() as u64,
        view.rows.len() as u64,
        view.stamp,
    )
}

/// How many entries are this author's.
fn count_by(entries: &[Entry], author: u32) -> u64
    ensures { result ≡ counted_on author 0 entries.now }
{
    let mut count = 0;
    'entries: for entry in entries {
        count += one_if(entry.author == author);
    }
    count
}

fn one_if(holds: bool) -> u64
    ensures number { result ≡ one_if holds }
    ensures bound { result ≤ 1 }
{
    if holds { 1 } else { 0 }
}

/// The line of these numbers.
fn line_of(
    alloc: Global,
    sets: u64,
    ok: u64,
    entries: u64,
    leaves: u64,
    stamp: u64,
) -> Result<Bytes, NoMemory>
    ensures { IfOk result (λ line. line ≡ line_of sets ok entries leaves stamp) }
{
    let mut line = Bytes::of(alloc, b"sets ")?;
    put_number(alloc, sets, &mut line)?;
    line.extend_from_slice(b" ok ")?;
    put_number(alloc, ok, &mut line)?;
    line.extend_from_slice(b" entries ")?;
    put_number(alloc, entries, &mut line)?;
    line.extend_from_slice(b" leaves ")?;
    put_number(alloc, leaves, &mut line)?;
    line.extend_from_slice(b" stamp ")?;
    put_number(alloc, stamp, &mut line)?;
    line.extend_from_slice(b"\n")?;
    Ok(line)
}
