// The openings of a script's book behind a stop.
ghost use Rattle.std.specs.Prelude.{◌≡◌, ◌++◌, ◌∷◌, [], Some, codes, false, length, IfOk, OnOk};
ghost use Rattle.std.specs.Fmt.{decimal};
ghost use Rattle.script_run.specs.inner.ScriptBooks.{HasFewerStops, IsLeftByStop, IsReopenable, MayStand, Reopens, RestartsBook, RestartsOn, book_if};

use crate::book::{ScriptBook, new_book};
use base_kinds::{Bytes, LEAST_LOG_ENTRIES, LEAST_LOG_OCTETS, Limits, NoMemory};
use base_lists::Copied;
use book_core::{Book, BookEnd, BookOpening, books_reopen};
use disk_model::Armed;
use memory_disks::FuseDisk;
use plain_texts::put_number_line;
use plain_tree::PlainTree;
use schema_core::Schema;
use std::alloc::Global;

/// What an opening gave.
#[derive(Drop)]
pub enum Reopening {
    Ready(ScriptBook),
    /// The disk stopped in it: a new disk of what that left.
    Stopped(FuseDisk),
    /// A call of the disk failed.
    Failed,
}

/// Opens the book anew whose disk has stopped, with the clock as it is, and again where the disk stops in that. Adds what is
/// printed at each. The answer is whether a book was opened: else a call of the disk has failed.
pub fn restart(
    alloc: Global,
    book: &mut ScriptBook,
    reading: u64,
    out: &mut Bytes,
) -> Result<bool, NoMemory>
    requires { MayStand book.old }
    ensures may_stand { MayStand book.new }
    ensures restarts { IfOk result (RestartsBook reading book.old book.new out.old out.new) }
{
    let schema = book.schema().copy(alloc)?;
    let stand_in = stand_in(alloc)?;
    let disk = left_by_stop(book, stand_in);
    reopen_into(alloc, book, disk, &schema, reading, out)
}

/// A disk of what the book's stop left. Another book stands in its place then.
fn left_by_stop(book: &mut ScriptBook, stand_in: ScriptBook) -> FuseDisk
    requires { MayStand book.old }
    ensures book { book.new ≡ stand_in }
    ensures disk { IsLeftByStop book.old result }
{
    books_reopen::<FuseDisk, PlainTree>();
    let BookEnd { disk, .. } = std::mem::replace(book, stand_in).end();
    disk.again()
}

/// Opens the book anew on this disk.
fn reopen_into(
    alloc: Global,
    book: &mut ScriptBook,
    disk: FuseDisk,
    schema: &Schema,
    reading: u64,
    out: &mut Bytes,
) -> Result<bool, NoMemory>
    requires may_stand { MayStand book.old }
    requires reopenable { IsReopenable schema.now disk }
    ensures may_stand { MayStand book.new }
    ensures restarts { IfOk result (λ goes_on.
        RestartsOn schema.now reading disk out.old out.new (book_if goes_on book.new)) }
{
    match reopen(alloc, disk, schema, reading, out)? {
        Some(opened) => {
            drop(std::mem::replace(book, opened));
            Ok(true)
        }
        None => Ok(false),
    }
}

/// A book that stands where another one is taken from.
fn stand_in(alloc: Global) -> Result<ScriptBook, NoMemory>
    ensures { IfOk result MayStand }
{
    let limits = Limits {
        entries: LEAST_LOG_ENTRIES,
        octets: LEAST_LOG_OCTETS,
    };
    new_book(alloc, Schema::empty(alloc), limits)
}

/// Opens a book on what a stop left, and again where the disk stops in that. Adds what is printed at each.
fn reopen(
    alloc: Global,
    disk: FuseDisk,
    schema: &Schema,
    reading: u64,
    out: &mut Bytes,
) -> Result<Option<ScriptBook>, NoMemory>
    requires { IsReopenable schema.now disk }
    ensures { IfOk result (RestartsOn schema.now reading disk out.old out.new) }
{
    let mut disk = disk;
    'openings: loop {
        match reopen_once(alloc, disk, schema, reading, out)? {
            Reopening::Ready(book) => return say_reopened(alloc, book, out),
            Reopening::Stopped(next) => disk = next,
            Reopening::Failed => return Ok(None),
        }
    }
}

/// Adds what is printed at the opening of this book.
fn say_reopened(
    alloc: Global,
    book: ScriptBook,
    out: &mut Bytes,
) -> Result<Option<ScriptBook>, NoMemory>
    ensures book { IfOk result (λ opened. opened ≡ Some book) }
    ensures line { OnOk result (out.new
        ≡ out.old ++ (codes "reopened " ++ (decimal (length book.chronicle) ++ 10 ∷ []))) }
{
    match put_number_line(alloc, b"reopened ", book.count(), out) {
        Ok(()) => Ok(Some(book)),
        Err(NoMemory) => {
            drop(book);
            Err(NoMemory)
        }
    }
}

/// Opens a book on what a stop left. Adds what is printed at the stop.
fn reopen_once(
    alloc: Global,
    disk: FuseDisk,
    schema: &Schema,
    reading: u64,
    out: &mut Bytes,
) -> Result<Reopening, NoMemory>
    requires { IsReopenable schema.now disk }
    ensures opens { IfOk result (Reopens schema.now reading disk) }
    ensures fewer { IfOk result (HasFewerStops disk) }
    ensures line { OnOk result (out.new ≡ out.old ++ codes "stopped\n") }
{
    let copy = say_stopped(alloc, schema, out)?;
    open_left(alloc, disk, copy, reading)
}

/// Adds what is printed at a stop. The answer is a schema for the opening behind it.
fn say_stopped(alloc: Global, schema: &Schema, out: &mut Bytes) -> Result<Schema, NoMemory>
    ensures copy { IfOk result (λ copy. copy ≡ schema.now) }
    ensures line { OnOk result (out.new ≡ out.old ++ codes "stopped\n") }
{
    out.extend_from_slice(b"stopped\n")?;
    schema.copy(alloc)
}

/// Opens a book by this schema on what a stop left.
fn open_left(
    alloc: Global,
    disk: FuseDisk,
    schema: Schema,
    reading: u64,
) -> Result<Reopening, NoMemory>
    requires { IsReopenable schema disk }
    ensures opens { IfOk result (Reopens schema reading disk) }
    ensures fewer { IfOk result (HasFewerStops disk) }
{
    books_reopen::<FuseDisk, PlainTree>();
    let tree = PlainTree::empty(alloc);
    match Book::reopen(alloc, disk, tree, schema, reading) {
        BookOpening::Ready(book) => Ok(Reopening::Ready(book)),
        BookOpening::Damaged(_, _) => unreachable!(),
        BookOpening::Unfit(_) => unreachable!(),
        BookOpening::DiskFault(disk) => {
            if disk.starved() {
                drop(disk);
                return Err(NoMemory);
            }
            if disk.stopped() {
                return Ok(Reopening::Stopped(disk.again()));
            }
            drop(disk);
            Ok(Reopening::Failed)
        }
        BookOpening::NoMemory(disk) => {
            drop(disk);
            Err(NoMemory)
        }
    }
}
