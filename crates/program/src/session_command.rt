ghost use Rattle.std.specs.Prelude.{◌≡◌, [], None, Err, IfOk, IfErr, option_map};
ghost use Rattle.book_core.specs.Singles.{port_of};
ghost use Rattle.program.specs.Environment.{seen_disk, seen_door};
ghost use Rattle.program.specs.SchemaGiven.{GaveSchema, SchemaGives};
ghost use Rattle.program.specs.SessionCommand.{IsLeft, OnDisk, SessionCommand, ending_of, ending_without_schema};
ghost use Rattle.program.specs.inner.ServedBook.{Served, environment_of};

use crate::command_end::CommandEnd;
use crate::ending::Ending;
use crate::files::Files;
use crate::host::{Host, Kit};
use crate::schema_file::{SchemaFileError, schema_in_file};
use base_kinds::Copied;
use book_core::{Book, BookEnd, BookOpening, Single};
use disk_model::Disk;
use environment::{Clock, Sink, Source};
use plain_tree::PlainTree;
use request_desk::Desk;
use schema_core::Schema;
use session_core::{How, SessionEnd, serve_alone};
use std::alloc::Global;
use std::marker::Model;

/// The author of the entries that the client of a session adds.
const CLIENT: u32 = 1;

/// What a connection is served over.
#[derive(Drop)]
pub struct Streams<I: Source, O: Sink, C: Clock> {
    pub input: I,
    pub output: O,
    pub clock: C,
}

impl<I: Source, O: Sink, C: Clock> Model for Streams<I, O, C> {
    ghost use Rattle.program.specs.SessionCommand.{Streams};

    ghost Value = { Streams };

    ghost view = { λ s. record {
      input = I.seen s.input;
      output = O.seen s.output;
      clock = C.readings s.clock;
    } };
}

/// What a session leaves of what it was handed, and how it ended.
#[derive(Drop)]
pub(crate) struct DiskSession<D, I: Source, O: Sink, C: Clock> {
    pub(crate) disk: D,
    pub(crate) streams: Streams<I, O, C>,
    pub(crate) how: Option<How>,
    pub(crate) ending: Ending,
}

/// Serves one connection over the input and the output, under the schema whose text is in the one file, on the book whose journal
/// is in the other.
pub fn session<K: Kit>(alloc: Global, schema: &str, journal: &str, host: Host<K>) -> CommandEnd<K>
    ensures run { SessionCommand schema.now journal.now host result.host
        (option_map (λ disk. seen_disk K.Files.Disk.told K.Files.Disk.faults disk) result.disk)
        result.how result.ending }
    ensures door { result.host.door ≡ host.door }
    ensures links { result.links.items ≡ [] }
{
    let Host {
        mut files,
        input,
        output,
        door,
        clock,
        pacer,
    } = host;
    let streams = Streams {
        input,
        output,
        clock,
    };
    match schema_and_desk(alloc, schema, &mut files) {
        Ok((schema, desk)) => match files.disk(journal) {
            Ok(disk) => {
                let end = on_disk(alloc, schema, &desk, disk, streams);
                CommandEnd {
                    host: host_of(files, end.streams, door, pacer),
                    disk: Some(end.disk),
                    how: end.how,
                    links: Vec::new(alloc),
                    ending: end.ending,
                }
            }
            Err(_) => CommandEnd::without_disk(
                alloc,
                host_of(files, streams, door, pacer),
                Ending::DiskFault,
            ),
        },
        Err(error) => CommandEnd::without_disk(
            alloc,
            host_of(files, streams, door, pacer),
            ending_without_schema(error),
        ),
    }
}

fn host_of<K: Kit>(
    files: K::Files,
    streams: Streams<K::Input, K::Output, K::Clock>,
    door: K::Door,
    pacer: K::Pacer,
) -> Host<K>
    ensures { result ≡ environment_of (K.Files.seen files) streams
        (seen_door K.Door.Reader.seen K.Door.Writer.seen (K.Door.seen door)) }
{
    let Streams {
        input,
        output,
        clock,
    } = streams;
    Host {
        files,
        input,
        output,
        door,
        clock,
        pacer,
    }
}

/// The schema in the file with this name, once for a book and once for the desk that answers.
fn schema_and_desk<F: Files>(
    alloc: Global,
    name: &str,
    files: &mut F,
) -> Result<(Schema, Desk), SchemaFileError>
    ensures schema { IfOk result (λ both.
        GaveSchema name.now both.0 (F.seen files.old) (F.seen files.new)) }
    ensures desk { IfOk result (λ both. both.1 ≡ both.0) }
    ensures none { IfErr result (λ error.
        SchemaGives name.now (Err error) (F.seen files.old) (F.seen files.new)) }
{
    match schema_in_file(alloc, name, files) {
        Ok(schema) => match schema.copy(alloc) {
            Ok(copy) => Ok((schema, Desk::make(copy))),
            Err(_) => Err(SchemaFileError::NoMemory),
        },
        Err(error) => Err(error),
    }
}

/// Opens the book of the journal on the disk, and serves the connection.
pub(crate) fn on_disk<D: Disk + Drop, I: Source, O: Sink, C: Clock>(
    alloc: Global,
    schema: Schema,
    desk: &Desk,
    disk: D,
    streams: Streams<I, O, C>,
) -> DiskSession<D, I, O, C>
    requires { desk.now ≡ schema }
    ensures { OnDisk schema (seen_disk D.told D.faults disk)
        (seen_disk D.told D.faults result.disk) streams result.streams result.how result.ending }
{
    let mut streams = streams;
    let now = streams.clock.now();
    match Book::reopen(alloc, disk, PlainTree::empty(alloc), schema, now) {
        BookOpening::Ready(book) => serve(alloc, desk, book, streams),
        BookOpening::Damaged(_, disk) => unserved(disk, streams, Ending::JournalDamaged),
        BookOpening::Unfit(disk) => unserved(disk, streams, Ending::SchemaUnfit),
        BookOpening::DiskFault(disk) => unserved(disk, streams, Ending::DiskFault),
        BookOpening::NoMemory(disk) => unserved(disk, streams, Ending::NoMemory),
    }
}

fn unserved<D, I: Source, O: Sink, C: Clock>(
    disk: D,
    streams: Streams<I, O, C>,
    ending: Ending,
) -> DiskSession<D, I, O, C>
    ensures disk { result.disk ≡ disk }
    ensures streams { result.streams ≡ streams }
    ensures how { result.how ≡ None }
    ensures ending { result.ending ≡ ending }
{
    DiskSession {
        disk,
        streams,
        how: None,
        ending,
    }
}

/// Serves the connection on the book.
fn serve<D: Disk + Drop, I: Source, O: Sink, C: Clock>(
    alloc: Global,
    desk: &Desk,
    book: Book<D, PlainTree>,
    streams: Streams<I, O, C>,
) -> DiskSession<D, I, O, C>
    requires { book.opened.schema ≡ desk.now }
    ensures { Served desk.now
        (port_of D.faults (record { book = book; author = 1; start = book; finds = [] }))
        (seen_disk D.told D.faults result.disk) streams result.streams result.how result.ending }
{
    let Streams {
        input,
        output,
        clock,
    } = streams;
    let end = serve_alone(
        alloc,
        input,
        output,
        Single::make(book, CLIENT),
        desk,
        clock,
    );
    let SessionEnd {
        how,
        input,
        output,
        book,
        clock,
    } = end;
    DiskSession {
        disk: disk_of(book),
        streams: Streams {
            input,
            output,
            clock,
        },
        how: Some(how),
        ending: ending_of(how),
    }
}

/// The disk of the book behind the port.
fn disk_of<D: Disk + Drop>(port: Single<D, PlainTree>) -> D
    ensures { IsLeft port.book.opened (port_of D.faults port) (seen_disk D.told D.faults result) }
{
    let BookEnd { disk, entries } = port.give().end();
    drop(entries);
    disk
}

fn ending_without_schema(error: SchemaFileError) -> Ending
    ensures { result ≡ ending_without_schema error }
{
    match error {
        SchemaFileError::Unreadable => Ending::InputFault,
        SchemaFileError::NoSchema(_) => Ending::NoSchema,
        SchemaFileError::NoMemory => Ending::NoMemory,
    }
}

fn ending_of(how: How) -> Ending
    ensures { result ≡ ending_of how }
{
    match how {
        How::Closed => Ending::Done,
        How::Cut => Ending::ConnectionBroken,
        How::Protocol(_) => Ending::ConnectionBroken,
        How::ReadFault => Ending::InputFault,
        How::WriteFault => Ending::OutputFault,
        How::Spent => Ending::ConnectionBroken,
        How::NoMemory => Ending::NoMemory,
    }
}
