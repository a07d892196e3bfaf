ghost use Rattle.std.specs.Prelude.{◌≡◌, ◌⊎◌, [], None, IfOk, IfErr, codes, option_map};
ghost use Rattle.std.specs.Arc.{arc_value};
ghost use Rattle.shared_book.specs.Visits.{IsFirstPort};
ghost use Rattle.program.specs.Environment.{seen_disk, seen_door};
ghost use Rattle.program.specs.Links.{seen_links};
ghost use Rattle.program.specs.Printing.{SaysLast, MakesText};
ghost use Rattle.program.specs.SchemaFile.{UnderSchema};
ghost use Rattle.program.specs.ServeCommand.{LeavesBook, OnDisk, SaysDoorFault, SaysEnd, ServeCommand};
ghost use Rattle.program.specs.ServeCommand.{served_line};
ghost use Rattle.program.specs.inner.OpenedSchema.{Opened};
ghost use Rattle.program.specs.inner.SharedBook.{Accepts, SaysDamage, Serves, Starves};

use crate::command_end::CommandEnd;
use crate::ending::Ending;
use crate::files::Files;
use crate::host::{Host, Kit, KitFeeding};
use crate::journal_file::disk_fault;
use crate::log_command::damage_line;
use crate::printing::{out_of_memory, print, say_last};
use crate::schema_file::open_schema;
use base_kinds::{Bytes, Copied, NoMemory};
use book_core::{Book, BookEnd, BookOpening};
use connection_server::{Ending as Accepting, LinkEnd, ServedLinks};
use disk_model::Disk;
use environment::{Clock, Pacer, Sink, Starter};
use gnmi_server::{DeskPort, Feeding, serve_book};
use listening::Door;
use plain_texts::put_number_line;
use plain_tree::PlainTree;
use request_desk::Desk;
use schema_core::Schema;
use session_core::How;
use shared_book::Visit;
use std::alloc::Global;
use std::sync::{Arc, Wait};
use std::thread::Threads;
use std_environment::ThreadStarter;

/// A port of the book that others share, with the desk of the book's schema.
type SharedPort<D, R> = DeskPort<Visit<D, PlainTree, R>>;

/// The book's first port, and what starts the sessions.
#[derive(Drop)]
struct Shared<P, R> {
    port: P,
    starter: ThreadStarter<R>,
}

/// The disk, what is kept of the connections, and how the run ends.
#[derive(Drop)]
struct DiskLinks<D, I, O> {
    disk: D,
    links: Vec<LinkEnd<I, O, How>>,
    ending: Ending,
}

/// Accepts connections at the address, and serves each beside the others, under the schema whose text is in the one file, on the book
/// whose journal is in the other.
pub fn serve<R, K, S>(
    rt: &R,
    alloc: Global,
    schema: &str,
    journal: &str,
    address: &str,
    sessions: u32,
    feeders: &S,
    host: Host<K>,
) -> CommandEnd<K>
where
    R: Threads + Wait + Clone + Drop + Send + Sync + 'static,
    K: Kit,
    <K::Door as Door>::Reader: Send + Drop + 'static,
    <K::Door as Door>::Writer: Send + Drop + 'static,
    K::Clock: Send + 'static,
    K::Pacer: Send + 'static,
    S: Starter<KitFeeding<K, R>> + Send + Drop + 'static,
    ensures run { ServeCommand schema.now journal.now sessions host result.host
        (option_map (λ disk. seen_disk K.Files.Disk.told K.Files.Disk.faults disk) result.disk)
        (seen_links K.Door.Reader.seen K.Door.Writer.seen result.links.items) result.ending }
    ensures how { result.how ≡ None }
{
    let mut host = host;
    match open_desk(alloc, schema, &mut host) {
        Ok((schema, desk)) => match host.files.disk(journal) {
            Ok(disk) => {
                let DiskLinks {
                    disk,
                    links,
                    ending,
                } = on_disk(
                    rt, alloc, address, sessions, schema, desk, feeders, disk, &mut host,
                );
                CommandEnd {
                    host,
                    disk: Some(disk),
                    how: None,
                    links,
                    ending,
                }
            }
            Err(_) => {
                let ending = disk_fault(&mut host.output);
                CommandEnd::without_disk(alloc, host, ending)
            }
        },
        Err(ending) => CommandEnd::without_disk(alloc, host, ending),
    }
}

/// The schema in the file with this name, for a book, and a desk under it for all sessions.
fn open_desk<K: Kit>(
    alloc: Global,
    name: &str,
    host: &mut Host<K>,
) -> Result<(Schema, Arc<Desk, Global>), Ending>
    ensures opened { IfOk result (λ both. Opened name.now both.0 host.old host.new) }
    ensures desk { IfOk result (λ both. both.0 ≡ arc_value both.1) }
    ensures stopped { IfErr result (λ ending.
        UnderSchema name.now host.old host.new ending (λ _. ⊥)) }
    ensures rest { IfErr result (λ _.
        host.new ≡ record host.old { files = host.new.files; output = host.new.output }) }
{
    let schema = match open_schema(alloc, name, host) {
        Ok(schema) => schema,
        Err(ending) => return Err(ending),
    };
    match desk_under(alloc, &schema) {
        Ok(desk) => Ok((schema, desk)),
        Err(_) => Err(out_of_memory(&mut host.output)),
    }
}

/// A desk under a copy of the schema.
fn desk_under(alloc: Global, schema: &Schema) -> Result<Arc<Desk, Global>, NoMemory>
    ensures { IfOk result (λ desk. arc_value desk ≡ schema.now) }
{
    let copy = schema.copy(alloc)?;
    match Arc::new(alloc, Desk::make(copy)) {
        Ok(desk) => Ok(desk),
        Err(_) => Err(NoMemory),
    }
}

/// Opens the book of the journal on the disk, and serves connections over it.
fn on_disk<R, K, S>(
    rt: &R,
    alloc: Global,
    address: &str,
    sessions: u32,
    schema: Schema,
    desk: Arc<Desk, Global>,
    feeders: &S,
    disk: <K::Files as Files>::Disk,
    host: &mut Host<K>,
) -> DiskLinks<<K::Files as Files>::Disk, <K::Door as Door>::Reader, <K::Door as Door>::Writer>
where
    R: Threads + Wait + Clone + Drop + Send + Sync + 'static,
    K: Kit,
    <K::Door as Door>::Reader: Send + Drop + 'static,
    <K::Door as Door>::Writer: Send + Drop + 'static,
    K::Clock: Send + 'static,
    K::Pacer: Send + 'static,
    S: Starter<KitFeeding<K, R>> + Send + Drop + 'static,
    requires desk { schema ≡ arc_value desk }
    ensures on { OnDisk sessions schema (seen_disk K.Files.Disk.told K.Files.Disk.faults disk)
        (seen_disk K.Files.Disk.told K.Files.Disk.faults result.disk) host.old host.new
        (seen_links K.Door.Reader.seen K.Door.Writer.seen result.links.items) result.ending }
    ensures files { host.new.files ≡ host.old.files }
{
    let now = host.clock.now();
    match Book::reopen(alloc, disk, PlainTree::empty(alloc), schema, now) {
        BookOpening::Ready(book) => over_book(
            rt,
            alloc,
            address,
            sessions,
            desk,
            book,
            &host.clock,
            &host.pacer,
            feeders,
            &mut host.output,
            &mut host.door,
        ),
        BookOpening::Damaged(place, disk) => {
            let ending = say_damage(alloc, place, &mut host.output);
            unserved(alloc, disk, ending)
        }
        BookOpening::Unfit(disk) => {
            let ending = say_unfit(&mut host.output);
            unserved(alloc, disk, ending)
        }
        BookOpening::DiskFault(disk) => {
            let ending = disk_fault(&mut host.output);
            unserved(alloc, disk, ending)
        }
        BookOpening::NoMemory(disk) => {
            let ending = out_of_memory(&mut host.output);
            unserved(alloc, disk, ending)
        }
    }
}

fn unserved<D, I, O>(alloc: Global, disk: D, ending: Ending) -> DiskLinks<D, I, O>
    ensures disk { result.disk ≡ disk }
    ensures links { result.links.items ≡ [] }
    ensures ending { result.ending ≡ ending }
{
    DiskLinks {
        disk,
        links: Vec::new(alloc),
        ending,
    }
}

/// Says from which octet on the disk has no journal.
fn say_damage<W: Sink>(alloc: Global, place: u64, output: &mut W) -> Ending
    ensures { SaysDamage place (W.seen output.old) (W.seen output.new) result }
{
    match damage_line(alloc, place) {
        Ok(line) => {
            say_last(output, line.items());
            Ending::JournalDamaged
        }
        Err(_) => out_of_memory(output),
    }
}

fn say_unfit<W: Sink>(output: &mut W) -> Ending
    ensures ends { result ≡ Ending.SchemaUnfit }
    ensures line { SaysLast (codes "schema does not fit journal\n") (W.seen output.old)
        (W.seen output.new) }
{
    say_last(output, b"schema does not fit journal\n");
    Ending::SchemaUnfit
}

/// Puts a lock round the book, and serves connections over it.
fn over_book<R, D, W, E, C, Q, S>(
    rt: &R,
    alloc: Global,
    address: &str,
    sessions: u32,
    desk: Arc<Desk, Global>,
    book: Book<D, PlainTree>,
    clock: &C,
    pacer: &Q,
    feeders: &S,
    output: &mut W,
    door: &mut E,
) -> DiskLinks<D, E::Reader, E::Writer>
where
    R: Threads + Wait + Clone + Drop + Send + Sync + 'static,
    D: Disk + Send + Drop + 'static,
    W: Sink,
    E: Door,
    E::Reader: Send + Drop + 'static,
    E::Writer: Send + Drop + 'static,
    C: Clock + Send + Drop + 'static,
    Q: Pacer + Send + Drop + 'static,
    S: Starter<Feeding<Visit<D, PlainTree, R>, E::Writer, R, C, Q>> + Send + Drop + 'static,
    requires desk { book.opened.schema ≡ arc_value desk }
    ensures { let final = seen_disk D.told D.faults result.disk in
        let links = seen_links E.Reader.seen E.Writer.seen result.links.items in
        let door_old = seen_door E.Reader.seen E.Writer.seen (E.seen door.old) in
        let door_new = seen_door E.Reader.seen E.Writer.seen (E.seen door.new) in
        Serves book sessions final (W.seen output.old) (W.seen output.new) door_old door_new links
        result.ending
        ⊎ Starves book sessions final (W.seen output.old) (W.seen output.new) door_old door_new
        links result.ending (seen_disk D.told D.faults book.disk) }
{
    match share(rt, alloc, desk, book) {
        Ok(shared) => {
            let (disk, served) = accept(
                rt, alloc, address, sessions, clock, pacer, feeders, shared, door,
            );
            let ServedLinks { ending, links } = served;
            let count = links.as_slice().len() as u64;
            let ending = say_end(alloc, ending, count, output);
            DiskLinks {
                disk,
                links,
                ending,
            }
        }
        Err(book) => {
            let BookEnd { disk, entries } = book.end();
            drop(entries);
            let ending = out_of_memory(output);
            unserved(alloc, disk, ending)
        }
    }
}

/// The first port of the book, whose author is 1. For want of memory the book is handed back.
fn share<R, D>(
    rt: &R,
    alloc: Global,
    desk: Arc<Desk, Global>,
    book: Book<D, PlainTree>,
) -> Result<Shared<SharedPort<D, R>, R>, Book<D, PlainTree>>
where
    R: Threads + Wait + Clone + Drop,
    D: Disk + Drop,
    requires desk { book.opened.schema ≡ arc_value desk }
    ensures ok { IfOk result (λ shared. IsFirstPort book shared.port) }
    ensures err { IfErr result (λ back. back ≡ book) }
{
    let Ok(own) = rt.clone() else {
        return Err(book);
    };
    let Ok(threads) = rt.clone() else {
        return Err(book);
    };
    match Visit::make(own, alloc, book) {
        Ok(visit) => Ok(Shared {
            port: DeskPort::make(visit, desk),
            starter: ThreadStarter::make(threads, alloc),
        }),
        Err(book) => Err(book),
    }
}

/// Accepts and serves connections, and takes the disk back when all have ended.
fn accept<R, D, E, C, Q, S>(
    rt: &R,
    alloc: Global,
    address: &str,
    sessions: u32,
    clock: &C,
    pacer: &Q,
    feeders: &S,
    shared: Shared<SharedPort<D, R>, R>,
    door: &mut E,
) -> (D, ServedLinks<E::Reader, E::Writer, How>)
where
    R: Threads + Wait + Clone + Drop + Send + Sync + 'static,
    D: Disk + Send + Drop + 'static,
    E: Door,
    E::Reader: Send + Drop + 'static,
    E::Writer: Send + Drop + 'static,
    C: Clock + Send + Drop + 'static,
    Q: Pacer + Send + Drop + 'static,
    S: Starter<Feeding<Visit<D, PlainTree, R>, E::Writer, R, C, Q>> + Send + Drop + 'static,
    ensures { Accepts E.Reader.seen E.Writer.seen sessions result.1.ending result.1.links.items
        shared.port (E.seen door.old) (E.seen door.new) (seen_disk D.told D.faults result.0) }
{
    let Shared {
        mut port,
        mut starter,
    } = shared;
    let served = serve_book(
        rt,
        alloc,
        address,
        sessions,
        clock,
        pacer,
        feeders,
        &mut starter,
        door,
        &mut port,
    );
    (disk_of(port), served)
}

/// The disk of the book behind the port that has met all others.
fn disk_of<R, D>(port: SharedPort<D, R>) -> D
where
    R: Wait + Clone + Drop,
    D: Disk + Drop,
    ensures { LeavesBook port.opened port (seen_disk D.told D.faults result) }
{
    let BookEnd { disk, entries } = port.give().finish().end();
    drop(entries);
    disk
}

/// Says how many connections there were, or why no further ones could be accepted.
fn say_end<W: Sink>(alloc: Global, how: Accepting, count: u64, output: &mut W) -> Ending
    ensures { SaysEnd how count (W.seen output.old) (W.seen output.new) result }
{
    match how {
        Accepting::All => say_served(alloc, count, output),
        Accepting::DoorEnd => say_served(alloc, count, output),
        Accepting::DoorFault => say_door_fault(output),
        Accepting::Spent => out_of_memory(output),
        Accepting::NoMemory => out_of_memory(output),
    }
}

fn say_door_fault<W: Sink>(output: &mut W) -> Ending
    ensures { SaysDoorFault (W.seen output.old) (W.seen output.new) result }
{
    say_last(output, b"door fault\n");
    Ending::DoorFault
}

fn say_served<W: Sink>(alloc: Global, count: u64, output: &mut W) -> Ending
    ensures { MakesText (served_line count) Ending.Done (W.seen output.old) (W.seen output.new)
        result }
{
    match served_line(alloc, count) {
        Ok(line) => print(line.items(), Ending::Done, output),
        Err(_) => out_of_memory(output),
    }
}

fn served_line(alloc: Global, count: u64) -> Result<Bytes, NoMemory>
    ensures { IfOk result (λ line. line ≡ served_line count) }
{
    let mut line = Bytes::empty(alloc);
    put_number_line(alloc, b"served ", count, &mut line)?;
    Ok(line)
}
