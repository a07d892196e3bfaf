//! What the tests are made of: a disk with a journal, a book over it, and what is asked of a book.
ghost use Rattle.std.specs.Prelude.{IfOk};
ghost use Rattle.base_kinds.specs.Legal.{IsFit};

use crate::lists::text_of;
use base_kinds::{
    Action, Ask, Bytes, Change, Changes, Given, Path, Paths, Refusal, Span, UnresolvedSet, View,
};
use book_core::{Book, BookOpening};
use disk_model::Disk;
use memory_disks::{FuseDisk, MemDisk};
use path_core::read_path_text;
use plain_tree::PlainTree;
use schema_core::Schema;
use schema_text::read_schema;
use set_request::resolve;
use std::alloc::Global;
use std::process::Abort;
use test_builders::{fuse_book, journal_disk};

/// A schema with one text.
pub const SCHEMA: &str = "module m\ncontainer /system\nleaf /system/hostname string\n";

fn schema_of(rt: &impl Abort, alloc: Global, text: &str) -> Schema {
    read_schema(alloc, text.as_bytes()).expect(rt, "a schema")
}

/// The one pattern that covers all rows.
pub fn everything(rt: &impl Abort, alloc: Global) -> Paths {
    let mut patterns = Paths::empty(alloc);
    patterns.push(Path::empty(alloc)).expect(rt, "memory");
    patterns
}

/// The hostname, changed to the text of a JSON value.
fn change_of(rt: &impl Abort, alloc: Global, json: &str) -> Change {
    let mut octets = Bytes::empty(alloc);
    octets
        .extend_from_slice(json.as_bytes())
        .expect(rt, "memory");
    Change {
        path: read_path_text(alloc, b"/system/hostname").expect(rt, "a path"),
        given: Given::Json(octets),
    }
}

/// A Set of the hostname to the text of a JSON value.
fn request_of(rt: &impl Abort, alloc: Global, json: &str, action: Action) -> UnresolvedSet {
    let mut updates = Changes::empty(alloc);
    updates
        .push(change_of(rt, alloc, json))
        .expect(rt, "memory");
    UnresolvedSet {
        prefix: Path::empty(alloc),
        target: text_of(rt, alloc, b""),
        deletes: Paths::empty(alloc),
        replaces: Changes::empty(alloc),
        updates,
        action,
        unsupported: false,
    }
}

fn resolved(rt: &impl Abort, alloc: Global, request: &UnresolvedSet) -> Result<Ask, Refusal>
    ensures { IfOk result (λ ask. IsFit ask) }
{
    let schema = schema_of(rt, alloc, SCHEMA);
    resolve(alloc, &schema, request)
}

/// What a Set of the hostname asks for.
pub fn set_of(rt: &impl Abort, alloc: Global, json: &str) -> Ask
    ensures { IsFit result }
{
    let request = request_of(rt, alloc, json, Action::Plain);
    resolved(rt, alloc, &request).expect(rt, "an ask")
}

/// What a trial of 60 seconds asks for.
pub fn trial_of(rt: &impl Abort, alloc: Global, json: &str) -> Ask
    ensures { IsFit result }
{
    let action = Action::Trial(text_of(rt, alloc, b"t"), Span::Of(60, 0));
    let request = request_of(rt, alloc, json, action);
    resolved(rt, alloc, &request).expect(rt, "an ask")
}

/// What the opening of a disk gives under a schema.
pub fn open<D: Disk + Drop>(
    rt: &impl Abort,
    alloc: Global,
    disk: D,
    schema: &str,
    now: u64,
) -> BookOpening<D, PlainTree> {
    let schema = schema_of(rt, alloc, schema);
    Book::reopen(alloc, disk, PlainTree::empty(alloc), schema, now)
}

pub fn ready<D: Disk + Drop>(opening: BookOpening<D, PlainTree>) -> Option<Book<D, PlainTree>> {
    match opening {
        BookOpening::Ready(book) => Some(book),
        _ => None,
    }
}

/// A disk with a journal without entries.
pub fn new_disk(rt: &impl Abort, alloc: Global) -> MemDisk {
    journal_disk(alloc).expect(rt, "a journal")
}

/// A book without entries, whose disk can be armed.
pub fn new_book(rt: &impl Abort, alloc: Global) -> Book<FuseDisk, PlainTree> {
    fuse_book(alloc, schema_of(rt, alloc, SCHEMA)).expect(rt, "a book")
}

/// The number of the refusal, or 0.
pub fn refusal_of<T: Drop>(answer: Result<T, Refusal>) -> u8 {
    match answer {
        Ok(_) => 0,
        Err(refusal) => refusal.number(),
    }
}

/// The stamp of what was looked at, and how many rows there are.
pub fn seen_of(rt: &impl Abort, answer: Result<View, Refusal>) -> (u64, usize) {
    let view = answer.expect(rt, "a view");
    (view.stamp, view.rows.len())
}
