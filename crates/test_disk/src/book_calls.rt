//! Each call of a book, and of a port of one.
use crate::books::{
    SCHEMA, everything, new_book, new_disk, open, ready, refusal_of, seen_of, set_of,
};
use base_kinds::{Entry, Fill};
use book_core::Single;
use book_port::BookPort;
use std::alloc::Global;
use std::process::Abort;
use std::test::Fail;

/// Whether these are one entry of this author with this stamp.
fn is_one_entry(entries: &[Entry], author: u32, stamp: u64) -> bool {
    match entries {
        [entry] => entry.author == author && entry.stamp == stamp,
        _ => false,
    }
}

/// The stamp of a Set, what is seen then, how much the book then has, and how many nodes its schema has. The entry stands in
/// what the book leaves.
fn set_and_seen(rt: &impl Abort, alloc: Global) -> (u64, (u64, usize), u64, u32, bool) {
    let mut book = new_book(rt, alloc);
    let stamp = book
        .set(alloc, 1000, 3, set_of(rt, alloc, "\"a\""))
        .expect(rt, "a stamp");
    let seen = seen_of(rt, book.look(alloc, 2000, 3, &everything(rt, alloc)));
    let count = book.count();
    let nodes = book.schema().nodes();
    let end = book.end();
    (
        stamp,
        seen,
        count,
        nodes,
        is_one_entry(end.entries.items(), 3, 1000),
    )
}

#[test]
fn a_book_shows_what_was_set(rt: HostRuntime) -> Result<(), Fail> {
    let found = set_and_seen(&rt, rt.alloc());
    assert!(rt; found == (1000, (1000, 1), 1, 2, true));
    Ok(())
}

/// What a Set is refused for on a disk that stops, and whether the disk then has stopped, and was starved.
fn stopped(rt: &impl Abort, alloc: Global) -> (u8, bool, bool) {
    let mut book = new_book(rt, alloc);
    book.stop_after(0, Fill::Old).expect(rt, "memory");
    let refusal = refusal_of(book.set(alloc, 1000, 3, set_of(rt, alloc, "\"a\"")));
    (refusal, book.stopped(), book.starved())
}

#[test]
fn a_book_stops_with_its_disk(rt: HostRuntime) -> Result<(), Fail> {
    let found = stopped(&rt, rt.alloc());
    assert!(rt; found == (19, true, false));
    Ok(())
}

/// The stamp of a Set through a port, what the port sees then, and whether the book that it gives back has the entry.
fn set_through_port(rt: &impl Abort, alloc: Global) -> (u64, (u64, usize), bool) {
    let book = ready(open(rt, alloc, new_disk(rt, alloc), SCHEMA, 0)).expect(rt, "a book");
    let mut port = Single::make(book, 7);
    let stamp = port
        .set(alloc, 1000, set_of(rt, alloc, "\"a\""))
        .expect(rt, "a stamp");
    let seen = seen_of(rt, port.look(alloc, 2000, &everything(rt, alloc)));
    let end = port.give().end();
    (stamp, seen, is_one_entry(end.entries.items(), 7, 1000))
}

#[test]
fn a_port_gives_back_the_book_with_what_it_set(rt: HostRuntime) -> Result<(), Fail> {
    let found = set_through_port(&rt, rt.alloc());
    assert!(rt; found == (1000, (1000, 1), true));
    Ok(())
}
