//! What the opening of a disk gives.
ghost use Rattle.base_kinds.specs.Legal.{IsFit};

use crate::books::{SCHEMA, everything, new_disk, open, ready, seen_of, set_of, trial_of};
use base_kinds::{Ask, Fill};
use book_core::BookOpening;
use disk_model::{Armed, Disk};
use memory_disks::{FuseDisk, MemDisk, NO_STOP};
use plain_tree::PlainTree;
use std::alloc::Global;
use std::process::Abort;
use std::test::Fail;

/// A disk whose journal has the entry that this becomes.
fn disk_with(rt: &impl Abort, alloc: Global, ask: Ask) -> MemDisk
    requires { IsFit ask }
{
    let mut book = ready(open(rt, alloc, new_disk(rt, alloc), SCHEMA, 0)).expect(rt, "a book");
    book.set(alloc, 1000, 3, ask).expect(rt, "a stamp");
    book.end().disk
}

/// A disk whose journal has a trial that is open.
fn disk_with_trial(rt: &impl Abort, alloc: Global) -> MemDisk {
    disk_with(rt, alloc, trial_of(rt, alloc, "\"a\""))
}

/// What is seen behind the opening of a disk with an open trial, and how many entries there are: behind one opening, and
/// behind a second.
fn opened_twice(rt: &impl Abort, alloc: Global) -> ((u64, usize), u64, u64) {
    let disk = disk_with_trial(rt, alloc);
    let mut book = ready(open(rt, alloc, disk, SCHEMA, 2000)).expect(rt, "a book");
    let seen = seen_of(rt, book.look(alloc, 3000, 4, &everything(rt, alloc)));
    let once = book.count();
    let disk = book.end().disk;
    let again = ready(open(rt, alloc, disk, SCHEMA, 4000)).expect(rt, "a book");
    (seen, once, again.count())
}

#[test]
fn no_trial_outlives_an_opening(rt: HostRuntime) -> Result<(), Fail> {
    let found = opened_twice(&rt, rt.alloc());
    assert!(rt; found == ((2000, 0), 2, 2));
    Ok(())
}

/// A name of what an opening gave, the place of damage, and the disk where it is handed back.
fn outcome<D: Disk + Drop>(opening: BookOpening<D, PlainTree>) -> (&'static str, u64, Option<D>) {
    match opening {
        BookOpening::Ready(_) => ("ready", 0, None),
        BookOpening::Damaged(place, disk) => ("damaged", place, Some(disk)),
        BookOpening::Unfit(disk) => ("unfit", 0, Some(disk)),
        BookOpening::DiskFault(disk) => ("disk fault", 0, Some(disk)),
        BookOpening::NoMemory(disk) => ("no memory", 0, Some(disk)),
    }
}

/// A schema of which the tree of SCHEMA with a hostname is no tree.
const OTHER: &str = "module m\ncontainer /system\nleaf /system/motd string\n";

/// A journal of at most 65,536 entries and 268,435,456 octets whose gate is open, and nothing behind.
const CUT_OFF: &[u8] = b"GNMIJRN1\x00\x01\x00\x00\x10\x00\x00\x00\xa5";

/// Octets that are no journal, and from which place on.
const DAMAGED: &[(&[u8], u64)] = &[(b"", 0), (b"GNMIJRN2", 0), (CUT_OFF, 16)];

/// What an opening of these octets gives, and whether the disk that is handed back has the same octets.
fn refused(
    rt: &impl Abort,
    alloc: Global,
    octets: &[u8],
    schema: &str,
) -> (&'static str, u64, bool) {
    let disk = MemDisk::of(alloc, octets).expect(rt, "memory");
    let (name, place, left) = outcome(open(rt, alloc, disk, schema, 2000));
    let same = match left {
        Some(disk) => disk.octets() == octets,
        None => false,
    };
    (name, place, same)
}

#[test]
fn an_opening_that_is_refused_writes_nothing(rt: HostRuntime) -> Result<(), Fail> {
    for (octets, place) in DAMAGED.iter().copied() {
        let found = refused(&rt, rt.alloc(), octets, SCHEMA);
        assert!(rt; found == ("damaged", place, true), "at {place}");
    }
    let disk = disk_with(&rt, rt.alloc(), set_of(&rt, rt.alloc(), "\"a\""));
    let found = refused(&rt, rt.alloc(), disk.octets(), OTHER);
    assert!(rt; found == ("unfit", 0, true));
    Ok(())
}

/// How many calls an opening makes of a disk with one piece of octets, and then of one with an open trial.
const OPENING: u64 = 7;

/// What an opening gives whose disk fails after this many calls, and how many entries a second opening then finds.
fn failed_opening(rt: &impl Abort, alloc: Global, passes: u64) -> (&'static str, Option<u64>) {
    let mut disk = FuseDisk::make(disk_with_trial(rt, alloc), NO_STOP, Fill::Old);
    disk.fail_after(passes).expect(rt, "memory");
    let (name, _, left) = outcome(open(rt, alloc, disk, OTHER, 2000));
    let again = match left {
        Some(disk) => match ready(open(rt, alloc, disk, OTHER, 3000)) {
            Some(book) => Some(book.count()),
            None => None,
        },
        None => None,
    };
    (name, again)
}

#[test]
fn an_opening_fails_in_each_of_its_calls(rt: HostRuntime) -> Result<(), Fail> {
    for passes in 0..OPENING {
        let found = failed_opening(&rt, rt.alloc(), passes);
        assert!(rt; found == ("disk fault", Some(2)), "at {passes}");
    }
    let found = failed_opening(&rt, rt.alloc(), OPENING);
    assert!(rt; found == ("ready", None));
    Ok(())
}
