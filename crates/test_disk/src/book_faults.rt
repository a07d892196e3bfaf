//! Calls of a book whose disk fails in them: each is refused with 19 and marked, and the next one settles what is in doubt.
use crate::books::{everything, new_book, refusal_of, set_of, trial_of};
use std::alloc::Global;
use std::process::Abort;
use std::test::Fail;

/// What a trial, two Sets at its end and a look are refused for, or 0; how many entries there are then, and how many marks.
type Found = ((u8, u8, u8, u8), u64, u64);

/// After how many calls of the disk it fails, each counted once the failures before it have come, and what is found then.
///
/// The trial's entry makes four calls. So do the clock's entry that ends the trial and the entry of each Set. Settling makes
/// two more, in the call behind one that failed in its third or fourth.
const FAILURES: &[(&[u64], Found)] = &[
    (&[0], ((19, 0, 0, 0), 2, 1)),
    (&[1], ((19, 0, 0, 0), 2, 1)),
    (&[2], ((19, 0, 0, 0), 2, 1)),
    (&[3], ((19, 0, 0, 0), 2, 1)),
    (&[4], ((0, 19, 0, 0), 3, 1)),
    (&[5], ((0, 19, 0, 0), 3, 1)),
    (&[6], ((0, 19, 0, 0), 3, 1)),
    (&[7], ((0, 19, 0, 0), 3, 1)),
    (&[8], ((0, 19, 0, 0), 3, 1)),
    (&[9], ((0, 19, 0, 0), 3, 1)),
    (&[10], ((0, 19, 0, 0), 3, 1)),
    (&[11], ((0, 19, 0, 0), 3, 1)),
    (&[12], ((0, 0, 19, 0), 3, 1)),
    (&[15], ((0, 0, 19, 0), 3, 1)),
    (&[16], ((0, 0, 0, 0), 4, 0)),
    // The settling fails too.
    (&[2, 0], ((19, 19, 0, 0), 1, 2)),
    (&[3, 1], ((19, 19, 0, 0), 1, 2)),
    (&[10, 0], ((0, 19, 19, 0), 2, 2)),
    (&[11, 1], ((0, 19, 19, 0), 2, 2)),
    (&[14, 0], ((0, 0, 19, 19), 3, 2)),
    (&[15, 1], ((0, 0, 19, 19), 3, 2)),
];

/// A reading of the clock at which a trial of 60 seconds that began at 1000 is due.
const DUE: u64 = 60_000_001_000;

fn found_after(rt: &impl Abort, alloc: Global, failures: &[u64]) -> Found {
    let mut book = new_book(rt, alloc);
    for passes in failures {
        book.fail_after(*passes).expect(rt, "memory");
    }
    let trial = refusal_of(book.set(alloc, 1000, 3, trial_of(rt, alloc, "\"a\"")));
    let first = refusal_of(book.set(alloc, DUE, 4, set_of(rt, alloc, "\"b\"")));
    let second = refusal_of(book.set(alloc, DUE, 5, set_of(rt, alloc, "\"c\"")));
    let look = refusal_of(book.look(alloc, DUE, 6, &everything(rt, alloc)));
    let all = book.count();
    let entries = book.end().entries.len() as u64;
    (
        (trial, first, second, look),
        entries,
        all.saturating_sub(entries),
    )
}

#[test]
fn each_fault_is_marked_and_then_settled(rt: HostRuntime) -> Result<(), Fail> {
    for (failures, expected) in FAILURES {
        let found = found_after(&rt, rt.alloc(), failures);
        assert!(rt; found == *expected, "after {failures:?}");
    }
    Ok(())
}
