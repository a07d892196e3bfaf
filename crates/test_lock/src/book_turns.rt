ghost use Rattle.std.specs.Prelude.{◌≡◌, false, IfSome};

use crate::books::{has_just, new_book};
use base_kinds::{Ask, Ops, Paths, Refusal};
use book_port::{BookPort, Twin};
use memory_disks::FuseDisk;
use plain_tree::PlainTree;
use shared_book::Visit;
use std::alloc::Global;
use std::process::Abort;
use std::sync::Wait;
use std::thread::{Threads, join};

type TestVisit<R> = Visit<FuseDisk, PlainTree, R>;

/// Makes so many Sets. Answers the stamps of those that were accepted.
fn set_often<R: Wait + Clone + Drop>(
    alloc: Global,
    mut visit: TestVisit<R>,
    sets: u64,
) -> (TestVisit<R>, Vec<u64>)
    ensures same { result.0.book ≡ visit.book }
    ensures shared { result.0.is_alone ≡ visit.is_alone }
{
    let mut stamps = Vec::new(alloc);
    for now in 0..sets {
        if let Ok(stamp) = visit.set(alloc, now, Ask::Apply(Ops::empty(alloc))) {
            let _ = stamps.push(stamp);
        }
    }
    (visit, stamps)
}

/// A further port of the same book.
fn another<R: Wait + Clone + Drop>(visit: &mut TestVisit<R>) -> Option<TestVisit<R>>
    requires { visit.old.is_alone ≡ false }
    ensures same { visit.new.book ≡ visit.old.book }
    ensures shared { visit.new.is_alone ≡ false }
    ensures other { IfSome result (λ other.
        (other.book ≡ visit.old.book) × (other.is_alone ≡ false)) }
{
    match visit.twin() {
        Ok(twin) => Some(twin),
        Err(_) => None,
    }
}

/// The first port of a book without entries, whose disk fails in each call after so many, so often.
fn first<R: Wait + Clone + Drop>(
    rt: &R,
    alloc: Global,
    failures: u64,
    passes: u64,
) -> Option<TestVisit<R>>
    ensures { IfSome result (λ visit. visit.is_alone ≡ false) }
{
    let Ok(rt) = rt.clone() else {
        return None;
    };
    let Some(book) = new_book(alloc, failures, passes) else {
        return None;
    };
    match Visit::make(rt, alloc, book) {
        Ok(visit) => Some(visit),
        Err(_) => None,
    }
}

/// Two threads make so many Sets each. How many entries there are then, and whether they are those of both, each author's in
/// their order.
fn sets_of_two<R: Threads + Wait + Clone + Drop + Send + Sync>(
    rt: &R,
    alloc: Global,
    sets: u64,
) -> Option<(usize, bool, bool)> {
    let mut one = first(rt, alloc, 0, 0)?;
    let two = another(&mut one)?;
    let (first, second) = (one.author(), two.author());
    let ((mut one, its), (two, others)) = join(
        rt,
        || set_often(alloc, one, sets),
        || set_often(alloc, two, sets),
    );
    one.meet(two);
    let end = one.finish().end();
    let entries = end.entries.items();
    let own = has_just(entries, first, its.as_slice());
    let other = has_just(entries, second, others.as_slice());
    Some((entries.len(), own, other))
}

#[test]
fn two_threads_lose_no_entry_of_two_hundred(rt: HostRuntime) {
    assert!(rt; sets_of_two(&rt, rt.alloc(), 100) == Some((200, true, true)));
}

/// How many Sets were accepted, and how many calls were refused for a fault of the disk.
type Counts = (u64, u64);

fn sum_of(one: Counts, other: Counts) -> Counts {
    (one.0.saturating_add(other.0), one.1.saturating_add(other.1))
}

fn is_fault<T>(answer: &Result<T, Refusal>) -> bool {
    matches!(answer, Err(Refusal::DiskFault))
}

/// What a call that was answered so counts for.
fn counted<T>(answer: &Result<T, Refusal>) -> u64 {
    if is_fault(answer) { 1 } else { 0 }
}

/// Makes so many Sets, and looks behind each.
fn set_and_look<R: Wait + Clone + Drop>(
    alloc: Global,
    mut visit: TestVisit<R>,
    turns: u64,
) -> (TestVisit<R>, Counts)
    ensures same { result.0.book ≡ visit.book }
    ensures shared { result.0.is_alone ≡ visit.is_alone }
{
    let mut counts = (0, 0);
    let nothing = Paths::empty(alloc);
    for now in 0..turns {
        let set = visit.set(alloc, now, Ask::Apply(Ops::empty(alloc)));
        let accepted = if set.is_ok() { 1 } else { 0 };
        counts = sum_of(counts, (accepted, counted(&set)));
        let look = visit.look(alloc, now, &nothing);
        counts = sum_of(counts, (0, counted(&look)));
    }
    (visit, counts)
}

/// Two threads do so, through the port and one more, which has met it then.
fn by_two<R: Threads + Wait + Clone + Drop + Send + Sync>(
    rt: &R,
    alloc: Global,
    mut visit: TestVisit<R>,
    turns: u64,
) -> Option<(TestVisit<R>, Counts)>
    requires { visit.is_alone ≡ false }
    ensures { IfSome result (λ r. (r.0.book ≡ visit.book) × (r.0.is_alone ≡ false)) }
{
    let other = another(&mut visit)?;
    let ((mut visit, first), (other, second)) = join(
        rt,
        || set_and_look(alloc, visit, turns),
        || set_and_look(alloc, other, turns),
    );
    visit.meet(other);
    Some((visit, sum_of(first, second)))
}

/// So do four threads.
fn by_four<R: Threads + Wait + Clone + Drop + Send + Sync>(
    rt: &R,
    alloc: Global,
    mut visit: TestVisit<R>,
    turns: u64,
) -> Option<(TestVisit<R>, Counts)>
    requires { visit.is_alone ≡ false }
    ensures { IfSome result (λ r. (r.0.book ≡ visit.book) × (r.0.is_alone ≡ false)) }
{
    let other = another(&mut visit)?;
    let (left, right) = join(
        rt,
        ||
            requires { visit.is_alone ≡ false }
        { by_two(rt, alloc, visit, turns) },
        ||
            requires { other.is_alone ≡ false }
        { by_two(rt, alloc, other, turns) },
    );
    let (mut visit, first) = left?;
    let (other, second) = right?;
    visit.meet(other);
    Some((visit, sum_of(first, second)))
}

/// And eight.
fn by_eight<R: Threads + Wait + Clone + Drop + Send + Sync>(
    rt: &R,
    alloc: Global,
    mut visit: TestVisit<R>,
    turns: u64,
) -> Option<(TestVisit<R>, Counts)>
    requires { visit.is_alone ≡ false }
{
    let other = another(&mut visit)?;
    let (left, right) = join(
        rt,
        ||
            requires { visit.is_alone ≡ false }
        { by_four(rt, alloc, visit, turns) },
        ||
            requires { other.is_alone ≡ false }
        { by_four(rt, alloc, other, turns) },
    );
    let (mut visit, first) = left?;
    let (other, second) = right?;
    visit.meet(other);
    Some((visit, sum_of(first, second)))
}

/// How often the disk fails, each time after 10 calls more.
const FAILURES: u64 = 12;

/// What eight threads count while the disk fails, and how many entries and marks the book then has.
fn turns_of_eight<R: Threads + Wait + Clone + Drop + Send + Sync>(
    rt: &R,
    alloc: Global,
) -> Option<(Counts, u64, u64)> {
    let visit = first(rt, alloc, FAILURES, 10)?;
    let (visit, counts) = by_eight(rt, alloc, visit, 25)?;
    let book = visit.finish();
    let all = book.count();
    let entries = book.end().entries.len() as u64;
    Some((counts, entries, all.saturating_sub(entries)))
}

/// Whether the threads count just the entries and marks that the book has, a mark for each failure.
fn agree(found: Option<(Counts, u64, u64)>) -> bool {
    match found {
        Some((counts, entries, marks)) => counts == (entries, marks) && marks == FAILURES,
        None => false,
    }
}

#[test]
fn eight_threads_are_each_told_what_the_book_has(rt: HostRuntime) {
    assert!(rt; agree(turns_of_eight(&rt, rt.alloc())));
}
