//! What the sessions of a server share, and what stands for it around one of them: a book, numbers, and a pacer.
ghost use Rattle.std.specs.Prelude.{◌≡◌, false};

use base_lists::NoMemory;
use environment::Pacer;
use memory_disks::MemDisk;
use plain_tree::PlainTree;
use schema_core::Schema;
use shared_book::Visit;
use std::alloc::Global;
use std::process::Abort;
use std::sync::atomic::{AtomicU64, Ordering};
use std::sync::{Arc, Wait};
use std::thread;
use test_builders::new_book;

/// The first port of a book that others reach too.
pub(crate) type TestBook<R> = Visit<MemDisk, PlainTree, R>;

/// The first port of a book without entries.
pub(crate) fn book<R: Wait + Abort + Copy + Drop>(
    rt: R,
    alloc: Global,
    schema: Schema,
) -> TestBook<R>
    ensures schema { result.opened.schema ≡ schema }
    ensures shared { result.is_alone ≡ false }
{
    let made = new_book(alloc, schema).expect(&rt, "a book");
    match Visit::make(rt, alloc, made) {
        Ok(book) => book,
        Err(_) => panic!(&rt; "no port"),
    }
}

/// A number that several threads see: how much a sink has taken, or how many threads were started.
pub(crate) type Counter = Arc<AtomicU64, Global>;

/// A counter at 0.
pub(crate) fn counter(rt: &impl Abort, alloc: Global) -> Counter {
    Arc::new(alloc, AtomicU64::new(0)).expect(rt, "memory")
}

/// The same counter.
pub(crate) fn again(rt: &impl Abort, counter: &Counter) -> Counter {
    Arc::try_clone(counter).expect(rt, "memory")
}

/// What a counter has come to.
pub(crate) fn counted(counter: &Counter) -> u64 {
    counter.load(Ordering::SeqCst)
}

/// A pacer that lets other threads go on.
#[derive(Drop)]
pub(crate) struct YieldingPacer;

impl Pacer for YieldingPacer {
    fn pause(&mut self) {
        thread::yield_now();
    }

    fn twin(&self) -> Result<YieldingPacer, NoMemory> {
        Ok(YieldingPacer)
    }
}
