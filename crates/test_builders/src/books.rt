ghost use Rattle.std.specs.Prelude.{◌≡◌, IfOk};

use base_kinds::Limits;
use base_lists::NoMemory;
use book_core::{Book, BookOpening};
use commit_journal::Ledger;
use disk_model::Disk;
use memory_disks::{Fill, FuseDisk, MemDisk, NO_STOP};
use plain_tree::PlainTree;
use schema_core::Schema;
use std::alloc::Global;

/// The greatest limits that a log may have.
const LIMITS: Limits = Limits {
    entries: 65_536,
    octets: 268_435_456,
};

/// A disk with a journal without entries, whose limits are the greatest.
pub fn journal_disk(alloc: Global) -> Result<MemDisk, NoMemory> {
    let mut disk = MemDisk::make(alloc);
    match Ledger::create(alloc, &mut disk, &LIMITS) {
        Ok(()) => Ok(disk),
        Err(_) => {
            drop(disk);
            Err(NoMemory)
        }
    }
}

/// The book of the journal on a disk, opened at the reading 0. An error also where the book can't be opened.
pub fn book_on<D: Disk + Drop>(
    alloc: Global,
    disk: D,
    schema: Schema,
) -> Result<Book<D, PlainTree>, NoMemory>
    ensures { IfOk result (λ book. book.opened.schema ≡ schema) }
{
    match Book::reopen(alloc, disk, PlainTree::empty(alloc), schema, 0) {
        BookOpening::Ready(book) => Ok(book),
        other => {
            drop(other);
            Err(NoMemory)
        }
    }
}

/// A book without entries.
pub fn new_book(alloc: Global, schema: Schema) -> Result<Book<MemDisk, PlainTree>, NoMemory>
    ensures { IfOk result (λ book. book.opened.schema ≡ schema) }
{
    match journal_disk(alloc) {
        Ok(disk) => book_on(alloc, disk, schema),
        Err(fault) => {
            drop(schema);
            Err(fault)
        }
    }
}

/// A book without entries, on a disk that can be told to fail or to stop.
pub fn fuse_book(alloc: Global, schema: Schema) -> Result<Book<FuseDisk, PlainTree>, NoMemory>
    ensures { IfOk result (λ book. book.opened.schema ≡ schema) }
{
    match journal_disk(alloc) {
        Ok(disk) => book_on(alloc, FuseDisk::make(disk, NO_STOP, Fill::Old), schema),
        Err(fault) => {
            drop(schema);
            Err(fault)
        }
    }
}
