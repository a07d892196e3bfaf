//! A book on a disk that can fail, and what its history has of an author.
use base_kinds::Entry;
use book_core::Book;
use memory_disks::FuseDisk;
use plain_tree::PlainTree;
use schema_core::Schema;
use std::alloc::Global;
use test_builders::fuse_book;

pub type TestBook = Book<FuseDisk, PlainTree>;

/// A book without entries, whose disk fails in each call after so many, so often. None: memory was wanting.
pub fn new_book(alloc: Global, failures: u64, passes: u64) -> Option<TestBook> {
    match fuse_book(alloc, Schema::empty(alloc)) {
        Ok(book) => armed(book, failures, passes),
        Err(_) => None,
    }
}

/// Whether the book's disk is told to fail so often, each time after so many calls.
fn is_armed(book: &mut TestBook, failures: u64, passes: u64) -> bool {
    for _ in 0..failures {
        let Ok(()) = book.fail_after(passes) else {
            return false;
        };
    }
    true
}

/// The book, whose disk fails so often, each time after so many calls.
fn armed(mut book: TestBook, failures: u64, passes: u64) -> Option<TestBook> {
    if is_armed(&mut book, failures, passes) {
        Some(book)
    } else {
        None
    }
}

/// Whether the stamps of the author's entries are just these, in this order.
pub fn has_just(entries: &[Entry], author: u32, stamps: &[u64]) -> bool {
    let mut left = stamps;
    for entry in entries {
        if entry.author == author {
            let Some((first, later)) = left.split_first() else {
                return false;
            };
            if *first != entry.stamp {
                return false;
            }
            left = later;
        }
    }
    left.is_empty()
}
