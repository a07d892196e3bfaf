// A desk, and the port of a book with its schema.
ghost use Rattle.std.specs.Prelude.{◌≡◌};

use base_kinds::{Copied, Refusal};
use base_lists::Bytes;
use book_core::{Book, Single};
use grpc_core::Method;
use memory_disks::FuseDisk;
use plain_tree::PlainTree;
use request_desk::Desk;
use schema_text::read_schema;
use std::alloc::Global;
use std::process::Abort;
use test_builders::fuse_book;
use test_captures::SCHEMA;

#[derive(Drop)]
pub struct Target {
    pub desk: Desk,
    pub port: Single<FuseDisk, PlainTree>,
}

/// Has the book's disk fail in the call after so many, if in any.
fn arm(rt: &impl Abort, book: &mut Book<FuseDisk, PlainTree>, fails: Option<u64>)
    ensures { book.new.opened ≡ book.old.opened }
{
    if let Some(passes) = fails {
        book.fail_after(passes).expect(rt, "memory");
    }
}

/// The target of one author over an empty tree, whose disk fails in the call after so many, if in any.
pub fn new_target(rt: &impl Abort, alloc: Global, fails: Option<u64>) -> Target
    ensures { result.port.book.opened.schema ≡ result.desk }
{
    let schema = read_schema(alloc, SCHEMA.as_bytes()).expect(rt, "a schema");
    let desk = Desk::make(schema.copy(alloc).expect(rt, "memory"));
    let mut book = fuse_book(alloc, schema).expect(rt, "a book");
    arm(rt, &mut book, fails);
    Target {
        desk,
        port: Single::make(book, 1),
    }
}

impl Target {
    pub fn answer(
        &mut self,
        alloc: Global,
        method: Method,
        request: &[u8],
        now: u64,
    ) -> Result<Bytes, Refusal>
        requires { self.old.port.book.opened.schema ≡ self.old.desk }
        ensures { self.new.port.book.opened.schema ≡ self.new.desk }
    {
        self.desk
            .answer(alloc, method, request, now, &mut self.port)
    }
}
