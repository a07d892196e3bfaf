//! A book with two leaves, and Sets of them.
use base_kinds::UnresolvedSet;
use book_core::Single;
use book_port::BookPort;
use gnmi_set_msg::read_set;
use memory_disks::MemDisk;
use plain_tree::PlainTree;
use schema_core::Schema;
use schema_text::read_schema;
use set_request::resolve;
use std::alloc::Global;
use std::process::Abort;
use test_builders::new_book;

pub type Port = Single<MemDisk, PlainTree>;

pub fn schema(rt: &impl Abort, alloc: Global) -> Schema {
    read_schema(alloc, b"module m\nleaf /a string\nleaf /b string\n").expect(rt, "a schema")
}

/// A port of a book without entries.
pub fn port(rt: &impl Abort, alloc: Global) -> Port {
    Single::make(new_book(alloc, schema(rt, alloc)).expect(rt, "a book"), 1)
}

/// Makes what a SetRequest asks under the schema an entry of the book.
fn enter(
    rt: &impl Abort,
    alloc: Global,
    schema: &Schema,
    now: u64,
    request: &UnresolvedSet,
    port: &mut Port,
) {
    match resolve(alloc, schema, request) {
        Ok(ask) => {
            let is_set = port.set(alloc, now, ask).is_ok();
            assert!(rt; is_set);
        }
        Err(_) => panic!(rt; "a request of this schema"),
    }
}

/// Makes the octets of a SetRequest an entry of the book, under its schema.
pub fn set(
    rt: &impl Abort,
    alloc: Global,
    schema: &Schema,
    now: u64,
    body: &[u8],
    port: &mut Port,
) {
    let request = read_set(alloc, body).expect(rt, "a SetRequest");
    enter(rt, alloc, schema, now, &request, port);
}
