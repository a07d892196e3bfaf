//! A book with one leaf and a connection with one call, each behind its lock.
ghost use Rattle.std.specs.Prelude.{◌≡◌, false};

use environment::MemSink;
use grpc_core::Method;
use h2_events::RecvEvent;
use h2_send::{Condition, Wire};
use hpack_block::Headers;
use memory_disks::MemDisk;
use plain_tree::PlainTree;
use request_desk::Desk;
use schema_core::Schema;
use schema_text::read_schema;
use shared_book::Visit;
use shared_wire::WireVisit;
use std::alloc::Global;
use std::process::Abort;
use std::sync::Wait;
use test_builders::{decimals, new_book};
use test_captures::SET_A;

pub(crate) type TestBook<R> = Visit<MemDisk, PlainTree, R>;

pub(crate) type TestWire<R> = WireVisit<MemSink, R>;

pub(crate) fn schema(rt: &impl Abort, alloc: Global) -> Schema {
    read_schema(alloc, b"module m\nleaf /a string\n").expect(rt, "a schema")
}

/// The first port of a book with `/a`.
pub(crate) fn book<R: Wait + Abort + Copy + Drop>(
    rt: R,
    alloc: Global,
    desk: &Desk,
    schema: Schema,
) -> TestBook<R>
    requires { schema ≡ desk.now }
    ensures { result.is_alone ≡ false }
{
    let made = new_book(alloc, schema).expect(&rt, "a book");
    match Visit::make(rt, alloc, made) {
        Ok(mut book) => {
            let is_set = desk
                .answer(alloc, Method::Set, SET_A, 1_000, &mut book)
                .is_ok();
            assert!(&rt; is_set);
            book
        }
        Err(_) => panic!(&rt; "no port"),
    }
}

/// The first port of a connection with a call on stream 1, whose sink fails in the call of `write` with this number.
pub(crate) fn wire<R: Wait + Abort + Copy + Drop>(rt: R, alloc: Global, fails: u64) -> TestWire<R> {
    let calls = decimals(alloc, &[fails]).expect(&rt, "memory");
    let mut wire = Wire::make(alloc, MemSink::make(alloc, calls));
    let Ok(()) = wire.greet() else {
        panic!(&rt; "no greeting");
    };
    match WireVisit::make(rt, alloc, wire) {
        Ok(mut visit) => {
            let _call = visit.act(alloc, &RecvEvent::Call(1, Headers::empty(alloc), true));
            visit
        }
        Err(_) => panic!(&rt; "no port"),
    }
}
