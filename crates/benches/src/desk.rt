//! Messages are answered over a book in memory whose tree the program makes itself: how many octets the replies had.
ghost use Rattle.std.specs.Prelude.{◌≡◌, IfOk};

use crate::fault::Fault;
use crate::requests::{Case, SCHEMA, interfaces};
use base_kinds::Copied;
use base_lists::NoMemory;
use book_core::Single;
use grpc_core::Method;
use memory_disks::MemDisk;
use plain_tree::PlainTree;
use request_desk::Desk;
use schema_core::Schema;
use schema_text::read_schema;
use std::alloc::Global;
use std::io;
use test_builders::new_book;

#[derive(Drop)]
struct Target {
    desk: Desk,
    port: Single<MemDisk, PlainTree>,
}

/// A port of a book without entries.
fn new_port(alloc: Global, schema: Schema) -> Result<Single<MemDisk, PlainTree>, NoMemory>
    ensures { IfOk result (λ port. port.book.opened.schema ≡ schema) }
{
    match new_book(alloc, schema) {
        Ok(book) => Ok(Single::make(book, 1)),
        Err(NoMemory) => Err(NoMemory),
    }
}

fn schema_of(alloc: Global) -> Result<Schema, NoMemory> {
    match read_schema(alloc, SCHEMA) {
        Ok(schema) => Ok(schema),
        Err(_) => Err(NoMemory),
    }
}

/// A desk under this schema, and a port of a book under it.
fn target_of(alloc: Global, desk: Desk, schema: Schema) -> Result<Target, NoMemory>
    requires { desk ≡ schema }
    ensures { IfOk result (λ target. target.port.book.opened.schema ≡ target.desk) }
{
    match new_port(alloc, schema) {
        Ok(port) => Ok(Target { desk, port }),
        Err(NoMemory) => Err(NoMemory),
    }
}

fn target_under(alloc: Global, schema: Schema) -> Result<Target, NoMemory>
    ensures { IfOk result (λ target. target.port.book.opened.schema ≡ target.desk) }
{
    match schema.copy(alloc) {
        Ok(copy) => target_of(alloc, Desk::make(copy), schema),
        Err(NoMemory) => Err(NoMemory),
    }
}

fn new_target(alloc: Global) -> Result<Target, NoMemory>
    ensures { IfOk result (λ target. target.port.book.opened.schema ≡ target.desk) }
{
    match schema_of(alloc) {
        Ok(schema) => target_under(alloc, schema),
        Err(NoMemory) => Err(NoMemory),
    }
}

impl Target {
    /// How many octets the reply has.
    fn answer(&mut self, alloc: Global, method: Method, request: &[u8]) -> Result<u64, Fault>
        requires { self.old.port.book.opened.schema ≡ self.old.desk }
        ensures { self.new.port.book.opened.schema ≡ self.new.desk }
    {
        match self.desk.answer(alloc, method, request, 1, &mut self.port) {
            Ok(reply) => Ok(reply.len() as u64),
            Err(refusal) => Err(Fault::from(refusal)),
        }
    }

    /// The same for so many of the message, one after another.
    fn answer_rounds(
        &mut self,
        alloc: Global,
        method: Method,
        request: &[u8],
        rounds: u32,
    ) -> Result<u64, Fault>
        requires { self.old.port.book.opened.schema ≡ self.old.desk }
    {
        let mut octets: u64 = 0;
        for _ in 0..rounds {
            octets = octets.wrapping_add(self.answer(alloc, method, request)?);
        }
        Ok(octets)
    }
}

/// Gives the target a tree of so many interfaces.
fn fill(alloc: Global, target: &mut Target, number: u32) -> Result<(), Fault>
    requires { target.old.port.book.opened.schema ≡ target.old.desk }
    ensures { target.new.port.book.opened.schema ≡ target.new.desk }
{
    match interfaces(alloc, number) {
        Ok(tree) => match target.answer(alloc, Method::Set, tree.items()) {
            Ok(_) => Ok(()),
            Err(fault) => Err(fault),
        },
        Err(NoMemory) => Err(Fault::NoMemory),
    }
}

/// How many octets the replies to so many of a case's messages have.
fn ask(alloc: Global, target: &mut Target, case: Case, rounds: u32) -> Result<u64, Fault>
    requires { target.old.port.book.opened.schema ≡ target.old.desk }
{
    match case.request(alloc) {
        Ok(request) => target.answer_rounds(alloc, case.method(), request.items(), rounds),
        Err(NoMemory) => Err(Fault::NoMemory),
    }
}

fn fill_and_ask(
    alloc: Global,
    target: &mut Target,
    case: Case,
    number: u32,
    rounds: u32,
) -> Result<u64, Fault>
    requires { target.old.port.book.opened.schema ≡ target.old.desk }
{
    match fill(alloc, target, number) {
        Ok(()) => ask(alloc, target, case, rounds),
        Err(fault) => Err(fault),
    }
}

/// How many octets the replies to so many messages have, over a tree of so many interfaces.
fn answered(alloc: Global, case: Case, number: u32, rounds: u32) -> Result<u64, Fault> {
    match new_target(alloc) {
        Ok(mut target) => fill_and_ask(alloc, &mut target, case, number, rounds),
        Err(NoMemory) => Err(Fault::NoMemory),
    }
}

/// Runs a case, and prints what it did.
pub fn print_case(
    alloc: Global,
    rt: &impl Print,
    case: Case,
    number: u32,
    rounds: u32,
) -> io::Result<()> {
    let octets = answered(alloc, case, number, rounds)?;
    let name = case.name();
    println!(rt; "{name}: {number} interfaces, {rounds} rounds, {octets} octets")
}
