//! What the tests are made of: texts, octets, paths and schemas, each from a text.
use base_kinds::{Bytes, Path, Text};
use path_core::read_path_text;
use schema_core::Schema;
use schema_text::read_schema;
use std::alloc::Global;
use std::process::Abort;

pub fn text_of(rt: &impl Abort, alloc: Global, text: &str) -> Text {
    Text::of(alloc, text.as_bytes()).expect(rt, "a text")
}

pub fn octets_of(rt: &impl Abort, alloc: Global, octets: &[u8]) -> Bytes {
    let mut list = Bytes::empty(alloc);
    list.extend_from_slice(octets).expect(rt, "memory");
    list
}

pub fn path_of(rt: &impl Abort, alloc: Global, text: &str) -> Path {
    read_path_text(alloc, text.as_bytes()).expect(rt, "a path")
}

pub fn schema_of(rt: &impl Abort, alloc: Global, text: &str) -> Schema {
    read_schema(alloc, text.as_bytes()).expect(rt, "a schema")
}

/// It is so of what this text says.
pub fn assert_of(rt: &impl Abort, text: &str, is_so: bool) {
    assert!(rt; is_so, "{text}");
}
