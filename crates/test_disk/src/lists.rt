//! Lists and texts that tests make, which end the test where memory is wanting.
use base_kinds::{Seq, Text};
use std::alloc::Global;
use std::process::Abort;

/// A list of one item.
pub(crate) fn one<T: Drop>(rt: &impl Abort, alloc: Global, item: T) -> Seq<T> {
    let mut list = Seq::empty(alloc);
    list.push(item).expect(rt, "memory");
    list
}

pub(crate) fn push<T: Drop>(rt: &impl Abort, list: &mut Seq<T>, item: T) {
    list.push(item).expect(rt, "memory");
}

pub(crate) fn text_of(rt: &impl Abort, alloc: Global, octets: &[u8]) -> Text {
    Text::of(alloc, octets).expect(rt, "a text")
}
