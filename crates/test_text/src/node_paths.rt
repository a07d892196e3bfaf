//! Paths of a request: how many elements they may have, and the order of their keys.
use crate::asked::{is_answered, nothing};
use crate::builders::text_of;
use base_kinds::{Action, Elem, Keys, Path};
use std::alloc::Global;
use std::process::Abort;

/// A path of so many elements with this name.
fn long_path(rt: &impl Abort, alloc: Global, name: &str, length: usize) -> Path {
    let mut path = Path::empty(alloc);
    for _ in 0..length {
        let name = text_of(rt, alloc, name);
        let keys = Keys::empty(alloc);
        path.push(Elem { name, keys }).expect(rt, "memory");
    }
    path
}

/// Whether a delete of this path behind this prefix is refused for a bad path.
fn delete_is_refused(rt: &impl Abort, alloc: Global, prefix: Path, path: Path) -> bool {
    let mut ask = nothing(rt, alloc, prefix, Action::Plain);
    ask.deletes.push(path).expect(rt, "memory");
    is_answered(rt, alloc, ask, "refused 5")
}

/// A name, how many elements of it stand in the prefix and in the path, and whether they are taken.
const LENGTHS: &[(&str, usize, usize, bool)] = &[
    ("a", 0, 0, true),
    ("a", 16, 16, true),
    ("a", 16, 17, false),
    ("a", 33, 0, false),
    ("a", 0, 33, false),
    ("", 0, 1, false),
    ("", 1, 0, false),
];

#[test]
fn a_path_has_at_most_32_named_elements(rt: HostRuntime) {
    let alloc = rt.alloc();
    for (name, above, below, is_taken) in LENGTHS {
        let prefix = long_path(&rt, alloc, name, *above);
        let path = long_path(&rt, alloc, name, *below);
        let is_refused = delete_is_refused(&rt, alloc, prefix, path);
        assert!(rt; is_refused != *is_taken, "{above} and {below} of {name}");
    }
}

fn add_key(rt: &impl Abort, alloc: Global, keys: &mut Keys, name: &str) {
    let key = (text_of(rt, alloc, name), text_of(rt, alloc, "x"));
    keys.push(key).expect(rt, "memory");
}

/// A path of an element with two keys of these names.
fn keyed_path(rt: &impl Abort, alloc: Global, one: &str, other: &str) -> Path {
    let mut keys = Keys::empty(alloc);
    add_key(rt, alloc, &mut keys, one);
    add_key(rt, alloc, &mut keys, other);
    let name = text_of(rt, alloc, "l");
    let mut path = Path::empty(alloc);
    path.push(Elem { name, keys }).expect(rt, "memory");
    path
}

/// Names of two keys, and whether they are taken.
const KEYS: &[(&str, &str, bool)] = &[("a", "b", true), ("b", "a", false), ("a", "a", false)];

#[test]
fn keys_rise_by_name(rt: HostRuntime) {
    let alloc = rt.alloc();
    for (one, other, is_taken) in KEYS {
        let path = keyed_path(&rt, alloc, one, other);
        let is_refused = delete_is_refused(&rt, alloc, Path::empty(alloc), path);
        assert!(rt; is_refused != *is_taken, "{one} and {other}");
    }
}
