//! What the tests are made of: texts and paths, each from a text.
use base_kinds::{Elem, Keys, Path, Seq, Text, Texts};
use std::alloc::Global;
use std::process::Abort;

pub fn text_of(rt: &impl Abort, alloc: Global, text: &str) -> Text {
    Text::of(alloc, text.as_bytes()).expect(rt, "a text")
}

/// The words of a line.
pub fn texts_of(rt: &impl Abort, alloc: Global, line: &str) -> Texts {
    let mut texts = Seq::empty(alloc);
    for word in line.split_whitespace() {
        texts.push(text_of(rt, alloc, word)).expect(rt, "memory");
    }
    texts
}

/// The path of a text as `a/l,k=x` or `a/l[k:x]`: elements between `/`, and keys behind `,` or in brackets. That of the
/// empty text has no elements.
pub fn path_of(rt: &impl Abort, alloc: Global, text: &str) -> Path {
    let mut path = Seq::empty(alloc);
    if !text.is_empty() {
        for part in text.split('/') {
            path.push(elem_of(rt, alloc, part)).expect(rt, "memory");
        }
    }
    path
}

fn elem_of(rt: &impl Abort, alloc: Global, text: &str) -> Elem {
    let (name, keys) = text.split_once(&[',', '[']).unwrap_or((text, ""));
    Elem {
        name: text_of(rt, alloc, name),
        keys: keys_of(rt, alloc, keys),
    }
}

/// The keys of a text as `j=y,k=x` or `j:y][k:x]`.
fn keys_of(rt: &impl Abort, alloc: Global, text: &str) -> Keys {
    let mut keys = Seq::empty(alloc);
    for part in text.split(&[',', '[']) {
        if let Some((key, value)) = part.split_once(&['=', ':']) {
            let value = value.strip_suffix(']').unwrap_or(value);
            keys.push((text_of(rt, alloc, key), text_of(rt, alloc, value)))
                .expect(rt, "memory");
        }
    }
    keys
}
