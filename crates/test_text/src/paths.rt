// Paths: texts, patterns, order, prefixes.
use crate::builders::{assert_of, text_of};
use base_kinds::{Bytes, Elem, Keys, Path, Same, Text};
use path_core::{
    PathFault, cmp_paths, covers, join_prefix, matches, read_path_text, read_value_text,
    write_path_text, write_value_text,
};
use std::alloc::Global;
use std::cmp::Ordering;
use std::process::Abort;

/// Path texts and the elements that they name, worked out by hand from the rule: elements between `;`, each of a name and
/// of keys with their values, between `,`.
const TAKEN: &[(&str, &str)] = &[
    ("/", ""),
    ("/a", "a"),
    ("/system/config/hostname", "system;config;hostname"),
    ("/Z.9-_*", "Z.9-_*"),
    ("/*", "*"),
    ("/a/.../b", "a;...;b"),
    ("/l[k=x]", "l,k=x"),
    ("/l[k=]", "l,k="),
    ("/l[=x]", "l,=x"),
    ("/l[k=*]", "l,k=*"),
    ("/l[a=1][b=2]", "l,a=1,b=2"),
    ("/l[a=2][aa=1]", "l,a=2,aa=1"),
    ("/l[B=1][a=2]", "l,B=1,a=2"),
    ("/l[=1][*=2]", "l,=1,*=2"),
    ("/l[k=v]/m[k=v]", "l,k=v;m,k=v"),
    ("/l[k=a=b/c[d\"]", "l,k=a=b/c[d\""),
    ("/l[k=!~]", "l,k=!~"),
    ("/l[k=a\\20b]", "l,k=a b"),
    ("/l[k=\\5c\\5d]", "l,k=\\]"),
    ("/l[k=\\7f\\00]", "l,k=\u{7f}\0"),
    ("/l[k=\\0a]/b", "l,k=\n;b"),
    ("/a\\20b", "a b"),
    ("/a\\2fb/c", "a/b;c"),
    ("/\\5b\\5d\\3d\\5c", "[]=\\"),
    ("/openconfig\\3ainterfaces", "openconfig:interfaces"),
    ("/l[k\\3a=v]", "l,k:=v"),
    ("/\\c3\\a9", "\u{e9}"),
    (
        "/\\e2\\82\\ac[\\c2\\a0=\\f0\\9f\\98\\80]",
        "\u{20ac},\u{a0}=\u{1f600}",
    ),
    ("/l[k=\\f4\\8f\\bf\\bf]", "l,k=\u{10ffff}"),
    ("/l[k=\\ef\\bf\\bfx]", "l,k=\u{ffff}x"),
];

/// Texts that are no path's: the form, the escapes, the order of the keys, escapes that are no UTF-8.
const REFUSED: &[&str] = &[
    "",
    "a",
    "a/b",
    "//",
    "//a",
    "/a/",
    "/a//b",
    "/[k=v]",
    "/a b",
    "/a ",
    "/a\n",
    "/a:b",
    "/a=b",
    "/\u{e9}",
    "/a\\",
    "/a\\2",
    "/a\\2/b",
    "/a\\g0",
    "/a\\2F",
    "/a\\2fB\\2F",
    "/a\\41",
    "/a\\2a",
    "/a\\5f",
    "/l[k",
    "/l[",
    "/l]",
    "/l[k]",
    "/l[k=v",
    "/l[k=v]x",
    "/l[k=v] ",
    "/l[k=v]/",
    "/l[k=v]]",
    "/l[k=a]b]",
    "/l[k=a b]",
    "/l[k=\x7f]",
    "/l[k=\\]",
    "/l[k=\\5]",
    "/l[k=\\5C]",
    "/l[k=\\41]",
    "/l[k=\\2f]",
    "/l[k=\\7e]",
    "/l[k=\u{e9}]",
    "/l[k/=v]",
    "/l[b=1][a=2]",
    "/l[a=1][a=2]",
    "/l[a=1][a=1]",
    "/l[aa=1][a=2]",
    "/\\ff",
    "/\\c3",
    "/\\c3/\\a9",
    "/\\c0\\af",
    "/\\ed\\a0\\80",
    "/l[k=\\80]",
    "/l[\\e2\\82=v]",
    "/l[k=\\f4\\90\\80\\80]",
];

/// The key of a text as `k=x`, and its value.
fn key_of(rt: &impl Abort, alloc: Global, key: &str) -> (Text, Text) {
    let (key, value) = key.split_once('=').expect(rt, "a key and its value");
    (text_of(rt, alloc, key), text_of(rt, alloc, value))
}

/// The element of a text as `l,k=x`.
fn elem_of(rt: &impl Abort, alloc: Global, elem: &str) -> Elem {
    let mut keys = Keys::empty(alloc);
    let mut parts = elem.split(',');
    let name = parts.next().unwrap_or("");
    for part in parts {
        keys.push(key_of(rt, alloc, part)).expect(rt, "memory");
    }
    Elem {
        name: text_of(rt, alloc, name),
        keys,
    }
}

/// The path of elements as `a;l,k=x`, where there are any.
fn path_of(rt: &impl Abort, alloc: Global, elems: &str) -> Path {
    let mut path = Path::empty(alloc);
    if elems.is_empty() {
        return path;
    }
    for elem in elems.split(';') {
        path.push(elem_of(rt, alloc, elem)).expect(rt, "memory");
    }
    path
}

fn read(rt: &impl Abort, alloc: Global, text: &str) -> Path {
    read_path_text(alloc, text.as_bytes()).expect(rt, "a path text")
}

/// Whether the path's text is added behind what is there.
fn is_written_as(rt: &impl Abort, alloc: Global, path: &Path, text: &str) -> bool {
    let mut out = Bytes::of(alloc, b">").expect(rt, "memory");
    write_path_text(alloc, path, &mut out).expect(rt, "memory");
    out.items().split_first() == Some((&b'>', text.as_bytes()))
}

/// Whether the path of these elements is written as this text.
fn elems_are_written_as(rt: &impl Abort, alloc: Global, elems: &str, text: &str) -> bool {
    is_written_as(rt, alloc, &path_of(rt, alloc, elems), text)
}

/// Whether the text is read as the path of these elements.
fn is_read_as(rt: &impl Abort, alloc: Global, text: &str, elems: &str) -> bool {
    read(rt, alloc, text).same(&path_of(rt, alloc, elems))
}

/// Whether the text is that of the path of these elements.
fn is_text_of(rt: &impl Abort, alloc: Global, text: &str, elems: &str) -> bool {
    is_read_as(rt, alloc, text, elems) && elems_are_written_as(rt, alloc, elems, text)
}

#[test]
fn texts_are_read_and_written_back(rt: HostRuntime) {
    for (text, elems) in TAKEN {
        assert_of(&rt, text, is_text_of(&rt, rt.alloc(), text, elems));
    }
}

/// Whether the octets are no path's text.
fn is_no_path(alloc: Global, text: &[u8]) -> bool {
    matches!(read_path_text(alloc, text), Err(PathFault::BadPath))
}

#[test]
fn other_octets_are_refused(rt: HostRuntime) {
    for text in REFUSED {
        assert_of(&rt, text, is_no_path(rt.alloc(), text.as_bytes()));
    }
    // an octet that is no UTF-8
    assert!(rt; is_no_path(rt.alloc(), b"/\xff"));
}

/// Texts of values by themselves, and what they say.
const VALUES: &[(&str, &str)] = &[
    ("", ""),
    ("a", "a"),
    ("!~", "!~"),
    ("[=/*\"", "[=/*\""),
    ("a\\20b", "a b"),
    ("\\5c\\5d", "\\]"),
    ("\\c3\\a9", "\u{e9}"),
    ("\\00\\7f", "\0\u{7f}"),
];

const NO_VALUES: &[&str] = &[
    "a]", "a b", "\\", "\\5", "\\5D", "\\61", "\\c3", "\u{e9}", "\\5d]", "\x7f",
];

/// Whether the value is written as this text.
fn is_value_written_as(rt: &impl Abort, alloc: Global, value: &Text, text: &str) -> bool {
    let mut written = Bytes::empty(alloc);
    write_value_text(alloc, value, &mut written).expect(rt, "memory");
    written.items() == text.as_bytes()
}

/// Whether the text is read as this value.
fn is_read_as_value(alloc: Global, text: &str, value: &Text) -> bool {
    match read_value_text(alloc, text.as_bytes()) {
        Ok(read) => read.same(value),
        Err(_) => false,
    }
}

/// Whether the text is that of this value alone.
fn is_text_of_value(rt: &impl Abort, alloc: Global, text: &str, value: &str) -> bool {
    let value = text_of(rt, alloc, value);
    is_read_as_value(alloc, text, &value) && is_value_written_as(rt, alloc, &value, text)
}

/// Whether the octets are no value's text.
fn is_no_value(alloc: Global, text: &[u8]) -> bool {
    matches!(read_value_text(alloc, text), Err(PathFault::BadPath))
}

#[test]
fn values_are_read_and_written_alone(rt: HostRuntime) {
    for (text, value) in VALUES {
        assert_of(&rt, text, is_text_of_value(&rt, rt.alloc(), text, value));
    }
    for text in NO_VALUES {
        assert_of(&rt, text, is_no_value(rt.alloc(), text.as_bytes()));
    }
}

#[test]
fn an_empty_name_is_written_as_no_octets(rt: HostRuntime) {
    assert!(rt; elems_are_written_as(&rt, rt.alloc(), "a;,k=v", "/a/[k=v]"));
}

/// A pattern, a path, whether it matches, and whether it covers.
const PATTERNS: &[(&str, &str, bool, bool)] = &[
    ("/", "/", true, true),
    ("/", "/a", false, true),
    ("/a", "/", false, false),
    ("/a/b", "/a/b", true, true),
    ("/a", "/a/b", false, true),
    ("/a/b", "/a", false, false),
    ("/*", "/", false, false),
    ("/*", "/a", true, true),
    ("/*", "/a/b", false, true),
    ("/a/*/c", "/a/b/c", true, true),
    ("/...", "/", true, true),
    ("/.../c", "/c/b/c", true, true),
    ("/.../c", "/c/b/d", false, true),
    ("/.../c", "/a/b", false, false),
    ("/.../a/b/.../b/c", "/a/b/a/b/c", true, true),
    ("/.../a/b/.../b/c", "/a/b/c/b/a/c", false, false),
    ("/.../b/...", "/a/b", true, true),
    ("/.../a/a/b", "/a/a/a/b", true, true),
    ("/a/.../b", "/c/a/b", false, false),
    ("/.../b", "/", false, false),
    ("/l[k=x]", "/l[k=x]/m", false, true),
    ("/l[k=x]", "/l[k=y]", false, false),
    ("/l[k=*]", "/l[k=y]", true, true),
    ("/l", "/l[k=y]", true, true),
    ("/l[k=x]", "/l", false, false),
    ("/l[k=x]", "/l[j=x][k=x]", true, true),
    ("/...[k=x]/m", "/l[k=y]/m", true, true),
];

/// Whether the pattern of a row matches and covers the path as the row says.
fn matches_and_covers(
    rt: &impl Abort,
    alloc: Global,
    (pattern, path, is_match, is_covered): &(&str, &str, bool, bool),
) -> bool {
    let pattern = read(rt, alloc, pattern);
    let path = read(rt, alloc, path);
    let agrees_on_match = matches(&pattern, &path) == *is_match;
    let agrees_on_cover = covers(&pattern, &path) == *is_covered;
    agrees_on_match && agrees_on_cover
}

#[test]
fn patterns_match_and_cover(rt: HostRuntime) {
    for row in PATTERNS {
        assert!(rt;
            matches_and_covers(&rt, rt.alloc(), row),
            "{} and {}",
            row.0,
            row.1
        );
    }
}

/// In rising order.
const RISING: &[&str] = &[
    "/",
    "/Z",
    "/a",
    "/a/b",
    "/a[k=1]",
    "/a[k=1]/b",
    "/a[k=1][l=2]",
    "/a[k=2]",
    "/ab",
    "/b",
    "/\\c3\\a9",
];

/// The order of the paths of two texts.
fn order_of(rt: &impl Abort, alloc: Global, one: &str, other: &str) -> Ordering {
    cmp_paths(&read(rt, alloc, one), &read(rt, alloc, other))
}

#[test]
fn paths_compare_by_their_elements(rt: HostRuntime) {
    let alloc = rt.alloc();
    for (i, a) in RISING.iter().enumerate() {
        for (j, b) in RISING.iter().enumerate() {
            assert!(rt; order_of(&rt, alloc, a, b) == i.cmp(&j), "{a} and {b}");
        }
    }
}

fn same_elems(rt: &impl Abort, alloc: Global, count: usize) -> Path {
    let mut path = Path::empty(alloc);
    for _ in 0..count {
        path.push(elem_of(rt, alloc, "a")).expect(rt, "memory");
    }
    path
}

const LENGTHS: &[(usize, usize, Option<PathFault>)] = &[
    (0, 0, None),
    (20, 12, None),
    (32, 0, None),
    (0, 32, None),
    (20, 13, Some(PathFault::BadPath)),
    (33, 0, Some(PathFault::BadPath)),
    (0, 33, Some(PathFault::BadPath)),
    (32, 32, Some(PathFault::BadPath)),
];

/// Whether the two paths together are the whole one.
fn join_to(alloc: Global, prefix: &Path, path: &Path, whole: &Path) -> bool {
    match join_prefix(alloc, prefix, path) {
        Ok(joined) => joined.same(whole),
        Err(_) => false,
    }
}

/// Whether the paths of the first two texts together are that of the third.
fn are_joined(rt: &impl Abort, alloc: Global, prefix: &str, path: &str, whole: &str) -> bool {
    join_to(
        alloc,
        &read(rt, alloc, prefix),
        &read(rt, alloc, path),
        &read(rt, alloc, whole),
    )
}

/// What is told of a prefix and a path of so many elements.
fn join_fault(rt: &impl Abort, alloc: Global, before: usize, after: usize) -> Option<PathFault> {
    join_prefix(
        alloc,
        &same_elems(rt, alloc, before),
        &same_elems(rt, alloc, after),
    )
    .err()
}

#[test]
fn a_prefix_and_a_path_have_32_elements_at_most(rt: HostRuntime) {
    let alloc = rt.alloc();
    assert!(rt; are_joined(&rt, alloc, "/l[k=x]", "/m/n", "/l[k=x]/m/n"));
    for (before, after, fault) in LENGTHS {
        let told = join_fault(&rt, alloc, *before, *after);
        assert!(rt; told == *fault, "{before} and {after}");
    }
}
