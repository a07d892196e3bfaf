// The texts of schemas: each cause, each limit, and a schema that is read.
use crate::builders::assert_of;
use schema_text::{Cause, SchemaError, read_schema};
use std::alloc::Global;
use std::process::Abort;
use test_captures::SCHEMA;

/// The line and the cause of a text's fault, where it has one; line 0 stands for want of memory.
fn fault_of(alloc: Global, text: &[u8]) -> Option<(u32, Cause)> {
    match read_schema(alloc, text) {
        Ok(_) => None,
        Err(SchemaError::Fault(fault)) => Some((fault.line, fault.cause)),
        Err(SchemaError::NoMemory) => Some((0, Cause::TooLarge)),
    }
}

const FAULTS: &[(&str, u32, Cause)] = &[
    ("\n# c\nmodule m\nnode /a\n", 4, Cause::Syntax),
    ("container a\n", 1, Cause::Syntax),
    ("container /a\n", 1, Cause::NoModule),
    ("\nleaf /a/b string\nmodule m\n", 2, Cause::NoModule),
    ("module m\nleaf /a/b string\n", 2, Cause::NoParent),
    (
        "module m\nleaf /a string\nleaf /a/b string\n",
        3,
        Cause::NoParent,
    ),
    (
        "module m\nleaf-list /a string\nleaf /a/b string\n",
        3,
        Cause::NoParent,
    ),
    (
        "module m\ncontainer /a/b\ncontainer /a\n",
        2,
        Cause::NoParent,
    ),
    ("module m\nleaf /a/b string\nnode\n", 2, Cause::NoParent),
    ("module m\nnode\nleaf /a/b string\n", 2, Cause::Syntax),
    ("module m\ncontainer /a\nleaf /a string\n", 3, Cause::Twice),
    (
        "module m\nleaf /a int8\nmodule n\nleaf /a int8\n",
        4,
        Cause::Twice,
    ),
    (
        "module m\nleaf /a int8\nleaf /a int8\nleaf /b/c int8\n",
        3,
        Cause::Twice,
    ),
    ("module m\nlist /a k\n", 2, Cause::NoKey),
    (
        "module m\nlist /a k\nmodule n\nleaf /a/k string\n",
        2,
        Cause::NoKey,
    ),
    ("module m\nlist /a k\ncontainer /a/k\n", 2, Cause::NoKey),
    (
        "module m\nlist /a k,j\nleaf /a/k string\nleaf /j string\n",
        2,
        Cause::NoKey,
    ),
    ("module m\nlist /a a,b,c,d,e,f,g,h\n", 2, Cause::NoKey),
    ("module m\nleaf /a string ref /b\n", 2, Cause::BadRef),
    (
        "module m\nleaf /a string ref /b\nleaf /b binary\n",
        2,
        Cause::BadRef,
    ),
    (
        "module m\nleaf /a uint8 ref /b\nleaf /b int8\n",
        2,
        Cause::BadRef,
    ),
    (
        "module m\nleaf /a enum(x|y) ref /b\nleaf /b enum(y|x)\n",
        2,
        Cause::BadRef,
    ),
    (
        "module m\nleaf /a string ref /b\nleaf-list /b string\n",
        2,
        Cause::BadRef,
    ),
    (
        "module m\nleaf /r int8 ref /x\nlist /a k\n",
        2,
        Cause::BadRef,
    ),
    (
        "module m\nlist /a k\nleaf /r int8 ref /x\n",
        2,
        Cause::NoKey,
    ),
    (
        "module m\nlist /a k\nleaf /r int8 ref /x\nnode\n",
        4,
        Cause::Syntax,
    ),
];

#[test]
fn the_first_fault_is_told(rt: HostRuntime) {
    for (text, line, cause) in FAULTS {
        let told = fault_of(rt.alloc(), text.as_bytes());
        assert_of(&rt, text, told == Some((*line, *cause)));
    }
}

const NO_LINES: &[&str] = &[
    "module m\r\n",
    "module\tm\n",
    "module  m\n",
    "module m \n",
    " module m\n",
    "Module m\n",
    "module\n",
    "module m n\n",
    "module 1m\n",
    "module é\n",
    "module m",
    "#",
    "container\n",
    "container /\n",
    "container a\n",
    "container //a\n",
    "container /a/\n",
    "container /a//b\n",
    "container /-a\n",
    "container /a max 1\n",
    "list /a\n",
    "list /a \n",
    "list /a k,\n",
    "list /a ,k\n",
    "list /a k,k\n",
    "list /a k, j\n",
    "list /a a,b,c,d,e,f,g,h,i\n",
    "list /a k max\n",
    "list /a k max 0\n",
    "list /a k max 01\n",
    "list /a k max +1\n",
    "list /a k max 65537\n",
    "list /a k max 18446744073709551617\n",
    "list /a k max 1 1\n",
    "list /a k min 1\n",
    "leaf /a\n",
    "leaf /a bool8\n",
    "leaf /a int7\n",
    "leaf /a int\n",
    "leaf /a dec\n",
    "leaf /a dec0\n",
    "leaf /a dec01\n",
    "leaf /a dec19\n",
    "leaf /a enum\n",
    "leaf /a enum()\n",
    "leaf /a enum(\n",
    "leaf /a enum)\n",
    "leaf /a enum(a|)\n",
    "leaf /a enum(a||b)\n",
    "leaf /a enum(a|b|a)\n",
    "leaf /a enum(a b)\n",
    "leaf /a enum(a/b)\n",
    "leaf /a enum(a))\n",
    "leaf /a string max 1\n",
    "leaf /a string mandatory mandatory\n",
    "leaf /a string ref\n",
    "leaf /a string ref b\n",
    "leaf /a string ref /b mandatory\n",
    "leaf-list /a string mandatory\n",
    "leaf-list /a string ref /b\n",
];

#[test]
fn other_lines_are_no_lines(rt: HostRuntime) {
    for text in NO_LINES {
        let told = fault_of(rt.alloc(), text.as_bytes());
        assert_of(&rt, text, told == Some((1, Cause::Syntax)));
    }
}

/// The front, so many middles and the end.
fn joined(
    rt: &impl Abort,
    alloc: Global,
    front: &str,
    middle: &[u8],
    times: u32,
    end: &str,
) -> Vec<u8> {
    let mut text = Vec::new(alloc);
    text.extend_from_slice(front.as_bytes())
        .expect(rt, "memory");
    for _ in 0..times {
        text.extend_from_slice(middle).expect(rt, "memory");
    }
    text.extend_from_slice(end.as_bytes()).expect(rt, "memory");
    text
}

/// The fault of the text that `joined` makes.
fn fault_of_joined(
    rt: &impl Abort,
    alloc: Global,
    front: &str,
    middle: &[u8],
    times: u32,
    end: &str,
) -> Option<(u32, Cause)> {
    let text = joined(rt, alloc, front, middle, times, end);
    fault_of(alloc, &text)
}

type Limit = (
    &'static str,
    &'static str,
    u32,
    &'static str,
    Option<(u32, Cause)>,
);

const LIMITS: &[Limit] = &[
    ("module ", "n", 64, "\n", None),
    ("module ", "n", 65, "\n", Some((1, Cause::Syntax))),
    (
        "module m\nleaf ",
        "/a",
        32,
        " bool\n",
        Some((2, Cause::NoParent)),
    ),
    (
        "module m\nleaf ",
        "/a",
        33,
        " bool\n",
        Some((2, Cause::Syntax)),
    ),
    ("#", "x", 1023, "\n", None),
    ("#", "x", 1024, "\n", Some((1, Cause::TooLarge))),
    ("?", "x", 1024, "\n", Some((1, Cause::TooLarge))),
    ("#", "x", 1023, "", Some((1, Cause::Syntax))),
    ("#", "x", 1024, "", Some((1, Cause::TooLarge))),
];

/// Whether the text that `joined` makes of a row has the row's fault, or none.
fn is_told(rt: &impl Abort, alloc: Global, (front, middle, times, end, fault): &Limit) -> bool {
    fault_of_joined(rt, alloc, front, middle.as_bytes(), *times, end) == *fault
}

#[test]
fn limits_of_names_paths_and_lines(rt: HostRuntime) {
    for row in LIMITS {
        assert!(rt;
            is_told(&rt, rt.alloc(), row),
            "{:?}{:?} x {}",
            row.0,
            row.1,
            row.2
        );
    }
}

const LONG_TEXTS: &[(&str, &str, Option<(u32, Cause)>)] = &[
    ("", "", None),
    ("", "\n", Some((1025, Cause::TooLarge))),
    ("", "x", Some((1025, Cause::TooLarge))),
    ("\n", "", Some((1025, Cause::TooLarge))),
];

/// The fault of the longest text between these.
fn fault_of_longest(
    rt: &impl Abort,
    alloc: Global,
    front: &str,
    end: &str,
) -> Option<(u32, Cause)> {
    let line = joined(rt, alloc, "#", b"x", 1022, "\n");
    fault_of_joined(rt, alloc, front, &line, 1024, end)
}

/// 1,024 lines of 1,023 octets and a line feed are the longest text.
#[test]
fn limits_of_a_text(rt: HostRuntime) {
    for (front, end, fault) in LONG_TEXTS {
        let told = fault_of_longest(&rt, rt.alloc(), front, end);
        assert!(rt; told == *fault, "{front:?}{end:?}");
    }
}

const LETTERS: &[u8; 64] = b"ABCDEFGHIJKLMNOPQRSTUVWXYZabcdefghijklmnopqrstuvwxyz0123456789_.";

/// So many different texts of two octets, each between these.
fn letters(rt: &impl Abort, alloc: Global, front: &[u8], count: u32, behind: &[u8]) -> Vec<u8> {
    let mut text = Vec::new(alloc);
    for number in 0..count {
        let high = LETTERS[(number / 64 % 64) as usize];
        let low = LETTERS[(number % 64) as usize];
        text.extend_from_slice(front).expect(rt, "memory");
        text.extend_from_slice(&[high, low]).expect(rt, "memory");
        text.extend_from_slice(behind).expect(rt, "memory");
    }
    text
}

const ENUMS: &[(u32, Option<(u32, Cause)>)] = &[(255, None), (256, Some((2, Cause::Syntax)))];

/// The fault of a schema with a leaf of an enum of so many names and one more.
fn fault_of_enum(rt: &impl Abort, alloc: Global, count: u32) -> Option<(u32, Cause)> {
    let texts = letters(rt, alloc, b"", count, b"|");
    fault_of_joined(rt, alloc, "module m\nleaf /a enum(", &texts, 1, "z)\n")
}

#[test]
fn limits_of_enums(rt: HostRuntime) {
    for (count, fault) in ENUMS {
        assert!(rt; fault_of_enum(&rt, rt.alloc(), *count) == *fault, "{count}");
    }
}

const LAST_LINES: &[(&str, Option<(u32, Cause)>)] = &[
    ("# c\n\nmodule n\n", None),
    ("leaf /z bool\n", Some((4098, Cause::TooLarge))),
    ("leaf /z/z bool\n", Some((4098, Cause::TooLarge))),
    ("leaf /aAA bool\n", Some((4098, Cause::TooLarge))),
    ("leaf /z bol\n", Some((4098, Cause::Syntax))),
];

/// The fault of a schema with as many nodes as there may be, and these lines behind them.
fn fault_behind_nodes(rt: &impl Abort, alloc: Global, more: &str) -> Option<(u32, Cause)> {
    let leaves = letters(rt, alloc, b"leaf /a", 4096, b" bool\n");
    fault_of_joined(rt, alloc, "module m\n", &leaves, 1, more)
}

#[test]
fn limits_of_nodes(rt: HostRuntime) {
    for (more, fault) in LAST_LINES {
        let told = fault_behind_nodes(&rt, rt.alloc(), more);
        assert_of(&rt, more, told == *fault);
    }
}

/// How many nodes the schema of this text has.
fn nodes_of(alloc: Global, text: &[u8]) -> u32 {
    match read_schema(alloc, text) {
        Ok(schema) => schema.nodes(),
        Err(_) => 0,
    }
}

#[test]
fn a_schema_of_three_modules_has_17_nodes(rt: HostRuntime) {
    assert!(rt; nodes_of(rt.alloc(), SCHEMA.as_bytes()) == 17);
    assert!(rt; Cause::NoParent.text() == b"no parent".as_slice());
}
