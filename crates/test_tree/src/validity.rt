use crate::short_paths::text_of;
use base_kinds::{Bytes, Row, Rows, Value, Values};
use path_core::read_path_text;
use schema_text::read_schema;
use std::alloc::Global;
use std::process::Abort;
use tree_check::{CheckFault, are_rising, check};

/// Keys, mandatory leaves, a reference, and maxima of a list, of a list below it and of a leaf-list.
const SCHEMA: &str = "\
module m\n\
container /host\n\
leaf /host/blob binary\n\
leaf /host/mtu uint16\n\
leaf /host/name string mandatory\n\
leaf /host/on bool\n\
container /links\n\
list /links/link a,b\n\
leaf /links/link/a string\n\
leaf /links/link/b string\n\
container /ports\n\
list /ports/port name max 2\n\
leaf /ports/port/name string\n\
leaf /ports/port/speed uint8\n\
leaf-list /ports/port/tags string max 3\n\
list /ports/port/vlan id max 1\n\
leaf /ports/port/vlan/id uint16\n\
leaf /ports/port/vlan/label string mandatory\n\
leaf-list /words string\n\
leaf /uplink string ref /ports/port/name\n\
leaf /version uint8\n\
";

/// Trees that are valid and small enough, a row in each line: its path and its value.
const TAKEN: &[&str] = &[
    "",
    "/version 255",
    "/host/name r1",
    "/host/mtu 65535;/host/name r1;/host/on true",
    "/ports/port[name=p1]/name p1",
    "/ports/port[name=p1]/name p1;/ports/port[name=p1]/tags [a,b,c]",
    "/ports/port[name=p1]/name p1;/ports/port[name=p1]/speed 1;/ports/port[name=p2]/name p2;/ports/port[name=p2]/speed 1",
    "/ports/port[name=p1]/name p1;/ports/port[name=p1]/vlan[id=7]/id 7;/ports/port[name=p1]/vlan[id=7]/label x;/ports/port[name=p2]/name p2;/ports/port[name=p2]/vlan[id=7]/id 7;/ports/port[name=p2]/vlan[id=7]/label x",
    "/links/link[a=x][b=x]/a x;/links/link[a=x][b=x]/b x;/links/link[a=x][b=y]/a x;/links/link[a=x][b=y]/b y;/links/link[a=y][b=x]/a y;/links/link[a=y][b=x]/b x",
    "/ports/port[name=p1]/name p1;/uplink p1",
    "/ports/port[name=p1]/name p1;/ports/port[name=p2]/name p2;/uplink p2",
    "/words []",
];

/// Trees that break one rule each.
const REFUSED: &[(&str, &str)] = &[
    ("no node", "/nothing x"),
    ("no node below a leaf", "/version/x 1"),
    ("the root", "/ x"),
    ("a container", "/host x"),
    ("a list", "/ports/port[name=p1] x"),
    ("no key", "/ports/port/name p1"),
    ("a key more", "/ports/port[name=p1][z=1]/name p1"),
    ("another key", "/ports/port[nam=p1]/name p1"),
    ("a key of a container", "/host[name=r1]/name r1"),
    ("a key of a leaf", "/host/name[name=r1] r1"),
    ("one key of two", "/links/link[a=x]/a x"),
    ("a number too large", "/version 256"),
    ("a text for a number", "/version x"),
    ("a number for a text", "/host/name 1"),
    ("a list for a leaf", "/version [1]"),
    ("a text for a list", "/words a"),
    ("a number among texts", "/words [a,1]"),
    ("a value twice", "/words [a,b,a]"),
    ("a value twice at the end", "/words [a,b,b]"),
    ("no key leaf", "/ports/port[name=p1]/speed 1"),
    ("another key leaf", "/ports/port[name=p1]/name p2"),
    (
        "the key leaf of another entry",
        "/ports/port[name=p1]/name p1;/ports/port[name=p2]/speed 1",
    ),
    (
        "the first of two key leaves alone",
        "/links/link[a=x][b=y]/a x",
    ),
    (
        "the second of two key leaves alone",
        "/links/link[a=x][b=y]/b y",
    ),
    (
        "key leaves the other way round",
        "/links/link[a=x][b=y]/a y;/links/link[a=x][b=y]/b x",
    ),
    ("no mandatory leaf", "/host/mtu 1500"),
    (
        "no mandatory leaf in an entry",
        "/ports/port[name=p1]/name p1;/ports/port[name=p1]/vlan[id=7]/id 7",
    ),
    (
        "a mandatory leaf in another entry",
        "/ports/port[name=p1]/name p1;/ports/port[name=p1]/vlan[id=7]/id 7;/ports/port[name=p1]/vlan[id=7]/label x;/ports/port[name=p2]/name p2;/ports/port[name=p2]/vlan[id=7]/id 7",
    ),
    ("a reference to nothing", "/uplink p1"),
    (
        "a reference to no value",
        "/ports/port[name=p1]/name p1;/uplink p2",
    ),
    (
        "three entries of two",
        "/ports/port[name=p1]/name p1;/ports/port[name=p2]/name p2;/ports/port[name=p3]/name p3",
    ),
    (
        "two entries of one, in the second instance",
        "/ports/port[name=p1]/name p1;/ports/port[name=p2]/name p2;/ports/port[name=p2]/vlan[id=7]/id 7;/ports/port[name=p2]/vlan[id=7]/label x;/ports/port[name=p2]/vlan[id=8]/id 8;/ports/port[name=p2]/vlan[id=8]/label y",
    ),
    (
        "two entries of one, with rows between",
        "/ports/port[name=p1]/name p1;/ports/port[name=p1]/vlan[id=7]/id 7;/ports/port[name=p1]/vlan[id=7]/label x;/ports/port[name=p1]/vlan[id=8]/id 8;/ports/port[name=p1]/vlan[id=8]/label y",
    ),
    (
        "four values of three",
        "/ports/port[name=p1]/name p1;/ports/port[name=p1]/tags [a,b,c,d]",
    ),
];

fn scalar_of(rt: &impl Abort, alloc: Global, word: &str) -> Value {
    match (word, word.parse::<u64>()) {
        ("true", _) => Value::Bool(true),
        ("false", _) => Value::Bool(false),
        (_, Ok(number)) => Value::Uint(number),
        _ => Value::Text(text_of(rt, alloc, word)),
    }
}

/// The values of a text as `a,b]`.
fn values_of(rt: &impl Abort, alloc: Global, text: &str) -> Values {
    let mut values = Values::empty(alloc);
    for word in text.split(&[',', ']']) {
        if !word.is_empty() {
            values.push(scalar_of(rt, alloc, word)).expect(rt, "memory");
        }
    }
    values
}

/// The value of a word, or a list of those between brackets.
fn value_of(rt: &impl Abort, alloc: Global, word: &str) -> Value {
    match word.strip_prefix('[') {
        Some(inside) => Value::List(values_of(rt, alloc, inside)),
        None => scalar_of(rt, alloc, word),
    }
}

fn row_of(rt: &impl Abort, alloc: Global, path: &str, value: Value) -> Row {
    Row {
        path: read_path_text(alloc, path.as_bytes()).expect(rt, "a path"),
        value,
    }
}

fn rows_of(rt: &impl Abort, alloc: Global, lines: &str) -> Rows {
    let mut rows = Rows::empty(alloc);
    for line in lines.split(';') {
        if let Some((path, word)) = line.split_once(' ') {
            let value = value_of(rt, alloc, word);
            rows.push(row_of(rt, alloc, path, value))
                .expect(rt, "memory");
        }
    }
    rows
}

/// Whether these rows, which rise, are what is wanted of them under the schema.
fn is_answered(
    rt: &impl Abort,
    alloc: Global,
    rows: &Rows,
    wanted: Result<(), CheckFault>,
    what: &str,
) -> bool {
    assert!(rt; are_rising(rows.items()), "rising: {what}");
    let schema = read_schema(alloc, SCHEMA.as_bytes()).expect(rt, "a schema");
    check(alloc, &schema, rows) == wanted
}

fn are_answered(
    rt: &impl Abort,
    alloc: Global,
    lines: &str,
    wanted: Result<(), CheckFault>,
) -> bool {
    let rows = rows_of(rt, alloc, lines);
    is_answered(rt, alloc, &rows, wanted, lines)
}

#[test]
fn each_rule_is_kept(rt: HostRuntime) {
    for lines in TAKEN {
        assert!(rt; are_answered(&rt, rt.alloc(), lines, Ok(())), "{lines}");
    }
}

#[test]
fn each_rule_is_broken_alone(rt: HostRuntime) {
    let invalid = Err(CheckFault::TreeInvalid);
    for (what, lines) in REFUSED {
        assert!(rt; are_answered(&rt, rt.alloc(), lines, invalid), "{what}");
    }
}

fn zeros(rt: &impl Abort, alloc: Global, count: usize) -> Bytes {
    let mut octets = Bytes::empty(alloc);
    for _ in 0..count {
        octets.push(0).expect(rt, "memory");
    }
    octets
}

fn host_name(rt: &impl Abort, alloc: Global, is_valid: bool) -> Value {
    if is_valid {
        Value::Text(text_of(rt, alloc, ""))
    } else {
        Value::Bool(true)
    }
}

/// A host's blob of so many octets, and its name, which is empty or none: 218 and two for each octet is their weight where
/// the name is empty.
fn heavy(rt: &impl Abort, alloc: Global, octets: usize, is_valid: bool) -> Rows {
    let mut rows = Rows::empty(alloc);
    let blob = Value::Bin(zeros(rt, alloc, octets));
    rows.push(row_of(rt, alloc, "/host/blob", blob))
        .expect(rt, "memory");
    let name = host_name(rt, alloc, is_valid);
    rows.push(row_of(rt, alloc, "/host/name", name))
        .expect(rt, "memory");
    rows
}

/// How many octets the blob has, whether the name is one, and what the tree is.
const WEIGHTS: &[(usize, bool, Result<(), CheckFault>)] = &[
    (949_891, true, Ok(())),
    (949_892, true, Err(CheckFault::TreeFull)),
    (949_892, false, Err(CheckFault::TreeInvalid)),
];

#[test]
fn a_tree_is_full_where_it_is_valid_and_too_heavy(rt: HostRuntime) {
    let alloc = rt.alloc();
    for (octets, is_valid, wanted) in WEIGHTS {
        let rows = heavy(&rt, alloc, *octets, *is_valid);
        let is = is_answered(&rt, alloc, &rows, *wanted, "heavy");
        assert!(rt; is, "{octets}");
    }
}

fn word_of(rt: &impl Abort, alloc: Global, number: u32) -> Value {
    let text = format!(in alloc; "w{number}").expect(rt, "memory");
    Value::Text(text_of(rt, alloc, text.as_str()))
}

/// So many words, of which the last is the first one where `is_twice` says so.
fn words(rt: &impl Abort, alloc: Global, count: u32, is_twice: bool) -> Values {
    let mut values = Values::empty(alloc);
    for number in 0..count {
        let word = if is_twice && number == 99 { 0 } else { number };
        values.push(word_of(rt, alloc, word)).expect(rt, "memory");
    }
    values
}

/// The one row of so many words.
fn row_of_words(rt: &impl Abort, alloc: Global, count: u32, is_twice: bool) -> Rows {
    let mut rows = Rows::empty(alloc);
    let value = Value::List(words(rt, alloc, count, is_twice));
    rows.push(row_of(rt, alloc, "/words", value))
        .expect(rt, "memory");
    rows
}

/// How many words there are, whether one comes twice, and what the tree is.
const WORDS: &[(u32, bool, Result<(), CheckFault>)] = &[
    (16, false, Ok(())),
    (17, false, Ok(())),
    (100, false, Ok(())),
    (100, true, Err(CheckFault::TreeInvalid)),
    (400, false, Ok(())),
    (400, true, Err(CheckFault::TreeInvalid)),
];

#[test]
fn of_many_values_no_two_are_equal(rt: HostRuntime) {
    let alloc = rt.alloc();
    for (count, is_twice, wanted) in WORDS {
        let rows = row_of_words(&rt, alloc, *count, *is_twice);
        let is = is_answered(&rt, alloc, &rows, *wanted, "words");
        assert!(rt; is, "{count}");
    }
}

/// Rows, and whether each is above the one before it.
const ORDERS: &[(&str, bool)] = &[
    ("", true),
    ("/a 1", true),
    ("/a 1;/b 1", true),
    ("/a 1;/a/b 1;/aa 1", true),
    ("/a 1;/a 2", false),
    ("/b 1;/a 1", false),
    ("/a 1;/c 1;/b 1", false),
];

#[test]
fn rows_rise_one_above_the_other(rt: HostRuntime) {
    let alloc = rt.alloc();
    for (lines, is_rising) in ORDERS {
        let found = are_rising(rows_of(&rt, alloc, lines).items());
        assert!(rt; found == *is_rising, "{lines}");
    }
}
