use crate::short_paths::text_of;
use base_kinds::{
    Act, Bytes, Copied, Elem, Entry, Keys, Kind, NoMemory, Op, Ops, Path, Paths, Refusal, Row,
    Rows, Same, Text, Value, Values, default_limits, first_set_is_entry_one, validity_is_six_rules,
};
use std::alloc::Global;
use std::cmp::Ordering;
use std::process::Abort;

fn elem_of(rt: &impl Abort, alloc: Global, name: &str, keys: &[(&str, &str)]) -> Elem {
    let mut pairs = Keys::empty(alloc);
    for (key, value) in keys {
        let pair = (text_of(rt, alloc, key), text_of(rt, alloc, value));
        pairs.push(pair).expect(rt, "memory");
    }
    Elem {
        name: text_of(rt, alloc, name),
        keys: pairs,
    }
}

/// The name of an element, and its keys with their values.
type Named = (&'static str, &'static [(&'static str, &'static str)]);

fn path_of(rt: &impl Abort, alloc: Global, elements: &[Named]) -> Path {
    let mut path = Path::empty(alloc);
    for (name, keys) in elements {
        path.push(elem_of(rt, alloc, name, keys))
            .expect(rt, "memory");
    }
    path
}

/// The value of this number. All of them are different.
fn value_of(rt: &impl Abort, alloc: Global, number: usize) -> Value {
    match number {
        0 => Value::Bool(false),
        1 => Value::Bool(true),
        2 => Value::Int(-1),
        3 => Value::Int(1),
        4 => Value::Uint(1),
        5 => Value::Dec(1, 1),
        6 => Value::Dec(1, 2),
        7 => Value::Dec(10, 2),
        8 => Value::Text(text_of(rt, alloc, "")),
        9 => Value::Text(text_of(rt, alloc, "a")),
        10 => Value::Enum(text_of(rt, alloc, "a")),
        11 => Value::Bin(Bytes::of(alloc, b"a").expect(rt, "memory")),
        12 => Value::Bin(Bytes::empty(alloc)),
        _ => Value::List(Values::empty(alloc)),
    }
}

/// One value of each number.
fn scalars(rt: &impl Abort, alloc: Global) -> Values {
    let mut values = Values::empty(alloc);
    for number in 0..14 {
        values
            .push(value_of(rt, alloc, number))
            .expect(rt, "memory");
    }
    values
}

fn longer_scalars(rt: &impl Abort, alloc: Global) -> Values {
    let mut values = scalars(rt, alloc);
    values.push(Value::Bool(true)).expect(rt, "memory");
    values
}

/// Those, and two lists.
fn values_of_each_kind(rt: &impl Abort, alloc: Global) -> Values {
    let mut values = scalars(rt, alloc);
    values
        .push(Value::List(scalars(rt, alloc)))
        .expect(rt, "memory");
    values
        .push(Value::List(longer_scalars(rt, alloc)))
        .expect(rt, "memory");
    values
}

fn is_same<T: Same>(a: &T, b: &T, wanted: bool) -> bool {
    a.same(b) == wanted
}

fn assert_distinct<T: Same>(rt: &impl Abort, items: &[T]) {
    for (i, a) in items.iter().enumerate() {
        for (j, b) in items.iter().enumerate() {
            assert!(rt; is_same(a, b, i == j), "same at {i} and {j}");
        }
    }
}

/// Whether two items are in the order of their places, by each of the ways to compare them.
fn are_in_order<T: Ord>(a: &T, b: &T, order: Ordering) -> bool {
    a.cmp(b) == order && a.partial_cmp(b) == Some(order) && (a == b) == (order == Ordering::Equal)
}

fn assert_rising<T: Ord>(rt: &impl Abort, items: &[T]) {
    for (i, a) in items.iter().enumerate() {
        for (j, b) in items.iter().enumerate() {
            assert!(rt; are_in_order(a, b, i.cmp(&j)), "order at {i} and {j}");
        }
    }
}

const INTERFACE: &[Named] = &[
    ("interfaces", &[]),
    ("interface", &[("name", "eth0"), ("unit", "1")]),
];

/// The row of an entry of a list, with a copy of this value.
fn interface_row(rt: &impl Abort, alloc: Global, value: &Value) -> Row {
    Row {
        path: path_of(rt, alloc, INTERFACE),
        value: value.copy(alloc).expect(rt, "memory"),
    }
}

/// Whether a row is equal to another one, by each of the ways to compare them.
fn is_equal(row: &Row, other: &Row) -> bool {
    row == other && row.same(other)
}

/// Whether a row is another one, by each of the ways to compare them.
fn is_other(row: &Row, other: &Row) -> bool {
    row != other && !row.same(other)
}

/// Whether the copy of a row is equal to it.
fn copy_is_equal(rt: &impl Abort, alloc: Global, row: &Row) -> bool {
    let copy = row.copy(alloc).expect(rt, "memory");
    is_equal(&copy, row)
}

/// A copy of a row that gets an element more.
fn longer_copy(rt: &impl Abort, alloc: Global, row: &Row) -> Row {
    let mut copy = row.copy(alloc).expect(rt, "memory");
    copy.path
        .push(elem_of(rt, alloc, "mtu", &[]))
        .expect(rt, "memory");
    copy
}

fn is_longer(longer: &Row, row: &Row) -> bool {
    row.path.len() == 2 && longer.path.len() == 3 && is_other(longer, row)
}

/// Whether a copy of a row that gets an element more is another row, and leaves the row as it was.
fn longer_copy_differs(rt: &impl Abort, alloc: Global, row: &Row) -> bool {
    let longer = longer_copy(rt, alloc, row);
    is_longer(&longer, row)
}

/// A row of the same path with another value.
fn row_of_seven(rt: &impl Abort, alloc: Global, row: &Row) -> Row {
    Row {
        path: row.path.copy(alloc).expect(rt, "memory"),
        value: Value::Int(7),
    }
}

/// Whether a row of the same path with another value is another row.
fn other_value_differs(rt: &impl Abort, alloc: Global, row: &Row) -> bool {
    let other = row_of_seven(rt, alloc, row);
    is_other(&other, row)
}

/// Whether the copies of a row are rows of their own.
fn has_copies(rt: &impl Abort, alloc: Global, row: &Row) -> bool {
    copy_is_equal(rt, alloc, row)
        && longer_copy_differs(rt, alloc, row)
        && other_value_differs(rt, alloc, row)
}

/// Whether the copies of a row with this value are rows of their own.
fn is_copied(rt: &impl Abort, alloc: Global, value: &Value) -> bool {
    let row = interface_row(rt, alloc, value);
    has_copies(rt, alloc, &row)
}

fn assert_copied(rt: &impl Abort, alloc: Global, values: &[Value]) {
    for place in 0..values.len() {
        assert!(rt; is_copied(rt, alloc, &values[place]), "value {place}");
    }
}

#[test]
fn a_copy_of_a_row_is_a_row_of_its_own(rt: HostRuntime) {
    let alloc = rt.alloc();
    let values = values_of_each_kind(&rt, alloc);
    assert_distinct(&rt, values.items());
    assert_copied(&rt, alloc, values.items());
}

/// One row, at this path.
fn one_row(rt: &impl Abort, alloc: Global, elements: &[Named]) -> Rows {
    let mut rows = Rows::empty(alloc);
    rows.push(Row {
        path: path_of(rt, alloc, elements),
        value: Value::Text(text_of(rt, alloc, "r1")),
    })
    .expect(rt, "memory");
    rows
}

/// An operation on this path, with a row there.
fn op_of(rt: &impl Abort, alloc: Global, act: Act, elements: &[Named]) -> Op {
    Op {
        act,
        path: path_of(rt, alloc, elements),
        rows: one_row(rt, alloc, elements),
    }
}

/// Whether the copy of an operation is equal to it, and another one without its rows.
fn op_is_copied(rt: &impl Abort, alloc: Global, op: &Op) -> bool {
    let mut copy = op.copy(alloc).expect(rt, "memory");
    let is_equal = copy == *op && copy.rows.len() == 1;
    copy.rows = Rows::empty(alloc);
    is_equal && copy != *op
}

const ACTS: &[Act] = &[Act::Delete, Act::Replace, Act::Update];

const CONFIG: &[Named] = &[("system", &[]), ("config", &[])];

#[test]
fn a_copy_of_an_operation_has_its_rows(rt: HostRuntime) {
    let alloc = rt.alloc();
    for act in ACTS {
        let is_copied = op_is_copied(&rt, alloc, &op_of(&rt, alloc, *act, CONFIG));
        assert!(rt; is_copied, "{act:?}");
    }
}

const RISING_ELEMENTS: &[Named] = &[
    ("", &[]),
    ("B", &[]),
    ("a", &[]),
    ("a", &[("j", "9")]),
    ("a", &[("k", "")]),
    ("a", &[("k", "1")]),
    ("a", &[("k", "1"), ("l", "0")]),
    ("a", &[("k", "10")]),
    ("a", &[("k", "2")]),
    ("ab", &[]),
    ("b", &[]),
    ("\u{e9}", &[]),
];

#[test]
fn elements_rise_by_name_and_then_by_keys(rt: HostRuntime) {
    let rising = path_of(&rt, rt.alloc(), RISING_ELEMENTS);
    assert_rising(&rt, rising.items());
    assert_distinct(&rt, rising.items());
}

const RISING_PATHS: &[&[Named]] = &[
    &[],
    &[("a", &[])],
    &[("a", &[]), ("b", &[])],
    &[("a", &[]), ("b", &[]), ("c", &[])],
    &[("a", &[]), ("b", &[("k", "1")])],
    &[("a", &[]), ("ba", &[])],
    &[("ab", &[])],
    &[("b", &[])],
];

fn paths_of(rt: &impl Abort, alloc: Global, table: &[&[Named]]) -> Paths {
    let mut paths = Paths::empty(alloc);
    for elements in table {
        paths
            .push(path_of(rt, alloc, elements))
            .expect(rt, "memory");
    }
    paths
}

#[test]
fn paths_rise_element_by_element_and_a_front_comes_first(rt: HostRuntime) {
    let rising = paths_of(&rt, rt.alloc(), RISING_PATHS);
    assert_rising(&rt, rising.items());
    assert_distinct(&rt, rising.items());
}

/// Each refusal with its number, its gRPC code and its text.
const REFUSALS: &[(Refusal, u8, u8, &str)] = &[
    (Refusal::BadMessage, 1, 13, "bad message"),
    (Refusal::TooLarge, 2, 8, "too large"),
    (Refusal::Compressed, 3, 12, "compressed message"),
    (Refusal::NoMethod, 4, 12, "no such method"),
    (Refusal::BadPath, 5, 3, "bad path"),
    (Refusal::NotInSchema, 6, 3, "not in schema"),
    (Refusal::BadValue, 7, 3, "bad value"),
    (Refusal::NotFound, 8, 5, "not found"),
    (Refusal::Unsupported, 9, 12, "unsupported"),
    (Refusal::TrialOpen, 10, 9, "trial open"),
    (Refusal::NoTrial, 11, 9, "no trial"),
    (Refusal::WrongId, 12, 3, "wrong id"),
    (Refusal::BadDuration, 13, 3, "bad duration"),
    (Refusal::MixedAction, 14, 3, "mixed action"),
    (Refusal::BadId, 15, 3, "bad id"),
    (Refusal::TreeInvalid, 16, 3, "tree invalid"),
    (Refusal::TreeFull, 17, 8, "tree full"),
    (Refusal::LogFull, 18, 8, "log full"),
    (Refusal::DiskFault, 19, 14, "disk fault"),
    (Refusal::BadSubscribe, 21, 3, "bad subscribe"),
    (Refusal::NoMemory, 22, 10, "no memory"),
];

/// Whether a refusal has this number, code and text, and is want of memory where its number says so.
fn is_numbered(refusal: Refusal, number: u8, code: u8, text: &str) -> bool {
    (refusal.number(), refusal.code()) == (number, code)
        && refusal.text() == text.as_bytes()
        && refusal.is_memory() == (number == 22)
}

#[test]
fn each_refusal_has_its_number_its_code_and_its_text(rt: HostRuntime) {
    for (refusal, number, code, text) in REFUSALS {
        assert!(rt; is_numbered(*refusal, *number, *code, text), "{refusal:?}");
    }
    assert!(rt; Refusal::from(NoMemory) == Refusal::NoMemory);
    first_set_is_entry_one();
    validity_is_six_rules();
}

const HOSTNAME: &[Named] = &[("system", &[]), ("config", &[]), ("hostname", &[])];

fn first_set(rt: &impl Abort, alloc: Global) -> Entry {
    let mut ops = Ops::empty(alloc);
    ops.push(op_of(rt, alloc, Act::Update, HOSTNAME))
        .expect(rt, "memory");
    Entry {
        number: 1,
        author: 1,
        stamp: 1000,
        kind: Kind::Apply(ops),
    }
}

#[test]
fn record_of_the_first_set_has_109_octets(rt: HostRuntime) {
    let octets = first_set(&rt, rt.alloc()).record_octets();
    assert!(rt; octets == 109);
}

#[test]
fn default_limits_are_in_range(rt: HostRuntime) {
    let limits = default_limits();
    assert!(rt; limits.entries == 65_536 && limits.octets == 268_435_456);
    assert!(rt; limits.in_range());
}
