use crate::builders::text_of;
use base_kinds::{Bytes, Value, Values};
use std::alloc::Global;
use std::cmp::Ordering;
use std::process::Abort;
use value_core::{all_differ, same_scalar, scalar_of};

fn octets_of(rt: &impl Abort, alloc: Global, word: &str) -> Bytes {
    let mut octets = Bytes::empty(alloc);
    octets
        .extend_from_slice(word.as_bytes())
        .expect(rt, "memory");
    octets
}

/// The value of this number. They rise as scalars, so that no two of them are equal.
fn value_of(rt: &impl Abort, alloc: Global, number: usize) -> Value {
    match number {
        0 => Value::Bool(false),
        1 => Value::Bool(true),
        2 => Value::Int(-1),
        3 => Value::Int(1),
        4 => Value::Uint(1),
        5 => Value::Uint(2),
        6 => Value::Dec(-10, 1),
        7 => Value::Dec(10, 1),
        8 => Value::Dec(10, 2),
        9 => Value::Dec(100, 2),
        10 => Value::Text(text_of(rt, alloc, "")),
        11 => Value::Text(text_of(rt, alloc, "a")),
        12 => Value::Text(text_of(rt, alloc, "ab")),
        13 => Value::Bin(octets_of(rt, alloc, "a")),
        14 => Value::Enum(text_of(rt, alloc, "a")),
        _ => Value::Enum(text_of(rt, alloc, "b")),
    }
}

fn rising(rt: &impl Abort, alloc: Global) -> Values {
    let mut values = Values::empty(alloc);
    for number in 0..16 {
        values
            .push(value_of(rt, alloc, number))
            .expect(rt, "memory");
    }
    values
}

/// Whether two values are scalars in this order, and the same where it says so.
fn are_in_order(one: &Value, other: &Value, order: Ordering) -> bool {
    match (scalar_of(one), scalar_of(other)) {
        (Some(first), Some(second)) => {
            first.cmp(&second) == order && same_scalar(one, other) == (order == Ordering::Equal)
        }
        _ => false,
    }
}

/// Whether all of the values differ where they should, and else not all of them.
fn differ_or_not(alloc: Global, values: Values, differ: bool) -> bool {
    all_differ(alloc, values.items()) == Ok(differ)
}

fn assert_rising(rt: &impl Abort, values: &[Value]) {
    for (i, one) in values.iter().enumerate() {
        for (j, other) in values.iter().enumerate() {
            assert!(rt; are_in_order(one, other, i.cmp(&j)), "{i} {j}");
        }
    }
}

#[test]
fn scalars_are_in_order(rt: HostRuntime) {
    let alloc = rt.alloc();
    assert_rising(&rt, rising(&rt, alloc).items());
    assert!(rt; differ_or_not(alloc, rising(&rt, alloc), true));
}

/// So many texts, of which that at the second place is the one at the first.
fn texts(rt: &impl Abort, alloc: Global, count: usize, first: usize, second: usize) -> Values {
    let mut values = Values::empty(alloc);
    for number in 0..count {
        let word = if number == second { first } else { number };
        let text = format!(in alloc; "w{word}").expect(rt, "memory");
        let value = Value::Text(text_of(rt, alloc, text.as_str()));
        values.push(value).expect(rt, "memory");
    }
    values
}

/// How many values there are, the places of the two that are equal, where there are such, and whether all differ.
const DIFFERING: &[(usize, usize, usize, bool)] = &[
    (0, 0, 0, true),
    (1, 0, 0, true),
    (2, 0, 1, false),
    (16, 0, 0, true),
    (16, 0, 15, false),
    (17, 0, 0, true),
    (17, 0, 16, false),
    (17, 15, 16, false),
    (500, 0, 0, true),
    (500, 0, 499, false),
    (500, 0, 1, false),
    (500, 498, 499, false),
    (500, 100, 400, false),
];

#[test]
fn few_and_many_values_differ_or_not(rt: HostRuntime) {
    let alloc = rt.alloc();
    for (count, first, second, differ) in DIFFERING {
        let texts = texts(&rt, alloc, *count, *first, *second);
        assert!(rt;
            differ_or_not(alloc, texts, *differ),
            "{count} {first} {second}"
        );
    }
}

/// Two lists, and texts before them.
fn lists_behind_texts(rt: &impl Abort, alloc: Global) -> Values {
    let mut values = texts(rt, alloc, 20, 0, 0);
    for _ in 0..2 {
        values
            .push(Value::List(Values::empty(alloc)))
            .expect(rt, "memory");
    }
    values
}

/// Whether a list is no scalar, and not the same as itself.
fn is_list_no_scalar(alloc: Global) -> bool {
    let list = Value::List(Values::empty(alloc));
    scalar_of(&list).is_none() && !same_scalar(&list, &list)
}

#[test]
fn a_list_is_equal_to_nothing(rt: HostRuntime) {
    let alloc = rt.alloc();
    assert!(rt; is_list_no_scalar(alloc));
    assert!(rt; differ_or_not(alloc, lists_behind_texts(&rt, alloc), true));
}
