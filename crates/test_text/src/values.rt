use crate::builders::{assert_of, text_of};
use base_kinds::{Same, Seq, Shape, Text, Texts, Value};
use plain_texts::natural_of;
use std::alloc::Global;
use std::process::Abort;
use value_core::{
    ValueFault, check_value, decimals_read_back, functions_give_what_is_spelled, key_text,
    one_decimal, one_value_a_key, read_base64, read_decimal, read_integer, read_key, value_text,
};

/// Whether the value is one of the shape, and written as this key.
fn has_key(rt: &impl Abort, alloc: Global, shape: &Shape, value: &Value, key: &Text) -> bool {
    match value {
        Value::List(_) => false,
        _ => check_value(shape, value) && key_text(alloc, value).expect(rt, "a key").same(key),
    }
}

/// Whether the text is read as a value of the shape, which is written as it.
fn is_read_back(rt: &impl Abort, alloc: Global, shape: &Shape, text: &Text) -> bool {
    match read_key(alloc, shape, text) {
        Ok(value) => {
            let has_key = has_key(rt, alloc, shape, &value, text);
            drop(value);
            has_key
        }
        Err(ValueFault::BadValue) => false,
        Err(ValueFault::NoMemory) => panic!(rt; "memory"),
    }
}

/// Whether the text is the key of a value of the shape.
fn is_key(rt: &impl Abort, alloc: Global, shape: Shape, text: &str) -> bool {
    is_read_back(rt, alloc, &shape, &text_of(rt, alloc, text))
}

/// Whether the text of the value is this one.
fn has_text(rt: &impl Abort, alloc: Global, value: Value, text: &str) -> bool {
    let mut out = Seq::empty(alloc);
    value_text(alloc, &value, &mut out).expect(rt, "memory");
    drop(value);
    let is_so = out.items() == text.as_bytes();
    drop(out);
    is_so
}

/// RFC 7950 9.2: the extreme integers of each width, the numbers behind them, and other spellings
const SIGNED: &[(u8, &str, bool)] = &[
    (8, "-128", true),
    (8, "127", true),
    (8, "-129", false),
    (8, "128", false),
    (16, "-32768", true),
    (16, "32767", true),
    (16, "-32769", false),
    (16, "32768", false),
    (32, "-2147483648", true),
    (32, "2147483647", true),
    (32, "-2147483649", false),
    (32, "2147483648", false),
    (64, "-9223372036854775808", true),
    (64, "9223372036854775807", true),
    (64, "-9223372036854775809", false),
    (64, "9223372036854775808", false),
    (64, "-0", false),
    (64, "+1", false),
    (64, "01", false),
    (64, "-", false),
    (64, "", false),
];

#[test]
fn signed_integers_are_keys_in_their_range(rt: HostRuntime) {
    for (width, text, taken) in SIGNED {
        let is_key = is_key(&rt, rt.alloc(), Shape::Int(*width), text);
        assert_of(&rt, text, is_key == *taken);
    }
}

/// Widths, texts, and whether each is the key of an unsigned integer.
const UNSIGNED: &[(u8, &str, bool)] = &[
    (8, "0", true),
    (8, "255", true),
    (8, "256", false),
    (16, "65535", true),
    (16, "65536", false),
    (32, "4294967295", true),
    (32, "4294967296", false),
    (64, "18446744073709551615", true),
    (64, "18446744073709551616", false),
    (64, "-1", false),
    (64, "00", false),
];

#[test]
fn unsigned_integers_are_keys_in_their_range(rt: HostRuntime) {
    for (width, text, taken) in UNSIGNED {
        let is_key = is_key(&rt, rt.alloc(), Shape::Uint(*width), text);
        assert_of(&rt, text, is_key == *taken);
    }
}

/// RFC 7950 9.3.2: the one canonical form
const DECIMALS: &[(u8, &str, bool)] = &[
    (2, "1.5", true),
    (1, "-0.5", true),
    (2, "0.0", true),
    (3, "-0.007", true),
    (18, "-9.223372036854775808", true),
    (1, "922337203685477580.7", true),
    (1, "922337203685477580.8", false),
    (2, "1.50", false),
    (2, "1", false),
    (2, "01.5", false),
    (2, "-0.0", false),
    (2, "1.555", false),
    (2, "1.", false),
    (2, ".5", false),
];

#[test]
fn decimals_are_keys_as_they_are_written(rt: HostRuntime) {
    for (places, text, taken) in DECIMALS {
        let is_key = is_key(&rt, rt.alloc(), Shape::Dec(*places), text);
        assert_of(&rt, text, is_key == *taken);
    }
}

/// The shape of two names.
fn colours(rt: &impl Abort, alloc: Global) -> Shape {
    let mut colours = Texts::empty(alloc);
    colours.push(text_of(rt, alloc, "RED")).expect(rt, "memory");
    colours
        .push(text_of(rt, alloc, "GREEN"))
        .expect(rt, "memory");
    Shape::Enum(colours)
}

fn is_bool(rt: &impl Abort, alloc: Global, text: &str) -> bool {
    is_key(rt, alloc, Shape::Bool, text)
}

fn is_colour(rt: &impl Abort, alloc: Global, text: &str) -> bool {
    is_key(rt, alloc, colours(rt, alloc), text)
}

#[test]
fn words_are_keys(rt: HostRuntime) {
    let alloc = rt.alloc();
    assert!(rt; is_bool(&rt, alloc, "true") && is_bool(&rt, alloc, "false"));
    assert!(rt; !is_bool(&rt, alloc, "True"));
    assert!(rt; is_key(&rt, alloc, Shape::Text, "a\"é"));
    assert!(rt; is_colour(&rt, alloc, "GREEN") && !is_colour(&rt, alloc, "BLUE"));
}

/// RFC 4648 10, and its 3.5 and 3.2: bits behind the last octet, and no padding
const BASE64: &[(&str, &str, bool)] = &[
    ("", "", true),
    ("f", "Zg==", true),
    ("fo", "Zm8=", true),
    ("foo", "Zm9v", true),
    ("foob", "Zm9vYg==", true),
    ("fooba", "Zm9vYmE=", true),
    ("foobar", "Zm9vYmFy", true),
    ("", "Zm9=", false),
    ("", "Zm8", false),
];

fn reads_base64(alloc: Global, text: &str, octets: &str) -> bool {
    match read_base64(alloc, text.as_bytes()) {
        Ok(read) => read.items() == octets.as_bytes(),
        Err(_) => false,
    }
}

#[test]
fn base64_is_that_of_the_standard(rt: HostRuntime) {
    let alloc = rt.alloc();
    for (octets, text, taken) in BASE64 {
        let is_key = is_key(&rt, alloc, Shape::Bin, text);
        let is_read = !*taken || reads_base64(alloc, text, octets);
        assert_of(&rt, text, is_key == *taken && is_read);
    }
}

/// Places, texts, and the digits that are read (RFC 7950 9.3.1: more forms than the canonical one).
const DECIMALS_READ: &[(u8, &str, Option<i64>)] = &[
    (2, "1.50", Some(150)),
    (2, "1", Some(100)),
    (2, "-001", Some(-100)),
    (2, "-0", Some(0)),
    (1, "-0.5", Some(-5)),
    (18, "-9.223372036854775808", Some(i64::MIN)),
    (18, "9.223372036854775808", None),
    (18, "10", None),
    (2, "1.555", None),
    (2, "1.", None),
    (2, ".5", None),
    (2, "", None),
    (2, "+1", None),
    (2, "1.2.3", None),
    (2, "--1", None),
];

#[test]
fn numbers_are_read(rt: HostRuntime) {
    assert!(rt; natural_of(b"18446744073709551615") == Some(u64::MAX));
    assert!(rt; read_integer(b"-9223372036854775808") == Some(i64::MIN));
    for (places, octets, digits) in DECIMALS_READ {
        assert!(rt; read_decimal(*places, octets.as_bytes()) == *digits);
    }
}

fn numbers_have_their_texts(rt: &impl Abort, alloc: Global) -> bool {
    has_text(rt, alloc, Value::Int(-1), "-1")
        && has_text(rt, alloc, Value::Uint(1), "1")
        && has_text(rt, alloc, Value::Dec(150, 2), "1.5")
}

#[test]
fn values_have_their_texts(rt: HostRuntime) {
    let alloc = rt.alloc();
    assert!(rt; numbers_have_their_texts(&rt, alloc));
    // two to four octets of UTF-8, and what stands round the plain octets
    let wide = Value::Text(text_of(&rt, alloc, "é€😀"));
    let escaped = "\"\\c3\\a9\\e2\\82\\ac\\f0\\9f\\98\\80\"";
    assert!(rt; has_text(&rt, alloc, wide, escaped));
    let bounds = Value::Enum(text_of(&rt, alloc, "\x1f !\"\\~\x7f"));
    assert!(rt; has_text(&rt, alloc, bounds, "\"\\1f !\\22\\5c~\\7f\""));
    let octets = Value::Bin(Seq::of(alloc, b"foob").expect(&rt, "memory"));
    assert!(rt; has_text(&rt, alloc, octets, "b:Zm9vYg=="));
}

/// A list of two values.
fn pair(rt: &impl Abort, alloc: Global) -> Value {
    let mut values = Seq::empty(alloc);
    values.push(Value::Dec(-5, 1)).expect(rt, "memory");
    values.push(Value::Bool(true)).expect(rt, "memory");
    Value::List(values)
}

#[test]
fn lists_have_their_texts(rt: HostRuntime) {
    let alloc = rt.alloc();
    assert!(rt; has_text(&rt, alloc, Value::List(Seq::empty(alloc)), "[]"));
    assert!(rt; has_text(&rt, alloc, pair(&rt, alloc), "[-0.5,true]"));
}

#[test]
fn laws_hold_of_every_text() {
    one_value_a_key();
    one_decimal();
    decimals_read_back();
    functions_give_what_is_spelled();
}
