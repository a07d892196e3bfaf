//! Operations of a request: their rows and key leaves, their refusals, and scalars at leaves.
use crate::asked::{Sent, assert_answer, request, resolved};
use base_kinds::Action;
use std::alloc::Global;
use std::process::Abort;

/// Requests, each with a prefix and operations, and what becomes of them.
const OPERATIONS: &[(&str, &[(&str, &str, Sent)], &str)] = &[
    ("/", &[], "apply"),
    (
        "/",
        &[("update", "/system/hostname", Sent::Text("r1"))],
        "apply; update /system/hostname: /system/hostname=\"r1\"",
    ),
    (
        "/system",
        &[("replace", "/hostname", Sent::Text(""))],
        "apply; replace /system/hostname: /system/hostname=\"\"",
    ),
    (
        "/system/hostname",
        &[("update", "/", Sent::Text("r1"))],
        "apply; update /system/hostname: /system/hostname=\"r1\"",
    ),
    (
        "/interfaces/interface[name=eth0]",
        &[("update", "/mtu", Sent::Uint(1500))],
        "apply; update /interfaces/interface[name=eth0]/mtu: /interfaces/interface[name=eth0]/mtu=1500 /interfaces/interface[name=eth0]/name=\"eth0\"",
    ),
    (
        "/interfaces/interface[name=eth0]",
        &[("replace", "/name", Sent::Text("eth0"))],
        "apply; replace /interfaces/interface[name=eth0]/name: /interfaces/interface[name=eth0]/name=\"eth0\"",
    ),
    // keys in the order of their names, whatever that of the list is
    (
        "/lab/route[id=-0.5][port=7]",
        &[("update", "/key", Sent::Bin(b"k"))],
        "apply; update /lab/route[id=-0.5][port=7]/key: /lab/route[id=-0.5][port=7]/id=-0.5 /lab/route[id=-0.5][port=7]/key=b:aw== /lab/route[id=-0.5][port=7]/port=7",
    ),
    (
        "/lab/route[id=-0.5][port=7]",
        &[("update", "/id", Sent::Dec(-500, 3))],
        "apply; update /lab/route[id=-0.5][port=7]/id: /lab/route[id=-0.5][port=7]/id=-0.5 /lab/route[id=-0.5][port=7]/port=7",
    ),
    // a leaf-list without values has no row, but its entry has its key leaves
    (
        "/lab",
        &[("replace", "/tag", Sent::Texts(&[]))],
        "apply; replace /lab/tag:",
    ),
    (
        "/",
        &[
            ("update", "/lab/on", Sent::Bool(true)),
            ("update", "/lab/on", Sent::Bool(false)),
            ("replace", "/system/hostname", Sent::Text("b")),
            ("delete", "/b", Sent::Nothing),
            ("replace", "/system/hostname", Sent::Text("a")),
            ("delete", "/a", Sent::Nothing),
        ],
        "apply; delete /b:; delete /a:; replace /system/hostname: /system/hostname=\"b\"; replace /system/hostname: /system/hostname=\"a\"; update /lab/on: /lab/on=true; update /lab/on: /lab/on=false",
    ),
    (
        "/interfaces",
        &[("delete", "/interface[name=*]/.../*", Sent::Nothing)],
        "apply; delete /interfaces/interface[name=*]/.../*:",
    ),
    (
        "/none[x=1]",
        &[("delete", "/", Sent::Nothing)],
        "apply; delete /none[x=1]:",
    ),
];

/// Paths and values, and the refusal of an update.
const REFUSED: &[(&str, Sent, &str)] = &[
    ("/*", Sent::Bool(true), "refused 5"),
    ("/...", Sent::Bool(true), "refused 5"),
    ("/none/*", Sent::Nothing, "refused 5"),
    (
        "/interfaces/interface[name=*]/mtu",
        Sent::Uint(1),
        "refused 5",
    ),
    ("/none", Sent::Nothing, "refused 6"),
    ("/system/none", Sent::Nothing, "refused 6"),
    ("/system/hostname/none", Sent::Nothing, "refused 6"),
    ("/hostname", Sent::Nothing, "refused 6"),
    ("/none[a=b]/none", Sent::Nothing, "refused 6"),
    ("/interfaces/interface", Sent::Nothing, "refused 5"),
    ("/interfaces/interface/none", Sent::Nothing, "refused 5"),
    (
        "/interfaces/interface[mtu=1]/mtu",
        Sent::Uint(1),
        "refused 5",
    ),
    (
        "/interfaces/interface[mtu=1][name=a]/mtu",
        Sent::Uint(1),
        "refused 5",
    ),
    ("/system[name=a]/hostname", Sent::Text("r1"), "refused 5"),
    ("/system/hostname[name=a]", Sent::Text("r1"), "refused 5"),
    ("/lab/route[id=1.0]/key", Sent::Bin(b""), "refused 5"),
    (
        "/lab/route[id=1.50][port=7]/key",
        Sent::Bin(b""),
        "refused 5",
    ),
    ("/lab/route[id=1][port=7]/key", Sent::Bin(b""), "refused 5"),
    (
        "/lab/route[id=1.0][port=07]/key",
        Sent::Bin(b""),
        "refused 5",
    ),
    (
        "/lab/route[id=1.0][port=65536]/key",
        Sent::Bin(b""),
        "refused 5",
    ),
    (
        "/lab/route[id=1.0][port=7]/none",
        Sent::Nothing,
        "refused 6",
    ),
    ("/system/hostname", Sent::Nothing, "refused 7"),
    ("/system", Sent::Nothing, "refused 7"),
    ("/", Sent::Nothing, "refused 7"),
    ("/", Sent::Text("r1"), "refused 7"),
    ("/system", Sent::Text("r1"), "refused 7"),
    (
        "/interfaces/interface[name=eth0]",
        Sent::Text("eth0"),
        "refused 7",
    ),
    (
        "/interfaces/interface[name=eth0]/name",
        Sent::Text("eth1"),
        "refused 7",
    ),
    (
        "/lab/route[id=1.0][port=7]/id",
        Sent::Dec(11, 1),
        "refused 7",
    ),
    ("/lab/route[id=1.0][port=7]/port", Sent::Int(8), "refused 7"),
    ("/system/hostname", Sent::Texts(&["r1"]), "refused 7"),
    ("/lab/tag", Sent::Text("r1"), "refused 7"),
    ("/lab/tag", Sent::Nested, "refused 7"),
];

/// Leaves, scalars, and the texts of their values, which are empty where they are refused.
const SCALARS: &[(&str, Sent, &str)] = &[
    ("/lab/on", Sent::Bool(false), "false"),
    ("/lab/on", Sent::Text("true"), ""),
    ("/lab/on", Sent::Uint(1), ""),
    ("/lab/low", Sent::Int(-128), "-128"),
    ("/lab/low", Sent::Int(-129), ""),
    ("/lab/low", Sent::Uint(127), "127"),
    ("/lab/low", Sent::Uint(128), ""),
    ("/lab/low", Sent::Dec(1, 0), ""),
    (
        "/lab/big",
        Sent::Uint(9_223_372_036_854_775_807),
        "9223372036854775807",
    ),
    ("/lab/big", Sent::Uint(9_223_372_036_854_775_808), ""),
    ("/lab/big", Sent::Int(i64::MIN), "-9223372036854775808"),
    ("/lab/count", Sent::Uint(u64::MAX), "18446744073709551615"),
    ("/lab/count", Sent::Int(i64::MAX), "9223372036854775807"),
    ("/lab/count", Sent::Int(-1), ""),
    ("/lab/count", Sent::Text("1"), ""),
    ("/lab/rate", Sent::Dec(150, 2), "1.5"),
    ("/lab/rate", Sent::Dec(15, 1), "1.5"),
    ("/lab/rate", Sent::Dec(2, 0), "2.0"),
    ("/lab/rate", Sent::Dec(-15_000, 4), "-1.5"),
    ("/lab/rate", Sent::Dec(1_555, 3), ""),
    ("/lab/rate", Sent::Dec(0, 255), "0.0"),
    ("/lab/rate", Sent::Dec(1, 255), ""),
    ("/lab/rate", Sent::Dec(i64::MIN, 2), "-92233720368547758.08"),
    ("/lab/rate", Sent::Dec(i64::MIN, 1), ""),
    (
        "/lab/rate",
        Sent::Dec(922_337_203_685_477_580, 1),
        "92233720368547758.0",
    ),
    ("/lab/rate", Sent::Dec(922_337_203_685_477_581, 1), ""),
    ("/lab/rate", Sent::Int(1), ""),
    ("/lab/blob", Sent::Bin(b"\x00\xff"), "b:AP8="),
    ("/lab/blob", Sent::Text("AP8="), ""),
    ("/system/hostname", Sent::Text("a b"), "\"a b\""),
    ("/system/hostname", Sent::Enum("a"), ""),
    ("/system/hostname", Sent::Bin(b"a"), ""),
    ("/system/state", Sent::Text("UP"), "\"UP\""),
    ("/system/state", Sent::Enum("DOWN"), "\"DOWN\""),
    ("/system/state", Sent::Text("up"), ""),
    ("/system/state", Sent::Enum("OFF"), ""),
    ("/lab/tag", Sent::Texts(&["b", "a"]), "[\"b\",\"a\"]"),
    ("/lab/tag", Sent::Texts(&["a", "b", "a"]), ""),
    ("/lab/port", Sent::Uints(&[7, 65_535]), "[7,65535]"),
    ("/lab/port", Sent::Uints(&[65_536]), ""),
    ("/lab/up", Sent::Texts(&["DOWN", "UP"]), "[\"DOWN\",\"UP\"]"),
    ("/lab/up", Sent::Texts(&["UP", "OFF"]), ""),
];

/// Prefixes, paths and JSON texts, and what becomes of an update.
const JSON: &[(&str, &str, &str, &str)] = &[
    (
        "/system",
        "/",
        "{\"hostname\":\"r1\"}",
        "apply; update /system: /system/hostname=\"r1\"",
    ),
    (
        "/",
        "/",
        "{\"m:system\":{\"state\":\"UP\",\"hostname\":\"\"}}",
        "apply; update /: /system/hostname=\"\" /system/state=\"UP\"",
    ),
    // an entry has its key leaves, also where its value says nothing
    (
        "/interfaces",
        "/interface[name=eth0]",
        "{}",
        "apply; update /interfaces/interface[name=eth0]: /interfaces/interface[name=eth0]/name=\"eth0\"",
    ),
    (
        "/interfaces",
        "/interface[name=eth0]",
        "{\"name\":\"eth0\",\"mtu\":9}",
        "apply; update /interfaces/interface[name=eth0]: /interfaces/interface[name=eth0]/mtu=9 /interfaces/interface[name=eth0]/name=\"eth0\"",
    ),
    (
        "/interfaces/interface[name=eth0]",
        "/name",
        "\"eth0\"",
        "apply; update /interfaces/interface[name=eth0]/name: /interfaces/interface[name=eth0]/name=\"eth0\"",
    ),
    (
        "/",
        "/interfaces",
        "{\"interface\":[{\"name\":\"b\"},{\"mtu\":9,\"name\":\"a\"}]}",
        "apply; update /interfaces: /interfaces/interface[name=a]/mtu=9 /interfaces/interface[name=a]/name=\"a\" /interfaces/interface[name=b]/name=\"b\"",
    ),
    ("/lab", "/tag", "[]", "apply; update /lab/tag:"),
    ("/lab", "/tag", "[\"a\",\"a\"]", "refused 7"),
    (
        "/interfaces/interface[name=eth0]",
        "/",
        "{\"name\":\"eth1\"}",
        "refused 7",
    ),
    (
        "/interfaces/interface[name=eth0]",
        "/name",
        "\"eth1\"",
        "refused 7",
    ),
    ("/system", "/", "{\"none\":1}", "refused 6"),
    ("/system", "/", "{", "refused 7"),
];

/// A request of these operations behind the prefix becomes this.
fn assert_request(
    rt: &impl Abort,
    alloc: Global,
    prefix: &str,
    lines: &[(&str, &str, Sent)],
    expected: &str,
) {
    assert_answer(
        rt,
        alloc,
        request(rt, alloc, prefix, lines, Action::Plain),
        expected,
    );
}

/// An update of this path becomes this.
fn assert_update(rt: &impl Abort, alloc: Global, path: &str, sent: Sent, expected: &str) {
    assert_request(rt, alloc, "/", &[("update", path, sent)], expected);
}

#[test]
fn operations_have_their_rows_and_key_leaves(rt: HostRuntime) {
    let alloc = rt.alloc();
    for (prefix, lines, expected) in OPERATIONS {
        assert_request(&rt, alloc, prefix, lines, expected);
    }
}

fn assert_json(
    rt: &impl Abort,
    alloc: Global,
    prefix: &str,
    path: &str,
    json: &'static str,
    expected: &str,
) {
    assert_request(
        rt,
        alloc,
        prefix,
        &[("update", path, Sent::Json(json))],
        expected,
    );
}

#[test]
fn json_gives_rows_and_its_entries_key_leaves(rt: HostRuntime) {
    let alloc = rt.alloc();
    for (prefix, path, json, expected) in JSON {
        assert_json(&rt, alloc, prefix, path, json, expected);
    }
}

#[test]
fn an_update_is_refused_by_its_first_cause(rt: HostRuntime) {
    let alloc = rt.alloc();
    for (path, sent, expected) in REFUSED {
        assert_update(&rt, alloc, path, *sent, expected);
    }
}

/// The leaf takes the scalar as the value of this text, or refuses it where the text is empty.
fn assert_scalar(rt: &impl Abort, alloc: Global, path: &str, sent: Sent, value: &str) {
    if value == "" {
        return assert_update(rt, alloc, path, sent, "refused 7");
    }
    let expected = format!(in alloc; "apply; update {path}: {path}={value}");
    let text = expected.expect(rt, "memory");
    assert_update(rt, alloc, path, sent, text.as_str());
}

#[test]
fn a_scalar_stands_for_a_value_of_its_leaf(rt: HostRuntime) {
    let alloc = rt.alloc();
    for (path, sent, value) in SCALARS {
        assert_scalar(&rt, alloc, path, *sent, value);
    }
}

/// How many scalars there are, the number of the last one, and whether they are taken.
const COUNTS: &[(u32, u32, bool)] = &[
    (16, 15, true),
    (16, 0, false),
    (17, 16, true),
    (17, 0, false),
    (300, 299, true),
    (300, 0, false),
];

/// Whether so many texts are taken as a leaf-list, of which the last is that with this number.
fn words_are_taken(rt: &impl Abort, alloc: Global, count: u32, last: u32) -> bool {
    let lines = [("update", "/lab/tag", Sent::Words(count, last))];
    let ask = request(rt, alloc, "/", &lines, Action::Plain);
    resolved(rt, alloc, ask).err().is_none()
}

#[test]
fn of_many_scalars_no_two_are_equal(rt: HostRuntime) {
    for (count, last, wanted) in COUNTS {
        let is_taken = words_are_taken(&rt, rt.alloc(), *count, *last);
        assert!(rt; is_taken == *wanted, "{count} {last}");
    }
}
