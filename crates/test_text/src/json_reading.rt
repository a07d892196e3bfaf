use crate::builders::{path_of, schema_of};
use base_kinds::{Bytes, Rows, Seq};
use json_rows::{RowsFault, rows_of};
use path_core::write_path_text;
use std::alloc::Global;
use std::process::Abort;
use value_core::value_text;

/// Four modules, a leaf of each shape, and lists with one key and with two.
const SCHEMA: &str = "\
module m\n\
container /c\n\
leaf /c/flag bool\n\
leaf /c/i8 int8\n\
leaf /c/i16 int16\n\
leaf /c/i32 int32\n\
leaf /c/i64 int64\n\
leaf /c/u8 uint8\n\
leaf /c/u16 uint16\n\
leaf /c/u32 uint32\n\
leaf /c/u64 uint64\n\
leaf /c/d1 dec1\n\
leaf /c/d2 dec2\n\
leaf /c/d18 dec18\n\
leaf /c/s string\n\
leaf /c/bin binary\n\
leaf /c/e enum(up|down)\n\
leaf-list /c/tags string\n\
leaf-list /c/nums uint64\n\
list /c/l k,j\n\
leaf /c/l/k string\n\
leaf /c/l/j int16\n\
leaf /c/l/v bool\n\
container /c/l/in\n\
leaf /c/l/in/x uint8\n\
list /c/l/sub id\n\
leaf /c/l/sub/id uint8\n\
leaf /c/l/sub/y bool\n\
leaf /top string\n\
module o\n\
leaf /c/other uint8\n\
leaf /c/l/w bool\n\
module ifs\n\
container /interfaces\n\
list /interfaces/interface name\n\
leaf /interfaces/interface/name string\n\
container /interfaces/interface/config\n\
leaf /interfaces/interface/config/mtu uint16\n\
leaf /interfaces/interface/config/description string\n\
leaf /interfaces/interface/config/enabled bool\n\
module ip\n\
leaf /interfaces/interface/config/ipv4 string\n\
";

/// `PATH VALUE` of each row, with a space between two.
fn lines_of(rt: &impl Abort, alloc: Global, rows: &Rows) -> Bytes {
    let mut out = Seq::empty(alloc);
    for row in rows.items() {
        if !out.is_empty() {
            out.push(b' ').expect(rt, "memory");
        }
        write_path_text(alloc, &row.path, &mut out).expect(rt, "memory");
        out.push(b' ').expect(rt, "memory");
        value_text(alloc, &row.value, &mut out).expect(rt, "memory");
    }
    out
}

/// What the fault is called.
fn name_of(fault: RowsFault) -> &'static str {
    match fault {
        RowsFault::NotInSchema => "not in schema",
        RowsFault::BadValue => "bad value",
        RowsFault::NoMemory => "no memory",
    }
}

/// The rows at the path that the JSON says.
fn read(rt: &impl Abort, alloc: Global, path: &str, json: &[u8]) -> Result<Rows, RowsFault> {
    let schema = schema_of(rt, alloc, SCHEMA);
    let path = path_of(rt, alloc, path);
    let rows = rows_of(alloc, &schema, &path, json);
    drop(path);
    drop(schema);
    rows
}

/// Whether these are the rows' lines.
fn has_lines(rt: &impl Abort, alloc: Global, rows: &Rows, lines: &str) -> bool {
    lines_of(rt, alloc, rows).items() == lines.as_bytes()
}

/// Whether the JSON at the path means these lines, or the fault that is called so.
fn means(rt: &impl Abort, alloc: Global, path: &str, json: &[u8], lines: &str) -> bool {
    match read(rt, alloc, path, json) {
        Ok(rows) => has_lines(rt, alloc, &rows, lines),
        Err(fault) => name_of(fault) == lines,
    }
}

fn check(rt: &impl Abort, alloc: Global, table: &[(&str, &str, &str)]) {
    for (path, json, lines) in table {
        assert!(rt;
            means(rt, alloc, path, json.as_bytes(), lines),
            "{path} {json}"
        );
    }
}

const INTEGERS: &[(&str, &str, &str)] = &[
    ("/c/i8", "-128", "/c/i8 -128"),
    ("/c/i8", "127", "/c/i8 127"),
    ("/c/i8", "-129", "bad value"),
    ("/c/i8", "128", "bad value"),
    ("/c/i8", "1.0", "bad value"),
    ("/c/i8", "1e0", "bad value"),
    ("/c/i8", "-0", "bad value"),
    ("/c/i8", "\"1\"", "bad value"),
    ("/c/i8", "null", "bad value"),
    ("/c/i8", "true", "bad value"),
    ("/c/i8", "[1]", "bad value"),
    ("/c/i16", "-32768", "/c/i16 -32768"),
    ("/c/i16", "32767", "/c/i16 32767"),
    ("/c/i16", "-32769", "bad value"),
    ("/c/i16", "32768", "bad value"),
    ("/c/i32", "-2147483648", "/c/i32 -2147483648"),
    ("/c/i32", "2147483647", "/c/i32 2147483647"),
    ("/c/i32", "-2147483649", "bad value"),
    ("/c/i32", "2147483648", "bad value"),
    ("/c/i32", "\"7\"", "bad value"),
    (
        "/c/i64",
        "-9223372036854775808",
        "/c/i64 -9223372036854775808",
    ),
    (
        "/c/i64",
        "9223372036854775807",
        "/c/i64 9223372036854775807",
    ),
    ("/c/i64", "-9223372036854775809", "bad value"),
    ("/c/i64", "9223372036854775808", "bad value"),
    (
        "/c/i64",
        "\"-9223372036854775808\"",
        "/c/i64 -9223372036854775808",
    ),
    (
        "/c/i64",
        "\"9223372036854775807\"",
        "/c/i64 9223372036854775807",
    ),
    ("/c/i64", "\"9223372036854775808\"", "bad value"),
    ("/c/i64", "\"-9223372036854775809\"", "bad value"),
    ("/c/i64", "\"-0\"", "bad value"),
    ("/c/i64", "\"0\"", "/c/i64 0"),
    ("/c/i64", "\"07\"", "bad value"),
    ("/c/i64", "\"+7\"", "bad value"),
    ("/c/i64", "\" 7\"", "bad value"),
    ("/c/i64", "\"\"", "bad value"),
    ("/c/i64", "\"-\"", "bad value"),
    ("/c/u8", "0", "/c/u8 0"),
    ("/c/u8", "255", "/c/u8 255"),
    ("/c/u8", "256", "bad value"),
    ("/c/u8", "-1", "bad value"),
    ("/c/u16", "0", "/c/u16 0"),
    ("/c/u16", "65535", "/c/u16 65535"),
    ("/c/u16", "65536", "bad value"),
    ("/c/u16", "-1", "bad value"),
    ("/c/u32", "0", "/c/u32 0"),
    ("/c/u32", "4294967295", "/c/u32 4294967295"),
    ("/c/u32", "4294967296", "bad value"),
    ("/c/u32", "-1", "bad value"),
    ("/c/u64", "0", "/c/u64 0"),
    ("/c/u64", "-1", "bad value"),
    (
        "/c/u64",
        "18446744073709551615",
        "/c/u64 18446744073709551615",
    ),
    ("/c/u64", "18446744073709551616", "bad value"),
    (
        "/c/u64",
        "\"18446744073709551615\"",
        "/c/u64 18446744073709551615",
    ),
    ("/c/u64", "\"18446744073709551616\"", "bad value"),
    ("/c/u64", "\"-1\"", "bad value"),
    ("/c/u64", "\"00\"", "bad value"),
];

// RFC 7951 6.1: 64-bit integers and decimals are strings; here decimals are taken as integers too
#[test]
fn integers_are_taken_in_their_range(rt: HostRuntime) {
    check(&rt, rt.alloc(), INTEGERS)
}

const DECIMALS: &[(&str, &str, &str)] = &[
    ("/c/d2", "\"1.5\"", "/c/d2 1.5"),
    ("/c/d2", "\"01.50\"", "/c/d2 1.5"),
    ("/c/d2", "\"-0\"", "/c/d2 0.0"),
    ("/c/d2", "\"1.505\"", "bad value"),
    ("/c/d2", "\"1.\"", "bad value"),
    ("/c/d2", "\".5\"", "bad value"),
    ("/c/d2", "\"+1\"", "bad value"),
    ("/c/d2", "\"1e0\"", "bad value"),
    ("/c/d2", "7", "/c/d2 7.0"),
    ("/c/d2", "-7", "/c/d2 -7.0"),
    ("/c/d2", "1.5", "bad value"),
    (
        "/c/d1",
        "\"922337203685477580.7\"",
        "/c/d1 922337203685477580.7",
    ),
    ("/c/d1", "\"922337203685477580.8\"", "bad value"),
    ("/c/d1", "922337203685477580", "/c/d1 922337203685477580.0"),
    ("/c/d1", "922337203685477581", "bad value"),
    ("/c/d1", "18446744073709551615", "bad value"),
    (
        "/c/d18",
        "\"-9.223372036854775808\"",
        "/c/d18 -9.223372036854775808",
    ),
    ("/c/d18", "\"9.223372036854775808\"", "bad value"),
    ("/c/d18", "9", "/c/d18 9.0"),
    ("/c/d18", "10", "bad value"),
];

#[test]
fn decimals_are_taken_leniently(rt: HostRuntime) {
    check(&rt, rt.alloc(), DECIMALS)
}

const LEAVES: &[(&str, &str, &str)] = &[
    ("/c/flag", "true", "/c/flag true"),
    ("/c/flag", "false", "/c/flag false"),
    ("/c/flag", "\"true\"", "bad value"),
    ("/c/flag", "1", "bad value"),
    ("/c/flag", "null", "bad value"),
    ("/c/s", "\"x y\"", "/c/s \"x y\""),
    ("/c/s", "\"\"", "/c/s \"\""),
    ("/c/s", "7", "bad value"),
    ("/c/s", "{}", "bad value"),
    ("/c/e", "\"up\"", "/c/e \"up\""),
    ("/c/e", "\"UP\"", "bad value"),
    ("/c/e", "\"\"", "bad value"),
    ("/c/bin", "\"AQI=\"", "/c/bin b:AQI="),
    ("/c/bin", "\"\"", "/c/bin b:"),
    ("/c/bin", "\"AQI\"", "bad value"),
    ("/c/bin", "\"AQJ=\"", "bad value"),
    ("/c/bin", "\"AQ==AQ==\"", "bad value"),
    ("/c/tags", "[\"y\",\"x\"]", "/c/tags [\"y\",\"x\"]"),
    ("/c/tags", "[]", ""),
    ("/c/tags", "[\"x\",\"y\",\"x\"]", "bad value"),
    ("/c/tags", "[\"x\",7]", "bad value"),
    ("/c/tags", "[[\"x\"]]", "bad value"),
    ("/c/tags", "\"x\"", "bad value"),
    ("/c/tags", "{}", "bad value"),
    (
        "/c/nums",
        "[1,\"2\",18446744073709551615]",
        "/c/nums [1,2,18446744073709551615]",
    ),
    ("/c/nums", "[1,\"1\"]", "bad value"),
];

#[test]
fn other_leaves_are_taken_as_their_shapes(rt: HostRuntime) {
    check(&rt, rt.alloc(), LEAVES)
}

const MEMBERS: &[(&str, &str, &str)] = &[
    ("/", "{}", ""),
    ("/", "[]", "bad value"),
    ("/", "null", "bad value"),
    (
        "/",
        "{\"top\":\"t\",\"m:c\":{\"flag\":true}}",
        "/c/flag true /top \"t\"",
    ),
    ("/", "{\"m:top\":\"t\"}", "/top \"t\""),
    ("/", "{\"o:top\":\"t\"}", "not in schema"),
    ("/", "{\"flag\":true}", "not in schema"),
    ("/c", "{}", ""),
    ("/c", "[]", "bad value"),
    ("/c", "{\"u8\":1,\"i8\":-1}", "/c/i8 -1 /c/u8 1"),
    ("/c", "{\"m:u8\":1,\"i8\":-1}", "/c/i8 -1 /c/u8 1"),
    ("/c", "{\"u8\":1,\"m:u8\":1}", "bad value"),
    ("/c", "{\"other\":3}", "/c/other 3"),
    ("/c", "{\"o:other\":3}", "/c/other 3"),
    ("/c", "{\"m:other\":3}", "not in schema"),
    ("/c", "{\"m:m:u8\":3}", "not in schema"),
    ("/c", "{\":u8\":3}", "not in schema"),
    ("/c", "{\"\":3}", "not in schema"),
    ("/c", "{\"u8\":1,\"u8\":2}", "/c/u8 2"),
    // the first fault in the order of octets
    ("/c", "{\"x\":1,\"u8\":256}", "bad value"),
    ("/c", "{\"u8\":256,\"a\":1}", "not in schema"),
    ("/c", "{\"m:u8\":1,\"u8\":1,\"x\":1}", "bad value"),
    ("/c", "{\"m:u8\":1,\"n\":1,\"u8\":1}", "not in schema"),
    ("/c", "{\"tags\":[],\"s\":\"\"}", "/c/s \"\""),
    ("/d", "{}", "not in schema"),
    ("/d", "no", "not in schema"),
    ("/c/x", "1", "not in schema"),
    ("/c", "", "bad value"),
    ("/c", "{\"u8\":1", "bad value"),
    ("/c", "{\"u8\":1}}", "bad value"),
    ("/c/s", "\"\\ud800\"", "bad value"),
    ("/c/i8", "1e999", "bad value"),
];

#[test]
fn members_name_the_children(rt: HostRuntime) {
    check(&rt, rt.alloc(), MEMBERS)
}

const ONE: &str = "/c/l[j=-1][k=x]/j -1 /c/l[j=-1][k=x]/k \"x\"";

const ENTRIES: &[(&str, &str, &str)] = &[
    ("/c/l", "[]", ""),
    ("/c/l", "{}", "bad value"),
    ("/c/l", "[{}]", "bad value"),
    ("/c/l", "[7]", "bad value"),
    ("/c/l", "[{\"k\":\"x\",\"j\":-1}]", ONE),
    ("/c/l", "[{\"m:k\":\"x\",\"m:j\":-1}]", ONE),
    (
        "/c/l",
        "[{\"k\":\"x\",\"m:k\":\"x\",\"j\":-1}]",
        "bad value",
    ),
    ("/c/l", "[{\"k\":\"x\"}]", "bad value"),
    ("/c/l", "[{\"k\":7,\"j\":-1}]", "bad value"),
    ("/c/l", "[{\"a\":7}]", "bad value"),
    ("/c/l", "[{\"a\":7,\"k\":\"x\",\"j\":-1}]", "not in schema"),
    (
        "/c/l",
        "[{\"k\":\"x\",\"j\":-1},{\"k\":\"x\",\"j\":-1}]",
        "bad value",
    ),
    (
        "/c/l",
        "[{\"a\":1,\"k\":\"x\",\"j\":-1},{\"k\":\"x\",\"j\":-1}]",
        "not in schema",
    ),
    (
        "/c/l",
        "[{\"k\":\"*\",\"j\":0}]",
        "/c/l[j=0][k=*]/j 0 /c/l[j=0][k=*]/k \"*\"",
    ),
    (
        "/c/l",
        "[{\"k\":\"b\",\"j\":9,\"w\":true},{\"k\":\"a\",\"j\":10,\"v\":true}]",
        "/c/l[j=10][k=a]/j 10 /c/l[j=10][k=a]/k \"a\" /c/l[j=10][k=a]/v true /c/l[j=9][k=b]/j 9 /c/l[j=9][k=b]/k \"b\" /c/l[j=9][k=b]/w true",
    ),
    ("/c/l[j=-1][k=x]", "{}", ""),
    ("/c/l[j=-1][k=x]", "[]", "bad value"),
    ("/c/l[j=-1][k=x]", "{\"v\":true}", "/c/l[j=-1][k=x]/v true"),
    (
        "/c/l[j=-1][k=x]",
        "{\"k\":\"x\"}",
        "/c/l[j=-1][k=x]/k \"x\"",
    ),
    ("/c/l[j=-1][k=x]", "{\"k\":\"y\"}", "bad value"),
    ("/c/l[j=-1][k=x]", "{\"j\":1,\"a\":1}", "bad value"),
    (
        "/c/l[j=-1][k=x]",
        "{\"k\":\"x\",\"m:k\":\"x\"}",
        "bad value",
    ),
    (
        "/c/l[j=-1][k=x]",
        "{\"j\":-1,\"k\":\"x\",\"a\":1}",
        "not in schema",
    ),
    ("/c/l[j=-1][k=x]/in", "{\"x\":7}", "/c/l[j=-1][k=x]/in/x 7"),
    ("/c/l[j=-1][k=x]/in", "{}", ""),
    (
        "/c/l[j=-1][k=x]/sub",
        "[{\"id\":2,\"y\":true},{\"id\":1}]",
        "/c/l[j=-1][k=x]/sub[id=1]/id 1 /c/l[j=-1][k=x]/sub[id=2]/id 2 /c/l[j=-1][k=x]/sub[id=2]/y true",
    ),
    (
        "/c/l[j=-1][k=x]/sub",
        "[{\"id\":1},{\"y\":1,\"id\":1}]",
        "bad value",
    ),
    ("/c", "{\"l\":[{\"k\":\"x\",\"j\":-1}]}", ONE),
    (
        "/",
        "{\"ifs:interfaces\":{\"interface\":[{\"name\":\"eth0\",\"config\":{\"mtu\":1500,\"ip:ipv4\":\"10.0.0.1\",\"enabled\":true}}]}}",
        "/interfaces/interface[name=eth0]/config/enabled true /interfaces/interface[name=eth0]/config/ipv4 \"10.0.0.1\" /interfaces/interface[name=eth0]/config/mtu 1500 /interfaces/interface[name=eth0]/name \"eth0\"",
    ),
];

#[test]
fn entries_are_read_with_their_keys(rt: HostRuntime) {
    check(&rt, rt.alloc(), ENTRIES)
}

/// An array of so many texts, of which the last is that with this number.
fn words(rt: &impl Abort, alloc: Global, count: u32, last: u32) -> Bytes {
    let mut json = Seq::empty(alloc);
    for place in 0..count {
        let number = if place + 1 == count { last } else { place };
        let before = if place == 0 { '[' } else { ',' };
        let text = format!(in alloc; "{before}\"w{number}\"").expect(rt, "memory");
        json.extend_from_slice(text.as_bytes()).expect(rt, "memory");
    }
    json.push(b']').expect(rt, "memory");
    json
}

/// How many values there are, the number of the last one, and whether they are taken.
const COUNTS: &[(u32, u32, bool)] = &[
    (16, 15, true),
    (16, 0, false),
    (17, 16, true),
    (17, 0, false),
    (300, 299, true),
    (300, 0, false),
];

/// The fault of the array of these texts.
fn fault_of_words(rt: &impl Abort, alloc: Global, count: u32, last: u32) -> Option<RowsFault> {
    read(rt, alloc, "/c/tags", words(rt, alloc, count, last).items()).err()
}

/// Whether a fault is that of a refusal, and none is where the values are taken.
fn is_expected(fault: Option<RowsFault>, is_taken: bool) -> bool {
    match fault {
        None => is_taken,
        Some(fault) => !is_taken && fault == RowsFault::BadValue,
    }
}

#[test]
fn of_many_values_no_two_are_equal(rt: HostRuntime) {
    for (count, last, is_taken) in COUNTS {
        let fault = fault_of_words(&rt, rt.alloc(), *count, *last);
        assert!(rt; is_expected(fault, *is_taken), "{count} {last}");
    }
}

/// An object whose member `x` has so many arrays inside one another.
fn nested(rt: &impl Abort, alloc: Global, arrays: usize) -> Bytes {
    let mut json = Seq::empty(alloc);
    json.extend_from_slice(b"{\"x\":").expect(rt, "memory");
    for _ in 0..arrays {
        json.push(b'[').expect(rt, "memory");
    }
    for _ in 0..arrays {
        json.push(b']').expect(rt, "memory");
    }
    json.push(b'}').expect(rt, "memory");
    json
}

/// Whether so many arrays in the object mean this fault.
fn nested_means(rt: &impl Abort, alloc: Global, arrays: usize, fault: &str) -> bool {
    means(rt, alloc, "/c", nested(rt, alloc, arrays).items(), fault)
}

// 127 arrays and objects inside one another are JSON, and 128 aren't
#[test]
fn nesting_has_a_bound(rt: HostRuntime) {
    assert!(rt; nested_means(&rt, rt.alloc(), 126, "not in schema"));
    assert!(rt; nested_means(&rt, rt.alloc(), 127, "bad value"));
}

const NO_TEXTS: &[&[u8]] = &[b"\"\xff\"", b"\"\xed\xa0\x80\"", b"\xef\xbb\xbf\"x\""];

#[test]
fn octets_that_are_no_text_are_no_json(rt: HostRuntime) {
    for json in NO_TEXTS {
        assert!(rt;
            means(&rt, rt.alloc(), "/c/s", json, "bad value"),
            "{json:?}"
        );
    }
}
