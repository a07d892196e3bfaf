use crate::asked::{Sent, value_of};
use crate::builders::{assert_of, octets_of, path_of, schema_of, text_of};
use base_kinds::{Bytes, Row, Rows, Shape, Texts, Value};
use json_text::{
    json_of, leaf_json, leaf_lists_read_back, leaves_read_back, trees_read_back,
    valid_trees_read_back,
};
use std::alloc::Global;
use std::process::Abort;

/// Modules inside one another; `foomod` and `barmod` are the example of RFC 7951 4.
const SCHEMA: &str = "\
module lab\n\
container /lab\n\
leaf /lab/big uint64\n\
leaf /lab/blob binary\n\
leaf /lab/rate dec2\n\
leaf-list /lab/tags string\n\
module net\n\
container /interfaces\n\
list /interfaces/interface name\n\
leaf /interfaces/interface/name string\n\
container /interfaces/interface/config\n\
leaf /interfaces/interface/config/mtu uint16\n\
leaf /interfaces/interface/config/enabled bool\n\
module ip\n\
container /interfaces/interface/ipv4\n\
list /interfaces/interface/ipv4/address ip\n\
leaf /interfaces/interface/ipv4/address/ip string\n\
leaf /interfaces/interface/ipv4/address/prefix uint16\n\
module net\n\
leaf /interfaces/interface/ipv4/note string\n\
container /peers\n\
list /peers/peer name,vrf\n\
leaf /peers/peer/name string\n\
leaf /peers/peer/vrf uint16\n\
leaf /peers/peer/level int64\n\
module foomod\n\
container /top\n\
leaf /top/foo uint16\n\
module barmod\n\
leaf /top/bar bool\n\
module net\n\
leaf /bare uint16\n\
leaf /a string\n\
";

fn add(rt: &impl Abort, alloc: Global, rows: &mut Rows, line: &str, sent: Sent) {
    let path = path_of(rt, alloc, line);
    let value = value_of(rt, alloc, sent);
    rows.push(Row { path, value }).expect(rt, "memory")
}

/// The rows of a table: their paths and their values.
fn rows_of(rt: &impl Abort, alloc: Global, table: &[(&str, Sent)]) -> Rows {
    let mut rows = Rows::empty(alloc);
    for (line, sent) in table {
        add(rt, alloc, &mut rows, line, *sent);
    }
    rows
}

/// The rows at the path, as they are written.
fn written(rt: &impl Abort, alloc: Global, line: &str, rows: Rows) -> Bytes {
    let schema = schema_of(rt, alloc, SCHEMA);
    let path = path_of(rt, alloc, line);
    let json = json_of(alloc, &schema, &path, &rows).expect(rt, "memory");
    drop(schema);
    drop(path);
    drop(rows);
    json
}

/// Whether the rows at the path are written so.
fn is_written(rt: &impl Abort, alloc: Global, line: &str, rows: Rows, json: &str) -> bool {
    written(rt, alloc, line, rows).items() == json.as_bytes()
}

/// Rows of a container, but for its leaf-list.
const LAB: &[(&str, Sent)] = &[
    ("/lab/big", Sent::Uint(18446744073709551615)),
    ("/lab/blob", Sent::Bin(&[1, 2])),
    ("/lab/rate", Sent::Dec(150, 2)),
];

/// Whether the rows of the container, with these values in its leaf-list, are written so at the path.
fn lab_is_written(
    rt: &impl Abort,
    alloc: Global,
    line: &str,
    tags: &'static [&'static str],
    json: &str,
) -> bool {
    let mut rows = rows_of(rt, alloc, LAB);
    add(rt, alloc, &mut rows, "/lab/tags", Sent::Texts(tags));
    is_written(rt, alloc, line, rows, json)
}

/// The first of two interfaces, with addresses of another module.
const FIRST: &[(&str, Sent)] = &[
    (
        "/interfaces/interface[name=e0]/config/enabled",
        Sent::Bool(true),
    ),
    (
        "/interfaces/interface[name=e0]/config/mtu",
        Sent::Uint(1500),
    ),
    (
        "/interfaces/interface[name=e0]/ipv4/address[ip=10.0.0.1]/ip",
        Sent::Text("10.0.0.1"),
    ),
    (
        "/interfaces/interface[name=e0]/ipv4/address[ip=10.0.0.1]/prefix",
        Sent::Uint(24),
    ),
    (
        "/interfaces/interface[name=e0]/ipv4/address[ip=10.0.0.2]/ip",
        Sent::Text("10.0.0.2"),
    ),
    (
        "/interfaces/interface[name=e0]/ipv4/note",
        Sent::Text("q\"\\\n"),
    ),
    ("/interfaces/interface[name=e0]/name", Sent::Text("e0")),
];

/// Whether both interfaces are written so at the path.
fn both_are_written(rt: &impl Abort, alloc: Global, line: &str, json: &str) -> bool {
    let mut rows = rows_of(rt, alloc, FIRST);
    let name = "/interfaces/interface[name=e1]/name";
    add(rt, alloc, &mut rows, name, Sent::Text("e1"));
    is_written(rt, alloc, line, rows, json)
}

#[test]
fn values_of_a_container_are_written_by_their_shapes(rt: HostRuntime) {
    let alloc = rt.alloc();
    let whole =
        "{\"lab:lab\":{\"big\":\"18446744073709551615\",\"blob\":\"AQI=\",\"rate\":\"1.5\",\"tags\":[\"x\",\"y\"]}}";
    assert!(rt; lab_is_written(&rt, alloc, "/", &["x", "y"], whole));
    let root =
        "{\"lab:lab\":{\"big\":\"18446744073709551615\",\"blob\":\"AQI=\",\"rate\":\"1.5\",\"tags\":[\"y\",\"x\"]}}";
    assert!(rt; lab_is_written(&rt, alloc, "/", &["y", "x"], root));
    let lab =
        "{\"lab:big\":\"18446744073709551615\",\"lab:blob\":\"AQI=\",\"lab:rate\":\"1.5\",\"lab:tags\":[\"y\",\"x\"]}";
    assert!(rt; lab_is_written(&rt, alloc, "/lab", &["y", "x"], lab));
}

#[test]
fn lists_are_arrays_of_their_entries(rt: HostRuntime) {
    let alloc = rt.alloc();
    let root =
        "{\"net:interfaces\":{\"interface\":[{\"config\":{\"enabled\":true,\"mtu\":1500},\"ip:ipv4\":{\"address\":[{\"ip\":\"10.0.0.1\",\"prefix\":24},{\"ip\":\"10.0.0.2\"}],\"net:note\":\"q\\\"\\\\\\n\"},\"name\":\"e0\"},{\"name\":\"e1\"}]}}";
    assert!(rt; both_are_written(&rt, alloc, "/", root));
    let inside =
        "{\"net:interface\":[{\"config\":{\"enabled\":true,\"mtu\":1500},\"ip:ipv4\":{\"address\":[{\"ip\":\"10.0.0.1\",\"prefix\":24},{\"ip\":\"10.0.0.2\"}],\"net:note\":\"q\\\"\\\\\\n\"},\"name\":\"e0\"},{\"name\":\"e1\"}]}";
    assert!(rt; both_are_written(&rt, alloc, "/interfaces", inside));
}

#[test]
fn an_entry_is_an_object_with_modules_at_its_first_level(rt: HostRuntime) {
    let alloc = rt.alloc();
    let line = "/interfaces/interface[name=e0]";
    let entry =
        "{\"ip:ipv4\":{\"address\":[{\"ip\":\"10.0.0.1\",\"prefix\":24},{\"ip\":\"10.0.0.2\"}],\"net:note\":\"q\\\"\\\\\\n\"},\"net:config\":{\"enabled\":true,\"mtu\":1500},\"net:name\":\"e0\"}";
    assert!(rt; is_written(&rt, alloc, line, rows_of(&rt, alloc, FIRST), entry));
}

/// Two entries that differ in one of their keys.
const PEERS: &[(&str, Sent)] = &[
    ("/peers/peer[name=a][vrf=1]/level", Sent::Int(-7)),
    ("/peers/peer[name=a][vrf=1]/name", Sent::Text("a")),
    ("/peers/peer[name=a][vrf=1]/vrf", Sent::Uint(1)),
    ("/peers/peer[name=a][vrf=2]/level", Sent::Int(-7)),
    ("/peers/peer[name=a][vrf=2]/name", Sent::Text("a")),
    ("/peers/peer[name=a][vrf=2]/vrf", Sent::Uint(2)),
];

#[test]
fn entries_with_several_keys_stand_apart(rt: HostRuntime) {
    let alloc = rt.alloc();
    let json =
        "{\"net:peers\":{\"peer\":[{\"level\":\"-7\",\"name\":\"a\",\"vrf\":1},{\"level\":\"-7\",\"name\":\"a\",\"vrf\":2}]}}";
    assert!(rt; is_written(&rt, alloc, "/", rows_of(&rt, alloc, PEERS), json));
}

/// Rows below a container of one module, one of which is of another.
const TOP: &[(&str, Sent)] = &[
    ("/bare", Sent::Uint(1)),
    ("/top/bar", Sent::Bool(true)),
    ("/top/foo", Sent::Uint(54)),
];

// RFC 7951 4, with the members in the order of their octets
#[test]
fn members_of_another_module_have_its_name(rt: HostRuntime) {
    let alloc = rt.alloc();
    let json = "{\"foomod:top\":{\"barmod:bar\":true,\"foo\":54},\"net:bare\":1}";
    assert!(rt; is_written(&rt, alloc, "/", rows_of(&rt, alloc, TOP), json));
}

/// Rows of leaves, and their values alone.
const LEAVES: &[(&str, Sent, &str)] = &[
    (
        "/lab/big",
        Sent::Uint(18446744073709551615),
        "\"18446744073709551615\"",
    ),
    ("/lab/blob", Sent::Bin(&[1, 2]), "\"AQI=\""),
    ("/lab/rate", Sent::Dec(150, 2), "\"1.5\""),
    ("/lab/tags", Sent::Texts(&["y", "x"]), "[\"y\",\"x\"]"),
];

/// Whether the row of this leaf and this value is written so at the leaf.
fn leaf_is_written(rt: &impl Abort, alloc: Global, line: &str, sent: Sent, json: &str) -> bool {
    is_written(rt, alloc, line, rows_of(rt, alloc, &[(line, sent)]), json)
}

#[test]
fn a_leaf_by_itself_is_its_value(rt: HostRuntime) {
    for (line, sent, json) in LEAVES {
        let is_written = leaf_is_written(&rt, rt.alloc(), line, *sent, json);
        assert_of(&rt, line, is_written);
    }
}

/// Whether no rows at the path are written as an empty object.
fn is_empty_at(rt: &impl Abort, alloc: Global, line: &str) -> bool {
    is_written(rt, alloc, line, Rows::empty(alloc), "{}")
}

#[test]
fn no_rows_are_an_empty_object(rt: HostRuntime) {
    let alloc = rt.alloc();
    assert!(rt; is_empty_at(&rt, alloc, "/"));
    assert!(rt; is_empty_at(&rt, alloc, "/lab"));
    assert!(rt; is_empty_at(&rt, alloc, "/interfaces/interface[name=e0]"));
}

/// Whether a leaf of this shape with this value is written so behind what is there.
fn is_leaf(rt: &impl Abort, alloc: Global, shape: &Shape, value: &Value, json: &str) -> bool {
    let mut out = octets_of(rt, alloc, b"=");
    leaf_json(alloc, shape, value, &mut out).expect(rt, "memory");
    out.items().split_first() == Some((&b'=', json.as_bytes()))
}

/// A leaf of this shape with this value is written so.
fn assert_leaf(rt: &impl Abort, alloc: Global, shape: Shape, sent: Sent, json: &str) {
    let value = value_of(rt, alloc, sent);
    let is_so = is_leaf(rt, alloc, &shape, &value, json);
    drop(value);
    drop(shape);
    assert_of(rt, json, is_so);
}

/// The shape of a state.
fn state(rt: &impl Abort, alloc: Global) -> Shape {
    let mut names = Texts::empty(alloc);
    names.push(text_of(rt, alloc, "UP")).expect(rt, "memory");
    names.push(text_of(rt, alloc, "DOWN")).expect(rt, "memory");
    Shape::Enum(names)
}

// RFC 7951 5.1, 5.3 and 6, RFC 8259 7
#[test]
fn leaves_are_written_by_their_shapes(rt: HostRuntime) {
    let alloc = rt.alloc();
    let quoted = Sent::Text("\u{1f}/\u{e9}\t");
    assert_leaf(&rt, alloc, Shape::Text, quoted, "\"\\u001f/\u{e9}\\t\"");
    assert_leaf(&rt, alloc, Shape::Bin, Sent::Bin(b"foobar"), "\"Zm9vYmFy\"");
    assert_leaf(&rt, alloc, state(&rt, alloc), Sent::Enum("UP"), "\"UP\"");
    assert_leaf(&rt, alloc, Shape::Text, Sent::Texts(&[]), "[]");
}

// RFC 7951 6.1 and 6.3
#[test]
fn numbers_are_written_by_their_shapes(rt: HostRuntime) {
    let alloc = rt.alloc();
    let least = Sent::Int(-9_223_372_036_854_775_808);
    let greatest = Sent::Uint(4_294_967_295);
    assert_leaf(&rt, alloc, Shape::Bool, Sent::Bool(false), "false");
    assert_leaf(&rt, alloc, Shape::Int(8), Sent::Int(-128), "-128");
    assert_leaf(
        &rt,
        alloc,
        Shape::Int(32),
        Sent::Int(2_147_483_647),
        "2147483647",
    );
    assert_leaf(
        &rt,
        alloc,
        Shape::Int(64),
        least,
        "\"-9223372036854775808\"",
    );
    assert_leaf(&rt, alloc, Shape::Uint(32), greatest, "4294967295");
    assert_leaf(&rt, alloc, Shape::Uint(64), Sent::Uint(0), "\"0\"");
    assert_leaf(&rt, alloc, Shape::Dec(1), Sent::Dec(-5, 1), "\"-0.5\"");
    assert_leaf(&rt, alloc, Shape::Dec(2), Sent::Dec(0, 2), "\"0.0\"");
}

#[test]
fn laws_hold_of_what_is_written() {
    leaves_read_back();
    leaf_lists_read_back();
    trees_read_back();
    valid_trees_read_back();
}
