ghost use Rattle.base_kinds.specs.Rising.{IsRising};

use crate::short_paths::{path_of, text_of, texts_of};
use base_kinds::{MOST_SCHEMA_NODES, Path, Row, Rows, Seq, Shape, Texts, Value};
use schema_core::{Node, Schema};
use std::alloc::Global;
use std::cmp::Ordering;
use std::process::Abort;
use tree_check::{are_rising, find_leaf, keys_hold, leafrefs_resolve, mandatory_present};

/// A node on each line: its names, what it is, and the names of its keys or of the leaf that it refers to.
const NODES: &[(&str, &str, &str)] = &[
    ("if", "list", "name"),
    ("if name", "leaf", ""),
    ("if mtu", "mandatory", ""),
    ("if config", "container", ""),
    ("if config mode", "mandatory", ""),
    ("if config up", "leaf", ""),
    ("route", "list", "from to"),
    ("route from", "leaf", ""),
    ("route to", "leaf", ""),
    ("route via", "reference", "if name"),
    ("route hop", "list", "name"),
    ("route hop name", "leaf", ""),
    ("route kind", "reference", "kinds"),
    ("kinds", "leaf", ""),
    ("lost", "reference", "nowhere"),
    ("self", "reference", "self"),
    ("tags", "list", ""),
];

/// Rows on each line, with the answer whether the keys of each element have their leaves.
const KEYED: &[(&str, bool)] = &[
    ("", true),
    ("kinds=x", true),
    ("if[name:x]/name=x", true),
    ("if[name:x]/name=y", false),
    ("if[name:x]/name=name", false),
    ("if[name:x]/mtu=1", false),
    ("if[name:7]/name=#7", true),
    ("if[name:07]/name=#7", false),
    ("if[name:]/name=&", true),
    ("if[name:x]/mtu=1 if[name:y]/name=x", false),
    ("if[name:x]/name=x if[name:y]/mtu=1", false),
    ("route[from:a][to:b]/from=a route[from:a][to:b]/to=b", true),
    ("route[from:a][to:b]/from=a route[from:a][to:b]/to=a", false),
    ("route[from:a][to:b]/from=a", false),
    ("route[from:a][to:b]/hop[name:c]/name=c", false),
];

/// Rows on each line, with the answer whether each mandatory leaf stands where it has to.
const STANDING: &[(&str, bool)] = &[
    ("", true),
    ("kinds=x", true),
    ("if[name:x]/mtu=1", true),
    ("if[name:x]/name=x", false),
    ("if[name:x]/mtu=1 if[name:y]/name=y", false),
    ("if[name:x]/config/mode=m if[name:x]/mtu=1", true),
    ("if[name:x]/config/mode=m", false),
    ("if[name:x]/config/up=t if[name:x]/mtu=1", false),
    (
        "if[name:x]/config/mode=m if[name:x]/mtu=1 if[name:y]/config/up=t if[name:y]/mtu=1",
        false,
    ),
];

/// Rows on each line, with the answer whether each reference has its row.
const REFERRING: &[(&str, bool)] = &[
    ("", true),
    ("kinds=x", true),
    ("if[name:x]/name=x route[from:a][to:b]/via=x", true),
    ("if[name:x]/name=x route[from:a][to:b]/via=y", false),
    ("if[name:x]/mtu=x route[from:a][to:b]/via=x", false),
    ("route[from:a][to:b]/via=x", false),
    (
        "if[name:x]/name=x if[name:y]/name=y route[from:a][to:b]/via=y route[from:b][to:b]/via=x",
        true,
    ),
    (
        "if[name:x]/name=x if[name:y]/name=y route[from:a][to:b]/via=y route[from:b][to:b]/via=z",
        false,
    ),
    ("if[name:x]/name=#7 route[from:a][to:b]/via=#7", true),
    ("if[name:x]/name=#7 route[from:a][to:b]/via=7", false),
    ("if[name:x]/name=& route[from:a][to:b]/via=&", false),
    ("lost=x", false),
    ("self=x", true),
    ("stranger=x", false),
];

/// The names of the leaf that a node refers to, where it is a reference.
fn target_of(rt: &impl Abort, alloc: Global, word: &str, other: &str) -> Option<Texts> {
    if word == "reference" {
        Some(texts_of(rt, alloc, other))
    } else {
        None
    }
}

fn node_of(rt: &impl Abort, alloc: Global, line: &str, word: &str, other: &str) -> Node {
    let module = text_of(rt, alloc, "m");
    let names = texts_of(rt, alloc, line);
    match word {
        "container" => Node::container(alloc, module, names),
        "list" => Node::list(module, names, texts_of(rt, alloc, other), None),
        _ => {
            let target = target_of(rt, alloc, word, other);
            Node::leaf(
                alloc,
                module,
                names,
                Shape::Text,
                word == "mandatory",
                target,
            )
        }
    }
}

fn schema_of(rt: &impl Abort, alloc: Global, lines: &[(&str, &str, &str)]) -> Schema {
    let mut schema = Schema::empty(alloc);
    for (line, word, other) in lines {
        let node = node_of(rt, alloc, line, word, other);
        let is_room = schema.nodes() < MOST_SCHEMA_NODES;
        let has_parent = schema.has_parent(node.names().items());
        let found = schema.find_names(node.names().items());
        assert!(rt; is_room && has_parent && found.is_none(), "{line}");
        schema.add(node).expect(rt, "memory");
    }
    schema
}

/// A number behind `#`, a list without values for `&`, and else a text.
fn value_of(rt: &impl Abort, alloc: Global, text: &str) -> Value {
    if text == "&" {
        return Value::List(Seq::empty(alloc));
    }
    match text.split_once('#') {
        Some((_, digits)) => Value::Uint(digits.parse().expect(rt, "a number")),
        None => Value::Text(text_of(rt, alloc, text)),
    }
}

fn rows_of(rt: &impl Abort, alloc: Global, line: &str) -> Rows {
    let mut rows = Seq::empty(alloc);
    for word in line.split_whitespace() {
        let (path, value) = word.split_once('=').unwrap_or((word, ""));
        rows.push(Row {
            path: path_of(rt, alloc, path),
            value: value_of(rt, alloc, value),
        })
        .expect(rt, "memory");
    }
    rows
}

/// Whether the keys of each element have their leaves among these rows, which rise.
fn are_keyed(rt: &impl Abort, alloc: Global, rows: &[Row], line: &str) -> bool {
    assert!(rt; are_rising(rows), "{line}");
    keys_hold(alloc, rows).expect(rt, "memory")
}

#[test]
fn keys_have_their_leaves(rt: HostRuntime) {
    let alloc = rt.alloc();
    for (line, wanted) in KEYED {
        let found = are_keyed(&rt, alloc, rows_of(&rt, alloc, line).items(), line);
        assert!(rt; found == *wanted, "{line}");
    }
}

/// Whether each mandatory leaf stands where it has to among these rows, which rise.
fn are_standing(rt: &impl Abort, schema: &Schema, rows: &[Row], line: &str) -> bool {
    assert!(rt; are_rising(rows), "{line}");
    mandatory_present(schema, rows)
}

/// Whether each mandatory leaf of these nodes stands where it has to among the rows of the line.
fn is_standing(rt: &impl Abort, alloc: Global, nodes: &[(&str, &str, &str)], line: &str) -> bool {
    let schema = schema_of(rt, alloc, nodes);
    are_standing(rt, &schema, rows_of(rt, alloc, line).items(), line)
}

#[test]
fn mandatory_leaves_stand(rt: HostRuntime) {
    for (line, wanted) in STANDING {
        assert!(rt;
            is_standing(&rt, rt.alloc(), NODES, line) == *wanted,
            "{line}"
        );
    }
}

/// A mandatory leaf below the root, and another leaf.
const ROOT_NODES: &[(&str, &str, &str)] = &[("host", "mandatory", ""), ("motd", "leaf", "")];

/// Rows on each line, with the answer whether the leaf stands.
const ROOT_STANDING: &[(&str, bool)] = &[
    ("", true),
    ("host=x", true),
    ("motd=x", false),
    ("host=x motd=x", true),
];

#[test]
fn a_mandatory_leaf_of_the_root_stands_in_every_tree_with_rows(rt: HostRuntime) {
    for (line, wanted) in ROOT_STANDING {
        assert!(rt;
            is_standing(&rt, rt.alloc(), ROOT_NODES, line) == *wanted,
            "{line}"
        );
    }
}

/// Whether each reference of the rows of the line has its row.
fn is_resolved(rt: &impl Abort, alloc: Global, line: &str) -> bool {
    let schema = schema_of(rt, alloc, NODES);
    let rows = rows_of(rt, alloc, line);
    leafrefs_resolve(alloc, &schema, rows.items()).expect(rt, "memory")
}

#[test]
fn references_have_a_row_of_their_value(rt: HostRuntime) {
    for (line, wanted) in REFERRING {
        assert!(rt; is_resolved(&rt, rt.alloc(), line) == *wanted, "{line}");
    }
}

/// The path of this leaf in the entry of this key.
fn leaf_path(rt: &impl Abort, alloc: Global, key: u64, name: &str) -> Path {
    let path = format!(in alloc; "l[k:{key}]/{name}").expect(rt, "memory");
    path_of(rt, alloc, path.as_str())
}

const LEAVES: &[&str] = &["a", "c", "e"];

/// Three leaves below each of a hundred entries of a list, each with a number of its own.
fn many_rows(rt: &impl Abort, alloc: Global) -> Rows {
    let mut rows = Seq::empty(alloc);
    for key in 100..200u64 {
        for name in LEAVES {
            let value = Value::Uint(rows.len() as u64);
            let path = leaf_path(rt, alloc, key, name);
            rows.push(Row { path, value }).expect(rt, "memory");
        }
    }
    rows
}

/// The row of this path that a scan finds.
fn scanned<'a>(rows: &'a [Row], path: &Path) -> Option<&'a Row> {
    for row in rows {
        if row.path.cmp(path) == Ordering::Equal {
            return Some(row);
        }
    }
    None
}

/// Whether the leaf that is found below the first element is the one that a scan finds.
fn is_as_scanned(rows: &[Row], path: &Path, name: &str) -> bool
    requires { IsRising rows.now }
{
    let instance = path.items().get(..1).unwrap_or(&[]);
    match (
        find_leaf(rows, instance, name.as_bytes()),
        scanned(rows, path),
    ) {
        (Some(found), Some(row)) => found.value == row.value,
        (found, row) => found.is_none() && row.is_none(),
    }
}

/// Those leaves, and names before, between and behind theirs.
const LOOKED_FOR: &[&str] = &["", "a", "b", "c", "d", "e", "f"];

fn assert_found(rt: &impl Abort, alloc: Global, rows: &[Row]) {
    assert!(rt; are_rising(rows));
    for key in 99..201u64 {
        for name in LOOKED_FOR {
            let is = is_as_scanned(rows, &leaf_path(rt, alloc, key, name), name);
            assert!(rt; is, "{key} {name}");
        }
    }
}

#[test]
fn a_leaf_is_found_among_many_rows(rt: HostRuntime) {
    let alloc = rt.alloc();
    assert_found(&rt, alloc, many_rows(&rt, alloc).items());
}
