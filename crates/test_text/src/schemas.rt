// Schemas: nodes by their names.
use crate::builders::{assert_of, text_of};
use base_kinds::{Copied, Elem, Keys, MOST_SCHEMA_NODES, Path, Same, Shape, Texts};
use schema_core::{Node, NodeId, Schema};
use std::alloc::Global;
use std::process::Abort;

/// The module, the names and the sort or the shape of each node: parts of two OpenConfig modules, and the other shapes.
const EXAMPLE: &[(&str, &str, &str)] = &[
    ("system", "system", "container"),
    ("system", "system config", "container"),
    ("system", "system config hostname", "string"),
    ("system", "system config motd", "string"),
    ("interfaces", "interfaces", "container"),
    ("interfaces", "interfaces interface", "list"),
    ("interfaces", "interfaces interface name", "string"),
    ("interfaces", "interfaces interface config", "container"),
    ("interfaces", "interfaces interface config mtu", "uint16"),
    (
        "interfaces",
        "interfaces interface config description",
        "string",
    ),
    ("interfaces", "interfaces interface config enabled", "bool"),
    ("lab", "lab", "container"),
    ("lab", "lab big", "uint64"),
    ("lab", "lab rate", "dec2"),
    ("lab", "lab blob", "binary"),
    ("lab", "lab tags", "leaf-list"),
    ("lab", "lab via", "reference"),
];

fn texts_of(rt: &impl Abort, alloc: Global, line: &str) -> Texts {
    let mut texts = Texts::empty(alloc);
    for word in line.split_whitespace() {
        texts.push(text_of(rt, alloc, word)).expect(rt, "memory");
    }
    texts
}

/// The path of elements with these names, each with a key of this value.
fn path_of(rt: &impl Abort, alloc: Global, line: &str, value: &str) -> Path {
    let mut path = Path::empty(alloc);
    for word in line.split_whitespace() {
        let mut keys = Keys::empty(alloc);
        let key = (text_of(rt, alloc, "name"), text_of(rt, alloc, value));
        keys.push(key).expect(rt, "memory");
        let name = text_of(rt, alloc, word);
        path.push(Elem { name, keys }).expect(rt, "memory");
    }
    path
}

fn shape_of(word: &str) -> Shape {
    match word {
        "bool" => Shape::Bool,
        "uint16" => Shape::Uint(16),
        "uint64" => Shape::Uint(64),
        "dec2" => Shape::Dec(2),
        "binary" => Shape::Bin,
        _ => Shape::Text,
    }
}

fn node_of(rt: &impl Abort, alloc: Global, module: &str, line: &str, word: &str) -> Node {
    let module = text_of(rt, alloc, module);
    let names = texts_of(rt, alloc, line);
    match word {
        "container" => Node::container(alloc, module, names),
        "list" => Node::list(module, names, texts_of(rt, alloc, "name"), Some(7)),
        "leaf-list" => Node::leaf_list(alloc, module, names, Shape::Text, Some(9)),
        "reference" => {
            let other = texts_of(rt, alloc, "interfaces interface name");
            Node::leaf(alloc, module, names, Shape::Text, true, Some(other))
        }
        _ => Node::leaf(alloc, module, names, shape_of(word), false, None),
    }
}

fn put(rt: &impl Abort, schema: &mut Schema, node: Node) {
    let is_room = schema.nodes() < MOST_SCHEMA_NODES;
    let has_parent = schema.has_parent(node.names().items());
    let found = schema.find_names(node.names().items());
    assert!(rt; is_room && has_parent && found.is_none(), "a place");
    schema.add(node).expect(rt, "memory");
}

fn example(rt: &impl Abort, alloc: Global) -> Schema {
    let mut schema = Schema::empty(alloc);
    for (module, line, word) in EXAMPLE {
        put(rt, &mut schema, node_of(rt, alloc, module, line, word));
    }
    schema
}

/// Whether the node at the path has this number and this module, and a shape and keys where its sort has them.
fn has_at(schema: &Schema, path: &Path, number: usize, module: &str, word: &str) -> bool {
    match schema.find(path) {
        Some(id) => {
            let is_inner = word == "container" || word == "list";
            id.0 as usize == number
                && schema.shape_of(id).is_none() == is_inner
                && schema.module_of(id).octets() == module.as_bytes()
                && schema.keys_of(id).is_empty() == (word != "list")
        }
        None => false,
    }
}

/// Each node of the example is found in the schema by its names, and there is no other.
fn assert_found(rt: &impl Abort, alloc: Global, schema: &Schema) {
    for (number, (module, line, word)) in EXAMPLE.iter().enumerate() {
        let path = path_of(rt, alloc, line, word);
        assert_of(rt, line, has_at(schema, &path, number, module, word));
    }
    assert!(rt; schema.nodes() == 17);
}

#[test]
fn nodes_are_found_by_names_whatever_the_keys(rt: HostRuntime) {
    assert_found(&rt, rt.alloc(), &example(&rt, rt.alloc()));
}

const OTHERS: &[&str] = &[
    "",
    "syste",
    "systems",
    "System",
    "config",
    "a",
    "zone",
    "system name",
    "lab lab",
    "lab vi",
    "system config hostname x",
    "interfaces interface mtu",
];

/// Whether the names of this line are those of no node of the example.
fn is_of_no_node(rt: &impl Abort, alloc: Global, line: &str) -> bool {
    let schema = example(rt, alloc);
    let path = path_of(rt, alloc, line, "r1");
    let found = schema.find(&path);
    drop(path);
    drop(schema);
    found.is_none()
}

#[test]
fn other_names_are_those_of_no_node(rt: HostRuntime) {
    for line in OTHERS {
        assert_of(&rt, line, is_of_no_node(&rt, rt.alloc(), line));
    }
}

const PLACES: &[(&str, bool)] = &[
    ("", false),
    ("new", true),
    ("lab new", true),
    ("interfaces interface new", true),
    ("new new", false),
    ("lab tags new", false),
    ("lab via new", false),
];

/// Whether a node with the names of this line has its place in the example.
fn has_place(rt: &impl Abort, alloc: Global, line: &str) -> bool {
    let schema = example(rt, alloc);
    let names = texts_of(rt, alloc, line);
    let has_parent = schema.has_parent(names.items());
    drop(names);
    drop(schema);
    has_parent
}

#[test]
fn a_name_has_its_place_below_an_inner_node(rt: HostRuntime) {
    for (line, has_parent) in PLACES {
        assert_of(&rt, line, has_place(&rt, rt.alloc(), line) == *has_parent);
    }
}

fn children_are_found(schema: &Schema) -> bool {
    let above = schema.child_of(None, b"interfaces");
    let list = schema.child_of(above, b"interface");
    above == Some(NodeId(4))
        && list == Some(NodeId(5))
        && schema.child_of(list, b"name") == Some(NodeId(6))
        && schema.child_of(list, b"mtu").is_none()
        && schema.child_of(None, b"name").is_none()
}

#[test]
fn a_child_has_one_name_more(rt: HostRuntime) {
    assert!(rt; children_are_found(&example(&rt, rt.alloc())));
}

/// The node of this name below `lab`.
fn node_of_lab<'a>(rt: &impl Abort, schema: &'a Schema, name: &[u8]) -> &'a Node {
    let lab = schema.child_of(None, b"lab");
    schema.node(schema.child_of(lab, name).expect(rt, "a node"))
}

fn refers_to(rt: &impl Abort, alloc: Global, node: &Node, names: &str) -> bool {
    match node.reference() {
        Some(reference) => reference.same(&texts_of(rt, alloc, names)),
        None => false,
    }
}

/// Whether the nodes below `lab` have all that the example says of them.
fn has_all_of_lab(rt: &impl Abort, alloc: Global, schema: &Schema) -> bool {
    let via = node_of_lab(rt, schema, b"via");
    let tags = node_of_lab(rt, schema, b"tags");
    via.is_mandatory()
        && refers_to(rt, alloc, via, "interfaces interface name")
        && !tags.is_mandatory()
        && tags.maximum() == Some(9)
}

fn copy_of_example(rt: &impl Abort, alloc: Global) -> Schema {
    let schema = example(rt, alloc);
    let copy = schema.copy(alloc).expect(rt, "memory");
    drop(schema);
    copy
}

#[test]
fn a_copy_has_all_of_each_node(rt: HostRuntime) {
    let copy = copy_of_example(&rt, rt.alloc());
    let has_all = has_all_of_lab(&rt, rt.alloc(), &copy);
    drop(copy);
    assert!(rt; has_all);
}
