use base_kinds::{
    Act, Bytes, Elem, Entry, Keys, Kind, Op, Ops, Path, Row, Rows, Text, Value, Values,
};
use log_text::put_log;
use std::alloc::Global;
use std::process::Abort;

fn text_of(rt: &impl Abort, alloc: Global, word: &str) -> Text {
    Text::of(alloc, word.as_bytes()).expect(rt, "a text")
}

/// `/tags[k=a b]`
fn tags(rt: &impl Abort, alloc: Global) -> Path {
    let mut keys = Keys::empty(alloc);
    keys.push((text_of(rt, alloc, "k"), text_of(rt, alloc, "a b")))
        .expect(rt, "memory");
    let mut path = Path::empty(alloc);
    let name = text_of(rt, alloc, "tags");
    path.push(Elem { name, keys }).expect(rt, "memory");
    path
}

fn op_of(rt: &impl Abort, alloc: Global, act: Act, value: Option<Value>) -> Op {
    let path = tags(rt, alloc);
    let mut rows = Rows::empty(alloc);
    if let Some(value) = value {
        let path = tags(rt, alloc);
        rows.push(Row { path, value }).expect(rt, "memory");
    }
    Op { act, path, rows }
}

/// An update, a replace and a delete, in this order.
fn ops(rt: &impl Abort, alloc: Global) -> Ops {
    let mut values = Values::empty(alloc);
    values.push(Value::Dec(-5, 1)).expect(rt, "memory");
    values
        .push(Value::Text(text_of(rt, alloc, "x\"y")))
        .expect(rt, "memory");
    let mut ops = Ops::empty(alloc);
    let update = op_of(rt, alloc, Act::Update, Some(Value::List(values)));
    let replace = op_of(rt, alloc, Act::Replace, Some(Value::Bool(true)));
    ops.push(update).expect(rt, "memory");
    ops.push(replace).expect(rt, "memory");
    ops.push(op_of(rt, alloc, Act::Delete, None))
        .expect(rt, "memory");
    ops
}

const OPS: &str =
    "  delete /tags[k=a\\20b]\n  replace /tags[k=a\\20b]\n    /tags[k=a\\20b] true\n  update /tags[k=a\\20b]\n    /tags[k=a\\20b] [-0.5,\"x\\22y\"]\n";

/// Whether the log of these entries is this text.
fn is_log(alloc: Global, entries: &[Entry], text: &[u8]) -> bool {
    let mut log = Bytes::empty(alloc);
    put_log(alloc, entries, &mut log).is_ok() && log.items() == text
}

/// Whether the log of one entry of this kind has this line and these of its operations.
fn is_logged(alloc: Global, kind: Kind, line: &str, rest: &str) -> bool {
    let entries = [Entry {
        number: 12,
        author: 4_294_967_295,
        stamp: 1_000,
        kind,
    }];
    match format!(in alloc; "12 1000 4294967295 {line}{rest}") {
        Ok(printed) => is_log(alloc, &entries, printed.as_bytes()),
        Err(_) => false,
    }
}

fn assert_entry(rt: &impl Abort, alloc: Global, kind: Kind, line: &str, rest: &str) {
    let is_logged = is_logged(alloc, kind, line, rest);
    assert!(rt; is_logged, "of {line}");
}

/// A trial whose deadline is this one.
fn trial_of(rt: &impl Abort, alloc: Global, deadline: u64) -> Kind {
    Kind::Trial(text_of(rt, alloc, "a]b"), ops(rt, alloc), deadline)
}

#[test]
fn each_kind_of_entry_has_its_lines(rt: HostRuntime) {
    let alloc = rt.alloc();
    let extend = Kind::Extend(18_446_744_073_709_551_615);
    assert_entry(&rt, alloc, Kind::Apply(ops(&rt, alloc)), "apply\n", OPS);
    assert_entry(&rt, alloc, Kind::Apply(Ops::empty(alloc)), "apply\n", "");
    assert_entry(
        &rt,
        alloc,
        trial_of(&rt, alloc, 60),
        "trial a\\5db 60\n",
        OPS,
    );
    assert_entry(&rt, alloc, Kind::Confirm, "confirm\n", "");
    assert_entry(&rt, alloc, Kind::Cancel, "cancel\n", "");
    assert_entry(&rt, alloc, Kind::Expire, "expire\n", "");
    assert_entry(&rt, alloc, Kind::Restart, "restart\n", "");
    assert_entry(&rt, alloc, extend, "extend 18446744073709551615\n", "");
}
