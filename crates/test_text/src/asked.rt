//! Requests of a table, and what becomes of them as a text.
use crate::builders::{octets_of, path_of, schema_of, text_of};
use base_kinds::{
    Act, Action, Ask, Bytes, Change, Changes, Given, Op, Path, Paths, Refusal, Row, Text,
    UnresolvedSet, Value, Values,
};
use path_core::write_path_text;
use set_request::resolve;
use std::alloc::Global;
use std::process::Abort;
use value_core::value_text;

/// Leaves of each shape, leaf-lists, and lists with one key and with two.
pub(crate) const SCHEMA: &str = "\
module m\n\
container /system\n\
leaf /system/hostname string\n\
leaf /system/state enum(UP|DOWN)\n\
container /interfaces\n\
list /interfaces/interface name\n\
leaf /interfaces/interface/name string\n\
leaf /interfaces/interface/mtu uint16\n\
container /lab\n\
leaf /lab/on bool\n\
leaf /lab/low int8\n\
leaf /lab/big int64\n\
leaf /lab/count uint64\n\
leaf /lab/rate dec2\n\
leaf /lab/blob binary\n\
leaf-list /lab/tag string\n\
leaf-list /lab/port uint16\n\
leaf-list /lab/up enum(UP|DOWN)\n\
list /lab/route port,id\n\
leaf /lab/route/port uint16\n\
leaf /lab/route/id dec2\n\
leaf /lab/route/key binary\n\
container /lab/route/next\n\
";

/// A value in a table, as of a request: JSON, a scalar, or none where it is missing or the operation is a delete.
#[derive(Clone, Copy)]
pub(crate) enum Sent {
    Nothing,
    Json(&'static str),
    Bool(bool),
    Int(i64),
    Uint(u64),
    Dec(i64, u8),
    Text(&'static str),
    Bin(&'static [u8]),
    Enum(&'static str),
    Texts(&'static [&'static str]),
    /// So many texts, of which the last is that with this number.
    Words(u32, u32),
    Uints(&'static [u64]),
    /// A list in a list.
    Nested,
}

fn words(rt: &impl Abort, alloc: Global, count: u32, last: u32) -> Value {
    let mut values = Values::empty(alloc);
    for place in 0..count {
        let number = if place + 1 == count { last } else { place };
        let text = format!(in alloc; "w{number}").expect(rt, "memory");
        let value = Value::Text(text_of(rt, alloc, text.as_str()));
        values.push(value).expect(rt, "memory");
    }
    Value::List(values)
}

pub(crate) fn value_of(rt: &impl Abort, alloc: Global, sent: Sent) -> Value {
    match sent {
        Sent::Bool(is) => Value::Bool(is),
        Sent::Int(number) => Value::Int(number),
        Sent::Uint(number) => Value::Uint(number),
        Sent::Dec(digits, places) => Value::Dec(digits, places),
        Sent::Text(text) => Value::Text(text_of(rt, alloc, text)),
        Sent::Bin(octets) => Value::Bin(octets_of(rt, alloc, octets)),
        Sent::Enum(text) => Value::Enum(text_of(rt, alloc, text)),
        Sent::Texts(texts) => {
            let mut values = Values::empty(alloc);
            for text in texts {
                let value = Value::Text(text_of(rt, alloc, text));
                values.push(value).expect(rt, "memory");
            }
            Value::List(values)
        }
        Sent::Words(count, last) => words(rt, alloc, count, last),
        Sent::Uints(numbers) => {
            let mut values = Values::empty(alloc);
            for number in numbers {
                values.push(Value::Uint(*number)).expect(rt, "memory");
            }
            Value::List(values)
        }
        Sent::Nested | Sent::Nothing | Sent::Json(_) => {
            let mut values = Values::empty(alloc);
            values
                .push(Value::List(Values::empty(alloc)))
                .expect(rt, "memory");
            Value::List(values)
        }
    }
}

/// A request without operations behind this prefix.
pub(crate) fn nothing(
    rt: &impl Abort,
    alloc: Global,
    prefix: Path,
    action: Action,
) -> UnresolvedSet {
    UnresolvedSet {
        prefix,
        target: text_of(rt, alloc, ""),
        deletes: Paths::empty(alloc),
        replaces: Changes::empty(alloc),
        updates: Changes::empty(alloc),
        action,
        unsupported: false,
    }
}

fn given_of(rt: &impl Abort, alloc: Global, sent: &Sent) -> Given {
    match sent {
        Sent::Nothing => Given::Missing,
        Sent::Json(json) => Given::Json(octets_of(rt, alloc, json.as_bytes())),
        _ => Given::Scalar(value_of(rt, alloc, *sent)),
    }
}

fn add_change(rt: &impl Abort, alloc: Global, changes: &mut Changes, text: &str, sent: &Sent) {
    let path = path_of(rt, alloc, text);
    let given = given_of(rt, alloc, sent);
    changes.push(Change { path, given }).expect(rt, "memory")
}

/// Adds an operation: its word, its path, and its value.
fn add(
    rt: &impl Abort,
    alloc: Global,
    ask: &mut UnresolvedSet,
    (word, text, sent): &(&str, &str, Sent),
) {
    match *word {
        "delete" => ask
            .deletes
            .push(path_of(rt, alloc, text))
            .expect(rt, "memory"),
        "replace" => add_change(rt, alloc, &mut ask.replaces, text, sent),
        _ => add_change(rt, alloc, &mut ask.updates, text, sent),
    }
}

/// A request with these operations, behind this prefix and with this action.
pub(crate) fn request(
    rt: &impl Abort,
    alloc: Global,
    prefix: &str,
    lines: &[(&str, &str, Sent)],
    action: Action,
) -> UnresolvedSet {
    let mut ask = nothing(rt, alloc, path_of(rt, alloc, prefix), action);
    for line in lines {
        add(rt, alloc, &mut ask, line);
    }
    ask
}

fn word_of(act: Act) -> &'static str {
    match act {
        Act::Delete => "delete",
        Act::Replace => "replace",
        Act::Update => "update",
    }
}

pub(crate) fn put(rt: &impl Abort, text: &mut Bytes, more: &str) {
    text.extend_from_slice(more.as_bytes()).expect(rt, "memory");
}

fn put_row(rt: &impl Abort, alloc: Global, row: &Row, text: &mut Bytes) {
    put(rt, text, " ");
    write_path_text(alloc, &row.path, text).expect(rt, "memory");
    put(rt, text, "=");
    value_text(alloc, &row.value, text).expect(rt, "memory");
}

/// `; WORD PATH: ROW ROW` for each operation.
fn put_ops(rt: &impl Abort, alloc: Global, ops: &[Op], text: &mut Bytes) {
    for op in ops {
        put(rt, text, "; ");
        put(rt, text, word_of(op.act));
        put(rt, text, " ");
        write_path_text(alloc, &op.path, text).expect(rt, "memory");
        put(rt, text, ":");
        for row in op.rows.items() {
            put_row(rt, alloc, row, text);
        }
    }
}

pub(crate) fn put_number(rt: &impl Abort, alloc: Global, number: u64, text: &mut Bytes) {
    let digits = format!(in alloc; " {number}").expect(rt, "memory");
    put(rt, text, digits.as_str());
}

pub(crate) fn refused(rt: &impl Abort, alloc: Global, refusal: Refusal) -> Bytes {
    let mut text = octets_of(rt, alloc, b"refused");
    put_number(rt, alloc, u64::from(refusal.number()), &mut text);
    text
}

fn applied(rt: &impl Abort, alloc: Global, ops: &[Op]) -> Bytes {
    let mut text = octets_of(rt, alloc, b"apply");
    put_ops(rt, alloc, ops, &mut text);
    text
}

fn named(rt: &impl Abort, alloc: Global, word: &str, id: &Text) -> Bytes {
    let mut text = octets_of(rt, alloc, word.as_bytes());
    text.extend_from_slice(id.octets()).expect(rt, "memory");
    text
}

fn timed(rt: &impl Abort, alloc: Global, word: &str, id: &Text, nanos: u64, ops: &[Op]) -> Bytes {
    let mut text = named(rt, alloc, word, id);
    put_number(rt, alloc, nanos, &mut text);
    put_ops(rt, alloc, ops, &mut text);
    text
}

fn asked(rt: &impl Abort, alloc: Global, ask: &Ask) -> Bytes {
    match ask {
        Ask::Apply(ops) => applied(rt, alloc, ops.items()),
        Ask::Trial(id, ops, nanos) => timed(rt, alloc, "trial ", id, *nanos, ops.items()),
        Ask::Confirm(id) => named(rt, alloc, "confirm ", id),
        Ask::Cancel(id) => named(rt, alloc, "cancel ", id),
        Ask::Extend(id, nanos) => timed(rt, alloc, "extend ", id, *nanos, &[]),
    }
}

/// What becomes of the request in the schema.
pub(crate) fn resolved(rt: &impl Abort, alloc: Global, ask: UnresolvedSet) -> Result<Ask, Refusal> {
    let schema = schema_of(rt, alloc, SCHEMA);
    let resolved = resolve(alloc, &schema, &ask);
    drop(schema);
    drop(ask);
    resolved
}

/// What becomes of the request, as a text.
pub(crate) fn answer(rt: &impl Abort, alloc: Global, ask: UnresolvedSet) -> Bytes {
    match resolved(rt, alloc, ask) {
        Err(refusal) => refused(rt, alloc, refusal),
        Ok(ask) => {
            let text = asked(rt, alloc, &ask);
            drop(ask);
            text
        }
    }
}

/// Whether this text is what becomes of the request.
pub(crate) fn is_answered(
    rt: &impl Abort,
    alloc: Global,
    ask: UnresolvedSet,
    expected: &str,
) -> bool {
    answer(rt, alloc, ask).items() == expected.as_bytes()
}

fn assert_shown(rt: &impl Abort, answer: &[u8], expected: &str) {
    let shown = std::str::from_utf8(answer).expect(rt, "a text");
    assert!(rt; shown == expected, "{shown:?} for {expected}");
}

pub(crate) fn assert_answer(rt: &impl Abort, alloc: Global, ask: UnresolvedSet, expected: &str) {
    assert_shown(rt, answer(rt, alloc, ask).items(), expected)
}
