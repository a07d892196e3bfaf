//! What the tests are made of: subscriptions and rows, each from a text.
use base_kinds::{ListMode, Path, Row, Rows, SubLine, SubLines, SubMode, Text, Value};
use gnmi_kinds::{Encoding, GnmiPath, SubAsk};
use path_core::read_path_text;
use std::alloc::Global;
use std::process::Abort;
use sub_plan::{Plan, plan_of};

/// A subscription: its path, its mode, its interval and its heartbeat in nanoseconds, and whether it has changes alone.
pub type Sub = (&'static str, SubMode, u64, u64, bool);

pub fn path_of(rt: &impl Abort, alloc: Global, text: &str) -> Path {
    read_path_text(alloc, text.as_bytes()).expect(rt, "a path")
}

pub fn line_of(rt: &impl Abort, alloc: Global, sub: Sub) -> SubLine {
    let (path, mode, interval, heartbeat, suppress) = sub;
    SubLine {
        path: path_of(rt, alloc, path),
        mode,
        interval,
        suppress,
        heartbeat,
    }
}

pub fn push_line(rt: &impl Abort, line: SubLine, lines: &mut SubLines) {
    lines.push(line).expect(rt, "memory");
}

/// The list of these subscriptions, behind this prefix.
pub fn ask_of(
    rt: &impl Abort,
    alloc: Global,
    prefix: &str,
    mode: ListMode,
    subs: &'static [Sub],
) -> SubAsk {
    let mut lines = SubLines::empty(alloc);
    for sub in subs {
        push_line(rt, line_of(rt, alloc, *sub), &mut lines);
    }
    ask_of_lines(rt, alloc, prefix, mode, lines)
}

pub fn plain_text(rt: &impl Abort, alloc: Global, octets: &[u8]) -> Text {
    Text::of(alloc, octets).expect(rt, "a text")
}

/// The list of these lines, behind this prefix.
pub fn ask_of_lines(
    rt: &impl Abort,
    alloc: Global,
    prefix: &str,
    mode: ListMode,
    lines: SubLines,
) -> SubAsk {
    SubAsk {
        prefix: GnmiPath {
            path: path_of(rt, alloc, prefix),
            origin: plain_text(rt, alloc, b"openconfig"),
            target: plain_text(rt, alloc, b"r1"),
            old_element: false,
        },
        lines,
        mode,
        updates_only: false,
        encoding: Encoding::Proto,
        unsupported: false,
    }
}

/// The plan of a list that is accepted.
pub fn accepted(rt: &impl Abort, alloc: Global, ask: &SubAsk) -> Plan {
    plan_of(alloc, ask).expect(rt, "a plan")
}

pub fn row_of(rt: &impl Abort, alloc: Global, path: &str, number: u64) -> Row {
    let path = path_of(rt, alloc, path);
    Row {
        path,
        value: Value::Uint(number),
    }
}

pub fn push_row(rt: &impl Abort, row: Row, rows: &mut Rows) {
    rows.push(row).expect(rt, "memory");
}

/// Rows of these paths and numbers.
pub fn rows_of(rt: &impl Abort, alloc: Global, rows: &'static [(&'static str, u64)]) -> Rows {
    let mut found = Rows::empty(alloc);
    for (path, number) in rows {
        push_row(rt, row_of(rt, alloc, path, *number), &mut found);
    }
    found
}
