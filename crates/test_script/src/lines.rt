use base_kinds::{Act, Bytes, Fill, ListMode, Path, Span, SubLine, SubMode, Text};
use path_core::read_path_text;
use script_text::{Line, LineFault, next_line, read_line};
use std::alloc::Global;
use std::process::Abort;
use std::test::Fail;

fn text(rt: &impl Abort, alloc: Global, octets: &str) -> Text {
    Text::of(alloc, octets.as_bytes()).expect(rt, "memory")
}

fn path(rt: &impl Abort, alloc: Global, octets: &str) -> Path {
    read_path_text(alloc, octets.as_bytes()).expect(rt, "memory")
}

fn add(rt: &impl Abort, alloc: Global, act: Act, octets: &str, value: &str) -> Line {
    let mut read = Bytes::empty(alloc);
    read.extend_from_slice(value.as_bytes())
        .expect(rt, "memory");
    Line::Add(act, path(rt, alloc, octets), read)
}

fn change(rt: &impl Abort, alloc: Global, octets: &str, heartbeat: u64) -> Line {
    Line::Sub(SubLine {
        path: path(rt, alloc, octets),
        mode: SubMode::Change,
        interval: 0,
        suppress: false,
        heartbeat,
    })
}

fn sample(
    rt: &impl Abort,
    alloc: Global,
    octets: &str,
    interval: u64,
    heartbeat: u64,
    suppress: bool,
) -> Line {
    Line::Sub(SubLine {
        path: path(rt, alloc, octets),
        mode: SubMode::Sample,
        interval,
        suppress,
        heartbeat,
    })
}

fn is_line(alloc: Global, octets: &str, meant: &Line) -> bool {
    match read_line(alloc, octets.as_bytes()) {
        Ok(line) => line == *meant,
        Err(_) => false,
    }
}

/// The line is read as this one. (A call a line costs its proof less than a table, which would have to be let go row by row.)
fn assert_line(rt: &impl Abort, alloc: Global, octets: &str, meant: Line) {
    let is_read = is_line(alloc, octets, &meant);
    drop(meant);
    assert!(rt; is_read, "{octets}");
}

#[test]
fn sets_are_taken(rt: HostRuntime) {
    let alloc = rt.alloc();
    let json = "{\"a\": [1,  2]} ";
    assert_line(&rt, alloc, "at 0", Line::At(0));
    assert_line(&rt, alloc, "at 18446744073709551615", Line::At(u64::MAX));
    assert_line(&rt, alloc, "set 1", Line::Set(1));
    assert_line(&rt, alloc, "set 4294967295", Line::Set(4_294_967_295));
    assert_line(
        &rt,
        alloc,
        "delete /",
        add(&rt, alloc, Act::Delete, "/", ""),
    );
    assert_line(
        &rt,
        alloc,
        "delete /a/.../b[k=*]",
        add(&rt, alloc, Act::Delete, "/a/.../b[k=*]", ""),
    );
    assert_line(
        &rt,
        alloc,
        "replace /a {\"a\": [1,  2]} ",
        add(&rt, alloc, Act::Replace, "/a", json),
    );
    assert_line(
        &rt,
        alloc,
        "update /l[k=x\\20y] \u{e9}\r",
        add(&rt, alloc, Act::Update, "/l[k=x\\20y]", "\u{e9}\r"),
    );
    assert_line(
        &rt,
        alloc,
        "update /a ",
        add(&rt, alloc, Act::Update, "/a", ""),
    );
    assert_line(
        &rt,
        alloc,
        "update /a  1",
        add(&rt, alloc, Act::Update, "/a", " 1"),
    );
}

#[test]
fn trials_are_taken(rt: HostRuntime) {
    let alloc = rt.alloc();
    let last = Span::Of(i64::MAX, 0);
    assert_line(
        &rt,
        alloc,
        "trial 1 t 60",
        Line::Trial(1, text(&rt, alloc, "t"), Span::Of(60, 0)),
    );
    assert_line(
        &rt,
        alloc,
        "trial 1  60",
        Line::Trial(1, text(&rt, alloc, ""), Span::Of(60, 0)),
    );
    assert_line(
        &rt,
        alloc,
        "trial 1 t -",
        Line::Trial(1, text(&rt, alloc, "t"), Span::Absent),
    );
    assert_line(
        &rt,
        alloc,
        "trial 2 t 0",
        Line::Trial(2, text(&rt, alloc, "t"), Span::Of(0, 0)),
    );
    assert_line(
        &rt,
        alloc,
        "trial 2 t 9223372036854775807",
        Line::Trial(2, text(&rt, alloc, "t"), last),
    );
    assert_line(
        &rt,
        alloc,
        "trial 2 t 9223372036854775808",
        Line::Trial(2, text(&rt, alloc, "t"), last),
    );
    assert_line(
        &rt,
        alloc,
        "extend 2 t 18446744073709551615",
        Line::Extend(2, text(&rt, alloc, "t"), last),
    );
    assert_line(
        &rt,
        alloc,
        "confirm 3 a[/*\\20\\5d\\5c",
        Line::Confirm(3, text(&rt, alloc, "a[/* ]\\")),
    );
    assert_line(
        &rt,
        alloc,
        "confirm 3 ",
        Line::Confirm(3, text(&rt, alloc, "")),
    );
    assert_line(
        &rt,
        alloc,
        "cancel 3 \\c3\\a9",
        Line::Cancel(3, text(&rt, alloc, "\u{e9}")),
    );
}

#[test]
fn reads_and_calls_are_taken(rt: HostRuntime) {
    let alloc = rt.alloc();
    let name = "_.-9Z";
    assert_line(&rt, alloc, "get 1 /", Line::Get(1, path(&rt, alloc, "/")));
    assert_line(
        &rt,
        alloc,
        "get 7 /.../*[k=]",
        Line::Get(7, path(&rt, alloc, "/.../*[k=]")),
    );
    assert_line(&rt, alloc, "sub / change 0", change(&rt, alloc, "/", 0));
    assert_line(
        &rt,
        alloc,
        "sub /a change 18446744073709551615",
        change(&rt, alloc, "/a", u64::MAX),
    );
    assert_line(
        &rt,
        alloc,
        "sub /a sample 5 6 1",
        sample(&rt, alloc, "/a", 5, 6, true),
    );
    assert_line(
        &rt,
        alloc,
        "sub /a sample 0 0 0",
        sample(&rt, alloc, "/a", 0, 0, false),
    );
    assert_line(
        &rt,
        alloc,
        "open 2 s stream 0",
        Line::Open(2, text(&rt, alloc, "s"), ListMode::Stream, false),
    );
    assert_line(
        &rt,
        alloc,
        "open 2 s once 1",
        Line::Open(2, text(&rt, alloc, "s"), ListMode::Once, true),
    );
    assert_line(
        &rt,
        alloc,
        "open 2 _.-9Z poll 0",
        Line::Open(2, text(&rt, alloc, name), ListMode::Poll, false),
    );
    assert_line(&rt, alloc, "turn s", Line::Turn(text(&rt, alloc, "s")));
    assert_line(&rt, alloc, "poll s", Line::Poll(text(&rt, alloc, "s")));
    assert_line(&rt, alloc, "end s", Line::End(text(&rt, alloc, "s")));
    assert_line(&rt, alloc, "stop 0 old", Line::Stop(0, Fill::Old));
    assert_line(&rt, alloc, "stop 7 new", Line::Stop(7, Fill::New));
    assert_line(
        &rt,
        alloc,
        "stop 18446744073709551615 255",
        Line::Stop(u64::MAX, Fill::Octet(255)),
    );
    assert_line(&rt, alloc, "fail 3", Line::Fail(3));
}

const REFUSED: &[&str] = &[
    "",
    " ",
    "at",
    "at ",
    "at 00",
    "at 01",
    "at +1",
    "at -1",
    "at 1 ",
    "at  1",
    "at 1a",
    " at 1",
    "At 1",
    "at 18446744073709551616",
    "at 1\r",
    "set 0",
    "set 01",
    "set 4294967296",
    "set 18446744073709551616",
    "set 1 2",
    "commit",
    "commit 1",
    "delete",
    "delete ",
    "delete /a ",
    "delete /a 1",
    "replace /a",
    "update",
    "update ",
    "update /a",
    "update  /a 1",
    "Update /a 1",
    "update a 1",
    "update 1",
    "update //a 1",
    "update /a/ 1",
    "update /a[k=1][j=1] 1",
    "update /a[k=1 2] 1",
    "update /é 1",
    "trial 1 t",
    "trial 1 60",
    "trial 0 t 60",
    "trial 1 t ",
    "trial 1 t 060",
    "trial 1 t -1",
    "trial 1 t --",
    "trial 1 t 18446744073709551616",
    "trial 1 a b 60",
    "trial 1 a] 60",
    "trial 1 a\\ 60",
    "trial 1 a\\5D 60",
    "trial 1 \\61 60",
    "trial 1 \\c3 60",
    "trial 1 é 60",
    "trial 1 t 60 ",
    "extend 1 t",
    "confirm 1",
    "confirm 1 a b",
    "confirm 1 \u{7f}",
    "cancel t",
    "get 1",
    "get 1 ",
    "get 0 /",
    "get /",
    "get 1 a",
    "get 1  /",
    "get 1 / ",
    "sub / change",
    "sub / change ",
    "sub / change 1 0",
    "sub / sample 1 2",
    "sub / sample 1 2 2",
    "sub / sample 1 2 00",
    "sub / sample 1  1",
    "sub / other 1",
    "sub change 1",
    "open 1 s stream",
    "open 1 s stream 2",
    "open 1 s Stream 0",
    "open 1 s other 0",
    "open 1 9 stream 0",
    "open 1  stream 0",
    "open 0 s stream 0",
    "open s stream 0",
    "turn",
    "turn ",
    "turn .s",
    "turn s s",
    "poll a*",
    "end é",
    "stop 1",
    "stop 1 256",
    "stop 1 00",
    "stop 1 Old",
    "stop old",
    "fail -",
];

fn is_refused(alloc: Global, line: &[u8]) -> bool {
    read_line(alloc, line) == Err(LineFault::NoLine)
}

#[test]
fn other_lines_are_refused(rt: HostRuntime) {
    let alloc = rt.alloc();
    for line in REFUSED {
        assert!(rt; is_refused(alloc, line.as_bytes()), "{line}");
    }
    assert!(rt; is_refused(alloc, b"at \xff"));
}

/// A front, what stands behind it so many times, and whether all is no line.
const LONG: &[(&str, &str, usize, bool)] = &[
    ("update /a ", "x", 1_048_566, false),
    ("update /a ", "x", 1_048_567, true),
    ("turn a", "n", 63, false),
    ("turn a", "n", 64, true),
    ("get 1 ", "/a", 40, false),
];

fn repeated(rt: &impl Abort, alloc: Global, front: &str, middle: &str, times: usize) -> Vec<u8> {
    let mut line = Vec::new(alloc);
    line.extend_from_slice(front.as_bytes())
        .expect(rt, "memory");
    for _ in 0..times {
        line.extend_from_slice(middle.as_bytes())
            .expect(rt, "memory");
    }
    line
}

#[test]
fn the_longest_line_and_name(rt: HostRuntime) {
    let alloc = rt.alloc();
    for (front, middle, times, refused) in LONG {
        let is_refused = is_refused(alloc, &repeated(&rt, alloc, front, middle, *times));
        assert!(rt; is_refused == *refused, "{front}{middle} x {times}");
    }
}

/// A text, its first line, and what is behind that.
const TEXTS: &[(&str, &str, &str)] = &[
    ("at 1\nset 1\n", "at 1", "set 1\n"),
    ("set 1\n", "set 1", ""),
    ("set 1", "set 1", ""),
    ("\n\na", "", "\na"),
];

#[test]
fn a_text_goes_line_by_line(rt: HostRuntime) {
    for (text, line, rest) in TEXTS {
        let next = next_line(text.as_bytes());
        assert!(rt; next == Some((line.as_bytes(), rest.as_bytes())), "{text}");
    }
    assert!(rt; next_line(b"").is_none());
}
