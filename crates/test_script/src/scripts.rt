use base_kinds::{Limits, MOST_LOG_ENTRIES, MOST_LOG_OCTETS};
use schema_core::Schema;
use schema_text::read_schema;
use script_run::{ScriptEnd, Transcript, run_script};
use std::alloc::Global;
use std::process::Abort;
use std::test::Fail;
use test_captures::{HOSTNAME, HOSTNAME_PRINTED, SCHEMA};

pub const LIMITS: Limits = Limits {
    entries: MOST_LOG_ENTRIES,
    octets: MOST_LOG_OCTETS,
};

fn schema(rt: &impl Abort, alloc: Global) -> Schema {
    read_schema(alloc, SCHEMA.as_bytes()).expect(rt, "a schema")
}

/// What the script prints, and how it ends.
pub fn run(rt: &impl Abort, alloc: Global, limits: Limits, script: &[u8]) -> Transcript {
    let schema = schema(rt, alloc);
    if limits.in_range() {
        return run_script(alloc, schema, limits, script).expect(rt, "memory");
    }
    panic!(rt; "limits that a log may have")
}

/// Whether the script prints this under these limits, and ends so.
pub fn prints(
    rt: &impl Abort,
    alloc: Global,
    limits: Limits,
    script: &[u8],
    printed: &str,
    ending: ScriptEnd,
) -> bool {
    let transcript = run(rt, alloc, limits, script);
    transcript.text.items() == printed.as_bytes() && transcript.ending == ending
}

/// Whether what the script prints under these limits begins with this.
pub fn begins_with(
    rt: &impl Abort,
    alloc: Global,
    limits: Limits,
    script: &[u8],
    printed: &str,
) -> bool {
    let transcript = run(rt, alloc, limits, script);
    transcript.text.items().starts_with(printed.as_bytes())
}

/// These texts, one after the other.
pub fn joined(rt: &impl Abort, alloc: Global, texts: &[&str]) -> String {
    let mut all = String::new(alloc);
    for text in texts {
        all.push_str(text).expect(rt, "memory");
    }
    all
}

/// How a script ends whose lines are all taken, or not.
fn ending_of(whole: bool) -> ScriptEnd {
    if whole {
        ScriptEnd::Whole
    } else {
        ScriptEnd::Refused
    }
}

const SCRIPTS: &[(&str, &str, bool)] = &[
    (HOSTNAME, HOSTNAME_PRINTED, true),
    ("", "log\n", true),
    ("set 7", "ok 1\nlog\n1 1 7 apply\n", true),
    // A later value stands, and each Set is an entry.
    (
        "update /system/config/motd \"x\"\nset 1\nget 9 /system\nupdate /system/config/motd \"y\"\nset 2\nget 9 /system/config/motd",
        "ok 1\nrow /system/config/motd \"x\"\nstate 1\nok 2\nrow /system/config/motd \"y\"\nstate 2\nlog\n1 1 1 apply\n  update /system/config/motd\n    /system/config/motd \"x\"\n2 2 2 apply\n  update /system/config/motd\n    /system/config/motd \"y\"\n",
        true,
    ),
    // Every row that a pattern covers, in the order of the paths.
    (
        "update /system/config/motd \"\"\nupdate /system/config/hostname \"b\"\nset 1\nget 1 /\nget 1 /*/.../motd\nget 1 /lab\nget 1 /system/*/hostname/x\n",
        "ok 1\nrow /system/config/hostname \"b\"\nrow /system/config/motd \"\"\nstate 1\nrow /system/config/motd \"\"\nstate 1\nrefused 8 5\nrefused 8 5\nlog\n1 1 1 apply\n  update /system/config/motd\n    /system/config/motd \"\"\n  update /system/config/hostname\n    /system/config/hostname \"b\"\n",
        true,
    ),
    // What is pending isn't read, and a path of 33 elements is refused.
    (
        "update /system/config/motd \"x\"\nget 1 /\nget 1 /a/a/a/a/a/a/a/a/a/a/a/a/a/a/a/a/a/a/a/a/a/a/a/a/a/a/a/a/a/a/a/a\nget 1 /a/a/a/a/a/a/a/a/a/a/a/a/a/a/a/a/a/a/a/a/a/a/a/a/a/a/a/a/a/a/a/a/a\n",
        "refused 8 5\nrefused 8 5\nrefused 5 3\nlog\n",
        true,
    ),
    // A clock that went back, one that stands still, and one behind the year 2100.
    (
        "at 5000\nset 1\nat 10\nset 1\nset 1\nat 18446744073709551615\nset 1\nset 1\n",
        "ok 5000\nok 5001\nok 5002\nok 4102444800000000000\nok 4102444800000000001\nlog\n1 5000 1 apply\n2 5001 1 apply\n3 5002 1 apply\n4 4102444800000000000 1 apply\n5 4102444800000000001 1 apply\n",
        true,
    ),
    // What is pending at the end is not in the log.
    (
        "set 1\nupdate /system/config/motd \"x\"\n",
        "ok 1\nlog\n1 1 1 apply\n",
        true,
    ),
    // What a request is refused for by itself comes at the Set, and its operations are spent.
    (
        "update /nope 1\nset 1\nupdate /system/config \"x\"\nset 1\nupdate /a/*/b 1\nset 1\nset 1\n",
        "refused 6 3\nrefused 7 3\nrefused 5 3\nok 1\nlog\n1 1 1 apply\n",
        true,
    ),
    // The deletes come first, then the replaces, then the updates.
    (
        "at 1000\nupdate /system/config/hostname \"u\"\nreplace /system/config/hostname \"r\"\ndelete /system/config/hostname\nset 1\nget 1 /system\n",
        "ok 1000\nrow /system/config/hostname \"u\"\nstate 1000\nlog\n1 1000 1 apply\n  delete /system/config/hostname\n  replace /system/config/hostname\n    /system/config/hostname \"r\"\n  update /system/config/hostname\n    /system/config/hostname \"u\"\n",
        true,
    ),
    // A delete that names nothing is accepted.
    (
        "at 1000\ndelete /interfaces/interface[name=*]/config\nset 1\n",
        "ok 1000\nlog\n1 1000 1 apply\n  delete /interfaces/interface[name=*]/config\n",
        true,
    ),
    // A value that is out of its range refuses the whole Set.
    (
        "at 1000\nupdate /system/config/hostname \"x\"\nupdate /interfaces/interface[name=e0]/config/mtu 65536\nset 1\nget 1 /\n",
        "refused 7 3\nrefused 8 5\nlog\n",
        true,
    ),
    // The greatest value of its range is taken.
    (
        "at 1000\nupdate /interfaces/interface[name=e0]/config/mtu 65535\nset 1\nget 1 /\n",
        "ok 1000\nrow /interfaces/interface[name=e0]/config/mtu 65535\nrow /interfaces/interface[name=e0]/name \"e0\"\nstate 1000\nlog\n1 1000 1 apply\n  update /interfaces/interface[name=e0]/config/mtu\n    /interfaces/interface[name=e0]/config/mtu 65535\n    /interfaces/interface[name=e0]/name \"e0\"\n",
        true,
    ),
    // Values of many shapes, and a leaf that refers to none.
    (
        "at 1000\nupdate /lab {\"big\":\"18446744073709551615\",\"rate\":\"1.50\",\"blob\":\"AQI=\",\"tags\":[\"x\",\"y\"]}\nset 1\nget 1 /lab\nupdate /lab/via \"e9\"\nset 1\n",
        "ok 1000\nrow /lab/big 18446744073709551615\nrow /lab/blob b:AQI=\nrow /lab/rate 1.5\nrow /lab/tags [\"x\",\"y\"]\nstate 1000\nrefused 16 3\nlog\n1 1000 1 apply\n  update /lab\n    /lab/big 18446744073709551615\n    /lab/blob b:AQI=\n    /lab/rate 1.5\n    /lab/tags [\"x\",\"y\"]\n",
        true,
    ),
    // Lines of subscriptions of which none is open.
    ("sub / change 0\n", "log\n", true),
    ("open 1 s stream 0\n", "refused 21 3\nlog\n", true),
    ("fail 0\nturn s\n", "no stream\nlog\n", true),
    (
        "set 1\nstop 0 256\n",
        "ok 1\nscript line 2 refused\n",
        false,
    ),
    ("\n", "script line 1 refused\n", false),
    ("at 1\r\n", "script line 1 refused\n", false),
    (
        "set 1\nget 1 /a[\nset 1\n",
        "ok 1\nscript line 2 refused\n",
        false,
    ),
    ("set 1\nset 0\n", "ok 1\nscript line 2 refused\n", false),
    ("set 1\n\n", "ok 1\nscript line 2 refused\n", false),
];

#[test]
fn scripts_print_the_answers_of_one_history_and_its_log(rt: HostRuntime) -> Result<(), Fail> {
    let alloc = rt.alloc();
    for (script, printed, whole) in SCRIPTS {
        let ending = ending_of(*whole);
        assert!(rt;
            prints(&rt, alloc, LIMITS, script.as_bytes(), printed, ending),
            "of {script}"
        );
    }
    Ok(())
}

const REPLACE: &str =
    "at 1000\nupdate /interfaces/interface[name=eth0]/config {\"mtu\":1500,\"description\":\"a\"}\nset 1\nreplace /interfaces/interface[name=eth0] {\"name\":\"eth0\",\"openconfig-interfaces:config\":{\"mtu\":9000}}\n";

/// What comes behind it, and what all prints.
const REPLACED: &[(&str, &str, bool)] = &[
    (
        "update /interfaces/interface[name=eth0]/config/description \"b\"\nset 1\nget 1 /interfaces\n",
        "ok 1000\nok 1001\nrow /interfaces/interface[name=eth0]/config/description \"b\"\nrow /interfaces/interface[name=eth0]/config/mtu 9000\nrow /interfaces/interface[name=eth0]/name \"eth0\"\nstate 1001\nlog\n1 1000 1 apply\n  update /interfaces/interface[name=eth0]/config\n    /interfaces/interface[name=eth0]/config/description \"a\"\n    /interfaces/interface[name=eth0]/config/mtu 1500\n    /interfaces/interface[name=eth0]/name \"eth0\"\n2 1001 1 apply\n  replace /interfaces/interface[name=eth0]\n    /interfaces/interface[name=eth0]/config/mtu 9000\n    /interfaces/interface[name=eth0]/name \"eth0\"\n  update /interfaces/interface[name=eth0]/config/description\n    /interfaces/interface[name=eth0]/config/description \"b\"\n    /interfaces/interface[name=eth0]/name \"eth0\"\n",
        true,
    ),
    (
        "set 1\nget 1 /interfaces\n!",
        "ok 1000\nok 1001\nrow /interfaces/interface[name=eth0]/config/mtu 9000\nrow /interfaces/interface[name=eth0]/name \"eth0\"\nstate 1001\nscript line 7 refused\n",
        false,
    ),
];

/// Whether these lines behind the replace print this.
fn replace_prints(rt: &impl Abort, alloc: Global, rest: &str, printed: &str, whole: bool) -> bool {
    let script = joined(rt, alloc, &[REPLACE, rest]);
    prints(
        rt,
        alloc,
        LIMITS,
        script.as_bytes(),
        printed,
        ending_of(whole),
    )
}

#[test]
fn a_replace_leaves_only_its_own_rows(rt: HostRuntime) -> Result<(), Fail> {
    let alloc = rt.alloc();
    for (rest, printed, whole) in REPLACED {
        assert!(rt;
            replace_prints(&rt, alloc, rest, printed, *whole),
            "of {rest}"
        );
    }
    Ok(())
}

/// An update of the hostname with so many octets, the line that makes it a request, and what is behind it.
pub fn long_hostname(
    rt: &impl Abort,
    alloc: Global,
    count: usize,
    line: &str,
    rest: &str,
) -> String {
    let mut script = String::from_str(alloc, "update /system/config/hostname \"").expect(
        rt, "memory",
    );
    for _ in 0..count {
        script.push_str("h").expect(rt, "memory");
    }
    script.push_str("\"\n").expect(rt, "memory");
    script.push_str(line).expect(rt, "memory");
    script.push_str(rest).expect(rt, "memory");
    script
}

/// Limits of a short log.
pub const SHORT: Limits = Limits {
    entries: 2,
    octets: 4_096,
};

/// Limits, the octets of a hostname, and what a Set of it prints with a line behind it that is none.
const LIMITED: &[(Limits, usize, &str)] = &[
    (LIMITS, 316_644, "ok 1\nscript line 3 refused\n"),
    (LIMITS, 316_645, "refused 17 8\nscript line 3 refused\n"),
    (SHORT, 3_971, "ok 1\nscript line 3 refused\n"),
    (SHORT, 3_972, "refused 18 8\nscript line 3 refused\n"),
];

fn hostname_prints(
    rt: &impl Abort,
    alloc: Global,
    limits: Limits,
    count: usize,
    printed: &str,
) -> bool {
    let script = long_hostname(rt, alloc, count, "set 1\n", "!");
    prints(
        rt,
        alloc,
        limits,
        script.as_bytes(),
        printed,
        ScriptEnd::Refused,
    )
}

#[test]
fn a_tree_and_a_log_have_limits(rt: HostRuntime) -> Result<(), Fail> {
    let alloc = rt.alloc();
    for (limits, count, printed) in LIMITED {
        assert!(rt;
            hostname_prints(&rt, alloc, *limits, *count, printed),
            "{count} octets"
        );
    }
    let printed = "ok 1\nok 2\nrefused 18 8\nlog\n1 1 1 apply\n2 2 1 apply\n";
    let three = b"set 1\nset 1\nset 1\n";
    assert!(rt; prints(&rt, alloc, SHORT, three, printed, ScriptEnd::Whole));
    Ok(())
}

/// An operation that waits for a Set, in a line of so many octets.
fn push_operation(rt: &impl Abort, script: &mut Vec<u8>, octets: usize) {
    script.extend_from_slice(b"update / ").expect(rt, "memory");
    for _ in 9..octets {
        script.push(b'1').expect(rt, "memory");
    }
    script.push(b'\n').expect(rt, "memory");
}

/// The octets of a line, and what it prints.
const LINES: &[(usize, &str)] = &[(1_048_576, "log\n"), (1_048_577, "script line 1 refused\n")];

fn line_prints(rt: &impl Abort, alloc: Global, octets: usize, printed: &str) -> bool {
    let mut script = Vec::new(alloc);
    push_operation(rt, &mut script, octets);
    begins_with(rt, alloc, LIMITS, &script, printed)
}

#[test]
fn a_line_has_1_048_576_octets_at_most(rt: HostRuntime) -> Result<(), Fail> {
    let alloc = rt.alloc();
    for (octets, printed) in LINES {
        assert!(rt;
            line_prints(&rt, alloc, *octets, printed),
            "{octets} octets"
        );
    }
    Ok(())
}

/// The octets of a last line, and what is printed of 63 lines of 1,048,576 octets, their line feeds counted, and this one: as
/// many, or one octet more.
const LAST_LINES: &[(usize, &str)] = &[
    (1_048_575, "log\n"),
    (1_048_576, "script line 64 refused\n"),
];

fn lines_print(rt: &impl Abort, alloc: Global, last: usize, printed: &str) -> bool {
    let mut script = Vec::new(alloc);
    for _ in 0..63 {
        push_operation(rt, &mut script, 1_048_575);
    }
    push_operation(rt, &mut script, last);
    begins_with(rt, alloc, LIMITS, &script, printed)
}

#[test]
fn a_script_has_67_108_864_octets_at_most(rt: HostRuntime) -> Result<(), Fail> {
    let alloc = rt.alloc();
    for (last, printed) in LAST_LINES {
        assert!(rt; lines_print(&rt, alloc, *last, printed), "{last} octets");
    }
    Ok(())
}

/// A script of so many lines that print nothing.
fn many_lines(rt: &impl Abort, alloc: Global, count: u32) -> Vec<u8> {
    let mut script = Vec::new(alloc);
    for _ in 0..count {
        script.extend_from_slice(b"at 1\n").expect(rt, "memory");
    }
    script
}

fn many_lines_print(rt: &impl Abort, alloc: Global, count: u32, printed: &str) -> bool {
    let script = many_lines(rt, alloc, count);
    prints(rt, alloc, LIMITS, &script, printed, ScriptEnd::Whole)
}

#[test]
fn a_script_may_have_many_lines(rt: HostRuntime) -> Result<(), Fail> {
    let alloc = rt.alloc();
    assert!(rt; many_lines_print(&rt, alloc, 70_000, "log\n"));
    Ok(())
}
