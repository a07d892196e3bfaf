use crate::host::{Given, NOTHING, run_with};
use std::alloc::Global;
use std::process::Abort;
use std::sync::Wait;
use std::test::Fail;
use std::thread::Threads;
use test_captures::{HOSTNAME, HOSTNAME_PRINTED, SCHEMA};

/// Whether the words print this over this input and this text of a file, where these writes fail, and end so.
fn prints<'a>(
    rt: &(impl Abort + Threads + Wait + Copy + Drop + Send + Sync + 'static),
    alloc: Global,
    words: &str,
    schema: &'a str,
    script: &'a str,
    bad_writes: &'a [u64],
    printed: &str,
    status: u8,
) -> bool {
    let given = Given {
        schema: Some(schema.as_bytes()),
        input: script.as_bytes(),
        bad_writes,
        ..NOTHING
    };
    let end = run_with(rt, alloc, words, &given);
    let is_printed = end.output.octets() == printed.as_bytes() && end.status == status;
    drop(end);
    is_printed
}

/// Whether the words print this over an input that fails at its first read and this text of a file, where these writes fail, and
/// end with this status, so many faults of the files and so many reads of the input.
fn fails_so<'a>(
    rt: &(impl Abort + Threads + Wait + Copy + Drop + Send + Sync + 'static),
    alloc: Global,
    words: &str,
    schema: Option<&'a [u8]>,
    bad_writes: &'a [u64],
    printed: &str,
    wanted: (u8, u64, u64),
) -> bool {
    let given = Given {
        schema,
        bad_reads: &[1],
        bad_writes,
        ..NOTHING
    };
    let end = run_with(rt, alloc, words, &given);
    let is_printed = end.output.octets() == printed.as_bytes();
    let found = (end.status, end.file_faults, end.reads);
    drop(end);
    is_printed && found == wanted
}

/// Whether a script's run, octet by octet, writes this where these reads and writes fail, and ends so.
fn drips<'a>(
    rt: &(impl Abort + Threads + Wait + Copy + Drop + Send + Sync + 'static),
    alloc: Global,
    script: &'a str,
    bad_reads: &'a [u64],
    bad_writes: &'a [u64],
    written: &[u8],
    status: u8,
) -> bool {
    let given = Given {
        schema: Some(SCHEMA.as_bytes()),
        input: script.as_bytes(),
        bad_reads,
        bad_writes,
        by_octets: true,
        ..NOTHING
    };
    let end = run_with(rt, alloc, "script S", &given);
    let is_written = end.output.octets() == written && end.status == status;
    drop(end);
    is_written
}

/// Words, a script, what is printed, and the status.
const SCRIPTS: &[(&str, &str, &str, u8)] = &[
    ("script S", HOSTNAME, HOSTNAME_PRINTED, 0),
    ("script S", "get 1 /\n", "refused 8 5\nlog\n", 0),
    ("script S", "set 1\n\n", "ok 1\nscript line 2 refused\n", 9),
    (
        "script S",
        "stop 0 old\nfail 1\nset 1\n",
        "stopped\ndisk fault\n",
        5,
    ),
    (
        "script S 2 4096",
        "set 1\nset 1\nset 1\n",
        "ok 1\nok 2\nrefused 18 8\nlog\n1 1 1 apply\n2 2 1 apply\n",
        0,
    ),
];

#[test]
fn a_script_runs_under_its_schema_and_limits(rt: HostRuntime) -> Result<(), Fail> {
    let alloc = rt.alloc();
    for (words, script, printed, status) in SCRIPTS {
        assert!(rt;
            prints(&rt, alloc, words, SCHEMA, script, &[], printed, *status),
            "of {script}"
        );
    }
    let printed = HOSTNAME_PRINTED.as_bytes();
    assert!(rt;
        drips(&rt, alloc, HOSTNAME, &[], &[], printed, 0),
        "octet by octet"
    );
    let none = "refused 8 5\nlog\n";
    assert!(rt;
        prints(&rt, alloc, "script S", "", "get 1 /\n", &[], none, 0),
        "no nodes"
    );
    Ok(())
}

const BAD_WORDS: &[&str] = &[
    "",
    "script",
    "scripts S",
    "Script S",
    "script S x",
    "script S 2",
    "script S 2 4096 1",
    "script S 1 4096",
    "script S 2 4095",
    "script S 65537 4096",
    "script S 2 268435457",
    "script S 02 4096",
    "script S 2 +4096",
    "script S 4294967298 4096",
    "log",
    "log J 1",
    "init",
    "init J 2",
    "init J 1 4096",
    "init J 2 4096 1",
    "check",
    "check a b",
    "load 7",
    "load 7 0",
    "load 7 65537",
    "load 07 1",
    "load 18446744073709551616 1",
    "load 7 1 1",
    "checks a",
    "--help S",
    "--version 1",
    "-help",
    "help",
    "--Version",
];

#[test]
fn other_words_are_refused(rt: HostRuntime) -> Result<(), Fail> {
    let alloc = rt.alloc();
    for words in BAD_WORDS {
        assert!(rt;
            prints(&rt, alloc, words, SCHEMA, "set 1\n", &[], "bad words\n", 2),
            "{words}"
        );
    }
    // An output that fails leaves the status.
    assert!(rt; prints(&rt, alloc, "log", SCHEMA, "set 1\n", &[1], "", 2));
    Ok(())
}

/// A schema's text, what is printed of it, and the status.
const SCHEMAS: &[(&str, &str, u8)] = &[
    (SCHEMA, "schema ok 17\n", 0),
    ("", "schema ok 0\n", 0),
    (
        "module m\nleaf /a/b string\n",
        "schema line 2: no parent\n",
        3,
    ),
];

#[test]
fn a_schema_is_checked(rt: HostRuntime) -> Result<(), Fail> {
    let alloc = rt.alloc();
    for (text, printed, status) in SCHEMAS {
        let octets = Some(text.as_bytes());
        assert!(rt;
            fails_so(&rt, alloc, "check S", octets, &[], printed, (*status, 0, 0)),
            "of {text}"
        );
        assert!(rt;
            fails_so(&rt, alloc, "check S", octets, &[1], "", (7, 0, 0)),
            "of {text}"
        );
    }
    assert!(rt; fails_so(&rt, alloc, "check S", None, &[], "input fault\n", (6, 1, 0)));
    Ok(())
}

#[test]
fn a_script_is_read_only_under_a_schema(rt: HostRuntime) -> Result<(), Fail> {
    let alloc = rt.alloc();
    let none = Some(b"module m\nleaf /a/b string\n".as_slice());
    let fault = "schema line 2: no parent\n";
    let good = Some(SCHEMA.as_bytes());
    assert!(rt;
        fails_so(
            &rt,
            alloc,
            "script S",
            None,
            &[],
            "input fault\n",
            (6, 1, 0)
        )
    );
    assert!(rt; fails_so(&rt, alloc, "script S", none, &[], fault, (3, 0, 0)));
    assert!(rt;
        fails_so(
            &rt,
            alloc,
            "script S",
            good,
            &[],
            "input fault\n",
            (6, 0, 1)
        )
    );
    assert!(rt; fails_so(&rt, alloc, "script S", none, &[1], "", (7, 0, 0)));
    Ok(())
}

#[test]
fn an_input_that_fails_ends_with_6(rt: HostRuntime) -> Result<(), Fail> {
    let alloc = rt.alloc();
    // Octet by octet there is a read for each octet, and one at the end.
    for call in 1..=HOSTNAME.len() as u64 + 1 {
        assert!(rt;
            drips(&rt, alloc, HOSTNAME, &[call], &[], b"input fault\n", 6),
            "read {call}"
        );
    }
    Ok(())
}

#[test]
fn an_output_that_fails_ends_with_7(rt: HostRuntime) -> Result<(), Fail> {
    let alloc = rt.alloc();
    let printed = HOSTNAME_PRINTED.as_bytes();
    for front in 0..printed.len() {
        assert!(rt;
            drips(
                &rt,
                alloc,
                HOSTNAME,
                &[],
                &[front as u64 + 1],
                &printed[..front],
                7
            ),
            "write {front}"
        );
    }
    Ok(())
}

#[test]
fn an_input_that_gives_octets_and_then_fails_is_told_as_such(rt: HostRuntime) -> Result<(), Fail> {
    let alloc = rt.alloc();
    // A whole Set is read before the read that fails, and isn't answered.
    assert!(rt; drips(&rt, alloc, "set 1\nset 1\n", &[7], &[], b"input fault\n", 6));
    Ok(())
}

const HELP: &str =
    "check SCHEMA: print how many nodes the schema in the file SCHEMA has, or its first fault\ninit JOURNAL: write a journal without entries into the file JOURNAL, which must be empty or not there yet\ninit JOURNAL ENTRIES OCTETS: the same, for a log of at most ENTRIES entries and OCTETS octets\nlog JOURNAL: print the commit log in the journal in the file JOURNAL\nscript SCHEMA: run the script on standard input under the schema, and print its answers and its log\nscript SCHEMA ENTRIES OCTETS: the same, with a log of at most ENTRIES entries and OCTETS octets\nsession SCHEMA JOURNAL: serve one gNMI connection over standard input and output, on the journal in the file JOURNAL\nserve SCHEMA JOURNAL ADDRESS SESSIONS: accept SESSIONS gNMI connections at ADDRESS, a host and a port, and serve them side by side, on the journal in the file JOURNAL\nload SEED COUNT: serve a client that makes COUNT generated Sets over memory, and print what came of them\n--help: print these lines\n--version: print the name and the version of the program\n";

/// Words that ask for nothing but a text, and that.
const PRINTED: &[(&str, &str)] = &[("--help", HELP), ("--version", "gnmid 0.1.0\n")];

#[test]
fn help_and_version_are_printed_and_nothing_is_read(rt: HostRuntime) {
    let alloc = rt.alloc();
    for (words, printed) in PRINTED {
        assert!(rt;
            fails_so(&rt, alloc, words, None, &[], printed, (0, 0, 0)),
            "{words}"
        );
        assert!(rt;
            fails_so(&rt, alloc, words, None, &[1], "", (7, 0, 0)),
            "{words}"
        );
    }
}

/// Words with names of files that aren't there.
const UNREADABLE: &[&str] = &["check T", "script T", "check s"];

#[test]
fn a_file_is_asked_for_by_its_name(rt: HostRuntime) {
    let alloc = rt.alloc();
    let schema = Some(SCHEMA.as_bytes());
    for words in UNREADABLE {
        assert!(rt;
            fails_so(&rt, alloc, words, schema, &[], "input fault\n", (6, 1, 0)),
            "{words}"
        );
    }
}

/// Words of a load, and what they print.
const LOADS: &[(&str, &str)] = &[
    ("load 7 1", "sets 1 ok 1 entries 1 leaves 2 stamp 1000\n"),
    (
        "load 7 100",
        "sets 100 ok 100 entries 100 leaves 92 stamp 1099\n",
    ),
];

#[test]
fn a_load_is_served_and_counted(rt: HostRuntime) {
    let alloc = rt.alloc();
    for (words, printed) in LOADS {
        assert!(rt;
            fails_so(&rt, alloc, words, None, &[], printed, (0, 0, 0)),
            "{words}"
        );
        assert!(rt;
            fails_so(&rt, alloc, words, None, &[1], "", (7, 0, 0)),
            "{words}"
        );
    }
}
