//! The command that serves a connection: over files, a disk, streams and a clock in memory.
use crate::host::{End, Given, NOTHING, run_with};
use crate::journals::held;
use base_lists::Bytes;
use session_core::How;
use std::alloc::Global;
use std::process::Abort;
use std::sync::Wait;
use std::test::Fail;
use std::thread::Threads;
use test_captures::{REPLY, SCHEMA, SET};

/// The log of that Set.
const LOG: &[u8] =
    b"1 1000 1 apply\n  update /interfaces/interface[name=eth0]/config/mtu\n    /interfaces/interface[name=eth0]/config/mtu 1500\n    /interfaces/interface[name=eth0]/name \"eth0\"\n";

/// A journal without entries, of 65,536 entries and 268,435,456 octets at most.
const EMPTY_JOURNAL: &[u8] = b"GNMIJRN1\0\x01\0\0\x10\0\0\0\0";

/// Nothing stops, nothing fails, the journal has no entry, and the clock reads 5, and from then on 1000.
fn without_faults<'a>(schema: &'a str, input: &'a [u8]) -> Given<'a> {
    Given {
        schema: Some(schema.as_bytes()),
        journal: EMPTY_JOURNAL,
        input,
        readings: &[5, 1000],
        ..NOTHING
    }
}

fn ended(end: &End, status: u8, how: Option<How>, written: &[u8]) -> bool {
    end.status == status && end.how == how && end.output.octets() == written
}

/// Whether a run with these words ends so: its status, how the connection ended, and what was written.
fn ends(
    rt: &(impl Abort + Threads + Wait + Copy + Drop + Send + Sync + 'static),
    alloc: Global,
    words: &str,
    given: &Given<'_>,
    wanted: (u8, Option<How>, &[u8]),
) -> bool {
    let (status, how, written) = wanted;
    let end = run_with(rt, alloc, words, given);
    let is_wanted = ended(&end, status, how, written);
    drop(end);
    is_wanted
}

/// The journal that a session with this input leaves, where it ends so.
fn journal_left(
    rt: &(impl Abort + Threads + Wait + Copy + Drop + Send + Sync + 'static),
    alloc: Global,
    input: &[u8],
    how: How,
    status: u8,
) -> Option<Bytes> {
    let end = run_with(rt, alloc, "session S J", &without_faults(SCHEMA, input));
    let is_wanted = ended(&end, status, Some(how), REPLY);
    let journal = held(rt, alloc, end.disk);
    if is_wanted { Some(journal) } else { None }
}

#[test]
fn a_session_answers_a_set_and_leaves_it_in_the_journal(rt: HostRuntime) -> Result<(), Fail> {
    let alloc = rt.alloc();
    match journal_left(&rt, alloc, SET, How::Closed, 0) {
        Some(journal) => {
            let left = Given {
                journal: journal.items(),
                ..without_faults(SCHEMA, b"")
            };
            assert!(rt; ends(&rt, alloc, "log J", &left, (0, None, LOG)));
        }
        None => panic!(rt; "the Set is answered"),
    }
    Ok(())
}

/// The schema, the journal's octets, the input, whether the output fails, and how the run ends: its status, how the connection
/// ended, and how many octets of the reply were written.
type Row = (
    &'static str,
    &'static [u8],
    &'static [u8],
    bool,
    u8,
    Option<How>,
    usize,
);

/// A text that is no schema.
const NO_SCHEMA: &str = "module m\nleaf /a/b string\n";

const TABLE: &[Row] = &[
    (SCHEMA, EMPTY_JOURNAL, SET, false, 0, Some(How::Closed), 177),
    (SCHEMA, EMPTY_JOURNAL, b"", false, 10, Some(How::Cut), 21),
    (
        SCHEMA,
        EMPTY_JOURNAL,
        SET,
        true,
        7,
        Some(How::WriteFault),
        0,
    ),
    (NO_SCHEMA, EMPTY_JOURNAL, SET, false, 3, None, 0),
    (SCHEMA, b"", SET, false, 4, None, 0),
    (SCHEMA, b"GNMI", SET, false, 4, None, 0),
];

fn row_holds(
    rt: &(impl Abort + Threads + Wait + Copy + Drop + Send + Sync + 'static),
    alloc: Global,
    row: &Row,
) -> bool {
    let (schema, journal, input, write_fails, status, how, written) = *row;
    let given = Given {
        journal,
        bad_writes: if write_fails { &[1] } else { &[] },
        ..without_faults(schema, input)
    };
    written <= REPLY.len()
        && ends(
            rt,
            alloc,
            "session S J",
            &given,
            (status, how, &REPLY[..written]),
        )
}

#[test]
fn a_session_ends_by_its_cause_and_writes_nothing_else(rt: HostRuntime) -> Result<(), Fail> {
    let alloc = rt.alloc();
    for row in TABLE {
        assert!(rt; row_holds(&rt, alloc, row), "status {}", row.4);
    }
    Ok(())
}

#[test]
fn a_cut_session_has_answered_what_was_whole(rt: HostRuntime) -> Result<(), Fail> {
    let alloc = rt.alloc();
    match journal_left(&rt, alloc, &SET[..226], How::Cut, 10) {
        Some(journal) => {
            let unfit = Given {
                journal: journal.items(),
                ..without_faults("", SET)
            };
            assert!(rt; ends(&rt, alloc, "session S J", &unfit, (3, None, b"")));
        }
        None => panic!(rt; "the Set is answered"),
    }
    Ok(())
}

#[test]
fn a_disk_that_stops_ends_the_opening(rt: HostRuntime) -> Result<(), Fail> {
    let alloc = rt.alloc();
    for passes in 0..3 {
        let stopped = Given {
            passes,
            ..without_faults(SCHEMA, SET)
        };
        let has_ended = ends(&rt, alloc, "session S J", &stopped, (5, None, b""));
        assert!(rt; has_ended, "behind {passes} calls");
    }
    Ok(())
}
