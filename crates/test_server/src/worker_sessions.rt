use crate::folds::{fold_alike, fronts_on_streams, same_on_streams};
use crate::frames::{GET, SET, SUBSCRIBE, Step, octets_of};
use crate::worker_served::{Given, Outcome, alone, beside};
use session_core::How;
use std::alloc::Global;
use std::process::Abort;
use std::sync::Wait;
use std::thread::Threads;

/// Lists of mode STREAM: of the root, of /a and of /b; of the root with updates alone.
const STREAM: &[u8] = b"\x0a\x04\x12\x02\x0a\0";

const STREAM_A: &[u8] = b"\x0a\x09\x12\x07\x0a\x05\x1a\x03\x0a\x01a";

const STREAM_B: &[u8] = b"\x0a\x09\x12\x07\x0a\x05\x1a\x03\x0a\x01b";

const UPDATES: &[u8] = b"\x0a\x06\x12\x02\x0a\0\x48\x01";

/// The same of mode ONCE.
const ONCE: &[u8] = b"\x0a\x06\x12\x02\x0a\0\x28\x01";

const ONCE_A: &[u8] = b"\x0a\x0b\x12\x07\x0a\x05\x1a\x03\x0a\x01a\x28\x01";

const ONCE_B: &[u8] = b"\x0a\x0b\x12\x07\x0a\x05\x1a\x03\x0a\x01b\x28\x01";

/// A list of mode POLL, and a Poll.
const POLLED: &[u8] = b"\x0a\x06\x12\x02\x0a\0\x28\x02";

const POLL: &[u8] = b"\x1a\0";

/// No message.
const BAD: &[u8] = b"\x08";

/// Sets of /a, of /b and of both; one that deletes /a.
const SET_A: &[u8] = b"\x22\x0c\x0a\x05\x1a\x03\x0a\x01a\x1a\x03\x0a\x01x";

const SET_A_AGAIN: &[u8] = b"\x22\x0c\x0a\x05\x1a\x03\x0a\x01a\x1a\x03\x0a\x01y";

const SET_B: &[u8] = b"\x22\x0c\x0a\x05\x1a\x03\x0a\x01b\x1a\x03\x0a\x01x";

const SET_BOTH: &[u8] =
    b"\x22\x0d\x0a\x05\x1a\x03\x0a\x01a\x1a\x04\x0a\x02zz\x22\x0d\x0a\x05\x1a\x03\x0a\x01b\x1a\x04\x0a\x02zz";

const DELETE_A: &[u8] = b"\x12\x05\x1a\x03\x0a\x01a";

/// A Get of the root.
const GET_ALL: &[u8] = b"\x12\0\x28\x04";

/// Three calls of mode STREAM with Sets, Gets and Polls between them, whose answers wait for the peer.
const NARROW: &[Step] = &[
    Step::Window(16),
    Step::Call(1, SUBSCRIBE),
    Step::Say(1, STREAM),
    Step::Call(3, SUBSCRIBE),
    Step::Say(3, STREAM_A),
    Step::Call(5, SUBSCRIBE),
    Step::Say(5, POLLED),
    Step::Call(7, SET),
    Step::Last(7, SET_A),
    Step::Let(1, 9),
    Step::Let(7, 5),
    Step::Say(5, POLL),
    Step::Call(9, SUBSCRIBE),
    Step::Say(9, STREAM_B),
    Step::Let(3, 7),
    Step::Let(5, 100),
    Step::Call(11, GET),
    Step::Last(11, GET_ALL),
    Step::Let(11, 200),
    Step::Call(13, SET),
    Step::Last(13, SET_B),
    Step::Let(9, 3),
    Step::Let(7, 200),
    Step::Let(1, 200),
    Step::Call(15, SET),
    Step::Last(15, DELETE_A),
    Step::Say(5, POLL),
    Step::Let(3, 200),
    Step::Let(9, 200),
    Step::Let(13, 200),
    Step::Call(17, SET),
    Step::Last(17, SET_BOTH),
    Step::Let(15, 200),
    Step::Let(17, 200),
    Step::Ping,
    Step::Let(5, 200),
];

/// How many calls of mode STREAM a peer makes, and what it does.
type Row = (u64, &'static [Step]);

/// What else such calls meet: updates alone, a client that has no more messages, one that cancels, and streams whose state isn't
/// empty.
const CALLS: &[Row] = &[
    (3, NARROW),
    (
        2,
        &[
            Step::Call(1, SUBSCRIBE),
            Step::Say(1, UPDATES),
            Step::Call(3, SET),
            Step::Last(3, SET_A),
            Step::Call(5, SUBSCRIBE),
            Step::Last(5, STREAM),
            Step::Call(7, SET),
            Step::Last(7, DELETE_A),
            Step::Call(9, SUBSCRIBE),
            Step::Last(9, ONCE),
        ],
    ),
    (
        2,
        &[
            Step::Call(1, SUBSCRIBE),
            Step::Say(1, STREAM),
            Step::End(1),
            Step::Call(3, SUBSCRIBE),
            Step::Say(3, STREAM),
            Step::Call(5, SET),
            Step::Last(5, SET_A),
            Step::Cancel(3),
            Step::Call(7, SET),
            Step::Last(7, SET_A_AGAIN),
        ],
    ),
    (
        1,
        &[
            Step::Window(0),
            Step::Call(1, SUBSCRIBE),
            Step::Say(1, STREAM),
            Step::Call(3, SET),
            Step::Let(3, 100),
            Step::Last(3, SET_A),
            Step::Let(1, 7),
            Step::Call(5, SET),
            Step::Let(5, 100),
            Step::Last(5, DELETE_A),
            Step::Let(1, 7),
            Step::Cancel(1),
            Step::Ping,
        ],
    ),
];

/// Further messages on the stream of such a call, which end it where the session serves it.
const FURTHER: &[&[Step]] = &[
    NARROW,
    &[
        Step::Call(1, SUBSCRIBE),
        Step::Say(1, STREAM),
        Step::Say(1, STREAM),
        Step::Call(3, SET),
        Step::Last(3, SET_A),
    ],
    &[
        Step::Call(1, SUBSCRIBE),
        Step::Say(1, STREAM),
        Step::Say(1, BAD),
        Step::Call(3, SUBSCRIBE),
        Step::Say(3, STREAM),
        Step::Call(5, SET),
        Step::Last(5, SET_A),
    ],
    &[
        Step::Window(0),
        Step::Call(1, SUBSCRIBE),
        Step::Say(1, STREAM),
        Step::Say(1, POLL),
        Step::Let(1, 7),
        Step::Let(1, 7),
    ],
];

/// Three calls of mode STREAM and of mode ONCE of the same paths, with Sets between them. What the peer lets through is enough for
/// all, but not at once.
const FREE: &[Step] = &[
    Step::Window(16),
    Step::Call(1, SUBSCRIBE),
    Step::Say(1, STREAM),
    Step::Call(3, SET),
    Step::Last(3, SET_A),
    Step::Call(5, SUBSCRIBE),
    Step::Say(5, STREAM_A),
    Step::Call(7, SUBSCRIBE),
    Step::Say(7, STREAM_B),
    Step::Call(9, SET),
    Step::Last(9, SET_B),
    Step::Let(1, 20),
    Step::Let(5, 20),
    Step::Call(11, SET),
    Step::Last(11, DELETE_A),
    Step::Call(13, SET),
    Step::Last(13, SET_A_AGAIN),
    Step::Let(1, 255),
    Step::Let(1, 255),
    Step::Let(5, 255),
    Step::Let(7, 255),
    Step::Call(15, SET),
    Step::Last(15, SET_BOTH),
    Step::Call(17, SUBSCRIBE),
    Step::Let(17, 200),
    Step::Last(17, ONCE),
    Step::Call(19, SUBSCRIBE),
    Step::Let(19, 200),
    Step::Last(19, ONCE_A),
    Step::Call(21, SUBSCRIBE),
    Step::Let(21, 200),
    Step::Last(21, ONCE_B),
];

/// The last value, and how often it is said then.
const LAST: &[u8] = b"\"zz\"";

const LASTS: u64 = 8;

/// The starts that are refused, of those of three calls.
const REFUSED: &[&[u64]] = &[&[], &[1], &[2], &[3], &[1, 2], &[1, 3], &[2, 3], &[1, 2, 3]];

/// All streams of these calls are below this number.
const STREAMS: u8 = 32;

/// Nothing fails, nothing is refused, and nobody waits.
fn freely(octets: &[u8]) -> Given<'_> {
    Given {
        octets,
        each: &[],
        last: 0,
        text: b"",
        starts: &[],
        read: 0,
        write: 0,
    }
}

/// Whether both ended well and alike, and wrote the same on each stream.
fn are_alike(alloc: Global, one: &Outcome, other: &Outcome) -> bool {
    one.how == How::Closed
        && other.how == How::Closed
        && one.entries == other.entries
        && one.found.len() == other.found.len()
        && same_on_streams(alloc, one.written.items(), other.written.items(), STREAMS)
}

/// How many of these starts are among the first of so many.
fn count_of(starts: &[u64], calls: u64) -> u64 {
    let mut count = 0_u64;
    for start in starts {
        if *start <= calls {
            count = count.saturating_add(1);
        }
    }
    count
}

/// Whether a session whose starter refuses these starts comes to what it comes to alone.
fn comes_to_the_same<R: Threads + Wait + Abort + Copy + Drop + Send + Sync + 'static>(
    rt: R,
    alloc: Global,
    row: &Row,
    starts: &[u64],
) -> bool {
    let (calls, steps) = *row;
    let octets = octets_of(&rt, alloc, steps);
    let one = alone(rt, alloc, &freely(octets.items()));
    let given = Given {
        each: one.found.items(),
        starts,
        ..freely(octets.items())
    };
    let other = beside(rt, alloc, &given);
    other.started == calls.saturating_sub(count_of(starts, calls)) && are_alike(alloc, &one, &other)
}

#[test]
fn each_stream_is_told_what_it_is_told_by_a_session_alone(rt: HostRuntime) {
    let alloc = rt.alloc();
    for (number, row) in CALLS.iter().enumerate() {
        for starts in REFUSED {
            let same = comes_to_the_same(rt, alloc, row, starts);
            assert!(rt; same, "call {number}");
        }
    }
}

/// Whether a session that starts no feeder writes just what it writes alone, octet for octet.
fn writes_the_same<R: Threads + Wait + Abort + Copy + Drop + Send + Sync + 'static>(
    rt: R,
    alloc: Global,
    steps: &[Step],
) -> bool {
    let octets = octets_of(&rt, alloc, steps);
    let one = alone(rt, alloc, &freely(octets.items()));
    let given = Given {
        starts: &[1, 2, 3, 4],
        ..freely(octets.items())
    };
    let other = beside(rt, alloc, &given);
    other.started == 0
        && are_alike(alloc, &one, &other)
        && one.written.items() == other.written.items()
}

#[test]
fn a_session_without_feeders_serves_all_calls_itself(rt: HostRuntime) {
    let alloc = rt.alloc();
    for (number, steps) in FURTHER.iter().enumerate() {
        let same = writes_the_same(rt, alloc, steps);
        assert!(rt; same, "call {number}");
    }
}

/// Whether each call of mode STREAM folded to what one of mode ONCE then said, of two leaves and of one each.
fn folded_to_the_last_state(alloc: Global, end: &Outcome, starts: &[u64]) -> bool {
    let written = end.written.items();
    end.how == How::Closed
        && end.started == 3_u64.saturating_sub(count_of(starts, 3))
        && end.entries == 5
        && fold_alike(alloc, written, 1, 17, 2)
        && fold_alike(alloc, written, 5, 19, 1)
        && fold_alike(alloc, written, 7, 21, 1)
}

/// Whether they do so where these starts are refused.
fn folds_to_the_last_state<R: Threads + Wait + Abort + Copy + Drop + Send + Sync + 'static>(
    rt: R,
    alloc: Global,
    starts: &[u64],
) -> bool {
    let octets = octets_of(&rt, alloc, FREE);
    let given = Given {
        text: LAST,
        last: LASTS,
        starts,
        ..freely(octets.items())
    };
    let end = beside(rt, alloc, &given);
    folded_to_the_last_state(alloc, &end, starts)
}

#[test]
fn each_stream_folds_to_its_part_of_the_last_state(rt: HostRuntime) {
    let alloc = rt.alloc();
    for (number, starts) in REFUSED.iter().enumerate() {
        let folds = folds_to_the_last_state(rt, alloc, starts);
        assert!(rt; folds, "refused {number}");
    }
}

/// A call that fails, of the source or of the sink, and how a session ends with it.
type Fault = (&'static str, How);

const READ: Fault = ("read", How::ReadFault);

const WRITE: Fault = ("write", How::WriteFault);

/// Whether a session ended with this fault, and wrote a front of what it writes without.
fn is_broken_off(alloc: Global, end: &Outcome, whole: &Outcome, how: How) -> bool {
    end.how == how
        && end.entries <= whole.entries
        && fronts_on_streams(alloc, end.written.items(), whole.written.items(), STREAMS)
}

/// Whether a session made so many reads, and has answered all that was read before the last one.
fn has_answered(end: &Outcome, whole: &Outcome, reads: u64) -> bool {
    let written = whole.found.get(end.found.len().saturating_sub(1)).copied();
    end.found.len() as u64 == reads && written == Some(end.written.len() as u64)
}

/// Whether a session broke off at the call with this number, and has answered all that was read before where that is a read.
fn broke_off(alloc: Global, end: &Outcome, whole: &Outcome, how: How, number: u64) -> bool {
    (how != How::ReadFault || has_answered(end, whole, number))
        && is_broken_off(alloc, end, whole, how)
}

/// Whether a session breaks off so where the call with this number fails; None where it ended well.
fn breaks_off<R: Threads + Wait + Abort + Copy + Drop + Send + Sync + 'static>(
    rt: R,
    alloc: Global,
    octets: &[u8],
    whole: &Outcome,
    how: How,
    number: u64,
) -> Option<bool> {
    let is_read = how == How::ReadFault;
    let given = Given {
        each: whole.found.items(),
        read: if is_read { number } else { 0 },
        write: if is_read { 0 } else { number },
        ..freely(octets)
    };
    let end = beside(rt, alloc, &given);
    if are_alike(alloc, &end, whole) {
        None
    } else {
        Some(broke_off(alloc, &end, whole, how, number))
    }
}

/// More than a session reads or writes, and fewer than it does.
const MOST_CALLS: u64 = 200;

const FEWEST_CALLS: u64 = 40;

/// The number of the first call that a session doesn't make, where it breaks off at each one before; None where each one fails.
fn first_without_fault<R: Threads + Wait + Abort + Copy + Drop + Send + Sync + 'static>(
    rt: R,
    alloc: Global,
    octets: &[u8],
    whole: &Outcome,
    fault: Fault,
) -> Option<u64> {
    let (call, how) = fault;
    for number in 1..MOST_CALLS {
        match breaks_off(rt, alloc, octets, whole, how, number) {
            Some(breaks) => assert!(&rt; breaks, "{call} {number}"),
            None => return Some(number),
        }
    }
    None
}

/// The same of the session whose answers wait for the peer.
fn narrow_without_fault<R: Threads + Wait + Abort + Copy + Drop + Send + Sync + 'static>(
    rt: R,
    alloc: Global,
    fault: Fault,
) -> Option<u64> {
    let octets = octets_of(&rt, alloc, NARROW);
    let whole = alone(rt, alloc, &freely(octets.items()));
    first_without_fault(rt, alloc, octets.items(), &whole, fault)
}

#[test]
fn a_read_that_fails_ends_the_session_and_its_feeders(rt: HostRuntime) {
    match narrow_without_fault(rt, rt.alloc(), READ) {
        Some(number) => assert!(rt; number > FEWEST_CALLS),
        None => panic!(rt; "each read fails"),
    }
}

#[test]
fn a_write_that_fails_ends_the_session_and_its_feeders(rt: HostRuntime) {
    match narrow_without_fault(rt, rt.alloc(), WRITE) {
        Some(number) => assert!(rt; number > FEWEST_CALLS),
        None => panic!(rt; "each write fails"),
    }
}
