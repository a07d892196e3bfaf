use crate::frames::{GET, SET, SUBSCRIBE, Step};
use crate::server_served::{Outcome, Part, Peer, serve};
use base_lists::Seq;
use connection_server::Ending;
use std::alloc::Global;
use std::process::Abort;
use std::sync::Wait;
use std::thread::Threads;

/// Sets of /a, and of /b.
const SET_A: &[u8] = b"\x22\x0e\x0a\x05\x1a\x03\x0a\x01a\x1a\x05\x0a\x03one";

const SET_B0: &[u8] = b"\x22\x0e\x0a\x05\x1a\x03\x0a\x01b\x1a\x05\x0a\x03zz0";

const SET_B1: &[u8] = b"\x22\x0e\x0a\x05\x1a\x03\x0a\x01b\x1a\x05\x0a\x03zz1";

const SET_B2: &[u8] = b"\x22\x0e\x0a\x05\x1a\x03\x0a\x01b\x1a\x05\x0a\x03zz2";

const SET_B3: &[u8] = b"\x22\x0e\x0a\x05\x1a\x03\x0a\x01b\x1a\x05\x0a\x03zz3";

const SET_B4: &[u8] = b"\x22\x0e\x0a\x05\x1a\x03\x0a\x01b\x1a\x05\x0a\x03zz4";

const SET_B5: &[u8] = b"\x22\x0e\x0a\x05\x1a\x03\x0a\x01b\x1a\x05\x0a\x03zz5";

const SET_B6: &[u8] = b"\x22\x0e\x0a\x05\x1a\x03\x0a\x01b\x1a\x05\x0a\x03zz6";

const SET_B7: &[u8] = b"\x22\x0e\x0a\x05\x1a\x03\x0a\x01b\x1a\x05\x0a\x03zz7";

const SET_B8: &[u8] = b"\x22\x0e\x0a\x05\x1a\x03\x0a\x01b\x1a\x05\x0a\x03zz8";

/// A Get of the root, and a list of mode STREAM of it.
const GET_ALL: &[u8] = b"\x12\0\x28\x04";

const STREAM: &[u8] = b"\x0a\x04\x12\x02\x0a\0";

/// What the answer to a Set of /b has, and what one to a Get of the root, and a notification, behind it.
const ANSWER_B: &[u8] = b"\x12\x05\x1a\x03\x0a\x01b";

const VALUE_A: &[u8] = b"\"one\"";

const VALUE_B: &[u8] = b"\"zz";

const LAST_B: &[u8] = b"\"zz8\"";

/// Its Set waits until the second session's first Set was answered.
const FIRST: Peer = Peer {
    parts: &[
        Part::Until(1, 1),
        Part::Do(Step::Call(1, SET)),
        Part::Do(Step::Last(1, SET_A)),
        Part::Do(Step::Call(3, GET)),
        Part::Do(Step::Last(3, GET_ALL)),
    ],
    first: VALUE_A,
    second: VALUE_B,
};

/// Each of its Sets waits until the third session was told of the one before it.
const SECOND: Peer = Peer {
    parts: &[
        Part::Do(Step::Call(1, SET)),
        Part::Do(Step::Last(1, SET_B0)),
        Part::Until(2, 1),
        Part::Do(Step::Call(3, SET)),
        Part::Do(Step::Last(3, SET_B1)),
        Part::Until(2, 2),
        Part::Do(Step::Call(5, SET)),
        Part::Do(Step::Last(5, SET_B2)),
        Part::Until(2, 3),
        Part::Do(Step::Call(7, SET)),
        Part::Do(Step::Last(7, SET_B3)),
        Part::Until(2, 4),
        Part::Do(Step::Call(9, SET)),
        Part::Do(Step::Last(9, SET_B4)),
        Part::Until(2, 5),
        Part::Do(Step::Call(11, SET)),
        Part::Do(Step::Last(11, SET_B5)),
        Part::Until(2, 6),
        Part::Do(Step::Call(13, SET)),
        Part::Do(Step::Last(13, SET_B6)),
        Part::Until(2, 7),
        Part::Do(Step::Call(15, SET)),
        Part::Do(Step::Last(15, SET_B7)),
        Part::Until(2, 8),
        Part::Do(Step::Call(17, SET)),
        Part::Do(Step::Last(17, SET_B8)),
        Part::Do(Step::Call(19, GET)),
        Part::Do(Step::Last(19, GET_ALL)),
    ],
    first: ANSWER_B,
    second: LAST_B,
};

/// Its call of mode STREAM stands until the second session's Sets were all answered.
const THIRD: Peer = Peer {
    parts: &[
        Part::Do(Step::Call(1, SUBSCRIBE)),
        Part::Do(Step::Say(1, STREAM)),
        Part::Until(1, 9),
    ],
    first: VALUE_B,
    second: LAST_B,
};

/// Connections that are served, and what serving them is to come to where each is accepted and no hold is given up.
#[derive(Clone, Copy)]
struct Case {
    peers: &'static [Peer],
    /// Which sessions the starter refuses, and which feeders of each session another one, by their numbers in decimal.
    sessions: &'static [u64],
    feeders: &'static [u64],
    /// How many connections end without an error.
    closed: u64,
    entries: u64,
    /// Which connection is sent its first text once, and which its second, where it is looked at.
    first: Option<usize>,
    second: Option<usize>,
}

/// Whether the text of this connection was counted once, where it is looked at.
fn is_once(counts: &Seq<u64>, connection: Option<usize>) -> bool {
    match connection {
        Some(connection) => counts.get(connection) == Some(&1),
        None => true,
    }
}

/// Whether serving came to what it is to come to.
fn is_as_told(end: &Outcome, case: &Case) -> bool {
    end.ending == Ending::All
        && end.late == 0
        && end.closed == case.closed
        && end.entries == case.entries
        && is_once(&end.first, case.first)
        && is_once(&end.second, case.second)
}

/// Whether serving these connections comes to that.
fn comes_to<R: Threads + Wait + Abort + Copy + Drop + Send + Sync + 'static>(
    rt: R,
    alloc: Global,
    case: &Case,
) -> bool {
    let end = serve(rt, alloc, case.peers, case.sessions, case.feeders);
    is_as_told(&end, case)
}

/// The first session reads its own Set once, and the second the last of its nine.
const TEN_SETS: &Case = &Case {
    peers: &[FIRST, SECOND, THIRD],
    sessions: &[],
    feeders: &[],
    closed: 3,
    entries: 10,
    first: Some(0),
    second: Some(1),
};

#[test]
fn two_sessions_and_a_feeder(rt: HostRuntime) {
    assert!(rt; comes_to(rt, rt.alloc(), TEN_SETS));
}

/// A single Set, behind which the connection ends.
const ONE_SET: Peer = Peer {
    parts: &[
        Part::Do(Step::Call(1, SET)),
        Part::Do(Step::Last(1, SET_B0)),
    ],
    first: ANSWER_B,
    second: LAST_B,
};

/// Its call is told of that Set at its beginning.
const TOLD_ONCE: Peer = Peer {
    parts: &[
        Part::Until(0, 1),
        Part::Do(Step::Call(1, SUBSCRIBE)),
        Part::Do(Step::Say(1, STREAM)),
    ],
    first: VALUE_B,
    second: LAST_B,
};

/// The second session is told of the single Set once.
const NO_FEEDER_STARTED: &Case = &Case {
    peers: &[ONE_SET, TOLD_ONCE],
    sessions: &[],
    feeders: &[1],
    closed: 2,
    entries: 1,
    first: Some(1),
    second: None,
};

#[test]
fn a_session_serves_a_call_whose_feeder_is_not_started(rt: HostRuntime) {
    assert!(rt; comes_to(rt, rt.alloc(), NO_FEEDER_STARTED));
}

const NO_SESSION_STARTED: &Case = &Case {
    peers: &[ONE_SET, TOLD_ONCE],
    sessions: &[1, 2],
    feeders: &[],
    closed: 2,
    entries: 1,
    first: None,
    second: None,
};

#[test]
fn a_session_that_is_not_started_is_served_by_the_acceptor(rt: HostRuntime) {
    assert!(rt; comes_to(rt, rt.alloc(), NO_SESSION_STARTED));
}
