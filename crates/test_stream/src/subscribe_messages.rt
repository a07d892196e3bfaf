//! What a message of a Subscribe call asks of it, behind a first list and before one.
use base_kinds::{ListMode, Refusal};
use request_desk::{Desk, SubscribeStep};
use schema_core::Schema;
use std::alloc::Global;

/// What is wanted: a plan of so many lines and groups, a Poll, or a refusal.
#[derive(Clone, Copy)]
enum Wanted {
    Plan(ListMode, usize, usize),
    Poll,
    Refused(Refusal),
}

/// A list of one path, ON_CHANGE, in PROTO, as grpcio sent it.
const OF_GRPCIO: &[u8] = b"\x0a\x08\x12\x04\x0a\x00\x10\x01\x40\x02";

/// A prefix with the element `p` and the target `dev`, mode POLL, JSON_IETF, updates alone; two lines of changes and samples.
const POLL_LIST: &[u8] =
    b"\x0a\x3c\x0a\x0a\x1a\x03\x0a\x01p\x22\x03dev\x12\x18\x0a\x05\x1a\x03\x0a\x01a\x10\x02\x18\x80\xc8\xaf\xa0\x25\x20\x01\x28\x80\xb0\x9d\xc2\xdf\x01\x12\x0e\x0a\x0a\x1a\x03\x0a\x01b\x1a\x03\x0a\x01c\x10\x01\x28\x02\x40\x04\x48\x01";

/// The same two lines in a list of mode STREAM.
const STREAM_LIST: &[u8] =
    b"\x0a\x34\x12\x18\x0a\x05\x1a\x03\x0a\x01a\x10\x02\x18\x80\xc8\xaf\xa0\x25\x20\x01\x28\x80\xb0\x9d\xc2\xdf\x01\x12\x0e\x0a\x0a\x1a\x03\x0a\x01b\x1a\x03\x0a\x01c\x10\x01\x12\x04\x0a\x00\x10\x00\x28\x00\x40\x04";

/// One subscription of the root, each with what stands behind it: mode, interval and the like.
const ONCE: &[u8] = b"\x0a\x08\x12\x02\x0a\x00\x28\x01\x40\x02";

const POLL: &[u8] = b"\x1a\x00";

/// What the first message of a call asks.
const FIRST: &[(&[u8], Wanted)] = &[
    (OF_GRPCIO, Wanted::Plan(ListMode::Stream, 1, 1)),
    (POLL_LIST, Wanted::Plan(ListMode::Poll, 2, 1)),
    (STREAM_LIST, Wanted::Plan(ListMode::Stream, 3, 2)),
    (ONCE, Wanted::Plan(ListMode::Once, 1, 1)),
    // a commit extension is taken
    (
        b"\x0a\x08\x12\x02\x0a\x00\x28\x01\x40\x02\x2a\x07\x22\x05\x0a\x01\x74\x1a\x00",
        Wanted::Plan(ListMode::Once, 1, 1),
    ),
    // no message
    (b"\x0a\x02\x28", Wanted::Refused(Refusal::BadMessage)),
    (b"\x1a\x01\x08", Wanted::Refused(Refusal::BadMessage)),
    // another extension, whatever the message is
    (b"\x1a\x00\x2a\x00", Wanted::Refused(Refusal::Unsupported)),
    (b"\x2a\x00", Wanted::Refused(Refusal::Unsupported)),
    // a model, an origin, an encoding of this profile's making
    (
        b"\x0a\x09\x12\x02\x0a\x00\x3a\x03\x0a\x01\x61",
        Wanted::Refused(Refusal::Unsupported),
    ),
    (
        b"\x0a\x09\x12\x07\x0a\x05\x12\x03\x63\x6c\x69",
        Wanted::Refused(Refusal::Unsupported),
    ),
    (
        b"\x0a\x06\x12\x02\x0a\x00\x40\x01",
        Wanted::Refused(Refusal::Unsupported),
    ),
    // no list, no subscription, an unknown mode, an interval of 1 ns
    (b"", Wanted::Refused(Refusal::BadSubscribe)),
    (POLL, Wanted::Refused(Refusal::BadSubscribe)),
    (b"\x0a\x02\x28\x01", Wanted::Refused(Refusal::BadSubscribe)),
    (
        b"\x0a\x06\x12\x02\x0a\x00\x28\x03",
        Wanted::Refused(Refusal::BadSubscribe),
    ),
    (
        b"\x0a\x08\x12\x06\x0a\x00\x10\x02\x18\x01",
        Wanted::Refused(Refusal::BadSubscribe),
    ),
    // an element without a name; what the list is comes before its paths
    (
        b"\x0a\x06\x12\x04\x0a\x02\x1a\x00",
        Wanted::Refused(Refusal::BadPath),
    ),
    (
        b"\x0a\x08\x12\x04\x0a\x02\x1a\x00\x28\x03",
        Wanted::Refused(Refusal::BadSubscribe),
    ),
];

/// What a later message asks, behind a list of this mode.
const LATER: &[(ListMode, &[u8], Wanted)] = &[
    (ListMode::Poll, POLL, Wanted::Poll),
    (
        ListMode::Stream,
        POLL,
        Wanted::Refused(Refusal::BadSubscribe),
    ),
    (ListMode::Once, POLL, Wanted::Refused(Refusal::BadSubscribe)),
    (
        ListMode::Poll,
        b"\x1a\x00\x2a\x00",
        Wanted::Refused(Refusal::Unsupported),
    ),
    (
        ListMode::Poll,
        b"\x1a\x01\x08",
        Wanted::Refused(Refusal::BadMessage),
    ),
    // a second list
    (
        ListMode::Poll,
        POLL_LIST,
        Wanted::Refused(Refusal::BadSubscribe),
    ),
    (
        ListMode::Stream,
        OF_GRPCIO,
        Wanted::Refused(Refusal::BadSubscribe),
    ),
    (
        ListMode::Stream,
        b"\x0a\x06\x12\x02\x0a\x00\x40\x01",
        Wanted::Refused(Refusal::Unsupported),
    ),
    (
        ListMode::Poll,
        b"\x0a\x06\x12\x04\x0a\x02\x1a\x00",
        Wanted::Refused(Refusal::BadSubscribe),
    ),
];

fn is_wanted(wanted: Wanted, found: &Result<SubscribeStep, Refusal>) -> bool {
    match (wanted, found) {
        (Wanted::Plan(mode, lines, groups), Ok(SubscribeStep::Begin(plan))) => {
            plan.mode == mode && plan.lines.len() == lines && plan.groups.len() == groups
        }
        (Wanted::Poll, Ok(SubscribeStep::Poll)) => true,
        (Wanted::Refused(refusal), Err(found)) => refusal == *found,
        _ => false,
    }
}

/// Whether a message asks what is wanted, behind a list of this mode if behind any.
fn asks(alloc: Global, body: &[u8], started: Option<ListMode>, wanted: Wanted) -> bool {
    let desk = Desk::make(Schema::empty(alloc));
    let found = desk.subscribe(alloc, body, started);
    is_wanted(wanted, &found)
}

#[test]
fn first_messages_of_subscribe_calls(rt: HostRuntime) {
    for (body, wanted) in FIRST {
        assert!(rt; asks(rt.alloc(), body, None, *wanted), "{body:?}");
    }
}

#[test]
fn later_messages_of_subscribe_calls(rt: HostRuntime) {
    for (mode, body, wanted) in LATER {
        assert!(rt; asks(rt.alloc(), body, Some(*mode), *wanted), "{body:?}");
    }
}
