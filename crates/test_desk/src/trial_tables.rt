// Calls, made by a protobuf writer apart from the product's.
use crate::calls::{Answer, Call};
use base_kinds::Refusal;
use grpc_core::Method;

/// Trials, and what is found while one is open and behind it.
pub const TRIALS: &[Call] = &[
    Call {
        method: Method::Set,
        request: b"\"'\x0a \x1a\x08\x0a\x06system\x1a\x08\x0a\x06config\x1a\x0a\x0a\x08hostname\x1a\x03\x0a\x01a",
        now: 1000,
        answer: Answer::Reply(
            b"\x12$\x12 \x1a\x08\x0a\x06system\x1a\x08\x0a\x06config\x1a\x0a\x0a\x08hostname \x03 \xe8\x07",
        ),
    },
    // a trial of a minute
    Call {
        method: Method::Set,
        request: b"\"'\x0a \x1a\x08\x0a\x06system\x1a\x08\x0a\x06config\x1a\x0a\x0a\x08hostname\x1a\x03\x0a\x01b*\x0b\"\x09\x0a\x01t\x12\x04\x0a\x02\x08<",
        now: 1000,
        answer: Answer::Reply(
            b"\x12$\x12 \x1a\x08\x0a\x06system\x1a\x08\x0a\x06config\x1a\x0a\x0a\x08hostname \x03 \xe9\x07",
        ),
    },
    Call {
        method: Method::Set,
        request: b"\"'\x0a \x1a\x08\x0a\x06system\x1a\x08\x0a\x06config\x1a\x0a\x0a\x08hostname\x1a\x03\x0a\x01c",
        now: 1000,
        answer: Answer::Refused(Refusal::TrialOpen),
    },
    Call {
        method: Method::Set,
        request: b"*\x07\"\x05\x0a\x01u\x1a\x00",
        now: 1000,
        answer: Answer::Refused(Refusal::WrongId),
    },
    // a nanosecond before its end
    Call {
        method: Method::Get,
        request: b"\x12\x0a\x1a\x08\x0a\x06system",
        now: 60000001000,
        answer: Answer::Reply(
            b"\x0aB\x08\xe9\x07\"=\x0a\x0a\x1a\x08\x0a\x06system\x1a/R-{\"openconfig-system:config\":{\"hostname\":\"b\"}}",
        ),
    },
    // at its end: the tree before it, at the stamp of the clock's entry
    Call {
        method: Method::Get,
        request: b"\x12\x0a\x1a\x08\x0a\x06system",
        now: 60000001001,
        answer: Answer::Reply(
            b"\x0aF\x08\xe9\xb7\x9d\xc2\xdf\x01\"=\x0a\x0a\x1a\x08\x0a\x06system\x1a/R-{\"openconfig-system:config\":{\"hostname\":\"a\"}}",
        ),
    },
    // the clock went back
    Call {
        method: Method::Get,
        request: b"\x12\x0a\x1a\x08\x0a\x06system",
        now: 1000,
        answer: Answer::Reply(
            b"\x0aF\x08\xe9\xb7\x9d\xc2\xdf\x01\"=\x0a\x0a\x1a\x08\x0a\x06system\x1a/R-{\"openconfig-system:config\":{\"hostname\":\"a\"}}",
        ),
    },
    Call {
        method: Method::Set,
        request: b"*\x07\"\x05\x0a\x01t\x1a\x00",
        now: 60000001001,
        answer: Answer::Refused(Refusal::NoTrial),
    },
    // another trial
    Call {
        method: Method::Set,
        request: b"\"'\x0a \x1a\x08\x0a\x06system\x1a\x08\x0a\x06config\x1a\x0a\x0a\x08hostname\x1a\x03\x0a\x01d*\x0b\"\x09\x0a\x01t\x12\x04\x0a\x02\x08<",
        now: 60000001001,
        answer: Answer::Reply(
            b"\x12$\x12 \x1a\x08\x0a\x06system\x1a\x08\x0a\x06config\x1a\x0a\x0a\x08hostname \x03 \xea\xb7\x9d\xc2\xdf\x01",
        ),
    },
    // which is confirmed
    Call {
        method: Method::Set,
        request: b"*\x07\"\x05\x0a\x01t\x1a\x00",
        now: 60000001001,
        answer: Answer::Reply(b" \xeb\xb7\x9d\xc2\xdf\x01"),
    },
    Call {
        method: Method::Get,
        request: b"\x12\x0a\x1a\x08\x0a\x06system",
        now: 240000000000,
        answer: Answer::Reply(
            b"\x0aF\x08\xeb\xb7\x9d\xc2\xdf\x01\"=\x0a\x0a\x1a\x08\x0a\x06system\x1a/R-{\"openconfig-system:config\":{\"hostname\":\"d\"}}",
        ),
    },
];

/// The first call of the disk fails.
pub const FIRST_FAILS: &[Call] = &[
    // the first call fails
    Call {
        method: Method::Set,
        request: b"\"'\x0a \x1a\x08\x0a\x06system\x1a\x08\x0a\x06config\x1a\x0a\x0a\x08hostname\x1a\x03\x0a\x01a",
        now: 1000,
        answer: Answer::Refused(Refusal::DiskFault),
    },
    // nothing was changed
    Call {
        method: Method::Get,
        request: b"\x12\x0a\x1a\x08\x0a\x06system",
        now: 1000,
        answer: Answer::Refused(Refusal::NotFound),
    },
    Call {
        method: Method::Set,
        request: b"\"'\x0a \x1a\x08\x0a\x06system\x1a\x08\x0a\x06config\x1a\x0a\x0a\x08hostname\x1a\x03\x0a\x01b",
        now: 1000,
        answer: Answer::Reply(
            b"\x12$\x12 \x1a\x08\x0a\x06system\x1a\x08\x0a\x06config\x1a\x0a\x0a\x08hostname \x03 \xe8\x07",
        ),
    },
    Call {
        method: Method::Get,
        request: b"\x12\x0a\x1a\x08\x0a\x06system",
        now: 1000,
        answer: Answer::Reply(
            b"\x0aB\x08\xe8\x07\"=\x0a\x0a\x1a\x08\x0a\x06system\x1a/R-{\"openconfig-system:config\":{\"hostname\":\"b\"}}",
        ),
    },
];

/// The first call of the disk behind two entries fails.
pub const EXPIRY_FAILS: &[Call] = &[
    Call {
        method: Method::Set,
        request: b"\"'\x0a \x1a\x08\x0a\x06system\x1a\x08\x0a\x06config\x1a\x0a\x0a\x08hostname\x1a\x03\x0a\x01a",
        now: 1000,
        answer: Answer::Reply(
            b"\x12$\x12 \x1a\x08\x0a\x06system\x1a\x08\x0a\x06config\x1a\x0a\x0a\x08hostname \x03 \xe8\x07",
        ),
    },
    Call {
        method: Method::Set,
        request: b"\"'\x0a \x1a\x08\x0a\x06system\x1a\x08\x0a\x06config\x1a\x0a\x0a\x08hostname\x1a\x03\x0a\x01b*\x0b\"\x09\x0a\x01t\x12\x04\x0a\x02\x08<",
        now: 1000,
        answer: Answer::Reply(
            b"\x12$\x12 \x1a\x08\x0a\x06system\x1a\x08\x0a\x06config\x1a\x0a\x0a\x08hostname \x03 \xe9\x07",
        ),
    },
    // the entry of the clock fails
    Call {
        method: Method::Get,
        request: b"\x12\x0a\x1a\x08\x0a\x06system",
        now: 60000001001,
        answer: Answer::Refused(Refusal::DiskFault),
    },
    // and is made then
    Call {
        method: Method::Get,
        request: b"\x12\x0a\x1a\x08\x0a\x06system",
        now: 60000001002,
        answer: Answer::Reply(
            b"\x0aF\x08\xea\xb7\x9d\xc2\xdf\x01\"=\x0a\x0a\x1a\x08\x0a\x06system\x1a/R-{\"openconfig-system:config\":{\"hostname\":\"a\"}}",
        ),
    },
];
