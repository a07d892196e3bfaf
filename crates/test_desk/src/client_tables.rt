// Calls, made by a protobuf writer apart from the product's: the requests are those of real clients where that is said.
use crate::calls::{Answer, Call};
use base_kinds::Refusal;
use grpc_core::Method;
use test_captures::{GET_TWO_PATHS, SET_HOSTNAME, SET_MTU, SET_MTU_WITHOUT_LAB};

/// Octets that grpcio 1.51.1 and nghttp 1.52.0 sent, over an empty tree.
pub const CLIENTS: &[Call] = &[
    // grpcio
    Call {
        method: Method::Capabilities,
        request: b"",
        now: 1000,
        answer: Answer::Reply(
            b"\x0a\x13\x0a\x11openconfig-system\x0a\x17\x0a\x15openconfig-interfaces\x0a\x05\x0a\x03lab\x12\x03\x00\x04\x02\x1a\x060.10.0",
        ),
    },
    // grpcio: a delete and an update
    Call {
        method: Method::Set,
        request: SET_MTU_WITHOUT_LAB,
        now: 1000,
        answer: Answer::Reply(
            b"\x12\x0b\x12\x07\x1a\x05\x0a\x03lab \x01\x12>\x12:\x1a\x0c\x0a\x0ainterfaces\x1a\x19\x0a\x09interface\x12\x0c\x0a\x04name\x12\x04eth0\x1a\x08\x0a\x06config\x1a\x05\x0a\x03mtu \x03 \xe8\x07",
        ),
    },
    // grpcio, at the same reading
    Call {
        method: Method::Set,
        request: SET_HOSTNAME,
        now: 1000,
        answer: Answer::Reply(
            b"\x12$\x12 \x1a\x08\x0a\x06system\x1a\x08\x0a\x06config\x1a\x0a\x0a\x08hostname \x03 \xe9\x07",
        ),
    },
    // nghttp, at an earlier reading
    Call {
        method: Method::Set,
        request: SET_MTU,
        now: 999,
        answer: Answer::Reply(
            b"\x12>\x12:\x1a\x0c\x0a\x0ainterfaces\x1a\x19\x0a\x09interface\x12\x0c\x0a\x04name\x12\x04eth0\x1a\x08\x0a\x06config\x1a\x05\x0a\x03mtu \x03 \xea\x07",
        ),
    },
    // grpcio: two paths in JSON_IETF, and a prefix with a target
    Call {
        method: Method::Get,
        request: GET_TWO_PATHS,
        now: 5,
        answer: Answer::Reply(
            b"\x0a\x8c\x01\x08\xea\x07\x12\x04\"\x02r1\"\x80\x01\x0a)\x1a\x0c\x0a\x0ainterfaces\x1a\x19\x0a\x09interface\x12\x0c\x0a\x04name\x12\x04eth0\x1aSZQ{\"openconfig-interfaces:config\":{\"mtu\":1500},\"openconfig-interfaces:name\":\"eth0\"}\x0aH\x08\xea\x07\x12\x04\"\x02r1\"=\x0a\x0a\x1a\x08\x0a\x06system\x1a/Z-{\"openconfig-system:config\":{\"hostname\":\"0\"}}",
        ),
    },
];
