// Calls, made by a protobuf writer apart from the product's.
use crate::calls::{Answer, Call};
use base_kinds::Refusal;
use grpc_core::Method;

/// A Set of values of each kind, and Gets of them.
pub const GETS: &[Call] = &[
    // a value of each kind
    Call {
        method: Method::Set,
        request: b"\x0a\x05\"\x03dev\"\x1d\x0a\x0e\x1a\x05\x0a\x03lab\x1a\x05\x0a\x03big\x1a\x0b\x18\xff\xff\xff\xff\xff\xff\xff\xff\xff\x01\"\x19\x0a\x0f\x1a\x05\x0a\x03lab\x1a\x06\x0a\x04rate\x1a\x06:\x04\x08\x0f\x10\x01\"\x17\x0a\x0f\x1a\x05\x0a\x03lab\x1a\x06\x0a\x04blob\x1a\x04*\x02\x01\x02\"\x1f\x0a\x0f\x1a\x05\x0a\x03lab\x1a\x06\x0a\x04tags\x1a\x0cB\x0a\x0a\x03\x0a\x01b\x0a\x03\x0a\x01a\"\x18\x0a\x0e\x1a\x05\x0a\x03lab\x1a\x05\x0a\x03via\x1a\x06\x0a\x04eth0\"\\\x0a3\x1a\x0c\x0a\x0ainterfaces\x1a\x19\x0a\x09interface\x12\x0c\x0a\x04name\x12\x04eth0\x1a\x08\x0a\x06config\x1a%R#{\"enabled\":true,\"description\":\"up\"}\"A\x0a:\x1a\x0c\x0a\x0ainterfaces\x1a\x19\x0a\x09interface\x12\x0c\x0a\x04name\x12\x04eth0\x1a\x08\x0a\x06config\x1a\x05\x0a\x03mtu\x1a\x03\x10\xdc\x0b\")\x0a \x1a\x08\x0a\x06system\x1a\x08\x0a\x06config\x1a\x0a\x0a\x08hostname\x1a\x05Z\x03\"r\"",
        now: 1000,
        answer: Answer::Reply(
            b"\x0a\x05\"\x03dev\x12\x12\x12\x0e\x1a\x05\x0a\x03lab\x1a\x05\x0a\x03big \x03\x12\x13\x12\x0f\x1a\x05\x0a\x03lab\x1a\x06\x0a\x04rate \x03\x12\x13\x12\x0f\x1a\x05\x0a\x03lab\x1a\x06\x0a\x04blob \x03\x12\x13\x12\x0f\x1a\x05\x0a\x03lab\x1a\x06\x0a\x04tags \x03\x12\x12\x12\x0e\x1a\x05\x0a\x03lab\x1a\x05\x0a\x03via \x03\x127\x123\x1a\x0c\x0a\x0ainterfaces\x1a\x19\x0a\x09interface\x12\x0c\x0a\x04name\x12\x04eth0\x1a\x08\x0a\x06config \x03\x12>\x12:\x1a\x0c\x0a\x0ainterfaces\x1a\x19\x0a\x09interface\x12\x0c\x0a\x04name\x12\x04eth0\x1a\x08\x0a\x06config\x1a\x05\x0a\x03mtu \x03\x12$\x12 \x1a\x08\x0a\x06system\x1a\x08\x0a\x06config\x1a\x0a\x0a\x08hostname \x03 \xe8\x07",
        ),
    },
    // all rows as scalars
    Call {
        method: Method::Get,
        request: b"\x12\x00(\x02",
        now: 1000,
        answer: Answer::Reply(
            b"\x0a\xcd\x03\x08\xe8\x07\"J\x0aB\x1a\x0c\x0a\x0ainterfaces\x1a\x19\x0a\x09interface\x12\x0c\x0a\x04name\x12\x04eth0\x1a\x08\x0a\x06config\x1a\x0d\x0a\x0bdescription\x1a\x04\x0a\x02up\"D\x0a>\x1a\x0c\x0a\x0ainterfaces\x1a\x19\x0a\x09interface\x12\x0c\x0a\x04name\x12\x04eth0\x1a\x08\x0a\x06config\x1a\x09\x0a\x07enabled\x1a\x02 \x01\"A\x0a:\x1a\x0c\x0a\x0ainterfaces\x1a\x19\x0a\x09interface\x12\x0c\x0a\x04name\x12\x04eth0\x1a\x08\x0a\x06config\x1a\x05\x0a\x03mtu\x1a\x03\x18\xdc\x0b\";\x0a1\x1a\x0c\x0a\x0ainterfaces\x1a\x19\x0a\x09interface\x12\x0c\x0a\x04name\x12\x04eth0\x1a\x06\x0a\x04name\x1a\x06\x0a\x04eth0\"\x1d\x0a\x0e\x1a\x05\x0a\x03lab\x1a\x05\x0a\x03big\x1a\x0b\x18\xff\xff\xff\xff\xff\xff\xff\xff\xff\x01\"\x17\x0a\x0f\x1a\x05\x0a\x03lab\x1a\x06\x0a\x04blob\x1a\x04*\x02\x01\x02\"\x1a\x0a\x0f\x1a\x05\x0a\x03lab\x1a\x06\x0a\x04rate\x1a\x07:\x05\x08\x96\x01\x10\x02\"\x1f\x0a\x0f\x1a\x05\x0a\x03lab\x1a\x06\x0a\x04tags\x1a\x0cB\x0a\x0a\x03\x0a\x01b\x0a\x03\x0a\x01a\"\x18\x0a\x0e\x1a\x05\x0a\x03lab\x1a\x05\x0a\x03via\x1a\x06\x0a\x04eth0\"'\x0a \x1a\x08\x0a\x06system\x1a\x08\x0a\x06config\x1a\x0a\x0a\x08hostname\x1a\x03\x0a\x01r",
        ),
    },
    // the root as one value
    Call {
        method: Method::Get,
        request: b"\x12\x00",
        now: 1000,
        answer: Answer::Reply(
            b"\x0a\xa3\x02\x08\xe8\x07\"\x9d\x02\x0a\x00\x1a\x98\x02R\x95\x02{\"lab:lab\":{\"big\":\"18446744073709551615\",\"blob\":\"AQI=\",\"rate\":\"1.5\",\"tags\":[\"b\",\"a\"],\"via\":\"eth0\"},\"openconfig-interfaces:interfaces\":{\"interface\":[{\"config\":{\"description\":\"up\",\"enabled\":true,\"mtu\":1500},\"name\":\"eth0\"}]},\"openconfig-system:system\":{\"config\":{\"hostname\":\"r\"}}}",
        ),
    },
    // and in JSON_IETF
    Call {
        method: Method::Get,
        request: b"\x12\x00(\x04",
        now: 1000,
        answer: Answer::Reply(
            b"\x0a\xa3\x02\x08\xe8\x07\"\x9d\x02\x0a\x00\x1a\x98\x02Z\x95\x02{\"lab:lab\":{\"big\":\"18446744073709551615\",\"blob\":\"AQI=\",\"rate\":\"1.5\",\"tags\":[\"b\",\"a\"],\"via\":\"eth0\"},\"openconfig-interfaces:interfaces\":{\"interface\":[{\"config\":{\"description\":\"up\",\"enabled\":true,\"mtu\":1500},\"name\":\"eth0\"}]},\"openconfig-system:system\":{\"config\":{\"hostname\":\"r\"}}}",
        ),
    },
    // two containers
    Call {
        method: Method::Get,
        request: b"\x12\x07\x1a\x05\x0a\x03lab\x12\x0e\x1a\x0c\x0a\x0ainterfaces(\x04",
        now: 1000,
        answer: Answer::Reply(
            b"\x0a}\x08\xe8\x07\"x\x0a\x07\x1a\x05\x0a\x03lab\x1amZk{\"lab:big\":\"18446744073709551615\",\"lab:blob\":\"AQI=\",\"lab:rate\":\"1.5\",\"lab:tags\":[\"b\",\"a\"],\"lab:via\":\"eth0\"}\x0a\x87\x01\x08\xe8\x07\"\x81\x01\x0a\x0e\x1a\x0c\x0a\x0ainterfaces\x1aoZm{\"openconfig-interfaces:interface\":[{\"config\":{\"description\":\"up\",\"enabled\":true,\"mtu\":1500},\"name\":\"eth0\"}]}",
        ),
    },
    // leaves, and a leaf-list
    Call {
        method: Method::Get,
        request: b"\x12:\x1a\x0c\x0a\x0ainterfaces\x1a\x19\x0a\x09interface\x12\x0c\x0a\x04name\x12\x04eth0\x1a\x08\x0a\x06config\x1a\x05\x0a\x03mtu\x12\x0f\x1a\x05\x0a\x03lab\x1a\x06\x0a\x04tags\x12\x0f\x1a\x05\x0a\x03lab\x1a\x06\x0a\x04rate",
        now: 1000,
        answer: Answer::Reply(
            b"\x0aI\x08\xe8\x07\"D\x0a:\x1a\x0c\x0a\x0ainterfaces\x1a\x19\x0a\x09interface\x12\x0c\x0a\x04name\x12\x04eth0\x1a\x08\x0a\x06config\x1a\x05\x0a\x03mtu\x1a\x06R\x041500\x0a#\x08\xe8\x07\"\x1e\x0a\x0f\x1a\x05\x0a\x03lab\x1a\x06\x0a\x04tags\x1a\x0bR\x09[\"b\",\"a\"]\x0a\x1f\x08\xe8\x07\"\x1a\x0a\x0f\x1a\x05\x0a\x03lab\x1a\x06\x0a\x04rate\x1a\x07R\x05\"1.5\"",
        ),
    },
    // a leaf as a scalar
    Call {
        method: Method::Get,
        request: b"\x12:\x1a\x0c\x0a\x0ainterfaces\x1a\x19\x0a\x09interface\x12\x0c\x0a\x04name\x12\x04eth0\x1a\x08\x0a\x06config\x1a\x05\x0a\x03mtu(\x02",
        now: 1000,
        answer: Answer::Reply(
            b"\x0aF\x08\xe8\x07\"A\x0a:\x1a\x0c\x0a\x0ainterfaces\x1a\x19\x0a\x09interface\x12\x0c\x0a\x04name\x12\x04eth0\x1a\x08\x0a\x06config\x1a\x05\x0a\x03mtu\x1a\x03\x18\xdc\x0b",
        ),
    },
    // a list without its keys: each row
    Call {
        method: Method::Get,
        request: b"\x12\x1b\x1a\x0c\x0a\x0ainterfaces\x1a\x0b\x0a\x09interface",
        now: 1000,
        answer: Answer::Reply(
            b"\x0a\xa0\x02\x08\xe8\x07\"L\x0aB\x1a\x0c\x0a\x0ainterfaces\x1a\x19\x0a\x09interface\x12\x0c\x0a\x04name\x12\x04eth0\x1a\x08\x0a\x06config\x1a\x0d\x0a\x0bdescription\x1a\x06R\x04\"up\"\"H\x0a>\x1a\x0c\x0a\x0ainterfaces\x1a\x19\x0a\x09interface\x12\x0c\x0a\x04name\x12\x04eth0\x1a\x08\x0a\x06config\x1a\x09\x0a\x07enabled\x1a\x06R\x04true\"D\x0a:\x1a\x0c\x0a\x0ainterfaces\x1a\x19\x0a\x09interface\x12\x0c\x0a\x04name\x12\x04eth0\x1a\x08\x0a\x06config\x1a\x05\x0a\x03mtu\x1a\x06R\x041500\"=\x0a1\x1a\x0c\x0a\x0ainterfaces\x1a\x19\x0a\x09interface\x12\x0c\x0a\x04name\x12\x04eth0\x1a\x06\x0a\x04name\x1a\x08R\x06\"eth0\"",
        ),
    },
    // a wildcard for a key
    Call {
        method: Method::Get,
        request: b"\x127\x1a\x0c\x0a\x0ainterfaces\x1a\x16\x0a\x09interface\x12\x09\x0a\x04name\x12\x01*\x1a\x08\x0a\x06config\x1a\x05\x0a\x03mtu(\x04",
        now: 1000,
        answer: Answer::Reply(
            b"\x0aI\x08\xe8\x07\"D\x0a:\x1a\x0c\x0a\x0ainterfaces\x1a\x19\x0a\x09interface\x12\x0c\x0a\x04name\x12\x04eth0\x1a\x08\x0a\x06config\x1a\x05\x0a\x03mtu\x1a\x06Z\x041500",
        ),
    },
    // a wildcard for elements
    Call {
        method: Method::Get,
        request: b"\x12\x0e\x1a\x05\x0a\x03...\x1a\x05\x0a\x03mtu",
        now: 1000,
        answer: Answer::Reply(
            b"\x0aI\x08\xe8\x07\"D\x0a:\x1a\x0c\x0a\x0ainterfaces\x1a\x19\x0a\x09interface\x12\x0c\x0a\x04name\x12\x04eth0\x1a\x08\x0a\x06config\x1a\x05\x0a\x03mtu\x1a\x06R\x041500",
        ),
    },
    // a wildcard for a name
    Call {
        method: Method::Get,
        request: b"\x12\x0c\x1a\x05\x0a\x03lab\x1a\x03\x0a\x01*(\x04",
        now: 1000,
        answer: Answer::Reply(
            b"\x0a\xa4\x01\x08\xe8\x07\"*\x0a\x0e\x1a\x05\x0a\x03lab\x1a\x05\x0a\x03big\x1a\x18Z\x16\"18446744073709551615\"\"\x1b\x0a\x0f\x1a\x05\x0a\x03lab\x1a\x06\x0a\x04blob\x1a\x08Z\x06\"AQI=\"\"\x1a\x0a\x0f\x1a\x05\x0a\x03lab\x1a\x06\x0a\x04rate\x1a\x07Z\x05\"1.5\"\"\x1e\x0a\x0f\x1a\x05\x0a\x03lab\x1a\x06\x0a\x04tags\x1a\x0bZ\x09[\"b\",\"a\"]\"\x1a\x0a\x0e\x1a\x05\x0a\x03lab\x1a\x05\x0a\x03via\x1a\x08Z\x06\"eth0\"",
        ),
    },
    // behind a prefix
    Call {
        method: Method::Get,
        request: b"\x0a)\x1a\x0c\x0a\x0ainterfaces\x1a\x19\x0a\x09interface\x12\x0c\x0a\x04name\x12\x04eth0\x12\x11\x1a\x08\x0a\x06config\x1a\x05\x0a\x03mtu\x12\x08\x1a\x06\x0a\x04name(\x04",
        now: 1000,
        answer: Answer::Reply(
            b"\x0aI\x08\xe8\x07\"D\x0a:\x1a\x0c\x0a\x0ainterfaces\x1a\x19\x0a\x09interface\x12\x0c\x0a\x04name\x12\x04eth0\x1a\x08\x0a\x06config\x1a\x05\x0a\x03mtu\x1a\x06Z\x041500\x0aB\x08\xe8\x07\"=\x0a1\x1a\x0c\x0a\x0ainterfaces\x1a\x19\x0a\x09interface\x12\x0c\x0a\x04name\x12\x04eth0\x1a\x06\x0a\x04name\x1a\x08Z\x06\"eth0\"",
        ),
    },
    // a target in the prefix
    Call {
        method: Method::Get,
        request: b"\x0a%\x12\x0aopenconfig\x1a\x08\x0a\x06system\x1a\x08\x0a\x06config\"\x03dev\x12\x0c\x1a\x0a\x0a\x08hostname(\x02",
        now: 1000,
        answer: Answer::Reply(
            b"\x0a3\x08\xe8\x07\x12\x05\"\x03dev\"'\x0a \x1a\x08\x0a\x06system\x1a\x08\x0a\x06config\x1a\x0a\x0a\x08hostname\x1a\x03\x0a\x01r",
        ),
    },
    // a path twice
    Call {
        method: Method::Get,
        request: b"\x12:\x1a\x0c\x0a\x0ainterfaces\x1a\x19\x0a\x09interface\x12\x0c\x0a\x04name\x12\x04eth0\x1a\x08\x0a\x06config\x1a\x05\x0a\x03mtu\x12:\x1a\x0c\x0a\x0ainterfaces\x1a\x19\x0a\x09interface\x12\x0c\x0a\x04name\x12\x04eth0\x1a\x08\x0a\x06config\x1a\x05\x0a\x03mtu",
        now: 1000,
        answer: Answer::Reply(
            b"\x0aI\x08\xe8\x07\"D\x0a:\x1a\x0c\x0a\x0ainterfaces\x1a\x19\x0a\x09interface\x12\x0c\x0a\x04name\x12\x04eth0\x1a\x08\x0a\x06config\x1a\x05\x0a\x03mtu\x1a\x06R\x041500\x0aI\x08\xe8\x07\"D\x0a:\x1a\x0c\x0a\x0ainterfaces\x1a\x19\x0a\x09interface\x12\x0c\x0a\x04name\x12\x04eth0\x1a\x08\x0a\x06config\x1a\x05\x0a\x03mtu\x1a\x06R\x041500",
        ),
    },
    // no path
    Call {
        method: Method::Get,
        request: b"",
        now: 1000,
        answer: Answer::Reply(b""),
    },
    // CONFIG, and a commit that isn't looked at
    Call {
        method: Method::Get,
        request: b"\x12 \x1a\x08\x0a\x06system\x1a\x08\x0a\x06config\x1a\x0a\x0a\x08hostname\x18\x01:\x0b\"\x09\x0a\x01t\x12\x04\x0a\x02\x08<",
        now: 1000,
        answer: Answer::Reply(
            b"\x0a.\x08\xe8\x07\")\x0a \x1a\x08\x0a\x06system\x1a\x08\x0a\x06config\x1a\x0a\x0a\x08hostname\x1a\x05R\x03\"r\"",
        ),
    },
];

/// Each refusal that a message causes, behind a Set of one leaf.
pub const REFUSED: &[Call] = &[
    Call {
        method: Method::Set,
        request: b"\"'\x0a \x1a\x08\x0a\x06system\x1a\x08\x0a\x06config\x1a\x0a\x0a\x08hostname\x1a\x03\x0a\x01r",
        now: 1000,
        answer: Answer::Reply(
            b"\x12$\x12 \x1a\x08\x0a\x06system\x1a\x08\x0a\x06config\x1a\x0a\x0a\x08hostname \x03 \xe8\x07",
        ),
    },
    // no message
    Call {
        method: Method::Get,
        request: b"\x0b",
        now: 1000,
        answer: Answer::Refused(Refusal::BadMessage),
    },
    // no message, which says STATE
    Call {
        method: Method::Get,
        request: b"\x18\x02\x0a\x05a",
        now: 1000,
        answer: Answer::Refused(Refusal::BadMessage),
    },
    // a path that is no message
    Call {
        method: Method::Get,
        request: b"\x12\x01\x1a",
        now: 1000,
        answer: Answer::Refused(Refusal::BadMessage),
    },
    // STATE
    Call {
        method: Method::Get,
        request: b"\x12 \x1a\x08\x0a\x06system\x1a\x08\x0a\x06config\x1a\x0a\x0a\x08hostname\x18\x02",
        now: 1000,
        answer: Answer::Refused(Refusal::Unsupported),
    },
    // OPERATIONAL
    Call {
        method: Method::Get,
        request: b"\x12 \x1a\x08\x0a\x06system\x1a\x08\x0a\x06config\x1a\x0a\x0a\x08hostname\x18\x03",
        now: 1000,
        answer: Answer::Refused(Refusal::Unsupported),
    },
    // BYTES
    Call {
        method: Method::Get,
        request: b"\x12 \x1a\x08\x0a\x06system\x1a\x08\x0a\x06config\x1a\x0a\x0a\x08hostname(\x01",
        now: 1000,
        answer: Answer::Refused(Refusal::Unsupported),
    },
    // ASCII
    Call {
        method: Method::Get,
        request: b"\x12 \x1a\x08\x0a\x06system\x1a\x08\x0a\x06config\x1a\x0a\x0a\x08hostname(\x03",
        now: 1000,
        answer: Answer::Refused(Refusal::Unsupported),
    },
    // an unknown encoding
    Call {
        method: Method::Get,
        request: b"\x12 \x1a\x08\x0a\x06system\x1a\x08\x0a\x06config\x1a\x0a\x0a\x08hostname(\x05",
        now: 1000,
        answer: Answer::Refused(Refusal::Unsupported),
    },
    // a choice of models
    Call {
        method: Method::Get,
        request: b"\x12 \x1a\x08\x0a\x06system\x1a\x08\x0a\x06config\x1a\x0a\x0a\x08hostname2\x05\x0a\x03lab",
        now: 1000,
        answer: Answer::Refused(Refusal::Unsupported),
    },
    // another extension
    Call {
        method: Method::Get,
        request: b"\x12 \x1a\x08\x0a\x06system\x1a\x08\x0a\x06config\x1a\x0a\x0a\x08hostname:\x00",
        now: 1000,
        answer: Answer::Refused(Refusal::Unsupported),
    },
    // another origin
    Call {
        method: Method::Get,
        request: b"\x12\x0f\x12\x03cli\x1a\x08\x0a\x06system",
        now: 1000,
        answer: Answer::Refused(Refusal::Unsupported),
    },
    // another origin in the prefix
    Call {
        method: Method::Get,
        request: b"\x0a\x09\x12\x07rfc7951\x12 \x1a\x08\x0a\x06system\x1a\x08\x0a\x06config\x1a\x0a\x0a\x08hostname",
        now: 1000,
        answer: Answer::Refused(Refusal::Unsupported),
    },
    // the old element
    Call {
        method: Method::Get,
        request: b"\x12\x08\x0a\x06system",
        now: 1000,
        answer: Answer::Refused(Refusal::Unsupported),
    },
    // a long path in BYTES
    Call {
        method: Method::Get,
        request: b"\x12\xa5\x01\x1a\x03\x0a\x01a\x1a\x03\x0a\x01a\x1a\x03\x0a\x01a\x1a\x03\x0a\x01a\x1a\x03\x0a\x01a\x1a\x03\x0a\x01a\x1a\x03\x0a\x01a\x1a\x03\x0a\x01a\x1a\x03\x0a\x01a\x1a\x03\x0a\x01a\x1a\x03\x0a\x01a\x1a\x03\x0a\x01a\x1a\x03\x0a\x01a\x1a\x03\x0a\x01a\x1a\x03\x0a\x01a\x1a\x03\x0a\x01a\x1a\x03\x0a\x01a\x1a\x03\x0a\x01a\x1a\x03\x0a\x01a\x1a\x03\x0a\x01a\x1a\x03\x0a\x01a\x1a\x03\x0a\x01a\x1a\x03\x0a\x01a\x1a\x03\x0a\x01a\x1a\x03\x0a\x01a\x1a\x03\x0a\x01a\x1a\x03\x0a\x01a\x1a\x03\x0a\x01a\x1a\x03\x0a\x01a\x1a\x03\x0a\x01a\x1a\x03\x0a\x01a\x1a\x03\x0a\x01a\x1a\x03\x0a\x01a(\x01",
        now: 1000,
        answer: Answer::Refused(Refusal::Unsupported),
    },
    // 33 elements
    Call {
        method: Method::Get,
        request: b"\x12\xa5\x01\x1a\x03\x0a\x01a\x1a\x03\x0a\x01a\x1a\x03\x0a\x01a\x1a\x03\x0a\x01a\x1a\x03\x0a\x01a\x1a\x03\x0a\x01a\x1a\x03\x0a\x01a\x1a\x03\x0a\x01a\x1a\x03\x0a\x01a\x1a\x03\x0a\x01a\x1a\x03\x0a\x01a\x1a\x03\x0a\x01a\x1a\x03\x0a\x01a\x1a\x03\x0a\x01a\x1a\x03\x0a\x01a\x1a\x03\x0a\x01a\x1a\x03\x0a\x01a\x1a\x03\x0a\x01a\x1a\x03\x0a\x01a\x1a\x03\x0a\x01a\x1a\x03\x0a\x01a\x1a\x03\x0a\x01a\x1a\x03\x0a\x01a\x1a\x03\x0a\x01a\x1a\x03\x0a\x01a\x1a\x03\x0a\x01a\x1a\x03\x0a\x01a\x1a\x03\x0a\x01a\x1a\x03\x0a\x01a\x1a\x03\x0a\x01a\x1a\x03\x0a\x01a\x1a\x03\x0a\x01a\x1a\x03\x0a\x01a",
        now: 1000,
        answer: Answer::Refused(Refusal::BadPath),
    },
    // 33 with the prefix
    Call {
        method: Method::Get,
        request: b"\x0a\xa0\x01\x1a\x03\x0a\x01a\x1a\x03\x0a\x01a\x1a\x03\x0a\x01a\x1a\x03\x0a\x01a\x1a\x03\x0a\x01a\x1a\x03\x0a\x01a\x1a\x03\x0a\x01a\x1a\x03\x0a\x01a\x1a\x03\x0a\x01a\x1a\x03\x0a\x01a\x1a\x03\x0a\x01a\x1a\x03\x0a\x01a\x1a\x03\x0a\x01a\x1a\x03\x0a\x01a\x1a\x03\x0a\x01a\x1a\x03\x0a\x01a\x1a\x03\x0a\x01a\x1a\x03\x0a\x01a\x1a\x03\x0a\x01a\x1a\x03\x0a\x01a\x1a\x03\x0a\x01a\x1a\x03\x0a\x01a\x1a\x03\x0a\x01a\x1a\x03\x0a\x01a\x1a\x03\x0a\x01a\x1a\x03\x0a\x01a\x1a\x03\x0a\x01a\x1a\x03\x0a\x01a\x1a\x03\x0a\x01a\x1a\x03\x0a\x01a\x1a\x03\x0a\x01a\x1a\x03\x0a\x01a\x12\x05\x1a\x03\x0a\x01a",
        now: 1000,
        answer: Answer::Refused(Refusal::BadPath),
    },
    // 32 elements
    Call {
        method: Method::Get,
        request: b"\x12\xa0\x01\x1a\x03\x0a\x01a\x1a\x03\x0a\x01a\x1a\x03\x0a\x01a\x1a\x03\x0a\x01a\x1a\x03\x0a\x01a\x1a\x03\x0a\x01a\x1a\x03\x0a\x01a\x1a\x03\x0a\x01a\x1a\x03\x0a\x01a\x1a\x03\x0a\x01a\x1a\x03\x0a\x01a\x1a\x03\x0a\x01a\x1a\x03\x0a\x01a\x1a\x03\x0a\x01a\x1a\x03\x0a\x01a\x1a\x03\x0a\x01a\x1a\x03\x0a\x01a\x1a\x03\x0a\x01a\x1a\x03\x0a\x01a\x1a\x03\x0a\x01a\x1a\x03\x0a\x01a\x1a\x03\x0a\x01a\x1a\x03\x0a\x01a\x1a\x03\x0a\x01a\x1a\x03\x0a\x01a\x1a\x03\x0a\x01a\x1a\x03\x0a\x01a\x1a\x03\x0a\x01a\x1a\x03\x0a\x01a\x1a\x03\x0a\x01a\x1a\x03\x0a\x01a\x1a\x03\x0a\x01a",
        now: 1000,
        answer: Answer::Refused(Refusal::NotFound),
    },
    // 32 in the prefix
    Call {
        method: Method::Get,
        request: b"\x0a\xa0\x01\x1a\x03\x0a\x01a\x1a\x03\x0a\x01a\x1a\x03\x0a\x01a\x1a\x03\x0a\x01a\x1a\x03\x0a\x01a\x1a\x03\x0a\x01a\x1a\x03\x0a\x01a\x1a\x03\x0a\x01a\x1a\x03\x0a\x01a\x1a\x03\x0a\x01a\x1a\x03\x0a\x01a\x1a\x03\x0a\x01a\x1a\x03\x0a\x01a\x1a\x03\x0a\x01a\x1a\x03\x0a\x01a\x1a\x03\x0a\x01a\x1a\x03\x0a\x01a\x1a\x03\x0a\x01a\x1a\x03\x0a\x01a\x1a\x03\x0a\x01a\x1a\x03\x0a\x01a\x1a\x03\x0a\x01a\x1a\x03\x0a\x01a\x1a\x03\x0a\x01a\x1a\x03\x0a\x01a\x1a\x03\x0a\x01a\x1a\x03\x0a\x01a\x1a\x03\x0a\x01a\x1a\x03\x0a\x01a\x1a\x03\x0a\x01a\x1a\x03\x0a\x01a\x1a\x03\x0a\x01a\x12\x00",
        now: 1000,
        answer: Answer::Refused(Refusal::NotFound),
    },
    // a nameless element behind a path without rows
    Call {
        method: Method::Get,
        request: b"\x12\x08\x1a\x06\x0a\x04none\x12\x0c\x1a\x08\x0a\x06system\x1a\x00",
        now: 1000,
        answer: Answer::Refused(Refusal::BadPath),
    },
    // a target of 1,025 octets
    Call {
        method: Method::Get,
        request: b"\x0a\x84\x08\"\x81\x08xxxxxxxxxxxxxxxxxxxxxxxxxxxxxxxxxxxxxxxxxxxxxxxxxxxxxxxxxxxxxxxxxxxxxxxxxxxxxxxxxxxxxxxxxxxxxxxxxxxxxxxxxxxxxxxxxxxxxxxxxxxxxxxxxxxxxxxxxxxxxxxxxxxxxxxxxxxxxxxxxxxxxxxxxxxxxxxxxxxxxxxxxxxxxxxxxxxxxxxxxxxxxxxxxxxxxxxxxxxxxxxxxxxxxxxxxxxxxxxxxxxxxxxxxxxxxxxxxxxxxxxxxxxxxxxxxxxxxxxxxxxxxxxxxxxxxxxxxxxxxxxxxxxxxxxxxxxxxxxxxxxxxxxxxxxxxxxxxxxxxxxxxxxxxxxxxxxxxxxxxxxxxxxxxxxxxxxxxxxxxxxxxxxxxxxxxxxxxxxxxxxxxxxxxxxxxxxxxxxxxxxxxxxxxxxxxxxxxxxxxxxxxxxxxxxxxxxxxxxxxxxxxxxxxxxxxxxxxxxxxxxxxxxxxxxxxxxxxxxxxxxxxxxxxxxxxxxxxxxxxxxxxxxxxxxxxxxxxxxxxxxxxxxxxxxxxxxxxxxxxxxxxxxxxxxxxxxxxxxxxxxxxxxxxxxxxxxxxxxxxxxxxxxxxxxxxxxxxxxxxxxxxxxxxxxxxxxxxxxxxxxxxxxxxxxxxxxxxxxxxxxxxxxxxxxxxxxxxxxxxxxxxxxxxxxxxxxxxxxxxxxxxxxxxxxxxxxxxxxxxxxxxxxxxxxxxxxxxxxxxxxxxxxxxxxxxxxxxxxxxxxxxxxxxxxxxxxxxxxxxxxxxxxxxxxxxxxxxxxxxxxxxxxxxxxxxxxxxxxxxxxxxxxxxxxxxxxxxxxxxxxxxxxxxxxxxxxxxxxxxxxxxxxxxxxxxxxxxxxxxxxxxxxxxxxxxxxxxxxxxxxxxxxxxxxxxxxxxxxxxxxxxxxxxxxxxxxxxxxxxxxxxxxxxxxxxxxxxxxxxxxxxxxxxxxxxxxxxxxxxxxxxxxxxxxxxxxxxxxxxxxxxxxxxxxxxxxxxxxxxxxxx\x12 \x1a\x08\x0a\x06system\x1a\x08\x0a\x06config\x1a\x0a\x0a\x08hostname",
        now: 1000,
        answer: Answer::Refused(Refusal::BadPath),
    },
    // and no path
    Call {
        method: Method::Get,
        request: b"\x0a\x84\x08\"\x81\x08xxxxxxxxxxxxxxxxxxxxxxxxxxxxxxxxxxxxxxxxxxxxxxxxxxxxxxxxxxxxxxxxxxxxxxxxxxxxxxxxxxxxxxxxxxxxxxxxxxxxxxxxxxxxxxxxxxxxxxxxxxxxxxxxxxxxxxxxxxxxxxxxxxxxxxxxxxxxxxxxxxxxxxxxxxxxxxxxxxxxxxxxxxxxxxxxxxxxxxxxxxxxxxxxxxxxxxxxxxxxxxxxxxxxxxxxxxxxxxxxxxxxxxxxxxxxxxxxxxxxxxxxxxxxxxxxxxxxxxxxxxxxxxxxxxxxxxxxxxxxxxxxxxxxxxxxxxxxxxxxxxxxxxxxxxxxxxxxxxxxxxxxxxxxxxxxxxxxxxxxxxxxxxxxxxxxxxxxxxxxxxxxxxxxxxxxxxxxxxxxxxxxxxxxxxxxxxxxxxxxxxxxxxxxxxxxxxxxxxxxxxxxxxxxxxxxxxxxxxxxxxxxxxxxxxxxxxxxxxxxxxxxxxxxxxxxxxxxxxxxxxxxxxxxxxxxxxxxxxxxxxxxxxxxxxxxxxxxxxxxxxxxxxxxxxxxxxxxxxxxxxxxxxxxxxxxxxxxxxxxxxxxxxxxxxxxxxxxxxxxxxxxxxxxxxxxxxxxxxxxxxxxxxxxxxxxxxxxxxxxxxxxxxxxxxxxxxxxxxxxxxxxxxxxxxxxxxxxxxxxxxxxxxxxxxxxxxxxxxxxxxxxxxxxxxxxxxxxxxxxxxxxxxxxxxxxxxxxxxxxxxxxxxxxxxxxxxxxxxxxxxxxxxxxxxxxxxxxxxxxxxxxxxxxxxxxxxxxxxxxxxxxxxxxxxxxxxxxxxxxxxxxxxxxxxxxxxxxxxxxxxxxxxxxxxxxxxxxxxxxxxxxxxxxxxxxxxxxxxxxxxxxxxxxxxxxxxxxxxxxxxxxxxxxxxxxxxxxxxxxxxxxxxxxxxxxxxxxxxxxxxxxxxxxxxxxxxxxxxxxxxxxxxxxxxxxxxxxxxxxxxxxxxxxxxxxxxxxxxxxxxxxxxxxxxxxxxxxxxxxxxxxx",
        now: 1000,
        answer: Answer::Refused(Refusal::BadPath),
    },
    // a target of 1,024 octets
    Call {
        method: Method::Get,
        request: b"\x0a\x83\x08\"\x80\x08xxxxxxxxxxxxxxxxxxxxxxxxxxxxxxxxxxxxxxxxxxxxxxxxxxxxxxxxxxxxxxxxxxxxxxxxxxxxxxxxxxxxxxxxxxxxxxxxxxxxxxxxxxxxxxxxxxxxxxxxxxxxxxxxxxxxxxxxxxxxxxxxxxxxxxxxxxxxxxxxxxxxxxxxxxxxxxxxxxxxxxxxxxxxxxxxxxxxxxxxxxxxxxxxxxxxxxxxxxxxxxxxxxxxxxxxxxxxxxxxxxxxxxxxxxxxxxxxxxxxxxxxxxxxxxxxxxxxxxxxxxxxxxxxxxxxxxxxxxxxxxxxxxxxxxxxxxxxxxxxxxxxxxxxxxxxxxxxxxxxxxxxxxxxxxxxxxxxxxxxxxxxxxxxxxxxxxxxxxxxxxxxxxxxxxxxxxxxxxxxxxxxxxxxxxxxxxxxxxxxxxxxxxxxxxxxxxxxxxxxxxxxxxxxxxxxxxxxxxxxxxxxxxxxxxxxxxxxxxxxxxxxxxxxxxxxxxxxxxxxxxxxxxxxxxxxxxxxxxxxxxxxxxxxxxxxxxxxxxxxxxxxxxxxxxxxxxxxxxxxxxxxxxxxxxxxxxxxxxxxxxxxxxxxxxxxxxxxxxxxxxxxxxxxxxxxxxxxxxxxxxxxxxxxxxxxxxxxxxxxxxxxxxxxxxxxxxxxxxxxxxxxxxxxxxxxxxxxxxxxxxxxxxxxxxxxxxxxxxxxxxxxxxxxxxxxxxxxxxxxxxxxxxxxxxxxxxxxxxxxxxxxxxxxxxxxxxxxxxxxxxxxxxxxxxxxxxxxxxxxxxxxxxxxxxxxxxxxxxxxxxxxxxxxxxxxxxxxxxxxxxxxxxxxxxxxxxxxxxxxxxxxxxxxxxxxxxxxxxxxxxxxxxxxxxxxxxxxxxxxxxxxxxxxxxxxxxxxxxxxxxxxxxxxxxxxxxxxxxxxxxxxxxxxxxxxxxxxxxxxxxxxxxxxxxxxxxxxxxxxxxxxxxxxxxxxxxxxxxxxxxxxxxxxxxxxxxxxxxxxxxxxxxxxxxxxxxxxxxxxxxxx\x12\x08\x1a\x06\x0a\x04none",
        now: 1000,
        answer: Answer::Refused(Refusal::NotFound),
    },
    // the second path has no rows
    Call {
        method: Method::Get,
        request: b"\x12 \x1a\x08\x0a\x06system\x1a\x08\x0a\x06config\x1a\x0a\x0a\x08hostname\x12\x1c\x1a\x08\x0a\x06system\x1a\x08\x0a\x06config\x1a\x06\x0a\x04motd",
        now: 1000,
        answer: Answer::Refused(Refusal::NotFound),
    },
    // no such node
    Call {
        method: Method::Get,
        request: b"\x12\x0b\x1a\x09\x0a\x07nowhere",
        now: 1000,
        answer: Answer::Refused(Refusal::NotFound),
    },
    // a key that no row has
    Call {
        method: Method::Get,
        request: b"\x12\x1c\x1a\x08\x0a\x06system\x1a\x10\x0a\x06config\x12\x06\x0a\x01k\x12\x01v",
        now: 1000,
        answer: Answer::Refused(Refusal::NotFound),
    },
    // nothing there
    Call {
        method: Method::Get,
        request: b"\x12\x0e\x1a\x0c\x0a\x0ainterfaces",
        now: 1000,
        answer: Answer::Refused(Refusal::NotFound),
    },
    // not one message
    Call {
        method: Method::Subscribe,
        request: b"",
        now: 1000,
        answer: Answer::Refused(Refusal::Unsupported),
    },
    // no message
    Call {
        method: Method::Capabilities,
        request: b"\x0b",
        now: 1000,
        answer: Answer::Refused(Refusal::BadMessage),
    },
    // fields that aren't looked at
    Call {
        method: Method::Capabilities,
        request: b"\x0a\x03abcP\x07",
        now: 1000,
        answer: Answer::Reply(
            b"\x0a\x13\x0a\x11openconfig-system\x0a\x17\x0a\x15openconfig-interfaces\x0a\x05\x0a\x03lab\x12\x03\x00\x04\x02\x1a\x060.10.0",
        ),
    },
    // no message
    Call {
        method: Method::Set,
        request: b"\x0b",
        now: 1000,
        answer: Answer::Refused(Refusal::BadMessage),
    },
    // another extension
    Call {
        method: Method::Set,
        request: b"\"\x12\x0a\x0b\x1a\x09\x0a\x07nowhere\x1a\x03\x0a\x01r*\x00",
        now: 1000,
        answer: Answer::Refused(Refusal::Unsupported),
    },
    // a confirm with an update
    Call {
        method: Method::Set,
        request: b"\"\x12\x0a\x0b\x1a\x09\x0a\x07nowhere\x1a\x03\x0a\x01r*\x07\"\x05\x0a\x01t\x1a\x00",
        now: 1000,
        answer: Answer::Refused(Refusal::MixedAction),
    },
    // an empty id
    Call {
        method: Method::Set,
        request: b"\"\x12\x0a\x0b\x1a\x09\x0a\x07nowhere\x1a\x03\x0a\x01r*\x08\"\x06\x12\x04\x0a\x02\x08<",
        now: 1000,
        answer: Answer::Refused(Refusal::BadId),
    },
    // more than a day
    Call {
        method: Method::Set,
        request: b"\"\x12\x0a\x0b\x1a\x09\x0a\x07nowhere\x1a\x03\x0a\x01r*\x0d\"\x0b\x0a\x01t\x12\x06\x0a\x04\x08\x81\xa3\x05",
        now: 1000,
        answer: Answer::Refused(Refusal::BadDuration),
    },
    // 33 elements
    Call {
        method: Method::Set,
        request: b"\x12\xa5\x01\x1a\x03\x0a\x01a\x1a\x03\x0a\x01a\x1a\x03\x0a\x01a\x1a\x03\x0a\x01a\x1a\x03\x0a\x01a\x1a\x03\x0a\x01a\x1a\x03\x0a\x01a\x1a\x03\x0a\x01a\x1a\x03\x0a\x01a\x1a\x03\x0a\x01a\x1a\x03\x0a\x01a\x1a\x03\x0a\x01a\x1a\x03\x0a\x01a\x1a\x03\x0a\x01a\x1a\x03\x0a\x01a\x1a\x03\x0a\x01a\x1a\x03\x0a\x01a\x1a\x03\x0a\x01a\x1a\x03\x0a\x01a\x1a\x03\x0a\x01a\x1a\x03\x0a\x01a\x1a\x03\x0a\x01a\x1a\x03\x0a\x01a\x1a\x03\x0a\x01a\x1a\x03\x0a\x01a\x1a\x03\x0a\x01a\x1a\x03\x0a\x01a\x1a\x03\x0a\x01a\x1a\x03\x0a\x01a\x1a\x03\x0a\x01a\x1a\x03\x0a\x01a\x1a\x03\x0a\x01a\x1a\x03\x0a\x01a\"\x12\x0a\x0b\x1a\x09\x0a\x07nowhere\x1a\x03\x0a\x01r",
        now: 1000,
        answer: Answer::Refused(Refusal::BadPath),
    },
    // no such node
    Call {
        method: Method::Set,
        request: b"\"\x12\x0a\x0b\x1a\x09\x0a\x07nowhere\x1a\x03\x0a\x01r",
        now: 1000,
        answer: Answer::Refused(Refusal::NotInSchema),
    },
    // a number at a text
    Call {
        method: Method::Set,
        request: b"\"&\x0a \x1a\x08\x0a\x06system\x1a\x08\x0a\x06config\x1a\x0a\x0a\x08hostname\x1a\x02\x18\x01",
        now: 1000,
        answer: Answer::Refused(Refusal::BadValue),
    },
    // a reference to nothing
    Call {
        method: Method::Set,
        request: b"\"\x18\x0a\x0e\x1a\x05\x0a\x03lab\x1a\x05\x0a\x03via\x1a\x06\x0a\x04eth7",
        now: 1000,
        answer: Answer::Refused(Refusal::TreeInvalid),
    },
    // nothing was changed
    Call {
        method: Method::Get,
        request: b"\x12\x00",
        now: 1000,
        answer: Answer::Reply(
            b"\x0aC\x08\xe8\x07\">\x0a\x00\x1a:R8{\"openconfig-system:system\":{\"config\":{\"hostname\":\"r\"}}}",
        ),
    },
];
