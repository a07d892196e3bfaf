//! A connection with one Set, as a client begins it, and what is answered.

/// The preface of a client (RFC 9113 3.4).
pub const PREFACE: &[u8] = b"PRI * HTTP/2.0\r\n\r\nSM\r\n\r\n";

/// The preface, and an empty SETTINGS frame.
pub const BEGIN: &[u8] = b"PRI * HTTP/2.0\r\n\r\nSM\r\n\r\n\0\0\0\x04\0\0\0\0\0";

/// The preface, SETTINGS, WINDOW_UPDATE, the headers of a Set on stream 1, its message of an mtu of 1500, and GOAWAY.
pub const SET: &[u8] = b"PRI * HTTP/2.0\r\n\r\nSM\r\n\r\n\
    \0\0\0\x04\0\0\0\0\0\
    \0\0\x04\x08\0\0\0\0\0\0\x01\0\0\
    \0\0\x4a\x01\x04\0\0\0\x01\
    \x83\x86\x04\x0e/gnmi.gNMI/Set\x01\x01x\x0f\x10\x10application/grpc\
    \0\x02te\x08trailers\x0f\x2b\x01g\0\x0cgrpc-timeout\x025S\
    \0\0\x48\0\x01\0\0\0\x01\0\0\0\0\x43\x22\x41\x0a\x3a\
    \x1a\x0c\x0a\x0ainterfaces\x1a\x19\x0a\x09interface\x12\x0c\x0a\x04name\x12\x04eth0\
    \x1a\x08\x0a\x06config\x1a\x05\x0a\x03mtu\x1a\x03\x18\xdc\x0b\
    \0\0\x08\x07\0\0\0\0\0\0\0\0\0\0\0\0\0";

/// The greeting, the ACK of SETTINGS, WINDOW_UPDATE, the headers of the reply, its message with the stamp 1000, and trailers.
pub const REPLY: &[u8] = b"\0\0\x0c\x04\0\0\0\0\0\0\x03\0\0\0\x20\0\x06\0\0\x40\0\
    \0\0\0\x04\x01\0\0\0\0\
    \0\0\x04\x08\0\0\0\0\0\0\0\0\x48\
    \0\0\x14\x01\x04\0\0\0\x01\x88\x0f\x10\x10application/grpc\
    \0\0\x48\0\0\0\0\0\x01\0\0\0\0\x43\x12\x3e\x12\x3a\
    \x1a\x0c\x0a\x0ainterfaces\x1a\x19\x0a\x09interface\x12\x0c\x0a\x04name\x12\x04eth0\
    \x1a\x08\x0a\x06config\x1a\x05\x0a\x03mtu\x20\x03\x20\xe8\x07\
    \0\0\x0f\x01\x05\0\0\0\x01\0\x0bgrpc-status\x010";
