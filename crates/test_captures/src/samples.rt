//! A call that samples a tree each second, over a tree in which `/a` is `x` at stamp 1000.

/// A list of a sample of all each second, in PROTO.
pub const SAMPLE_LIST: &[u8] = b"\x0a\x0e\x12\x0a\x0a\x00\x10\x02\x18\x80\x94\xeb\xdc\x03\x40\x02";

/// A SetRequest that updates `/a` to `x`.
pub const SET_A: &[u8] = b"\x22\x0e\x0a\x05\x1a\x03\x0a\x01a\x1a\x05\x5a\x03\"x\"";

/// DATA of stream 1: the Notification of `/a` at stamp 1000, the sync, and the next samples.
pub const SAMPLED: &[u8] =
    b"\0\0\x18\0\0\0\0\0\x01\0\0\0\0\x13\x0a\x11\x08\xe8\x07\x22\x0c\x0a\x05\x1a\x03\x0a\x01a\x1a\x03\x0a\x01x\0\0\x07\0\0\0\0\0\x01\0\0\0\0\x02\x18\x01\0\0\x18\0\0\0\0\0\x01\0\0\0\0\x13\x0a\x11\x08\xe8\x07\x22\x0c\x0a\x05\x1a\x03\x0a\x01a\x1a\x03\x0a\x01x\0\0\x18\0\0\0\0\0\x01\0\0\0\0\x13\x0a\x11\x08\xe8\x07\x22\x0c\x0a\x05\x1a\x03\x0a\x01a\x1a\x03\x0a\x01x";

/// Calls of `write` that fail, and how many octets of these are written before: each message goes out in one call.
pub const FAILING_WRITES: &[(u64, usize)] = &[(3, 0), (4, 33), (5, 49), (6, 82), (7, 115)];
