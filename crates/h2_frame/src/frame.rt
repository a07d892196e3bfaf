/// The nine octets before a frame's payload (RFC 9113 section 4.1), without the reserved bit.
#[derive(Clone, Copy, Debug, PartialEq, Eq)]
pub struct Head {
    /// How many octets of payload follow.
    pub length: u32,
    pub kind: u8,
    pub flags: u8,
    pub stream: u32,
}

/// What stands first in octets.
#[derive(Clone, Copy, Debug, PartialEq, Eq)]
pub enum Got {
    /// A whole frame with this head. It has this many octets, and its payload is those from octet 9 on.
    Frame(Head, usize),
    /// The beginning of a frame.
    More,
    /// A frame that is longer than allowed, with the code of that error (RFC 9113 section 7).
    Bad(u32),
}
