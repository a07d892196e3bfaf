/// What became of a piece that was offered.
#[derive(Clone, Copy, Debug, PartialEq, Eq)]
pub enum Took {
    Taken,
    /// Octets wait on the stream, and the piece was dropped.
    Busy,
    /// Nothing goes out on the stream any more.
    Gone,
    /// The connection failed, and nothing goes out on it any more.
    WriteFault,
    /// Memory ran out, and nothing goes out on the connection any more.
    NoMemory,
}

/// Whether a stream takes a piece now.
#[derive(Clone, Copy, Debug, PartialEq, Eq)]
pub enum Ready {
    Free,
    Busy,
    Gone,
}
