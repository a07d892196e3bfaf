use std::snapshot::Snapshot;

/// A connection as its session is handed it.
#[derive(Drop)]
pub struct Link<I, O, P> {
    /// Connections are counted from 1, in the order in which they came.
    pub number: u32,
    pub input: I,
    pub output: O,
    /// A port of the book for this session alone.
    pub port: P,
}

/// What a session hands back, and how it ended.
#[derive(Drop)]
pub struct LinkLeft<I, O, P, H> {
    pub how: H,
    pub input: I,
    pub output: O,
    pub port: P,
}

/// What is kept of a connection that has ended. Its halves are gone, so that its socket is closed; contracts alone see what
/// they were at the session's end.
#[derive(Drop)]
pub struct LinkEnd<I, O, H> {
    pub number: u32,
    pub author: u32,
    pub how: H,
    pub input: Snapshot<I>,
    pub output: Snapshot<O>,
}
