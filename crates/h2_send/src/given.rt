use h2_events::{Piece, RecvEvent};
use std::snapshot::Snapshot;

/// What a wire was given. Nothing but numbers is there at run time.
#[derive(Drop)]
pub enum Given {
    Event(Snapshot<RecvEvent>),
    Piece(u32, Snapshot<Piece>),
    /// A status of HTTP, on a stream.
    Status(u32, u16),
}
