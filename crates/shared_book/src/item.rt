use base_kinds::{Entries, Limits};
use book_port::Happening;
use schema_core::Schema;

/// What a book was opened with. Contracts alone see values of it.
pub struct OpenedWith {
    pub schema: Schema,
    pub limits: Limits,
    /// The history that the opening gave.
    pub base: Entries,
    /// How often the disk had failed by then.
    pub faults: u64,
}

/// What a lock keeps of its book. Contracts alone see values of it.
pub enum SharedItem {
    Opened(OpenedWith),
    Happened(Happening),
}
