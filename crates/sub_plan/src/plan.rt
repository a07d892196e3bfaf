use base_kinds::{ListMode, Path, Seq, Text};
use gnmi_kinds::Encoding;

/// When the rows of a group are sent (gNMI 3.5.1.3).
#[derive(Clone, Copy, Debug, PartialEq, Eq)]
pub enum GroupSort {
    /// As soon as they differ: ON_CHANGE.
    Change,
    /// At intervals: SAMPLE.
    Sample,
}

/// Subscriptions that are sent together. Interval and heartbeat are in nanoseconds.
#[derive(Clone, Copy, Debug, PartialEq, Eq)]
pub struct Group {
    pub sort: GroupSort,
    /// How long it is from one sample to the next; 0 in a group that sends changes.
    pub interval: u64,
    /// A sample has only what has changed: suppress_redundant.
    pub suppress: bool,
    /// After how long all rows are sent again though nothing has changed; 0 for never.
    pub heartbeat: u64,
}

pub type Groups = Seq<Group>;

/// One subscription: which rows it covers, and the number of its group, counted from 0.
#[derive(Drop)]
pub struct Line {
    pub pattern: Path,
    pub group: u32,
}

pub type Lines = Seq<Line>;

/// What a Subscribe call asks, once it is accepted.
#[derive(Drop)]
pub struct Plan {
    pub lines: Lines,
    pub groups: Groups,
    pub mode: ListMode,
    /// The state at the beginning isn't sent.
    pub updates_only: bool,
    pub encoding: Encoding,
    /// The name of the target, for the prefix of each notification; empty where none is named.
    pub target: Text,
}
