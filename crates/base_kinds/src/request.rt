use crate::operation::Rows;
use crate::path::{Path, Paths};
use crate::value::Value;
use base_lists::{Bytes, Seq, Text};

/// The value of an update as a request gives it (gNMI 2.2.3).
#[derive(Drop)]
pub enum Given {
    /// The octets of a JSON text.
    Json(Bytes),
    Scalar(Value),
    Missing,
}

/// One replace or update of a Set as a request gives it.
#[derive(Drop)]
pub struct Change {
    pub path: Path,
    pub given: Given,
}

pub type Changes = Seq<Change>;

/// A duration as a request gives it.
#[derive(Clone, Copy, Debug, PartialEq, Eq)]
pub enum Span {
    Absent,
    /// Seconds and nanoseconds.
    Of(i64, i64),
}

/// What a Set asks for beside its operations (gNMI commit-confirmed extension).
#[derive(Drop)]
pub enum Action {
    Plain,
    /// A trial with this id that lasts so long.
    Trial(Text, Span),
    Confirm(Text),
    Cancel(Text),
    /// The trial with this id lasts so long from now on.
    Extend(Text, Span),
    /// More than one, or a commit without an action.
    Mixed,
}

/// A Set as a request gives it, before anything of it is looked up in a schema (gNMI 3.4.1).
#[derive(Drop)]
pub struct UnresolvedSet {
    pub prefix: Path,
    pub target: Text,
    pub deletes: Paths,
    pub replaces: Changes,
    pub updates: Changes,
    pub action: Action,
    /// The request has something that this target doesn't support.
    pub unsupported: bool,
}

/// How long a subscription lasts (gNMI 3.5.1.5).
#[derive(Clone, Copy, PartialEq, Eq)]
pub enum ListMode {
    Stream,
    Once,
    Poll,
    /// A number that stands for no mode.
    Other,
}

/// When a subscription sends (gNMI 3.5.1.3).
#[derive(Clone, Copy, PartialEq, Eq)]
pub enum SubMode {
    Change,
    Sample,
    /// A number that stands for no mode.
    Other,
}

/// One subscription of a list. Intervals are in nanoseconds.
#[derive(PartialEq, Drop)]
pub struct SubLine {
    pub path: Path,
    pub mode: SubMode,
    pub interval: u64,
    pub suppress: bool,
    pub heartbeat: u64,
}

pub type SubLines = Seq<SubLine>;

/// What a stream sends in one message: the paths that are gone, and the rows that are new or sent again (gNMI 2.1).
#[derive(Drop)]
pub struct Note {
    pub stamp: u64,
    pub deletes: Paths,
    pub updates: Rows,
}
