use crate::path::GnmiPath;
use base_kinds::{ListMode, Paths, SubLines};

/// How values are written in a reply (gNMI 2.3).
#[derive(Clone, Copy, Debug, PartialEq, Eq)]
pub enum Encoding {
    Json,
    Proto,
    JsonIetf,
    /// BYTES, ASCII, or a number that stands for no encoding.
    Other,
}

/// What a Get asks, before anything of it is looked up in a schema (gNMI 3.3.1).
#[derive(Drop)]
pub struct GetAsk {
    pub prefix: GnmiPath,
    /// Each of the paths, behind no prefix.
    pub paths: Paths,
    pub encoding: Encoding,
    /// The request has something that this target doesn't support.
    pub unsupported: bool,
}

/// What the list of a Subscribe call asks (gNMI 3.5.1.2).
#[derive(Drop)]
pub struct SubAsk {
    pub prefix: GnmiPath,
    /// The subscriptions, in order, each with its path behind no prefix.
    pub lines: SubLines,
    pub mode: ListMode,
    /// The state at the beginning isn't sent.
    pub updates_only: bool,
    pub encoding: Encoding,
    /// The request has something that this target doesn't support.
    pub unsupported: bool,
}
