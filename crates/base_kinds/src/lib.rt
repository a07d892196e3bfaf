//! The plain types of the configuration side, and the definitions of what a history of changes means.
//!
//! Start at specs/Step.antt: what becomes of an ask on a history. History.antt says what a history stands for, Tree.antt what
//! operations do to a tree, Valid.antt which trees are valid, Events.antt what front ends make of all this, and Limits.antt
//! names every bound. specs/worked has examples that compute; the laws stand in the crate history_laws.
#![tactic(auto)]

mod entry;
mod examples;
mod fill;
mod limits;
mod operation;
mod path;
mod record;
mod refusal;
mod request;
mod schema;
mod tree;
mod value;

pub use base_lists::{Bytes, Copied, NoMemory, Ranked, Same, Seq, Text, TextOfFault, Texts, rises};
pub use entry::{Ask, Entries, Entry, Kind, Limits, View, default_limits};
pub use examples::{first_set_is_entry_one, validity_is_six_rules};
pub use fill::Fill;
pub use limits::{
    BARE_RECORD_OCTETS, CLOSING_OCTETS, DEFAULT_DURATION, EMPTY_LOG_OCTETS, GATE_OCTETS,
    LATEST_READING, LEAST_LOG_ENTRIES, LEAST_LOG_OCTETS, LONGEST_DURATION, MOST_ELEMENTS,
    MOST_FRACTION_DIGITS, MOST_ID_OCTETS, MOST_KEYS, MOST_LEAVES, MOST_LOG_ENTRIES,
    MOST_LOG_OCTETS, MOST_MAXIMUM, MOST_SCHEMA_LINE_OCTETS, MOST_SCHEMA_NODES, MOST_SCHEMA_OCTETS,
    MOST_SCRIPT_LINE_OCTETS, MOST_SCRIPT_OCTETS, MOST_WEIGHT, SECOND, SHORTEST_DURATION, is_fit_id,
};
pub use operation::{Act, Op, Ops, Row, Rows};
pub use path::{Elem, Keys, Path, Paths};
pub use refusal::Refusal;
pub use request::{
    Action, Change, Changes, Given, ListMode, Note, Span, SubLine, SubLines, SubMode, UnresolvedSet,
};
pub use schema::{Shape, Sort};
pub use tree::TreeLike;
pub use value::{Value, Values};
