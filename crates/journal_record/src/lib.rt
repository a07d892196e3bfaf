//! The record of an entry of the commit log: read exactly, and written in its one spelling.
//!
//! Start at `record_of` (specs/Spelling.antt), which is the format, and at `read_entry`
//! (reading.rt) and `put_entry` (writing.rt). specs/Representable.antt says which entries the types
//! can hold; specs/worked has records worked out by hand. journal_format makes journals of records.
#![tactic(auto)]

mod fault;
mod laws;
mod operations;
mod part;
mod paths;
mod putting;
mod reading;
mod values;
mod writing;

pub use fault::RecordFault;
pub use laws::{none_begins_another, record_length, worked_record};
pub use reading::read_entry;
pub use writing::{put_entry, write_entry};
