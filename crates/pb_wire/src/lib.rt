//! The fields of a protocol buffer message: read exactly, and written in one form. The source is protobuf.dev's page
//! "Encoding". Start with `fields_of` and specs/Message.antt, which says what the fields of octets are; `next_field` reads
//! one at a time. What fields hold under a number, of a oneof and of a map's entry is specs/Values.antt and values.rt.
//! Steps that private functions alone cite stand in specs/inner.
#![tactic(auto)]

mod field;
mod laws;
mod reading;
mod values;
mod writing;

pub use field::{Body, Field, Fields, WireFault};
pub use laws::{
    appended, appended_values, last_entry_of_a_key, members_alone, one_list, one_number,
    read_in_turn, shortest_spelling, within, written_values,
};
pub use reading::{fields_of, next_field};
pub use values::{entry_of, joined, last_octets, last_varint, octets_of, one_of, varint_of};
pub use writing::{put_octets, put_varint};
