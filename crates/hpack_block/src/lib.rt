//! Header blocks of HTTP/2 (HPACK, RFC 7541): read against a dynamic table, and written in one form. Start with
//! `Decoder::block` and specs/Answers.antt, which stands on specs/Block.antt; what is written is specs/Written.antt.
//! Steps that private functions alone cite stand in specs/inner.
#![tactic(auto)]

mod decoder;
mod dynamic_table;
mod encoder;
mod field;
mod form;
mod header;
mod header_list;
mod integer;
mod laws;
mod static_table;
mod string;

pub use decoder::Decoder;
pub use encoder::encode_block;
pub use header::{BlockFault, Ended, Header, Headers, header_of};
pub use laws::{
    after_an_update, answered_exactly, kept_entries, one_reading, read_back, worked_blocks,
    worked_tables,
};
