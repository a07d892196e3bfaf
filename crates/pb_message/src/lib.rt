//! What a message holds, read from its octets alone: each call goes over the message once and keeps
//! no list of its fields, so a message takes no memory beside its own. Start with
//! specs/Values.antt, which says what is held under a number, and specs/Fields.antt, which says
//! what the fields of octets are.
#![tactic(auto)]

mod fields;
mod laws;
mod members;
mod pieces;
mod values;

pub use fields::{has_number_above, is_message};
pub use laws::fields_of_messages;
pub use members::member_under;
pub use pieces::next_piece;
pub use values::{message_under, number_under, text_under};
