//! The messages of a Set of gnmi.proto: a SetRequest read, and its SetResponse written.
//!
//! Start at `read_set` and `write_set_reply`. What a request's octets are read as is specs/Requests.antt, what it asks for
//! specs/Asks.antt, its reply specs/Replies.antt, and what a reader finds in that specs/ReadBack.antt. The numbers of the
//! fields stand in one table, specs/Numbers.antt (src/numbers.rt).
#![tactic(auto)]

mod asking;
mod laws;
mod numbers;
mod replying;
mod request;

pub use asking::read_set;
pub use laws::{replied_where_read, set_replies_read_back};
pub use replying::write_set_reply;
pub use request::{SetRequest, Update, Updates, read_request};
