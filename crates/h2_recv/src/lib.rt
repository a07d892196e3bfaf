//! The receiving half of an HTTP/2 connection: octets of a client in any pieces in, events out. Start with `Recv` and
//! specs/Receiving.antt; what a whole frame means stands in h2_streams.
#![tactic(auto)]

mod laws;
mod preface;
mod reader;
mod recv;
mod unread;

pub use laws::{ends_stand_between, one_reading, one_reading_with_ends, pieces_join};
pub use reader::Reader;
pub use recv::Recv;
pub use unread::Unread;
