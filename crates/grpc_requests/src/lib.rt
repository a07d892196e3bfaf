//! Which requests a peer of gRPC makes on the streams of a connection, and when each is whole. Start with `CallTable::hear`
//! and specs/Requests.antt, which says what the requests of the events of a connection are.
#![tactic(auto)]

mod open_call;
mod request;
mod table;

pub use request::{Asked, Later, Request, Requests};
pub use table::CallTable;
