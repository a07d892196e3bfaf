//! The octets of a client of gNMI that makes generated Sets on one connection, the same in each run. Start with
//! `connection_of_sets`; specs/Connections.antt says which octets they are.
#![tactic(auto)]

mod connection;
mod draws;
mod frames;
mod messages;
mod schema;

pub use connection::connection_of_sets;
pub use schema::schema_text;
