//! Constants that several crates of tests look at: what real clients sent, a Set over a connection with its reply, and the schema
//! and the script that sessions and runs are tried with.
#![tactic(auto)]

mod clients;
mod connection;
mod examples;
mod messages;
mod samples;

pub use clients::{
    GRPCIO_CAPABILITIES, GRPCIO_GET, GRPCIO_SET, GRPCIO_SET_TWO, GRPCIO_SUBSCRIBE, NGHTTP_SET,
};
pub use connection::{BEGIN, PREFACE, REPLY, SET};
pub use examples::{HOSTNAME, HOSTNAME_PRINTED, SCHEMA};
pub use messages::{GET_TWO_PATHS, SET_HOSTNAME, SET_MTU, SET_MTU_WITHOUT_LAB};
pub use samples::{FAILING_WRITES, SAMPLE_LIST, SAMPLED, SET_A};
