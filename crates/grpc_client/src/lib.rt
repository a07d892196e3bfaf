//! A client of gRPC over HTTP/2: one unary call at a time, over a source and a sink (RFC 9113, grpc's PROTOCOL-HTTP2.md).
//! Start with `Client::call` and specs/Asked.antt, which says what a call is answered; specs/Exchanges.antt has what may happen on
//! a connection, one step after the other.
#![tactic(auto)]

mod answer;
mod call;
mod client;
mod connection;
mod fault;
mod heard;
mod octets;
mod receive;
mod reply;
mod request;
mod send;

pub use client::Client;
pub use connection::Connection;
pub use fault::CallFault;
pub use heard::Heard;
pub use reply::Reply;
