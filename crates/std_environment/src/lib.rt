//! The real objects of the environment, each a few lines over one of std: the streams of the process and of its TCP
//! connections, the door at which connections come in, the pacer that sleeps, and the starters of threads. Each records what
//! it gave or took, and counts its faults. Those lines are proved against the traits; that a call of std does what it says is
//! trusted. They stand in the files whose names end in `_trusted`. Start at `TcpDoor` (door_trusted.rt).
#![tactic(auto)]

mod accept_fault;
mod bell;
mod door_trusted;
mod held_starter;
mod messages;
mod pacer;
mod socket_options;
mod starters;
mod streams_trusted;
mod tcp_trusted;

pub use accept_fault::AcceptFault;
pub use bell::{Bell, BellPacer};
pub use door_trusted::TcpDoor;
pub use held_starter::{HeldStarter, ReadyStarter, Started, Starting};
pub use messages::say_fault;
pub use pacer::SleepingPacer;
pub use starters::ThreadStarter;
pub use streams_trusted::{StreamSink, StreamSource};
pub use tcp_trusted::{TcpReader, TcpSink, TcpSource, TcpWriter};
