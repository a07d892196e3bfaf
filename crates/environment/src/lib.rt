//! The environment of the program as traits: octets, time and threads. Contracts see of each object what it gave or took so
//! far, and how often it failed.
//!
//! A `Source` gives octets and a `Sink` takes them (specs/Input.antt, specs/Output.antt: start there); `read_to_limit` and
//! `write_whole` are what every user of them needs. A `Clock` gives readings (specs/Clocks.antt), a `Pacer` only waits. A
//! `Starter` starts a `Job` in a thread of its own (specs/Starters.antt). `MemSource`, `MemSink`, `StepClock`, `IdlePacer` and
//! `MemStarter` are such objects in memory. Connections come in by a `Door` of `listening`, and go out by a `Dial` of `dialing`.
#![tactic(auto)]

mod clock;
mod job;
mod mem_sink;
mod mem_source;
mod numbers;
mod pacer;
mod reading;
mod records;
mod running;
mod starter;
mod step_clock;
mod streams;
mod writing;

pub use clock::Clock;
pub use job::Job;
pub use mem_sink::MemSink;
pub use mem_source::MemSource;
pub use pacer::{IdlePacer, Pacer};
pub use reading::{ReadFault, read_to_limit};
pub use records::{InputRecord, OutputRecord};
pub use running::{Outcome, Promised, Running, join_done};
pub use starter::{MemStarter, Starter};
pub use step_clock::StepClock;
pub use streams::{Failed, Sink, Source};
pub use writing::write_whole;
