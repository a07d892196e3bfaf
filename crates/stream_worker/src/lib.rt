//! The feeder of a Subscribe call of mode STREAM (gNMI 3.5.1.5.2): a job that serves the call over a port of a book and a port of
//! a wire, until nothing goes out on its stream any more.
//!
//! Start at `FeedJob::run` and at what a run of it does (specs/Feeds.antt); specs/Books.antt has its turns at the book, and
//! specs/Wires.antt what it says at the wire.
#![tactic(auto)]

mod job;
mod steps;
mod waiting;

pub use job::{FeedDone, FeedEnd, FeedJob};
