//! One connection of gNMI over gRPC and HTTP/2, from its preface to its end: a session alone, or with a feeder for each STREAM call.
//!
//! Start at `serve_alone` (session.rt) and `serve_session` (beside.rt), and at what they do: specs/Runs.antt is the whole, and stands
//! on one page each for what was read (specs/Reading.antt), asked and done (specs/Serving.antt, specs/Deeds.antt), said
//! (specs/Saying.antt), when (specs/Rounds.antt) and written (specs/Writing.antt); specs/FeederRuns.antt has what feeders do beside
//! it.
#![tactic(auto)]

mod answering;
mod beside;
mod feeding;
mod handing;
mod how;
mod incoming;
mod later;
mod laws;
mod own_port;
mod reply;
mod saying;
mod sending;
mod served;
mod session;
mod shared;
mod turns;
mod waiting;

pub use beside::serve_session;
pub use how::How;
pub use laws::{
    answers_are_of_one_history, feeders_begin_at_the_session, feeders_say_runs,
    once_calls_say_states, own_entries_stand, own_entries_stand_beside, own_ports_stand_alone,
    poll_calls_say_states, stream_calls_say_runs, streams_are_answered, turns_are_kept,
    what_feeders_say_stands_apart,
};
pub use served::{Served, ServedCalls};
pub use session::{SessionEnd, serve_alone};
pub use waiting::{Waiting, Waitings};
