//! A gNMI server: many connections, each served by a session with feeders of its own, over one book.
//!
//! Start at `serve_book` (serving.rt). The session of one connection is `GnmiSession` (session.rt); a port that has the desk of its
//! book beside it is `DeskPort` (desk_port.rt).
#![tactic(auto)]

mod desk_port;
mod feeding;
mod laws;
mod serving;
mod session;

pub use desk_port::{DeskPort, Numbered};
pub use feeding::{Feeding, start_feeder};
pub use laws::sessions_stand_in_one_history;
pub use serving::serve_book;
pub use session::{GnmiSession, GnmiSessions, Tools};
