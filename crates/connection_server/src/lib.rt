//! Many connections, one session each: an acceptor takes them from a door, starts a session for each, and joins them all.
//!
//! Start at `serve_links` (serving.rt) and at what comes of a run of it (specs/Serving.antt). What serves one connection is a
//! bound, `Session`, and what makes the sessions another, `Sessions` (session.rt); a session's job is `LinkJob` (job.rt).
#![tactic(auto)]

mod accepting;
mod job;
mod joining;
mod laws;
mod link;
mod serving;
mod session;
mod twins;

pub use accepting::Ending;
pub use job::{LinkDone, LinkJob};
pub use laws::{sessions_have_their_own_authors, sessions_keep_their_entries};
pub use link::{Link, LinkEnd, LinkLeft};
pub use serving::{ServedLinks, serve_links};
pub use session::{Session, Sessions};
