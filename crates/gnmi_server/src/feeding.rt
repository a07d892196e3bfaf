//! The feeders of sessions.
ghost use Rattle.std_environment.specs.HeldStarters.{StartsJob};

use crate::desk_port::Numbered;
use environment::{Clock, Pacer, Running, Sink};
use shared_wire::WireVisit;
use std::sync::Wait;
use std::thread::Threads;
use std_environment::ThreadStarter;
use stream_worker::FeedJob;

/// The job of a feeder of a session.
pub type Feeding<P, O, R, C, Q> = FeedJob<P, WireVisit<O, R>, C, Q, R>;

/// Starts a thread for the job of a feeder. It is what the starter of the feeders of `serve_book` holds: what is sent to a thread is
/// known where types are, and not in an impl of a trait for all of them.
pub fn start_feeder<R, O, P, C, Q>(
    threads: &mut ThreadStarter<R>,
    job: Feeding<P, O, R, C, Q>,
) -> Result<Running<Feeding<P, O, R, C, Q>>, Feeding<P, O, R, C, Q>>
where
    R: Threads + Wait + Clone + Drop + Send + Sync + 'static,
    O: Sink + Send + Drop + 'static,
    P: Numbered + Send + Drop + 'static,
    C: Clock + Send + Drop + 'static,
    Q: Pacer + Send + Drop + 'static,
    ensures { StartsJob (λ running. running) job result threads.old threads.new }
{
    threads.start(job)
}
