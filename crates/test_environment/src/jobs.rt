//! Jobs that are started in a thread of their own, done at once, or given back.
use base_lists::Bytes;
use environment::{Job, MemStarter, Running, Starter};
use std::alloc::Global;
use std::thread::Threads;

/// Counts octets.
#[derive(Drop)]
pub(crate) struct Counting {
    octets: Bytes,
}

impl Job for Counting {
    type Done = usize;

    ghost use Rattle.std.specs.Prelude.{◌≡◌, length};

    ghost gives = { λ job count. count ≡ length job.octets };

    fn run(self) -> usize {
        self.octets.len()
    }
}

pub(crate) fn seven_octets(alloc: Global) -> Option<Counting> {
    let octets = Bytes::of(alloc, b"counted").ok()?;
    Some(Counting { octets })
}

/// The octets that a thread of its own counts.
fn counted_in_thread<R: Threads>(rt: &R, alloc: Global) -> Option<usize> {
    match Running::in_thread(rt, alloc, seven_octets(alloc)?) {
        Ok(running) => Some(running.finish(rt)),
        Err(_) => None,
    }
}

/// The octets that are counted by a starter, or by the caller where it gives the job back, and whether it did.
fn counted_by<R: Threads>(
    rt: &R,
    alloc: Global,
    starter: &mut MemStarter,
) -> Option<(usize, bool)> {
    match starter.start(seven_octets(alloc)?) {
        Ok(running) => Some((running.finish(rt), false)),
        Err(job) => Some((job.run(), true)),
    }
}

#[test]
fn a_thread_gives_its_result(rt: HostRuntime) {
    assert!(rt; counted_in_thread(&rt, rt.alloc()) == Some(7));
}

/// Whether a starter that is to do one job does the first, and gives the second back.
fn one_is_done<R: Threads>(rt: &R, alloc: Global) -> bool {
    let mut starter = MemStarter::make(1);
    counted_by(rt, alloc, &mut starter) == Some((7, false))
        && counted_by(rt, alloc, &mut starter) == Some((7, true))
}

#[test]
fn a_starter_in_memory_does_as_many_jobs_as_it_is_to(rt: HostRuntime) {
    assert!(rt; one_is_done(&rt, rt.alloc()));
}
