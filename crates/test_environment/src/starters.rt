//! Work that is started in threads of its own, or refused.
use crate::jobs::seven_octets;
use crate::streams::texts_of;
use std::alloc::Global;
use std::process::Abort;
use std::thread::{Promise, Threads};
use std_environment::ThreadStarter;

/// Whether a thread has counted the octets; no where the starter gave the job back.
fn counts_beside<R: Threads + Clone + Drop>(
    rt: &R,
    alloc: Global,
    starter: &mut ThreadStarter<R>,
) -> Option<bool> {
    match starter.start(seven_octets(alloc)?) {
        Ok(running) => Some(running.finish(rt) == 7),
        Err(_) => Some(false),
    }
}

/// In which of its next four calls a starter starts a thread.
fn four_calls<R: Threads + Clone + Drop>(
    rt: &R,
    alloc: Global,
    starter: &mut ThreadStarter<R>,
) -> Option<[bool; 4]> {
    Some([
        counts_beside(rt, alloc, starter)?,
        counts_beside(rt, alloc, starter)?,
        counts_beside(rt, alloc, starter)?,
        counts_beside(rt, alloc, starter)?,
    ])
}

/// A starter that refuses its calls 4 and 2, and whose twins refuse their first.
fn picky<R: Abort + Threads + Copy + Drop>(rt: &R, alloc: Global) -> ThreadStarter<R> {
    let own = texts_of(rt, alloc, &["4", "2"]);
    let twins = texts_of(rt, alloc, &["1"]);
    ThreadStarter::refusing(*rt, alloc, own, twins)
}

/// In which of these calls a starter that refuses none starts a thread.
fn calls_of_new<R: Threads + Copy + Drop>(rt: &R, alloc: Global) -> Option<[bool; 4]> {
    let mut starter = ThreadStarter::make(*rt, alloc);
    four_calls(rt, alloc, &mut starter)
}

/// In which of them a twin of the starter does.
fn calls_of_twin<R: Threads + Copy + Drop>(
    rt: &R,
    alloc: Global,
    starter: &ThreadStarter<R>,
) -> Option<[bool; 4]> {
    match starter.twin() {
        Ok(mut twin) => four_calls(rt, alloc, &mut twin),
        Err(_) => None,
    }
}

/// In which of them a twin of a twin of the starter does.
fn calls_of_second_twin<R: Threads + Copy + Drop>(
    rt: &R,
    alloc: Global,
    starter: &ThreadStarter<R>,
) -> Option<[bool; 4]> {
    match starter.twin() {
        Ok(twin) => calls_of_twin(rt, alloc, &twin),
        Err(_) => None,
    }
}

#[test]
fn a_starter_starts_a_thread_in_each_call(rt: HostRuntime) {
    assert!(rt; calls_of_new(&rt, rt.alloc()) == Some([true; 4]));
}

/// Whether a picky starter, a twin of it, and a twin of that each refuse the calls with the listed numbers.
fn refuses_listed<R: Threads + Copy + Drop>(
    rt: &R,
    alloc: Global,
    starter: &mut ThreadStarter<R>,
) -> bool {
    let others = Some([false, true, true, true]);
    calls_of_twin(rt, alloc, starter) == others
        && calls_of_second_twin(rt, alloc, starter) == others
        && four_calls(rt, alloc, starter) == Some([true, false, true, false])
}

fn picky_refuses_listed<R: Abort + Threads + Copy + Drop>(rt: &R, alloc: Global) -> bool {
    let mut starter = picky(rt, alloc);
    refuses_listed(rt, alloc, &mut starter)
}

#[test]
fn a_starter_refuses_the_calls_with_the_listed_numbers(rt: HostRuntime) {
    assert!(rt; picky_refuses_listed(&rt, rt.alloc()));
}

/// That a thread which itself starts one has a result.
#[derive(Drop)]
struct AnyResult;

impl Promise<Option<bool>> for AnyResult {
    ghost use Rattle.std.specs.Prelude.{⊤};

    ghost kept_by = { λ _ _. ⊤ };
}

/// Whether a thread that a thread of the starter has started has counted the octets.
fn counts_beside_thread<R: Threads + Copy + Send + Drop + 'static>(
    rt: &R,
    alloc: Global,
    starter: &mut ThreadStarter<R>,
) -> Option<bool> {
    let mut twin = starter.twin().ok()?;
    let theirs = *rt;
    match starter.start_with(AnyResult, move || counts_beside(&theirs, alloc, &mut twin)) {
        Ok(thread) => thread.join(rt),
        Err(_) => None,
    }
}

/// Whether a thread that a thread has started has counted the octets.
fn counts_beside_beside<R: Threads + Copy + Send + Drop + 'static>(
    rt: &R,
    alloc: Global,
) -> Option<bool> {
    let mut starter = ThreadStarter::make(*rt, alloc);
    counts_beside_thread(rt, alloc, &mut starter)
}

#[test]
fn a_thread_starts_threads(rt: HostRuntime) {
    assert!(rt; counts_beside_beside(&rt, rt.alloc()) == Some(true));
}
