//! Pauses.
use environment::Pacer;
use std::alloc::Global;
use std::sync::Wait;
use std::time::{Clock, Duration, Instant};
use std_environment::{Bell, BellPacer, SleepingPacer};

/// How long a pause takes.
fn pause_of<C: Clock, P: Pacer>(clock: &C, pacer: &mut P) -> Option<Duration> {
    let start = Instant::now(clock).ok()?;
    pacer.pause();
    start.elapsed(clock).ok()
}

/// How long a pause of the pacer's twin takes.
fn pause_of_twin<C: Clock, P: Pacer + Drop>(clock: &C, pacer: &P) -> Option<Duration> {
    match pacer.twin() {
        Ok(mut twin) => pause_of(clock, &mut twin),
        Err(_) => None,
    }
}

/// How long this pacer pauses, and its twin.
fn pauses_of<C: Clock, P: Pacer + Drop>(clock: &C, pacer: &mut P) -> Option<(Duration, Duration)> {
    let first = pause_of(clock, pacer)?;
    Some((first, pause_of_twin(clock, pacer)?))
}

/// Whether a pacer that sleeps so long pauses at least so long, and its twin too.
fn sleeps(rt: &HostRuntime, length: Duration) -> bool {
    let mut pacer = SleepingPacer::of(rt, length);
    match pauses_of(rt, &mut pacer) {
        Some((first, second)) => first >= length && second >= length,
        None => false,
    }
}

#[test]
fn a_pacer_and_its_twin_sleep_at_least_so_long(rt: HostRuntime) {
    assert!(rt; sleeps(&rt, Duration::from_millis(20)));
}

/// Longer than a test takes.
fn long() -> Duration {
    Duration::from_secs(600)
}

fn short() -> Duration {
    Duration::from_millis(20)
}

/// A bell, and a pacer that waits for it.
fn pacer_of<R: Wait + Clone + Drop>(
    rt: R,
    alloc: Global,
    longest: Duration,
) -> Option<(Bell<R>, BellPacer<R>)> {
    let bell = Bell::make(rt, alloc).ok()?;
    match bell.twin() {
        Ok(twin) => Some((bell, BellPacer::of(twin, short(), longest))),
        Err(_) => None,
    }
}

/// How long a pause takes behind a ring.
fn pause_behind_ring<R: Wait + Clock + Copy + Drop>(
    rt: &R,
    bell: &Bell<R>,
    pacer: &mut BellPacer<R>,
) -> Option<Duration> {
    bell.ring();
    pause_of(rt, pacer)
}

/// How long a pause takes behind a ring, and how long the next one behind another ring.
fn pauses_behind_rings<R: Wait + Clock + Copy + Drop>(
    rt: &R,
    bell: &Bell<R>,
    pacer: &mut BellPacer<R>,
) -> Option<(Duration, Duration)> {
    let first = pause_behind_ring(rt, bell, pacer)?;
    Some((first, pause_behind_ring(rt, bell, pacer)?))
}

/// The same of a pacer whose pauses are long without a ring.
fn long_pauses_behind_rings<R: Wait + Clock + Copy + Drop>(
    rt: R,
    alloc: Global,
) -> Option<(Duration, Duration)> {
    match pacer_of(rt, alloc, long()) {
        Some((bell, mut pacer)) => pauses_behind_rings(&rt, &bell, &mut pacer),
        None => None,
    }
}

/// Whether neither pause was long, nor the second one too short.
fn are_ended(pauses: Option<(Duration, Duration)>) -> bool {
    match pauses {
        Some((first, second)) => first < long() && second >= short() && second < long(),
        None => false,
    }
}

#[test]
fn a_bell_that_has_rung_ends_a_pause(rt: HostRuntime) {
    assert!(rt; are_ended(long_pauses_behind_rings(rt, rt.alloc())));
}

/// How long a pause takes for which no bell rings.
fn pause_without_a_ring<R: Wait + Clock + Copy + Drop>(rt: R, alloc: Global) -> Option<Duration> {
    match pacer_of(rt, alloc, short()) {
        Some((_bell, pacer)) => pause_of_twin(&rt, &pacer),
        None => None,
    }
}

/// Whether the pause wasn't long, nor too short.
fn is_short(pause: Option<Duration>) -> bool {
    match pause {
        Some(length) => length >= short() && length < long(),
        None => false,
    }
}

#[test]
fn a_pause_for_a_bell_that_does_not_ring_ends_by_itself(rt: HostRuntime) {
    assert!(rt; is_short(pause_without_a_ring(rt, rt.alloc())));
}
