ghost use Rattle.std.specs.Prelude.{◌≡◌, []};

use base_lists::{NoMemory, Remembered};
use environment::Clock;
use std::alloc::Global;
use std::time::{SystemTime, UNIX_EPOCH};

/// The clock of the system. What it has given is recorded.
#[derive(Drop)]
pub struct SystemClock {
    rt: HostRuntime,
    given: Remembered<u64>,
}

impl SystemClock {
    pub fn of(rt: &HostRuntime) -> SystemClock
        ensures { result.given ≡ [] }
    {
        SystemClock {
            rt: *rt,
            given: Remembered::nothing(),
        }
    }
}

impl Clock for SystemClock {
    ghost readings = { λ c. c.given };

    fn now(&mut self) -> u64 {
        let reading = nanoseconds(&self.rt);
        self.given.remember(&reading);
        reading
    }

    fn twin(&self, alloc: Global) -> Result<SystemClock, NoMemory> {
        let _ = alloc;
        Ok(SystemClock::of(&self.rt))
    }
}

/// Nanoseconds since 1970: 0 where the clock can't be read or stands before that, and the greatest number of 64 bits past it.
fn nanoseconds(rt: &HostRuntime) -> u64 {
    match SystemTime::now(rt) {
        Ok(time) => match time.duration_since(UNIX_EPOCH) {
            Ok(since) => u64::try_from(since.as_nanos()).unwrap_or(u64::MAX),
            Err(_) => 0,
        },
        Err(_) => 0,
    }
}
