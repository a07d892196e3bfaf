ghost use Rattle.std.specs.Prelude.{◌≡◌, ◌≤◌, [], ◌∷◌, ◌++◌, drop, length, IfOk};
ghost use Rattle.environment.specs.Clocks.{after_reading, later_readings, next_reading};

use crate::clock::Clock;
use base_lists::{NoMemory, Remembered, Seq};
use std::alloc::Global;
use std::marker::Model;

/// A clock that gives listed readings, and then the last of them again and again; 0 where none is listed.
#[derive(Drop)]
pub struct StepClock {
    readings: Seq<u64>,
    place: usize,
    given: Remembered<u64>,
}

impl Model for StepClock {
    ghost use Rattle.std.specs.Prelude.{◌≤◌, drop, length};
    ghost use Rattle.environment.specs.Clocks.{StepState};

    ghost Value = { StepState };

    ghost view = { λ c. record { to_come = drop c.place c.readings; given = c.given } };

    ghost invariant = { λ c. c.place ≤ length c.readings };
}

/// The reading at this place, and the place of the one behind it, if there is one.
fn step(readings: &[u64], place: usize) -> (u64, usize)
    requires { place ≤ length readings.now }
    ensures reading { result.0 ≡ next_reading (drop place readings.now) }
    ensures place { result.1 ≤ length readings.now }
    ensures later { drop result.1 readings.now ≡ later_readings (drop place readings.now) }
{
    if place == readings.len() {
        return (0, place);
    }
    let reading = readings[place];
    if place + 1 == readings.len() {
        (reading, place)
    } else {
        (reading, place + 1)
    }
}

impl StepClock {
    /// Takes no memory.
    pub fn make(readings: Seq<u64>) -> StepClock
        ensures { result ≡ record { to_come = readings; given = [] } }
    {
        StepClock {
            readings,
            place: 0,
            given: Remembered::nothing(),
        }
    }
}

impl Clock for StepClock {
    ghost readings = { λ c. c.given };

    /// The first of the readings to come.
    fn now(&mut self) -> u64
        ensures given { self.new.given ≡ self.old.given ++ result ∷ [] }
        ensures next { result ≡ next_reading self.old.to_come }
        ensures after { self.new ≡ after_reading self.old }
    {
        let (reading, place) = step(self.readings.items(), self.place);
        self.place = place;
        self.given.remember(&reading);
        reading
    }

    /// The twin goes on from the place that this one has reached.
    fn twin(&self, alloc: Global) -> Result<StepClock, NoMemory>
        ensures given { IfOk result (λ twin. twin.given ≡ []) }
        ensures same { IfOk result (λ twin. twin.to_come ≡ self.now.to_come) }
    {
        let readings = Seq::of(alloc, &self.readings.items()[self.place..])?;
        Ok(StepClock::make(readings))
    }
}
