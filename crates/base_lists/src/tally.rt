ghost use Rattle.std.specs.Prelude.{◌≡◌, ◌+◌, ◌++◌};

use crate::remembered::Remembered;
use std::marker::Model;

/// A count that contracts alone know: it has no octets at run time, and no end.
#[derive(Drop)]
pub struct Tally {
    marks: Remembered<bool>,
}

impl Model for Tally {
    ghost use Rattle.std.specs.Prelude.{ℕ, length};

    ghost Value = { ℕ };

    ghost view = { λ t. length t.marks };
}

impl Tally {
    pub fn zero() -> Tally
        ensures { result ≡ 0 }
    {
        Tally {
            marks: Remembered::nothing(),
        }
    }

    pub fn rise(&mut self)
        ensures { self.new ≡ self.old + 1 }
    {
        self.marks.remember(&true);
    }
}

/// Remembers all of these octets, in their order.
pub fn remember_all(past: &mut Remembered<u8>, octets: &[u8])
    ensures { past.new ≡ past.old ++ octets.now }
{
    for octet in octets {
        past.remember(octet);
    }
}
