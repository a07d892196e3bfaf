//! A window of flow control, which may be negative (RFC 9113 section 6.9).
ghost use Rattle.std.specs.Prelude.{◌≡◌, ◌≤◌, false, pos, ◌+ℤ◌, ◌-ℤ◌, ◌≤ℤ◌};
ghost use Rattle.h2_windows.specs.Windows.{room, largest_window, passes};

use std::marker::Model;

const LARGEST: i64 = 2_147_483_647;

/// A window, or what one has beside the initial window, in octets. Contracts see an integer.
#[derive(Drop)]
pub struct Window {
    octets: i64,
}

impl Model for Window {
    ghost use Rattle.std.specs.Prelude.{ℤ};

    ghost Value = { ℤ };

    ghost view = { λ w. w.octets };

    ghost use Rattle.std.specs.Prelude.{◌≤ℤ◌};
    ghost use Rattle.h2_windows.specs.Windows.{largest_window};

    ghost invariant = { λ w. w.octets ≤ℤ largest_window };
}

impl Window {
    pub fn of(octets: u32) -> Window
        requires { pos octets ≤ℤ largest_window }
        ensures { result ≡ pos octets }
    {
        Window {
            octets: i64::from(octets),
        }
    }

    /// How many octets the initial window and this let through.
    pub fn room(&self, initial: u32) -> usize
        ensures { result ≡ room (pos initial +ℤ self.now) }
    {
        let whole = i64::from(initial).saturating_add(self.octets);
        if whole > 0 { whole as usize } else { 0 }
    }

    /// So many octets of it are sent.
    pub fn spend(&mut self, initial: u32, count: usize)
        requires { count ≤ room (pos initial +ℤ self.old) }
        ensures { self.new ≡ self.old -ℤ pos count }
    {
        let now = self.octets;
        self.octets = now - count as i64;
    }

    /// Whether an increment would take the initial window and this above the largest window.
    pub fn passes(&self, initial: u32, increment: u32) -> bool
        ensures { result ≡ passes (pos initial +ℤ self.now +ℤ pos increment) }
    {
        LARGEST
            < i64::from(initial)
                .saturating_add(self.octets)
                .saturating_add(i64::from(increment))
    }

    pub fn grow(&mut self, initial: u32, increment: u32)
        requires { passes (pos initial +ℤ self.old +ℤ pos increment) ≡ false }
        ensures { self.new ≡ self.old +ℤ pos increment }
    {
        self.octets += i64::from(increment);
    }
}
