ghost use Rattle.std.specs.Prelude.{◌≡◌, IfOk, IsErrOf};
ghost use Rattle.base_kinds.specs.Legal.{IsFit};
ghost use Rattle.book_port.specs.Ports.{PortView, SetsOnce, LooksOnce, IsTwin, Meets, CanMeet, knows_all, most_authors};

use base_kinds::{Ask, Paths, Refusal, View};
use std::alloc::Global;

/// A book as one author reaches it. Each call is one turn: what is in doubt is settled, a trial that is due expires, and then
/// what is asked is done, at the history that the turn found.
pub trait BookPort: Sized {
    /// What contracts see of it.
    ghost port: { Self → PortView };

    /// Makes what is asked the next entry, at this reading of the clock in nanoseconds since 1970. The answer is its stamp.
    fn set(&mut self, alloc: Global, now: u64, ask: Ask) -> Result<u64, Refusal>
        requires { IsFit ask }
        ensures once { SetsOnce (port self.old) now ask result (port self.new) };

    /// The rows that some pattern covers, at this reading of the clock. It is refused for a fault of the disk, and for want of
    /// memory, alone.
    fn look(&mut self, alloc: Global, now: u64, patterns: &Paths) -> Result<View, Refusal>
        ensures once { LooksOnce (port self.old) now patterns.now result (port self.new) };
}

/// Why there is no further port.
#[derive(Clone, Copy, Debug, PartialEq, Eq)]
pub enum PassFault {
    /// Every number of an author was given out.
    Spent,
    NoMemory,
}

/// A port of a book that others reach too, through ports that are made of it.
pub trait Twin: BookPort {
    /// A further port of the same book, whose author is another one. No two that are made of one port have one author.
    ///
    /// `Spent`: all 4,294,967,295 numbers are given out, as this port knows from then on. Where it knew so before there is no
    /// further port.
    fn twin(&mut self) -> Result<Self, PassFault>
        ensures ok { IfOk result (λ twin. IsTwin (Self.port self.old) (Self.port self.new)
            (Self.port twin)) }
        ensures spent { IsErrOf result PassFault.Spent
            → Self.port self.new ≡ knows_all (Self.port self.old) }
        ensures memory { IsErrOf result PassFault.NoMemory
            → Self.port self.new ≡ Self.port self.old }
        ensures always { (Self.port self.old).known ≡ most_authors → IfOk result (λ _. ⊥) };

    /// Ends another port of the same book. What that one has seen, this one has seen then, and it finds all that that one made
    /// from then on.
    fn meet(&mut self, other: Self)
        requires { CanMeet (Self.port self.old) (Self.port other) }
        ensures { Meets (Self.port self.old) (Self.port other) (Self.port self.new) };
}
