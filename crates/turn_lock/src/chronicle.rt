// What the lock keeps of its value.
ghost use Rattle.std.specs.Prelude.{◌≡◌, ℕ, List, length};

/// A value that keeps a list of entries, to which it only adds, each with the number of its author.
///
/// Author 0 is the value itself. The lock knows nothing else of the value.
pub trait Chronicle {
    type Entry;

    ghost entries: { Self → List Self.Entry };

    ghost author: { Self.Entry → ℕ };

    /// How many entries there are.
    fn count(&self) -> u64
        ensures { result ≡ length (entries self.now) };
}
