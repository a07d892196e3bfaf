// Lists in which each item is above the one before it.
ghost use Rattle.std.specs.Prelude.{◌≡◌};
ghost use Rattle.std.specs.Ordering.{is_lt};
ghost use Rattle.base_lists.specs.Rising.{rises};

use crate::text::Text;

/// A value that has a rank among others of its kind.
pub trait Ranked {
    ghost use Rattle.std.specs.declared.cmp.Ordering.{Ordering};

    ghost rank: { Self → Self → Ordering };

    fn is_below(&self, other: &Self) -> bool
        ensures { result ≡ is_lt (rank self.now other.now) };
}

/// Whether each item is above the one before it.
pub fn rises<T: Ranked>(items: &[T]) -> bool
    ensures { result ≡ rises T.rank items.now }
{
    let Some((first, others)) = items.split_first() else {
        return true;
    };
    let mut last = first;
    for item in others {
        let goes_on = last.is_below(item);
        if !goes_on {
            return false;
        }
        last = item;
    }
    true
}

/// A text with something more has the rank of the text.
impl<T> Ranked for (Text, T) {
    ghost use Rattle.std.specs.Ordering.{nat_cmp};
    ghost use Rattle.std.specs.Cmp.Lexicographic.{slice_cmp};

    ghost rank = { λ pair other. slice_cmp nat_cmp pair.0 other.0 };

    fn is_below(&self, other: &(Text, T)) -> bool {
        self.0.cmp(&other.0).is_lt()
    }
}
