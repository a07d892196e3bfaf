//! Laws of the definitions, which hold for every caller.
ghost use Rattle.std.specs.Prelude.{◌≡◌, ℕ, ℤ, List, ◌∷◌, ◌++◌, false, nat_eq};
ghost use Rattle.std.specs.List.{AllByRecursion};
ghost use Rattle.h2_windows.specs.declared.stream.Stream.{Stream};
ghost use Rattle.h2_windows.specs.Shares.{share, window_of};
ghost use Rattle.h2_windows.specs.Sending.{sent, after_sending};
ghost use Rattle.h2_windows.specs.Streams.{AreRising, opened, without, granted};
ghost use Rattle.h2_windows.specs.Fitting.{HaveFitHeads, HaveFitNumbers};
ghost use Rattle.h2_windows.specs.Pacing.{Passing, ArePaced, is_data, is_data_on};

/// After what the windows let through was sent, octets wait only where a window is 0 or below.
pub fn paced_after_sending()
    ensures { (initial : ℕ) (window : ℤ) (streams : List Stream)
        → ArePaced initial (sent initial window streams).window
        (sent initial window streams).streams }
{}

/// At no place does the DATA that is sent pass the connection's window.
pub fn within_the_connection()
    ensures { (initial : ℕ) (window : ℤ) (streams : List Stream)
        → Passing is_data window (sent initial window streams).window
        (sent initial window streams).frames }
{}

/// Nor that of a stream, which stands anywhere, where no other has its number. A stream that isn't there gets no DATA.
pub fn within_the_stream()
    ensures own { (initial : ℕ) (window : ℤ) (before : List Stream) (s : Stream)
        (after : List Stream)
        → AllByRecursion (λ t. nat_eq t.id s.id ≡ false) before
        → AllByRecursion (λ t. nat_eq t.id s.id ≡ false) after
        → (n : ℕ)
        × Passing (is_data_on s.id) (window_of initial s) (window_of initial (after_sending n s))
        (sent initial window (before ++ s ∷ after)).frames }
    ensures others { (initial id : ℕ) (window own : ℤ) (streams : List Stream)
        → AllByRecursion (λ t. nat_eq t.id id ≡ false) streams
        → Passing (is_data_on id) own own (sent initial window streams).frames }
{}

/// Streams stand by rising number, and stay so whatever happens to them.
pub fn streams_stay_rising()
    ensures opened { (id : ℕ) (streams : List Stream)
        → AreRising streams → AreRising (opened id streams) }
    ensures without { (id : ℕ) (streams : List Stream)
        → AreRising streams → AreRising (without id streams) }
    ensures granted { (id increment : ℕ) (streams : List Stream)
        → AreRising streams → AreRising (granted id increment streams) }
    ensures sent { (initial : ℕ) (window : ℤ) (streams : List Stream)
        → AreRising streams → AreRising (sent initial window streams).streams }
    // No other stream than the one at a place has its number.
    ensures once { (before : List Stream) (s : Stream) (after : List Stream)
        → AreRising (before ++ s ∷ after)
        → AllByRecursion (λ t. nat_eq t.id s.id ≡ false) before
        × AllByRecursion (λ t. nat_eq t.id s.id ≡ false) after }
{}

/// Heads of the frames that are sent hold what they should, where the streams have numbers of 31 bits.
pub fn frames_fit()
    ensures { (initial : ℕ) (window : ℤ) (streams : List Stream)
        → HaveFitNumbers streams → HaveFitHeads (sent initial window streams).frames }
{}
