//! Laws of the definitions, which hold for every caller.
ghost use Rattle.std.specs.Prelude.{◌≡◌, ◌<◌, ◌^◌, ℕ, Bool, true, false, [], ◌∷◌, Option};
ghost use Rattle.base_kinds.specs.declared.refusal.Refusal.{Refusal};
ghost use Rattle.h2_windows.specs.Fitting.{HaveFitHeads};
ghost use Rattle.h2_windows.specs.Written.{octets_of};
ghost use Rattle.h2_send.specs.Headers.{opening, ending, status_answer};

/// Replies fit in frames that every peer takes: each head states its payload's length, of 16,384 octets at most.
pub fn replies_fit()
    ensures opening { (begun owes : Bool) (id : ℕ) → id < 2 ^ 31
        → HaveFitHeads (opening begun owes id) }
    ensures ending { (begun owes : Bool) (id : ℕ) (refusal : Option Refusal) → id < 2 ^ 31
        → HaveFitHeads (ending begun owes id refusal) }
    ensures status { (owes : Bool) (id status : ℕ) → id < 2 ^ 31 → status < 2 ^ 16
        → HaveFitHeads (status_answer owes id status) }
{}

/// Status 415 on stream 1, as it is written, and behind an update of the table's size.
pub fn replies_of_http()
    ensures plain { octets_of (status_answer false 1 415)
        ≡ 0 ∷ 0 ∷ 5 ∷ 1 ∷ 5 ∷ 0 ∷ 0 ∷ 0 ∷ 1 ∷ 8 ∷ 3 ∷ 52 ∷ 49 ∷ 53 ∷ [] }
    ensures updated { octets_of (status_answer true 1 415)
        ≡ 0 ∷ 0 ∷ 6 ∷ 1 ∷ 5 ∷ 0 ∷ 0 ∷ 0 ∷ 1 ∷ 32 ∷ 8 ∷ 3 ∷ 52 ∷ 49 ∷ 53 ∷ [] }
{}
