//! Laws of the definitions, which hold for every caller.
ghost use Rattle.std.specs.Prelude.{◌≡◌, ℕ, ◌≤◌, List, [], ◌∷◌, ◌++◌, Bool, true, false, IsTrue, map};
ghost use Rattle.std.specs.List.{AllByRecursion};
ghost use Rattle.h2_frame.specs.Frames.{Frame};
ghost use Rattle.h2_events.specs.declared.event.RecvEvent.{RecvEvent as Heard};
ghost use Rattle.h2_events.specs.declared.said.Said.{Said as Spoken};
ghost use Rattle.h2_events.specs.Events.{highest_from, resets, opens};
ghost use Rattle.h2_events.specs.Items.{Item, Meant, Accepted, Wrote, Read, heard, written, said_on, is_last, as_read, events_read, can_say, can_say_from, GoTogether};

/// What is read off one order and then another is what is read off both.
pub fn orders_join()
    ensures heard { (one other : List Item) → heard (one ++ other) ≡ heard one ++ heard other }
    ensures written { (one other : List Item)
        → written (one ++ other) ≡ written one ++ written other }
    ensures said { (stream : ℕ) (one other : List Item)
        → said_on stream (one ++ other) ≡ said_on stream one ++ said_on stream other }
    ensures read { (one other : List Item) → as_read (one ++ other) ≡ as_read one ++ as_read other }
    ensures events { (one other : List Read)
        → events_read (one ++ other) ≡ events_read one ++ events_read other }
    // Frames that were written have nothing but themselves in them.
    ensures frames { (frames : List Frame) → written (map Wrote frames) ≡ frames }
    ensures silent { (frames : List Frame)
        → (heard (map Wrote frames) ≡ []) × (as_read (map Wrote frames) ≡ []) }
    ensures unsaid { (stream : ℕ) (frames : List Frame) → said_on stream (map Wrote frames) ≡ [] }
{}

/// Where something may be said.
pub fn what_can_be_said()
    ensures joined { (stream : ℕ) (before : Bool) (one other : List Item)
        → can_say_from stream before (one ++ other)
        ≡ can_say_from stream (can_say_from stream before one) other }
    // A stream that is opened is so whatever came before, also a stream error on it while it was idle.
    ensures opened { (stream : ℕ) (items : List Item) (event : Heard) → IsTrue (opens stream event)
        → can_say stream (items ++ Meant event ∷ []) ≡ true }
    ensures reset { (stream : ℕ) (items : List Item) (event : Heard) → IsTrue (resets stream event)
        → can_say stream (items ++ Meant event ∷ []) ≡ false }
    ensures ended { (stream : ℕ) (items : List Item) (said : Spoken) → IsTrue (is_last said)
        → can_say stream (items ++ Accepted stream said ∷ []) ≡ false }
    // Nothing but an opening lets this side say anything.
    ensures closed { (stream : ℕ) (one other : List Item) → can_say stream one ≡ false
        → AllByRecursion (λ event. opens stream event ≡ false) (heard other)
        → can_say stream (one ++ other) ≡ false }
{}

/// The highest stream of events never falls, and that of more events follows from it.
pub fn highest_of_more()
    ensures joined { (highest : ℕ) (one other : List Heard)
        → highest_from highest (one ++ other) ≡ highest_from (highest_from highest one) other }
    ensures rises { (highest : ℕ) (events : List Heard) → highest ≤ highest_from highest events }
{}

/// Where both orders are one they go together.
pub fn one_goes_together()
    ensures { (is_fed : ℕ → Bool) (order : List Item) (reader : List Read)
        → as_read order ≡ reader → GoTogether is_fed order reader }
{}
