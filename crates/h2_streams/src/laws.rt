//! Laws of the definitions, which hold for every caller.
ghost use Rattle.std.specs.Prelude.{◌≡◌, ◌++◌, ℕ, List, Ok};
ghost use Rattle.h2_frame.specs.Frames.{Frame};
ghost use Rattle.std.specs.List.{AllByRecursion};
ghost use Rattle.h2_events.specs.Events.{highest_from, IsSound};
ghost use Rattle.h2_streams.specs.declared.peer.Peer.{Peer as Known};
ghost use Rattle.h2_streams.specs.Outcomes.{Outcome};
ghost use Rattle.h2_streams.specs.Meanings.{Means};
ghost use Rattle.h2_streams.specs.Calls.{Moment, Calls, causes_of, frames_of, events_of, reads_of, new_peer};
ghost use Rattle.h2_streams.specs.Laws.{TellsHighest, KeepsOthers, IsSoundPeer, IsReadable, GivesSound};

/// A frame has one outcome.
pub fn one_outcome()
    ensures { (peer : Known) (frame : Frame) (one other : Outcome)
        → Means peer frame one → Means peer frame other → one ≡ other }
{}

/// The frames and the ends decide what is made of them.
pub fn frames_decide()
    ensures { (start last end : Known) (one other : List Moment)
        → Calls start one last → Calls start other end → causes_of one ≡ causes_of other
        → (one ≡ other) × (last ≡ end) }
{}

/// Moments and those behind them are chained together, and cut anywhere.
pub fn calls_join()
    ensures joined { (start middle last : Known) (one other : List Moment)
        → Calls start one middle → Calls middle other last → Calls start (one ++ other) last }
    ensures cut { (start last : Known) (one other : List Moment) → Calls start (one ++ other) last
        → (middle : Known) × Calls start one middle × Calls middle other last }
    ensures frames { (one other : List Moment)
        → frames_of (one ++ other) ≡ frames_of one ++ frames_of other }
    ensures events { (one other : List Moment)
        → events_of (one ++ other) ≡ events_of one ++ events_of other }
    ensures reads { (one other : List Moment)
        → reads_of (one ++ other) ≡ reads_of one ++ reads_of other }
{}

/// The events tell the highest stream that the peer has opened.
pub fn highest_of_events()
    ensures one { (peer : Known) (frame : Frame) (outcome : Outcome)
        → Means peer frame outcome → TellsHighest peer outcome }
    ensures all { (start last : Known) (moments : List Moment) → Calls start moments last
        → last.highest ≡ highest_from start.highest (events_of moments) }
{}

/// A frame changes the state of no other stream that is open or half closed, also where it is a stream error. (HEADERS close the
/// idle streams below their own, RFC 9113 5.1.1, which here count as closed before.)
pub fn others_stay()
    ensures { (peer : Known) (frame : Frame) (outcome : Outcome)
        → Means peer frame outcome → KeepsOthers frame.head.stream peer outcome }
{}

/// Events of frames within this side's limits are sound, and so is what is kept then: the streams differ, and are at most 32.
pub fn sound_events()
    ensures one { (peer : Known) (frame : Frame) (outcome : Outcome) → IsSoundPeer peer
        → IsReadable frame → Means peer frame outcome → GivesSound outcome }
    ensures all { (last : Known) (moments : List Moment) → Calls new_peer moments last
        → AllByRecursion IsReadable (frames_of moments)
        → AllByRecursion IsSound (events_of moments) × IsSoundPeer last }
{}
