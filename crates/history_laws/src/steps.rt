ghost use Rattle.history_laws.specs.StepLaws.{ClockKeepsHistory, EventKeepsHistory, EventsKeepHistory, EventsKeepBound, AcceptedAddsOne, RefusedAddsNone, AcceptedIsNext, AcceptedIsAbove, AcceptedIsBounded, RefusedForSix, JudgedWithoutMemory, JudgedByStamp, AcceptedAtOwnStamp};

/// Whatever is asked, at whatever readings, entries are numbered without a gap, and stamps rise and stay bounded.
pub fn events_keep_histories()
    ensures clock { ClockKeepsHistory }
    ensures one { EventKeepsHistory }
    ensures all { EventsKeepHistory }
    ensures bound { EventsKeepBound }
{}

/// A step adds the entry of an accepted ask, and nothing for a refused one.
pub fn steps_add_entries()
    ensures accepted { AcceptedAddsOne }
    ensures refused { RefusedAddsNone }
{}

/// What an accepted ask becomes.
pub fn accepted_asks()
    ensures next { AcceptedIsNext }
    ensures above { AcceptedIsAbove }
    ensures bounded { AcceptedIsBounded }
{}

/// An entry's stamp decides about it as the reading did that it came at.
pub fn stamps_decide()
    ensures judged { JudgedByStamp }
    ensures accepted { AcceptedAtOwnStamp }
{}

/// An ask is refused over a history for one of six reasons, and want of memory is none of them.
pub fn refused_asks()
    ensures six { RefusedForSix }
    ensures memory { JudgedWithoutMemory }
{}
