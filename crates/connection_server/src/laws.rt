// Laws of the definitions, each as the contract of a function that does nothing.
ghost use Rattle.connection_server.specs.laws.SessionLaws.{TwinsRise, RisingDiffer, TwinsAreNew, MeetingGoesOn, EntriesAreKept, TurnsStand};

/// No two sessions have one author, and each begins with nothing done.
pub fn sessions_have_their_own_authors()
    ensures rise { TwinsRise }
    ensures differ { RisingDiffer }
    ensures new { TwinsAreNew }
{}

/// What is seen at the end has the entries of each session, each once, in the session's order.
pub fn sessions_keep_their_entries()
    ensures goes_on { MeetingGoesOn }
    ensures kept { EntriesAreKept }
    ensures turns { TurnsStand }
{}
