ghost use Rattle.history_laws.specs.LegalLaws.{BaseIsLegal, FrontsAreLegal, GivenIsLegal, LegalGoesOn, GivenIsNext, LegalIsHistory, LegalIsBounded, LegalIsAhead, AcceptedIsGiven, ExpiryIsGiven, EventsAreLegal, LegalIsReached, EmptyIsBase, ClosedIsBase, LegalIsBase};

/// Legal histories have legal fronts, and go on by what is given.
pub fn legal_histories_go_on()
    ensures base { BaseIsLegal }
    ensures front { FrontsAreLegal }
    ensures one { GivenIsLegal }
    ensures more { LegalGoesOn }
{}

/// Legal histories are histories, with bounded stamps and an open trial that ends later.
pub fn legal_histories_are_sound()
    ensures next { GivenIsNext }
    ensures history { LegalIsHistory }
    ensures bounded { LegalIsBounded }
    ensures ahead { LegalIsAhead }
{}

/// What comes of events can be given again from the entries alone. So the legal histories are those that fit events make.
pub fn events_are_legal()
    ensures accepted { AcceptedIsGiven }
    ensures expiry { ExpiryIsGiven }
    ensures all { EventsAreLegal }
    ensures reached { LegalIsReached }
{}

/// What a history has to be for these laws: the empty one is so, each one without an open trial that is within the limits,
/// and whatever goes on legally from such a base.
pub fn bases_go_on()
    ensures empty { EmptyIsBase }
    ensures closed { ClosedIsBase }
    ensures legal { LegalIsBase }
{}
