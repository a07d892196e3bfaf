// Laws of requests.
ghost use Rattle.set_request.specs.laws.Asks.{ResolvedIsFit, PlainIsApply};
ghost use Rattle.set_request.specs.laws.Causes.{RowsMayStand, KeysHaveLeaves, RefusalsHaveCauses, RefusalsUnderTextsHaveCauses};
ghost use Rattle.set_request.specs.laws.Places.{RowsBelong};
ghost use Rattle.set_request.specs.laws.Refusals.{RefusalsOfRequests};

/// What a request asks may be judged, and without an action it is that its operations are applied.
pub fn asks_of_requests()
    ensures fit { ResolvedIsFit }
    ensures plain { PlainIsApply }
{}

/// A request is refused by `BadPath`, `NotInSchema`, `BadValue`, `Unsupported`, `BadDuration`, `MixedAction` or `BadId`,
/// and by no other, before it is judged.
pub fn refusals_of_requests()
    ensures { RefusalsOfRequests }
{}

/// Under a schema that was read from a text, a request is refused for the causes of the profile alone: that rows can't
/// stand in an operation, or that a key has no leaf, never is one.
pub fn refusals_have_causes()
    ensures stand { RowsMayStand }
    ensures keys { KeysHaveLeaves }
    ensures causes { RefusalsHaveCauses }
    ensures texts { RefusalsUnderTextsHaveCauses }
{}

/// Under a well-formed schema each row of an operation of a request stands at or below the path of that operation, or is a
/// key leaf that the path names.
pub fn rows_belong_to_their_paths()
    ensures { RowsBelong }
{}
