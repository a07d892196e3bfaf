ghost use Rattle.subscribe_calls.specs.Calls.{CallsGoOn, CallsStay};

/// The turns of a call that are made at the states of one history, as it goes on, are a run of a stream.
pub fn calls_go_on()
    ensures turn { CallsGoOn }
    ensures stays { CallsStay }
{}
