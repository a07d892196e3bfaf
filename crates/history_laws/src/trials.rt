ghost use Rattle.history_laws.specs.TrialLaws.{UndoesTrials, ConfirmsTrials, ClosingsAreTaken, ClosingsAreRefused};

/// Cancel, Expire and Restart bring back the tree from before the trial: values that it overwrote, and leaves that it deleted.
pub fn trials_are_undone()
    ensures { UndoesTrials }
{}

/// A confirmed trial is a plain Set in the end.
pub fn trials_are_confirmed()
    ensures { ConfirmsTrials }
{}

/// An open trial can be confirmed and cancelled by its id, however full the tree and the log are.
pub fn trials_can_be_closed()
    ensures taken { ClosingsAreTaken }
    ensures refused { ClosingsAreRefused }
{}
