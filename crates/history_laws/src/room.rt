ghost use Rattle.history_laws.specs.RoomLaws.{TestSaysRoom, SizeAfterOne, AcceptedHadRoom, TrialsLeaveRoom, ClosingsFit, NewLogHasRoom, GivenKeepsRoom, LegalKeepsRoom};

/// What was accepted had room in the log, and a trial leaves room for the entry that closes it.
pub fn trials_leave_room()
    ensures test { TestSaysRoom }
    ensures size { SizeAfterOne }
    ensures accepted { AcceptedHadRoom }
    ensures left { TrialsLeaveRoom }
    ensures closed { ClosingsFit }
{}

/// No further entry takes the room that closing an open trial needs.
pub fn room_is_kept()
    ensures new { NewLogHasRoom }
    ensures given { GivenKeepsRoom }
    ensures legal { LegalKeepsRoom }
{}
