//! Laws of the definitions, which hold for every caller.
ghost use Rattle.stream_workers.specs.laws.FeederLaws.{OthersAreFeeders};
ghost use Rattle.stream_workers.specs.laws.PortLaws.{MeetingKeepsOwnPort, MeetingKeepsOwnVisit, TwinKeepsOwnPort, TwinKeepsOwnVisit};

/// Making a twin of a port, and meeting one that has seen no more, takes nothing of its own from the port.
pub fn ports_keep_what_is_theirs()
    ensures book_twin { TwinKeepsOwnPort }
    ensures book_meeting { MeetingKeepsOwnPort }
    ensures wire_twin { TwinKeepsOwnVisit }
    ensures wire_meeting { MeetingKeepsOwnVisit }
{}

/// Once all feeders have ended, what others than the session did at its wire is what feeders said.
pub fn others_are_feeders()
    ensures { OthersAreFeeders }
{}
