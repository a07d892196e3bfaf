//! Laws of the definitions, which hold for every caller.
ghost use Rattle.std.specs.Prelude.{◌≡◌};
ghost use Rattle.h2_frame.specs.Frames.{Frame};
ghost use Rattle.h2_responses.specs.declared.server.Server.{Server as Known};
ghost use Rattle.h2_responses.specs.Outcomes.{Outcome};
ghost use Rattle.h2_responses.specs.Meanings.{Means};

/// A frame has one outcome.
pub fn one_outcome()
    ensures { (server : Known) (frame : Frame) (one other : Outcome)
        → Means server frame one → Means server frame other → one ≡ other }
{}
