ghost use Rattle.history_laws.specs.SoundLaws.{NoRowsAreSound, AcceptedTreesAreSound, GivenKeepsSound, LegalTreesAreSound};

/// Under a schema the trees of a legal history are valid and small enough, and so is the tree from before an open trial.
pub fn trees_are_sound()
    ensures empty { NoRowsAreSound }
    ensures accepted { AcceptedTreesAreSound }
    ensures given { GivenKeepsSound }
    ensures legal { LegalTreesAreSound }
{}
