ghost use Rattle.history_laws.specs.HistoryLaws.{StateAfterOne, StateAfterMore, StampAfterOne, NextGoesOn, FrontsAreHistories, TreesRise, TreesBeforeRise};

/// One more entry changes the state by its own content alone.
pub fn states_go_on()
    ensures state { StateAfterOne }
    ensures more { StateAfterMore }
    ensures stamp { StampAfterOne }
{}

/// A history goes on with the next number and a later stamp, and each of its fronts is a history.
pub fn histories_go_on()
    ensures next { NextGoesOn }
    ensures front { FrontsAreHistories }
{}

/// The trees of every history have their rows in order, with no path twice.
pub fn trees_rise()
    ensures now { TreesRise }
    ensures before { TreesBeforeRise }
{}
