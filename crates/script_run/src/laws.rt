// Laws of what scripts make and print.
ghost use Rattle.script_run.specs.laws.ScriptLaws.{LeadToOne, MakesEvents, MakesDoneEvents, MakesHistories, MakesLegalHistories, MakesSoundTrees, PrintsOne, AnswersTell, AcceptedStay, RefusedChangesNothing, BadRequestsChangeNothing};
ghost use Rattle.script_run.specs.laws.CrashLaws.{AcknowledgedStay, DisksRunOn, DoubtsAreSettled, ShownStay, StopsEndTrials, StopsReopen};
ghost use Rattle.script_run.specs.laws.EndingLaws.{EndingsAreAnswered, ExpiriesStand};
ghost use Rattle.script_run.specs.laws.StreamLaws.{OnceSays, OpensSay, PollsSay, RunsAreKept, StreamsAreRuns, TurnsSay};
ghost use Rattle.script_run.specs.laws.WholeScripts.{WholeScriptsKeep};
ghost use Rattle.script_run.specs.laws.ScriptTexts.{PrintsAnswers, AnswersEvents};

/// What the lines of a script in which nothing stops make of the history, their events make of it, as those of every other front
/// end. Where a line lets the disk fail, that is so of all events but those in whose turns a call of the disk failed.
pub fn scripts_are_events()
    ensures all { MakesEvents }
    ensures done { MakesDoneEvents }
{}

/// Behind a stop the book goes on from the history, or from that with the one attempt, without an open trial or a doubt; and the
/// disk runs on.
pub fn stops_leave_the_history()
    ensures reopened { StopsReopen }
    ensures no_trial { StopsEndTrials }
    ensures running { DisksRunOn }
{}

/// Whatever lines come behind a line, and whatever stops in them: an entry that was answered with `ok` stays, and so does the
/// history of which a read has shown the state. A doubt is settled by the next turn in which nothing fails.
pub fn what_was_answered_stays()
    ensures acknowledged { AcknowledgedStay }
    ensures shown { ShownStay }
    ensures settled { DoubtsAreSettled }
{}

/// Whoever ends the open trial before its deadline is answered with `ok`, or refused for a fault of the disk, wherever the line is
/// answered; and a trial that is due has expired behind a line that takes a turn, unless that was refused so.
pub fn endings_are_answered()
    ensures endings { EndingsAreAnswered }
    ensures expiries { ExpiriesStand }
{}

/// Where no line lets the disk stop, the lines lead to the state behind their turns.
pub fn scripts_run_on()
    ensures { LeadToOne }
{}

/// Whatever the lines of a script are in which nothing stops, the entries that they make are numbered from 1, and their stamps rise
/// from 1 on.
pub fn scripts_make_histories()
    ensures { MakesHistories }
{}

/// The history of the lines of a script in which nothing stops is legal, and its tree is valid under the schema and small enough.
pub fn trees_of_scripts_are_sound()
    ensures legal { MakesLegalHistories }
    ensures sound { MakesSoundTrees }
{}

/// What a script without `stop` prints, and whether each of its lines is taken, is determined by its octets, its schema and the
/// limits.
pub fn scripts_print_one_text()
    ensures { PrintsOne }
{}

/// Whatever waits for the disk, each answer says what its line has added: the entry of an `ok`, which stays in the history,
/// and else nothing but the event of the clock.
pub fn answers_tell_the_history()
    ensures added { AnswersTell }
    ensures stays { AcceptedStay }
{}

/// A Set that is refused over the history, and for no fault of the disk, leaves it as the clock alone makes it.
pub fn refused_sets_change_nothing()
    ensures { RefusedChangesNothing }
{}

/// A Set whose request is refused by itself changes nothing, settles nothing, and the clock's event doesn't come.
pub fn bad_requests_change_nothing()
    ensures { BadRequestsChangeNothing }
{}

/// A script within the limit of its octets, whose every line is one of a script, prints the answers to its lines, in order,
/// and then the log of the history that they made, and it is whole. Where no line lets the disk fail, and none is one of
/// subscriptions, the answers are those to the events that the lines are.
pub fn scripts_print_their_answers()
    ensures answers { PrintsAnswers }
    ensures events { AnswersEvents }
{}

/// Of a script whose every line was taken, whatever failed and stopped in it: each entry that was answered with `ok` is in the log
/// at its end, each state that was shown is that of a front of it, and no stop left a trial open.
pub fn whole_scripts_keep()
    ensures { WholeScriptsKeep }
{}

/// Wherever a script's lines lead to, whatever failed and stopped on the way, each stream that is open is one over its history. What
/// an `open`, a `poll` and a turn print is what such a stream says first and next, at the end of the history that the line leaves;
/// and that stays what a stream says over the history, whatever stops later.
pub fn streams_are_runs()
    ensures runs { StreamsAreRuns }
    ensures opens { OpensSay }
    ensures once { OnceSays }
    ensures polls { PollsSay }
    ensures turns { TurnsSay }
    ensures kept { RunsAreKept }
{}
