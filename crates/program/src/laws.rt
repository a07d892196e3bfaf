ghost use Rattle.program.specs.Commands.{octets_of_words};
ghost use Rattle.program.specs.laws.RunLaws.{CompletesChecks, CompletesScripts, AnswersWhole, WritesTheSame};
ghost use Rattle.program.specs.laws.RunLaws.{CompletesInits, CompletesLogs};
ghost use Rattle.program.specs.laws.GoodScripts.{CompletesGoodScripts};
ghost use Rattle.program.specs.laws.KeptAnswers.{KeepsScripts};
ghost use Rattle.program.specs.laws.WordLaws.{AreDecided, GiveOneCommand, CompletesHelp, CompletesVersion, CompletesRefusals};
ghost use Rattle.program.specs.worked.Headlines.{AcknowledgedTwice, BeforeTheOwnSet, GoesBack, LostInACrash, OfAnotherHistory, OfNoState, RefusedAndDone};
ghost use Rattle.program.specs.laws.MemoryRuns.{LosesNoOctet, RunsAlike};

use crate::command::command_of;

/// Whatever the words are, they give a command or none.
pub fn words_decide(words: &[String])
    ensures { AreDecided (octets_of_words words.now) }
{
    match command_of(words) {
        Some(_) => {}
        None => {}
    }
}

/// Words give one command at most.
pub fn words_give_one_command()
    ensures { GiveOneCommand }
{}

/// Where nothing fails, a run does what its command says, or memory is wanting; no memory is wanted for what needs neither
/// a file nor the input.
pub fn runs_are_complete()
    ensures checks { CompletesChecks }
    ensures scripts { CompletesScripts }
    ensures good_scripts { CompletesGoodScripts }
    ensures inits { CompletesInits }
    ensures logs { CompletesLogs }
    ensures help { CompletesHelp }
    ensures version { CompletesVersion }
    ensures refusals { CompletesRefusals }
{}

/// The run of a script that ended with 0 has kept what it answered, whatever its lines let fail and stop: each entry of an `ok` is in
/// the log at its end, each state that was shown is that of a front of it, and behind no stop a trial was open.
pub fn script_runs_keep_their_answers()
    ensures { KeepsScripts }
{}

/// Of an input in memory the whole is answered, and no octet of it is lost. Two runs with the same words over fresh and equal
/// objects in memory, with one text and one disk or none, write the same and end alike, where nothing fails and memory is there in both.
pub fn runs_in_memory_are_determined()
    ensures whole { AnswersWhole }
    ensures none_lost { LosesNoOctet }
    ensures same { WritesTheSame }
    ensures alike { RunsAlike }
{}

/// What the promise refuses, case by case: a reply of another history, a Get of the state before the session's own Set, one commit
/// acknowledged for two Sets, a refused Set with a commit, a stream that tells of no state or goes back, and an acknowledged commit
/// that a crash loses.
pub fn wrong_answers_break_the_promise()
    ensures another { OfAnotherHistory }
    ensures early { BeforeTheOwnSet }
    ensures twice { AcknowledgedTwice }
    ensures refused { RefusedAndDone }
    ensures no_state { OfNoState }
    ensures back { GoesBack }
    ensures lost { LostInACrash }
{}
