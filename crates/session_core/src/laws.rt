//! Laws of the definitions, which hold for every caller: those of a connection hold whichever calls feeders serve.
ghost use Rattle.session_core.specs.laws.RunLaws.{TurnsAreTaken, TurnsFollow, TurnsFollowAlone, HistoriesAreAllowed, OwnEntriesStand, EarlierEntriesStand, FindsAreKept, FaultsAreMarked, StreamsAreAnswered, DataAreAFront, OnceCallsSayStates};
ghost use Rattle.session_core.specs.laws.PollLaws.{PollCallsSayStates};
ghost use Rattle.session_core.specs.laws.StreamLaws.{StreamCallsSayRuns};
ghost use Rattle.session_core.specs.laws.FeederLaws.{AnswersAtOwnPort, FedStreamsSayNothingOlder, FedStreamsSayRuns, FeedersBeginAtTheSession, FeedersFindEarlierEntries, FeedersSayNothingOlder, FeedersSayRuns, OthersRest, OthersServe, OwnEntriesStandBeside, TurnsAtOwnPort, TurnsFollowBeside};

/// The answers of a connection are those of one history.
pub fn answers_are_of_one_history()
    ensures taken { TurnsAreTaken }
    ensures follow { TurnsFollow }
    ensures alone { TurnsFollowAlone }
    ensures allowed { HistoriesAreAllowed }
{}

/// That history has the entries of the connection's own turns, each once, in order, and so has the one that a later turn finds.
pub fn own_entries_stand()
    ensures last { OwnEntriesStand }
    ensures earlier { EarlierEntriesStand }
{}

/// What the port of a connection keeps of its turns.
pub fn turns_are_kept()
    ensures found { FindsAreKept }
    ensures marked { FaultsAreMarked }
{}

/// What is written on a stream of a connection.
pub fn streams_are_answered()
    ensures frames { StreamsAreAnswered }
    ensures data { DataAreAFront }
{}

/// What a Subscribe call of mode ONCE says is a run of a stream with one turn, at a state of that history.
pub fn once_calls_say_states()
    ensures { OnceCallsSayStates }
{}

/// What the turns of a Subscribe call of mode STREAM say, which the connection serves itself, is a run of its stream, at states of
/// that history that don't fall.
pub fn stream_calls_say_runs()
    ensures { StreamCallsSayRuns }
{}

/// What a turn of a Subscribe call of mode POLL says is a run of a stream with that turn, at a state of that history.
pub fn poll_calls_say_states()
    ensures { PollCallsSayStates }
{}

/// What holds of a port without what it knows of other ports of its book.
pub fn own_ports_stand_alone()
    ensures answers { AnswersAtOwnPort }
    ensures turns { TurnsAtOwnPort }
{}

/// What feeders say between two steps of a session takes nothing from what was done before.
pub fn what_feeders_say_stands_apart()
    ensures serves { OthersServe }
    ensures rests { OthersRest }
{}

/// What a feeder beside a connection says is a run of the stream of its call, at states of the history that the connection's port
/// has seen at the end, and what is said on the stream of its call is a front of that.
pub fn feeders_say_runs()
    ensures messages { FeedersSayRuns }
    ensures streams { FedStreamsSayRuns }
{}

/// Beside feeders, too, that history has the entries of the connection's own turns, each once, in order.
pub fn own_entries_stand_beside()
    ensures follow { TurnsFollowBeside }
    ensures last { OwnEntriesStandBeside }
{}

/// A feeder finds no older state than the one that the connection's turns had left before the call was handed over, and so all
/// entries that they had added.
pub fn feeders_begin_at_the_session()
    ensures begin { FeedersBeginAtTheSession }
    ensures say { FeedersSayNothingOlder }
    ensures streams { FedStreamsSayNothingOlder }
    ensures earlier { FeedersFindEarlierEntries }
{}
