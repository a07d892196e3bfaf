//! A script over one commit history: its lines in order, what each prints, and the log at its end.
//!
//! Start at `run_script` (run.rt) and `RunsScript` (specs/Scripts.antt): a script is lines to events (specs/ScriptStates.antt),
//! events to answers (base_kinds, specs/Events.antt), and answers to lines (specs/AnswerLines.antt). The history is that of a
//! book on a disk in memory (book.rt), which `fail` and `stop` lines arm: specs/Turns.antt says what a turn of it leaves. Behind a
//! stop the book is opened again (reopening.rt, specs/Stops.antt, specs/Restarts.antt). Lines of subscriptions look at the book and
//! print what the streams that are open say of it (subscribing.rt, specs/Subscribing.antt). laws.rt says what holds of every script.
#![tactic(auto)]

mod answer_lines;
mod book;
mod calls;
mod laws;
mod limit;
mod open_call;
mod pending;
mod reopening;
mod run;
mod state;
mod subscribing;

pub use laws::{
    answers_tell_the_history, bad_requests_change_nothing, endings_are_answered,
    refused_sets_change_nothing, scripts_are_events, scripts_make_histories,
    scripts_print_one_text, scripts_print_their_answers, scripts_run_on, stops_leave_the_history,
    streams_are_runs, trees_of_scripts_are_sound, what_was_answered_stays, whole_scripts_keep,
};
pub use run::{ScriptEnd, Transcript, run_script};
