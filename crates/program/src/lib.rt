//! The program as one call, `run`, over the objects of the environment that it is handed: files, an input, an output, a door at which
//! connections come in, a clock and a pacer.
//! Start at `run` (program.rt) and its two clauses: specs/headline/Headline.antt is the promise to whoever uses `serve`, `session` and
//! `script`, and specs/Run.antt says what every run is; one page of specs/ a command.
//! What is seen of the environment is in specs/Environment.antt. `MemFiles` are files in memory, for tests.
#![tactic(auto)]

mod arguments;
mod check_command;
mod command;
mod command_end;
mod ending;
mod files;
mod files_record;
mod help;
mod host;
mod init_command;
mod journal_file;
mod laws;
mod load_command;
mod log_command;
mod printing;
mod program;
mod schema_file;
mod script_command;
mod serve_command;
mod session_command;
mod steady_clock;

pub use command_end::Links;
pub use ending::Ending;
pub use files::{DiskFile, Files, MemFiles};
pub use files_record::{FilesRecord, NamedText};
pub use host::{Host, Kit, KitFeeding};
pub use laws::{
    runs_are_complete, runs_in_memory_are_determined, script_runs_keep_their_answers, words_decide,
    words_give_one_command, wrong_answers_break_the_promise,
};
pub use program::{RunEnd, run};
