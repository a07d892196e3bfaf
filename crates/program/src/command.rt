ghost use Rattle.std.specs.Prelude.{IfSome, IfNone};
ghost use Rattle.program.specs.Commands.{Gives, GivesNone, octets_of_words};
ghost use Rattle.program.specs.inner.ParsedCommand.{command_parsed};

use crate::arguments::{
    ServeWords, name_behind, name_with_limits, only_word, seed_and_count, serve_words,
    two_names_behind,
};
use base_kinds::Limits;

/// What the words of a run ask for.
#[derive(Drop)]
pub enum Command<'a> {
    Check { schema: &'a str },
    Script { schema: &'a str, limits: Limits },
    Init { journal: &'a str, limits: Limits },
    Log { journal: &'a str },
    Session { schema: &'a str, journal: &'a str },
    Serve(ServeWords<'a>),
    Load { seed: u64, count: u32 },
    Help,
    Version,
}

/// The command that the words give.
pub fn command_of(words: &[String]) -> Option<Command<'_>>
    ensures some { IfSome result (λ command.
        Gives (octets_of_words words.now) (command_parsed command)) }
    ensures none { IfNone result (GivesNone (octets_of_words words.now)) }
{
    if let Some((schema, limits)) = name_with_limits(words, "script") {
        return Some(Command::Script { schema, limits });
    }
    if let Some((journal, limits)) = name_with_limits(words, "init") {
        return Some(Command::Init { journal, limits });
    }
    if let Some(schema) = name_behind(words, "check") {
        return Some(Command::Check { schema });
    }
    if let Some(journal) = name_behind(words, "log") {
        return Some(Command::Log { journal });
    }
    if let Some((schema, journal)) = two_names_behind(words, "session") {
        return Some(Command::Session { schema, journal });
    }
    if let Some(words) = serve_words(words) {
        return Some(Command::Serve(words));
    }
    if let Some((seed, count)) = seed_and_count(words) {
        return Some(Command::Load { seed, count });
    }
    if only_word(words, "--help") {
        return Some(Command::Help);
    }
    if only_word(words, "--version") {
        return Some(Command::Version);
    }
    None
}
