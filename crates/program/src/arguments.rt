ghost use Rattle.std.specs.Prelude.{◌≡◌, ◌<◌, ◌≤◌, ◌^◌, ◌↔◌, ◌∷◌, [], IsTrue, List, ℕ, IfSome, IfNone};
ghost use Rattle.std.specs.Fmt.{decimal};
ghost use Rattle.base_kinds.specs.declared.entry.Limits.{Limits as LogLimits};
ghost use Rattle.program.specs.Commands.{AreLimits, IsLoad, IsName, IsNameWithLimits, IsServe};
ghost use Rattle.program.specs.Commands.{most_sessions, most_sets, octets_of_words};

use base_kinds::{Limits, default_limits};
use plain_texts::natural_of;

/// The name and the limits behind this word, where the words are of that form.
pub fn name_with_limits<'a>(words: &'a [String], word: &str) -> Option<(&'a str, Limits)>
    ensures some { IfSome result (λ form.
        IsNameWithLimits word.now (octets_of_words words.now) form.0.now form.1) }
    ensures none { IfNone result ((name : List ℕ) (limits : LogLimits) →
        IsNameWithLimits word.now (octets_of_words words.now) name limits → ⊥) }
{
    match words {
        [first, name] => {
            if first.as_str() == word {
                return Some((name.as_str(), default_limits()));
            }
            None
        }
        [first, name, entries, octets] => {
            if first.as_str() == word {
                let limits = limits_of(entries.as_str(), octets.as_str())?;
                return Some((name.as_str(), limits));
            }
            None
        }
        _ => None,
    }
}

/// The name behind this word, where the words are these two.
pub fn name_behind<'a>(words: &'a [String], word: &str) -> Option<&'a str>
    ensures name { IfSome result (λ name.
        IsName word.now (octets_of_words words.now) name.now) }
    ensures none { IfNone result ((name : List ℕ) →
        IsName word.now (octets_of_words words.now) name → ⊥) }
{
    match words {
        [first, name] => {
            if first.as_str() == word {
                return Some(name.as_str());
            }
            None
        }
        _ => None,
    }
}

/// The two names behind this word, where the words are these three.
pub fn two_names_behind<'a>(words: &'a [String], word: &str) -> Option<(&'a str, &'a str)>
    ensures names { IfSome result (λ names.
        octets_of_words words.now ≡ word.now ∷ names.0.now ∷ names.1.now ∷ []) }
    ensures none { IfNone result ((first other : List ℕ) →
        octets_of_words words.now ≡ word.now ∷ first ∷ other ∷ [] → ⊥) }
{
    match words {
        [first, name, other] => {
            if first.as_str() == word {
                return Some((name.as_str(), other.as_str()));
            }
            None
        }
        _ => None,
    }
}

/// The seed and the number of Sets, where the words are those of a load.
pub fn seed_and_count(words: &[String]) -> Option<(u64, u32)>
    ensures some { IfSome result (λ load. IsLoad (octets_of_words words.now) load.0 load.1) }
    ensures none { IfNone result ((seed count : ℕ) →
        IsLoad (octets_of_words words.now) seed count → ⊥) }
{
    let (seed, count) = two_names_behind(words, "load")?;
    let seed = natural_of(seed.as_bytes())?;
    let count = count_of(count, MOST_SETS)?;
    Some((seed, count))
}

/// The words of a server: the names of both files, the address, and how many connections it accepts.
#[derive(Drop)]
pub struct ServeWords<'a> {
    pub schema: &'a str,
    pub journal: &'a str,
    pub address: &'a str,
    pub sessions: u32,
}

/// These, where the words are those of a server.
pub fn serve_words<'a>(words: &'a [String]) -> Option<ServeWords<'a>>
    ensures some { IfSome result (λ serve. IsServe (octets_of_words words.now) serve.schema.now
        serve.journal.now serve.address.now serve.sessions) }
    ensures none { IfNone result ((schema journal address : List ℕ) (sessions : ℕ) →
        IsServe (octets_of_words words.now) schema journal address sessions → ⊥) }
{
    match words {
        [first, schema, journal, address, sessions] => {
            if first.as_str() == "serve" {
                let sessions = count_of(sessions.as_str(), MOST_SESSIONS)?;
                return Some(ServeWords {
                    schema: schema.as_str(),
                    journal: journal.as_str(),
                    address: address.as_str(),
                    sessions,
                });
            }
            None
        }
        _ => None,
    }
}

/// Whether there is one word, and it is this one.
pub fn only_word(words: &[String], word: &str) -> bool
    ensures { IsTrue result ↔ (octets_of_words words.now ≡ word.now ∷ []) }
{
    match words {
        [only] => only.as_str() == word,
        _ => false,
    }
}

/// The limits that the two words are.
fn limits_of(entries: &str, octets: &str) -> Option<Limits>
    ensures some { IfSome result (AreLimits entries.now octets.now) }
    ensures none { IfNone result ((limits : LogLimits) →
        AreLimits entries.now octets.now limits → ⊥) }
{
    let entries = limit_of(entries)?;
    let octets = limit_of(octets)?;
    let limits = Limits { entries, octets };
    if limits.in_range() {
        return Some(limits);
    }
    None
}

/// `load` generates at most so many Sets.
const MOST_SETS: u32 = 65_536;

/// `serve` accepts at most so many connections.
const MOST_SESSIONS: u32 = 1024;

/// A number from 1 to this one in decimal.
fn count_of(word: &str, most: u32) -> Option<u32>
    ensures some { IfSome result (λ count. word.now ≡ decimal count) }
    ensures in_range { IfSome result (λ count. (1 ≤ count) × (count ≤ most)) }
    ensures none { IfNone result ((count : ℕ) → 1 ≤ count → count ≤ most
        → word.now ≡ decimal count → ⊥) }
{
    let count = limit_of(word)?;
    if count < 1 {
        return None;
    }
    if count > most {
        return None;
    }
    Some(count)
}

/// A number of 32 bits in decimal.
fn limit_of(word: &str) -> Option<u32>
    ensures some { IfSome result (λ limit. word.now ≡ decimal limit) }
    ensures small { IfSome result (λ limit. limit < 2 ^ 32) }
    ensures none { IfNone result ((limit : ℕ) → limit < 2 ^ 32 → word.now ≡ decimal limit → ⊥) }
{
    let number = natural_of(word.as_bytes())?;
    if number > 4_294_967_295 {
        return None;
    }
    Some(number as u32)
}
