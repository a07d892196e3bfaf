// Reading texts, and paths of elements with keys.
ghost use Rattle.std.specs.Prelude.{◌≡◌, ◌↔◌, IsTrue, Some, None, if◌then◌else◌};
ghost use Rattle.std.specs.Str.{is_utf8};
ghost use Rattle.journal_record.specs.inner.Reading.{AnswersPart, octets_at, text_at, key_at, keys_at, elem_at, path_at};

use crate::fault::RecordFault;
use crate::part::{Part, four_in, many, two_in};
use base_kinds::{Elem, Keys, MOST_ELEMENTS, Path, Text, TextOfFault, rises};
use std::alloc::Global;

/// A length, and so many octets.
#[tactic(auto, unfolding(crate::specs::inner::Reading::octets_at))]
pub(crate) fn octets_at(octets: &[u8]) -> Result<(&[u8], &[u8]), RecordFault>
    ensures { AnswersPart (λ x. (x.0.now, x.1.now)) result (octets_at octets.now) }
{
    let (length, rest) = four_in(octets)?;
    let length = length as usize;
    if rest.len() < length {
        return Err(RecordFault::NoRecord);
    }
    Ok(rest.split_at(length))
}

#[tactic(auto, using(crate::proofs::Texts::utf8_tests))]
fn text_of(alloc: Global, octets: &[u8]) -> Result<Text, RecordFault>
    ensures { AnswersPart (λ text. text) result
        (if is_utf8 octets.now then Some octets.now else None) }
{
    match Text::of(alloc, octets) {
        Ok(text) => Ok(text),
        Err(TextOfFault::NotUtf8) => Err(RecordFault::NoRecord),
        Err(TextOfFault::NoMemory) => Err(RecordFault::NoMemory),
    }
}

#[tactic(auto, unfolding(crate::specs::inner::Reading::text_at))]
pub(crate) fn text_at(alloc: Global, octets: &[u8]) -> Result<(Text, &[u8]), RecordFault>
    ensures { AnswersPart (λ x. (x.0, x.1.now)) result (text_at octets.now) }
{
    let (text, rest) = octets_at(octets)?;
    let text = text_of(alloc, text)?;
    Ok((text, rest))
}

impl Part for (Text, Text) {
    ghost use Rattle.journal_record.specs.inner.Reading.{key_at};

    ghost at = { key_at };

    #[tactic(auto, unfolding(crate::specs::inner::Reading::key_at))]
    fn read(alloc: Global, octets: &[u8]) -> Result<((Text, Text), &[u8]), RecordFault> {
        let (name, rest) = text_at(alloc, octets)?;
        match text_at(alloc, rest) {
            Ok((value, rest)) => Ok(((name, value), rest)),
            Err(fault) => {
                drop(name);
                Err(fault)
            }
        }
    }
}

#[tactic(auto, unfolding(crate::specs::inner::Reading::keys_at))]
fn keys_at(alloc: Global, octets: &[u8]) -> Result<(Keys, &[u8]), RecordFault>
    ensures { AnswersPart (λ x. (x.0, x.1.now)) result (keys_at octets.now) }
{
    let (count, rest) = two_in(octets)?;
    let (keys, rest) = many(alloc, count as usize, rest)?;
    if !rises(keys.items()) {
        drop(keys);
        return Err(RecordFault::NoRecord);
    }
    Ok((keys, rest))
}

impl Part for Elem {
    ghost use Rattle.journal_record.specs.inner.Reading.{elem_at};

    ghost at = { elem_at };

    #[tactic(auto, unfolding(crate::specs::inner::Reading::elem_at))]
    fn read(alloc: Global, octets: &[u8]) -> Result<(Elem, &[u8]), RecordFault> {
        let (name, rest) = text_at(alloc, octets)?;
        match keys_at(alloc, rest) {
            Ok((keys, rest)) => Ok((Elem { name, keys }, rest)),
            Err(fault) => {
                drop(name);
                Err(fault)
            }
        }
    }
}

#[tactic(auto, unfolding(crate::specs::inner::Reading::path_at))]
pub(crate) fn path_at(alloc: Global, octets: &[u8]) -> Result<(Path, &[u8]), RecordFault>
    ensures { AnswersPart (λ x. (x.0, x.1.now)) result (path_at octets.now) }
{
    let (count, rest) = two_in(octets)?;
    if count as usize > MOST_ELEMENTS {
        return Err(RecordFault::NoRecord);
    }
    many(alloc, count as usize, rest)
}
