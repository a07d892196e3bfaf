// Reading values.
ghost use Rattle.std.specs.Prelude.{◌≡◌};
ghost use Rattle.journal_record.specs.inner.Reading.{AnswersPart, bool_at, int_at, uint_at, bin_at, text_value_at, enum_at, places_at, dec_at, scalar_at, item_at, list_at, value_at};

use crate::fault::RecordFault;
use crate::part::{Part, eight_in, four_in, many};
use crate::paths::{octets_at, text_at};
use base_kinds::{Bytes, MOST_FRACTION_DIGITS, Value};
use std::alloc::Global;

/// The tag of a list, whose values have other tags.
pub(crate) const LIST: u8 = 8;

fn bool_at(octets: &[u8]) -> Result<(Value, &[u8]), RecordFault>
    ensures { AnswersPart (λ x. (x.0, x.1.now)) result (bool_at octets.now) }
{
    match octets {
        [0, rest @ ..] => Ok((Value::Bool(false), rest)),
        [1, rest @ ..] => Ok((Value::Bool(true), rest)),
        _ => Err(RecordFault::NoRecord),
    }
}

fn int_at(octets: &[u8]) -> Result<(Value, &[u8]), RecordFault>
    ensures { AnswersPart (λ x. (x.0, x.1.now)) result (int_at octets.now) }
{
    let (number, rest) = eight_in(octets)?;
    Ok((Value::Int(number.cast_signed()), rest))
}

fn uint_at(octets: &[u8]) -> Result<(Value, &[u8]), RecordFault>
    ensures { AnswersPart (λ x. (x.0, x.1.now)) result (uint_at octets.now) }
{
    let (number, rest) = eight_in(octets)?;
    Ok((Value::Uint(number), rest))
}

/// How many digits of a decimal stand behind the point.
fn places_at(octets: &[u8]) -> Result<(u8, &[u8]), RecordFault>
    ensures { AnswersPart (λ x. (x.0, x.1.now)) result (places_at octets.now) }
{
    let [places, rest @ ..] = octets else {
        return Err(RecordFault::NoRecord);
    };
    if *places < 1 || *places > MOST_FRACTION_DIGITS {
        return Err(RecordFault::NoRecord);
    }
    Ok((*places, rest))
}

#[tactic(auto, unfolding(crate::specs::inner::Reading::dec_at))]
fn dec_at(octets: &[u8]) -> Result<(Value, &[u8]), RecordFault>
    ensures { AnswersPart (λ x. (x.0, x.1.now)) result (dec_at octets.now) }
{
    let (digits, rest) = eight_in(octets)?;
    let (places, rest) = places_at(rest)?;
    Ok((Value::Dec(digits.cast_signed(), places), rest))
}

fn bin_at(alloc: Global, octets: &[u8]) -> Result<(Value, &[u8]), RecordFault>
    ensures { AnswersPart (λ x. (x.0, x.1.now)) result (bin_at octets.now) }
{
    let (octets, rest) = octets_at(octets)?;
    let bytes = Bytes::of(alloc, octets)?;
    Ok((Value::Bin(bytes), rest))
}

fn text_value_at(alloc: Global, octets: &[u8]) -> Result<(Value, &[u8]), RecordFault>
    ensures { AnswersPart (λ x. (x.0, x.1.now)) result (text_value_at octets.now) }
{
    let (text, rest) = text_at(alloc, octets)?;
    Ok((Value::Text(text), rest))
}

fn enum_at(alloc: Global, octets: &[u8]) -> Result<(Value, &[u8]), RecordFault>
    ensures { AnswersPart (λ x. (x.0, x.1.now)) result (enum_at octets.now) }
{
    let (text, rest) = text_at(alloc, octets)?;
    Ok((Value::Enum(text), rest))
}

/// What follows the tag of a value that is no list.
#[tactic(auto, unfolding(crate::specs::inner::Reading::scalar_at))]
fn scalar_at(alloc: Global, tag: u8, octets: &[u8]) -> Result<(Value, &[u8]), RecordFault>
    ensures { AnswersPart (λ x. (x.0, x.1.now)) result (scalar_at tag octets.now) }
{
    match tag {
        1 => bool_at(octets),
        2 => int_at(octets),
        3 => uint_at(octets),
        4 => dec_at(octets),
        5 => text_value_at(alloc, octets),
        6 => bin_at(alloc, octets),
        7 => enum_at(alloc, octets),
        _ => Err(RecordFault::NoRecord),
    }
}

/// A value of a list: no list itself.
impl Part for Value {
    ghost use Rattle.journal_record.specs.inner.Reading.{item_at};

    ghost at = { item_at };

    #[tactic(auto, unfolding(crate::specs::inner::Reading::item_at))]
    fn read(alloc: Global, octets: &[u8]) -> Result<(Value, &[u8]), RecordFault> {
        match octets {
            [] => Err(RecordFault::NoRecord),
            [tag, rest @ ..] => scalar_at(alloc, *tag, rest),
        }
    }
}

#[tactic(auto, unfolding(crate::specs::inner::Reading::list_at))]
fn list_at(alloc: Global, octets: &[u8]) -> Result<(Value, &[u8]), RecordFault>
    ensures { AnswersPart (λ x. (x.0, x.1.now)) result (list_at octets.now) }
{
    let (count, rest) = four_in(octets)?;
    let (values, rest) = many(alloc, count as usize, rest)?;
    Ok((Value::List(values), rest))
}

#[tactic(auto, unfolding(crate::specs::inner::Reading::value_at))]
pub(crate) fn value_at(alloc: Global, octets: &[u8]) -> Result<(Value, &[u8]), RecordFault>
    ensures { AnswersPart (λ x. (x.0, x.1.now)) result (value_at octets.now) }
{
    match octets {
        [] => Err(RecordFault::NoRecord),
        [LIST, rest @ ..] => list_at(alloc, rest),
        [tag, rest @ ..] => scalar_at(alloc, *tag, rest),
    }
}
