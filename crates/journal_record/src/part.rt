// Reading the parts of a record from the left. What a part answers beside itself is the octets
// after it.
ghost use Rattle.std.specs.Prelude.{◌≡◌, ℕ, List, Option};
ghost use Rattle.std.specs.Int.{w16, w32, w64};
ghost use Rattle.journal_record.specs.inner.Reading.{AnswersPart, number_at, many_at};

use crate::fault::RecordFault;
use base_lists::{NoMemory, Seq};
use std::alloc::Global;

/// A part of which several may stand one after the other.
pub(crate) trait Part: Drop {
    ghost at: { List ℕ → Option (Self × List ℕ) };

    fn read(alloc: Global, octets: &[u8]) -> Result<(Self, &[u8]), RecordFault>
        ensures { AnswersPart (λ x. (x.0, x.1.now)) result (at octets.now) };
}

/// So many parts.
pub(crate) fn many<T: Part>(
    alloc: Global,
    count: usize,
    octets: &[u8],
) -> Result<(Seq<T>, &[u8]), RecordFault>
    ensures { AnswersPart (λ x. (x.0, x.1.now)) result (many_at T.at count octets.now) }
{
    let mut parts = Seq::empty(alloc);
    let mut rest = octets;
    for _ in 0..count {
        match T::read(alloc, rest) {
            Ok((part, after)) => match parts.push(part) {
                Ok(()) => rest = after,
                Err(NoMemory) => {
                    drop(parts);
                    return Err(RecordFault::NoMemory);
                }
            },
            Err(fault) => {
                drop(parts);
                return Err(fault);
            }
        }
    }
    Ok((parts, rest))
}

pub(crate) fn two_in(octets: &[u8]) -> Result<(u16, &[u8]), RecordFault>
    ensures { AnswersPart (λ x. (x.0, x.1.now)) result (number_at w16 octets.now) }
{
    if octets.len() < 2 {
        return Err(RecordFault::NoRecord);
    }
    let (front, rest) = octets.split_at(2);
    Ok((u16::from_be_bytes([front[0], front[1]]), rest))
}

pub(crate) fn four_in(octets: &[u8]) -> Result<(u32, &[u8]), RecordFault>
    ensures { AnswersPart (λ x. (x.0, x.1.now)) result (number_at w32 octets.now) }
{
    if octets.len() < 4 {
        return Err(RecordFault::NoRecord);
    }
    let (front, rest) = octets.split_at(4);
    let number = u32::from_be_bytes([front[0], front[1], front[2], front[3]]);
    Ok((number, rest))
}

pub(crate) fn eight_in(octets: &[u8]) -> Result<(u64, &[u8]), RecordFault>
    ensures { AnswersPart (λ x. (x.0, x.1.now)) result (number_at w64 octets.now) }
{
    if octets.len() < 8 {
        return Err(RecordFault::NoRecord);
    }
    let (front, rest) = octets.split_at(8);
    let number = u64::from_be_bytes([
        front[0], front[1], front[2], front[3], front[4], front[5], front[6], front[7],
    ]);
    Ok((number, rest))
}
