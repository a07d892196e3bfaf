// Reading the record of an entry.
ghost use Rattle.std.specs.Prelude.{◌≡◌, ◌++◌, ℕ, List, IfOk, IsErrOf};
ghost use Rattle.base_kinds.specs.declared.entry.Entry.{Entry as LogEntry};
ghost use Rattle.journal_record.specs.Spelling.{record_of};
ghost use Rattle.journal_record.specs.Representable.{HasRecord, IsReadAs};
ghost use Rattle.journal_record.specs.inner.Reading.{AnswersPart, apply_at, trial_at, extend_at, content_at, kind_at, entry_at};

use crate::fault::RecordFault;
use crate::operations::ops_at;
use crate::part::{eight_in, four_in};
use crate::paths::text_at;
use base_kinds::{Entry, Kind};
use std::alloc::Global;

fn apply_at(alloc: Global, octets: &[u8]) -> Result<(Kind, &[u8]), RecordFault>
    ensures { AnswersPart (λ x. (x.0, x.1.now)) result (apply_at octets.now) }
{
    let (ops, rest) = ops_at(alloc, octets)?;
    Ok((Kind::Apply(ops), rest))
}

#[tactic(auto, unfolding(crate::specs::inner::Reading::trial_at))]
fn trial_at(alloc: Global, octets: &[u8]) -> Result<(Kind, &[u8]), RecordFault>
    ensures { AnswersPart (λ x. (x.0, x.1.now)) result (trial_at octets.now) }
{
    let (id, rest) = text_at(alloc, octets)?;
    match eight_in(rest) {
        Ok((deadline, rest)) => match ops_at(alloc, rest) {
            Ok((ops, rest)) => Ok((Kind::Trial(id, ops, deadline), rest)),
            Err(fault) => {
                drop(id);
                Err(fault)
            }
        },
        Err(fault) => {
            drop(id);
            Err(fault)
        }
    }
}

fn extend_at(octets: &[u8]) -> Result<(Kind, &[u8]), RecordFault>
    ensures { AnswersPart (λ x. (x.0, x.1.now)) result (extend_at octets.now) }
{
    let (deadline, rest) = eight_in(octets)?;
    Ok((Kind::Extend(deadline), rest))
}

/// What follows the number of a kind.
#[tactic(auto, unfolding(crate::specs::inner::Reading::content_at))]
fn content_at(alloc: Global, number: u8, octets: &[u8]) -> Result<(Kind, &[u8]), RecordFault>
    ensures { AnswersPart (λ x. (x.0, x.1.now)) result (content_at number octets.now) }
{
    match number {
        1 => apply_at(alloc, octets),
        2 => trial_at(alloc, octets),
        3 => Ok((Kind::Confirm, octets)),
        4 => Ok((Kind::Cancel, octets)),
        5 => Ok((Kind::Expire, octets)),
        6 => Ok((Kind::Restart, octets)),
        7 => extend_at(octets),
        _ => Err(RecordFault::NoRecord),
    }
}

#[tactic(auto, unfolding(crate::specs::inner::Reading::kind_at))]
fn kind_at(alloc: Global, octets: &[u8]) -> Result<(Kind, &[u8]), RecordFault>
    ensures { AnswersPart (λ x. (x.0, x.1.now)) result (kind_at octets.now) }
{
    match octets {
        [] => Err(RecordFault::NoRecord),
        [number, rest @ ..] => content_at(alloc, *number, rest),
    }
}

#[tactic(auto, unfolding(crate::specs::inner::Reading::entry_at))]
fn entry_at(alloc: Global, number: u64, octets: &[u8]) -> Result<(Entry, &[u8]), RecordFault>
    ensures { AnswersPart (λ x. (x.0, x.1.now)) result (entry_at number octets.now) }
{
    let (author, rest) = four_in(octets)?;
    let (stamp, rest) = eight_in(rest)?;
    let (kind, rest) = kind_at(alloc, rest)?;
    let entry = Entry {
        number,
        author,
        stamp,
        kind,
    };
    Ok((entry, rest))
}

/// The entry with this number whose record stands at the front of the octets, and the octets after
/// it. Its number is not among the octets.
pub fn read_entry(alloc: Global, number: u64, octets: &[u8]) -> Result<(Entry, &[u8]), RecordFault>
    // What is read is the record of an entry whose operations fit.
    ensures found { IfOk result (λ x. IsReadAs number octets.now x.0 x.1.now) }
    // No other entry's record stands there.
    ensures only { IfOk result (λ x. (entry : LogEntry) (rest : List ℕ) → HasRecord entry
        → entry.number ≡ number → octets.now ≡ record_of entry ++ rest
        → (entry ≡ x.0) × (rest ≡ x.1.now)) }
    // And where none is read, none stands there.
    ensures none { IsErrOf result RecordFault.NoRecord → (entry : LogEntry) (rest : List ℕ)
        → HasRecord entry → entry.number ≡ number → octets.now ≡ record_of entry ++ rest → ⊥ }
{
    entry_at(alloc, number, octets)
}
