// Reading a journal.
ghost use Rattle.std.specs.Prelude.{◌≡◌, ◌+◌, ◌≤◌, ◌++◌, ℕ, List, length, IfOk, IfErr, IsErrOf};
ghost use Rattle.base_kinds.specs.Limits.{AreInRange};
ghost use Rattle.base_kinds.specs.declared.entry.Entry.{Entry as LogEntry};
ghost use Rattle.base_kinds.specs.declared.entry.Limits.{Limits as LogLimits};
ghost use Rattle.journal_format.specs.Journal.{header, journal_prefix, IsJournal, IsDamaged};
ghost use Rattle.journal_format.specs.Answers.{IsCauseOf, GivesJournal, GivesDamage};
ghost use Rattle.journal_format.specs.inner.Read.{IsReadFrom, CauseAt};
ghost use Rattle.journal_format.specs.inner.Progress.{IsWithinLimits, IsFollowed, IsFollowedByNone};

use crate::gates::OPEN_GATE;
use crate::header::header_in;
use crate::journal::{Journal, JournalFault};
use crate::progress::{Progress, follow};
use base_kinds::{Entry, Limits, NoMemory, Seq};
use journal_record::{RecordFault, read_entry};
use std::alloc::Global;

/// The entry that stands behind an open gate, if it may follow those before it; what is known with
/// it, and what is left.
fn next_in<'a>(
    alloc: Global,
    limits: &Limits,
    so_far: &Progress,
    octets: &'a [u8],
) -> Result<(Entry, Progress, &'a [u8]), RecordFault>
    requires in_range { AreInRange limits.now }
    requires within { IsWithinLimits limits.now so_far.now }
    ensures found { IfOk result (λ x.
        IsFollowed limits.now so_far.now octets.now x.0 x.1 x.2.now) }
    ensures none { IsErrOf result RecordFault.NoRecord
        → IsFollowedByNone limits.now so_far.now octets.now }
{
    match read_entry(alloc, so_far.count + 1, octets) {
        Ok((entry, rest)) => {
            let length = octets.len() - rest.len();
            match follow(limits, so_far, &entry, length) {
                None => {
                    drop(entry);
                    Err(RecordFault::NoRecord)
                }
                Some(next) => Ok((entry, next, rest)),
            }
        }
        Err(fault) => Err(fault),
    }
}

fn fault_at(fault: RecordFault, place: u64) -> JournalFault
    ensures { CauseAt fault place result }
{
    match fault {
        RecordFault::NoRecord => JournalFault::Damaged(place),
        RecordFault::NoMemory => JournalFault::NoMemory,
    }
}

/// What stands behind the header.
fn entries_in(alloc: Global, limits: Limits, octets: &[u8]) -> Result<Journal, JournalFault>
    requires { AreInRange limits }
    ensures found { IfOk result (λ j. IsReadFrom (header limits ++ octets.now) j) }
    ensures damaged { IfErr result (λ e. IsCauseOf e (header limits ++ octets.now)) }
{
    let mut so_far = Progress::start();
    let mut entries = Seq::empty(alloc);
    let mut rest = octets;
    while let Some((gate, behind)) = rest.split_first() {
        if *gate != OPEN_GATE {
            let gate = so_far.gate();
            return Ok(Journal {
                limits,
                entries,
                gate,
            });
        }
        match next_in(alloc, &limits, &so_far, behind) {
            Ok((entry, next, after)) => match entries.push(entry) {
                Ok(()) => {
                    so_far = next;
                    rest = after;
                }
                Err(NoMemory) => {
                    drop(entries);
                    return Err(JournalFault::NoMemory);
                }
            },
            Err(fault) => {
                drop(entries);
                return Err(fault_at(fault, so_far.gate()));
            }
        }
    }
    drop(entries);
    Err(JournalFault::Damaged(so_far.gate()))
}

fn read(alloc: Global, octets: &[u8]) -> Result<Journal, JournalFault>
    ensures found { IfOk result (λ j. IsReadFrom octets.now j) }
    ensures damaged { IfErr result (λ e. IsCauseOf e octets.now) }
{
    let Some((limits, rest)) = header_in(octets) else {
        return Err(JournalFault::Damaged(0));
    };
    entries_in(alloc, limits, rest)
}

/// The journal that the octets are.
pub fn read_journal(alloc: Global, octets: &[u8]) -> Result<Journal, JournalFault>
    // The octets are a journal of what is read.
    ensures found { IfOk result (λ j. IsJournal octets.now j.limits j.entries) }
    // The gate is the place of its closed gate.
    ensures gate { IfOk result (λ j. j.gate ≡ length (journal_prefix j.limits j.entries)) }
    // A fault's place is that of the damage.
    ensures damaged { IfErr result (λ e. IsCauseOf e octets.now) }
    // Whatever they are a journal of is read, unless memory runs out.
    ensures every_journal { (limits : LogLimits) (h : List LogEntry)
        → IsJournal octets.now limits h → GivesJournal limits h result }
    // And wherever they are damaged, that place is told.
    ensures every_damage { (place : ℕ) → IsDamaged octets.now place
        → GivesDamage place result }
{
    read(alloc, octets)
}
