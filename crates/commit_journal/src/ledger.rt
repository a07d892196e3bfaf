ghost use Rattle.std.specs.Prelude.{◌≡◌, ◌≢◌, ◌⊎◌, ◌+◌, ◌^◌, ◌<◌, ◌≤◌, [], ◌∷◌, ◌++◌, length, IsOk, IsSome, IsErrOf, IfOk, OnOk, OnErr, is_some, None, Some, vec_capacity};
ghost use Rattle.environment.specs.Faults.{Rose};
ghost use Rattle.disk_model.specs.Calls.{CallsPassed, FailsWithin, CallsEnd};
ghost use Rattle.disk_model.specs.Content.{WhereTold, Tells};
ghost use Rattle.disk_model.specs.Moments.{LeavesNow, LeavesOnly};
ghost use Rattle.base_kinds.specs.Limits.{AreInRange};
ghost use Rattle.base_kinds.specs.Records.{record_octets};
ghost use Rattle.journal_record.specs.Spelling.{record_of};
ghost use Rattle.journal_record.specs.Representable.{IsRepresentable};
ghost use Rattle.journal_format.specs.Gates.{closed_gate};
ghost use Rattle.journal_format.specs.Histories.{MayFollow};
ghost use Rattle.journal_format.specs.Journal.{IsJournal};
ghost use Rattle.commit_journal.specs.Images.{IsJournalOr};
ghost use Rattle.commit_journal.specs.Ledgers.{LedgerView, FailedAppend, FailsAppending};
ghost use Rattle.commit_journal.specs.Writes.{Creates, CreateFails, Appends, PutsGate, FailsAtGate, first_octets};

use crate::faults::{CreateFault, LedgerFault};
use base_kinds::{Bytes, Entry, Limits, NoMemory};
use base_lists::Remembered;
use disk_model::{Disk, put_synced};
use environment::Failed;
use journal_format::{CLOSED_GATE, OPEN_GATE, put_entry, write_header};
use std::alloc::Global;
use std::marker::Model;
use std::snapshot::Snapshot;

/// A journal on a disk, open for more entries. Nobody else may write the disk meanwhile.
#[derive(Drop)]
pub struct Ledger<D: Disk> {
    pub(crate) disk: D,
    pub(crate) limits: Limits,
    /// The place of the closed gate.
    pub(crate) gate: u64,
    /// The history, which is not there at run time.
    pub(crate) history: Remembered<Entry>,
    /// What is in doubt, of which only that it is so is there at run time.
    pub(crate) attempt: Option<Snapshot<Entry>>,
    /// Where a record and the gate behind it are put together.
    pub(crate) buffer: Vec<u8>,
}

impl<D: Disk> Model for Ledger<D> {
    ghost use Rattle.std.specs.Coded.{codes};
    ghost use Rattle.std.specs.Prelude.{vec_capacity};
    ghost use Rattle.std.specs.Option.{option_map};
    ghost use Rattle.base_kinds.specs.contracts.value.Value as value;
    ghost use Rattle.commit_journal.specs.Ledgers.{LedgerView, view_code};
    ghost use Rattle.commit_journal.specs.inner.Invariant.{IsLedger};

    ghost Value = { LedgerView D };

    ghost coded = { view_code D.code (Prim.hlevel (codes, value.the_row.coded)) };

    ghost view = { λ l. record {
      disk = l.disk;
      limits = l.limits;
      history = l.history;
      doubt = option_map (λ s. s.value) l.attempt;
      room = vec_capacity l.buffer;
    } };

    ghost invariant = { λ l. IsLedger (D.told l.disk) l.gate l.limits l.history
        (option_map (λ s. s.value) l.attempt) };
}

/// Puts the entry's record and a closed gate in place of what is in the buffer.
#[tactic(auto, using(journal_record::proofs::Lengths::record_length))]
fn put_record(entry: &Entry, buffer: &mut Vec<u8>) -> Result<(), NoMemory>
    ensures ok { OnOk result (buffer.new.items ≡ record_of entry.now ++ closed_gate ∷ []) }
    ensures kept { OnOk result (IsRepresentable entry.now) }
    ensures capacity { vec_capacity buffer.old ≤ vec_capacity buffer.new }
    ensures within { record_octets entry.now < 2 ^ 32
        → record_octets entry.now + 1 ≤ vec_capacity buffer.old → IsOk result }
{
    buffer.clear();
    put_entry(entry, buffer)?;
    buffer.push(CLOSED_GATE)?;
    Ok(())
}

/// Puts the header and a closed gate behind what is there.
fn put_first_octets(limits: &Limits, octets: &mut Bytes) -> Result<(), NoMemory>
    requires { AreInRange limits.now }
    ensures { OnOk result (octets.new ≡ octets.old ++ first_octets limits.now) }
{
    write_header(limits, octets)?;
    octets.push(CLOSED_GATE)
}

/// The header and a closed gate.
fn first_octets(alloc: Global, limits: &Limits) -> Result<Bytes, NoMemory>
    requires { AreInRange limits.now }
    ensures { IfOk result (λ octets. octets ≡ first_octets limits.now) }
{
    let mut octets = Bytes::empty(alloc);
    match put_first_octets(limits, &mut octets) {
        Ok(()) => Ok(octets),
        Err(NoMemory) => {
            drop(octets);
            Err(NoMemory)
        }
    }
}

impl<D: Disk> Ledger<D> {
    /// Writes the journal without entries on a disk that is empty: its header and a closed gate, by
    /// one write and one sync.
    pub fn create(alloc: Global, disk: &mut D, limits: &Limits) -> Result<(), CreateFault>
        // needs
        requires { AreInRange limits.now }
        // after Ok
        ensures created { OnOk result (WhereTold (D.told disk.old) (D.told disk.new)
            (Creates limits.now)) }
        // after Err, by its cause
        ensures not_empty { IsErrOf result CreateFault.NotEmpty
            → Tells (D.told disk.old) (λ c. c.seen ≢ []) }
        ensures refused { Tells (D.told disk.old) (λ c. c.seen ≢ []
            → IsErrOf result CreateFault.NotEmpty ⊎ IsErrOf result CreateFault.DiskFault) }
        ensures failed { IsErrOf result CreateFault.DiskFault → (D.told disk.new ≡ D.told disk.old)
            ⊎ WhereTold (D.told disk.old) (D.told disk.new) (CreateFails limits.now) }
        ensures unchanged { ¬ (IsErrOf result CreateFault.DiskFault)
            → OnErr result (D.told disk.new ≡ D.told disk.old) }
        // at a stop after it
        ensures images { OnOk result (LeavesNow (λ octets. IsJournal octets limits.now [])
            (D.told disk.new)) }
        // the disk's count of faults
        ensures fault { IsErrOf result CreateFault.DiskFault
            → Rose (D.faults disk.old) (D.faults disk.new) }
        ensures quiet { ¬ (IsErrOf result CreateFault.DiskFault)
            → D.faults disk.new ≡ D.faults disk.old }
        // how many calls of the disk it makes
        ensures three_calls { OnOk result (CallsPassed 3 (D.fuse disk.old) (D.fuse disk.new)) }
        ensures failed_call { IsErrOf result CreateFault.DiskFault
            → FailsWithin 3 (D.fuse disk.old) (D.fuse disk.new) }
        ensures one_call { ¬ (IsErrOf result CreateFault.DiskFault)
            → OnErr result (CallsPassed 1 (D.fuse disk.old) (D.fuse disk.new)) }
    {
        if disk.len()? != 0 {
            return Err(CreateFault::NotEmpty);
        }
        match first_octets(alloc, limits) {
            Ok(octets) => {
                let put = put_synced(disk, 0, octets.items());
                drop(octets);
                match put {
                    Ok(()) => Ok(()),
                    Err(Failed) => Err(CreateFault::DiskFault),
                }
            }
            Err(NoMemory) => Err(CreateFault::NoMemory),
        }
    }

    /// The limits of its journal.
    pub fn limits(&self) -> Limits
        ensures { result ≡ self.now.limits }
    {
        self.limits
    }

    /// Takes the memory for appending a record of so many octets.
    pub fn reserve(&mut self, octets: u64) -> Result<(), NoMemory>
        ensures ok { OnOk result (octets + 1 ≤ self.new.room) }
        ensures same { self.new ≡ record self.old { room = self.new.room } }
        ensures grows { self.old.room ≤ self.new.room }
        ensures within { octets + 1 ≤ self.old.room → IsOk result }
    {
        self.buffer.clear();
        let Some(needed) = octets.checked_add(1) else {
            return Err(NoMemory);
        };
        self.buffer.reserve(needed as usize)?;
        Ok(())
    }

    /// Makes the entry the last one of the history: writes its record behind the closed gate and
    /// syncs, and then opens the gate and syncs. After a fault at the gate the entry is in doubt.
    pub fn append(&mut self, entry: &Entry) -> Result<(), LedgerFault>
        // needs
        requires settled { self.old.doubt ≡ None }
        requires next { MayFollow self.old.limits self.old.history entry.now }
        // after Ok
        ensures ok { OnOk result ((self.new.history ≡ self.old.history ++ entry.now ∷ [])
            × (self.new.doubt ≡ None)) }
        ensures calls { OnOk result (WhereTold (D.told self.old.disk) (D.told self.new.disk)
            (Appends self.old.limits self.old.history entry.now)) }
        // after Err, by its cause
        ensures err { OnErr result (self.new.history ≡ self.old.history) }
        ensures failed { IsErrOf result LedgerFault.DiskFault
            → FailedAppend self.old.limits self.old.history entry.now self.new.doubt
            (D.told self.old.disk) (D.told self.new.disk) }
        ensures memory { IsErrOf result LedgerFault.NoMemory
            → self.new ≡ record self.old { room = self.new.room } }
        ensures within { record_octets entry.now + 1 ≤ self.old.room
            → ¬ (IsErrOf result LedgerFault.NoMemory) }
        // at a stop, at any moment of the call, and after it
        ensures any_moment { LeavesOnly
            (IsJournalOr self.old.limits self.old.history (Some entry.now))
            (D.told self.old.disk) (D.told self.new.disk) }
        ensures images { LeavesNow (IsJournalOr self.new.limits self.new.history self.new.doubt)
            (D.told self.new.disk) }
        // without fail
        ensures limits { self.new.limits ≡ self.old.limits }
        ensures room { self.old.room ≤ self.new.room }
        // the disk's count of faults
        ensures fault { IsErrOf result LedgerFault.DiskFault
            → Rose (D.faults self.old.disk) (D.faults self.new.disk) }
        ensures quiet { ¬ (IsErrOf result LedgerFault.DiskFault)
            → D.faults self.new.disk ≡ D.faults self.old.disk }
        // how many calls of the disk it makes
        ensures four_calls { OnOk result
            (CallsPassed 4 (D.fuse self.old.disk) (D.fuse self.new.disk)) }
        ensures failed_call { IsErrOf result LedgerFault.DiskFault
            → FailsAppending entry.now self.new.doubt (D.fuse self.old.disk)
            (D.fuse self.new.disk) }
    {
        let Ok(()) = put_record(entry, &mut self.buffer) else {
            return Err(LedgerFault::NoMemory);
        };
        let Ok(()) = put_synced(&mut self.disk, self.gate + 1, &self.buffer) else {
            return Err(LedgerFault::DiskFault);
        };
        let Ok(()) = put_synced(&mut self.disk, self.gate, &[OPEN_GATE]) else {
            self.attempt = Some(Snapshot::of(entry));
            return Err(LedgerFault::DiskFault);
        };
        self.gate += self.buffer.len() as u64;
        self.history.remember(entry);
        Ok(())
    }

    /// Whether it isn't settled what the last append left, so that a repair has to come first.
    pub fn in_doubt(&self) -> bool
        ensures { result ≡ is_some self.now.doubt }
    {
        self.attempt.is_some()
    }

    /// Settles a doubt: the entry doesn't stand. It may fail and be made again, and never wants
    /// memory.
    pub fn repair(&mut self) -> Result<(), LedgerFault>
        // needs
        requires { IsSome self.old.doubt }
        // after Ok
        ensures ok { OnOk result (self.new ≡ record self.old {
          disk = self.new.disk;
          doubt = None;
        }) }
        ensures calls { OnOk result (WhereTold (D.told self.old.disk) (D.told self.new.disk)
            (PutsGate self.old.limits self.old.history closed_gate)) }
        // after Err, by its cause
        ensures err { OnErr result (self.new ≡ record self.old { disk = self.new.disk }) }
        ensures failed { OnErr result (WhereTold (D.told self.old.disk) (D.told self.new.disk)
            (FailsAtGate self.old.limits self.old.history)) }
        ensures memory { ¬ (IsErrOf result LedgerFault.NoMemory) }
        // at a stop, at any moment of the call, and after it
        ensures any_moment { LeavesOnly
            (IsJournalOr self.old.limits self.old.history self.old.doubt)
            (D.told self.old.disk) (D.told self.new.disk) }
        ensures images { LeavesNow (IsJournalOr self.new.limits self.new.history self.new.doubt)
            (D.told self.new.disk) }
        // the disk's count of faults
        ensures fault { OnErr result (Rose (D.faults self.old.disk) (D.faults self.new.disk)) }
        ensures quiet { OnOk result (D.faults self.new.disk ≡ D.faults self.old.disk) }
        // how many calls of the disk it makes
        ensures two_calls { CallsEnd 2 (D.fuse self.old.disk) (D.fuse self.new.disk) result }
    {
        put_synced(&mut self.disk, self.gate, &[CLOSED_GATE])?;
        self.attempt = None;
        Ok(())
    }

    /// Gives the disk back, as it is.
    pub fn give(self) -> D
        ensures { result ≡ self.disk }
    {
        self.disk
    }
}
