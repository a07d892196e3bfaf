ghost use Rattle.std.specs.Prelude.{◌≡◌, ◌⊎◌, ◌<◌, ◌≤◌, ◌+◌, ◌^◌, [], ◌∷◌, ◌++◌, Ok, Some, None, true, false, length, IsSome, IfErr, OnOk, OnErr, IsErrOf};
ghost use Rattle.base_kinds.specs.Legal.{IsFit};
ghost use Rattle.base_kinds.specs.Records.{record_octets};
ghost use Rattle.base_kinds.specs.Step.{after_expiry, is_due, step};
ghost use Rattle.environment.specs.Faults.{Rose};
ghost use Rattle.disk_model.specs.Calls.{CallsEnd, CallsPassed};
ghost use Rattle.disk_model.specs.Moments.{LeavesNow, LeavesOnly};
ghost use Rattle.journal_format.specs.Histories.{MayFollow};
ghost use Rattle.commit_journal.specs.Images.{IsJournalOr};
ghost use Rattle.commit_journal.specs.Ledgers.{FailsAppending};
ghost use Rattle.book_port.specs.declared.happening.Happening.TheVariants.{Entered, Marked};
ghost use Rattle.book_port.specs.Answers.{AnswersSet, AnswersLook, set_stages, look_stages};
ghost use Rattle.book_port.specs.Chronicles.{marks_of, Adds};
ghost use Rattle.book_port.specs.Opened.{IsRun, rules_in};
ghost use Rattle.book_core.specs.Calls.{CallsFor, repair_calls, expiry_entry, answer_entry};
ghost use Rattle.commit_core.specs.CoreView.{EndsTrial, IsNext};
ghost use Rattle.book_core.specs.Moments.{GoesThrough, IsDoubted};
ghost use Rattle.book_core.specs.Views.{BookView, history_in, most_marks};
ghost use Rattle.book_core.specs.inner.Books.{KeepsRules};
ghost use Rattle.book_core.specs.inner.Faults.{refused_for};
ghost use Rattle.book_core.specs.inner.Parts.{GoesOn};

use crate::chronicle::Chronicle;
use base_kinds::{Ask, Entries, Entry, Paths, Refusal, TreeLike, View};
use commit_core::Core;
use commit_journal::{Ledger, LedgerFault};
use disk_model::Disk;
use schema_core::Schema;
use std::alloc::Global;
use std::marker::Model;
use std::snapshot::Snapshot;

/// How many marks a book has at most.
const MOST_MARKS: u64 = 1 << 63;

/// A history, the tree that it stands for, and the journal that keeps it on a disk.
///
/// Every call settles first what an earlier append left in doubt, then lets a trial expire that is
/// due, and then does what is asked. A call that a fault of the disk ends leaves a mark of its
/// author.
#[derive(Drop)]
pub struct Book<D: Disk, T: TreeLike> {
    pub(crate) core: Core<T>,
    pub(crate) ledger: Ledger<D>,
    pub(crate) marks: u64,
    pub(crate) chronicle: Chronicle,
    /// The core as the opening left it, and the disk as the opening was given it.
    pub(crate) first: Snapshot<Core<T>>,
    pub(crate) given: Snapshot<D>,
}

/// What a book leaves.
#[derive(Drop)]
pub struct BookEnd<D: Disk> {
    pub disk: D,
    /// The history, without what is in doubt.
    pub entries: Entries,
}

impl<D: Disk, T: TreeLike> Model for Book<D, T> {
    ghost use Rattle.std.specs.Coded.{codes};
    ghost use Rattle.base_kinds.specs.contracts.value.Value as value;
    ghost use Rattle.book_core.specs.Views.{BookView, book_code};
    ghost use Rattle.book_core.specs.inner.Books.{IsBook, opened_with};

    ghost Value = { BookView D };

    ghost coded = { book_code D.code (Prim.hlevel (codes, value.the_row.coded)) };

    ghost view = { λ b. record {
      disk = b.ledger.disk;
      opened = opened_with b.first.value (D.faults b.given.value);
      chronicle = b.chronicle;
      doubt = b.ledger.doubt;
    } };

    ghost invariant = { λ b.
        IsBook D.told D.faults (opened_with b.first.value (D.faults b.given.value))
        b.chronicle b.core b.ledger b.marks };
}

/// Adds the mark of a call that a fault of the disk ended.
fn mark(chronicle: &mut Chronicle, marks: &mut u64, author: u32)
    requires { marks.old < most_marks }
    ensures chronicle { chronicle.new ≡ chronicle.old ++ Marked author ∷ [] }
    ensures marks { marks.new ≡ marks.old + 1 }
{
    chronicle.mark(author);
    *marks += 1;
}

fn refusal_of(fault: LedgerFault) -> Refusal
    ensures { result ≡ refused_for fault }
{
    match fault {
        LedgerFault::DiskFault => Refusal::DiskFault,
        LedgerFault::NoMemory => Refusal::NoMemory,
    }
}

/// Makes the entry that the core awaits the last one: in the journal first, and only then in the
/// core.
fn enter<D: Disk, T: TreeLike + Drop>(
    core: &mut Core<T>,
    ledger: &mut Ledger<D>,
    chronicle: &mut Chronicle,
    entry: Entry,
) -> Result<(), Refusal>
    requires awaited { IsNext core.old entry }
    requires settled { ledger.old.doubt ≡ None }
    requires next { MayFollow ledger.old.limits ledger.old.history entry }
    ensures rules { KeepsRules core.old core.new }
    ensures core_ok { OnOk result
        (core.new.entries ≡ core.old.entries ++ entry ∷ []) }
    ensures core_err { OnErr result (core.new.entries ≡ core.old.entries) }
    ensures chronicle_ok { OnOk result (chronicle.new ≡ chronicle.old ++ Entered entry ∷ []) }
    ensures chronicle_err { OnErr result (chronicle.new ≡ chronicle.old) }
    ensures ledger_ok { OnOk result ((ledger.new.history ≡ ledger.old.history ++ entry ∷ [])
        × (ledger.new.doubt ≡ None)) }
    ensures ledger_err { OnErr result (ledger.new.history ≡ ledger.old.history) }
    ensures doubt { OnErr result ((ledger.new.doubt ≡ None) ⊎ (ledger.new.doubt ≡ Some entry)) }
    ensures limits { ledger.new.limits ≡ ledger.old.limits }
    ensures room { ledger.old.room ≤ ledger.new.room }
    ensures refusals { IfErr result (λ refusal.
        (refusal ≡ Refusal.DiskFault) ⊎ (refusal ≡ Refusal.NoMemory)) }
    ensures memory { IsErrOf result Refusal.NoMemory
        → ledger.new ≡ record ledger.old { room = ledger.new.room } }
    ensures within { record_octets entry + 1 ≤ ledger.old.room
        → ¬ (IsErrOf result Refusal.NoMemory) }
    ensures any_moment { LeavesOnly
        (IsJournalOr ledger.old.limits ledger.old.history (Some entry))
        (D.told ledger.old.disk) (D.told ledger.new.disk) }
    ensures images { LeavesNow
        (IsJournalOr ledger.new.limits ledger.new.history ledger.new.doubt)
        (D.told ledger.new.disk) }
    ensures fault { IsErrOf result Refusal.DiskFault
        → Rose (D.faults ledger.old.disk) (D.faults ledger.new.disk) }
    ensures quiet { ¬ (IsErrOf result Refusal.DiskFault)
        → D.faults ledger.new.disk ≡ D.faults ledger.old.disk }
    ensures passed { OnOk result
        (CallsPassed 4 (D.fuse ledger.old.disk) (D.fuse ledger.new.disk)) }
    ensures failed { IsErrOf result Refusal.DiskFault
        → FailsAppending entry ledger.new.doubt (D.fuse ledger.old.disk)
        (D.fuse ledger.new.disk) }
{
    match ledger.append(&entry) {
        Ok(()) => {
            chronicle.enter(&entry);
            core.take(entry);
            Ok(())
        }
        Err(fault) => {
            core.forget();
            Err(refusal_of(fault))
        }
    }
}

impl<D: Disk, T: TreeLike + Drop> Book<D, T> {
    /// Settles what is in doubt: the attempt doesn't stand.
    fn settle(&mut self, author: u32) -> Result<(), Refusal>
        requires few { length (marks_of self.old.chronicle) < most_marks }
        ensures ok { OnOk result (self.new ≡ record self.old {
          disk = self.new.disk;
          doubt = None;
        }) }
        ensures err { OnErr result (self.new ≡ record self.old {
          disk = self.new.disk;
          chronicle = self.old.chronicle ++ Marked author ∷ [];
        }) }
        ensures in_doubt { OnErr result (IsSome self.old.doubt) }
        ensures refusal { IfErr result (λ refusal. refusal ≡ Refusal.DiskFault) }
        ensures any_moment { LeavesOnly
            (IsJournalOr self.old.opened.limits (history_in self.old) self.old.doubt)
            (D.told self.old.disk) (D.told self.new.disk) }
        ensures images { LeavesNow
            (IsJournalOr self.new.opened.limits (history_in self.new) self.new.doubt)
            (D.told self.new.disk) }
        ensures run { IsRun self.old.opened (history_in self.old) }
        ensures run_on { IsRun self.new.opened (history_in self.new) }
        ensures fault { OnErr result (Rose (D.faults self.old.disk) (D.faults self.new.disk)) }
        ensures quiet { OnOk result (D.faults self.new.disk ≡ D.faults self.old.disk) }
        ensures calls { CallsEnd (repair_calls self.old.doubt) (D.fuse self.old.disk)
            (D.fuse self.new.disk) result }
    {
        if self.ledger.in_doubt() {
            let Ok(()) = self.ledger.repair() else {
                mark(&mut self.chronicle, &mut self.marks, author);
                return Err(Refusal::DiskFault);
            };
        }
        Ok(())
    }

    /// Makes the event of the clock, where it is due.
    fn expire(&mut self, now: u64, author: u32) -> Result<(), Refusal>
        requires few { length (marks_of self.old.chronicle) < most_marks }
        requires settled { self.old.doubt ≡ None }
        ensures ok { OnOk result ((history_in self.new ≡ after_expiry (history_in self.old) now)
            × (self.new.doubt ≡ None)) }
        ensures err { OnErr result (history_in self.new ≡ history_in self.old) }
        ensures part { GoesOn D.told D.fuse author (look_stages (history_in self.old) now)
            (expiry_entry (history_in self.old) now) result self.old self.new }
        ensures refusal { IfErr result (λ refusal. refusal ≡ Refusal.DiskFault) }
        ensures fault { OnErr result (Rose (D.faults self.old.disk) (D.faults self.new.disk)) }
        ensures quiet { OnOk result (D.faults self.new.disk ≡ D.faults self.old.disk) }
    {
        if !self.core.due(now) {
            return Ok(());
        }
        let entry = self.core.expiry(now);
        let Ok(()) = enter(&mut self.core, &mut self.ledger, &mut self.chronicle, entry) else {
            mark(&mut self.chronicle, &mut self.marks, author);
            return Err(Refusal::DiskFault);
        };
        Ok(())
    }

    /// Makes what is asked the next entry, where nothing is in doubt and nothing is due.
    fn commit(&mut self, alloc: Global, now: u64, author: u32, ask: Ask) -> Result<u64, Refusal>
        requires few { length (marks_of self.old.chronicle) < most_marks }
        requires settled { self.old.doubt ≡ None }
        requires quiet { is_due (history_in self.old) now ≡ false }
        requires author { 0 < author }
        requires fit { IsFit ask }
        ensures answer { AnswersSet (rules_in self.old.opened) (history_in self.old) now author ask
            result (history_in self.new) }
        ensures part { let rules = rules_in self.old.opened in
            GoesOn D.told D.fuse author (set_stages rules (history_in self.old) now author ask)
            (answer_entry (step rules (history_in self.old) now author ask)) result self.old
            self.new }
        ensures settled { ¬ (IsErrOf result Refusal.DiskFault) → self.new.doubt ≡ None }
        ensures closes { IsErrOf result Refusal.NoMemory → EndsTrial ask → ⊥ }
        ensures fault { IsErrOf result Refusal.DiskFault
            → Rose (D.faults self.old.disk) (D.faults self.new.disk) }
        ensures quiet { ¬ (IsErrOf result Refusal.DiskFault)
            → D.faults self.new.disk ≡ D.faults self.old.disk }
    {
        let entry = self.core.judge(alloc, now, author, ask)?;
        let stamp = entry.stamp;
        match enter(&mut self.core, &mut self.ledger, &mut self.chronicle, entry) {
            Ok(()) => Ok(stamp),
            Err(refusal) => {
                if !refusal.is_memory() {
                    mark(&mut self.chronicle, &mut self.marks, author);
                }
                Err(refusal)
            }
        }
    }

    /// Makes what is asked the next entry, at this reading of the clock in nanoseconds since 1970,
    /// behind the event of the clock. The answer is its stamp. It is refused as the core refuses
    /// it, with `DiskFault` exactly where the disk failed in the call, and with `NoMemory`, which
    /// never comes to an ask that ends a trial.
    pub fn set(&mut self, alloc: Global, now: u64, author: u32, ask: Ask) -> Result<u64, Refusal>
        // needs
        requires author { 0 < author }
        requires fit { IsFit ask }
        // what is answered, and what it adds
        ensures answer { AnswersSet (rules_in self.old.opened) (history_in self.old) now author ask
            result (history_in self.new) }
        ensures adds { Adds author result self.old.chronicle self.new.chronicle }
        ensures opened { self.new.opened ≡ self.old.opened }
        ensures run { IsRun self.old.opened (history_in self.old) }
        ensures run_on { IsRun self.new.opened (history_in self.new) }
        // what is in doubt, and want of memory
        ensures settled { ¬ (IsErrOf result Refusal.DiskFault)
            → ¬ (IsErrOf result Refusal.NoMemory) → self.new.doubt ≡ None }
        ensures doubt { let rules = rules_in self.old.opened in
            IsDoubted (set_stages rules (history_in self.old) now author ask)
            (history_in self.old) self.old.doubt (history_in self.new) self.new.doubt }
        ensures closes { IsErrOf result Refusal.NoMemory
            → length (marks_of self.old.chronicle) < most_marks
            → (history_in self.new ≡ after_expiry (history_in self.old) now)
            × (self.new.doubt ≡ None) × (EndsTrial ask → ⊥) }
        ensures room { ¬ (IsErrOf result Refusal.NoMemory)
            → length (marks_of self.old.chronicle) < most_marks }
        // at a stop, at any moment of the call, and after it
        ensures any_moment { let rules = rules_in self.old.opened in
            GoesThrough self.old.opened.limits (history_in self.old) self.old.doubt
            (set_stages rules (history_in self.old) now author ask) self.new.doubt
            (D.told self.old.disk) (D.told self.new.disk) }
        ensures images { LeavesNow
            (IsJournalOr self.new.opened.limits (history_in self.new) self.new.doubt)
            (D.told self.new.disk) }
        // the disk's count of faults
        ensures fault { IsErrOf result Refusal.DiskFault
            → Rose (D.faults self.old.disk) (D.faults self.new.disk) }
        ensures quiet { ¬ (IsErrOf result Refusal.DiskFault)
            → D.faults self.new.disk ≡ D.faults self.old.disk }
        // how many calls of the disk it makes, and what one that fails leaves
        ensures calls { let rules = rules_in self.old.opened in
            CallsFor self.old.doubt (history_in self.old) now
            (answer_entry (step rules (history_in self.old) now author ask))
            (history_in self.new) self.new.doubt
            (D.fuse self.old.disk) (D.fuse self.new.disk) result }
    {
        if self.marks == MOST_MARKS {
            return Err(Refusal::NoMemory);
        }
        self.settle(author)?;
        self.expire(now, author)?;
        self.commit(alloc, now, author, ask)
    }

    /// The rows that some pattern covers, at this reading of the clock, behind the event of the
    /// clock. It is refused with `DiskFault` exactly where the disk failed in the call, and with
    /// `NoMemory`.
    pub fn look(
        &mut self,
        alloc: Global,
        now: u64,
        author: u32,
        patterns: &Paths,
    ) -> Result<View, Refusal>
        // needs
        requires { 0 < author }
        // what is answered, and what it adds
        ensures answer { AnswersLook (history_in self.old) now patterns.now result
            (history_in self.new) }
        ensures adds { Adds author result self.old.chronicle self.new.chronicle }
        ensures opened { self.new.opened ≡ self.old.opened }
        ensures run { IsRun self.old.opened (history_in self.old) }
        ensures run_on { IsRun self.new.opened (history_in self.new) }
        // what is in doubt, and want of memory
        ensures settled { ¬ (IsErrOf result Refusal.DiskFault)
            → ¬ (IsErrOf result Refusal.NoMemory) → self.new.doubt ≡ None }
        ensures doubt { IsDoubted (look_stages (history_in self.old) now)
            (history_in self.old) self.old.doubt (history_in self.new) self.new.doubt }
        ensures memory { IsErrOf result Refusal.NoMemory
            → length (marks_of self.old.chronicle) < most_marks
            → (history_in self.new ≡ after_expiry (history_in self.old) now)
            × (self.new.doubt ≡ None) }
        ensures room { ¬ (IsErrOf result Refusal.NoMemory)
            → length (marks_of self.old.chronicle) < most_marks }
        // at a stop, at any moment of the call, and after it
        ensures any_moment { GoesThrough self.old.opened.limits (history_in self.old)
            self.old.doubt (look_stages (history_in self.old) now) self.new.doubt
            (D.told self.old.disk) (D.told self.new.disk) }
        ensures images { LeavesNow
            (IsJournalOr self.new.opened.limits (history_in self.new) self.new.doubt)
            (D.told self.new.disk) }
        // the disk's count of faults
        ensures fault { IsErrOf result Refusal.DiskFault
            → Rose (D.faults self.old.disk) (D.faults self.new.disk) }
        ensures quiet { ¬ (IsErrOf result Refusal.DiskFault)
            → D.faults self.new.disk ≡ D.faults self.old.disk }
        // how many calls of the disk it makes, and what one that fails leaves
        ensures calls { CallsFor self.old.doubt (history_in self.old) now None
            (history_in self.new) self.new.doubt
            (D.fuse self.old.disk) (D.fuse self.new.disk) result }
    {
        if self.marks == MOST_MARKS {
            return Err(Refusal::NoMemory);
        }
        self.settle(author)?;
        self.expire(now, author)?;
        let Ok(view) = self.core.look(alloc, patterns) else {
            return Err(Refusal::NoMemory);
        };
        Ok(view)
    }

    /// What trees are judged by.
    pub fn schema(&self) -> &Schema
        ensures { result.now ≡ self.now.opened.schema }
    {
        self.core.schema()
    }

    /// How many entries and marks there are together.
    #[tactic(auto, using(book_port::proofs::Chronicled::counted_whole))]
    pub fn count(&self) -> u64
        ensures value { result ≡ length self.now.chronicle }
        ensures run { IsRun self.now.opened (history_in self.now) }
        ensures risen { self.now.opened.faults + length (marks_of self.now.chronicle)
            ≤ D.faults self.now.disk }
        ensures few { length (marks_of self.now.chronicle) ≤ most_marks }
    {
        self.core.entries().len() as u64 + self.marks
    }

    /// The history, and the disk as it is.
    pub fn end(self) -> BookEnd<D>
        ensures disk { result.disk ≡ self.disk }
        ensures entries { result.entries ≡ history_in self }
        ensures run { IsRun self.opened (history_in self) }
        ensures risen { self.opened.faults + length (marks_of self.chronicle)
            ≤ D.faults self.disk }
        ensures images { LeavesNow (IsJournalOr self.opened.limits (history_in self) self.doubt)
            (D.told self.disk) }
    {
        BookEnd {
            entries: self.core.into_entries(),
            disk: self.ledger.give(),
        }
    }
}
