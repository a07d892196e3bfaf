ghost use Rattle.std.specs.Prelude.{◌≡◌, ◌↔◌, ◌≤◌, ◌+◌, [], Some, None, IsTrue, length, IfOk, IfSome, IsSome, OnOk, OnErr, IsErrOf};
ghost use Rattle.base_kinds.specs.Bases.{IsSound};
ghost use Rattle.base_kinds.specs.History.{world_of};
ghost use Rattle.base_kinds.specs.Records.{record_octets};
ghost use Rattle.environment.specs.Faults.{Rose};
ghost use Rattle.disk_model.specs.Calls.{CallsPassed, WhereArmed};
ghost use Rattle.disk_model.specs.Moments.{LeavesNow, LeavesOnly};
ghost use Rattle.journal_format.specs.Histories.{MayFollow};
ghost use Rattle.commit_journal.specs.Images.{IsJournalOr};
ghost use Rattle.commit_journal.specs.Openings.{IsReady, opening_calls};
ghost use Rattle.book_port.specs.Chronicles.{entered};
ghost use Rattle.book_port.specs.Opened.{reopened};
ghost use Rattle.commit_core.specs.CoreView.{CoreView, IsReplayable};
ghost use Rattle.book_core.specs.Calls.{FailsBehind, append_calls};
ghost use Rattle.book_core.specs.Openings.{Opens};
ghost use Rattle.book_core.specs.inner.Books.{KeepsRules};
ghost use Rattle.book_core.specs.inner.Restarts.{IsRestartOf, with_one};

use crate::book::Book;
use crate::chronicle::Chronicle;
use base_kinds::{BARE_RECORD_OCTETS, Entries, Entry, NoMemory, Path, Paths, TreeLike};
use commit_core::Core;
use commit_journal::{Ledger, LedgerFault, Opening};
use disk_model::Disk;
use schema_core::Schema;
use std::alloc::Global;
use std::snapshot::Snapshot;
use tree_check::{CheckFault, check};

/// What the opening of a book gave.
#[derive(Drop)]
pub enum BookOpening<D: Disk, T: TreeLike> {
    Ready(Book<D, T>),
    /// The octets are no journal from this place on.
    Damaged(u64, D),
    /// The journal's tree doesn't keep to the schema, or is too large. Nothing was written.
    Unfit(D),
    /// A call of the disk failed.
    DiskFault(D),
    /// Nothing was written.
    NoMemory(D),
}

/// Why a history isn't gone on from.
enum RestoreFault {
    Unfit,
    NoMemory,
}

impl From<NoMemory> for RestoreFault {
    ghost use Rattle.book_core.specs.declared.opening.RestoreFault.TheVariants.{NoMemory as OutOfMemory};

    ghost from_gives = { λ _ e. e ≡ OutOfMemory };

    fn from(_e: NoMemory) -> RestoreFault {
        RestoreFault::NoMemory
    }
}

/// Whether the tree is valid under the schema, and small enough.
#[tactic(auto, using(crate::proofs::Openings::whole, history_laws::proofs::States::rising_world))]
fn is_sound<T: TreeLike + Drop>(alloc: Global, core: &Core<T>) -> Result<bool, NoMemory>
    ensures { IfOk result (λ is. IsTrue is
        ↔ IsSound core.now.schema (world_of core.now.entries).tree) }
{
    let mut root = Paths::empty(alloc);
    root.push(Path::empty(alloc))?;
    let view = core.look(alloc, &root)?;
    match check(alloc, core.schema(), &view.rows) {
        Ok(()) => Ok(true),
        Err(CheckFault::TreeInvalid) => Ok(false),
        Err(CheckFault::TreeFull) => Ok(false),
        Err(CheckFault::NoMemory) => Err(NoMemory),
    }
}

/// Ends the trial that is open. The answer is the entry that did so.
fn end_trial<T: TreeLike + Drop>(core: &mut Core<T>, now: u64) -> Option<Entry>
    ensures entries { core.new.entries ≡ reopened core.old.entries now }
    ensures rules { KeepsRules core.old core.new }
    ensures restart { IsRestartOf core.old.entries now result }
{
    if !core.is_trial_open() {
        return None;
    }
    let entry = core.restart(now);
    core.take(core.restart(now));
    Some(entry)
}

/// Makes a history that of a core that has none, without the trial that is open in it. The answer
/// is the entry that ended that.
fn restore<T: TreeLike + Drop>(
    alloc: Global,
    core: &mut Core<T>,
    entries: Entries,
    now: u64,
) -> Result<Option<Entry>, RestoreFault>
    requires fresh { core.old.entries ≡ [] }
    requires replayable { IsReplayable entries }
    ensures entries { OnOk result (core.new.entries ≡ reopened entries now) }
    ensures rules { KeepsRules core.old core.new }
    ensures sound { OnOk result
        (IsSound core.old.schema (world_of (reopened entries now)).tree) }
    ensures restart { IfOk result (λ restart. IsRestartOf entries now restart) }
    ensures unfit { IsErrOf result RestoreFault.Unfit
        → IsSound core.old.schema (world_of (reopened entries now)).tree → ⊥ }
{
    core.replay(alloc, entries)?;
    let restart = end_trial(core, now);
    if !is_sound(alloc, core)? {
        return Err(RestoreFault::Unfit);
    }
    Ok(restart)
}

/// Appends the entry, where there is one.
#[tactic(auto, using(crate::proofs::Openings::leaves_with, crate::proofs::Calling::behind_none))]
fn append_one<D: Disk>(ledger: &mut Ledger<D>, entry: Option<Entry>) -> Result<(), LedgerFault>
    requires settled { ledger.old.doubt ≡ None }
    requires next { IfSome entry (λ e. MayFollow ledger.old.limits ledger.old.history e) }
    requires room { IfSome entry (λ e. record_octets e + 1 ≤ ledger.old.room) }
    requires images { LeavesNow (IsJournalOr ledger.old.limits ledger.old.history None)
        (D.told ledger.old.disk) }
    ensures ok { OnOk result ((ledger.new.history ≡ with_one ledger.old.history entry)
        × (ledger.new.doubt ≡ None)) }
    ensures limits { ledger.new.limits ≡ ledger.old.limits }
    ensures room { ledger.old.room ≤ ledger.new.room }
    ensures memory { ¬ (IsErrOf result LedgerFault.NoMemory) }
    ensures some { OnErr result (IsSome entry) }
    ensures any_moment { LeavesOnly (IsJournalOr ledger.old.limits ledger.old.history entry)
        (D.told ledger.old.disk) (D.told ledger.new.disk) }
    ensures images { LeavesNow
        (IsJournalOr ledger.new.limits ledger.new.history ledger.new.doubt)
        (D.told ledger.new.disk) }
    ensures fault { OnErr result (Rose (D.faults ledger.old.disk) (D.faults ledger.new.disk)) }
    ensures quiet { OnOk result (D.faults ledger.new.disk ≡ D.faults ledger.old.disk) }
    ensures passed { OnOk result (CallsPassed (append_calls entry) (D.fuse ledger.old.disk)
        (D.fuse ledger.new.disk)) }
    ensures failed { OnErr result
        (FailsBehind 0 4 (D.fuse ledger.old.disk) (D.fuse ledger.new.disk)) }
{
    match entry {
        None => Ok(()),
        Some(entry) => ledger.append(&entry),
    }
}

/// The chronicle of an opening.
#[tactic(auto, using(crate::proofs::Openings::entered_more))]
fn chronicle_of(entries: &[Entry]) -> Chronicle
    ensures { result ≡ entered entries.now }
{
    let mut chronicle = Chronicle::empty();
    for entry in entries {
        chronicle.enter(entry);
    }
    chronicle
}

/// Goes on from what a journal holds.
fn go_on<D: Disk, T: TreeLike + Drop>(
    alloc: Global,
    given: Snapshot<D>,
    mut ledger: Ledger<D>,
    mut core: Core<T>,
    entries: Entries,
    now: u64,
) -> BookOpening<D, T>
    requires ready { IsReady D.told D.faults given.value ledger entries }
    requires calls { WhereArmed (D.fuse given.value) (D.told given.value) (λ c.
        CallsPassed (opening_calls (length c.seen)) (D.fuse given.value) (D.fuse ledger.disk)) }
    requires fresh { core.entries ≡ [] }
    requires limits { core.limits ≡ ledger.limits }
    ensures { Opens D.told D.faults D.fuse given.value core.schema now result }
{
    let Ok(()) = ledger.reserve(BARE_RECORD_OCTETS) else {
        return BookOpening::NoMemory(ledger.give());
    };
    match restore(alloc, &mut core, entries, now) {
        Ok(restart) => match append_one(&mut ledger, restart) {
            Ok(()) => {
                let history = core.entries();
                let chronicle = chronicle_of(history);
                let first = Snapshot::of(&core);
                let book = Book {
                    core,
                    ledger,
                    marks: 0,
                    chronicle,
                    first,
                    given,
                };
                BookOpening::Ready(book)
            }
            Err(_) => BookOpening::DiskFault(ledger.give()),
        },
        Err(RestoreFault::Unfit) => BookOpening::Unfit(ledger.give()),
        Err(RestoreFault::NoMemory) => BookOpening::NoMemory(ledger.give()),
    }
}

impl<D: Disk, T: TreeLike + Drop> Book<D, T> {
    /// Opens a book on what a disk has over an empty tree, at this reading of the clock in
    /// nanoseconds since 1970. A trial that is open is ended first, by an entry of its own.
    pub fn reopen(alloc: Global, disk: D, tree: T, schema: Schema, now: u64) -> BookOpening<D, T>
        requires { T.rows tree ≡ [] }
        ensures { Opens D.told D.faults D.fuse disk schema now result }
    {
        let given = Snapshot::of(&disk);
        match Ledger::reopen(alloc, disk) {
            Opening::Ready(ledger, entries) => {
                let core = Core::make(alloc, schema, tree, ledger.limits());
                go_on(alloc, given, ledger, core, entries, now)
            }
            Opening::Damaged(place, disk) => BookOpening::Damaged(place, disk),
            Opening::DiskFault(disk) => BookOpening::DiskFault(disk),
            Opening::NoMemory(disk) => BookOpening::NoMemory(disk),
        }
    }
}
