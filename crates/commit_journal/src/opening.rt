ghost use Rattle.std.specs.Prelude.{◌≡◌, ◌∷◌, ◌++◌, [], length};
ghost use Rattle.disk_model.specs.Calls.{WhereArmed};
ghost use Rattle.disk_model.specs.Content.{Tells, SeesImage};
ghost use Rattle.disk_model.specs.Images.{IsImage};
ghost use Rattle.disk_model.specs.Moments.{LeavesOnly};
ghost use Rattle.commit_journal.specs.Openings.{Opens, OpensBy, FindsAll, disk_of, opening_calls};
ghost use Rattle.commit_journal.specs.inner.Openings.{OpensOn, HasSynced};

use crate::ledger::Ledger;
use base_kinds::{Entries, Entry};
use base_lists::Remembered;
use disk_model::{Disk, read_whole};
use environment::ReadFault;
use journal_format::{Journal, JournalFault, read_journal};
use std::alloc::Global;

/// What the opening of a disk gave.
#[derive(Drop)]
pub enum Opening<D: Disk> {
    /// A ledger, and the history that its journal has.
    Ready(Ledger<D>, Entries),
    /// The octets are no journal from this place on.
    Damaged(u64, D),
    /// The sync, the length or a read failed.
    DiskFault(D),
    NoMemory(D),
}

/// These entries as a list that is not there at run time.
fn remembered(entries: &[Entry]) -> Remembered<Entry>
    ensures { result ≡ entries.now }
{
    let mut history = Remembered::nothing();
    for entry in entries {
        history.remember(entry);
    }
    history
}

/// Opens a disk that was synced and read.
fn open<D: Disk>(alloc: Global, disk: D, octets: &[u8]) -> Opening<D>
    requires { Tells (D.told disk) (HasSynced octets.now) }
    ensures opens { OpensOn D.told disk octets.now result }
    ensures finds { FindsAll octets.now result }
{
    match read_journal(alloc, octets) {
        Ok(
            Journal {
                limits,
                entries,
                gate,
            },
        ) => {
            let ledger = Ledger {
                disk,
                limits,
                gate,
                history: remembered(entries.items()),
                attempt: None,
                buffer: Vec::new(alloc),
            };
            Opening::Ready(ledger, entries)
        }
        Err(JournalFault::Damaged(place)) => Opening::Damaged(place, disk),
        Err(JournalFault::NoMemory) => Opening::NoMemory(disk),
    }
}

/// Syncs a disk, reads it, and opens it.
fn sync_and_open<D: Disk>(alloc: Global, mut disk: D) -> Opening<D>
    ensures opens { Opens D.told D.faults disk result }
    ensures finds { Tells (D.told disk) (λ c. FindsAll c.seen result) }
    ensures image { SeesImage (D.told disk) }
    ensures calls { WhereArmed (D.fuse disk) (D.told disk) (λ c.
        OpensBy (opening_calls (length c.seen)) D.fuse disk result) }
{
    let Ok(()) = disk.sync() else {
        return Opening::DiskFault(disk);
    };
    match read_whole(alloc, &mut disk) {
        Ok(octets) => {
            let opening = open(alloc, disk, octets.items());
            drop(octets);
            opening
        }
        Err(ReadFault::Failed) => Opening::DiskFault(disk),
        Err(ReadFault::NoMemory) => Opening::NoMemory(disk),
    }
}

impl<D: Disk> Ledger<D> {
    /// Syncs a disk and opens the journal on it, as it is then. After a stop this is what the stop
    /// left.
    pub fn reopen(alloc: Global, disk: D) -> Opening<D>
        // by what it gives
        ensures opens { Opens D.told D.faults disk result }
        ensures finds { Tells (D.told disk) (λ c. FindsAll c.seen result) }
        // at a stop, at any moment of the call: nothing that a stop might not have left before it
        ensures any_moment { Tells (D.told disk) (λ c. LeavesOnly (λ octets. IsImage c.mask octets)
            (D.told disk) (D.told (disk_of result))) }
        // how many calls of the disk it makes
        ensures calls { WhereArmed (D.fuse disk) (D.told disk) (λ c.
            OpensBy (opening_calls (length c.seen)) D.fuse disk result) }
    {
        sync_and_open(alloc, disk)
    }
}
