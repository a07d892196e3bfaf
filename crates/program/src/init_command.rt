ghost use Rattle.std.specs.Prelude.{◌≡◌, option_map};
ghost use Rattle.base_kinds.specs.Limits.{AreInRange};
ghost use Rattle.program.specs.Environment.{seen_disk};
ghost use Rattle.program.specs.InitRun.{InitRun, PreparesDisk};

use crate::ending::Ending;
use crate::files::Files;
use crate::host::{Host, Kit};
use crate::journal_file::{DiskEnd, disk_fault};
use crate::printing::{out_of_memory, print};
use base_kinds::Limits;
use commit_journal::{CreateFault, Ledger};
use disk_model::Disk;
use environment::Sink;
use std::alloc::Global;

/// Writes a journal without entries, with these limits, into the file with this name.
pub fn init<K: Kit>(
    alloc: Global,
    name: &str,
    limits: Limits,
    host: &mut Host<K>,
) -> DiskEnd<<K::Files as Files>::Disk>
    requires { AreInRange limits }
    ensures run { InitRun name.now limits host.old host.new
        (option_map (λ disk. seen_disk K.Files.Disk.told K.Files.Disk.faults disk) result.disk)
        result.ending }
    ensures door { host.new.door ≡ host.old.door }
{
    match host.files.new_disk(name) {
        Ok(mut disk) => {
            let ending = prepare(alloc, limits, &mut disk, &mut host.output);
            DiskEnd {
                disk: Some(disk),
                ending,
            }
        }
        Err(_) => DiskEnd {
            disk: None,
            ending: disk_fault(&mut host.output),
        },
    }
}

/// Writes the journal, and says what came of it.
fn prepare<D: Disk, W: Sink>(alloc: Global, limits: Limits, disk: &mut D, output: &mut W) -> Ending
    requires { AreInRange limits }
    ensures { PreparesDisk limits (seen_disk D.told D.faults disk.old)
        (seen_disk D.told D.faults disk.new) (W.seen output.old) (W.seen output.new) result }
{
    match Ledger::create(alloc, disk, &limits) {
        Ok(()) => print(b"journal ready\n", Ending::Done, output),
        Err(CreateFault::NotEmpty) => {
            print(b"journal not empty\n", Ending::JournalNotEmpty, output)
        }
        Err(CreateFault::DiskFault) => disk_fault(output),
        Err(CreateFault::NoMemory) => out_of_memory(output),
    }
}
