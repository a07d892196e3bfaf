ghost use Rattle.std.specs.Prelude.{◌≡◌, IfOk, option_map};
ghost use Rattle.log_text.specs.Logs.{log_text};
ghost use Rattle.program.specs.Environment.{seen_disk};
ghost use Rattle.program.specs.LogRun.{LogRun, ListsDisk, damage_line};
ghost use Rattle.program.specs.Printing.{MakesText};

use crate::ending::Ending;
use crate::files::Files;
use crate::host::{Host, Kit};
use crate::journal_file::{DiskEnd, disk_fault};
use crate::printing::{out_of_memory, print};
use base_kinds::{Bytes, Entry, NoMemory};
use commit_journal::{Ledger, Opening};
use disk_model::Disk;
use environment::Sink;
use log_text::put_log;
use plain_texts::put_number_line;
use std::alloc::Global;

/// Prints the commit log in the journal that the file with this name holds.
pub fn log<K: Kit>(
    alloc: Global,
    name: &str,
    host: &mut Host<K>,
) -> DiskEnd<<K::Files as Files>::Disk>
    ensures run { LogRun name.now host.old host.new
        (option_map (λ disk. seen_disk K.Files.Disk.told K.Files.Disk.faults disk) result.disk)
        result.ending }
    ensures door { host.new.door ≡ host.old.door }
{
    match host.files.disk(name) {
        Ok(disk) => {
            let (disk, ending) = list(alloc, disk, &mut host.output);
            DiskEnd {
                disk: Some(disk),
                ending,
            }
        }
        Err(_) => DiskEnd {
            disk: None,
            ending: disk_fault(&mut host.output),
        },
    }
}

/// Opens the journal on the disk, and prints its history.
fn list<D: Disk + Drop, W: Sink>(alloc: Global, disk: D, output: &mut W) -> (D, Ending)
    ensures { ListsDisk (seen_disk D.told D.faults disk) (seen_disk D.told D.faults result.0)
        (W.seen output.old) (W.seen output.new) result.1 }
{
    match Ledger::reopen(alloc, disk) {
        Opening::Ready(ledger, entries) => {
            let ending = print_history(alloc, entries.items(), output);
            (ledger.give(), ending)
        }
        Opening::Damaged(place, disk) => (disk, print_damage(alloc, place, output)),
        Opening::DiskFault(disk) => (disk, disk_fault(output)),
        Opening::NoMemory(disk) => (disk, out_of_memory(output)),
    }
}

fn print_history<W: Sink>(alloc: Global, history: &[Entry], output: &mut W) -> Ending
    ensures { MakesText (log_text history.now) Ending.Done (W.seen output.old)
        (W.seen output.new) result }
{
    match history_text(alloc, history) {
        Ok(text) => print(text.items(), Ending::Done, output),
        Err(_) => out_of_memory(output),
    }
}

fn history_text(alloc: Global, history: &[Entry]) -> Result<Bytes, NoMemory>
    ensures { IfOk result (λ text. text ≡ log_text history.now) }
{
    let mut text = Bytes::empty(alloc);
    put_log(alloc, history, &mut text)?;
    Ok(text)
}

fn print_damage<W: Sink>(alloc: Global, place: u64, output: &mut W) -> Ending
    ensures { MakesText (damage_line place) Ending.JournalDamaged (W.seen output.old)
        (W.seen output.new) result }
{
    match damage_line(alloc, place) {
        Ok(line) => print(line.items(), Ending::JournalDamaged, output),
        Err(_) => out_of_memory(output),
    }
}

/// The line that says from which octet on a disk has no journal.
pub(crate) fn damage_line(alloc: Global, place: u64) -> Result<Bytes, NoMemory>
    ensures { IfOk result (λ line. line ≡ damage_line place) }
{
    let mut line = Bytes::empty(alloc);
    put_number_line(alloc, b"journal damaged at ", place, &mut line)?;
    Ok(line)
}
