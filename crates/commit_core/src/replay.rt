// What a whole history makes of an empty tree.
ghost use Rattle.std.specs.Prelude.{◌≡◌, Some, IfOk, OnOk};
ghost use Rattle.base_kinds.specs.History.{stamp_of, world_after, world_from};
ghost use Rattle.base_kinds.specs.Records.{counted};
ghost use Rattle.base_kinds.specs.Rules.{size_of};
ghost use Rattle.commit_core.specs.inner.StandsFor.{open_of, world_in};

use crate::changed_tree::apply_ops;
use crate::trial::{Trial, extend, undo};
use base_kinds::{Copied, EMPTY_LOG_OCTETS, Entry, GATE_OCTETS, Kind, NoMemory, Text, TreeLike};
use std::alloc::Global;

/// Goes on by these entries. After want of memory a part of them may have been gone through.
pub fn replay_all<T: TreeLike + Drop>(
    alloc: Global,
    tree: &mut T,
    trial: &mut Option<Trial<T>>,
    entries: &[Entry],
) -> Result<(), NoMemory>
    ensures { OnOk result (world_in T.rows tree.new trial.new
        ≡ world_from (world_in T.rows tree.old trial.old) entries.now) }
{
    for entry in entries {
        replay_kind(alloc, tree, trial, &entry.kind)?;
    }
    Ok(())
}

/// Goes on by an entry of this kind.
fn replay_kind<T: TreeLike + Drop>(
    alloc: Global,
    tree: &mut T,
    trial: &mut Option<Trial<T>>,
    kind: &Kind,
) -> Result<(), NoMemory>
    ensures { OnOk result (world_in T.rows tree.new trial.new
        ≡ world_after kind.now (world_in T.rows tree.old trial.old)) }
{
    match kind {
        Kind::Apply(ops) => {
            drop(trial.take());
            apply_ops(alloc, tree, ops.items())
        }
        Kind::Trial(id, ops, deadline) => {
            let begun = new_trial(alloc, tree, id, *deadline)?;
            drop(std::mem::replace(trial, Some(begun)));
            apply_ops(alloc, tree, ops.items())
        }
        Kind::Confirm => {
            drop(trial.take());
            Ok(())
        }
        Kind::Cancel | Kind::Expire | Kind::Restart => {
            undo(tree, trial);
            Ok(())
        }
        Kind::Extend(deadline) => {
            extend(trial, *deadline);
            Ok(())
        }
    }
}

/// A trial that begins over this tree.
fn new_trial<T: TreeLike + Drop>(
    alloc: Global,
    tree: &T,
    id: &Text,
    deadline: u64,
) -> Result<Trial<T>, NoMemory>
    ensures { IfOk result (λ trial. open_of T.rows (Some trial) ≡ Some (record {
      id = id.now;
      before = T.rows tree.now;
      deadline = deadline;
    })) }
{
    match tree.copy(alloc) {
        Ok(before) => match id.copy(alloc) {
            Ok(id) => Ok(Trial {
                id,
                before,
                deadline,
            }),
            Err(NoMemory) => {
                drop(before);
                Err(NoMemory)
            }
        },
        Err(NoMemory) => Err(NoMemory),
    }
}

/// The stamp of the last entry, or 0.
pub fn last_stamp(entries: &[Entry]) -> u64
    ensures { result ≡ stamp_of entries.now }
{
    let mut stamp = 0;
    for entry in entries {
        stamp = entry.stamp;
    }
    stamp
}

/// The octets of the history's journal, up to the greatest number of 64 bits.
pub fn journal_octets(entries: &[Entry]) -> u64
    ensures { result ≡ counted (size_of entries.now) }
{
    let mut octets = EMPTY_LOG_OCTETS;
    for entry in entries {
        octets = octets
            .saturating_add(GATE_OCTETS)
            .saturating_add(entry.record_octets());
    }
    octets
}
