// The state that a history stands for.
ghost use Rattle.std.specs.Prelude.{◌≡◌, IfOk, Some};
ghost use Rattle.base_kinds.specs.History.{world_after, world_of, world_from, tree_before, extended};
ghost use Rattle.base_kinds.specs.Tree.{effect};
ghost use Rattle.reference_model.specs.PlainWorlds.{trial_in, world_in};

use crate::trees::effect;
use base_kinds::{Copied, Entry, Kind, NoMemory, Ops, Rows, Seq, Text};
use std::alloc::Global;

/// A trial that is neither confirmed nor undone.
#[derive(Drop)]
pub struct PlainTrial {
    pub id: Text,
    pub before: Rows,
    pub deadline: u64,
}

/// The tree, and the open trial where there is one.
#[derive(Drop)]
pub struct PlainWorld {
    pub tree: Rows,
    pub trial: Option<PlainTrial>,
}

/// The state that the history stands for.
pub fn world_of(alloc: Global, entries: &[Entry]) -> Result<PlainWorld, NoMemory>
    ensures { IfOk result (λ world. world_in world ≡ world_of entries.now) }
{
    let start = PlainWorld {
        tree: Seq::empty(alloc),
        trial: None,
    };
    world_from(alloc, start, entries)
}

fn world_from(alloc: Global, world: PlainWorld, entries: &[Entry]) -> Result<PlainWorld, NoMemory>
    ensures { IfOk result (λ last. world_in last ≡ world_from (world_in world) entries.now) }
{
    let Some((entry, others)) = entries.split_first() else {
        return Ok(world);
    };
    world_from(alloc, world_after(alloc, &entry.kind, world)?, others)
}

/// The state after an entry of this kind.
pub fn world_after(alloc: Global, kind: &Kind, world: PlainWorld) -> Result<PlainWorld, NoMemory>
    ensures { IfOk result (λ next. world_in next ≡ world_after kind.now (world_in world)) }
{
    let PlainWorld { tree, trial } = world;
    match kind {
        Kind::Apply(ops) => {
            drop(trial);
            let next = effect(alloc, ops, &tree);
            drop(tree);
            match next {
                Ok(tree) => Ok(PlainWorld { tree, trial: None }),
                Err(NoMemory) => Err(NoMemory),
            }
        }
        Kind::Trial(id, ops, deadline) => {
            drop(trial);
            world_with_trial(alloc, id, ops, *deadline, tree)
        }
        Kind::Confirm => {
            drop(trial);
            Ok(PlainWorld { tree, trial: None })
        }
        Kind::Cancel | Kind::Expire | Kind::Restart => Ok(PlainWorld {
            tree: tree_before(tree, trial),
            trial: None,
        }),
        Kind::Extend(deadline) => Ok(PlainWorld {
            tree,
            trial: extended(trial, *deadline),
        }),
    }
}

/// The tree and the trial that these operations begin, with this tree before it.
fn world_with_trial(
    alloc: Global,
    id: &Text,
    ops: &Ops,
    deadline: u64,
    before: Rows,
) -> Result<PlainWorld, NoMemory>
    ensures { IfOk result (λ next. world_in next
        ≡ record {
          tree = effect ops.now before;
          trial = Some (record {
            id = id.now;
            before = before;
            deadline = deadline;
          });
        }) }
{
    match effect(alloc, ops, &before) {
        Ok(tree) => match id.copy(alloc) {
            Ok(id) => {
                let trial = PlainTrial {
                    id,
                    before,
                    deadline,
                };
                Ok(PlainWorld {
                    tree,
                    trial: Some(trial),
                })
            }
            Err(NoMemory) => {
                drop(tree);
                drop(before);
                Err(NoMemory)
            }
        },
        Err(NoMemory) => {
            drop(before);
            Err(NoMemory)
        }
    }
}

fn tree_before(tree: Rows, trial: Option<PlainTrial>) -> Rows
    ensures { result ≡ tree_before tree (trial_in trial) }
{
    match trial {
        None => tree,
        Some(trial) => trial.before,
    }
}

fn extended(trial: Option<PlainTrial>, deadline: u64) -> Option<PlainTrial>
    ensures { trial_in result ≡ extended deadline (trial_in trial) }
{
    match trial {
        None => None,
        Some(trial) => Some(PlainTrial {
            id: trial.id,
            before: trial.before,
            deadline,
        }),
    }
}
