// An open trial, and what an entry does to the tree and to the trial.
ghost use Rattle.std.specs.Prelude.{◌≡◌, None};
ghost use Rattle.base_kinds.specs.History.{extended, tree_before, world_after};
ghost use Rattle.commit_core.specs.inner.StandsFor.{IsPreparedFor, open_of, preparation_of, world_in};

use base_kinds::{Kind, Text, TreeLike};

/// An open trial, with the tree from before it.
#[derive(Drop)]
pub struct Trial<T> {
    pub id: Text,
    pub before: T,
    pub deadline: u64,
}

/// What is prepared for the entry that was judged last: the tree behind it, and the id where it begins a trial.
#[derive(Drop)]
pub enum Prepared<T> {
    Nothing,
    Tree(T),
    Trial(T, Text),
}

/// Goes on by an entry of this kind, whose tree is prepared. The tree from before a trial is moved, never copied.
pub fn advance<T: TreeLike + Drop>(
    tree: &mut T,
    trial: &mut Option<Trial<T>>,
    prepared: Prepared<T>,
    kind: &Kind,
)
    requires { let world = world_in T.rows tree.old trial.old in
        IsPreparedFor (preparation_of T.rows prepared) world kind.now }
    ensures { world_in T.rows tree.new trial.new
        ≡ world_after kind.now (world_in T.rows tree.old trial.old) }
{
    match kind {
        Kind::Apply(_) => match prepared {
            Prepared::Tree(next) => {
                drop(std::mem::replace(tree, next));
                drop(trial.take());
            }
            other => drop(other),
        },
        Kind::Trial(_, _, deadline) => match prepared {
            Prepared::Trial(next, id) => {
                let before = std::mem::replace(tree, next);
                let begun = Trial {
                    id,
                    before,
                    deadline: *deadline,
                };
                drop(std::mem::replace(trial, Some(begun)));
            }
            other => drop(other),
        },
        Kind::Confirm => {
            drop(prepared);
            drop(trial.take());
        }
        Kind::Cancel | Kind::Expire | Kind::Restart => {
            drop(prepared);
            undo(tree, trial);
        }
        Kind::Extend(deadline) => {
            drop(prepared);
            extend(trial, *deadline);
        }
    }
}

/// Brings back the tree from before the trial that is open, if one is.
pub fn undo<T: TreeLike + Drop>(tree: &mut T, trial: &mut Option<Trial<T>>)
    ensures { world_in T.rows tree.new trial.new
        ≡ record { tree = tree_before (T.rows tree.old) (open_of T.rows trial.old); trial = None } }
{
    if let Some(undone) = trial.take() {
        *tree = undone.before;
    }
}

/// Gives the trial that is open this deadline, if one is.
pub fn extend<T: TreeLike>(trial: &mut Option<Trial<T>>, deadline: u64)
    ensures { open_of T.rows trial.new ≡ extended deadline (open_of T.rows trial.old) }
{
    if let Some(open) = trial {
        open.deadline = deadline;
    }
}
