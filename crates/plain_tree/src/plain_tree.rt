ghost use Rattle.std.specs.Prelude.{◌≡◌, []};

use crate::rows::{copies, covered, put_rows, remove_covered};
use crate::weights::add_rows;
use base_kinds::{Act, NoMemory, Op, Paths, Row, Rows, Seq, TreeLike};
use std::alloc::Global;
use std::marker::Model;

/// A tree as the list of its rows. A row is found by binary search; setting one moves the rows behind it, and a delete and
/// the choice of a part look at each row once.
#[derive(Drop)]
pub struct PlainTree {
    stored: Vec<Row>,
}

impl Model for PlainTree {
    ghost use Rattle.std.specs.Prelude.{List};
    ghost use Rattle.std.specs.Coded.{codes};
    ghost use Rattle.base_kinds.specs.contracts.value.Value as value;
    ghost use Rattle.base_kinds.specs.declared.operation.Row.{Row as TreeRow};
    ghost use Rattle.base_kinds.specs.Rising.{IsRising};

    ghost Value = { List TreeRow };

    ghost coded = { Prim.hlevel (codes, value.the_row.coded) };

    ghost view = { λ tree. tree.stored.items };

    ghost invariant = { λ tree. IsRising tree.stored.items };
}

impl PlainTree {
    /// A tree without rows. Takes no memory.
    pub fn empty(alloc: Global) -> PlainTree
        ensures { result ≡ [] }
    {
        PlainTree {
            stored: Vec::new(alloc),
        }
    }
}

impl TreeLike for PlainTree {
    ghost rows = { λ tree. tree };

    fn copy(&self, alloc: Global) -> Result<PlainTree, NoMemory> {
        Ok(PlainTree {
            stored: copies(alloc, &self.stored)?,
        })
    }

    fn apply(&mut self, alloc: Global, op: &Op) -> Result<(), NoMemory> {
        match op.act {
            Act::Delete => {
                remove_covered(&mut self.stored, &op.path);
                Ok(())
            }
            Act::Replace => {
                remove_covered(&mut self.stored, &op.path);
                put_rows(alloc, &mut self.stored, op.rows.items())
            }
            Act::Update => put_rows(alloc, &mut self.stored, op.rows.items()),
        }
    }

    fn part(&self, alloc: Global, patterns: &Paths) -> Result<Rows, NoMemory> {
        Ok(Seq::from_vec(covered(alloc, &self.stored, patterns)?))
    }

    fn count(&self) -> u64 {
        self.stored.len() as u64
    }

    fn weight(&self) -> u64 {
        add_rows(0, &self.stored)
    }
}
