ghost use Rattle.std.specs.Prelude.{◌≡◌, List, IfOk, OnOk, length};
ghost use Rattle.base_kinds.specs.declared.operation.Row.{Row as TreeRow};
ghost use Rattle.base_kinds.specs.Parts.{part as part_of};
ghost use Rattle.base_kinds.specs.Records.{counted};
ghost use Rattle.base_kinds.specs.Tree.{op_effect};
ghost use Rattle.base_kinds.specs.Weights.{tree_weight};

use crate::operation::{Op, Rows};
use crate::path::Paths;
use base_lists::NoMemory;
use std::alloc::Global;

/// A configuration tree, however it is kept. Contracts see the list of its rows.
pub trait TreeLike {
    ghost rows: { Self → List TreeRow };

    fn copy(&self, alloc: Global) -> Result<Self, NoMemory>
        ensures { IfOk result (λ tree. rows tree ≡ rows self.now) };

    /// Applies one operation. After want of memory a part of the change may stand: let the tree go.
    fn apply(&mut self, alloc: Global, op: &Op) -> Result<(), NoMemory>
        ensures { OnOk result (rows self.new ≡ op_effect op.now (rows self.old)) };

    /// The rows that some pattern covers, each once, in the tree's order.
    fn part(&self, alloc: Global, patterns: &Paths) -> Result<Rows, NoMemory>
        ensures { IfOk result (λ found. found ≡ part_of patterns.now (rows self.now)) };

    /// How many rows it has. Counts stop at 18446744073709551615.
    fn count(&self) -> u64
        ensures { result ≡ counted (length (rows self.now)) };

    /// What its rows weigh, up to the same number: a bound on what they take in JSON, in octets.
    fn weight(&self) -> u64
        ensures { result ≡ counted (tree_weight (rows self.now)) };
}
