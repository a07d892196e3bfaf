ghost use Rattle.std.specs.Prelude.{◌≡◌};
ghost use Rattle.base_kinds.specs.Tree.{is_act};

use crate::path::Path;
use crate::value::Value;
use base_lists::{Copied, NoMemory, Ranked, Same, Seq};
use std::alloc::Global;

/// A leaf or a leaf-list of a tree: its path, with all keys, and its value.
#[derive(PartialEq, Drop)]
pub struct Row {
    pub path: Path,
    pub value: Value,
}

pub type Rows = Seq<Row>;

/// What an operation of a Set does (gNMI 3.4.1).
#[derive(Clone, Copy, Debug, PartialEq, Eq)]
pub enum Act {
    Delete,
    Replace,
    Update,
}

/// One operation of a Set: the path that it names, and the rows that it sets, rising by path. A delete has none.
#[derive(PartialEq, Drop)]
pub struct Op {
    pub act: Act,
    pub path: Path,
    pub rows: Rows,
}

pub type Ops = Seq<Op>;

impl Copied for Row {
    fn copy(&self, alloc: Global) -> Result<Row, NoMemory> {
        let path = self.path.copy(alloc)?;
        let value = self.value.copy(alloc)?;
        Ok(Row { path, value })
    }
}

impl Same for Row {
    fn same(&self, other: &Row) -> bool {
        self.path.same(&other.path) && self.value.same(&other.value)
    }
}

impl Copied for Op {
    fn copy(&self, alloc: Global) -> Result<Op, NoMemory> {
        let act = self.act;
        let path = self.path.copy(alloc)?;
        let rows = self.rows.copy(alloc)?;
        Ok(Op { act, path, rows })
    }
}

/// A row has the rank of its path.
impl Ranked for Row {
    ghost use Rattle.base_kinds.specs.Rising.{row_cmp};

    ghost rank = { row_cmp };

    fn is_below(&self, other: &Row) -> bool {
        self.path.cmp(&other.path).is_lt()
    }
}

impl Act {
    /// Whether it is this act.
    pub fn is_act(self, act: Act) -> bool
        ensures { result ≡ is_act act self }
    {
        match act {
            Act::Delete => matches!(self, Act::Delete),
            Act::Replace => matches!(self, Act::Replace),
            Act::Update => matches!(self, Act::Update),
        }
    }
}
