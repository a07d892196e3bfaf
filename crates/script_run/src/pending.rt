ghost use Rattle.std.specs.Prelude.{◌≡◌, [], IfOk, OnOk};
ghost use Rattle.script_run.specs.Requests.{nothing_pending, change as json_change, with_operation, unresolved_set};

use base_kinds::{
    Act, Action, Bytes, Change, Changes, Given, NoMemory, Path, Paths, Text, TextOfFault,
    UnresolvedSet,
};
use std::alloc::Global;

/// The operations of the pending request, each kind in the order of its lines.
#[derive(Drop)]
pub struct Pending {
    pub deletes: Paths,
    pub replaces: Changes,
    pub updates: Changes,
}

impl Pending {
    pub fn nothing(alloc: Global) -> Pending
        ensures { result ≡ nothing_pending }
    {
        Pending {
            deletes: Paths::empty(alloc),
            replaces: Changes::empty(alloc),
            updates: Changes::empty(alloc),
        }
    }

    /// Adds an operation. A delete has no value.
    pub fn add(&mut self, act: Act, path: Path, value: Bytes) -> Result<(), NoMemory>
        ensures { OnOk result (self.new ≡ with_operation act path value self.old) }
    {
        match act {
            Act::Delete => self.deletes.push(path),
            Act::Replace => self.replaces.push(change(path, value)),
            Act::Update => self.updates.push(change(path, value)),
        }
    }

    /// A Set of these operations with this action.
    pub fn into_set(self, alloc: Global, action: Action) -> Result<UnresolvedSet, NoMemory>
        ensures { IfOk result (λ ask. ask ≡ unresolved_set action self) }
    {
        let target = empty_text(alloc)?;
        let Pending {
            deletes,
            replaces,
            updates,
        } = self;
        Ok(UnresolvedSet {
            prefix: Path::empty(alloc),
            target,
            deletes,
            replaces,
            updates,
            action,
            unsupported: false,
        })
    }
}

/// A replace or an update with the text of a JSON value.
fn change(path: Path, value: Bytes) -> Change
    ensures { result ≡ json_change path value }
{
    Change {
        path,
        given: Given::Json(value),
    }
}

pub fn empty_text(alloc: Global) -> Result<Text, NoMemory>
    ensures { IfOk result (λ text. text ≡ []) }
{
    match Text::of(alloc, b"") {
        Ok(text) => Ok(text),
        Err(TextOfFault::NotUtf8) => unreachable!(),
        Err(TextOfFault::NoMemory) => Err(NoMemory),
    }
}
