ghost use Rattle.std.specs.Prelude.{IfOk};
ghost use Rattle.base_lists.specs.Results.{IsUnlessMemory};
ghost use Rattle.base_kinds.specs.Legal.{IsFit};
ghost use Rattle.set_request.specs.Resolution.{resolved};

use crate::actions::{ask_of, checked_duration};
use crate::operations::ops_of_request;
use base_kinds::{Ask, Refusal, UnresolvedSet};
use schema_core::Schema;
use std::alloc::Global;

/// What the request asks of a target with this schema, with the operations in the order deletes, replaces, updates and
/// the rows that each sets (gNMI 3.4); or why it is refused.
///
/// The first cause that holds decides: `Unsupported`; `MixedAction`; `BadId`; `BadDuration`; and then for each operation
/// `BadPath` and `NotInSchema` of its path before those of its value, `NotInSchema` and `BadValue`. A duration that isn't
/// given is 600 s.
#[tactic(auto, using(crate::proofs::FitAsks::fit_ask, crate::proofs::FitAsks::fit_ops))]
pub fn resolve(alloc: Global, schema: &Schema, ask: &UnresolvedSet) -> Result<Ask, Refusal>
    ensures answer { IsUnlessMemory Refusal.NoMemory result (resolved schema.now ask.now) }
    ensures fit { IfOk result (λ it. IsFit it) }
{
    let nanos = checked_duration(ask)?;
    let ops = ops_of_request(alloc, schema, ask)?;
    let resolved = ask_of(alloc, &ask.action, ops, nanos)?;
    Ok(resolved)
}
