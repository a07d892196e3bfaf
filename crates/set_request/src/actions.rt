// What a request asks for beside its operations.
ghost use Rattle.std.specs.Prelude.{◌≡◌, IfOk};
ghost use Rattle.set_request.specs.Actions.{has_operations, is_mixed, has_fit_id, nanoseconds, duration, action_duration, ask_of};
ghost use Rattle.set_request.specs.Resolution.{checked_duration};

use crate::numbers::natural;
use base_kinds::{
    Action, Ask, Copied, DEFAULT_DURATION, LONGEST_DURATION, NoMemory, Ops, Refusal, SECOND,
    SHORTEST_DURATION, Span, UnresolvedSet, is_fit_id,
};
use std::alloc::Global;

/// The duration of the request's action in nanoseconds, once the action is one that may be asked; 0 where it has none.
pub(crate) fn checked_duration(ask: &UnresolvedSet) -> Result<u64, Refusal>
    ensures { result ≡ checked_duration ask.now }
{
    if ask.unsupported {
        return Err(Refusal::Unsupported);
    }
    if is_mixed(&ask.action, has_operations(ask)) {
        return Err(Refusal::MixedAction);
    }
    if !has_fit_id(&ask.action) {
        return Err(Refusal::BadId);
    }
    match action_duration(&ask.action) {
        Some(nanos) => Ok(nanos),
        None => Err(Refusal::BadDuration),
    }
}

/// The ask of an action with these operations and this duration.
pub(crate) fn ask_of(alloc: Global, action: &Action, ops: Ops, nanos: u64) -> Result<Ask, NoMemory>
    ensures { IfOk result (λ ask. ask ≡ ask_of action.now ops nanos) }
{
    match action {
        Action::Trial(id, _) => match id.copy(alloc) {
            Ok(id) => Ok(Ask::Trial(id, ops, nanos)),
            Err(NoMemory) => {
                drop(ops);
                Err(NoMemory)
            }
        },
        Action::Confirm(id) => {
            drop(ops);
            Ok(Ask::Confirm(id.copy(alloc)?))
        }
        Action::Cancel(id) => {
            drop(ops);
            Ok(Ask::Cancel(id.copy(alloc)?))
        }
        Action::Extend(id, _) => {
            drop(ops);
            Ok(Ask::Extend(id.copy(alloc)?, nanos))
        }
        Action::Plain | Action::Mixed => Ok(Ask::Apply(ops)),
    }
}

fn has_operations(ask: &UnresolvedSet) -> bool
    ensures { result ≡ has_operations ask.now }
{
    ask.deletes.len() != 0 || ask.replaces.len() != 0 || ask.updates.len() != 0
}

/// Whether there is more than one action, a commit without one, or operations beside an action that has none.
fn is_mixed(action: &Action, operations: bool) -> bool
    ensures { result ≡ is_mixed action.now operations }
{
    match action {
        Action::Mixed => true,
        Action::Confirm(_) | Action::Cancel(_) | Action::Extend(_, _) => operations,
        Action::Plain | Action::Trial(_, _) => false,
    }
}

fn has_fit_id(action: &Action) -> bool
    ensures { result ≡ has_fit_id action.now }
{
    match action {
        Action::Trial(id, _) => is_fit_id(id),
        Action::Confirm(id) => is_fit_id(id),
        Action::Cancel(id) => is_fit_id(id),
        Action::Extend(id, _) => is_fit_id(id),
        Action::Plain | Action::Mixed => true,
    }
}

/// The duration of the action in nanoseconds; 0 where it has none.
fn action_duration(action: &Action) -> Option<u64>
    ensures { result ≡ action_duration action.now }
{
    match action {
        Action::Trial(_, span) => duration(span),
        Action::Extend(_, span) => duration(span),
        Action::Plain | Action::Confirm(_) | Action::Cancel(_) | Action::Mixed => Some(0),
    }
}

fn duration(span: &Span) -> Option<u64>
    ensures { result ≡ duration span.now }
{
    match span {
        Span::Absent => Some(DEFAULT_DURATION),
        Span::Of(seconds, nanos) => nanoseconds(*seconds, *nanos),
    }
}

/// The nanoseconds of 1 s to 86,400 s in all.
fn nanoseconds(seconds: i64, nanos: i64) -> Option<u64>
    ensures { result ≡ nanoseconds seconds nanos }
{
    let seconds = natural(seconds)?;
    let nanos = natural(nanos)?;
    if nanos >= SECOND {
        return None;
    }
    let all = seconds.checked_mul(SECOND)?.checked_add(nanos)?;
    if all < SHORTEST_DURATION || all > LONGEST_DURATION {
        return None;
    }
    Some(all)
}
