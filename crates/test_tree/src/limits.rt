//! Requests, and what the core answers to them behind the event of the clock.
ghost use Rattle.std.specs.Prelude.{IfOk};
ghost use Rattle.base_kinds.specs.Legal.{IsFit};

use crate::builders::{octets_of, path_of, text_of};
use base_kinds::{
    Action, Ask, Change, Changes, Entry, Given, Path, Paths, Refusal, Span, UnresolvedSet,
};
use commit_core::Core;
use plain_tree::PlainTree;
use schema_core::Schema;
use set_request::resolve;
use std::alloc::Global;
use std::process::Abort;

/// What a request asks for. Durations are in seconds.
#[derive(Clone, Copy)]
pub enum Asked {
    Set,
    Trial(&'static str, i64),
    Confirm(&'static str),
    Cancel(&'static str),
    Extend(&'static str, i64),
}

/// Operations: the paths that are deleted, and those that are updated with the text of a JSON value.
#[derive(Clone, Copy)]
pub struct Changed {
    pub deletes: &'static [&'static str],
    pub updates: &'static [(&'static str, &'static str)],
}

pub const NOTHING: Changed = Changed {
    deletes: &[],
    updates: &[],
};

fn action_of(rt: &impl Abort, alloc: Global, asked: Asked) -> Action {
    match asked {
        Asked::Set => Action::Plain,
        Asked::Trial(id, seconds) => { Action::Trial(text_of(rt, alloc, id), Span::Of(seconds, 0)) }
        Asked::Confirm(id) => Action::Confirm(text_of(rt, alloc, id)),
        Asked::Cancel(id) => Action::Cancel(text_of(rt, alloc, id)),
        Asked::Extend(id, seconds) => {
            Action::Extend(text_of(rt, alloc, id), Span::Of(seconds, 0))
        }
    }
}

/// A change to the text of a JSON value.
fn change_of(rt: &impl Abort, alloc: Global, path: &str, json: &str) -> Change {
    Change {
        path: path_of(rt, alloc, path),
        given: Given::Json(octets_of(rt, alloc, json.as_bytes())),
    }
}

/// What a request with these operations asks of a target with this schema, or why it is refused by itself.
pub fn resolved(
    rt: &impl Abort,
    alloc: Global,
    schema: &Schema,
    deletes: Paths,
    updates: Changes,
    action: Action,
) -> Result<Ask, Refusal>
    ensures { IfOk result (λ ask. IsFit ask) }
{
    let request = UnresolvedSet {
        prefix: Path::empty(alloc),
        target: text_of(rt, alloc, ""),
        deletes,
        replaces: Changes::empty(alloc),
        updates,
        action,
        unsupported: false,
    };
    let resolved = resolve(alloc, schema, &request);
    drop(request);
    resolved
}

fn paths_of(rt: &impl Abort, alloc: Global, texts: &[&str]) -> Paths {
    let mut paths = Paths::empty(alloc);
    for text in texts {
        paths.push(path_of(rt, alloc, text)).expect(rt, "memory");
    }
    paths
}

/// Changes to texts of JSON values, by their paths.
pub fn changes_of(rt: &impl Abort, alloc: Global, texts: &[(&str, &str)]) -> Changes {
    let mut changes = Changes::empty(alloc);
    for (path, json) in texts {
        changes
            .push(change_of(rt, alloc, path, json))
            .expect(rt, "memory");
    }
    changes
}

/// What the request asks of a target with this schema, or why it is refused by itself.
pub fn ask_of(
    rt: &impl Abort,
    alloc: Global,
    schema: &Schema,
    changed: Changed,
    asked: Asked,
) -> Result<Ask, Refusal>
    ensures { IfOk result (λ ask. IsFit ask) }
{
    let deletes = paths_of(rt, alloc, changed.deletes);
    let updates = changes_of(rt, alloc, changed.updates);
    let action = action_of(rt, alloc, asked);
    resolved(rt, alloc, schema, deletes, updates, action)
}

/// Lets a trial expire that is due.
pub fn pass(core: &mut Core<PlainTree>, now: u64) {
    if core.due(now) {
        let entry = core.expiry(now);
        core.take(entry);
    }
}

/// What the ask becomes at this reading, behind the event of the clock. The entry is taken, and its stamp is the answer.
pub fn step(
    rt: &impl Abort,
    alloc: Global,
    core: &mut Core<PlainTree>,
    now: u64,
    author: u32,
    ask: Ask,
) -> Result<u64, Refusal>
    requires { IsFit ask }
{
    pass(core, now);
    assert!(rt;
        author > 0 && !core.due(now),
        "nothing is due behind the event of the clock"
    );
    match core.judge(alloc, now, author, ask) {
        Ok(entry) => {
            let stamp = entry.stamp;
            core.take(entry);
            Ok(stamp)
        }
        Err(refusal) => Err(refusal),
    }
}

/// The number, the author and the stamp of an entry.
pub fn marks_of(entry: &Entry) -> (u64, u32, u64) {
    (entry.number, entry.author, entry.stamp)
}
