//! What a SetRequest asks for.
ghost use Rattle.std.specs.Prelude.{◌≡◌, map, IfOk};
ghost use Rattle.std.specs.List.{list_any};
ghost use Rattle.gnmi_data_msg.specs.Parts.{IsReadAs};
ghost use Rattle.gnmi_data_msg.specs.Profile.{is_foreign};
ghost use Rattle.gnmi_set_msg.specs.Asks.{is_unsupported, action_of, change_of, ask_of, set_of};
ghost use Rattle.gnmi_set_msg.specs.inner.Actions.{with_commit};

use crate::request::{SetRequest, Update, Updates, read_request};
use base_kinds::{Action, Change, Changes, Seq, UnresolvedSet};
use base_lists::NoMemory;
use gnmi_data_msg::{MsgFault, are_foreign, is_foreign, paths_of};
use gnmi_ext_msg::{Extension, are_other};
use std::alloc::Global;

fn have_foreign(updates: &[Update]) -> bool
    ensures { result ≡ list_any (λ update. is_foreign update.path) updates.now }
{
    updates.iter().any(|update| is_foreign(&update.path))
}

/// Whether this target doesn't support something of the request.
fn is_unsupported(request: &SetRequest) -> bool
    ensures { result ≡ is_unsupported request.now }
{
    request.union_replace
        || are_other(request.extensions.items())
        || is_foreign(&request.prefix)
        || are_foreign(request.deletes.items())
        || have_foreign(request.replaces.items())
        || have_foreign(request.updates.items())
}

/// The action of the commits so far and of one more.
fn with_commit(before: Option<Action>, action: Action) -> Action
    ensures { result ≡ with_commit before action }
{
    match before {
        None => action,
        Some(_) => Action::Mixed,
    }
}

/// What the extensions ask for.
#[tactic(auto, using(crate::proofs::Actions::asked_whole))]
fn action_of(extensions: Seq<Extension>) -> Action
    ensures { result ≡ action_of extensions }
{
    let mut asked = None;
    for extension in extensions.into_vec() {
        if let Extension::Commit(action) = extension {
            asked = Some(with_commit(asked, action));
        }
    }
    asked.unwrap_or(Action::Plain)
}

/// The updates with the elements of their paths.
fn changes_of(alloc: Global, updates: Updates) -> Result<Changes, NoMemory>
    ensures { IfOk result (λ list. list ≡ map change_of updates) }
{
    let mut list = Seq::empty(alloc);
    for update in updates.into_vec() {
        let Update { path, given } = update;
        list.push(Change {
            path: path.path,
            given,
        })?;
    }
    Ok(list)
}

/// What the request asks for.
fn ask_of(alloc: Global, request: SetRequest) -> Result<UnresolvedSet, NoMemory>
    ensures { IfOk result (λ ask. ask ≡ ask_of request) }
{
    let unsupported = is_unsupported(&request);
    let SetRequest {
        prefix,
        has_prefix: _,
        deletes,
        replaces,
        updates,
        extensions,
        union_replace: _,
    } = request;
    let deletes = paths_of(alloc, deletes)?;
    let replaces = changes_of(alloc, replaces)?;
    let updates = changes_of(alloc, updates)?;
    Ok(UnresolvedSet {
        prefix: prefix.path,
        target: prefix.target,
        deletes,
        replaces,
        updates,
        action: action_of(extensions),
        unsupported,
    })
}

/// What the octets of a SetRequest ask for (gNMI 3.4.1): its prefix and the prefix's target, its deletes, replaces and updates, each
/// in its order, behind no prefix; of its extensions the commit. Without a commit it is Plain; two commits, or one without an
/// action, are Mixed. Not supported are `union_replace`, which every field with a number above 5 is taken for, another extension or
/// one in which none is set, an origin other than the empty one and `openconfig`, and texts in the deprecated field `element`, in
/// the prefix too. A target of another path than the prefix isn't told (gNMI 2.2.2.1). An Update without `val` has a missing value;
/// its `value`, which is deprecated, and `duplicates` are skipped. BadMessage where the octets aren't fields, or those of a path, a
/// value, an Update or an Extension are a bad message, or a string in them isn't UTF-8; of an Extension the commit alone is looked
/// into. Occurrences of a single message are joined: that each of them is a message by itself isn't asked.
pub fn read_set(alloc: Global, octets: &[u8]) -> Result<UnresolvedSet, MsgFault>
    ensures { IsReadAs result (set_of octets.now) }
{
    let request = read_request(alloc, octets)?;
    let ask = ask_of(alloc, request)?;
    Ok(ask)
}
