//! The request that the words ask for, and its message.
ghost use Rattle.std.specs.Prelude.{◌≡◌, List, IfOk, IfSome, IfNone, IsErrOf};
ghost use Rattle.base_kinds.specs.declared.request.Change.{Change as ChangeValue};
ghost use Rattle.base_kinds.specs.declared.request.Span.{Span as DurationValue};
ghost use Rattle.ask_command.specs.declared.request.Request.{Request as RequestValue};
ghost use Rattle.ask_command.specs.Requests.{IsRequest, IsLasting, IsChangeTo, plain_set, message_of, method_of};
ghost use Rattle.ask_command.specs.inner.Parsed.{ask_parsed};

use crate::words::Ask;
use base_kinds::{Action, Change, Changes, Given, Path, Paths, Span, UnresolvedSet};
use base_lists::{Bytes, NoMemory, Seq, Text};
use gnmi_client_msg::{write_get, write_set};
use grpc_core::Method;
use path_core::{PathFault, read_path_text};
use plain_texts::{natural_of, text_of};
use std::alloc::Global;

/// What is asked of a target.
#[derive(Drop)]
pub enum Request {
    Capabilities,
    Get(Path),
    Set(UnresolvedSet),
}

/// Why there is no request.
#[derive(Clone, Copy, Debug, PartialEq, Eq)]
pub(crate) enum RequestFault {
    /// A path, or a number of seconds, isn't written as one.
    BadWords,
    NoMemory,
}

impl From<NoMemory> for RequestFault {
    ghost use Rattle.ask_command.specs.declared.request.RequestFault.TheVariants.{NoMemory as OutOfMemory};

    ghost from_gives = { λ _ fault. fault ≡ OutOfMemory };

    fn from(_fault: NoMemory) -> RequestFault {
        RequestFault::NoMemory
    }
}

impl From<PathFault> for RequestFault {
    ghost use Rattle.ask_command.specs.inner.Parsed.{of_path_fault};

    ghost from_gives = { λ why fault. fault ≡ of_path_fault why };

    fn from(why: PathFault) -> RequestFault {
        match why {
            PathFault::BadPath => RequestFault::BadWords,
            PathFault::NoMemory => RequestFault::NoMemory,
        }
    }
}

impl Request {
    /// The method that is called.
    pub(crate) fn method(&self) -> Method
        ensures { result ≡ method_of self.now }
    {
        match self {
            Request::Capabilities => Method::Capabilities,
            Request::Get(_) => Method::Get,
            Request::Set(_) => Method::Set,
        }
    }

    /// The message that it is called with.
    pub(crate) fn message(&self, alloc: Global) -> Result<Bytes, NoMemory>
        ensures { IfOk result (λ message. message ≡ message_of self.now) }
    {
        let mut message = Bytes::empty(alloc);
        match self {
            Request::Capabilities => {}
            Request::Get(path) => write_get(alloc, path, &mut message)?,
            Request::Set(set) => write_set(alloc, set, &mut message)?,
        }
        Ok(message)
    }
}

/// The longest duration, in seconds.
const MOST_SECONDS: u64 = 9_223_372_036_854_775_807;

/// So many seconds.
fn lasting(word: &str) -> Option<Span>
    ensures some { IfSome result (λ span. IsLasting word.now span) }
    ensures none { IfNone result ((span : DurationValue) → IsLasting word.now span → ⊥) }
{
    let seconds = natural_of(word.as_bytes())?;
    if seconds > MOST_SECONDS {
        return None;
    }
    Some(Span::Of(seconds as i64, 0))
}

/// An update of the path by the JSON text.
fn change_to(alloc: Global, path: &str, json: &str) -> Result<Changes, RequestFault>
    ensures ok { IfOk result (λ changes. IsChangeTo path.now json.now changes) }
    ensures bad { IsErrOf result RequestFault.BadWords → (changes : List ChangeValue) →
        IsChangeTo path.now json.now changes → ⊥ }
{
    let path = read_path_text(alloc, path.as_bytes())?;
    let json = Bytes::of(alloc, json.as_bytes())?;
    let mut changes = Seq::empty(alloc);
    changes.push(Change {
        path,
        given: Given::Json(json),
    })?;
    Ok(changes)
}

/// A Set of these deletes and updates, with this action.
fn plain_set(
    alloc: Global,
    deletes: Paths,
    updates: Changes,
    action: Action,
) -> Result<Request, RequestFault>
    ensures ok { IfOk result (λ request. request ≡ Request.Set (plain_set deletes updates action)) }
    ensures bad { IsErrOf result RequestFault.BadWords → ⊥ }
{
    let target = text_of(alloc, b"")?;
    Ok(Request::Set(UnresolvedSet {
        prefix: Seq::empty(alloc),
        target,
        deletes,
        replaces: Seq::empty(alloc),
        updates,
        action,
        unsupported: false,
    }))
}

/// The request that these words ask for.
pub(crate) fn request_of(alloc: Global, ask: Ask<'_>) -> Result<Request, RequestFault>
    ensures ok { IfOk result (λ request. IsRequest (ask_parsed ask.entry) request) }
    ensures bad { IsErrOf result RequestFault.BadWords → (request : RequestValue) →
        IsRequest (ask_parsed ask.entry) request → ⊥ }
{
    match ask {
        Ask::Capabilities => Ok(Request::Capabilities),
        Ask::Get(path) => Ok(Request::Get(read_path_text(alloc, path.as_bytes())?)),
        Ask::Set(path, json) => {
            let updates = change_to(alloc, path, json)?;
            plain_set(alloc, Seq::empty(alloc), updates, Action::Plain)
        }
        Ask::Delete(path) => {
            let path = read_path_text(alloc, path.as_bytes())?;
            let mut deletes = Seq::empty(alloc);
            deletes.push(path)?;
            plain_set(alloc, deletes, Seq::empty(alloc), Action::Plain)
        }
        Ask::Trial(id, seconds, path, json) => {
            let Some(span) = lasting(seconds) else {
                return Err(RequestFault::BadWords);
            };
            let updates = change_to(alloc, path, json)?;
            let id = text_of(alloc, id.as_bytes())?;
            plain_set(alloc, Seq::empty(alloc), updates, Action::Trial(id, span))
        }
        Ask::Confirm(id) => {
            let id = text_of(alloc, id.as_bytes())?;
            plain_set(
                alloc,
                Seq::empty(alloc),
                Seq::empty(alloc),
                Action::Confirm(id),
            )
        }
        Ask::Cancel(id) => {
            let id = text_of(alloc, id.as_bytes())?;
            plain_set(
                alloc,
                Seq::empty(alloc),
                Seq::empty(alloc),
                Action::Cancel(id),
            )
        }
    }
}
