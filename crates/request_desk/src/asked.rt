// What a GetRequest asks, or why it is refused by itself.
ghost use Rattle.std.specs.Prelude.{◌≡◌};
ghost use Rattle.std.specs.List.{list_any};
ghost use Rattle.base_lists.specs.Results.{IsUnlessMemory, traverse};
ghost use Rattle.gnmi_get_msg.specs.Asks.{get_of};
ghost use Rattle.request_desk.specs.Gets.{is_other, is_unsupported, has_no_name, is_bad_path, asked_path, asked_paths};
ghost use Rattle.request_desk.specs.inner.Gets.{get_ask};

use crate::limits::MOST_TARGET_OCTETS;
use base_kinds::{Elem, MOST_ELEMENTS, Path, Paths, Refusal};
use gnmi_data_msg::{MsgFault, is_foreign};
use gnmi_get_msg::read_get;
use gnmi_kinds::{Encoding, GetAsk};
use path_core::{PathFault, join_prefix};
use std::alloc::Global;

fn is_other(encoding: Encoding) -> bool
    ensures { result ≡ is_other encoding }
{
    match encoding {
        Encoding::Other => true,
        Encoding::Json => false,
        Encoding::Proto => false,
        Encoding::JsonIetf => false,
    }
}

/// Whether this target doesn't support something of the request.
fn is_unsupported(ask: &GetAsk) -> bool
    ensures { result ≡ is_unsupported ask.now }
{
    ask.unsupported || is_foreign(&ask.prefix) || is_other(ask.encoding)
}

/// What the message asks of the target.
pub(crate) fn get_ask(alloc: Global, body: &[u8]) -> Result<GetAsk, Refusal>
    ensures { IsUnlessMemory Refusal.NoMemory result (get_ask (get_of body.now)) }
{
    let ask = match read_get(alloc, body) {
        Ok(ask) => ask,
        Err(MsgFault::BadMessage) => return Err(Refusal::BadMessage),
        Err(MsgFault::NoMemory) => return Err(Refusal::NoMemory),
    };
    if is_unsupported(&ask) {
        Err(Refusal::Unsupported)
    } else {
        Ok(ask)
    }
}

/// Whether some element has no name.
fn is_nameless(path: &[Elem]) -> bool
    ensures { result ≡ list_any has_no_name path.now }
{
    path.iter().any(|elem| elem.name.octets().len() == 0)
}

/// Whether there are too many elements, or one without a name.
fn is_bad_path(path: &[Elem]) -> bool
    ensures { result ≡ is_bad_path path.now }
{
    path.len() > MOST_ELEMENTS || is_nameless(path)
}

/// The path behind the prefix.
fn asked_path(alloc: Global, prefix: &Path, path: &Path) -> Result<Path, Refusal>
    ensures { IsUnlessMemory Refusal.NoMemory result (asked_path prefix.now path.now) }
{
    match join_prefix(alloc, prefix, path) {
        Ok(joined) => {
            if is_bad_path(joined.items()) {
                Err(Refusal::BadPath)
            } else {
                Ok(joined)
            }
        }
        Err(PathFault::BadPath) => Err(Refusal::BadPath),
        Err(PathFault::NoMemory) => Err(Refusal::NoMemory),
    }
}

#[tactic(auto, using(set_request::proofs::Traversals::one_more, set_request::proofs::Traversals::one_refused, set_request::proofs::Traversals::none_behind, set_request::proofs::Traversals::none_before))]
fn paths_behind(alloc: Global, prefix: &Path, paths: &[Path]) -> Result<Paths, Refusal>
    ensures { IsUnlessMemory Refusal.NoMemory result (traverse (asked_path prefix.now) paths.now) }
{
    let mut asked = Paths::empty(alloc);
    for path in paths {
        let path = asked_path(alloc, prefix, path)?;
        asked.push(path)?;
    }
    Ok(asked)
}

/// The paths that are asked, each behind the prefix.
pub(crate) fn asked_paths(alloc: Global, ask: &GetAsk) -> Result<Paths, Refusal>
    ensures { IsUnlessMemory Refusal.NoMemory result (asked_paths ask.now) }
{
    if ask.prefix.target.octets().len() > MOST_TARGET_OCTETS {
        return Err(Refusal::BadPath);
    }
    paths_behind(alloc, &ask.prefix.path, ask.paths.items())
}
