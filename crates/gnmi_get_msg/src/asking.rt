//! Reading a GetRequest.
ghost use Rattle.std.specs.Prelude.{◌≡◌};
ghost use Rattle.gnmi_data_msg.specs.Parts.{IsReadAs};
ghost use Rattle.gnmi_get_msg.specs.Asks.{is_state, get_of};

use crate::numbers::{
    GET_ENCODING, GET_EXTENSION, GET_PATH, GET_PREFIX, GET_TYPE, GET_USE_MODELS, TYPE_OPERATIONAL,
    TYPE_STATE,
};
use base_kinds::Seq;
use gnmi_data_msg::{
    ModelData, MsgFault, are_foreign, encoding_of, enum_under, fields_in, messages_in, paths_of,
    read_path, single_message,
};
use gnmi_ext_msg::{Extension, are_other};
use gnmi_kinds::{GetAsk, GnmiPath};
use std::alloc::Global;

fn is_state(number: u32) -> bool
    ensures { result ≡ is_state number }
{
    number == TYPE_STATE || number == TYPE_OPERATIONAL
}

/// What the octets of a GetRequest ask for (gNMI 3.3.1): the paths in their order, behind no prefix. Not supported are the types
/// STATE and OPERATIONAL, a model in `use_models`, an extension other than a commit, and a path with an origin other than the
/// empty one and `openconfig` or with texts in the deprecated field `element`; the prefix's own and the encoding are told and not
/// judged. BadMessage where the octets aren't fields, or those of a path, a model or an Extension with a commit are a bad message.
#[tactic(auto, unfolding(crate::specs::Asks::get_of))]
pub fn read_get(alloc: Global, octets: &[u8]) -> Result<GetAsk, MsgFault>
    ensures { IsReadAs result (get_of octets.now) }
{
    let fields = fields_in(alloc, octets)?;
    let prefix = single_message(alloc, octets, GET_PREFIX)?;
    let prefix = read_path(alloc, prefix.items())?;
    let paths: Seq<GnmiPath> = messages_in(alloc, octets, fields.items(), GET_PATH)?;
    let models: Seq<ModelData> = messages_in(alloc, octets, fields.items(), GET_USE_MODELS)?;
    let extensions: Seq<Extension> = messages_in(alloc, octets, fields.items(), GET_EXTENSION)?;
    let unsupported = is_state(enum_under(octets, GET_TYPE))
        || models.len() != 0
        || are_other(extensions.items())
        || are_foreign(paths.items());
    let paths = paths_of(alloc, paths)?;
    Ok(GetAsk {
        prefix,
        paths,
        encoding: encoding_of(enum_under(octets, GET_ENCODING)),
        unsupported,
    })
}
