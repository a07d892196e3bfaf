// The value that a key spells.
ghost use Rattle.std.specs.Prelude.{◌≡◌, IfOk};
ghost use Rattle.value_core.specs.KeyValues.{key_value};

use crate::fitness::is_fit_scalar;
use base_kinds::{NoMemory, Shape, Text, Value};
use std::alloc::Global;
use value_core::{ValueFault, read_key};

/// The value of this shape whose key text this is.
#[tactic(auto, using(value_core::proofs::KeysRead::key_there, value_core::proofs::KeysRead::key_unfit, value_core::proofs::KeysRead::no_key))]
pub(crate) fn key_value(
    alloc: Global,
    shape: &Shape,
    text: &Text,
) -> Result<Option<Value>, NoMemory>
    ensures { IfOk result (λ value. key_value shape.now text.now ≡ value) }
{
    match read_key(alloc, shape, text) {
        Err(ValueFault::BadValue) => Ok(None),
        Err(ValueFault::NoMemory) => Err(NoMemory),
        Ok(value) => {
            if is_fit_scalar(&value) {
                Ok(Some(value))
            } else {
                drop(value);
                Ok(None)
            }
        }
    }
}
