// Octets in base64 with padding (RFC 4648 4).
ghost use Rattle.std.specs.Prelude.{◌≡◌, ℕ, ◌++◌, List, Some, None, IfOk, IsErrOf, IsUtf8, OnOk};
ghost use Rattle.base64.specs.GeneralPurpose.{IsBytes};
ghost use Rattle.base_kinds.specs.Texts.{base64_text};
ghost use Rattle.value_core.specs.Base64.{octets_of};

use crate::fault::ValueFault;
use base_kinds::{Bytes, NoMemory, Seq};
use base64::DecodeAllocError;
use base64::engine::general_purpose::STANDARD;
use std::alloc::Global;

/// Adds the octets in base64.
pub(crate) fn put_base64(alloc: Global, octets: &[u8], out: &mut Bytes) -> Result<(), NoMemory>
    ensures ok { OnOk result (out.new ≡ out.old ++ base64_text octets.now) }
    ensures is_utf8 { OnOk result (IsUtf8 (base64_text octets.now)) }
{
    let text = STANDARD.encode(alloc, octets)?;
    let outcome = out.extend_from_slice(text.as_str().as_bytes());
    drop(text);
    outcome
}

/// The octets whose base64 the text is: with its padding, and with no bits behind the last octet.
#[tactic(auto, unfolding(base64::specs::GeneralPurpose::decoded_of))]
pub fn read_base64(alloc: Global, text: &[u8]) -> Result<Bytes, ValueFault>
    ensures value { IfOk result (λ octets. octets_of text.now ≡ Some octets) }
    ensures refused { IsErrOf result ValueFault.BadValue → octets_of text.now ≡ None }
    ensures ok { IfOk result (λ octets. text.now ≡ base64_text octets) }
    ensures bytes { IfOk result (λ octets. IsBytes octets) }
    ensures bad_value { IsErrOf result ValueFault.BadValue → (octets : List ℕ) → IsBytes octets
        → text.now ≡ base64_text octets → ⊥ }
{
    match STANDARD.decode(alloc, text) {
        Ok(octets) => Ok(Seq::from_vec(octets)),
        Err(DecodeAllocError::OutOfMemory) => Err(ValueFault::NoMemory),
        Err(DecodeAllocError::DecodeError(_)) => Err(ValueFault::BadValue),
    }
}
