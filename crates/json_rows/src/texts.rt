// Octets and texts that strings stand for.
ghost use Rattle.std.specs.Prelude.{◌≡◌, ◌++◌, ◌∷◌, [], None, Ok, IfOk, OnOk};
ghost use Rattle.value_core.specs.Base64.{octets_of};

use base_kinds::{Bytes, NoMemory, Text, TextOfFault, Texts};
use std::alloc::Global;
use value_core::{ValueFault, read_base64};

/// The octets whose base64 the text is (RFC 7951 6.6).
pub(crate) fn octets_of(alloc: Global, text: &[u8]) -> Result<Option<Bytes>, NoMemory>
    ensures { IfOk result (λ octets. octets ≡ octets_of text.now) }
{
    match read_base64(alloc, text) {
        Ok(octets) => Ok(Some(octets)),
        Err(fault) => no_octets(fault),
    }
}

/// No octets, unless memory was wanting.
fn no_octets(fault: ValueFault) -> Result<Option<Bytes>, NoMemory>
    ensures bad { fault ≡ ValueFault.BadValue → result ≡ Ok None }
    ensures memory { OnOk result (fault ≡ ValueFault.BadValue) }
{
    match fault {
        ValueFault::BadValue => Ok(None),
        ValueFault::NoMemory => Err(NoMemory),
    }
}

/// Adds the text.
pub(crate) fn put_text(alloc: Global, text: &str, texts: &mut Texts) -> Result<(), NoMemory>
    ensures { OnOk result (texts.new ≡ texts.old ++ text.now ∷ []) }
{
    match text_of(alloc, text) {
        Ok(copy) => texts.push(copy),
        Err(NoMemory) => Err(NoMemory),
    }
}

pub(crate) fn text_of(alloc: Global, text: &str) -> Result<Text, NoMemory>
    ensures { IfOk result (λ copy. copy ≡ text.now) }
{
    match Text::of(alloc, text.as_bytes()) {
        Ok(copy) => Ok(copy),
        Err(TextOfFault::NoMemory) => Err(NoMemory),
        Err(TextOfFault::NotUtf8) => unreachable!(),
    }
}
