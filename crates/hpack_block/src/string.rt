ghost use Rattle.std.specs.Prelude.{◌≡◌, ◌<◌, ◌≤◌, [], ◌∷◌, ◌++◌, ℕ, List, length, IfOk, IfSome, IsErrOf, None};
ghost use Rattle.hpack_huff.specs.Huffman.{DecodesFront};
ghost use Rattle.hpack_block.specs.Strings.{IsCoded, IsContent, IsString};

use crate::form::first_octet;
use crate::header::Ended;
use crate::integer::integer_in;
use base_lists::Bytes;
use hpack_huff::{HuffFault, huff_decode};
use std::alloc::Global;

/// The string at the front, and the octets after it.
pub(crate) fn string_in(alloc: Global, octets: &[u8]) -> Result<(Bytes, &[u8]), Ended>
    ensures ok { IfOk result (λ x. IsString octets.now x.0 x.1.now) }
    ensures shorter { IfOk result (λ x. length x.1.now < length octets.now) }
    ensures bad { IsErrOf result Ended.Bad
        → (text rest : List ℕ) → IsString octets.now text rest → ⊥ }
{
    let Some((content, rest)) = content_in(octets) else {
        return Err(Ended::Bad);
    };
    let text = text_of(alloc, first_octet(octets), content)?;
    Ok((text, rest))
}

/// The content of the string at the front, as it is coded, and the octets after it.
fn content_in(octets: &[u8]) -> Option<(&[u8], &[u8])>
    ensures some { IfSome result (λ x. IsContent octets.now x.0.now x.1.now) }
    ensures shorter { IfSome result (λ x. length x.1.now < length octets.now) }
    ensures none { result ≡ None → (content rest : List ℕ) → IsContent octets.now content rest → ⊥ }
{
    let (length, after) = integer_in(7, octets)?;
    if after.len() < length {
        return None;
    }
    Some(after.split_at(length))
}

fn text_of(alloc: Global, first: u8, content: &[u8]) -> Result<Bytes, Ended>
    ensures ok { IfOk result (λ text. IsCoded first content.now text) }
    ensures bad { IsErrOf result Ended.Bad
        → (text : List ℕ) → IsCoded first content.now text → ⊥ }
    // Of a text in the Huffman code a further symbol was there.
    ensures memory { IsErrOf result Ended.NoMemory → 128 ≤ first
        → (text : List ℕ) × (symbol : ℕ) × DecodesFront content.now [] (text ++ symbol ∷ []) }
{
    if first < 128 {
        return Ok(Bytes::of(alloc, content)?);
    }
    let mut text = Bytes::empty(alloc);
    match huff_decode(content, &mut text) {
        Ok(()) => Ok(text),
        Err(HuffFault::BadCode) => Err(Ended::Bad),
        Err(HuffFault::NoMemory) => Err(Ended::NoMemory),
    }
}
