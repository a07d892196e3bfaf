//! The decoder.
ghost use Rattle.std.specs.Prelude.{◌≡◌, [], ◌∷◌, ◌++◌, List, ℕ, OnOk, OnErr, IsErrOf};
ghost use Rattle.hpack_huff.specs.Huffman.{Huff, Decodes, DecodesFront};
ghost use Rattle.hpack_huff.specs.inner.Taken.{Takes, TakesSome, MeetsEndMark, IsUnfinished};

use crate::pending::{Next, Pending};
use base_lists::{Bytes, NoMemory};

#[derive(Clone, Copy, Debug, PartialEq, Eq)]
pub enum HuffFault {
    /// The octets aren't the Huffman code of a text: the end mark's code stands in them, or what is left at their end
    /// is no padding (RFC 7541 section 5.2).
    BadCode,
    NoMemory,
}

impl From<NoMemory> for HuffFault {
    ghost use Rattle.hpack_huff.specs.declared.decode.HuffFault.TheVariants.{NoMemory as OutOfMemory};

    ghost from_gives = { λ _ fault. fault ≡ OutOfMemory };

    fn from(_fault: NoMemory) -> HuffFault {
        HuffFault::NoMemory
    }
}

/// Adds the text at the end of `out` whose Huffman code the octets are (RFC 7541 section 5.2). After a fault `out` has
/// gained a prefix of what the octets stand for.
pub fn huff_decode(octets: &[u8], out: &mut Bytes) -> Result<(), HuffFault>
    ensures ok { OnOk result (Decodes octets.now out.old out.new) }
    ensures bad { IsErrOf result HuffFault.BadCode → (text : List ℕ) → Huff octets.now text → ⊥ }
    // One symbol more stood there, for which memory was wanting.
    ensures memory { IsErrOf result HuffFault.NoMemory
        → (symbol : ℕ) × DecodesFront octets.now out.old (out.new ++ symbol ∷ []) }
    ensures err { OnErr result (DecodesFront octets.now out.old out.new) }
{
    let mut pending = Pending::nothing();
    for octet in octets {
        pending.push(*octet);
        take_codes(&mut pending, out)?;
    }
    if pending.is_padding() {
        Ok(())
    } else {
        Err(HuffFault::BadCode)
    }
}

/// Takes all whole codes, and adds what they stand for at the end of `out`.
fn take_codes(pending: &mut Pending, out: &mut Bytes) -> Result<(), HuffFault>
    ensures ok { OnOk result (Takes pending.old pending.new out.old out.new) }
    ensures unfinished { OnOk result (IsUnfinished pending.new) }
    ensures bad { IsErrOf result HuffFault.BadCode → MeetsEndMark pending.old out.old out.new }
    ensures memory { IsErrOf result HuffFault.NoMemory
        → (symbol : ℕ) × TakesSome pending.old out.old (out.new ++ symbol ∷ []) }
    ensures err { OnErr result (TakesSome pending.old out.old out.new) }
{
    loop {
        match pending.next() {
            Next::Octet(octet) => out.push(octet)?,
            Next::EndMark => return Err(HuffFault::BadCode),
            Next::Unfinished => return Ok(()),
        }
    }
}
