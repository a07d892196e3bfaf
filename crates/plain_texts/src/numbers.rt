// Numbers in decimal, read and written.
ghost use Rattle.std.specs.Prelude.{◌≡◌, ◌<◌, ◌^◌, ◌++◌, ◌∷◌, [], ℕ, IfSome, IfNone, OnOk, OnErr};
ghost use Rattle.std.specs.Fmt.{decimal};
ghost use Rattle.plain_texts.specs.Numbers.{natural_of};
ghost use Rattle.plain_texts.specs.inner.Digits.{begins_plainly};

use base_lists::{Bytes, NoMemory};
use std::alloc::Global;

fn begins_plainly(octets: &[u8]) -> bool
    ensures { result ≡ begins_plainly octets.now }
{
    !octets.is_empty() && octets[0] != b'+' && (octets[0] != b'0' || octets.len() == 1)
}

/// The number that the octets spell in decimal, without sign and leading zeros.
pub fn natural_of(octets: &[u8]) -> Option<u64>
    ensures value { result ≡ natural_of octets.now }
    ensures some { IfSome result (λ number. octets.now ≡ decimal number) }
    ensures small { IfSome result (λ number. number < 2 ^ 64) }
    ensures none { IfNone result ((number : ℕ) →
        number < 2 ^ 64 → octets.now ≡ decimal number → ⊥) }
{
    read_natural(octets)
}

fn read_natural(octets: &[u8]) -> Option<u64>
    ensures some { IfSome result (λ number. octets.now ≡ decimal number) }
    ensures small { IfSome result (λ number. number < 2 ^ 64) }
    ensures none { IfNone result ((number : ℕ) →
        number < 2 ^ 64 → octets.now ≡ decimal number → ⊥) }
{
    if !begins_plainly(octets) {
        return None;
    }
    match std::str::from_utf8(octets) {
        Ok(text) => text.parse::<u64>().ok(),
        Err(_) => None,
    }
}

/// Adds the number in decimal.
pub fn put_number(alloc: Global, number: u64, out: &mut Bytes) -> Result<(), NoMemory>
    ensures ok { OnOk result (out.new ≡ out.old ++ decimal number) }
    ensures err { OnErr result (out.new ≡ out.old) }
{
    let digits = number.to_string(alloc)?;
    out.extend_from_slice(digits.as_bytes())
}

/// Adds a line of this front and then this number.
pub fn put_number_line(
    alloc: Global,
    front: &[u8],
    number: u64,
    out: &mut Bytes,
) -> Result<(), NoMemory>
    ensures ok { OnOk result (out.new ≡ out.old ++ (front.now ++ (decimal number ++ 10 ∷ []))) }
    ensures err { OnErr result (out.new ≡ out.old) }
{
    let mut line = Bytes::of(alloc, front)?;
    put_number(alloc, number, &mut line)?;
    line.extend_from_slice(b"\n")?;
    out.extend_from_slice(line.items())
}
