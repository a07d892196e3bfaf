// Decimal numbers, read in all their forms.
ghost use Rattle.std.specs.Prelude.{◌≡◌, ℕ, ℤ, ◌++◌, List, [], ◌∷◌, ◌==◌, ◌↔◌, Bool, false, IsTrue, IfSome, IfNone, IfOk, IsErrOf, MatchOption, codes};
ghost use Rattle.base_kinds.specs.Texts.{dec_text};
ghost use Rattle.base_kinds.specs.Values.{fits_signed};
ghost use Rattle.std.specs.Fmt.{sign_text};
ghost use Rattle.value_core.specs.Decimals.{IsDecimal, decimal_of, point_text};
ghost use Rattle.plain_texts.specs.Splits.{BeginsOrEnds};
ghost use Rattle.value_core.specs.inner.Cuts.{HasParts};

use crate::fault::ValueFault;
use crate::numbers::{after_minus, read_integer, with_digits, with_sign, with_zeros};
use crate::written::put_decimal;
use base_kinds::{NoMemory, Seq};
use plain_texts::cut_before;
use std::alloc::Global;

/// The parts of a decimal: whether a `-` stands first, the digits before the point, and those behind it.
#[derive(Clone, Copy)]
struct Parts<'a> {
    negative: bool,
    whole: &'a [u8],
    behind: &'a [u8],
}

/// Cuts the octets at a `-` at their front and at their first point. Behind a point something has to stand.
fn parts_of(octets: &[u8]) -> Option<Parts<'_>>
    ensures some { IfSome result (λ parts. HasParts octets.now parts.negative parts.whole.now
        parts.behind.now) }
    ensures none { IfNone result ((negative : Bool) (whole behind : List ℕ)
        → HasParts octets.now negative whole behind → ⊥) }
{
    match after_minus(octets) {
        None => unsigned_parts(false, octets),
        Some(unsigned) => unsigned_parts(true, unsigned),
    }
}

fn unsigned_parts(negative: bool, octets: &[u8]) -> Option<Parts<'_>>
    requires { negative ≡ false → (rest : List ℕ) → octets.now ≡ 45 ∷ rest → ⊥ }
    ensures some { IfSome result (λ parts. HasParts (sign_text negative ++ octets.now) parts.negative
        parts.whole.now parts.behind.now) }
    ensures none { IfNone result ((other : Bool) (whole behind : List ℕ)
        → HasParts (sign_text negative ++ octets.now) other whole behind → ⊥) }
{
    let (whole, rest) = cut_before(octets, b'.');
    let behind = behind_point(rest)?;
    Some(Parts {
        negative,
        whole,
        behind,
    })
}

/// What stands behind the point, where something does.
fn behind_point(rest: &[u8]) -> Option<&[u8]>
    requires { BeginsOrEnds 46 rest.now }
    ensures some { IfSome result (λ behind. rest.now ≡ point_text behind.now) }
    ensures none { IfNone result ((behind : List ℕ) → rest.now ≡ point_text behind → ⊥) }
{
    match rest {
        [] => Some(rest),
        [_] => None,
        [_, behind @ ..] => Some(behind),
    }
}

/// The digits of the decimal that the octets spell: an optional `-`, digits, and optionally a point with one to so many
/// digits behind it. Zeros fill the places that it leaves out.
fn decimal_in(places: u8, octets: &[u8]) -> Option<i64>
    ensures some { IfSome result (λ digits. IsDecimal places octets.now digits) }
    ensures none { IfNone result ((digits : ℤ) → IsDecimal places octets.now digits → ⊥) }
{
    let parts = parts_of(octets)?;
    if parts.whole.is_empty() || parts.behind.len() > places as usize {
        return None;
    }
    let whole = with_digits(0, parts.whole)?;
    let behind = with_digits(whole, parts.behind)?;
    let number = with_zeros(behind, places as usize - parts.behind.len())?;
    let digits = with_sign(parts.negative, number)?;
    Some(digits)
}

/// The digits of the decimal that the octets spell: an optional `-`, digits, and optionally a point with one to so many
/// digits behind it (RFC 7950 9.3.1). Zeros fill the places that it leaves out.
#[tactic(auto, using(crate::proofs::DecimalsRead::decimal_is))]
pub fn read_decimal(places: u8, octets: &[u8]) -> Option<i64>
    ensures value { result ≡ decimal_of places octets.now }
    ensures some { IfSome result (λ digits. IsDecimal places octets.now digits) }
    ensures none { IfNone result ((digits : ℤ) → IsDecimal places octets.now digits → ⊥) }
{
    decimal_in(places, octets)
}

/// What stands before `.0` at the end.
fn before_zero(octets: &[u8]) -> Option<&[u8]>
    ensures { MatchOption result ((front : List ℕ) → octets.now ≡ front ++ codes ".0" → ⊥)
        (λ front. octets.now ≡ front.now ++ codes ".0") }
{
    octets.strip_suffix(b".0")
}

/// The only digits whose text with no places the octets may be.
fn read_whole(octets: &[u8]) -> Option<i64>
    ensures some { IfSome result (λ read. (digits : ℤ) → IsTrue (fits_signed 64 digits) → octets.now
        ≡ dec_text digits 0 → digits ≡ read) }
    ensures none { IfNone result ((digits : ℤ) → IsTrue (fits_signed 64 digits) → octets.now
        ≡ dec_text digits 0 → ⊥) }
{
    match before_zero(octets) {
        Some(front) => read_integer(front),
        None => None,
    }
}

/// The only digits whose text with so many places the octets may be.
fn read_written(places: u8, octets: &[u8]) -> Option<i64>
    ensures some { IfSome result (λ read. (digits : ℤ) → IsTrue (fits_signed 64 digits) → octets.now
        ≡ dec_text digits places → digits ≡ read) }
    ensures none { IfNone result ((digits : ℤ) → IsTrue (fits_signed 64 digits) → octets.now
        ≡ dec_text digits places → ⊥) }
{
    if places == 0 {
        return read_whole(octets);
    }
    let digits = decimal_in(places, octets)?;
    Some(digits)
}

/// The digits of the decimal that is written so.
pub(crate) fn read_decimal_key(alloc: Global, places: u8, octets: &[u8]) -> Result<i64, ValueFault>
    ensures ok { IfOk result (λ digits. octets.now ≡ dec_text digits places) }
    ensures bad_value { IsErrOf result ValueFault.BadValue → (digits : ℤ)
        → IsTrue (fits_signed 64 digits) → octets.now ≡ dec_text digits places → ⊥ }
{
    let Some(digits) = read_written(places, octets) else {
        return Err(ValueFault::BadValue);
    };
    if is_text_of(alloc, digits, places, octets)? {
        Ok(digits)
    } else {
        Err(ValueFault::BadValue)
    }
}

/// Whether the digits with so many places are written so.
fn is_text_of(alloc: Global, digits: i64, places: u8, octets: &[u8]) -> Result<bool, NoMemory>
    ensures { IfOk result (λ is. IsTrue is ↔ (octets.now ≡ dec_text digits places)) }
{
    let mut written = Seq::empty(alloc);
    let outcome = put_decimal(alloc, digits, places, &mut written);
    let is_same = written.items() == octets;
    drop(written);
    match outcome {
        Ok(()) => Ok(is_same),
        Err(NoMemory) => Err(NoMemory),
    }
}
