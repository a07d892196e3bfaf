// Numbers in decimal digits, read exactly.
ghost use Rattle.std.specs.Prelude.{◌≡◌, ℕ, ℤ, ◌+◌, ◌*◌, ◌^◌, ◌<◌, ◌≤◌, List, ◌++◌, IsTrue, IfSome, IfNone, OnSome, MatchOption, true};
ghost use Rattle.std.specs.Char.{digit_value};
ghost use Rattle.std.specs.Fmt.{signed_decimal, sign_text};
ghost use Rattle.std.specs.Str.Parse.{AllDigits, digits_value_after};
ghost use Rattle.base_kinds.specs.Values.{fits_signed};
ghost use Rattle.value_core.specs.Decimals.{signed, with_sign};
ghost use Rattle.value_core.specs.Integers.{integer_of};

use plain_texts::natural_of;

/// The number that an octet makes as the last digit behind those of a number.
pub(crate) fn with_digit(number: u64, octet: u8) -> Option<u64>
    ensures some { IfSome result (λ longer. longer ≡ number * 10 + digit_value octet) }
    ensures small { IfSome result (λ longer. longer < 2 ^ 64) }
    ensures digit { OnSome result (digit_value octet < 10) }
    ensures none { IfNone result (digit_value octet < 10 → 2 ^ 64 ≤ number * 10 + digit_value
        octet) }
{
    if octet < b'0' || octet > b'9' {
        return None;
    }
    number.checked_mul(10)?.checked_add(u64::from(octet - b'0'))
}

/// The number that the digits make behind those of a number.
pub(crate) fn with_digits(number: u64, octets: &[u8]) -> Option<u64>
    ensures some { IfSome result (λ longer. longer ≡ digits_value_after 10 number octets.now) }
    ensures small { IfSome result (λ longer. longer < 2 ^ 64) }
    ensures digits { OnSome result (AllDigits 10 octets.now) }
    ensures none { IfNone result (AllDigits 10 octets.now → 2 ^ 64 ≤ digits_value_after 10 number
        octets.now) }
{
    let mut longer = number;
    for octet in octets {
        longer = with_digit(longer, *octet)?;
    }
    Some(longer)
}

/// The number with so many zeros behind it, where 64 bits hold it without a sign.
pub fn with_zeros(number: u64, zeros: usize) -> Option<u64>
    ensures some { IfSome result (λ longer. longer ≡ number * 10 ^ zeros) }
    ensures none { IfNone result (2 ^ 64 ≤ number * 10 ^ zeros) }
{
    let mut longer = number;
    for _ in 0..zeros {
        longer = longer.checked_mul(10)?;
    }
    Some(longer)
}

/// The number, or its negative, where 64 bits hold it.
pub fn with_sign(negative: bool, number: u64) -> Option<i64>
    ensures value { result ≡ with_sign negative number }
    ensures some { IfSome result (λ value. value ≡ signed negative number) }
    ensures held { IfSome result (λ value. IsTrue (fits_signed 64 value)) }
    ensures none { IfNone result (IsTrue (fits_signed 64 (signed negative number)) → ⊥) }
{
    if !negative {
        return if number < 1 << 63 {
            Some(number as i64)
        } else {
            None
        };
    }
    if number == 0 {
        return Some(0);
    }
    if number <= 1 << 63 {
        Some(-1 - (number - 1) as i64)
    } else {
        None
    }
}

/// What follows a `-`, where the octets begin with it.
pub(crate) fn after_minus(octets: &[u8]) -> Option<&[u8]>
    ensures { MatchOption result ((rest : List ℕ) → octets.now ≡ sign_text true ++ rest → ⊥)
        (λ rest. octets.now ≡ sign_text true ++ rest.now) }
{
    octets.strip_prefix(b"-")
}

/// The number that the octets spell in decimal, with a `-` where it is negative and without leading zeros.
fn integer_in(octets: &[u8]) -> Option<i64>
    ensures some { IfSome result (λ number. octets.now ≡ signed_decimal number) }
    ensures held { IfSome result (λ number. IsTrue (fits_signed 64 number)) }
    ensures none { IfNone result ((number : ℤ) → IsTrue (fits_signed 64 number) → octets.now
        ≡ signed_decimal number → ⊥) }
{
    match after_minus(octets) {
        None => match natural_of(octets) {
            Some(number) => with_sign(false, number),
            None => None,
        },
        Some(digits) => match natural_of(digits) {
            Some(magnitude) => if magnitude == 0 {
                None
            } else {
                with_sign(true, magnitude)
            },
            None => None,
        },
    }
}

/// The number of 64 bits that the octets spell in decimal, with a `-` where it is negative and without leading zeros.
pub fn read_integer(octets: &[u8]) -> Option<i64>
    ensures value { result ≡ integer_of octets.now }
    ensures some { IfSome result (λ number. octets.now ≡ signed_decimal number) }
    ensures held { IfSome result (λ number. IsTrue (fits_signed 64 number)) }
    ensures none { IfNone result ((number : ℤ) → IsTrue (fits_signed 64 number)
        → octets.now ≡ signed_decimal number → ⊥) }
{
    integer_in(octets)
}
