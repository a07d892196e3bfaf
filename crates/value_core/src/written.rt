// How truth values and numbers are written.
ghost use Rattle.std.specs.Prelude.{◌≡◌, ◌+◌, ◌++◌, ◌/◌, ◌^◌, ◌≤◌, length, string_bytes, take, IsUtf8, OnOk};
ghost use Rattle.std.specs.Fmt.{decimal, signed_decimal};
ghost use Rattle.base_kinds.specs.Texts.{bool_text, dec_text, scaled_text, last_digits, fraction, without_last_zeros};

use base_kinds::{Bytes, NoMemory};
use std::alloc::Global;

pub(crate) fn bool_word(is: bool) -> &'static str
    ensures { result.now ≡ bool_text is }
{
    if is { "true" } else { "false" }
}

/// Adds the number in decimal.
pub(crate) fn put_natural(alloc: Global, number: u64, out: &mut Bytes) -> Result<(), NoMemory>
    ensures ok { OnOk result (out.new ≡ out.old ++ decimal number) }
    ensures is_utf8 { IsUtf8 (decimal number) }
{
    match number.to_string(alloc) {
        Ok(text) => put_string(text, out),
        Err(_) => Err(NoMemory),
    }
}

/// Adds the number in decimal, with a `-` where it is negative.
pub(crate) fn put_integer(alloc: Global, number: i64, out: &mut Bytes) -> Result<(), NoMemory>
    ensures ok { OnOk result (out.new ≡ out.old ++ signed_decimal number) }
    ensures is_utf8 { IsUtf8 (signed_decimal number) }
{
    match number.to_string(alloc) {
        Ok(text) => put_string(text, out),
        Err(_) => Err(NoMemory),
    }
}

/// Adds the octets of the text.
fn put_string(text: String, out: &mut Bytes) -> Result<(), NoMemory>
    ensures { OnOk result (out.new ≡ out.old ++ string_bytes text) }
{
    let outcome = out.extend_from_slice(text.as_str().as_bytes());
    drop(text);
    outcome
}

/// Adds the digits as a decimal with so many places behind the point.
pub(crate) fn put_decimal(
    alloc: Global,
    digits: i64,
    places: u8,
    out: &mut Bytes,
) -> Result<(), NoMemory>
    ensures ok { OnOk result (out.new ≡ out.old ++ dec_text digits places) }
    ensures is_utf8 { IsUtf8 (dec_text digits places) }
{
    if digits < 0 {
        out.push(b'-')?;
    }
    put_scaled(alloc, digits.unsigned_abs(), places, out)
}

/// Adds the number with this many of its digits behind the point.
fn put_scaled(alloc: Global, number: u64, places: u8, out: &mut Bytes) -> Result<(), NoMemory>
    ensures { OnOk result (out.new ≡ out.old ++ scaled_text number places) }
{
    let mut digits = vec![in alloc; b'0'; places as usize]?;
    let whole = split_digits(number, digits.as_mut_slice());
    put_natural(alloc, whole, out)?;
    out.push(b'.')?;
    out.extend_from_slice(fraction_of(digits.as_slice()))
}

/// Writes the last digits of the number over these, and gives what stands before them.
fn split_digits(number: u64, digits: &mut [u8]) -> u64
    ensures whole { result ≡ number / 10 ^ length digits.old }
    ensures digits { digits.new ≡ last_digits (length digits.old) number }
{
    let mut whole = number;
    let mut at = digits.len();
    while at > 0 {
        at -= 1;
        digits[at] = b'0' + (whole % 10) as u8;
        whole /= 10;
    }
    whole
}

/// The digits behind the point: without zeros at the end, but at least one.
fn fraction_of(digits: &[u8]) -> &[u8]
    ensures { result.now ≡ fraction digits.now }
{
    match digits.split_first() {
        None => b"0",
        Some((_, others)) => &digits[..1 + length_without_zeros(others)],
    }
}

fn length_without_zeros(digits: &[u8]) -> usize
    ensures within { result ≤ length digits.now }
    ensures value { without_last_zeros digits.now ≡ take result digits.now }
{
    let mut length = digits.len();
    while length > 0 && digits[length - 1] == b'0' {
        length -= 1;
    }
    length
}
