// The text of a value as a key.
ghost use Rattle.std.specs.Prelude.{◌≡◌, ◌++◌, ◌/◌, ◌^◌, [], IfOk, OnOk};
ghost use Rattle.std.specs.Fmt.{decimal, signed_decimal};
ghost use Rattle.base_kinds.specs.Texts.{bool_text, dec_text, scaled_text, last_digits, before_digits, without_last_zeros, fraction, base64_text};
ghost use Rattle.base_kinds.specs.Keys.{key_text};

use base_kinds::{Bytes, NoMemory, Seq, Value};
use base64::engine::general_purpose::STANDARD;
use std::alloc::Global;

/// The text of the value where it is the key of a list's entry.
pub fn key_text(alloc: Global, value: &Value) -> Result<Bytes, NoMemory>
    ensures { IfOk result (λ text. text ≡ key_text value.now) }
{
    match value {
        Value::Bool(is) => bool_text(alloc, *is),
        Value::Int(number) => signed_text(alloc, *number),
        Value::Uint(number) => unsigned_text(alloc, *number),
        Value::Dec(digits, places) => dec_text(alloc, *digits, *places),
        Value::Text(text) => Bytes::of(alloc, text.octets()),
        Value::Bin(octets) => base64_text(alloc, octets.items()),
        Value::Enum(text) => Bytes::of(alloc, text.octets()),
        Value::List(_) => Ok(Seq::empty(alloc)),
    }
}

fn bool_text(alloc: Global, is: bool) -> Result<Bytes, NoMemory>
    ensures { IfOk result (λ text. text ≡ bool_text is) }
{
    if is {
        Bytes::of(alloc, b"true")
    } else {
        Bytes::of(alloc, b"false")
    }
}

fn signed_text(alloc: Global, number: i64) -> Result<Bytes, NoMemory>
    ensures { IfOk result (λ text. text ≡ signed_decimal number) }
{
    Ok(Seq::from_vec(number.to_string(alloc)?.into_bytes()))
}

fn unsigned_text(alloc: Global, number: u64) -> Result<Bytes, NoMemory>
    ensures { IfOk result (λ text. text ≡ decimal number) }
{
    Ok(Seq::from_vec(number.to_string(alloc)?.into_bytes()))
}

/// Base64 with padding.
fn base64_text(alloc: Global, octets: &[u8]) -> Result<Bytes, NoMemory>
    ensures { IfOk result (λ text. text ≡ base64_text octets.now) }
{
    Ok(Seq::from_vec(STANDARD.encode(alloc, octets)?.into_bytes()))
}

/// The decimal: a `-` where it is negative, the whole part, `.`, and the fraction.
fn dec_text(alloc: Global, digits: i64, places: u8) -> Result<Bytes, NoMemory>
    ensures { IfOk result (λ text. text ≡ dec_text digits places) }
{
    let mut text = Seq::empty(alloc);
    match put_dec(alloc, digits, places, &mut text) {
        Ok(()) => Ok(text),
        Err(NoMemory) => {
            drop(text);
            Err(NoMemory)
        }
    }
}

fn put_dec(alloc: Global, digits: i64, places: u8, out: &mut Bytes) -> Result<(), NoMemory>
    requires { out.old ≡ [] }
    ensures { OnOk result (out.new ≡ dec_text digits places) }
{
    if digits < 0 {
        out.push(b'-')?;
    }
    put_scaled(alloc, digits.unsigned_abs(), places, out)
}

/// Adds the number with this many of its digits behind the point.
fn put_scaled(alloc: Global, number: u64, places: u8, out: &mut Bytes) -> Result<(), NoMemory>
    ensures { OnOk result (out.new ≡ out.old ++ scaled_text number places) }
{
    put_unsigned(alloc, whole_part(number, places), out)?;
    out.push(b'.')?;
    let digits = last_digits(alloc, number, places)?;
    let put = put_fraction(alloc, digits.items(), out);
    drop(digits);
    put
}

fn put_unsigned(alloc: Global, number: u64, out: &mut Bytes) -> Result<(), NoMemory>
    ensures { OnOk result (out.new ≡ out.old ++ decimal number) }
{
    let text = unsigned_text(alloc, number)?;
    let put = out.extend_from_slice(text.items());
    drop(text);
    put
}

/// What stands before the point, where this many of the number's digits stand behind it.
#[tactic(auto, using(crate::proofs::Powers::tenth))]
fn whole_part(number: u64, places: u8) -> u64
    ensures { result ≡ number / 10 ^ places }
{
    if places == 0 {
        return number;
    }
    whole_part(number / 10, places - 1)
}

fn last_digits(alloc: Global, number: u64, places: u8) -> Result<Bytes, NoMemory>
    ensures { IfOk result (λ digits. digits ≡ last_digits places number) }
{
    let mut digits = Seq::empty(alloc);
    match put_last_digits(number, places, &mut digits) {
        Ok(()) => Ok(digits),
        Err(NoMemory) => {
            drop(digits);
            Err(NoMemory)
        }
    }
}

fn put_last_digits(number: u64, places: u8, out: &mut Bytes) -> Result<(), NoMemory>
    ensures { OnOk result (out.new ≡ out.old ++ last_digits places number) }
{
    if places == 0 {
        return Ok(());
    }
    put_last_digits(number / 10, places - 1, out)?;
    out.push(b'0' + (number % 10) as u8)
}

/// Adds the digits behind the point: without zeros at the end, but at least one.
fn put_fraction(alloc: Global, digits: &[u8], out: &mut Bytes) -> Result<(), NoMemory>
    ensures { OnOk result (out.new ≡ out.old ++ fraction digits.now) }
{
    match digits.split_first() {
        None => out.push(b'0'),
        Some((digit, others)) => {
            out.push(*digit)?;
            let kept = without_last_zeros(alloc, others)?;
            let put = out.extend_from_slice(kept.items());
            drop(kept);
            put
        }
    }
}

fn without_last_zeros(alloc: Global, digits: &[u8]) -> Result<Bytes, NoMemory>
    ensures { IfOk result (λ kept. kept ≡ without_last_zeros digits.now) }
{
    match digits.split_first() {
        None => Ok(Seq::empty(alloc)),
        Some((digit, others)) => {
            let kept = without_last_zeros(alloc, others)?;
            let before = before_digits(alloc, *digit, kept.items());
            drop(kept);
            before
        }
    }
}

/// The digit in front of the others, but for a zero with none behind it.
fn before_digits(alloc: Global, digit: u8, others: &[u8]) -> Result<Bytes, NoMemory>
    ensures { IfOk result (λ digits. digits ≡ before_digits digit others.now) }
{
    let mut digits = Seq::empty(alloc);
    match put_before(digit, others, &mut digits) {
        Ok(()) => Ok(digits),
        Err(NoMemory) => {
            drop(digits);
            Err(NoMemory)
        }
    }
}

fn put_before(digit: u8, others: &[u8], out: &mut Bytes) -> Result<(), NoMemory>
    requires { out.old ≡ [] }
    ensures { OnOk result (out.new ≡ before_digits digit others.now) }
{
    if others.is_empty() && digit == b'0' {
        return Ok(());
    }
    out.push(digit)?;
    out.extend_from_slice(others)
}
