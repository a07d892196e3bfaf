// Names, and the texts that they are.
ghost use Rattle.std.specs.Prelude.{◌≡◌, IfOk, IsUtf8};
ghost use Rattle.std.specs.List.{list_all, list_any};
ghost use Rattle.std.specs.Str.{bytes_eq};
ghost use Rattle.plain_texts.specs.Names.{begins_name, is_in_name, is_name, name_of};

use base_lists::{NoMemory, Text, TextOfFault};
use std::alloc::Global;

fn begins_name(octet: u8) -> bool
    ensures { result ≡ begins_name octet }
{
    octet.is_ascii_alphabetic() || octet == b'_'
}

/// Whether the octet may stand in a name: a letter of ASCII, a digit, `_`, `.` or `-`.
pub fn is_in_name(octet: u8) -> bool
    ensures { result ≡ is_in_name octet }
{
    begins_name(octet) || octet.is_ascii_digit() || octet == b'.' || octet == b'-'
}

fn all_in_name(octets: &[u8]) -> bool
    ensures { result ≡ list_all is_in_name octets.now }
{
    octets.iter().all(|octet| is_in_name(*octet))
}

/// Whether the octets are a name: a letter of ASCII or `_`, and up to 63 letters, digits, `_`, `.` or `-`.
pub fn is_name(octets: &[u8]) -> bool
    ensures { result ≡ is_name octets.now }
{
    match octets {
        [] => false,
        [first, others @ ..] => begins_name(*first) && all_in_name(others) && others.len() <= 63,
    }
}

/// The name that the octets are, as a text.
pub fn name_text(alloc: Global, octets: &[u8]) -> Result<Option<Text>, NoMemory>
    ensures { IfOk result (λ name. name ≡ name_of octets.now) }
{
    if !is_name(octets) {
        return Ok(None);
    }
    let name = text_of(alloc, octets)?;
    Ok(Some(name))
}

/// The octets as a text.
pub fn text_of(alloc: Global, octets: &[u8]) -> Result<Text, NoMemory>
    requires { IsUtf8 octets.now }
    ensures { IfOk result (λ text. text ≡ octets.now) }
{
    match Text::of(alloc, octets) {
        Ok(text) => Ok(text),
        Err(TextOfFault::NotUtf8) => unreachable!(),
        Err(TextOfFault::NoMemory) => Err(NoMemory),
    }
}

/// Whether these octets are one of the texts.
pub fn has_text(octets: &[u8], texts: &[Text]) -> bool
    ensures { result ≡ list_any (bytes_eq octets.now) texts.now }
{
    texts.iter().any(|text| octets == text.octets())
}
