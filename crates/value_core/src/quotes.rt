// Texts between quotes.
ghost use Rattle.std.specs.Prelude.{◌≡◌, ◌<◌, ◌++◌, OnOk};
ghost use Rattle.base_kinds.specs.Texts.{hex_digit as hex_glyph, is_quoted_octet as quotable, octet_text, escaped, quoted};

use base_kinds::{Bytes, NoMemory};

/// Whether the octet stands for itself: from space to `~`, but neither `"` nor `\`.
fn is_quotable(octet: u8) -> bool
    ensures { result ≡ quotable octet }
{
    b' ' <= octet && octet <= b'~' && octet != b'"' && octet != b'\\'
}

fn hex_digit(digit: u8) -> u8
    requires { digit < 16 }
    ensures { result ≡ hex_glyph digit }
{
    if digit < 10 {
        b'0' + digit
    } else {
        b'a' + (digit - 10)
    }
}

fn put_octet(octet: u8, out: &mut Bytes) -> Result<(), NoMemory>
    ensures { OnOk result (out.new ≡ out.old ++ octet_text quotable octet) }
{
    if is_quotable(octet) {
        return out.extend_from_slice(&[octet]);
    }
    out.extend_from_slice(&[b'\\', hex_digit(octet / 16), hex_digit(octet % 16)])
}

fn put_escaped(octets: &[u8], out: &mut Bytes) -> Result<(), NoMemory>
    ensures { OnOk result (out.new ≡ out.old ++ escaped quotable octets.now) }
{
    for octet in octets {
        put_octet(*octet, out)?;
    }
    Ok(())
}

/// Adds the octets between two `"`, those that don't stand for themselves as `\` and two hexadecimal digits.
pub(crate) fn put_quoted(octets: &[u8], out: &mut Bytes) -> Result<(), NoMemory>
    ensures { OnOk result (out.new ≡ out.old ++ quoted octets.now) }
{
    out.extend_from_slice(b"\"")?;
    put_escaped(octets, out)?;
    out.extend_from_slice(b"\"")
}
