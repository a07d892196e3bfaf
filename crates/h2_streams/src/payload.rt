ghost use Rattle.std.specs.Prelude.{◌≡◌, IfOk, IfErr, Ok, Err};
ghost use Rattle.h2_streams.specs.Payloads.{between, content};

use h2_frame::{FRAME_SIZE_ERROR, PADDED, PROTOCOL_ERROR};

// What follows octets of priority, without so many octets of padding at its end.
fn between(skipped: usize, padding: u8, octets: &[u8]) -> Result<&[u8], u32>
    ensures ok { IfOk result (λ inside. between skipped padding octets.now ≡ Ok inside.now) }
    ensures err { IfErr result (λ code. between skipped padding octets.now ≡ Err code) }
{
    if octets.len() < skipped {
        return Err(FRAME_SIZE_ERROR);
    }
    let room = octets.len() - skipped;
    if room < usize::from(padding) {
        return Err(PROTOCOL_ERROR);
    }
    let behind = &octets[skipped..];
    Ok(&behind[..room - usize::from(padding)])
}

/// The payload of DATA or HEADERS without its padding and `skipped` octets of priority (RFC 9113 sections 6.1 and 6.2). An
/// `Err` has the code of a connection error.
pub fn content(skipped: usize, flags: u8, payload: &[u8]) -> Result<&[u8], u32>
    ensures ok { IfOk result (λ inside. content skipped flags payload.now ≡ Ok inside.now) }
    ensures err { IfErr result (λ code. content skipped flags payload.now ≡ Err code) }
{
    if flags & PADDED == 0 {
        return between(skipped, 0, payload);
    }
    match payload.split_first() {
        None => Err(FRAME_SIZE_ERROR),
        Some((padding, octets)) => between(skipped, *padding, octets),
    }
}
