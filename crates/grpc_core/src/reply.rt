ghost use Rattle.std.specs.Prelude.{◌≡◌, IfOk};
ghost use Rattle.grpc_core.specs.Replies.{opening_headers, trailers};

use base_kinds::Refusal;
use base_lists::NoMemory;
use hpack_block::{Headers, header_of};
use std::alloc::Global;

/// The headers before a reply's first message.
pub fn opening_headers(alloc: Global) -> Result<Headers, NoMemory>
    ensures { IfOk result (λ headers. headers ≡ opening_headers) }
{
    let mut headers = Headers::empty(alloc);
    headers.push(header_of(alloc, b":status", b"200")?)?;
    headers.push(header_of(alloc, b"content-type", b"application/grpc")?)?;
    Ok(headers)
}

/// The headers behind a reply's last message: `grpc-status` 0, or a refusal's code in decimal and its text as
/// `grpc-message`.
pub fn trailers_of(alloc: Global, refusal: Option<Refusal>) -> Result<Headers, NoMemory>
    ensures { IfOk result (λ headers. headers ≡ trailers refusal) }
{
    let mut headers = Headers::empty(alloc);
    match refusal {
        None => headers.push(header_of(alloc, b"grpc-status", b"0")?)?,
        Some(refusal) => {
            let code = format!(in alloc; "{}", refusal.code())?;
            headers.push(header_of(alloc, b"grpc-status", code.as_bytes())?)?;
            // No octet of a refusal's text has to be percent-encoded.
            headers.push(header_of(alloc, b"grpc-message", refusal.text())?)?;
        }
    }
    Ok(headers)
}
