ghost use Rattle.std.specs.Prelude.{◌≡◌, codes, option_map};
ghost use Rattle.std.specs.List.{find};
ghost use Rattle.grpc_core.specs.Heads.{head_of, value_of, is_named, of_path};

use crate::method::Method;
use base_kinds::Refusal;
use hpack_block::{Header, Headers};

/// What the head of a call asks for.
#[derive(Clone, Copy, Debug, PartialEq, Eq)]
pub enum CallHead {
    Call(Method),
    /// No call: it is answered with this HTTP status alone.
    Http(u16),
    Refused(Refusal),
}

/// Which call the headers ask for. Takes no memory.
///
/// Another `:method` than POST is answered with 405, then a `content-type` that doesn't begin with `application/grpc` with
/// 415, and then a `:path` of no method is refused.
pub fn head_of(headers: &Headers) -> CallHead
    ensures { result ≡ head_of headers.now }
{
    let headers = headers.items();
    if value_of(headers, b":method") != Some(b"POST".as_slice()) {
        return CallHead::Http(405);
    }
    let is_grpc = value_of(headers, b"content-type").is_some_and(|value| value.starts_with(
        b"application/grpc",
    ));
    if !is_grpc {
        return CallHead::Http(415);
    }
    method_of(headers)
}

/// The method that the headers call, where they are a call of gRPC.
fn method_of(headers: &[Header]) -> CallHead
    ensures { result ≡ of_path (value_of (codes ":path") headers.now) }
{
    let Some(path) = value_of(headers, b":path") else {
        return CallHead::Refused(Refusal::NoMethod);
    };
    match Method::at(path) {
        Some(method) => CallHead::Call(method),
        None => CallHead::Refused(Refusal::NoMethod),
    }
}

/// The value of the first header of the name.
fn value_of<'a>(headers: &'a [Header], name: &[u8]) -> Option<&'a [u8]>
    ensures { option_map (λ value. value.now) result ≡ value_of name.now headers.now }
{
    match first_named(headers, name) {
        Some(header) => Some(header.value.items()),
        None => None,
    }
}

fn first_named<'a>(headers: &'a [Header], name: &[u8]) -> Option<&'a Header>
    ensures { option_map (λ header. header.now) result ≡ find (is_named name.now) headers.now }
{
    headers.iter().find(|header| header.name.items() == name)
}
