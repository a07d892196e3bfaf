//! What a response that is over answers.
ghost use Rattle.std.specs.Prelude.{◌≡◌, ◌≢◌, Err, codes, option_map};
ghost use Rattle.std.specs.List.{find};
ghost use Rattle.grpc_core.specs.Heads.{value_of, is_named, is_value};
ghost use Rattle.grpc_client.specs.Responses.{answer_of, by_head, or_head, by_code, natural_in, http_status, message_in};

use crate::fault::CallFault;
use crate::heard::Heard;
use base_lists::Bytes;
use h2_streams::of_4;
use hpack_block::Header;
use plain_texts::natural_of;
use std::alloc::Global;

const LARGEST_MESSAGE: usize = 4_194_304;

fn first_named<'a>(headers: &'a [Header], name: &[u8]) -> Option<&'a Header>
    ensures { option_map (λ header. header.now) result ≡ find (is_named name.now) headers.now }
{
    headers.iter().find(|header| header.name.items() == name)
}

/// The value of the first header of the name.
fn value_of<'a>(headers: &'a [Header], name: &[u8]) -> Option<&'a [u8]>
    ensures { option_map (λ value. value.now) result ≡ value_of name.now headers.now }
{
    match first_named(headers, name) {
        Some(header) => Some(header.value.items()),
        None => None,
    }
}

/// The one message that the octets of a response are.
fn message_in(alloc: Global, octets: &[u8]) -> Result<Bytes, CallFault>
    ensures { result ≢ Err CallFault.NoMemory → result ≡ message_in octets.now }
{
    let [flag, a, b, c, d, message @ ..] = octets else {
        return Err(CallFault::BadReply);
    };
    let size = of_4(*a, *b, *c, *d) as usize;
    if *flag == 0 && size == message.len() && message.len() <= LARGEST_MESSAGE {
        let message = Bytes::of(alloc, message)?;
        return Ok(message);
    }
    Err(CallFault::BadReply)
}

fn by_code(alloc: Global, code: Option<u64>, octets: &[u8]) -> Result<Bytes, CallFault>
    ensures { result ≢ Err CallFault.NoMemory → result ≡ by_code code octets.now }
{
    let Some(code) = code else {
        return Err(CallFault::NoStatus);
    };
    if code == 0 {
        return message_in(alloc, octets);
    }
    match u32::try_from(code) {
        Ok(code) => Err(CallFault::Refused(code)),
        Err(_) => Err(CallFault::NoStatus),
    }
}

fn natural_in(value: Option<&[u8]>) -> Option<u64>
    ensures { result ≡ natural_in (option_map (λ v. v.now) value.entry) }
{
    natural_of(value?)
}

fn http_status(value: Option<&[u8]>) -> u16
    ensures { result ≡ http_status (option_map (λ v. v.now) value.entry) }
{
    let Some([a, b, c]) = value else {
        return 0;
    };
    if !a.is_ascii_digit() || !b.is_ascii_digit() || !c.is_ascii_digit() {
        return 0;
    }
    u16::from(*a - b'0') * 100 + u16::from(*b - b'0') * 10 + u16::from(*c - b'0')
}

/// Whether the headers begin a response that is one of gRPC.
fn is_accepted(head: &[Header]) -> bool
    ensures { result ≡ is_value (codes "200") (value_of (codes ":status") head.now) }
{
    match value_of(head, b":status") {
        Some(status) => status == b"200".as_slice(),
        None => false,
    }
}

/// The headers that have the status of gRPC.
fn last_headers<'a>(heard: &'a Heard, head: &'a [Header]) -> &'a [Header]
    ensures { result.now ≡ or_head heard.now.trailers head.now }
{
    match &heard.trailers {
        Some(trailers) => trailers.items(),
        None => head,
    }
}

fn by_head(alloc: Global, head: &[Header], heard: &Heard) -> Result<Bytes, CallFault>
    ensures { result ≢ Err CallFault.NoMemory → result ≡ by_head head.now heard.now }
{
    if !is_accepted(head) {
        return Err(CallFault::Http(http_status(value_of(head, b":status"))));
    }
    let code = natural_in(value_of(last_headers(heard, head), b"grpc-status"));
    by_code(alloc, code, heard.octets.items())
}

/// What a call is answered whose response is over: its message, or why there is none.
pub(crate) fn answer_of(alloc: Global, heard: &Heard) -> Result<Bytes, CallFault>
    ensures { result ≢ Err CallFault.NoMemory → result ≡ answer_of heard.now }
{
    if let Some(code) = heard.reset {
        return Err(CallFault::Protocol(code));
    }
    let Some(head) = &heard.head else {
        return Err(CallFault::NoStatus);
    };
    by_head(alloc, head.items(), heard)
}
