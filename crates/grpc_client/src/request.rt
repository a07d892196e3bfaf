//! What begins a connection and a call on it.
ghost use Rattle.std.specs.Prelude.{◌≡◌, ◌≤◌, ◌++◌, length, IfOk, OnOk};
ghost use Rattle.hpack_block.specs.Written.{block_of};
ghost use Rattle.h2_windows.specs.Written.{spelled, octets_of};
ghost use Rattle.grpc_client.specs.inner.Openings.{beginning};
ghost use Rattle.grpc_client.specs.Requests.{preface, client_settings, request_headers, update_owed, block_frame, opening_frames, opening_octets};

use base_lists::{Bytes, NoMemory};
use grpc_core::Method;
use h2_frame::{END_HEADERS, HEADERS, Head, head_octets};
use hpack_block::{Headers, encode_block, header_of};
use std::alloc::Global;

/// An update of the table's maximum size to 0 (RFC 7541 section 6.3).
const SIZE_UPDATE: u8 = 0x20;

/// SETTINGS with ENABLE_PUSH 0 and MAX_HEADER_LIST_SIZE 16,384 (RFC 9113 section 6.5.2).
const SETTINGS: [u8; 21] = [
    0, 0, 12, 4, 0, 0, 0, 0, 0, 0, 2, 0, 0, 0, 0, 0, 6, 0, 0, 64, 0,
];

fn preface() -> &'static [u8]
    ensures { result.now ≡ preface }
{
    b"PRI * HTTP/2.0\r\n\r\nSM\r\n\r\n"
}

fn settings() -> [u8; 21]
    ensures { result ≡ spelled client_settings }
{
    SETTINGS
}

fn request_headers(alloc: Global, authority: &[u8], method: Method) -> Result<Headers, NoMemory>
    ensures { IfOk result (λ headers. headers ≡ request_headers authority.now method) }
{
    let mut headers = Headers::empty(alloc);
    headers.push(header_of(alloc, b":method", b"POST")?)?;
    headers.push(header_of(alloc, b":scheme", b"http")?)?;
    headers.push(header_of(alloc, b":path", method.path())?)?;
    headers.push(header_of(alloc, b":authority", authority)?)?;
    headers.push(header_of(alloc, b"content-type", b"application/grpc")?)?;
    headers.push(header_of(alloc, b"te", b"trailers")?)?;
    Ok(headers)
}

/// A block to which headers are added.
fn new_block(alloc: Global, owes_update: bool) -> Result<Bytes, NoMemory>
    ensures { IfOk result (λ block. block ≡ update_owed owes_update) }
{
    let mut block = Bytes::empty(alloc);
    if owes_update {
        block.push(SIZE_UPDATE)?;
    }
    Ok(block)
}

/// The header block of a call, behind an update of the table's size where one is owed.
fn request_block(
    alloc: Global,
    owes_update: bool,
    authority: &[u8],
    method: Method,
) -> Result<Bytes, NoMemory>
    requires { length authority.now ≤ 1000 }
    ensures is { IfOk result
        (λ block. block ≡ update_owed owes_update ++ block_of (request_headers authority.now method)) }
    ensures small { IfOk result (λ block. length block ≤ 16384) }
{
    let headers = request_headers(alloc, authority, method)?;
    let mut block = new_block(alloc, owes_update)?;
    encode_block(&headers, &mut block)?;
    Ok(block)
}

fn add_headers(stream: u32, block: &Bytes, out: &mut Bytes) -> Result<(), NoMemory>
    requires { length block.now ≤ 16384 }
    ensures { OnOk result (out.new ≡ out.old ++ spelled (block_frame stream block.now)) }
{
    let head = Head {
        length: block.len() as u32,
        kind: HEADERS,
        flags: END_HEADERS,
        stream,
    };
    out.extend_from_slice(&head_octets(&head))?;
    out.extend_from_slice(block.items())
}

/// What goes before the frames of the first call.
fn beginning(alloc: Global, begun: bool) -> Result<Bytes, NoMemory>
    ensures { IfOk result (λ octets. octets ≡ beginning begun) }
{
    let mut octets = Bytes::empty(alloc);
    if !begun {
        octets.extend_from_slice(preface())?;
        octets.extend_from_slice(&settings())?;
    }
    Ok(octets)
}

/// The octets that open a call's stream: its HEADERS, and before the first call's the preface and SETTINGS. `owes_update` says
/// whether SETTINGS with HEADER_TABLE_SIZE came since the last header block. The authority has at most 1,000 octets.
pub(crate) fn opening(
    alloc: Global,
    begun: bool,
    owes_update: bool,
    stream: u32,
    authority: &[u8],
    method: Method,
) -> Result<Bytes, NoMemory>
    requires { length authority.now ≤ 1000 }
    ensures { IfOk result (λ octets. octets ≡ opening_octets begun
        ++ octets_of (opening_frames begun owes_update stream authority.now method)) }
{
    let block = request_block(alloc, owes_update, authority, method)?;
    let mut octets = beginning(alloc, begun)?;
    add_headers(stream, &block, &mut octets)?;
    Ok(octets)
}
