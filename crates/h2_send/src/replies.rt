ghost use Rattle.std.specs.Prelude.{◌≡◌, IfOk, [], ◌∷◌};
ghost use Rattle.h2_windows.specs.Written.{octets_of};
ghost use Rattle.grpc_core.specs.Replies.{opening_headers, trailers};
ghost use Rattle.h2_send.specs.Headers.{opening, ending, status_headers, status_answer};
ghost use Rattle.h2_send.specs.inner.Sizes.{IsSmall};

use crate::reply_block::add_headers;
use base_kinds::Refusal;
use base_lists::{Bytes, NoMemory};
use grpc_core::{opening_headers, trailers_of};
use h2_frame::{END_HEADERS, END_STREAM};
use hpack_block::{Header, Headers};
use std::alloc::Global;

/// Of the last HEADERS of a stream.
const LAST: u8 = END_HEADERS | END_STREAM;

fn first_headers(alloc: Global) -> Result<Headers, NoMemory>
    ensures is { IfOk result (λ headers. headers ≡ opening_headers) }
    ensures small { IfOk result IsSmall }
{
    opening_headers(alloc)
}

fn last_headers(alloc: Global, refusal: Option<Refusal>) -> Result<Headers, NoMemory>
    ensures is { IfOk result (λ headers. headers ≡ trailers refusal) }
    ensures small { IfOk result IsSmall }
{
    trailers_of(alloc, refusal)
}

fn no_headers(alloc: Global) -> Headers
    ensures is { result ≡ [] }
    ensures small { IsSmall result }
{
    Headers::empty(alloc)
}

fn status_headers(alloc: Global, status: u16) -> Result<Headers, NoMemory>
    ensures is { IfOk result (λ headers. headers ≡ status_headers status) }
    ensures small { IfOk result IsSmall }
{
    let mut headers = Headers::empty(alloc);
    let name = Bytes::of(alloc, b":status")?;
    let digits = format!(in alloc; "{}", status)?;
    let value = Bytes::of(alloc, digits.as_bytes())?;
    headers.push(Header { name, value })?;
    Ok(headers)
}

/// The octets before the first message of a stream: its HEADERS, unless the stream has begun. `owes_update` says whether a
/// SETTINGS frame with HEADER_TABLE_SIZE was acknowledged since the last header block.
pub fn opening(
    alloc: Global,
    begun: bool,
    owes_update: bool,
    stream: u32,
) -> Result<Bytes, NoMemory>
    ensures { IfOk result (λ octets. octets ≡ octets_of (opening begun owes_update stream)) }
{
    let mut octets = Bytes::empty(alloc);
    if begun {
        return Ok(octets);
    }
    let headers = first_headers(alloc)?;
    let none = no_headers(alloc);
    add_headers(
        alloc,
        owes_update,
        stream,
        END_HEADERS,
        &headers,
        &none,
        &mut octets,
    )?;
    Ok(octets)
}

/// The octets that end a stream: its trailers, behind the HEADERS where the stream hasn't begun. There a refusal is in the
/// same frame as they are ("Trailers-Only").
pub fn ending(
    alloc: Global,
    begun: bool,
    owes_update: bool,
    stream: u32,
    refusal: Option<Refusal>,
) -> Result<Bytes, NoMemory>
    ensures { IfOk result (λ octets. octets ≡ octets_of (ending begun owes_update stream refusal)) }
{
    let trailers = last_headers(alloc, refusal)?;
    let none = no_headers(alloc);
    let mut octets = Bytes::empty(alloc);
    if begun {
        add_headers(
            alloc,
            owes_update,
            stream,
            LAST,
            &trailers,
            &none,
            &mut octets,
        )?;
        return Ok(octets);
    }
    let headers = first_headers(alloc)?;
    if refusal.is_some() {
        add_headers(
            alloc,
            owes_update,
            stream,
            LAST,
            &headers,
            &trailers,
            &mut octets,
        )?;
    } else {
        add_headers(
            alloc,
            owes_update,
            stream,
            END_HEADERS,
            &headers,
            &none,
            &mut octets,
        )?;
        add_headers(alloc, false, stream, LAST, &trailers, &none, &mut octets)?;
    }
    Ok(octets)
}

/// The octets of a status of HTTP in place of an answer: one HEADERS frame with the status alone, which ends the stream.
pub fn status_answer(
    alloc: Global,
    owes_update: bool,
    stream: u32,
    status: u16,
) -> Result<Bytes, NoMemory>
    ensures { IfOk result (λ octets. octets ≡ octets_of (status_answer owes_update stream status)) }
{
    let headers = status_headers(alloc, status)?;
    let none = no_headers(alloc);
    let mut octets = Bytes::empty(alloc);
    add_headers(
        alloc,
        owes_update,
        stream,
        LAST,
        &headers,
        &none,
        &mut octets,
    )?;
    Ok(octets)
}
