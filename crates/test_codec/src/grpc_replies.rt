//! Headers of replies, as header blocks and one by one.
use base_kinds::Refusal;
use base_lists::{Bytes, NoMemory};
use grpc_core::{opening_headers, trailers_of};
use hpack_block::{Headers, encode_block};
use std::alloc::Global;
use std::test::Fail;

fn written(alloc: Global, headers: &Headers) -> Result<Bytes, NoMemory> {
    let mut out = Bytes::empty(alloc);
    for header in headers.items() {
        out.extend_from_slice(header.name.items())?;
        out.extend_from_slice(b": ")?;
        out.extend_from_slice(header.value.items())?;
        out.push(10)?;
    }
    Ok(out)
}

fn trailers(alloc: Global, refusal: Option<Refusal>) -> Result<Bytes, NoMemory> {
    let headers = trailers_of(alloc, refusal)?;
    written(alloc, &headers)
}

const TRAILERS: &[(Option<Refusal>, &[u8])] = &[
    (None, b"grpc-status: 0\n"),
    (
        Some(Refusal::TooLarge),
        b"grpc-status: 8\ngrpc-message: too large\n",
    ),
    (
        Some(Refusal::BadMessage),
        b"grpc-status: 13\ngrpc-message: bad message\n",
    ),
    (
        Some(Refusal::NoMemory),
        b"grpc-status: 10\ngrpc-message: no memory\n",
    ),
];

fn are_trailers(alloc: Global, refusal: Option<Refusal>, text: &[u8]) -> Result<bool, NoMemory> {
    Ok(trailers(alloc, refusal)?.items() == text)
}

#[test]
fn trailers_with_and_without_a_refusal(rt: HostRuntime) -> Result<(), Fail> {
    for (refusal, text) in TRAILERS {
        assert!(rt; are_trailers(rt.alloc(), *refusal, text)?);
    }
    Ok(())
}

fn are_written_as(alloc: Global, headers: &Headers, text: &[u8]) -> Result<bool, NoMemory> {
    Ok(written(alloc, headers)?.items() == text)
}

#[test]
fn headers_before_the_first_message(rt: HostRuntime) -> Result<(), Fail> {
    let text = b":status: 200\ncontent-type: application/grpc\n";
    assert!(rt; are_written_as(rt.alloc(), &opening_headers(rt.alloc())?, text)?);
    Ok(())
}

fn opening_block(alloc: Global) -> Result<Bytes, NoMemory> {
    let mut block = Bytes::empty(alloc);
    encode_block(&opening_headers(alloc)?, &mut block)?;
    Ok(block)
}

fn closing_block(alloc: Global) -> Result<Bytes, NoMemory> {
    let mut block = Bytes::empty(alloc);
    encode_block(&trailers_of(alloc, None)?, &mut block)?;
    Ok(block)
}

#[test]
fn header_blocks_of_a_reply(rt: HostRuntime) -> Result<(), Fail> {
    let opening = b"\x88\x0f\x10\x10application/grpc";
    assert!(rt; opening_block(rt.alloc())?.items() == opening.as_slice());
    let closing = b"\x00\x0bgrpc-status\x010";
    assert!(rt; closing_block(rt.alloc())?.items() == closing.as_slice());
    Ok(())
}
