//! Blocks that are read one after the other through one table: those of the RFC, of another library and of a real client.
use base_lists::{Bytes, Copied, NoMemory};
use hpack_block::{Decoder, Headers};
use std::alloc::Global;
use std::process::Abort;

/// A block, what it gives, and how many entries the table has afterwards, and of what size.
struct Step<'a> {
    block: &'a [u8],
    headers: &'a [u8],
    count: usize,
    size: usize,
}

/// NAME=VALUE, with | between headers.
fn shown(alloc: Global, headers: &Headers) -> Result<Bytes, NoMemory> {
    let mut text = Bytes::empty(alloc);
    for header in headers.items() {
        if !text.is_empty() {
            text.push(b'|')?;
        }
        text.extend_from_slice(header.name.items())?;
        text.push(b'=')?;
        text.extend_from_slice(header.value.items())?;
    }
    Ok(text)
}

fn are_shown_as(alloc: Global, headers: &Headers, text: &[u8]) -> bool {
    match shown(alloc, headers) {
        Ok(shown) => shown.items() == text,
        Err(NoMemory) => false,
    }
}

/// Whether a copy of the headers is shown as this text.
fn copy_is_shown_as(alloc: Global, headers: &Headers, text: &[u8]) -> bool {
    match headers.copy(alloc) {
        Ok(copy) => are_shown_as(alloc, &copy, text),
        Err(NoMemory) => false,
    }
}

/// Whether the block gives headers that are shown as this text.
fn gives(decoder: &mut Decoder, alloc: Global, block: &[u8], text: &[u8]) -> bool {
    match decoder.block(alloc, block) {
        Ok(headers) => copy_is_shown_as(alloc, &headers, text),
        Err(_) => false,
    }
}

fn is_read(decoder: &mut Decoder, alloc: Global, step: &Step<'_>) -> bool {
    gives(decoder, alloc, step.block, step.headers)
        && decoder.table_entries() == step.count
        && decoder.table_size() == step.size
}

/// The place of the first of the steps that isn't read as it says.
fn first_misread(decoder: &mut Decoder, alloc: Global, steps: &[Step<'_>]) -> Option<usize> {
    let mut place: usize = 0;
    for step in steps {
        if !is_read(decoder, alloc, step) {
            return Some(place);
        }
        place = place.saturating_add(1);
    }
    None
}

/// The place of the first of the steps that a decoder with an empty table doesn't read as it says.
fn misread(alloc: Global, steps: &[Step<'_>]) -> Option<usize> {
    first_misread(&mut Decoder::make(alloc), alloc, steps)
}

/// Ends the test at the first of the steps that isn't read as it says.
fn assert_read(rt: &impl Abort, alloc: Global, steps: &[Step<'_>]) {
    assert_eq!(rt; misread(alloc, steps), None);
}

/// RFC 7541, appendices C.2.2 to C.2.4.
const LITERALS: &[Step<'static>] = &[
    Step {
        block: b"\x04\x0c\x2f\x73\x61\x6d\x70\x6c\x65\x2f\x70\x61\x74\x68",
        headers: b":path=/sample/path",
        count: 0,
        size: 0,
    },
    Step {
        block: b"\x10\x08\x70\x61\x73\x73\x77\x6f\x72\x64\x06\x73\x65\x63\x72\x65\x74",
        headers: b"password=secret",
        count: 0,
        size: 0,
    },
    Step {
        block: b"\x82",
        headers: b":method=GET",
        count: 0,
        size: 0,
    },
];

#[test]
fn reads_literals_and_an_index_of_the_rfc(rt: HostRuntime) {
    assert_read(&rt, rt.alloc(), LITERALS);
}

/// RFC 7541, appendix C.2.1.
const ADDED_LITERAL: &[Step<'static>] = &[Step {
    block: b"\x40\x0a\x63\x75\x73\x74\x6f\x6d\x2d\x6b\x65\x79\x0d\x63\x75\x73\x74\x6f\x6d\x2d\x68\x65\x61\x64\x65\x72",
    headers: b"custom-key=custom-header",
    count: 1,
    size: 55,
}];

#[test]
fn reads_an_added_literal_of_the_rfc(rt: HostRuntime) {
    assert_read(&rt, rt.alloc(), ADDED_LITERAL);
}

/// RFC 7541, appendix C.3.
const REQUESTS: &[Step<'static>] = &[
    Step {
        block: b"\x82\x86\x84\x41\x0f\x77\x77\x77\x2e\x65\x78\x61\x6d\x70\x6c\x65\x2e\x63\x6f\x6d",
        headers: b":method=GET|:scheme=http|:path=/|:authority=www.example.com",
        count: 1,
        size: 57,
    },
    Step {
        block: b"\x82\x86\x84\xbe\x58\x08\x6e\x6f\x2d\x63\x61\x63\x68\x65",
        headers: b":method=GET|:scheme=http|:path=/|:authority=www.example.com|cache-control=no-cache",
        count: 2,
        size: 110,
    },
    Step {
        block: b"\x82\x87\x85\xbf\x40\x0a\x63\x75\x73\x74\x6f\x6d\x2d\x6b\x65\x79\x0c\x63\x75\x73\x74\x6f\x6d\x2d\x76\x61\x6c\x75\x65",
        headers: b":method=GET|:scheme=https|:path=/index.html|:authority=www.example.com|custom-key=custom-value",
        count: 3,
        size: 164,
    },
];

#[test]
fn reads_requests_of_the_rfc(rt: HostRuntime) {
    assert_read(&rt, rt.alloc(), REQUESTS);
}

/// RFC 7541, appendix C.4.
const CODED_REQUESTS: &[Step<'static>] = &[
    Step {
        block: b"\x82\x86\x84\x41\x8c\xf1\xe3\xc2\xe5\xf2\x3a\x6b\xa0\xab\x90\xf4\xff",
        headers: b":method=GET|:scheme=http|:path=/|:authority=www.example.com",
        count: 1,
        size: 57,
    },
    Step {
        block: b"\x82\x86\x84\xbe\x58\x86\xa8\xeb\x10\x64\x9c\xbf",
        headers: b":method=GET|:scheme=http|:path=/|:authority=www.example.com|cache-control=no-cache",
        count: 2,
        size: 110,
    },
    Step {
        block: b"\x82\x87\x85\xbf\x40\x88\x25\xa8\x49\xe9\x5b\xa9\x7d\x7f\x89\x25\xa8\x49\xe9\x5b\xb8\xe8\xb4\xbf",
        headers: b":method=GET|:scheme=https|:path=/index.html|:authority=www.example.com|custom-key=custom-value",
        count: 3,
        size: 164,
    },
];

#[test]
fn reads_requests_of_the_rfc_in_huffman_code(rt: HostRuntime) {
    assert_read(&rt, rt.alloc(), CODED_REQUESTS);
}

/// RFC 7541, appendix C.5, where the table's maximum size is 256.
const RESPONSES: &[Step<'static>] = &[
    Step {
        block: b"\x3f\xe1\x01\x48\x03\x33\x30\x32\x58\x07\x70\x72\x69\x76\x61\x74\x65\x61\x1d\x4d\x6f\x6e\x2c\x20\x32\x31\x20\x4f\x63\x74\x20\x32\x30\x31\x33\x20\x32\x30\x3a\x31\x33\x3a\x32\x31\x20\x47\x4d\x54\x6e\x17\x68\x74\x74\x70\x73\x3a\x2f\x2f\x77\x77\x77\x2e\x65\x78\x61\x6d\x70\x6c\x65\x2e\x63\x6f\x6d",
        headers: b":status=302|cache-control=private|date=Mon, 21 Oct 2013 20:13:21 GMT|location=https://www.example.com",
        count: 4,
        size: 222,
    },
    Step {
        block: b"\x48\x03\x33\x30\x37\xc1\xc0\xbf",
        headers: b":status=307|cache-control=private|date=Mon, 21 Oct 2013 20:13:21 GMT|location=https://www.example.com",
        count: 4,
        size: 222,
    },
    Step {
        block: b"\x88\xc1\x61\x1d\x4d\x6f\x6e\x2c\x20\x32\x31\x20\x4f\x63\x74\x20\x32\x30\x31\x33\x20\x32\x30\x3a\x31\x33\x3a\x32\x32\x20\x47\x4d\x54\xc0\x5a\x04\x67\x7a\x69\x70\x77\x38\x66\x6f\x6f\x3d\x41\x53\x44\x4a\x4b\x48\x51\x4b\x42\x5a\x58\x4f\x51\x57\x45\x4f\x50\x49\x55\x41\x58\x51\x57\x45\x4f\x49\x55\x3b\x20\x6d\x61\x78\x2d\x61\x67\x65\x3d\x33\x36\x30\x30\x3b\x20\x76\x65\x72\x73\x69\x6f\x6e\x3d\x31",
        headers: b":status=200|cache-control=private|date=Mon, 21 Oct 2013 20:13:22 GMT|location=https://www.example.com|content-encoding=gzip|set-cookie=foo=ASDJKHQKBZXOQWEOPIUAXQWEOIU; max-age=3600; version=1",
        count: 3,
        size: 215,
    },
];

#[test]
fn reads_responses_of_the_rfc_and_evicts(rt: HostRuntime) {
    assert_read(&rt, rt.alloc(), RESPONSES);
}

/// RFC 7541, appendix C.6.
const CODED_RESPONSES: &[Step<'static>] = &[
    Step {
        block: b"\x3f\xe1\x01\x48\x82\x64\x02\x58\x85\xae\xc3\x77\x1a\x4b\x61\x96\xd0\x7a\xbe\x94\x10\x54\xd4\x44\xa8\x20\x05\x95\x04\x0b\x81\x66\xe0\x82\xa6\x2d\x1b\xff\x6e\x91\x9d\x29\xad\x17\x18\x63\xc7\x8f\x0b\x97\xc8\xe9\xae\x82\xae\x43\xd3",
        headers: b":status=302|cache-control=private|date=Mon, 21 Oct 2013 20:13:21 GMT|location=https://www.example.com",
        count: 4,
        size: 222,
    },
    Step {
        block: b"\x48\x83\x64\x0e\xff\xc1\xc0\xbf",
        headers: b":status=307|cache-control=private|date=Mon, 21 Oct 2013 20:13:21 GMT|location=https://www.example.com",
        count: 4,
        size: 222,
    },
    Step {
        block: b"\x88\xc1\x61\x96\xd0\x7a\xbe\x94\x10\x54\xd4\x44\xa8\x20\x05\x95\x04\x0b\x81\x66\xe0\x84\xa6\x2d\x1b\xff\xc0\x5a\x83\x9b\xd9\xab\x77\xad\x94\xe7\x82\x1d\xd7\xf2\xe6\xc7\xb3\x35\xdf\xdf\xcd\x5b\x39\x60\xd5\xaf\x27\x08\x7f\x36\x72\xc1\xab\x27\x0f\xb5\x29\x1f\x95\x87\x31\x60\x65\xc0\x03\xed\x4e\xe5\xb1\x06\x3d\x50\x07",
        headers: b":status=200|cache-control=private|date=Mon, 21 Oct 2013 20:13:22 GMT|location=https://www.example.com|content-encoding=gzip|set-cookie=foo=ASDJKHQKBZXOQWEOPIUAXQWEOIU; max-age=3600; version=1",
        count: 3,
        size: 215,
    },
];

#[test]
fn reads_responses_of_the_rfc_in_huffman_code(rt: HostRuntime) {
    assert_read(&rt, rt.alloc(), CODED_RESPONSES);
}

/// Made by python-hpack: sequence 2 of its blocks through one table.
const OF_ANOTHER_LIBRARY_2: &[Step<'static>] = &[
    Step {
        block: b"\x42\x0e\x69\x78\x31\x79\x72\x78\x71\x79\x72\x2d\x5a\x33\x32\x6d\x40\x03\x78\x2d\x62\x0e\x2f\x67\x6e\x6d\x69\x2e\x67\x4e\x4d\x49\x2f\x53\x65\x74\x46\x03\x34\x30\x34\xc0",
        headers: b":method=ix1yrxqyr-Z32m|x-b=/gnmi.gNMI/Set|:scheme=404|:method=ix1yrxqyr-Z32m",
        count: 3,
        size: 144,
    },
    Step {
        block: b"\x40\x09\x74\x72\x61\x63\x65\x2d\x62\x69\x6e\x03\x34\x30\x34\x7d\x09\x2e\x2d\x35\x2e\x38\x78\x39\x73\x73\x61\x0b\x2f\x69\x6e\x64\x65\x78\x2e\x68\x74\x6d\x6c",
        headers: b"trace-bin=404|www-authenticate=.-5.8x9ss|date=/index.html",
        count: 6,
        size: 292,
    },
    Step {
        block: b"\x5f\x81\x63\xbe\xc3\xbe\x7a\x8a\xa0\xe4\x1d\x13\x9d\x09\xb8\xfb\x2c\xbf",
        headers: b"content-type=/|content-type=/|x-b=/gnmi.gNMI/Set|content-type=/|user-agent=localhost:9339",
        count: 8,
        size: 393,
    },
    Step {
        block: b"\xc5",
        headers: b":method=ix1yrxqyr-Z32m",
        count: 8,
        size: 393,
    },
    Step {
        block: b"\xbe\xc3\xc3\x50\x8b\x62\x6a\xa9\x32\xf3\x69\xd1\x91\x8c\x45\x4f\x7f\x06\x8a\xa0\xe4\x1d\x13\x9d\x09\xb8\xfb\x2c\xbf",
        headers: b"user-agent=localhost:9339|:scheme=404|:scheme=404|accept-encoding=/gnmi.gNMI/Get|x-b=localhost:9339",
        count: 10,
        size: 503,
    },
];

#[test]
fn reads_what_another_library_wrote_2(rt: HostRuntime) {
    assert_read(&rt, rt.alloc(), OF_ANOTHER_LIBRARY_2);
}

/// Made by python-hpack: sequence 8 of its blocks through one table.
const OF_ANOTHER_LIBRARY_8: &[Step<'static>] = &[
    Step {
        block: b"\x7d\x17\x69\x64\x65\x6e\x74\x69\x74\x79\x2c\x20\x64\x65\x66\x6c\x61\x74\x65\x2c\x20\x67\x7a\x69\x70\x7d\x14\x31\x30\x6f\x65\x20\x78\x70\x67\x41\x32\x6a\x74\x41\x74\x66\x32\x43\x6d\x73\x33\x7a\x03\x47\x45\x54",
        headers: b"www-authenticate=identity, deflate, gzip|www-authenticate=10oe xpgA2jtAtf2Cms3|user-agent=GET",
        count: 3,
        size: 184,
    },
    Step {
        block: b"\xbf\x44\x84\x9d\x29\xad\x1f\x1f\x08\x85\x41\x49\x61\x52\xdf",
        headers: b"www-authenticate=10oe xpgA2jtAtf2Cms3|:path=https|authorization=secret5",
        count: 4,
        size: 226,
    },
    Step {
        block: b"\x57\x04\x50\x4f\x53\x54\x57\x02\x6d\x39\x40\x02\x74\x65\x00\xc2",
        headers: b"authorization=POST|authorization=m9|te=|user-agent=GET",
        count: 7,
        size: 356,
    },
    Step {
        block: b"\xc0\x7e\x80\x40\x87\x4d\x83\x21\x56\x8c\xd5\x7f\x83\x08\x01\x4f\x57\x83\x90\x7e\xbf\x1f\x08\x85\x41\x49\x61\x52\x2f",
        headers: b"authorization=POST|te=|trace-bin=100m|authorization=day|authorization=secret2",
        count: 10,
        size: 483,
    },
    Step {
        block: b"\xc5\x1f\x08\x85\x41\x49\x61\x52\xcf",
        headers: b"user-agent=GET|authorization=secret3",
        count: 10,
        size: 483,
    },
];

#[test]
fn reads_what_another_library_wrote_8(rt: HostRuntime) {
    assert_read(&rt, rt.alloc(), OF_ANOTHER_LIBRARY_8);
}

/// Made by grpcio 1.51.1: what three calls of one connection begin with.
const OF_A_REAL_CLIENT: &[Step<'static>] = &[
    Step {
        block: b"\x40\x05\x3a\x70\x61\x74\x68\x0e\x2f\x67\x6e\x6d\x69\x2e\x67\x4e\x4d\x49\x2f\x53\x65\x74\x40\x0a\x3a\x61\x75\x74\x68\x6f\x72\x69\x74\x79\x0f\x31\x32\x37\x2e\x30\x2e\x30\x2e\x31\x3a\x35\x35\x34\x39\x35\x83\x86\x40\x0c\x63\x6f\x6e\x74\x65\x6e\x74\x2d\x74\x79\x70\x65\x10\x61\x70\x70\x6c\x69\x63\x61\x74\x69\x6f\x6e\x2f\x67\x72\x70\x63\x40\x02\x74\x65\x08\x74\x72\x61\x69\x6c\x65\x72\x73\x40\x14\x67\x72\x70\x63\x2d\x61\x63\x63\x65\x70\x74\x2d\x65\x6e\x63\x6f\x64\x69\x6e\x67\x17\x69\x64\x65\x6e\x74\x69\x74\x79\x2c\x20\x64\x65\x66\x6c\x61\x74\x65\x2c\x20\x67\x7a\x69\x70\x40\x0c\x67\x72\x70\x63\x2d\x74\x69\x6d\x65\x6f\x75\x74\x02\x35\x53\x40\x0a\x75\x73\x65\x72\x2d\x61\x67\x65\x6e\x74\x30\x67\x72\x70\x63\x2d\x70\x79\x74\x68\x6f\x6e\x2f\x31\x2e\x35\x31\x2e\x31\x20\x67\x72\x70\x63\x2d\x63\x2f\x32\x39\x2e\x30\x2e\x30\x20\x28\x6c\x69\x6e\x75\x78\x3b\x20\x63\x68\x74\x74\x70\x32\x29",
        headers: b":path=/gnmi.gNMI/Set|:authority=127.0.0.1:55495|:method=POST|:scheme=http|content-type=application/grpc|te=trailers|grpc-accept-encoding=identity, deflate, gzip|grpc-timeout=5S|user-agent=grpc-python/1.51.1 grpc-c/29.0.0 (linux; chttp2)",
        count: 7,
        size: 421,
    },
    Step {
        block: b"\xc4\xc3\x83\x86\xc2\xc1\xc0\x40\x0c\x67\x72\x70\x63\x2d\x74\x69\x6d\x65\x6f\x75\x74\x05\x35\x30\x31\x30\x6d\xbf",
        headers: b":path=/gnmi.gNMI/Set|:authority=127.0.0.1:55495|:method=POST|:scheme=http|content-type=application/grpc|te=trailers|grpc-accept-encoding=identity, deflate, gzip|grpc-timeout=5010m|user-agent=grpc-python/1.51.1 grpc-c/29.0.0 (linux; chttp2)",
        count: 8,
        size: 470,
    },
    Step {
        block: b"\xc5\xc4\x83\x86\xc3\xc2\xc1\xbe\xbf",
        headers: b":path=/gnmi.gNMI/Set|:authority=127.0.0.1:55495|:method=POST|:scheme=http|content-type=application/grpc|te=trailers|grpc-accept-encoding=identity, deflate, gzip|grpc-timeout=5010m|user-agent=grpc-python/1.51.1 grpc-c/29.0.0 (linux; chttp2)",
        count: 8,
        size: 470,
    },
];

#[test]
fn reads_three_calls_of_a_real_client(rt: HostRuntime) {
    assert_read(&rt, rt.alloc(), OF_A_REAL_CLIENT);
}

/// A size update to 4,096 alone, and updates down and up again, which empty the table.
const SIZE_UPDATES: &[Step<'static>] = &[
    Step {
        block: b"\x3f\xe1\x1f",
        headers: b"",
        count: 0,
        size: 0,
    },
    Step {
        block: b"\x40\x01a\x01b",
        headers: b"a=b",
        count: 1,
        size: 34,
    },
    Step {
        block: b"\x20\x3f\xe1\x1f\x82",
        headers: b":method=GET",
        count: 0,
        size: 0,
    },
    Step {
        block: b"\x3f\x02\x40\x01a\x00",
        headers: b"a=",
        count: 1,
        size: 33,
    },
    Step {
        block: b"\x40\x01a\x01b",
        headers: b"a=b",
        count: 0,
        size: 0,
    },
];

#[test]
fn reads_size_updates(rt: HostRuntime) {
    assert_read(&rt, rt.alloc(), SIZE_UPDATES);
}
