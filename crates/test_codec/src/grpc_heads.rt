//! Heads of calls that clients sent, and the order in which a head is judged.
use base_kinds::Refusal;
use base_lists::{Bytes, NoMemory};
use grpc_core::{CallHead, Method, head_of};
use hpack_block::{Header, Headers};
use std::alloc::Global;
use std::test::Fail;

type Pair = (&'static [u8], &'static [u8]);

// What grpcio 1.51.1 sent for a Get.
const GRPCIO_GET: [Pair; 9] = [
    (b":path", b"/gnmi.gNMI/Get"),
    (b":authority", b"127.0.0.1:59175"),
    (b":method", b"POST"),
    (b":scheme", b"http"),
    (b"content-type", b"application/grpc"),
    (b"te", b"trailers"),
    (b"grpc-accept-encoding", b"identity, deflate, gzip"),
    (b"grpc-timeout", b"5S"),
    (
        b"user-agent",
        b"grpc-python/1.51.1 grpc-c/29.0.0 (linux; chttp2)",
    ),
];

// What nghttp 1.52.0 sent for a Set.
const NGHTTP_SET: [Pair; 10] = [
    (b":method", b"POST"),
    (b":path", b"/gnmi.gNMI/Set"),
    (b":scheme", b"http"),
    (b":authority", b"127.0.0.1:39189"),
    (b"accept", b"*/*"),
    (b"accept-encoding", b"gzip, deflate"),
    (b"user-agent", b"nghttp2/1.52.0"),
    (b"content-length", b"72"),
    (b"content-type", b"application/grpc"),
    (b"te", b"trailers"),
];

fn headers_of(alloc: Global, pairs: &[Pair]) -> Result<Headers, NoMemory> {
    let mut headers = Headers::empty(alloc);
    for (name, value) in pairs {
        let name = Bytes::of(alloc, name)?;
        let value = Bytes::of(alloc, value)?;
        headers.push(Header { name, value })?;
    }
    Ok(headers)
}

#[test]
fn heads_that_clients_sent(rt: HostRuntime) -> Result<(), Fail> {
    let get = headers_of(rt.alloc(), &GRPCIO_GET)?;
    assert_eq!(rt; head_of(&get), CallHead::Call(Method::Get));
    let set = headers_of(rt.alloc(), &NGHTTP_SET)?;
    assert_eq!(rt; head_of(&set), CallHead::Call(Method::Set));
    Ok(())
}

// The head of a call with this method of HTTP, type of content and path.
fn judged(
    alloc: Global,
    method: &'static [u8],
    content_type: &'static [u8],
    path: &'static [u8],
) -> Result<CallHead, NoMemory> {
    let headers = headers_of(
        alloc,
        &[
            (b":method", method),
            (b":path", path),
            (b"content-type", content_type),
        ],
    )?;
    Ok(head_of(&headers))
}

const GRPC: &[u8] = b"application/grpc";

const REFUSED: CallHead = CallHead::Refused(Refusal::NoMethod);

const HEADS: &[(&[u8], &[u8], &[u8], CallHead)] = &[
    (
        b"POST",
        GRPC,
        b"/gnmi.gNMI/Capabilities",
        CallHead::Call(Method::Capabilities),
    ),
    (
        b"POST",
        GRPC,
        b"/gnmi.gNMI/Subscribe",
        CallHead::Call(Method::Subscribe),
    ),
    (
        b"POST",
        b"application/grpc+proto",
        b"/gnmi.gNMI/Get",
        CallHead::Call(Method::Get),
    ),
    (b"GET", b"text/plain", b"/", CallHead::Http(405)),
    (b"post", GRPC, b"/gnmi.gNMI/Get", CallHead::Http(405)),
    (b"POST", b"text/plain", b"/", CallHead::Http(415)),
    (
        b"POST",
        b"application/grp",
        b"/gnmi.gNMI/Get",
        CallHead::Http(415),
    ),
    (b"POST", b"", b"/gnmi.gNMI/Get", CallHead::Http(415)),
    (b"POST", GRPC, b"/gnmi.gNMI/", REFUSED),
    (b"POST", GRPC, b"/gnmi.gNMI/GetX", REFUSED),
    (b"POST", GRPC, b"/grpc.health.v1.Health/Check", REFUSED),
];

#[test]
fn heads_in_the_order_of_their_checks(rt: HostRuntime) -> Result<(), Fail> {
    for (method, content_type, path, head) in HEADS {
        assert_eq!(rt;
            judged(rt.alloc(), method, content_type, path)?,
            *head,
            "{path:?}"
        );
    }
    Ok(())
}

#[test]
fn nothing_is_another_method_of_http(rt: HostRuntime) -> Result<(), Fail> {
    let none = headers_of(rt.alloc(), &[])?;
    assert_eq!(rt; head_of(&none), CallHead::Http(405));
    Ok(())
}

#[test]
fn paths_of_methods(rt: HostRuntime) {
    assert_eq!(rt; Method::Set.path(), b"/gnmi.gNMI/Set".as_slice());
    assert_eq!(rt; Method::at(b"/gnmi.gNMI/Set"), Some(Method::Set));
    assert_eq!(rt; Method::at(b"/gnmi.gNMI/set"), None);
}
