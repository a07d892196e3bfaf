ghost use Rattle.std.specs.Prelude.{◌≡◌, count_by, codes, List};
ghost use Rattle.h2_streams.specs.Requests.{named, is_pseudo, is_request_pseudo, is_of_connection, has_upper_case, is_regular, are_regular, are_in_order, is_well_formed};

use hpack_block::Header;

fn named(name: &[u8], header: &Header) -> bool
    ensures { result ≡ named name.now header.now }
{
    header.name.items() == name
}

fn times(name: &[u8], headers: &[Header]) -> usize
    ensures { result ≡ count_by (named name.now) headers.now }
{
    headers.iter().filter(|header| named(name, header)).count()
}

fn is_request_pseudo(header: &Header) -> bool
    ensures { result ≡ is_request_pseudo header.now }
{
    named(b":method", header)
        || named(b":scheme", header)
        || named(b":path", header)
        || named(b":authority", header)
}

fn is_of_connection(header: &Header) -> bool
    ensures { result ≡ is_of_connection header.now }
{
    named(b"connection", header)
        || named(b"proxy-connection", header)
        || named(b"keep-alive", header)
        || named(b"transfer-encoding", header)
        || named(b"upgrade", header)
}

fn has_upper_case(name: &[u8]) -> bool
    ensures { result ≡ has_upper_case name.now }
{
    for octet in name {
        if octet.is_ascii_uppercase() {
            return true;
        }
    }
    false
}

fn is_pseudo(header: &Header) -> bool
    ensures { result ≡ is_pseudo header.now }
{
    match header.name.items().first() {
        Some(octet) => *octet == b':',
        None => false,
    }
}

fn is_regular(header: &Header) -> bool
    ensures { result ≡ is_regular header.now }
{
    !is_pseudo(header) && !is_of_connection(header) && !has_upper_case(header.name.items())
}

fn are_regular(headers: &[Header]) -> bool
    ensures { result ≡ are_regular headers.now }
{
    for header in headers {
        if !is_regular(header) {
            return false;
        }
    }
    true
}

fn are_in_order(headers: &[Header]) -> bool
    ensures { result ≡ are_in_order headers.now }
{
    let mut rest = headers;
    while let Some((header, after)) = rest.split_first() {
        if !is_request_pseudo(header) {
            return are_regular(rest);
        }
        rest = after;
    }
    true
}

/// Whether a request may have these headers.
pub(crate) fn is_well_formed(headers: &[Header]) -> bool
    ensures { result ≡ is_well_formed headers.now }
{
    are_in_order(headers)
        && times(b":method", headers) == 1
        && times(b":scheme", headers) == 1
        && times(b":path", headers) == 1
        && times(b":authority", headers) <= 1
}
