ghost use Rattle.std.specs.Prelude.{◌≡◌, ◌<◌, ◌+◌, [], length, map, take, drop, Some, IfSome, slice_get, slice_index_or};
ghost use Rattle.hpack_block.specs.StaticTable.{pair, nothing, static_table};
ghost use Rattle.hpack_block.specs.Written.{is_pair, is_name, place_of_pair, place_of_name};

use crate::header::Header;

/// How many entries the static table has (RFC 7541, appendix A).
pub(crate) const STATIC_ENTRIES: usize = 61;

/// How many of them stand first, up to the last one that has a value.
const FIRST_ENTRIES: usize = 16;

static FIRST: [(&[u8], &[u8]); FIRST_ENTRIES] = [
    (b":authority", b""),
    (b":method", b"GET"),
    (b":method", b"POST"),
    (b":path", b"/"),
    (b":path", b"/index.html"),
    (b":scheme", b"http"),
    (b":scheme", b"https"),
    (b":status", b"200"),
    (b":status", b"204"),
    (b":status", b"206"),
    (b":status", b"304"),
    (b":status", b"400"),
    (b":status", b"404"),
    (b":status", b"500"),
    (b"accept-charset", b""),
    (b"accept-encoding", b"gzip, deflate"),
];

/// The names of the others, whose values are empty.
static OTHERS: [&[u8]; 45] = [
    b"accept-language",
    b"accept-ranges",
    b"accept",
    b"access-control-allow-origin",
    b"age",
    b"allow",
    b"authorization",
    b"cache-control",
    b"content-disposition",
    b"content-encoding",
    b"content-language",
    b"content-length",
    b"content-location",
    b"content-range",
    b"content-type",
    b"cookie",
    b"date",
    b"etag",
    b"expect",
    b"expires",
    b"from",
    b"host",
    b"if-match",
    b"if-modified-since",
    b"if-none-match",
    b"if-range",
    b"if-unmodified-since",
    b"last-modified",
    b"link",
    b"location",
    b"max-forwards",
    b"proxy-authenticate",
    b"proxy-authorization",
    b"range",
    b"referer",
    b"refresh",
    b"retry-after",
    b"server",
    b"set-cookie",
    b"strict-transport-security",
    b"transfer-encoding",
    b"user-agent",
    b"vary",
    b"via",
    b"www-authenticate",
];

/// The name and the value at a place of the static table, counted from 0.
pub(crate) fn static_entry(place: usize) -> (&'static [u8], &'static [u8])
    requires { place < 61 }
    ensures { slice_get static_table place ≡ Some (pair result.0.now result.1.now) }
{
    if place < FIRST_ENTRIES {
        first_entry(&FIRST, place)
    } else {
        (other_name(&OTHERS, place - FIRST_ENTRIES), b"")
    }
}

fn first_entry(
    entries: &'static [(&'static [u8], &'static [u8])],
    place: usize,
) -> (&'static [u8], &'static [u8])
    requires entries { map (λ x. pair x.0.now x.1.now) entries.now ≡ take 16 static_table }
    requires place { place < length entries.now }
    ensures { slice_get static_table place ≡ Some (pair result.0.now result.1.now) }
{
    entries[place]
}

fn other_name(names: &'static [&'static [u8]], place: usize) -> &'static [u8]
    requires names { map (λ name. pair name.now []) names.now ≡ drop 16 static_table }
    requires place { place < length names.now }
    ensures { slice_get static_table (16 + place) ≡ Some (pair result.now []) }
{
    names[place]
}

/// The first place of the header in the static table, counted from 0.
pub(crate) fn place_of_pair(header: &Header) -> Option<usize>
    ensures value { result ≡ place_of_pair header.now }
    ensures within { IfSome result (λ place. place < 61) }
{
    for place in 0..STATIC_ENTRIES {
        if is_pair(place, header) {
            return Some(place);
        }
    }
    None
}

fn is_pair(place: usize, header: &Header) -> bool
    requires { place < 61 }
    ensures { result ≡ is_pair header.now (slice_index_or static_table place nothing) }
{
    let (name, value) = static_entry(place);
    name == header.name.items() && value == header.value.items()
}

/// The first place of the name in the static table, counted from 0.
pub(crate) fn place_of_name(name: &[u8]) -> Option<usize>
    ensures value { result ≡ place_of_name name.now }
    ensures within { IfSome result (λ place. place < 61) }
{
    for place in 0..STATIC_ENTRIES {
        if is_name(place, name) {
            return Some(place);
        }
    }
    None
}

fn is_name(place: usize, name: &[u8]) -> bool
    requires { place < 61 }
    ensures { result ≡ is_name name.now (slice_index_or static_table place nothing) }
{
    static_entry(place).0 == name
}
