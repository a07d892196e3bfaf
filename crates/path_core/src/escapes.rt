// How an octet is spelled in a path's text.
ghost use Rattle.std.specs.Prelude.{◌≡◌, ◌<◌, ◌++◌, ◌∷◌, [], ℕ, List, length, IfSome, IfNone};
ghost use Rattle.base_kinds.specs.Texts.{hex_digit as hex_digit_of, is_name_octet, octet_text};
ghost use Rattle.path_core.specs.inner.Reading.{test_of, hex_pair, NoOctet};

/// The part of a path that an octet stands in.
#[derive(Clone, Copy)]
pub(crate) enum Part {
    /// The name of an element or of a key.
    Name,
    /// The value of a key.
    Value,
}

pub(crate) fn stands_for_itself(part: Part, octet: u8) -> bool
    ensures { result ≡ test_of part octet }
{
    match part {
        Part::Name => is_plain_in_name(octet),
        Part::Value => octet >= b'!' && octet <= b'~' && octet != b'\\' && octet != b']',
    }
}

fn is_plain_in_name(octet: u8) -> bool
    ensures { result ≡ is_name_octet octet }
{
    octet.is_ascii_alphabetic()
        || octet.is_ascii_digit()
        || octet == b'_'
        || octet == b'.'
        || octet == b'-'
        || octet == b'*'
}

pub(crate) fn hex_digit(value: u8) -> u8
    requires { value < 16 }
    ensures { result ≡ hex_digit_of value }
{
    if value < 10 {
        b'0' + value
    } else {
        b'a' - 10 + value
    }
}

/// What a hexadecimal digit in lower case stands for.
fn hex_value(digit: u8) -> Option<u8>
    ensures some { IfSome result (λ value. (value < 16) × (digit ≡ hex_digit_of value)) }
    ensures none { IfNone result ((value : ℕ) → value < 16 → digit ≡ hex_digit_of value → ⊥) }
{
    match digit {
        b'0'..=b'9' => Some(digit - b'0'),
        b'a'..=b'f' => Some(digit - b'a' + 10),
        _ => None,
    }
}

/// The octet that the first two digits spell, and what follows them.
fn read_hex(text: &[u8]) -> Option<(u8, &[u8])>
    ensures some { IfSome result (λ read. text.now ≡ hex_pair read.0 ++ read.1.now) }
    ensures shorter { IfSome result (λ read. length read.1.now < length text.now) }
    ensures none { IfNone result ((octet : ℕ) (rest : List ℕ) →
        octet < 256 → text.now ≡ hex_pair octet ++ rest → ⊥) }
{
    match text {
        [high, low, rest @ ..] => match (hex_value(*high), hex_value(*low)) {
            (Some(high), Some(low)) => Some((high * 16 + low, rest)),
            _ => None,
        },
        _ => None,
    }
}

/// The octet whose spelling stands at the front, and what follows that.
pub(crate) fn read_octet(part: Part, text: &[u8]) -> Option<(u8, &[u8])>
    ensures some { IfSome result
        (λ read. text.now ≡ octet_text (test_of part) read.0 ++ read.1.now) }
    ensures small { IfSome result (λ read. read.0 < 256) }
    ensures shorter { IfSome result (λ read. length read.1.now < length text.now) }
    ensures none { IfNone result (NoOctet part text.now) }
{
    let Some((octet, rest)) = text.split_first() else {
        return None;
    };
    if stands_for_itself(part, *octet) {
        return Some((*octet, rest));
    }
    if *octet != b'\\' {
        return None;
    }
    match read_hex(rest) {
        Some((octet, rest)) => if stands_for_itself(part, octet) {
            None
        } else {
            Some((octet, rest))
        },
        None => None,
    }
}
