// Patterns over paths, front to back.
ghost use Rattle.std.specs.Prelude.{◌≡◌, ◌&&◌, codes};
ghost use Rattle.std.specs.Str.{bytes_eq};
ghost use Rattle.std.specs.List.{list_any, list_all};
ghost use Rattle.base_kinds.specs.Match.{matches, covers, elem_matches, key_matches, suffixes};

use base_kinds::{Elem, Path, Text};

/// Whether the pattern matches the whole path.
pub fn matches(pattern: &Path, path: &Path) -> bool
    ensures { result ≡ matches pattern.now path.now }
{
    matches_elems(pattern.items(), path.items())
}

/// Whether the pattern matches some front of the path.
#[tactic(auto, using(crate::proofs::Fronts::some_front, crate::proofs::Fronts::no_front))]
pub fn covers(pattern: &Path, path: &Path) -> bool
    ensures { result ≡ covers pattern.now path.now }
{
    let (pattern, path) = (pattern.items(), path.items());
    for n in 0..path.len() + 1 {
        if matches_elems(pattern, &path[..n]) {
            return true;
        }
    }
    false
}

#[cycle(matching)]
fn matches_elems(pattern: &[Elem], path: &[Elem]) -> bool
    ensures { result ≡ matches pattern.now path.now }
{
    let Some((first, others)) = pattern.split_first() else {
        return path.is_empty();
    };
    if is_text(&first.name, b"...") {
        return matches_some_rest(others, path);
    }
    match path.split_first() {
        None => false,
        Some((elem, rest)) => matches_elem(first, elem) && matches_elems(others, rest),
    }
}

#[cycle(matching)]
fn matches_some_rest(pattern: &[Elem], path: &[Elem]) -> bool
    ensures { result ≡ list_any (matches pattern.now) (suffixes path.now) }
{
    match path.split_first() {
        None => matches_elems(pattern, path),
        Some((_, rest)) => matches_elems(pattern, path) || matches_some_rest(pattern, rest),
    }
}

fn matches_elem(pattern: &Elem, elem: &Elem) -> bool
    ensures { result ≡ elem_matches pattern.now elem.now }
{
    (is_text(&pattern.name, b"*") || is_text(&pattern.name, elem.name.octets()))
        && matches_keys(pattern.keys.items(), elem)
}

fn matches_keys(keys: &[(Text, Text)], elem: &Elem) -> bool
    ensures { result ≡ list_all (key_matches elem.now) keys.now }
{
    match keys.split_first() {
        None => true,
        Some((key, others)) => matches_key(elem, key) && matches_keys(others, elem),
    }
}

fn matches_key(elem: &Elem, key: &(Text, Text)) -> bool
    ensures { result ≡ key_matches elem.now key.now }
{
    is_text(&key.1, b"*") || has_key(elem.keys.items(), key)
}

fn has_key(keys: &[(Text, Text)], key: &(Text, Text)) -> bool
    ensures { result ≡ list_any
        (λ other. bytes_eq key.now.0 other.0 && bytes_eq key.now.1 other.1) keys.now }
{
    match keys.split_first() {
        None => false,
        Some((other, others)) => is_same_key(key, other) || has_key(others, key),
    }
}

fn is_same_key(key: &(Text, Text), other: &(Text, Text)) -> bool
    ensures { result ≡ (bytes_eq key.now.0 other.now.0 && bytes_eq key.now.1 other.now.1) }
{
    is_text(&key.0, other.0.octets()) && is_text(&key.1, other.1.octets())
}

/// Whether the text has these octets.
pub(crate) fn is_text(text: &Text, octets: &[u8]) -> bool
    ensures { result ≡ bytes_eq text.now octets.now }
{
    text.octets() == octets
}
