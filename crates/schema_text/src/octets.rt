// Tests of octets.
ghost use Rattle.std.specs.Prelude.{◌≡◌, ◌++◌, List, ℕ, MatchOption};
ghost use Rattle.std.specs.List.{list_all};
ghost use Rattle.schema_core.specs.Shapes.{is_in_enum, is_enum_text};

use plain_texts::is_in_name;

fn is_in_enum(octet: u8) -> bool
    ensures { result ≡ is_in_enum octet }
{
    is_in_name(octet) || octet == b':'
}

fn all_in_enum(octets: &[u8]) -> bool
    ensures { result ≡ list_all is_in_enum octets.now }
{
    octets.iter().all(|octet| is_in_enum(*octet))
}

/// Whether the octets are one or more letters, digits, `_`, `.`, `-` or `:`.
pub(crate) fn is_enum_text(octets: &[u8]) -> bool
    ensures { result ≡ is_enum_text octets.now }
{
    match octets {
        [] => false,
        _ => all_in_enum(octets),
    }
}

/// What follows the front, where the octets begin with it.
pub(crate) fn after<'a>(octets: &'a [u8], front: &[u8]) -> Option<&'a [u8]>
    ensures { MatchOption result ((rest : List ℕ) → octets.now ≡ front.now ++ rest →
        ⊥) (λ rest. octets.now ≡ front.now ++ rest.now) }
{
    octets.strip_prefix(front)
}

/// What stands before the end, where the octets end with it.
pub(crate) fn before<'a>(octets: &'a [u8], end: &[u8]) -> Option<&'a [u8]>
    ensures { MatchOption result ((front : List ℕ) → octets.now ≡ front ++ end.now →
        ⊥) (λ front. octets.now ≡ front.now ++ end.now) }
{
    octets.strip_suffix(end)
}
