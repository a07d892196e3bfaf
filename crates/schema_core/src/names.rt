// The names of nodes against paths: which node an element or a path is one of (RFC 7950 6.5, 7.8.2).
ghost use Rattle.std.specs.Prelude.{◌≡◌, IsUtf8};
ghost use Rattle.std.specs.List.{list_any, list_all};
ghost use Rattle.std.specs.Str.{bytes_eq};
ghost use Rattle.base_kinds.specs.Schema.{names_of, same_names};
ghost use Rattle.base_kinds.specs.Valid.{has_just_keys};
ghost use Rattle.base_kinds.specs.Ancestors.{own_name, parent_names};

use base_kinds::Elem;
use base_lists::Text;

/// Whether the path's elements have these names. Keys are not looked at. Takes no memory.
pub fn has_names(path: &[Elem], names: &[Text]) -> bool
    ensures { result ≡ same_names (names_of path.now) names.now }
{
    match (path.split_first(), names.split_first()) {
        (None, None) => true,
        (Some((elem, elems)), Some((name, others))) => {
            elem.name.octets() == name.octets() && has_names(elems, others)
        }
        _ => false,
    }
}

/// Whether the element has a key of each of these names, and no others. Takes no memory.
pub fn has_just_keys(elem: &Elem, keys: &[Text]) -> bool
    ensures { result ≡ has_just_keys elem.now keys.now }
{
    elem.keys.len() == keys.len() && has_each_key(elem, keys)
}

fn has_each_key(elem: &Elem, keys: &[Text]) -> bool
    ensures { result ≡ list_all (λ key. list_any
        (λ pair. bytes_eq key pair.0) elem.now.keys) keys.now }
{
    keys.iter().all(|key| has_key(elem.keys.items(), key))
}

fn has_key(pairs: &[(Text, Text)], key: &Text) -> bool
    ensures { result ≡ list_any (λ pair. bytes_eq key.now pair.0) pairs.now }
{
    pairs.iter().any(|pair| key.octets() == pair.0.octets())
}

/// The names of the parent of the node with these names; the root has none. Takes no memory.
#[tactic(auto, using(crate::proofs::NameLemmas::parent_of_end, crate::proofs::NameLemmas::parent_of_none))]
pub fn parent_names(names: &[Text]) -> &[Text]
    ensures { result.now ≡ parent_names names.now }
{
    match names.split_last() {
        None => names,
        Some((_, front)) => front,
    }
}

/// The last of the names: that of the node itself. Takes no memory.
#[tactic(auto, using(crate::proofs::NameLemmas::own_of_end))]
pub fn own_name(names: &[Text]) -> &[u8]
    ensures value { result.now ≡ own_name names.now }
    ensures is_utf8 { IsUtf8 result.now }
{
    match names.split_last() {
        None => &[],
        Some((name, _)) => name.octets(),
    }
}
