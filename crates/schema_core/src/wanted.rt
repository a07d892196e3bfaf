// The names that a look-up is for, compared with those of a node without taking memory.
ghost use Rattle.std.specs.Prelude.{◌≡◌, ◌++◌, ◌∷◌, []};
ghost use Rattle.base_kinds.specs.Schema.{names_of};
ghost use Rattle.schema_core.specs.inner.Index.{names_cmp};
ghost use Rattle.schema_core.specs.inner.Wanted.{wanted_names};

use base_kinds::Elem;
use base_lists::Text;
use std::cmp::Ordering;

/// What a look-up is for: the node of a path, that with these names, or that with this name below the node with those.
#[derive(Clone, Copy)]
pub(crate) enum Wanted<'a> {
    Path(&'a [Elem]),
    Names(&'a [Text]),
    Below(&'a [Text], &'a [u8]),
}

/// How what is wanted compares with these names: name by name, each octet by octet.
pub(crate) fn compare(wanted: Wanted, names: &[Text]) -> Ordering
    ensures { result ≡ names_cmp (wanted_names wanted.entry) names.now }
{
    match wanted {
        Wanted::Path(path) => compare_path(path, names),
        Wanted::Names(wanted) => wanted.cmp(&names),
        Wanted::Below(above, name) => compare_below(above, name, names),
    }
}

fn compare_path(path: &[Elem], names: &[Text]) -> Ordering
    ensures { result ≡ names_cmp (names_of path.now) names.now }
{
    match (path.split_first(), names.split_first()) {
        (None, None) => Ordering::Equal,
        (None, Some(_)) => Ordering::Less,
        (Some(_), None) => Ordering::Greater,
        (Some((elem, elems)), Some((name, others))) => match elem.name.cmp(name) {
            Ordering::Equal => compare_path(elems, others),
            order => order,
        },
    }
}

fn compare_below(above: &[Text], own: &[u8], names: &[Text]) -> Ordering
    ensures { result ≡ names_cmp (above.now ++ own.now ∷ []) names.now }
{
    match (above.split_first(), names.split_first()) {
        (_, None) => Ordering::Greater,
        (None, Some((name, others))) => match own.cmp(&name.octets()) {
            Ordering::Equal if others.is_empty() => Ordering::Equal,
            Ordering::Equal => Ordering::Less,
            order => order,
        },
        (Some((first, rest)), Some((name, others))) => match first.cmp(name) {
            Ordering::Equal => compare_below(rest, own, others),
            order => order,
        },
    }
}
