// The order of paths.
ghost use Rattle.std.specs.Prelude.{◌≡◌};
ghost use Rattle.base_kinds.specs.Paths.{path_cmp, same_path};

use base_kinds::{Elem, Path};
use std::cmp::Ordering;

/// Compares element by element: by name, and then by the keys, pair by pair, all as octets. A front of a path comes
/// before it. Takes no memory.
pub fn cmp_paths(a: &Path, b: &Path) -> Ordering
    ensures { result ≡ path_cmp a.now b.now }
{
    a.cmp(b)
}

/// Whether two paths, or the fronts of two, are the same. Takes no memory.
pub fn same_path(a: &[Elem], b: &[Elem]) -> bool
    ensures { result ≡ same_path a.now b.now }
{
    match a.cmp(&b) {
        Ordering::Equal => true,
        Ordering::Less | Ordering::Greater => false,
    }
}
