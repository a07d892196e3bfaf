//! Paths behind no prefix, and what isn't supported in them.
ghost use Rattle.std.specs.Prelude.{◌≡◌, map, IfOk};
ghost use Rattle.std.specs.List.{list_any};
ghost use Rattle.gnmi_data_msg.specs.Profile.{is_known_origin, is_foreign, path_in};

use base_kinds::{Paths, Seq};
use base_lists::NoMemory;
use gnmi_kinds::GnmiPath;
use std::alloc::Global;

fn is_known_origin(origin: &[u8]) -> bool
    ensures { result ≡ is_known_origin origin.now }
{
    origin == b"".as_slice() || origin == b"openconfig".as_slice()
}

/// Whether its names are of another schema than the one that has no name or is named `openconfig`, or stand in the deprecated
/// field `element`. Takes no memory.
pub fn is_foreign(path: &GnmiPath) -> bool
    ensures { result ≡ is_foreign path.now }
{
    !is_known_origin(path.origin.octets()) || path.old_element
}

/// Whether this holds of one of the paths. Takes no memory.
pub fn are_foreign(paths: &[GnmiPath]) -> bool
    ensures { result ≡ list_any is_foreign paths.now }
{
    paths.iter().any(|path| is_foreign(path))
}

/// The elements of each path.
pub fn paths_of(alloc: Global, paths: Seq<GnmiPath>) -> Result<Paths, NoMemory>
    ensures { IfOk result (λ list. list ≡ map path_in paths) }
{
    let mut list = Seq::empty(alloc);
    for path in paths.into_vec() {
        list.push(path.path)?;
    }
    Ok(list)
}
