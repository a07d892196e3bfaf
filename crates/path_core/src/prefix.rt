// A path behind a prefix (gNMI 2.4.1).
ghost use Rattle.std.specs.Prelude.{◌≡◌, ◌+◌, ◌<◌, ◌++◌, ◌↔◌, length, IfOk, IsErrOf};

use crate::fault::PathFault;
use base_kinds::{Copied, NoMemory, Path};
use std::alloc::Global;

/// So many elements at most has a path behind a prefix.
pub const MOST_PATH_ELEMENTS: usize = 32;

/// The prefix's elements and then the path's, at most 32 together.
pub fn join_prefix(alloc: Global, prefix: &Path, path: &Path) -> Result<Path, PathFault>
    ensures ok { IfOk result (λ joined. joined ≡ prefix.now ++ path.now) }
    ensures bad { IsErrOf result PathFault.BadPath ↔
        (MOST_PATH_ELEMENTS < length prefix.now + length path.now) }
{
    if prefix.len() > MOST_PATH_ELEMENTS || path.len() > MOST_PATH_ELEMENTS - prefix.len() {
        return Err(PathFault::BadPath);
    }
    let mut joined = prefix.copy(alloc)?;
    match joined.push_copies(alloc, path.items()) {
        Ok(()) => Ok(joined),
        Err(NoMemory) => {
            drop(joined);
            Err(PathFault::NoMemory)
        }
    }
}
