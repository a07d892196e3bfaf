//! Paths.
use crate::tables::PATHS;
use base_lists::Bytes;
use gnmi_data_msg::{MsgFault, put_text, read_path, write_path};
use std::alloc::Global;
use std::test::Fail;

/// Whether the octets are a path, the octets in which it is written, and whether it has the old `element`.
pub(crate) fn path_again(alloc: Global, octets: &[u8]) -> Result<(bool, Bytes, bool), MsgFault> {
    let mut out = Bytes::empty(alloc);
    match read_path(alloc, octets) {
        Ok(path) => {
            put_text(alloc, 2, path.origin.octets(), &mut out)?;
            write_path(alloc, &path.path, &mut out)?;
            put_text(alloc, 4, path.target.octets(), &mut out)?;
            Ok((true, out, path.old_element))
        }
        Err(MsgFault::BadMessage) => Ok((false, out, false)),
        Err(MsgFault::NoMemory) => Err(MsgFault::NoMemory),
    }
}

#[test]
fn paths_of_another_library(rt: HostRuntime) -> Result<(), Fail> {
    for (octets, is_path, written, old_element) in &PATHS {
        let (is, again, old) = path_again(rt.alloc(), octets)?;
        assert!(rt;
            is == *is_path && again.items() == *written && old == *old_element,
            "{octets:?}"
        );
    }
    Ok(())
}
