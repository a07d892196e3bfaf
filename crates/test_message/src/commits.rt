//! Commits.
use crate::tables::COMMITS;
use base_lists::Bytes;
use gnmi_data_msg::{MsgFault, put_message};
use gnmi_ext_msg::{read_commit, write_commit};
use pb_message::message_under;
use std::alloc::Global;
use std::test::Fail;

/// The Extension in which the Commit of an Extension is written.
pub(crate) fn commit_again(alloc: Global, octets: &[u8]) -> Result<Bytes, MsgFault> {
    let mut out = Bytes::empty(alloc);
    if let Some(commit) = message_under(alloc, octets, 4)? {
        let action = read_commit(alloc, commit.items())?;
        let mut again = Bytes::empty(alloc);
        write_commit(alloc, &action, &mut again)?;
        put_message(alloc, 4, again.items(), &mut out)?;
    }
    Ok(out)
}

#[test]
fn commits_of_another_library(rt: HostRuntime) -> Result<(), Fail> {
    for (octets, written) in &COMMITS {
        let again = commit_again(rt.alloc(), octets)?;
        assert!(rt; again.items() == *written, "{octets:?}");
    }
    Ok(())
}

// A tag alone, an id that isn't UTF-8, a confirm and a duration that are no messages.
const BAD: [&[u8]; 4] = [
    b"\x08",
    b"\x0a\x01\xff",
    b"\x1a\x01\x08",
    b"\x12\x03\x0a\x01\x08",
];

#[test]
fn what_is_no_commit(rt: HostRuntime) -> Result<(), Fail> {
    for octets in &BAD {
        let fault = read_commit(rt.alloc(), octets).err();
        assert!(rt; fault == Some(MsgFault::BadMessage), "{octets:?}");
    }
    Ok(())
}
