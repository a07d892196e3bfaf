//! Values.
use crate::tables::TYPED;
use base_kinds::Given;
use base_lists::Bytes;
use gnmi_data_msg::{MsgFault, read_typed, value_message};
use std::alloc::Global;
use std::test::Fail;

/// What the octets are, in the numbers of the table, and the JSON text or the octets in which it is written.
pub(crate) fn value_again(alloc: Global, octets: &[u8]) -> Result<(u8, Bytes), MsgFault> {
    match read_typed(alloc, octets) {
        Ok(Given::Missing) => Ok((1, Bytes::empty(alloc))),
        Ok(Given::Json(json)) => Ok((2, json)),
        Ok(Given::Scalar(value)) => Ok((3, value_message(alloc, &value)?)),
        Err(MsgFault::BadMessage) => Ok((0, Bytes::empty(alloc))),
        Err(MsgFault::NoMemory) => Err(MsgFault::NoMemory),
    }
}

#[test]
fn values_of_another_library(rt: HostRuntime) -> Result<(), Fail> {
    for (octets, kind, written) in &TYPED {
        let (is, again) = value_again(rt.alloc(), octets)?;
        assert!(rt; is == *kind && again.items() == *written, "{octets:?}");
    }
    Ok(())
}
