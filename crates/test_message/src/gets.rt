//! Requests and replies of a Get, and Capabilities.
use crate::get_tables::{BAD_GETS, GETS};
use base_kinds::Elem;
use base_lists::{Bytes, NoMemory, Seq};
use gnmi_data_msg::MsgFault;
use gnmi_get_msg::{
    capabilities_read_back, notes_read_back, read_get, write_capabilities, write_get_reply,
};
use gnmi_kinds::{Encoding, GetAsk};
use schema_core::Schema;
use schema_text::read_schema;
use std::alloc::Global;
use std::test::Fail;

pub(crate) fn encoding_number(encoding: Encoding) -> u8 {
    match encoding {
        Encoding::Json => 0,
        Encoding::Proto => 1,
        Encoding::JsonIetf => 2,
        Encoding::Other => 3,
    }
}

// What the ask is, in the octets of the table.
fn summary(alloc: Global, ask: &GetAsk) -> Result<Bytes, NoMemory> {
    let mut octets = Bytes::empty(alloc);
    octets.push((ask.paths.len() % 256) as u8)?;
    octets.push(encoding_number(ask.encoding))?;
    octets.push(if ask.unsupported { 1 } else { 0 })?;
    octets.push((ask.prefix.path.len() % 256) as u8)?;
    octets.push((ask.prefix.target.octets().len() % 256) as u8)?;
    Ok(octets)
}

#[test]
fn get_requests_of_clients(rt: HostRuntime) -> Result<(), Fail> {
    for (octets, is) in &GETS {
        let ask = read_get(rt.alloc(), octets)?;
        let found = summary(rt.alloc(), &ask)?;
        assert!(rt; found.items() == *is, "{octets:?}");
    }
    Ok(())
}

#[test]
fn what_is_no_get_request(rt: HostRuntime) -> Result<(), Fail> {
    for octets in &BAD_GETS {
        let fault = read_get(rt.alloc(), octets).err();
        assert!(rt; fault == Some(MsgFault::BadMessage), "{octets:?}");
    }
    Ok(())
}

pub(crate) fn names(elem: Option<&Elem>, name: &[u8]) -> bool {
    match elem {
        Some(elem) => elem.name.octets() == name,
        None => false,
    }
}

// A prefix with the origin "cli", and the paths "a", "b/c" and the root.
const THREE_PATHS: &[u8] =
    b"\x0a\x05\x12\x03cli\x12\x05\x1a\x03\x0a\x01a\x12\x0a\x1a\x03\x0a\x01b\x1a\x03\x0a\x01c\x12\x00";

#[test]
fn what_a_get_request_holds(rt: HostRuntime) -> Result<(), Fail> {
    let ask = read_get(rt.alloc(), THREE_PATHS)?;
    assert!(rt; ask.prefix.origin.octets() == b"cli".as_slice() && !ask.prefix.old_element);
    let first = ask.paths.get(0).and_then(|path| path.get(0));
    assert!(rt; names(first, b"a"));
    let second = ask.paths.get(1).and_then(|path| path.get(1));
    assert!(rt; names(second, b"c"));
    assert!(rt; ask.paths.get(2).is_some_and(|path| path.is_empty()));
    Ok(())
}

#[test]
fn a_get_reply_holds_its_notes(rt: HostRuntime) -> Result<(), Fail> {
    let mut notes = Seq::empty(rt.alloc());
    notes.push(Bytes::of(rt.alloc(), b"\x08\x01")?)?;
    notes.push(Bytes::empty(rt.alloc()))?;
    let mut out = Bytes::of(rt.alloc(), b"!")?;
    write_get_reply(rt.alloc(), notes.items(), &mut out)?;
    assert_eq!(rt; out.items(), b"!\x0a\x02\x08\x01\x0a\x00".as_slice());
    notes_read_back();
    Ok(())
}

#[test]
fn capabilities_of_schemas(rt: HostRuntime) -> Result<(), Fail> {
    let mut out = Bytes::empty(rt.alloc());
    write_capabilities(rt.alloc(), &Schema::empty(rt.alloc()), &mut out)?;
    assert_eq!(rt;
        out.items(),
        b"\x12\x03\x00\x04\x02\x1a\x06\x30\x2e\x31\x30\x2e\x30".as_slice()
    );
    let text =
        b"module lab\ncontainer /a\nmodule openconfig-system\ncontainer /b\nmodule m\ncontainer /c\nmodule lab\ncontainer /d\n";
    let schema = read_schema(rt.alloc(), text).expect(&rt, "a schema");
    let mut out = Bytes::empty(rt.alloc());
    write_capabilities(rt.alloc(), &schema, &mut out)?;
    assert_eq!(rt;
        out.items(),
        b"\x0a\x05\x0a\x03\x6c\x61\x62\x0a\x13\x0a\x11\x6f\x70\x65\x6e\x63\x6f\x6e\x66\x69\x67\x2d\x73\x79\x73\x74\x65\x6d\x0a\x03\x0a\x01\x6d\x12\x03\x00\x04\x02\x1a\x06\x30\x2e\x31\x30\x2e\x30".as_slice()
    );
    capabilities_read_back();
    Ok(())
}
