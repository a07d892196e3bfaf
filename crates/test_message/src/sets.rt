//! Requests and replies of a Set.
use crate::set_tables::{BAD_SETS, SETS};
use base_kinds::{Action, Change, Elem, Given, UnresolvedSet, Value};
use base_lists::{Bytes, NoMemory};
use gnmi_data_msg::{Message, MsgFault};
use gnmi_ext_msg::{Extension, read_extension};
use gnmi_set_msg::{
    SetRequest, Update, read_request, read_set, replied_where_read, set_replies_read_back,
    write_set_reply,
};
use std::alloc::Global;
use std::test::Fail;

fn action_number(action: &Action) -> u8 {
    match action {
        Action::Plain => 0,
        Action::Trial(_, _) => 1,
        Action::Confirm(_) => 2,
        Action::Cancel(_) => 3,
        Action::Extend(_, _) => 4,
        Action::Mixed => 5,
    }
}

// What the ask is, in the octets of the table.
fn summary(alloc: Global, ask: &UnresolvedSet) -> Result<Bytes, NoMemory> {
    let mut octets = Bytes::empty(alloc);
    octets.push((ask.deletes.len() % 256) as u8)?;
    octets.push((ask.replaces.len() % 256) as u8)?;
    octets.push((ask.updates.len() % 256) as u8)?;
    octets.push(if ask.unsupported { 1 } else { 0 })?;
    octets.push(action_number(&ask.action))?;
    Ok(octets)
}

#[test]
fn requests_of_real_clients(rt: HostRuntime) -> Result<(), Fail> {
    for (octets, is, _reply) in &SETS {
        let ask = read_set(rt.alloc(), octets)?;
        let found = summary(rt.alloc(), &ask)?;
        assert!(rt; found.items() == *is, "{octets:?}");
    }
    Ok(())
}

#[test]
fn replies_echo_prefix_and_paths(rt: HostRuntime) -> Result<(), Fail> {
    for (octets, _is, reply) in &SETS {
        let mut out = Bytes::empty(rt.alloc());
        write_set_reply(rt.alloc(), octets, 1000, &mut out)?;
        assert!(rt; out.items() == *reply, "{octets:?}");
    }
    Ok(())
}

#[test]
fn what_is_no_set_request(rt: HostRuntime) -> Result<(), Fail> {
    for octets in &BAD_SETS {
        let fault = read_set(rt.alloc(), octets).err();
        assert!(rt; fault == Some(MsgFault::BadMessage), "{octets:?}");
        let mut out = Bytes::empty(rt.alloc());
        let replied = write_set_reply(rt.alloc(), octets, 1000, &mut out);
        assert!(rt;
            replied == Err(MsgFault::BadMessage) && out.is_empty(),
            "{octets:?}"
        );
    }
    Ok(())
}

// A prefix with the element "p" and the target "dev", an update of "a" to 1400, and a confirm of the trial "t".
const ONE_OF_EACH: &[u8] =
    b"\x0a\x0a\x1a\x03\x0a\x01p\x22\x03dev\x22\x0c\x0a\x05\x1a\x03\x0a\x01a\x1a\x03\x18\xf8\x0a\x2a\x07\x22\x05\x0a\x01t\x1a\x00";

fn names(elem: Option<&Elem>, name: &[u8]) -> bool {
    match elem {
        Some(elem) => elem.name.octets() == name,
        None => false,
    }
}

fn is_change(change: &Change, name: &[u8], number: u64) -> bool {
    names(change.path.get(0), name)
        && matches!(change.given, Given::Scalar(Value::Uint(found)) if found == number)
}

#[test]
fn what_a_request_holds(rt: HostRuntime) -> Result<(), Fail> {
    let ask = read_set(rt.alloc(), ONE_OF_EACH)?;
    assert!(rt; ask.target.octets() == b"dev".as_slice());
    assert!(rt; names(ask.prefix.get(0), b"p"));
    let change = ask.updates.get(0);
    assert!(rt; change.is_some_and(|update| is_change(update, b"a", 1400)));
    assert!(rt; matches!(&ask.action, Action::Confirm(id) if id.octets() == b"t".as_slice()));
    replied_where_read();
    set_replies_read_back();
    Ok(())
}

#[test]
fn parts_of_a_request(rt: HostRuntime) -> Result<(), Fail> {
    let request: SetRequest = read_request(rt.alloc(), ONE_OF_EACH)?;
    assert!(rt; request.has_prefix && !request.union_replace && request.extensions.len() == 1);
    let update = Update::read(rt.alloc(), b"")?;
    assert!(rt; matches!(update.given, Given::Missing));
    assert!(rt; update.path.path.is_empty() && !update.path.old_element);
    assert!(rt;
        matches!(
            read_extension(rt.alloc(), b"\x0a\x00"),
            Ok(Extension::Other)
        )
    );
    Ok(())
}
