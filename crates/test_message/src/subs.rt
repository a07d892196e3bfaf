//! Requests and replies of a Subscribe.
use crate::gets::{encoding_number, names};
use crate::sub_tables::{BAD_SUBS, SUBS};
use base_kinds::{ListMode, SubLine, SubMode};
use base_lists::{Bytes, NoMemory};
use gnmi_data_msg::{Message, MsgFault};
use gnmi_kinds::{Encoding, SubAsk};
use gnmi_sub_msg::{
    SubMember, SubRequest, SubTurn, Subscription, read_list, read_request, read_sub,
    replies_read_back, write_sub_note, write_sync,
};
use std::alloc::Global;
use std::test::Fail;

fn mode_number(mode: ListMode) -> u8 {
    match mode {
        ListMode::Stream => 0,
        ListMode::Once => 1,
        ListMode::Poll => 2,
        ListMode::Other => 3,
    }
}

fn list_summary(alloc: Global, ask: &SubAsk) -> Result<Bytes, NoMemory> {
    let mut octets = Bytes::empty(alloc);
    octets.push(0)?;
    octets.push((ask.lines.len() % 256) as u8)?;
    octets.push(mode_number(ask.mode))?;
    octets.push(if ask.updates_only { 1 } else { 0 })?;
    octets.push(encoding_number(ask.encoding))?;
    octets.push(if ask.unsupported { 1 } else { 0 })?;
    octets.push((ask.prefix.target.octets().len() % 256) as u8)?;
    Ok(octets)
}

// What the turn is, in the octets of the table.
fn summary(alloc: Global, turn: &SubTurn) -> Result<Bytes, NoMemory> {
    match turn {
        SubTurn::List(ask) => list_summary(alloc, ask),
        SubTurn::Poll => Bytes::of(alloc, b"\x01"),
        SubTurn::Unsupported => Bytes::of(alloc, b"\x02"),
    }
}

#[test]
fn subscribe_requests_of_clients(rt: HostRuntime) -> Result<(), Fail> {
    for (octets, is) in &SUBS {
        let turn = read_sub(rt.alloc(), octets)?;
        let found = summary(rt.alloc(), &turn)?;
        assert!(rt; found.items() == *is, "{octets:?}");
    }
    Ok(())
}

#[test]
fn what_is_no_subscribe_request(rt: HostRuntime) -> Result<(), Fail> {
    for octets in &BAD_SUBS {
        let fault = read_sub(rt.alloc(), octets).err();
        assert!(rt; fault == Some(MsgFault::BadMessage), "{octets:?}");
    }
    Ok(())
}

// A prefix with the element "p" and the target "dev", mode POLL, JSON_IETF, and updates only; "a" each 10 seconds where it has
// changed, and all of it each minute; "b/c" on change; the root in an unknown mode.
const THREE_LINES: &[u8] =
    b"\x0a\x42\x0a\x0a\x1a\x03\x0a\x01p\x22\x03dev\x12\x18\x0a\x05\x1a\x03\x0a\x01a\x10\x02\x18\x80\xc8\xaf\xa0\x25\x20\x01\x28\x80\xb0\x9d\xc2\xdf\x01\x12\x0e\x0a\x0a\x1a\x03\x0a\x01b\x1a\x03\x0a\x01c\x10\x01\x12\x04\x0a\x00\x10\x07\x28\x02\x40\x04\x48\x01";

fn is_line(line: Option<&SubLine>, mode: SubMode, interval: u64, heartbeat: u64) -> bool {
    match line {
        Some(line) => {
            line.mode == mode && line.interval == interval && line.heartbeat == heartbeat
        }
        None => false,
    }
}

fn has_name(line: Option<&SubLine>, place: usize, name: &[u8], suppress: bool) -> bool {
    match line {
        Some(line) => names(line.path.get(place), name) && line.suppress == suppress,
        None => false,
    }
}

fn has_head(ask: &SubAsk) -> bool {
    ask.mode == ListMode::Poll
        && ask.encoding == Encoding::JsonIetf
        && ask.updates_only
        && !ask.unsupported
        && names(ask.prefix.path.get(0), b"p")
}

fn has_lines(ask: &SubAsk) -> bool {
    let first = ask.lines.get(0);
    let second = ask.lines.get(1);
    is_line(first, SubMode::Sample, 10_000_000_000, 60_000_000_000)
        && has_name(first, 0, b"a", true)
        && is_line(second, SubMode::Change, 0, 0)
        && has_name(second, 1, b"c", false)
        && is_line(ask.lines.get(2), SubMode::Other, 0, 0)
}

#[test]
fn what_a_list_holds(rt: HostRuntime) -> Result<(), Fail> {
    let turn = read_sub(rt.alloc(), THREE_LINES)?;
    assert!(rt; matches!(&turn, SubTurn::List(ask) if has_head(ask) && has_lines(ask)));
    Ok(())
}

#[test]
fn parts_of_a_subscribe_request(rt: HostRuntime) -> Result<(), Fail> {
    let request: SubRequest = read_request(rt.alloc(), b"\x2a\x00\x1a\x00")?;
    assert!(rt; matches!(request.member, SubMember::Poll) && request.extensions.len() == 1);
    let list = read_list(rt.alloc(), b"\x12\x00\x3a\x00")?;
    assert!(rt; list.subscriptions.len() == 1 && list.models.len() == 1);
    let subscription = Subscription::read(rt.alloc(), b"\x20\x02")?;
    assert!(rt; subscription.suppress && subscription.mode == SubMode::Change);
    Ok(())
}

#[test]
fn subscribe_replies(rt: HostRuntime) -> Result<(), Fail> {
    let mut out = Bytes::of(rt.alloc(), b"!")?;
    write_sub_note(rt.alloc(), b"\x30\x01", &mut out)?;
    write_sync(rt.alloc(), &mut out)?;
    assert_eq!(rt; out.items(), b"!\x0a\x02\x30\x01\x18\x01".as_slice());
    replies_read_back();
    Ok(())
}
