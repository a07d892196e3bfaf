//! Replies of the greatest length, and longer ones.
ghost use Rattle.std.specs.Prelude.{◌≡◌};

use crate::target::{Target, new_target};
use base_kinds::Refusal;
use base_lists::Bytes;
use grpc_core::Method;
use std::alloc::Global;
use std::process::Abort;

/// A SetRequest without the last octets of its text: `/system/config/hostname` becomes one of 99,789 octets.
const LONG_NAME: &[u8] =
    b"\"\xf7\x8b\x06\x0a \x1a\x08\x0a\x06system\x1a\x08\x0a\x06config\x1a\x0a\x0a\x08hostname\x1a\xd1\x8b\x06\x0a\xcd\x8b\x06";

/// In a GetRequest: the path of the root, whose Notification has 99,865 octets in a reply then.
const ROOT: &[u8] = b"\x12\x00";

/// In a GetRequest: the path `/system`, whose Notification has one less.
const SYSTEM: &[u8] = b"\x12\x0a\x1a\x08\x0a\x06system";

/// A SetRequest without the last octets of its text: a delete of an element with a name of 4,194,272 octets.
const LONG_DELETE: &[u8] = b"\x12\xea\xff\xff\x01\x1a\xe5\xff\xff\x01\x0a\xe0\xff\xff\x01";

/// The same with one octet more.
const LONGER_DELETE: &[u8] = b"\x12\xeb\xff\xff\x01\x1a\xe6\xff\xff\x01\x0a\xe1\xff\xff\x01";

/// A stamp whose field has ten octets: the last reading that counts.
const LATEST: u64 = 4_102_444_800_000_000_000;

/// Puts a part so many times.
fn put(rt: &impl Abort, part: &[u8], times: u32, octets: &mut Bytes) {
    for _ in 0..times {
        octets.extend_from_slice(part).expect(rt, "memory");
    }
}

/// The parts one after another, each so many times.
fn repeated(rt: &impl Abort, alloc: Global, parts: &[(&[u8], u32)]) -> Bytes {
    let mut octets = Bytes::empty(alloc);
    for part in parts {
        put(rt, part.0, part.1, &mut octets);
    }
    octets
}

/// How long the reply is.
fn length_of(found: Result<Bytes, Refusal>) -> Result<usize, Refusal> {
    match found {
        Ok(reply) => Ok(reply.len()),
        Err(refusal) => Err(refusal),
    }
}

/// How long the reply to a call of these parts is.
fn reply_length(
    rt: &impl Abort,
    alloc: Global,
    target: &mut Target,
    method: Method,
    parts: &[(&[u8], u32)],
    now: u64,
) -> Result<usize, Refusal>
    requires { target.old.port.book.opened.schema ≡ target.old.desk }
    ensures { target.new.port.book.opened.schema ≡ target.new.desk }
{
    let request = repeated(rt, alloc, parts);
    length_of(target.answer(alloc, method, request.items(), now))
}

/// Whether the hostname becomes the long one, and then a Get of so many paths has the longest reply, and one of more octets is
/// refused.
fn gets_up_to_the_limit(rt: &impl Abort, alloc: Global, target: &mut Target) -> bool
    requires { target.old.port.book.opened.schema ≡ target.old.desk }
{
    let name: &[(&[u8], u32)] = &[(LONG_NAME, 1), (&[120; 89], 1), (&[120; 997], 100)];
    let most: &[(&[u8], u32)] = &[(ROOT, 16), (SYSTEM, 26)];
    let more: &[(&[u8], u32)] = &[(ROOT, 17), (SYSTEM, 25)];
    reply_length(rt, alloc, target, Method::Set, name, 1000).is_ok()
        && reply_length(rt, alloc, target, Method::Get, most, 1000) == Ok(4_194_304)
        && reply_length(rt, alloc, target, Method::Get, more, 1000) == Err(Refusal::TooLarge)
}

fn new_target_gets_up_to_the_limit(rt: &impl Abort, alloc: Global) -> bool {
    let mut target = new_target(rt, alloc, None);
    gets_up_to_the_limit(rt, alloc, &mut target)
}

#[test]
fn a_get_at_the_limit_and_above(rt: HostRuntime) {
    assert!(rt; new_target_gets_up_to_the_limit(&rt, rt.alloc()));
}

/// How long the reply of a new target to a Set of these parts is.
fn set_length(rt: &impl Abort, alloc: Global, parts: &[(&[u8], u32)]) -> Result<usize, Refusal> {
    let mut target = new_target(rt, alloc, None);
    reply_length(rt, alloc, &mut target, Method::Set, parts, LATEST)
}

#[test]
fn a_set_at_the_limit(rt: HostRuntime) {
    let most: &[(&[u8], u32)] = &[(LONG_DELETE, 1), (&[120; 992], 4228), (&[120; 96], 1)];
    assert_eq!(rt; set_length(&rt, rt.alloc(), most), Ok(4_194_304));
}

/// Whether a reply is the stamp of a first entry.
fn is_first(found: &Result<Bytes, Refusal>) -> bool {
    matches!(found, Ok(reply) if reply.items() == b"\x20\xe8\x07".as_slice())
}

/// Whether a Set of one octet too many is refused, the tree is empty behind it, and the next stamp is that of a first entry.
fn refuses_above_the_limit(rt: &impl Abort, alloc: Global, target: &mut Target) -> bool
    requires { target.old.port.book.opened.schema ≡ target.old.desk }
{
    let more: &[(&[u8], u32)] = &[(LONGER_DELETE, 1), (&[120; 992], 4228), (&[120; 97], 1)];
    let root: &[(&[u8], u32)] = &[(ROOT, 1)];
    reply_length(rt, alloc, target, Method::Set, more, LATEST) == Err(Refusal::TooLarge)
        && reply_length(rt, alloc, target, Method::Get, root, 1000) == Err(Refusal::NotFound)
        && is_first(&target.answer(alloc, Method::Set, b"", 1000))
}

fn new_target_refuses_above_the_limit(rt: &impl Abort, alloc: Global) -> bool {
    let mut target = new_target(rt, alloc, None);
    refuses_above_the_limit(rt, alloc, &mut target)
}

#[test]
fn a_set_above_the_limit_changes_nothing(rt: HostRuntime) {
    assert!(rt; new_target_refuses_above_the_limit(&rt, rt.alloc()));
}
