//! What is read of the octets that a connection wrote.
use base_lists::Bytes;
use std::alloc::Global;

/// The length, the kind and the stream of the frame that comes first (RFC 9113 section 4.1).
fn head_of(octets: &[u8]) -> Option<(usize, u8, u8)> {
    let length = *octets.get(1)? as usize * 256 + *octets.get(2)? as usize;
    Some((length, *octets.get(3)?, *octets.get(8)?))
}

/// The payloads of the frames on a stream, one behind the other: of all, or of DATA alone.
pub(crate) fn payloads(alloc: Global, octets: &[u8], stream: u8, data_alone: bool) -> Bytes {
    let mut payloads = Bytes::empty(alloc);
    let mut left = octets;
    for _ in 0..octets.len() {
        let Some((length, kind, on)) = head_of(left) else {
            break;
        };
        let end = length.saturating_add(9);
        if on == stream && (kind == 0 || !data_alone) {
            let _ = payloads.extend_from_slice(left.get(9..end).unwrap_or(&[]));
        }
        left = left.get(end..).unwrap_or(&[]);
    }
    payloads
}

/// Whether both wrote the same on a stream.
fn same_on_stream(alloc: Global, one: &[u8], other: &[u8], stream: u8) -> bool {
    let first = payloads(alloc, one, stream, false);
    let second = payloads(alloc, other, stream, false);
    first.items() == second.items()
}

/// Whether both wrote the same on each stream below this number, however it was cut into frames, and however streams took turns.
pub(crate) fn same_on_streams(alloc: Global, one: &[u8], other: &[u8], streams: u8) -> bool {
    for stream in 0..streams {
        if !same_on_stream(alloc, one, other, stream) {
            return false;
        }
    }
    true
}

/// Whether what one wrote on a stream is a front of what the other did.
fn front_on_stream(alloc: Global, front: &[u8], whole: &[u8], stream: u8) -> bool {
    let first = payloads(alloc, front, stream, false);
    let second = payloads(alloc, whole, stream, false);
    second.items().starts_with(first.items())
}

/// Whether what one wrote on each stream is a front of what the other did.
pub(crate) fn fronts_on_streams(alloc: Global, front: &[u8], whole: &[u8], streams: u8) -> bool {
    for stream in 0..streams {
        if !front_on_stream(alloc, front, whole, stream) {
            return false;
        }
    }
    true
}

/// A variable-length integer of up to two octets, and what stands behind it.
fn number(octets: &[u8]) -> Option<(usize, &[u8])> {
    match octets {
        [low, rest @ ..] if *low < 128 => Some((*low as usize, rest)),
        [low, high, rest @ ..] if *high < 128 => {
            Some((*low as usize % 128 + *high as usize * 128, rest))
        }
        _ => None,
    }
}

/// A field of a message of protobuf.
#[derive(Clone, Copy)]
struct Field<'a> {
    tag: u8,
    value: &'a [u8],
    rest: &'a [u8],
}

/// The first field, with its octets where it is one of octets.
fn first_field(octets: &[u8]) -> Option<Field<'_>> {
    let (tag, behind) = octets.split_first()?;
    let (count, rest) = number(behind)?;
    if *tag % 8 == 0 {
        return Some(Field {
            tag: *tag,
            value: &[],
            rest,
        });
    }
    Some(Field {
        tag: *tag,
        value: rest.get(..count)?,
        rest: rest.get(count..)?,
    })
}

/// Leaves and their values.
pub(crate) type Leaves<'a> = Vec<(&'a [u8], &'a [u8])>;

/// The leaves but the one at this path.
fn without<'a>(alloc: Global, leaves: &Leaves<'a>, path: &[u8]) -> Option<Leaves<'a>> {
    let mut left = Vec::new(alloc);
    for leaf in leaves.as_slice() {
        if leaf.0 != path {
            left.push(*leaf).ok()?;
        }
    }
    Some(left)
}

/// The path and the value of an Update.
fn update_of(octets: &[u8]) -> Option<(&[u8], &[u8])> {
    let path = first_field(octets)?;
    let value = first_field(path.rest)?;
    Some((path.value, value.value))
}

/// The leaves with that of an Update in its place.
fn updated<'a>(alloc: Global, leaves: &Leaves<'a>, update: &'a [u8]) -> Option<Leaves<'a>> {
    let (path, value) = update_of(update)?;
    let mut left = without(alloc, leaves, path)?;
    left.push((path, value)).ok()?;
    Some(left)
}

/// The leaves behind a Notification.
fn noted<'a>(alloc: Global, leaves: Leaves<'a>, note: &'a [u8]) -> Option<Leaves<'a>> {
    let mut leaves = leaves;
    let mut left = note;
    for _ in 0..note.len() {
        let Some(next) = first_field(left) else {
            break;
        };
        match next.tag {
            0x22 => leaves = updated(alloc, &leaves, next.value)?,
            0x2a => leaves = without(alloc, &leaves, next.value)?,
            _ => {}
        }
        left = next.rest;
    }
    Some(leaves)
}

/// The first field of the message of gRPC that comes first, and what stands behind the message.
fn first_message(data: &[u8]) -> Option<(Field<'_>, &[u8])> {
    let [0, 0, 0, high, low, rest @ ..] = data else {
        return None;
    };
    let length = *high as usize * 256 + *low as usize;
    Some((first_field(rest.get(..length)?)?, rest.get(length..)?))
}

/// What the messages of Subscribe that stand in the DATA of a stream fold to.
pub(crate) fn folded(alloc: Global, data: &[u8]) -> Option<Leaves<'_>> {
    let mut leaves = Vec::new(alloc);
    let mut left = data;
    for _ in 0..data.len() {
        let Some((message, rest)) = first_message(left) else {
            break;
        };
        if message.tag == 0x0a {
            leaves = noted(alloc, leaves, message.value)?;
        }
        left = rest;
    }
    if left.is_empty() { Some(leaves) } else { None }
}

/// Whether they are the same leaves, in any order.
fn same_leaves(one: &Leaves<'_>, other: &Leaves<'_>) -> bool {
    if one.len() != other.len() {
        return false;
    }
    for leaf in one.as_slice() {
        if !other.as_slice().contains(leaf) {
            return false;
        }
    }
    true
}

/// Whether both are there, and the same leaves, so many.
fn same_folds(one: &Option<Leaves<'_>>, other: &Option<Leaves<'_>>, count: usize) -> bool {
    match (one, other) {
        (Some(one), Some(other)) => one.len() == count && same_leaves(one, other),
        _ => false,
    }
}

/// Whether what is said on two streams folds to the same leaves, so many.
pub(crate) fn fold_alike(alloc: Global, octets: &[u8], one: u8, other: u8, count: usize) -> bool {
    let first = payloads(alloc, octets, one, true);
    let second = payloads(alloc, octets, other, true);
    let one = folded(alloc, first.items());
    let other = folded(alloc, second.items());
    same_folds(&one, &other, count)
}
