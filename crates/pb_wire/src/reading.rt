ghost use Rattle.std.specs.Prelude.{◌≡◌, ◌<◌, ◌≤◌, ℕ, List, None, length, option_map, IfSome, IfOk, IsErrOf};
ghost use Rattle.std.specs.Int.{w32, w64};
ghost use Rattle.pb_wire.specs.Message.{IsMessage, IsNextField, IsWithin, AreWithin};
ghost use Rattle.pb_wire.specs.inner.Reading.{value_in, last_place, spelling_at, varint_at, number_at, delimited_at, body_at, field_at};
ghost use Rattle.pb_wire.specs.declared.field.Field.{Field as FieldValue};

use crate::field::{Body, Field, Fields, WireFault};
use base_lists::Seq;
use std::alloc::Global;

/// The place of a varint's last octet, which is the first one below 128.
fn last_in(octets: &[u8]) -> Option<usize>
    ensures { result ≡ last_place octets.now }
{
    octets.iter().position(|octet| *octet < 128)
}

/// The octets of the varint at the front, and those after it.
fn spelling_in(octets: &[u8]) -> Option<(&[u8], &[u8])>
    ensures shorter { IfSome result (λ x. length x.1.now < length octets.now) }
    ensures value { option_map (λ x. (x.0.now, x.1.now)) result ≡ spelling_at octets.now }
{
    let last = last_in(octets)?;
    if last >= 10 {
        return None;
    }
    Some(octets.split_at(last + 1))
}

/// The number that the octets spell, if 64 bits hold it.
fn number_of(octets: &[u8]) -> Option<u64>
    ensures { result ≡ value_in octets.now }
{
    let mut value = 0u64;
    let mut at = octets.len();
    while at > 0 {
        if value >= 1 << 57 {
            return None;
        }
        at -= 1;
        value = value * 128 + u64::from(octets[at] % 128);
    }
    Some(value)
}

#[tactic(auto, unfolding(crate::specs::inner::Reading::varint_at))]
fn varint_in(octets: &[u8]) -> Option<(u64, &[u8])>
    ensures shorter { IfSome result (λ x. length x.1.now < length octets.now) }
    ensures value { option_map (λ x. (x.0, x.1.now)) result ≡ varint_at octets.now }
{
    let (spelling, rest) = spelling_in(octets)?;
    let value = number_of(spelling)?;
    Some((value, rest))
}

fn eight_in(octets: &[u8]) -> Option<(u64, &[u8])>
    ensures shorter { IfSome result (λ x. length x.1.now ≤ length octets.now) }
    ensures value { option_map (λ x. (x.0, x.1.now)) result ≡ number_at w64 octets.now }
{
    if octets.len() < 8 {
        return None;
    }
    let (front, rest) = octets.split_at(8);
    let number = u64::from_le_bytes([
        front[0], front[1], front[2], front[3], front[4], front[5], front[6], front[7],
    ]);
    Some((number, rest))
}

fn four_in(octets: &[u8]) -> Option<(u32, &[u8])>
    ensures shorter { IfSome result (λ x. length x.1.now ≤ length octets.now) }
    ensures value { option_map (λ x. (x.0, x.1.now)) result ≡ number_at w32 octets.now }
{
    if octets.len() < 4 {
        return None;
    }
    let (front, rest) = octets.split_at(4);
    let number = u32::from_le_bytes([front[0], front[1], front[2], front[3]]);
    Some((number, rest))
}

#[tactic(auto, unfolding(crate::specs::inner::Reading::delimited_at))]
fn delimited_in(total: usize, octets: &[u8]) -> Option<(Body, &[u8])>
    requires { length octets.now ≤ total }
    ensures shorter { IfSome result (λ x. length x.1.now ≤ length octets.now) }
    ensures value { option_map (λ x. (x.0, x.1.now)) result ≡ delimited_at total octets.now }
{
    let (len, rest) = varint_in(octets)?;
    let len = len as usize;
    if rest.len() < len {
        return None;
    }
    let from = total - rest.len();
    Some((Body::Octets(from, from + len), &rest[len..]))
}

#[tactic(auto, unfolding(crate::specs::inner::Reading::body_at))]
fn body_in(total: usize, kind: u64, octets: &[u8]) -> Option<(Body, &[u8])>
    requires { length octets.now ≤ total }
    ensures shorter { IfSome result (λ x. length x.1.now ≤ length octets.now) }
    ensures value { option_map (λ x. (x.0, x.1.now)) result ≡ body_at total kind octets.now }
{
    match kind {
        0 => {
            let (value, rest) = varint_in(octets)?;
            Some((Body::Varint(value), rest))
        }
        1 => {
            let (value, rest) = eight_in(octets)?;
            Some((Body::Eight(value), rest))
        }
        2 => delimited_in(total, octets),
        5 => {
            let (value, rest) = four_in(octets)?;
            Some((Body::Four(value), rest))
        }
        _ => None,
    }
}

/// The field at the front of the octets, which are the last of a message of `total` octets.
#[tactic(auto, unfolding(crate::specs::inner::Reading::field_at))]
fn field_in(total: usize, octets: &[u8]) -> Option<(Field, &[u8])>
    requires { length octets.now ≤ total }
    ensures shorter { IfSome result (λ x. length x.1.now < length octets.now) }
    ensures value { option_map (λ x. (x.0, x.1.now)) result ≡ field_at total octets.now }
{
    let (tag, rest) = varint_in(octets)?;
    if tag < 8 || tag >= 1 << 32 {
        return None;
    }
    let (body, rest) = body_in(total, tag % 8, rest)?;
    let number = (tag / 8) as u32;
    Some((Field { number, body }, rest))
}

/// The field that begins at a place of the message, and the place after it: so a message is read without a list of its
/// fields, from place 0 to its end. Takes no memory.
pub fn next_field(octets: &[u8], place: usize) -> Option<(Field, usize)>
    requires { place ≤ length octets.now }
    ensures some { IfSome result (λ x. IsNextField octets.now place x.0 x.1) }
    ensures none { result ≡ None
        → (field : FieldValue) (next : ℕ) → IsNextField octets.now place field next → ⊥ }
    ensures within { IfSome result (λ x. IsWithin (length octets.now) x.0.body) }
{
    let (field, rest) = field_in(octets.len(), &octets[place..])?;
    Some((field, octets.len() - rest.len()))
}

/// The fields of a message, in their order, with their places in it.
pub fn fields_of(alloc: Global, octets: &[u8]) -> Result<Fields, WireFault>
    // These are the message's fields, and no others are.
    ensures found { IfOk result (λ fields. IsMessage octets.now fields) }
    ensures only { IfOk result (λ fields.
        (others : List FieldValue) → IsMessage octets.now others → others ≡ fields) }
    ensures within { IfOk result (λ fields. AreWithin octets.now fields) }
    // A bad message has none.
    ensures bad { IsErrOf result WireFault.BadMessage
        → (fields : List FieldValue) → IsMessage octets.now fields → ⊥ }
{
    let mut fields = Seq::empty(alloc);
    let mut rest = octets;
    while !rest.is_empty() {
        let Some((field, after)) = field_in(octets.len(), rest) else {
            return Err(WireFault::BadMessage);
        };
        fields.push(field)?;
        rest = after;
    }
    Ok(fields)
}
