// Single fields.
ghost use Rattle.std.specs.Prelude.{◌≡◌, ◌≤◌, length, true, Some, None, option_map, IfOk, IfSome, IsErrOf};
ghost use Rattle.std.specs.List.{concat};
ghost use Rattle.std.specs.Str.{is_utf8};
ghost use Rattle.pb_message.specs.Values.{number_under, text_under, message_under, pieces_from};

use crate::fields::field_at_place;
use crate::pieces::next_piece;
use base_lists::{Bytes, NoMemory, Seq, Text, TextOfFault};
use pb_wire::varint_of;
use std::alloc::Global;

/// The last varint of the number ("Last One Wins"). Takes no memory.
pub fn number_under(octets: &[u8], number: u32) -> Option<u64>
    ensures { result ≡ number_under number octets.now }
{
    let mut last = None;
    let mut place = 0;
    while let Some((field, next)) = field_at_place(octets, place) {
        last = varint_of(&field, number).or(last);
        place = next;
    }
    last
}

/// The last string of the number, or the empty one. NotUtf8 where some string of the number isn't
/// UTF-8.
#[tactic(auto, using(crate::proofs::ValueSteps::utf8_tests))]
pub fn text_under(alloc: Global, octets: &[u8], number: u32) -> Result<Text, TextOfFault>
    ensures text { IfOk result (λ text. text_under number octets.now ≡ Some text) }
    ensures bad { IsErrOf result TextOfFault.NotUtf8 → text_under number octets.now ≡ None }
{
    match last_text(octets, number) {
        None => Err(TextOfFault::NotUtf8),
        Some(last) => Text::of(alloc, last),
    }
}

/// The octets of the last string of the number, or none of them. None where some string of the
/// number isn't UTF-8.
fn last_text(octets: &[u8], number: u32) -> Option<&[u8]>
    ensures value { option_map (λ text. text.now) result ≡ text_under number octets.now }
    ensures is_utf8 { IfSome result (λ text. is_utf8 text.now ≡ true) }
{
    let mut last: &[u8] = &[];
    let mut place = 0;
    while let Some((piece, next)) = next_piece(octets, place, number) {
        if !is_utf8(piece) {
            return None;
        }
        last = piece;
        place = next;
    }
    Some(last)
}

#[tactic(auto, using(crate::proofs::ValueSteps::utf8_tests))]
fn is_utf8(octets: &[u8]) -> bool
    ensures { result ≡ is_utf8 octets.now }
{
    match std::str::from_utf8(octets) {
        Ok(_) => true,
        Err(_) => false,
    }
}

/// The octets of a single message: those of its occurrences, joined. None where it is absent.
pub fn message_under(alloc: Global, octets: &[u8], number: u32) -> Result<Option<Bytes>, NoMemory>
    ensures { IfOk result (λ message. message ≡ message_under number octets.now) }
{
    match next_piece(octets, 0, number) {
        None => Ok(None),
        Some(_) => {
            let joined = joined_from(alloc, octets, 0, number)?;
            Ok(Some(joined))
        }
    }
}

/// The octets that stand under the number from a place of the message on, joined.
pub(crate) fn joined_from(
    alloc: Global,
    octets: &[u8],
    from: usize,
    number: u32,
) -> Result<Bytes, NoMemory>
    requires { from ≤ length octets.now }
    ensures { IfOk result (λ joined. joined ≡ concat (pieces_from number octets.now from)) }
{
    let mut joined = Seq::empty(alloc);
    let mut place = from;
    while let Some((piece, next)) = next_piece(octets, place, number) {
        joined.extend_from_slice(piece)?;
        place = next;
    }
    Ok(joined)
}
