// Oneofs whose members are messages.
ghost use Rattle.std.specs.Prelude.{◌≡◌, ◌≤◌, List, ℕ, Some, None, ◌==◌, length, IfOk, IfSome};
ghost use Rattle.std.specs.List.{concat, list_any};
ghost use Rattle.pb_wire.specs.Values.{is_member};
ghost use Rattle.pb_message.specs.Values.{pieces_from, member_under, message_members};

use crate::fields::field_at_place;
use crate::values::joined_from;
use base_lists::{Bytes, NoMemory};
use pb_wire::{Body, Field};
use std::alloc::Global;

/// The member of a oneof of messages that the message holds: its number, and its octets, which are
/// those of the last run of its occurrences, joined. The members are given by their numbers. None
/// where the oneof is not set.
pub fn member_under(
    alloc: Global,
    octets: &[u8],
    numbers: &[u32],
) -> Result<Option<(u32, Bytes)>, NoMemory>
    ensures { IfOk result (λ member. member ≡ member_under numbers.now octets.now) }
{
    match run_of(octets, numbers) {
        None => Ok(None),
        Some((number, place)) => {
            let joined = joined_from(alloc, octets, place, number)?;
            Ok(Some((number, joined)))
        }
    }
}

/// The number of the last run of members, and the place at which it begins.
fn run_of(octets: &[u8], numbers: &[u32]) -> Option<(u32, usize)>
    ensures some { IfSome result (λ x. member_under numbers.now octets.now
        ≡ Some (x.0, concat (pieces_from x.0 octets.now x.1))) }
    ensures inside { IfSome result (λ x. x.1 ≤ length octets.now) }
    ensures none { result ≡ None → member_under numbers.now octets.now ≡ None }
{
    let mut run = None;
    let mut place = 0;
    while let Some((field, next)) = field_at_place(octets, place) {
        if is_message_member(&field, numbers) {
            run = Some(begin_of(run, field.number, place));
        }
        place = next;
    }
    run
}

/// The run to which a member at a place belongs: the one so far, if it has its number, or a new
/// one.
fn begin_of(run: Option<(u32, usize)>, number: u32, place: usize) -> (u32, usize)
    ensures number { result.0 ≡ number }
    ensures same { (at : ℕ) → run ≡ Some (number, at) → result.1 ≡ at }
    ensures other { ((at : ℕ) → run ≡ Some (number, at) → ⊥) → result.1 ≡ place }
{
    match run {
        Some((last, at)) if last == number => (number, at),
        _ => (number, place),
    }
}

/// Whether the field is one of the members.
fn is_message_member(field: &Field, numbers: &[u32]) -> bool
    ensures { result ≡ is_member (message_members numbers.now) field.now }
{
    match field.body {
        Body::Octets(_, _) => has_number(numbers, field.number),
        Body::Varint(_) => false,
        Body::Eight(_) => false,
        Body::Four(_) => false,
    }
}

fn has_number(numbers: &[u32], number: u32) -> bool
    ensures { result ≡ list_any (λ n. n == number) numbers.now }
{
    numbers.iter().any(|other| *other == number)
}
