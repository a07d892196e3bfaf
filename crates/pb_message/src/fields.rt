// The fields of a message one after the other.
ghost use Rattle.std.specs.Prelude.{◌≡◌, ◌<◌, ◌≤◌, [], ◌∷◌, length, drop, None, IfSome};
ghost use Rattle.pb_wire.specs.Message.{IsWithin};
ghost use Rattle.pb_message.specs.Fields.{read_from, fields_at, is_message};
ghost use Rattle.pb_message.specs.Values.{has_number_above};

use pb_wire::{Field, next_field};

/// The field that begins at a place of the message, and the place after it.
pub(crate) fn field_at_place(octets: &[u8], place: usize) -> Option<(Field, usize)>
    requires { place ≤ length octets.now }
    ensures some { IfSome result (λ x.
        fields_at octets.now place ≡ x.0 ∷ fields_at octets.now x.1) }
    ensures left { IfSome result (λ x.
        (read_from octets.now place).1 ≡ (read_from octets.now x.1).1) }
    ensures later { IfSome result (λ x. place < x.1) }
    ensures inside { IfSome result (λ x. x.1 ≤ length octets.now) }
    ensures within { IfSome result (λ x. IsWithin (length octets.now) x.0.body) }
    ensures none { result ≡ None → fields_at octets.now place ≡ [] }
    ensures end { result ≡ None → (read_from octets.now place).1 ≡ drop place octets.now }
{
    next_field(octets, place)
}

/// Whether the octets are a message. Takes no memory.
pub fn is_message(octets: &[u8]) -> bool
    ensures { result ≡ is_message octets.now }
{
    let mut place = 0;
    while let Some((_field, next)) = field_at_place(octets, place) {
        place = next;
    }
    place == octets.len()
}

/// Whether some field of the message has a number above this one. Takes no memory.
pub fn has_number_above(octets: &[u8], most: u32) -> bool
    ensures { result ≡ has_number_above most octets.now }
{
    let mut place = 0;
    while let Some((field, next)) = field_at_place(octets, place) {
        if field.number > most {
            return true;
        }
        place = next;
    }
    false
}
