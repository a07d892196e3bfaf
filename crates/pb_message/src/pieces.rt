ghost use Rattle.std.specs.Prelude.{◌≡◌, ◌<◌, ◌≤◌, [], ◌∷◌, length, None, IfSome};
ghost use Rattle.pb_message.specs.Values.{pieces_from};

use crate::fields::field_at_place;
use pb_wire::octets_of;

/// The next octets that the message holds under the number, from a place of it on, and the place
/// after them: so a repeated field is read from place 0 on. Takes no memory.
pub fn next_piece(octets: &[u8], place: usize, number: u32) -> Option<(&[u8], usize)>
    requires { place ≤ length octets.now }
    ensures some { IfSome result (λ x.
        pieces_from number octets.now place ≡ x.0.now ∷ pieces_from number octets.now x.1) }
    ensures later { IfSome result (λ x. place < x.1) }
    ensures inside { IfSome result (λ x. x.1 ≤ length octets.now) }
    ensures none { result ≡ None → pieces_from number octets.now place ≡ [] }
{
    let mut at = place;
    while let Some((field, next)) = field_at_place(octets, at) {
        if let Some(piece) = octets_of(octets, &field, number) {
            return Some((piece, next));
        }
        at = next;
    }
    None
}
