//! Reading the messages of a repeated field.
ghost use Rattle.std.specs.Prelude.{◌≡◌};
ghost use Rattle.pb_message.specs.Values.{pieces_under};
ghost use Rattle.gnmi_data_msg.specs.Parts.{IsReadAs, each};

use base_lists::Seq;
use gnmi_data_msg::MsgFault;
use pb_message::next_piece;
use std::alloc::Global;

/// What the octets of one message tell.
pub(crate) trait Told: Drop {
    ghost use Rattle.std.specs.Prelude.{List, ℕ, Option};

    ghost meaning: { List ℕ → Option Self };

    fn read(alloc: Global, octets: &[u8]) -> Result<Self, MsgFault>
        ensures { IsReadAs result (meaning octets.now) };
}

/// What each message of the number tells, in their order.
pub(crate) fn each_told<T: Told>(
    alloc: Global,
    octets: &[u8],
    number: u32,
) -> Result<Seq<T>, MsgFault>
    ensures { IsReadAs result (each T.meaning (pieces_under number octets.now)) }
{
    let mut told = Seq::empty(alloc);
    let mut place = 0;
    while let Some((piece, next)) = next_piece(octets, place, number) {
        told.push(T::read(alloc, piece)?)?;
        place = next;
    }
    Ok(told)
}
