// The timestamp at the end of a reply, for which there is room already.
ghost use Rattle.std.specs.Prelude.{◌≡◌, ◌+◌, ◌≤◌, ◌++◌, vec_len, vec_capacity};
ghost use Rattle.base_lists.specs.SevenBits.{groups_of};
ghost use Rattle.gnmi_data_msg.specs.Writing.{number_field};
ghost use Rattle.gnmi_set_msg.specs.Numbers.{reply_timestamp};

use base_lists::{Bytes, Seq};

/// The octets that the field of a stamp has at most: its tag, and ten groups of seven bits.
pub(crate) const MOST_STAMP_OCTETS: usize = 11;

/// The tag of a SetResponse's field 4, a varint.
const STAMP_TAG: u8 = 32;

/// Adds the fewest groups of seven bits of the number, the lowest first.
#[tactic(auto, using(crate::proofs::Groups::none_written, crate::proofs::Groups::one_written, crate::proofs::Groups::last_written, crate::proofs::Groups::has_room))]
fn put_groups(number: u64, out: &mut Vec<u8>)
    requires { vec_len out.old + 10 ≤ vec_capacity out.old }
    ensures { out.new.items ≡ out.old.items ++ groups_of 9 number }
{
    let mut left = number;
    'groups: while left >= 128 {
        out.push_reserved((left % 128) as u8 + 128);
        left /= 128;
    }
    out.push_reserved(left as u8);
}

/// The reply, which has no stamp yet, with this one. Takes no memory.
#[tactic(auto, using(crate::proofs::Groups::no_stamp, crate::proofs::Groups::stamp_behind))]
pub(crate) fn with_stamp(front: Vec<u8>, stamp: u64) -> Bytes
    requires { vec_len front + MOST_STAMP_OCTETS ≤ vec_capacity front }
    ensures { result ≡ front.items ++ number_field reply_timestamp stamp }
{
    if stamp == 0 {
        return Seq::from_vec(front);
    }
    let mut reply = front;
    reply.push_reserved(STAMP_TAG);
    put_groups(stamp, &mut reply);
    Seq::from_vec(reply)
}
