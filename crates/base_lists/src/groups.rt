//! Numbers in groups of seven bits, as header blocks and varints have them.
ghost use Rattle.std.specs.Prelude.{◌≡◌, ◌++◌, OnOk, OnErr};
ghost use Rattle.base_lists.specs.Fronts.{AppendsFront};
ghost use Rattle.base_lists.specs.SevenBits.{groups_of};

use crate::Bytes;
use crate::no_memory::NoMemory;

/// Adds the fewest groups of the number, the lowest seven bits first. Nine groups and a last one hold 64 bits.
pub fn put_groups(number: u64, out: &mut Bytes) -> Result<(), NoMemory>
    ensures ok { OnOk result (out.new ≡ out.old ++ groups_of 9 number) }
    // What was added before memory ran out is a prefix of the groups.
    ensures err { OnErr result (AppendsFront out.old out.new (groups_of 9 number)) }
{
    let mut left = number;
    while left >= 128 {
        out.push((left % 128) as u8 + 128)?;
        left /= 128;
    }
    out.push(left as u8)
}
