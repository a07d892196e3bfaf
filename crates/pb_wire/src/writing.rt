ghost use Rattle.std.specs.Prelude.{◌≡◌, ◌≤◌, [], ◌∷◌, ◌++◌, OnOk, OnErr};
ghost use Rattle.pb_wire.specs.Varint.{shortest};
ghost use Rattle.pb_wire.specs.Message.{IsMessage};
ghost use Rattle.base_lists.specs.Fronts.{AppendsFront};
ghost use Rattle.pb_wire.specs.Writing.{varint_field, octets_field, octets_body};
ghost use Rattle.pb_wire.specs.declared.field.Body.TheVariants.{Varint};

use base_lists::{Bytes, NoMemory, put_groups};

/// Adds the shortest spelling of the number.
#[tactic(auto, unfolding(crate::specs::Varint::shortest))]
fn put_shortest(value: u64, out: &mut Bytes) -> Result<(), NoMemory>
    ensures ok { OnOk result (out.new ≡ out.old ++ shortest value) }
    ensures err { OnErr result (AppendsFront out.old out.new (shortest value)) }
{
    put_groups(value, out)
}

/// Adds a field that holds the number, in its shortest spelling.
pub fn put_varint(number: u32, value: u64, out: &mut Bytes) -> Result<(), NoMemory>
    requires some { 1 ≤ number }
    requires one_octet { number ≤ 15 }
    ensures ok { OnOk result (out.new ≡ out.old ++ varint_field number value) }
    // What was added before memory ran out is a front of the field's octets.
    ensures err { OnErr result (AppendsFront out.old out.new (varint_field number value)) }
    // These octets are just that field.
    ensures is_field { IsMessage (varint_field number value)
        (record { number = number; body = Varint value } ∷ []) }
{
    out.push((number * 8) as u8)?;
    put_shortest(value, out)
}

/// Adds a field that holds the octets, with their length in its shortest spelling.
pub fn put_octets(number: u32, octets: &[u8], out: &mut Bytes) -> Result<(), NoMemory>
    requires some { 1 ≤ number }
    requires one_octet { number ≤ 15 }
    ensures ok { OnOk result (out.new ≡ out.old ++ octets_field number octets.now) }
    // What was added before memory ran out is a front of the field's octets.
    ensures err { OnErr result (AppendsFront out.old out.new (octets_field number octets.now)) }
    // These octets are just that field.
    ensures is_field { IsMessage (octets_field number octets.now)
        (record { number = number; body = octets_body octets.now } ∷ []) }
{
    out.push((number * 8 + 2) as u8)?;
    put_shortest(octets.len() as u64, out)?;
    out.extend_from_slice(octets)
}
