ghost use Rattle.std.specs.Prelude.{◌≡◌};
ghost use Rattle.pb_wire.specs.declared.field.WireFault.TheVariants.{NoMemory as OutOfMemory};

use base_lists::{NoMemory, Seq};

/// What a field holds.
#[derive(Clone, Copy, PartialEq)]
pub enum Body {
    /// Wire type 0.
    Varint(u64),
    /// Wire type 1: eight octets, little-endian.
    Eight(u64),
    /// Wire type 2: the place of its first octet in the message, and the place after its last.
    Octets(usize, usize),
    /// Wire type 5: four octets, little-endian.
    Four(u32),
}

/// One field of a message, under its number.
#[derive(Clone, Copy, PartialEq)]
pub struct Field {
    pub number: u32,
    pub body: Body,
}

/// The fields of a message, in their order in it.
pub type Fields = Seq<Field>;

#[derive(Clone, Copy, Debug, PartialEq, Eq)]
pub enum WireFault {
    /// The octets aren't a message: a tag, a varint or a length breaks off or is out of range, or a wire type is a
    /// group's or none.
    BadMessage,
    NoMemory,
}

impl From<NoMemory> for WireFault {
    ghost from_gives = { λ _ e. e ≡ OutOfMemory };

    fn from(_e: NoMemory) -> WireFault {
        WireFault::NoMemory
    }
}
