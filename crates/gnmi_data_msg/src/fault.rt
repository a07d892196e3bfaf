use base_lists::NoMemory;

/// Why no message was read.
#[derive(Clone, Copy, Debug, PartialEq, Eq)]
pub enum MsgFault {
    /// The octets aren't fields, here or in a message inside this one that is read, or a string isn't UTF-8. What is skipped
    /// isn't looked at: unknown fields, fields with another wire type, and messages of a oneof that others come after.
    BadMessage,
    NoMemory,
}

impl From<NoMemory> for MsgFault {
    ghost use Rattle.std.specs.Prelude.{◌≡◌};
    ghost use Rattle.gnmi_data_msg.specs.declared.fault.MsgFault.TheVariants.{NoMemory as OutOfMemory};

    ghost from_gives = { λ _ fault. fault ≡ OutOfMemory };

    fn from(_e: NoMemory) -> MsgFault {
        MsgFault::NoMemory
    }
}
