// The octets of gates.
ghost use Rattle.std.specs.Prelude.{◌≡◌, ◌≢◌};
ghost use Rattle.journal_format.specs.Gates.{open_gate, closed_gate};

/// The octet in front of an entry's record.
pub const OPEN_GATE: u8 = 0xA5;

/// What is written behind the last entry. Every octet but an open gate is a closed one.
pub const CLOSED_GATE: u8 = 0x00;

/// The gates that are read and written are those of the format.
pub fn gates_are_the_formats()
    ensures open { OPEN_GATE ≡ open_gate }
    ensures closed { CLOSED_GATE ≡ closed_gate }
    ensures differ { closed_gate ≢ open_gate }
{}
