ghost use Rattle.std.specs.Prelude.{◌≡◌};

/// How a run ends.
#[derive(Clone, Copy, Debug, PartialEq, Eq)]
pub enum Ending {
    Done,
    NoMemory,
    BadWords,
    NoSchema,
    /// The tree of the journal doesn't keep to the schema.
    SchemaUnfit,
    JournalNotEmpty,
    JournalDamaged,
    DiskFault,
    InputFault,
    OutputFault,
    /// No further connections can be accepted.
    DoorFault,
    BadLine,
    ConnectionBroken,
}

impl Ending {
    ghost use Rattle.program.specs.Ending.{exit_status};

    /// The status that the process is to end with.
    pub fn exit_status(self) -> u8
        ensures { result ≡ exit_status self }
    {
        match self {
            Ending::Done => 0,
            Ending::NoMemory => 1,
            Ending::BadWords => 2,
            Ending::NoSchema => 3,
            Ending::SchemaUnfit => 3,
            Ending::JournalNotEmpty => 4,
            Ending::JournalDamaged => 4,
            Ending::DiskFault => 5,
            Ending::InputFault => 6,
            Ending::OutputFault => 7,
            Ending::DoorFault => 8,
            Ending::BadLine => 9,
            Ending::ConnectionBroken => 10,
        }
    }
}
