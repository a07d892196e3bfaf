ghost use Rattle.std.specs.Prelude.{◌≡◌};

/// How a run ends.
#[derive(Clone, Copy, Debug, PartialEq, Eq)]
pub enum Ending {
    Done,
    NoMemory,
    BadWords,
    /// The target refused the request.
    Refused,
    /// The target's answer is none that this client can read.
    BadAnswer,
    /// The target can't be reached, or the connection broke before it answered.
    NoAnswer,
    OutputFault,
}

impl Ending {
    ghost use Rattle.ask_command.specs.Printing.{exit_status};

    /// The status that the process is to end with.
    pub fn exit_status(self) -> u8
        ensures { result ≡ exit_status self }
    {
        match self {
            Ending::Done => 0,
            Ending::NoMemory => 1,
            Ending::BadWords => 2,
            Ending::Refused => 3,
            Ending::BadAnswer => 4,
            Ending::NoAnswer => 5,
            Ending::OutputFault => 7,
        }
    }
}
