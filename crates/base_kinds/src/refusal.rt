ghost use Rattle.std.specs.Prelude.{◌≡◌, ◌↔◌, IsTrue};
ghost use Rattle.base_kinds.specs.Refusals.{number_of, code_of, text_of};

use base_lists::NoMemory;

/// Why a request is refused.
#[derive(Clone, Copy, Debug, PartialEq, Eq)]
pub enum Refusal {
    BadMessage,
    TooLarge,
    Compressed,
    NoMethod,
    BadPath,
    NotInSchema,
    BadValue,
    NotFound,
    Unsupported,
    TrialOpen,
    NoTrial,
    WrongId,
    BadDuration,
    MixedAction,
    BadId,
    TreeInvalid,
    TreeFull,
    LogFull,
    DiskFault,
    BadSubscribe,
    NoMemory,
}

impl Refusal {
    /// Whether memory ran out.
    pub fn is_memory(&self) -> bool
        ensures { IsTrue result ↔ (self.now ≡ Refusal.NoMemory) }
    {
        *self == Refusal::NoMemory
    }

    /// The refusal's number, as it is printed. 20 isn't used.
    pub fn number(&self) -> u8
        ensures { result ≡ number_of self.now }
    {
        match self {
            Refusal::BadMessage => 1,
            Refusal::TooLarge => 2,
            Refusal::Compressed => 3,
            Refusal::NoMethod => 4,
            Refusal::BadPath => 5,
            Refusal::NotInSchema => 6,
            Refusal::BadValue => 7,
            Refusal::NotFound => 8,
            Refusal::Unsupported => 9,
            Refusal::TrialOpen => 10,
            Refusal::NoTrial => 11,
            Refusal::WrongId => 12,
            Refusal::BadDuration => 13,
            Refusal::MixedAction => 14,
            Refusal::BadId => 15,
            Refusal::TreeInvalid => 16,
            Refusal::TreeFull => 17,
            Refusal::LogFull => 18,
            Refusal::DiskFault => 19,
            Refusal::BadSubscribe => 21,
            Refusal::NoMemory => 22,
        }
    }

    /// The gRPC status code that goes with it.
    pub fn code(&self) -> u8
        ensures { result ≡ code_of self.now }
    {
        match self {
            Refusal::BadMessage => 13,
            Refusal::TooLarge => 8,
            Refusal::Compressed => 12,
            Refusal::NoMethod => 12,
            Refusal::BadPath => 3,
            Refusal::NotInSchema => 3,
            Refusal::BadValue => 3,
            Refusal::NotFound => 5,
            Refusal::Unsupported => 12,
            Refusal::TrialOpen => 9,
            Refusal::NoTrial => 9,
            Refusal::WrongId => 3,
            Refusal::BadDuration => 3,
            Refusal::MixedAction => 3,
            Refusal::BadId => 3,
            Refusal::TreeInvalid => 3,
            Refusal::TreeFull => 8,
            Refusal::LogFull => 8,
            Refusal::DiskFault => 14,
            Refusal::BadSubscribe => 3,
            Refusal::NoMemory => 10,
        }
    }

    /// The text of the `grpc-message` that goes with it, in ASCII.
    pub fn text(&self) -> &'static [u8]
        ensures { result.now ≡ text_of self.now }
    {
        match self {
            Refusal::BadMessage => b"bad message",
            Refusal::TooLarge => b"too large",
            Refusal::Compressed => b"compressed message",
            Refusal::NoMethod => b"no such method",
            Refusal::BadPath => b"bad path",
            Refusal::NotInSchema => b"not in schema",
            Refusal::BadValue => b"bad value",
            Refusal::NotFound => b"not found",
            Refusal::Unsupported => b"unsupported",
            Refusal::TrialOpen => b"trial open",
            Refusal::NoTrial => b"no trial",
            Refusal::WrongId => b"wrong id",
            Refusal::BadDuration => b"bad duration",
            Refusal::MixedAction => b"mixed action",
            Refusal::BadId => b"bad id",
            Refusal::TreeInvalid => b"tree invalid",
            Refusal::TreeFull => b"tree full",
            Refusal::LogFull => b"log full",
            Refusal::DiskFault => b"disk fault",
            Refusal::BadSubscribe => b"bad subscribe",
            Refusal::NoMemory => b"no memory",
        }
    }
}

impl From<NoMemory> for Refusal {
    ghost use Rattle.base_kinds.specs.declared.refusal.Refusal.TheVariants.{NoMemory as OutOfMemory};

    ghost from_gives = { λ _ refusal. refusal ≡ OutOfMemory };

    fn from(_e: NoMemory) -> Refusal {
        Refusal::NoMemory
    }
}
