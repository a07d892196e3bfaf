ghost use Rattle.std.specs.Prelude.{◌≡◌, ◌++◌, ◌<◌, ◌^◌, length, OnOk, OnErr};
ghost use Rattle.base_lists.specs.Fronts.{AppendsFront};
ghost use Rattle.grpc_core.specs.Messages.{standing, framed};

use base_lists::{Bytes, NoMemory};

/// How many octets a message may have.
const LARGEST_MESSAGE: usize = 4_194_304;

/// Why no further message is read of a stream.
#[derive(Clone, Copy, Debug, PartialEq, Eq)]
pub enum SplitFault {
    /// The flag before a message isn't 0.
    Compressed,
    /// The length before a message is above 4,194,304.
    TooLarge,
    NoMemory,
}

impl From<NoMemory> for SplitFault {
    ghost use Rattle.grpc_core.specs.declared.message.SplitFault.TheVariants.{NoMemory as OutOfMemory};

    ghost from_gives = { λ _ fault. fault ≡ OutOfMemory };

    fn from(_e: NoMemory) -> SplitFault {
        SplitFault::NoMemory
    }
}

/// What stands first in octets.
#[derive(Clone, Copy, Debug, PartialEq, Eq)]
pub enum Standing {
    /// The beginning of a message.
    Waiting,
    /// A message of so many octets, behind the five that stand before it.
    Whole(usize),
    Faulty(SplitFault),
}

/// What stands first in the octets.
pub(crate) fn first_in(octets: &[u8]) -> Standing
    ensures { result ≡ standing octets.now }
{
    let [flag, a, b, c, d, more @ ..] = octets else {
        return Standing::Waiting;
    };
    if *flag != 0 {
        return Standing::Faulty(SplitFault::Compressed);
    }
    let size = u32::from_be_bytes([*a, *b, *c, *d]) as usize;
    if size > LARGEST_MESSAGE {
        Standing::Faulty(SplitFault::TooLarge)
    } else if more.len() < size {
        Standing::Waiting
    } else {
        Standing::Whole(size)
    }
}

/// Adds a message as it is sent: a flag of one octet, which is 0, the length in four octets, the highest first, and the
/// message (gRPC over HTTP/2, "Length-Prefixed-Message").
pub fn frame_message(body: &[u8], out: &mut Bytes) -> Result<(), NoMemory>
    requires { length body.now < 2 ^ 32 }
    ensures ok { OnOk result (out.new ≡ out.old ++ framed body.now) }
    // What was added before memory ran out is a front of it.
    ensures err { OnErr result (AppendsFront out.old out.new (framed body.now)) }
{
    let [a, b, c, d] = (body.len() as u32).to_be_bytes();
    out.extend_from_slice(&[0, a, b, c, d])?;
    out.extend_from_slice(body)
}
