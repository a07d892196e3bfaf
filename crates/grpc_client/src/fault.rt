ghost use Rattle.std.specs.Prelude.{◌≡◌};
ghost use Rattle.grpc_client.specs.Faults.{goes_on};

use base_lists::NoMemory;
use environment::Failed;
use h2_events::RecvFault;

/// Why a call has no message.
#[derive(Clone, Copy, Debug, PartialEq, Eq)]
pub enum CallFault {
    /// The server refused the call with this status of gRPC, which isn't 0.
    Refused(u32),
    /// The response has this status of HTTP, which isn't 200; 0 where it isn't three digits.
    Http(u16),
    /// The response ended without a `grpc-status` that is a decimal number of at most 4,294,967,295, without leading zeros.
    NoStatus,
    /// The status is 0, and the octets aren't one message that isn't compressed, of at most 4,194,304 octets.
    BadReply,
    /// The server broke the protocol, or reset the stream, with this code (RFC 9113 section 7).
    Protocol(u32),
    /// The server's octets ended, or it takes no stream as high as this one.
    Closed,
    ReadFault,
    WriteFault,
    /// The connection has had its most octets, or its last stream.
    Spent,
    NoMemory,
}

impl CallFault {
    /// Whether the connection goes on after it.
    pub(crate) fn goes_on(self) -> bool
        ensures { result ≡ goes_on self }
    {
        matches!(self, CallFault::Refused(_) | CallFault::Http(_))
    }
}

impl From<NoMemory> for CallFault {
    ghost use Rattle.grpc_client.specs.declared.fault.CallFault.TheVariants.{NoMemory as OutOfMemory};

    ghost from_gives = { λ _ fault. fault ≡ OutOfMemory };

    fn from(_fault: NoMemory) -> CallFault {
        CallFault::NoMemory
    }
}

/// Of a write.
impl From<Failed> for CallFault {
    ghost use Rattle.grpc_client.specs.declared.fault.CallFault.TheVariants.{WriteFault as NotWritten};

    ghost from_gives = { λ _ fault. fault ≡ NotWritten };

    fn from(_fault: Failed) -> CallFault {
        CallFault::WriteFault
    }
}

impl From<RecvFault> for CallFault {
    ghost use Rattle.grpc_client.specs.Faults.{fault_of};

    ghost from_gives = { λ why fault. fault ≡ fault_of why };

    fn from(why: RecvFault) -> CallFault {
        match why {
            RecvFault::Protocol(code) => CallFault::Protocol(code),
            RecvFault::NoMemory => CallFault::NoMemory,
        }
    }
}
