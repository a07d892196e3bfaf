ghost use Rattle.std.specs.Prelude.{◌≡◌};
ghost use Rattle.session_core.specs.inner.Ends.{IsOwn, how_of};

use h2_frame::FLOW_CONTROL_ERROR;
use h2_send::WireFaultOut;

/// How a connection ended.
#[derive(Clone, Copy, Debug, PartialEq, Eq)]
pub enum How {
    /// The peer closed it where a frame ends.
    Closed,
    /// The peer closed it elsewhere: within the preface or a frame, or before its first SETTINGS.
    Cut,
    /// The peer made a connection error, with this code (RFC 9113 section 5.4.1).
    Protocol(u32),
    /// A read of the source failed.
    ReadFault,
    /// A write to the sink failed.
    WriteFault,
    /// As many octets were read as are read of one peer: 2^48.
    Spent,
    NoMemory,
}

/// How a connection ends where its sending half goes on no more.
pub(crate) fn how_of(fault: WireFaultOut) -> How
    ensures is { result ≡ how_of fault }
    ensures own { IsOwn result }
{
    match fault {
        WireFaultOut::Overflow => How::Protocol(FLOW_CONTROL_ERROR),
        WireFaultOut::WriteFault => How::WriteFault,
        WireFaultOut::NoMemory => How::NoMemory,
    }
}
