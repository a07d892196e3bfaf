//! A frame of the server: what it changes, and what it is answered.
ghost use Rattle.std.specs.Prelude.{◌≡◌, ◌<◌, ℕ, slice_index, IfOk, OnOk, IfErr};
ghost use Rattle.h2_frame.specs.Frames.{frame_of};
ghost use Rattle.grpc_client.specs.Connections.{IsPaced};
ghost use Rattle.grpc_client.specs.Exchanges.{Hears};
ghost use Rattle.grpc_client.specs.inner.Rounds.{FrameFault, Listened, Unheard, fault_at};

use crate::connection::Connection;
use crate::fault::CallFault;
use crate::octets::{ReadEnd, next_frame};
use crate::reply::Reply;
use environment::Source;
use h2_frame::{FLOW_CONTROL_ERROR, FRAME_SIZE_ERROR, Head};
use std::alloc::Global;

/// The octets of the longest frame that this side takes.
const FEWEST_LEFT: u64 = 16_393;

fn fault_at(end: ReadEnd) -> CallFault
    ensures { result ≡ fault_at end }
{
    match end {
        ReadEnd::Ended => CallFault::Closed,
        ReadEnd::Failed => CallFault::ReadFault,
        ReadEnd::TooLong => CallFault::Protocol(FRAME_SIZE_ERROR),
        ReadEnd::NoMemory => CallFault::NoMemory,
    }
}

impl Connection {
    /// Reads a whole frame, and answers what it is answered.
    fn hear(&mut self, alloc: Global, head: Head, payload: &[u8]) -> Result<Reply, CallFault>
        ensures ok { IfOk result
            (λ reply. Hears self.old (frame_of head payload.now) reply self.new) }
        ensures err { IfErr result
            (λ why. FrameFault why self.old (frame_of head payload.now)) }
        ensures left { OnOk result (self.new.left ≡ self.old.left) }
        ensures fit { (i : ℕ) → slice_index payload.now i < 256 }
    {
        let event = self.server.frame(alloc, head, payload)?;
        let Some(event) = event else {
            return Ok(Reply::Nothing);
        };
        if self.overflows(&event) {
            return Err(CallFault::Protocol(FLOW_CONTROL_ERROR));
        }
        let reply = Reply::to(&event);
        self.take(event)?;
        Ok(reply)
    }

    /// Takes the next frame of the source.
    pub(crate) fn listen<I: Source>(
        &mut self,
        alloc: Global,
        input: &mut I,
    ) -> Result<Reply, CallFault>
        requires { IsPaced self.old }
        ensures ok { IfOk result
            (λ reply. Listened reply self.old self.new (I.seen input.old) (I.seen input.new)) }
        ensures err { IfErr result
            (λ why. Unheard why self.old (I.seen input.old) (I.seen input.new)) }
        ensures left { OnOk result (self.new.left < self.old.left) }
    {
        if self.left < FEWEST_LEFT {
            return Err(CallFault::Spent);
        }
        let frame = match next_frame(alloc, input) {
            Ok(frame) => frame,
            Err(end) => return Err(fault_at(end)),
        };
        self.left -= 9 + frame.payload.len() as u64;
        self.hear(alloc, frame.head, frame.payload.items())
    }
}
