//! A call, from its HEADERS to the end of its response.
ghost use Rattle.std.specs.Prelude.{[], ◌<◌, ◌≤◌, length, OnOk, IfErr};
ghost use Rattle.grpc_core.specs.Messages.{largest_message};
ghost use Rattle.grpc_client.specs.Connections.{IsPaced};
ghost use Rattle.grpc_client.specs.Exchanges.{at};
ghost use Rattle.grpc_client.specs.Asked.{Broken, Completed};
ghost use Rattle.grpc_client.specs.inner.Rounds.{Advances, Begins, BeginsNot};

use crate::connection::Connection;
use crate::fault::CallFault;
use crate::request::opening;
use base_lists::Bytes;
use environment::{Sink, Source, write_whole};
use grpc_core::{Method, frame_message};
use std::alloc::Global;

impl Connection {
    /// Takes one frame, answers it, and sends what the windows then let through.
    fn advance<I: Source, O: Sink>(
        &mut self,
        alloc: Global,
        input: &mut I,
        output: &mut O,
    ) -> Result<(), CallFault>
        requires { IsPaced self.old }
        ensures ok { OnOk result (Advances self.old self.new (I.seen input.old) (I.seen input.new)
            (O.seen output.old) (O.seen output.new)) }
        ensures err { IfErr result (λ why. Broken why [] (at self.old)
            (I.seen input.old) (I.seen input.new) (O.seen output.old) (O.seen output.new)) }
        ensures left { OnOk result (self.new.left < self.old.left) }
    {
        let reply = self.listen(alloc, input)?;
        reply.put(output)?;
        self.flush(output)?;
        Ok(())
    }

    /// Goes on until the response is over.
    pub(crate) fn finish<I: Source, O: Sink>(
        &mut self,
        alloc: Global,
        input: &mut I,
        output: &mut O,
    ) -> Result<(), CallFault>
        requires { IsPaced self.old }
        ensures ok { OnOk result (Completed [] (at self.old) self.new (I.seen input.old)
            (I.seen input.new) (O.seen output.old) (O.seen output.new)) }
        ensures err { IfErr result (λ why. Broken why [] (at self.old)
            (I.seen input.old) (I.seen input.new) (O.seen output.old) (O.seen output.new)) }
    {
        'frames: while !self.is_over() {
            if self.limit < self.server.last {
                return Err(CallFault::Closed);
            }
            self.advance(alloc, input, output)?;
        }
        Ok(())
    }

    /// Opens a stream for a message, and sends what the windows let through.
    pub(crate) fn begin<O: Sink>(
        &mut self,
        alloc: Global,
        output: &mut O,
        authority: &[u8],
        method: Method,
        body: &[u8],
    ) -> Result<(), CallFault>
        requires authority { length authority.now ≤ 1000 }
        requires body { length body.now ≤ largest_message }
        ensures ok { OnOk result (Begins authority.now method body.now self.old self.new
            (O.seen output.old) (O.seen output.new)) }
        ensures err { IfErr result (λ why. BeginsNot why authority.now method body.now self.old
            (O.seen output.old) (O.seen output.new)) }
    {
        let stream = self.next_stream();
        let octets = opening(
            alloc,
            self.begun,
            self.owes_update,
            stream,
            authority,
            method,
        )?;
        let mut message = Bytes::empty(alloc);
        frame_message(body, &mut message)?;
        self.open(alloc, stream, message);
        write_whole(output, octets.items())?;
        self.flush(output)?;
        Ok(())
    }
}
