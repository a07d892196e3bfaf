//! The octets of the call, as far as the server's windows let them through.
ghost use Rattle.std.specs.Prelude.{◌≡◌, ◌<◌, ◌≤◌, length, OnOk, OnErr};
ghost use Rattle.h2_windows.specs.Sending.{largest_payload};
ghost use Rattle.h2_windows.specs.Written.{WritesOctets, spelled};
ghost use Rattle.grpc_client.specs.Exchanges.{data_frame};
ghost use Rattle.grpc_client.specs.inner.Rounds.{Flushes, FlushFails};

use crate::connection::Connection;
use environment::{Failed, Sink};
use h2_frame::{DATA, END_STREAM, Head};
use h2_windows::put_frame;

impl Connection {
    /// Writes so many octets of the call as one DATA frame.
    fn put_data<O: Sink>(&self, count: usize, output: &mut O) -> Result<(), Failed>
        requires there { count ≤ length self.now.unsent }
        requires small { count ≤ largest_payload }
        ensures { WritesOctets result (spelled (data_frame count self.now))
            (O.seen output.old) (O.seen output.new) }
    {
        let last = count == self.unsent.len();
        let head = Head {
            length: count as u32,
            kind: DATA,
            flags: if last { END_STREAM } else { 0 },
            stream: self.server.last,
        };
        put_frame(output, &head, &self.unsent.octets()[..count])
    }

    /// Sends as many octets of the call as both windows let through.
    pub(crate) fn flush<O: Sink>(&mut self, output: &mut O) -> Result<(), Failed>
        ensures ok { OnOk result
            (Flushes self.old self.new (O.seen output.old) (O.seen output.new)) }
        ensures err { OnErr result (FlushFails self.old (O.seen output.old) (O.seen output.new)) }
        ensures left { self.new.left ≡ self.old.left }
    {
        let mut count = self.share();
        while 0 < count {
            self.put_data(count, output)?;
            self.spend(count);
            count = self.share();
        }
        Ok(())
    }
}
