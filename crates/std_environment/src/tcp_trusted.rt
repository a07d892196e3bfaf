//! The two halves of a TCP connection that came in at a door. They share its socket, which is closed once both are gone.
ghost use Rattle.std.specs.Prelude.{◌≡◌, IfSome};
ghost use Rattle.environment.specs.Input.{unread_input};
ghost use Rattle.listening.specs.Doors.{IsFresh};

use crate::bell::Bell;
use crate::socket_options::give_up_vanished;
use crate::streams_trusted::{StreamSink, StreamSource};
use environment::{Failed, Source};
use std::alloc::Global;
use std::io::{self, Read, Write};
use std::marker::Model;
use std::net::{Shutdown, TcpStream};
use std::sync::{Arc, Wait};
use std::time::{Duration, Instant};

/// A client's first octets are its preface (RFC 9113 3.4), which it sends within so many seconds after it was accepted.
const PREFACE_OCTETS: usize = 24;

const PREFACE_SECONDS: u64 = 10;

/// A client that still sends at the end of its connection is heard in so many further reads, each of which waits a second at most.
const LAST_READS: u32 = 32;

/// A connection that came in.
struct Connection {
    stream: TcpStream,
}

impl Connection {
    /// Each piece that is written to it goes out at once, without waiting for more (TCP_NODELAY). None where the system refuses an
    /// option of its socket.
    fn of(stream: TcpStream) -> Option<Connection> {
        if give_up_vanished(&stream) && stream.set_nodelay(true).is_ok() {
            Some(Connection { stream })
        } else {
            None
        }
    }
}

impl Drop for Connection {
    /// The client is told that nothing follows, and is heard to its end, so that it can read what was written before: to close a socket
    /// with unread octets resets the connection (RFC 9293 3.6.1).
    fn drop(self) {
        let Connection { stream } = self;
        if stream.shutdown(Shutdown::Write).is_ok() {
            drain(&stream);
        }
    }
}

/// Reads what still comes, until the client ends, or is quiet for a second.
fn drain(stream: &TcpStream) {
    if stream
        .set_read_timeout(Some(Duration::from_secs(1)))
        .is_err()
    {
        return;
    }
    let mut rest = stream;
    let mut buffer = [0; 16384];
    for _ in 0..LAST_READS {
        match rest.read(&mut buffer) {
            Ok(count) if count > 0 => {}
            _ => return,
        }
    }
}

/// The half of a connection that is read.
#[derive(Drop)]
pub struct TcpReader {
    rt: HostRuntime,
    connection: Arc<Connection, Global>,
    accepted: Instant,
    /// How many octets of the preface haven't come yet, as long as reads have a limit of time.
    awaited: Option<usize>,
}

impl TcpReader {
    /// Sets how long the next read may wait: to the end of the time for the preface, and without a limit after it.
    fn limit(&mut self) -> io::Result<()> {
        let Some(awaited) = self.awaited else {
            return Ok(());
        };
        let stream = &self.connection.stream;
        if awaited == 0 {
            stream.set_read_timeout(None)?;
            self.awaited = None;
            return Ok(());
        }
        let passed = self.accepted.elapsed(&self.rt)?;
        let left = Duration::from_secs(PREFACE_SECONDS).saturating_sub(passed);
        // to wait no time at all is refused
        stream.set_read_timeout(Some(left))
    }
}

impl Read for TcpReader {
    /// That the preface doesn't come in time is a fault.
    fn read(&mut self, buffer: &mut [u8]) -> io::Result<usize> {
        self.limit()?;
        let mut stream = &self.connection.stream;
        let count = stream.read(buffer)?;
        self.awaited = self.awaited.map(|awaited| awaited.saturating_sub(count));
        Ok(count)
    }
}

/// The half of a connection that is written.
#[derive(Drop)]
pub struct TcpWriter {
    connection: Arc<Connection, Global>,
}

impl Write for TcpWriter {
    fn write(&mut self, piece: &[u8]) -> io::Result<usize> {
        let mut stream = &self.connection.stream;
        stream.write(piece)
    }

    fn flush(&mut self) -> io::Result<()> {
        Ok(())
    }
}

/// Where the octets of a TCP connection come in. It rings before each read, since whoever reads on has done then what it had to do
/// with what it read before.
#[derive(Drop)]
pub struct TcpSource<R> {
    bell: Bell<R>,
    stream: StreamSource<TcpReader>,
}

impl<R> Model for TcpSource<R> {
    ghost use Rattle.environment.specs.Input.{Input};

    ghost Value = { Input };

    ghost view = { λ s. s.stream };
}

impl<R: Wait + Clone + Drop> Source for TcpSource<R> {
    ghost seen = { λ s. s };

    fn read(&mut self, buffer: &mut [u8]) -> Result<usize, Failed> {
        self.bell.ring();
        self.stream.read(buffer)
    }
}

/// Where the octets of a TCP connection go out.
pub type TcpSink = StreamSink<TcpWriter>;

/// The two halves of a connection that came in now. None where the system or memory refuses what it takes.
pub(crate) fn link_of<R: Drop>(
    rt: &HostRuntime,
    bell: Bell<R>,
    stream: TcpStream,
) -> Option<(TcpSource<R>, TcpSink)>
    ensures { IfSome result (λ link. IsFresh (λ s. s) (λ s. s) link) }
{
    let accepted = Instant::now(rt).ok()?;
    let written = Arc::new(rt.alloc(), Connection::of(stream)?).ok()?;
    let connection = Arc::try_clone(&written).ok()?;
    let reader = TcpReader {
        rt: *rt,
        connection,
        accepted,
        awaited: Some(PREFACE_OCTETS),
    };
    let source = TcpSource {
        bell,
        stream: StreamSource::of(reader),
    };
    let writer = TcpWriter {
        connection: written,
    };
    Some((source, StreamSink::of(writer)))
}
