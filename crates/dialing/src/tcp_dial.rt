ghost use Rattle.std.specs.Prelude.{◌≡◌, [], None, IfOk};
ghost use Rattle.listening.specs.Doors.{IsFresh};

use crate::dial::Dial;
use base_lists::{Remembered, Tally};
use environment::Failed;
use std::io;
use std::marker::Model;
use std::net::TcpStream;
use std_environment::{StreamSink, StreamSource};

/// A dial over TCP. Which connections will come it can't tell.
#[derive(Drop)]
pub struct TcpDial {
    rt: HostRuntime,
    given: Remembered<(StreamSource<TcpStream>, StreamSink<TcpStream>)>,
    ended: Remembered<(StreamSource<TcpStream>, StreamSink<TcpStream>)>,
    faults: Tally,
}

impl Model for TcpDial {
    ghost use Rattle.std.specs.Prelude.{None};
    ghost use Rattle.environment.specs.Input.{Input};
    ghost use Rattle.environment.specs.Output.{Output};
    ghost use Rattle.dialing.specs.Dialing.{DialView};

    ghost Value = { DialView Input Output };

    ghost view = { λ d. record { given = d.given; left = None; ended = d.ended; faults = d.faults } };
}

impl TcpDial {
    /// A dial that made no connection yet.
    pub fn of(rt: &HostRuntime) -> TcpDial
        ensures { result ≡ record { given = []; left = None; ended = []; faults = 0 } }
    {
        TcpDial {
            rt: *rt,
            given: Remembered::nothing(),
            ended: Remembered::nothing(),
            faults: Tally::zero(),
        }
    }
}

impl Dial for TcpDial {
    type Reader = StreamSource<TcpStream>;

    type Writer = StreamSink<TcpStream>;

    ghost seen = { λ d. d };

    /// Each piece goes out at once, without waiting for more (TCP_NODELAY).
    fn dial(
        &mut self,
        address: &str,
    ) -> Result<(StreamSource<TcpStream>, StreamSink<TcpStream>), Failed> {
        match link_to(&self.rt, address) {
            Ok(link) => {
                self.given.remember(&link);
                Ok(link)
            }
            Err(_) => {
                self.faults.rise();
                Err(Failed)
            }
        }
    }

    /// The connection is closed once both of its halves are gone.
    fn end(&mut self, reader: StreamSource<TcpStream>, writer: StreamSink<TcpStream>) {
        self.ended.remember(&(reader, writer));
    }
}

/// The two halves of a new connection.
fn link_to(
    rt: &HostRuntime,
    address: &str,
) -> io::Result<(StreamSource<TcpStream>, StreamSink<TcpStream>)>
    ensures { IfOk result (λ link. IsFresh (λ s. s) (λ s. s) link) }
{
    let stream = TcpStream::connect(rt, address)?;
    stream.set_nodelay(true)?;
    let writer = stream.try_clone()?;
    Ok((StreamSource::of(stream), StreamSink::of(writer)))
}
