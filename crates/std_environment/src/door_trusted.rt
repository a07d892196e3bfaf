//! TCP connections that come in.
ghost use Rattle.std.specs.Prelude.{◌≡◌, [], None, IfOk, IfSome};
ghost use Rattle.listening.specs.Doors.{IsFresh};

use crate::accept_fault::AcceptFault;
use crate::bell::Bell;
use crate::messages::{say_fault, say_listening};
use crate::tcp_trusted::{TcpSink, TcpSource, link_of};
use base_lists::{Remembered, Tally};
use environment::Failed;
use listening::{Door, Next};
use std::marker::Model;
use std::net::{SocketAddr, TcpListener, TcpStream};
use std::sync::Wait;
use std::time::Duration;
use std::{io, thread};

/// So long a door waits before it tries again what the system refuses at the moment.
const PAUSE_MILLISECONDS: u64 = 100;

/// A door at which TCP connections come in. Which ones will come it can't tell, and it is never at its end.
#[derive(Drop)]
pub struct TcpDoor<R> {
    rt: HostRuntime,
    bell: Bell<R>,
    listener: Option<TcpListener>,
    given: Remembered<(TcpSource<R>, TcpSink)>,
    faults: Tally,
    /// Whether it says on standard error where it listens, and what fails.
    speaks: bool,
}

impl<R> Model for TcpDoor<R> {
    ghost use Rattle.std.specs.Prelude.{None};
    ghost use Rattle.environment.specs.Input.{Input};
    ghost use Rattle.environment.specs.Output.{Output};
    ghost use Rattle.listening.specs.Doors.{DoorView};

    ghost Value = { DoorView Input Output };

    ghost view = { λ d. record { given = d.given; left = None; faults = d.faults } };
}

impl<R> TcpDoor<R> {
    /// A door that isn't open yet. Its connections ring this bell. One that speaks says on standard error where it listens, and what
    /// fails.
    pub fn of(rt: &HostRuntime, bell: Bell<R>, speaks: bool) -> TcpDoor<R>
        ensures { result ≡ record { given = []; left = None; faults = 0 } }
    {
        TcpDoor {
            rt: *rt,
            bell,
            listener: None,
            given: Remembered::nothing(),
            faults: Tally::zero(),
            speaks,
        }
    }

    /// The address at which it is open, with the port that the system chose where that was left to it.
    pub fn address(&self) -> Option<SocketAddr> {
        match &self.listener {
            Some(listener) => listener.local_addr().ok(),
            None => None,
        }
    }

    fn say_listening(&self) {
        if self.speaks
            && let Some(address) = self.address()
        {
            say_listening(&self.rt, &address);
        }
    }

    fn say_fault(&self, what: &str, name: &str, error: &io::Error) {
        if self.speaks {
            say_fault(&self.rt, what, name, error);
        }
    }

    /// The next stream, or none once the listener itself has failed. What is of one connection is passed over, and what is of the moment
    /// is said once and tried again: a connection that ends leaves its descriptor free.
    fn accepted(&self, listener: &TcpListener) -> Option<TcpStream> {
        let mut is_said = false;
        for _ in 0..u64::MAX {
            let error = match listener.accept() {
                Ok((stream, _)) => return Some(stream),
                Err(error) => error,
            };
            match AcceptFault::of(error.raw_os_error()) {
                AcceptFault::Connection => {}
                AcceptFault::Moment => {
                    if !is_said {
                        self.say_fault("waiting to accept", "connections", &error);
                        is_said = true;
                    }
                    thread::sleep(&self.rt, Duration::from_millis(PAUSE_MILLISECONDS));
                }
                AcceptFault::Listener => {
                    self.say_fault("cannot accept", "connections", &error);
                    return None;
                }
            }
        }
        None
    }
}

impl<R: Wait + Clone + Drop> TcpDoor<R> {
    /// The next connection, or none once no further ones can come. One for which descriptors or memory are wanting is let go.
    fn next_link(&self) -> Option<(TcpSource<R>, TcpSink)>
        ensures { IfSome result (λ link. IsFresh (λ s. s) (λ s. s) link) }
    {
        let Some(listener) = &self.listener else {
            return None;
        };
        for _ in 0..u64::MAX {
            let stream = self.accepted(listener)?;
            if let Some(link) = self.link_of(stream) {
                return Some(link);
            }
        }
        None
    }

    fn link_of(&self, stream: TcpStream) -> Option<(TcpSource<R>, TcpSink)>
        ensures { IfSome result (λ link. IsFresh (λ s. s) (λ s. s) link) }
    {
        match self.bell.twin() {
            Ok(bell) => link_of(&self.rt, bell, stream),
            Err(_) => None,
        }
    }
}

impl<R: Wait + Clone + Drop> Door for TcpDoor<R> {
    type Reader = TcpSource<R>;

    type Writer = TcpSink;

    ghost seen = { λ d. d };

    /// The address is that of a host, by number or by name, with a port: `127.0.0.1:9339`. It can be used again as soon as its last
    /// user has ended (SO_REUSEADDR). A door that is open elsewhere is closed there.
    fn listen(&mut self, address: &str) -> Result<(), Failed> {
        match TcpListener::bind(&self.rt, address) {
            Ok(listener) => {
                self.listener = Some(listener);
                self.say_listening();
                Ok(())
            }
            Err(error) => {
                self.say_fault("cannot listen at", address, &error);
                self.faults.rise();
                Err(Failed)
            }
        }
    }

    /// At a door that isn't open that is a fault. So is a listener that fails; a connection that fails is passed over, and where the
    /// system has no descriptor or no memory for one it is waited for.
    fn next(&mut self) -> Next<TcpSource<R>, TcpSink> {
        match self.next_link() {
            Some(link) => {
                self.given.remember(&link);
                let (reader, writer) = link;
                Next::Link(reader, writer)
            }
            None => {
                self.faults.rise();
                Next::Failed
            }
        }
    }

    /// The system refuses, by a reset, also those that have dialled and weren't accepted yet.
    fn close(&mut self) {
        self.listener = None;
    }
}
