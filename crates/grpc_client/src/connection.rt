ghost use Rattle.std.specs.Prelude.{◌≡◌, ◌≤◌, ◌<◌, true, false, length, OnOk};
ghost use Rattle.h2_windows.specs.Windows.{room};
ghost use Rattle.h2_windows.specs.Bounds.{largest_pending};
ghost use Rattle.h2_windows.specs.Sending.{largest_payload};
ghost use Rattle.grpc_client.specs.Connections.{new_connection, own_window, overflows, with_event, with_windows, spent, next_stream, opened, IsPaced};

use crate::heard::Heard;
use base_lists::{Bytes, NoMemory};
use h2_responses::{ResponseState, Server, ServerEvent};
use h2_windows::{Pending, Window};
use std::alloc::Global;

/// What is known of a connection between two calls, or between two frames of one.
#[derive(Drop)]
pub struct Connection {
    /// Whether the client's preface was sent (RFC 9113 section 3.4).
    pub begun: bool,
    pub server: Server,
    /// The server's window of the connection.
    pub window: Window,
    /// What the call's stream has beside the server's initial window.
    pub credit: Window,
    /// The octets of the call that aren't sent.
    pub unsent: Pending,
    /// Whether a SETTINGS frame with HEADER_TABLE_SIZE came since the last header block was sent.
    pub owes_update: bool,
    /// The highest stream that the server takes.
    pub limit: u32,
    /// How many octets of frames may still come.
    pub left: u64,
    pub heard: Heard,
}

/// The highest stream that a client can open (RFC 9113 section 5.1.1).
pub(crate) const LAST_STREAM: u32 = 2_147_483_647;

/// How many octets of frames a connection may have: 2^48.
const MOST_OCTETS: u64 = 281_474_976_710_656;

/// The largest payload that every peer takes (RFC 9113 section 4.2).
const LARGEST_PAYLOAD: usize = 16_384;

impl Connection {
    /// A connection on which nothing was sent. Takes no memory.
    pub fn new(alloc: Global) -> Connection
        ensures { result ≡ new_connection }
    {
        Connection {
            begun: false,
            server: Server::make(alloc),
            window: Window::of(65_535),
            credit: Window::of(0),
            unsent: Pending::none(alloc),
            owes_update: false,
            limit: LAST_STREAM,
            left: MOST_OCTETS,
            heard: Heard::nothing(alloc),
        }
    }

    /// Whether the response to the last call is over.
    pub(crate) fn is_over(&self) -> bool
        ensures { result ≡ true → self.now.server.state ≡ ResponseState.Over }
    {
        matches!(self.server.state, ResponseState::Over)
    }

    /// The stream of the next call. Above 2,147,483,647 there is none.
    pub(crate) fn next_stream(&self) -> u32
        ensures { result ≡ next_stream self.now }
    {
        if self.server.last == 0 {
            1
        } else {
            self.server.last.saturating_add(2)
        }
    }

    /// Opens a stream for a call of these octets.
    pub(crate) fn open(&mut self, alloc: Global, stream: u32, octets: Bytes)
        requires { length octets ≤ largest_pending }
        ensures { self.new ≡ opened stream octets self.old }
    {
        self.begun = true;
        self.server.open(stream);
        self.credit = Window::of(0);
        self.unsent = Pending::of(octets);
        self.owes_update = false;
        self.heard = Heard::nothing(alloc);
    }

    /// Whether an event takes a window above 2,147,483,647 (RFC 9113 section 6.9.1).
    pub(crate) fn overflows(&self, event: &ServerEvent) -> bool
        ensures { result ≡ overflows event.now self.now }
    {
        match event {
            ServerEvent::Settings(_, _) => self.credit.passes(self.server.window, 0),
            ServerEvent::Window(stream, increment) => {
                if *stream == 0 {
                    self.window.passes(0, *increment)
                } else {
                    self.credit.passes(self.server.window, *increment)
                }
            }
            _ => false,
        }
    }

    fn grow(&mut self, stream: u32, increment: u32)
        requires { overflows (ServerEvent.Window stream increment) self.old ≡ false }
        ensures { self.new ≡ with_windows stream increment self.old }
    {
        if stream == 0 {
            self.window.grow(0, increment);
        } else {
            self.credit.grow(self.server.window, increment);
        }
    }

    /// Keeps what an event says.
    pub(crate) fn take(&mut self, event: ServerEvent) -> Result<(), NoMemory>
        requires { overflows event self.old ≡ false }
        ensures { OnOk result (self.new ≡ with_event event self.old) }
    {
        match event {
            ServerEvent::Settings(_, resizes) => {
                self.owes_update = self.owes_update || resizes;
                Ok(())
            }
            ServerEvent::Window(stream, increment) => {
                self.grow(stream, increment);
                Ok(())
            }
            ServerEvent::GoAway(last) => {
                self.limit = self.limit.min(last);
                Ok(())
            }
            event => self.heard.take(event),
        }
    }

    /// How many octets of the call can go in one DATA frame now.
    pub(crate) fn share(&self) -> usize
        ensures unsent { result ≤ length self.now.unsent }
        ensures payload { result ≤ largest_payload }
        ensures own { result ≤ room (own_window self.now) }
        ensures connection { result ≤ room self.now.window }
        ensures none { result ≡ 0 → IsPaced self.now }
    {
        let room = self
            .window
            .room(0)
            .min(self.credit.room(self.server.window));
        self.unsent.len().min(room).min(LARGEST_PAYLOAD)
    }

    /// So many octets of the call were sent.
    pub(crate) fn spend(&mut self, count: usize)
        requires unsent { count ≤ length self.old.unsent }
        requires own { count ≤ room (own_window self.old) }
        requires connection { count ≤ room self.old.window }
        ensures { self.new ≡ spent count self.old }
    {
        self.window.spend(0, count);
        self.credit.spend(self.server.window, count);
        self.unsent.advance(count);
    }
}
