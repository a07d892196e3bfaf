ghost use Rattle.std.specs.Prelude.{◌≡◌};
ghost use Rattle.h2_responses.specs.States.{new_server, is_unopened, state_on, opens, in_state};

use h2_streams::HeaderBlock;
use hpack_block::Decoder;
use std::alloc::Global;

/// How far the response on a stream has come (RFC 9113 sections 5.1 and 8.1).
#[derive(Clone, Copy, Debug, PartialEq, Eq)]
pub enum ResponseState {
    /// Its headers haven't come.
    Waiting,
    /// They have come.
    Headed,
    /// It has ended, or was reset.
    Over,
}

/// What is known of the server between two frames.
#[derive(Drop)]
pub struct Server {
    /// Whether its first frame, which is SETTINGS, was read.
    pub greeted: bool,
    /// Its SETTINGS_INITIAL_WINDOW_SIZE.
    pub window: u32,
    pub decoder: Decoder,
    /// The last stream that this client opened, or 0: calls are made one after the other.
    pub last: u32,
    /// How far the response on that stream has come.
    pub state: ResponseState,
    /// The header block that is being read.
    pub block: Option<HeaderBlock>,
}

impl Server {
    /// A server of which nothing was read, and on which no stream was opened. Takes no memory.
    pub fn make(alloc: Global) -> Server
        ensures { result ≡ new_server }
    {
        Server {
            greeted: false,
            window: 65_535,
            decoder: Decoder::make(alloc),
            last: 0,
            state: ResponseState::Over,
            block: None,
        }
    }

    /// This client opens a stream.
    pub fn open(&mut self, stream: u32)
        ensures { self.new ≡ opens stream self.old }
    {
        self.last = stream;
        self.state = ResponseState::Waiting;
    }

    pub(crate) fn is_unopened(&self, stream: u32) -> bool
        ensures { result ≡ is_unopened self.now stream }
    {
        stream % 2 == 0 || self.last < stream
    }

    pub(crate) fn state_on(&self, stream: u32) -> ResponseState
        ensures { result ≡ state_on self.now stream }
    {
        if stream == self.last {
            self.state
        } else {
            ResponseState::Over
        }
    }

    pub(crate) fn set_state(&mut self, now: ResponseState)
        ensures { self.new ≡ in_state now self.old }
    {
        self.state = now;
    }
}
