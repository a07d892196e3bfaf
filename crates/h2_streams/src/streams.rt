ghost use Rattle.std.specs.Prelude.{◌≡◌, [], ◌∷◌, ◌++◌, ◌≤◌, ◌<◌, length, OnOk, OnErr};
ghost use Rattle.h2_streams.specs.States.{state_among, without, in_state, with_state};

use base_lists::NoMemory;
use std::alloc::Global;
use std::marker::Model;

/// The states of a stream that isn't idle (RFC 9113 section 5.1). Local is this side, remote the peer. A stream is idle where
/// its number is even or above the highest that the peer has opened, so that no state is kept of it.
#[derive(Clone, Copy, Debug, PartialEq, Eq)]
pub enum StreamState {
    Open,
    HalfClosedLocal,
    HalfClosedRemote,
    Closed,
}

/// A stream that is neither idle nor closed.
#[derive(Clone, Copy, Debug)]
pub struct Stream {
    pub id: u32,
    pub state: StreamState,
}

/// The streams that are neither idle nor closed, at most 32.
#[derive(Drop)]
pub struct Streams {
    stored: Vec<Stream>,
}

impl Model for Streams {
    ghost use Rattle.std.specs.Prelude.{List, ◌≤◌, length};
    ghost use Rattle.h2_streams.specs.declared.streams.Stream.{Stream};

    ghost Value = { List Stream };

    ghost view = { λ s. s.stored.items };

    ghost invariant = { λ s. length s.stored.items ≤ 32 };
}

impl Streams {
    /// Takes no memory.
    pub fn empty(alloc: Global) -> Streams
        ensures { result ≡ [] }
    {
        Streams {
            stored: Vec::new(alloc),
        }
    }

    pub fn len(&self) -> usize
        ensures length { result ≡ length self.now }
        ensures few { result ≤ 32 }
    {
        self.stored.len()
    }

    /// The state of a stream that isn't idle.
    pub fn state(&self, id: u32) -> StreamState
        ensures { result ≡ state_among id self.now }
    {
        for stream in &self.stored {
            if stream.id == id {
                return stream.state;
            }
        }
        StreamState::Closed
    }

    pub(crate) fn push(&mut self, stream: Stream) -> Result<(), NoMemory>
        requires { length self.old < 32 }
        ensures ok { OnOk result (self.new ≡ self.old ++ stream ∷ []) }
        ensures err { OnErr result (self.new ≡ self.old) }
    {
        self.stored.push(stream)?;
        Ok(())
    }

    pub(crate) fn set_state(&mut self, id: u32, state: StreamState)
        ensures { self.new ≡ with_state id state self.old }
    {
        set_state(self.stored.as_mut_slice(), id, state);
    }

    pub(crate) fn remove(&mut self, id: u32)
        ensures { self.new ≡ without id self.old }
    {
        self.stored.retain(|stream| stream.id != id);
    }
}

fn set_state(streams: &mut [Stream], id: u32, state: StreamState)
    ensures { streams.new ≡ with_state id state streams.old }
{
    for stream in streams.iter_mut() {
        *stream = in_state(*stream, id, state);
    }
}

fn in_state(stream: Stream, id: u32, state: StreamState) -> Stream
    ensures { result ≡ in_state id state stream }
{
    if stream.id == id {
        Stream { id, state }
    } else {
        stream
    }
}
