ghost use Rattle.std.specs.Prelude.{◌≡◌, ◌≤◌};
ghost use Rattle.h2_streams.specs.States.{is_idle, peer_ends, this_side_ends, reset};
ghost use Rattle.h2_streams.specs.Calls.{new_peer, block_length};

use crate::fragments::Fragments;
use crate::streams::{StreamState, Streams};
use hpack_block::Decoder;
use std::alloc::Global;

/// A header block whose end has not come (RFC 9113 section 4.3).
#[derive(Drop)]
pub struct HeaderBlock {
    pub stream: u32,
    /// Whether its HEADERS frame has END_STREAM.
    pub ends: bool,
    /// The fragments so far.
    pub octets: Fragments,
}

/// What is known of the peer between two frames.
#[derive(Drop)]
pub struct Peer {
    /// Whether its first frame, which is SETTINGS, was read.
    pub greeted: bool,
    /// Its SETTINGS_INITIAL_WINDOW_SIZE.
    pub window: u32,
    pub decoder: Decoder,
    /// The highest stream that its HEADERS opened, or 0.
    pub highest: u32,
    pub streams: Streams,
    /// The header block that is being read.
    pub block: Option<HeaderBlock>,
}

impl Peer {
    /// A peer of which nothing was read. Takes no memory.
    pub fn make(alloc: Global) -> Peer
        ensures { result ≡ new_peer }
    {
        Peer {
            greeted: false,
            window: 65_535,
            decoder: Decoder::make(alloc),
            highest: 0,
            streams: Streams::empty(alloc),
            block: None,
        }
    }

    /// This side has ended a stream.
    pub fn ended(&mut self, stream: u32)
        ensures { self.new ≡ this_side_ends stream self.old }
    {
        match self.streams.state(stream) {
            StreamState::Open => self.streams.set_state(stream, StreamState::HalfClosedLocal),
            StreamState::HalfClosedRemote => self.streams.remove(stream),
            _ => {}
        }
    }

    /// How many octets of a header block were read whose end has not come.
    pub fn block_len(&self) -> usize
        ensures length { result ≡ block_length self.now.block }
        ensures few { result ≤ 65536 }
    {
        match &self.block {
            Some(block) => block.octets.len(),
            None => 0,
        }
    }

    pub(crate) fn is_idle(&self, stream: u32) -> bool
        ensures { result ≡ is_idle self.now stream }
    {
        stream % 2 == 0 || self.highest < stream
    }

    pub(crate) fn peer_ends(&mut self, stream: u32)
        ensures { self.new ≡ peer_ends stream self.old }
    {
        match self.streams.state(stream) {
            StreamState::Open => self
                .streams
                .set_state(stream, StreamState::HalfClosedRemote),
            StreamState::HalfClosedLocal => self.streams.remove(stream),
            _ => {}
        }
    }

    pub(crate) fn reset(&mut self, stream: u32)
        ensures { self.new ≡ reset stream self.old }
    {
        self.streams.remove(stream);
    }
}
