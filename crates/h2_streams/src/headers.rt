//! Header blocks, in HEADERS and CONTINUATION (RFC 9113 sections 4.3, 5.1, 6.2, 6.10 and 8.1).
ghost use Rattle.std.specs.Prelude.{◌≡◌, ◌≢◌, ◌<◌, length, OnOk, Err};
ghost use Rattle.h2_frame.specs.Frames.{frame_of};
ghost use Rattle.h2_streams.specs.Outcomes.{Answered};
ghost use Rattle.h2_streams.specs.States.{state_among, open_stream};
ghost use Rattle.h2_streams.specs.Blocks.{refused, request, later_block, block_on, headers_mean};
ghost use Rattle.h2_streams.specs.Meanings.{FrameAnswered, block_ends, with_fragment, headers_begin, continuation_means};

use crate::control::{Answer, has};
use crate::fragments::Fragments;
use crate::payload::content;
use crate::peer::{HeaderBlock, Peer};
use crate::request::is_well_formed;
use crate::streams::{Stream, StreamState};
use base_lists::NoMemory;
use h2_events::{RecvEvent, RecvFault};
use h2_frame::{
    COMPRESSION_ERROR, END_HEADERS, END_STREAM, ENHANCE_YOUR_CALM, Head, PRIORITY_FLAG,
    PROTOCOL_ERROR, REFUSED_STREAM, STREAM_CLOSED,
};
use hpack_block::{BlockFault, Headers};
use std::alloc::Global;

const MOST_STREAMS: usize = 32;

const PRIORITY_OCTETS: usize = 5;

impl Peer {
    pub(crate) fn headers(&mut self, alloc: Global, head: Head, payload: &[u8]) -> Answer
        ensures { FrameAnswered (headers_begin (frame_of head payload.now) self.old)
            self.old result self.new }
    {
        if head.stream % 2 == 0 {
            return Err(RecvFault::Protocol(PROTOCOL_ERROR));
        }
        let skipped = if has(PRIORITY_FLAG, head.flags) {
            PRIORITY_OCTETS
        } else {
            0
        };
        match content(skipped, head.flags, payload) {
            Err(code) => Err(RecvFault::Protocol(code)),
            Ok(fragment) => {
                let block = HeaderBlock {
                    stream: head.stream,
                    ends: has(END_STREAM, head.flags),
                    octets: Fragments::empty(alloc),
                };
                self.fragment(alloc, head.flags, block, fragment)
            }
        }
    }

    pub(crate) fn continuation(
        &mut self,
        alloc: Global,
        head: Head,
        payload: &[u8],
        block: HeaderBlock,
    ) -> Answer
        ensures { FrameAnswered (continuation_means (frame_of head payload.now) block self.old)
            self.old result self.new }
    {
        self.fragment(alloc, head.flags, block, payload)
    }

    // A fragment more of a block, and perhaps the last.
    fn fragment(&mut self, alloc: Global, flags: u8, block: HeaderBlock, fragment: &[u8]) -> Answer
        ensures { FrameAnswered (with_fragment flags block fragment.now self.old)
            self.old result self.new }
    {
        if block.octets.is_too_large_with(fragment) {
            return Err(RecvFault::Protocol(ENHANCE_YOUR_CALM));
        }
        let mut block = block;
        block.octets.extend(fragment)?;
        if has(END_HEADERS, flags) {
            return self.block_ends(alloc, block);
        }
        self.block = Some(block);
        Ok(None)
    }

    fn block_ends(&mut self, alloc: Global, block: HeaderBlock) -> Answer
        ensures { FrameAnswered (block_ends block) self.old result self.new }
    {
        let list = self.decoder.block(alloc, block.octets.items());
        self.block = None;
        match list {
            Ok(headers) => self.block_on(block.stream, block.ends, Some(headers)),
            Err(why) => self.unread(block.stream, block.ends, why),
        }
    }

    // A block of which there is no list of headers.
    fn unread(&mut self, stream: u32, ends: bool, why: BlockFault) -> Answer
        ensures answered { why ≢ BlockFault.NoMemory
            → Answered (headers_mean stream ends (Err why) self.old) result self.new }
        ensures memory { why ≡ BlockFault.NoMemory → result ≡ Err RecvFault.NoMemory }
    {
        match why {
            BlockFault::TooLong => self.block_on(stream, ends, None),
            BlockFault::Bad => Err(RecvFault::Protocol(COMPRESSION_ERROR)),
            BlockFault::NoMemory => Err(RecvFault::NoMemory),
        }
    }

    fn block_on(&mut self, stream: u32, ends: bool, list: Option<Headers>) -> Answer
        ensures { Answered (block_on stream ends list self.old) result self.new }
    {
        if !self.is_idle(stream) {
            return self.later_block(stream, ends);
        }
        if self.streams.len() >= MOST_STREAMS {
            return self.refuse(stream, REFUSED_STREAM);
        }
        self.request(stream, ends, list)
    }

    fn later_block(&mut self, stream: u32, ends: bool) -> Answer
        ensures { Answered (later_block stream ends (state_among stream self.old.streams) self.old)
            result self.new }
    {
        match self.streams.state(stream) {
            StreamState::Closed => Ok(None),
            StreamState::HalfClosedRemote => {
                self.reset(stream);
                Ok(Some(RecvEvent::StreamFault(stream, STREAM_CLOSED)))
            }
            _ if ends => {
                self.peer_ends(stream);
                Ok(Some(RecvEvent::Trailers(stream)))
            }
            _ => {
                self.reset(stream);
                Ok(Some(RecvEvent::StreamFault(stream, PROTOCOL_ERROR)))
            }
        }
    }

    fn request(&mut self, stream: u32, ends: bool, list: Option<Headers>) -> Answer
        requires { length self.old.streams < 32 }
        ensures { Answered (request stream ends list self.old) result self.new }
    {
        let Some(headers) = list else {
            self.open(stream, ends)?;
            return Ok(Some(RecvEvent::TooLong(stream)));
        };
        if !is_well_formed(headers.items()) {
            return self.refuse(stream, PROTOCOL_ERROR);
        }
        self.open(stream, ends)?;
        Ok(Some(RecvEvent::Call(stream, headers, ends)))
    }

    fn refuse(&mut self, stream: u32, code: u32) -> Answer
        ensures { Answered (refused stream code self.old) result self.new }
    {
        self.highest = self.highest.max(stream);
        Ok(Some(RecvEvent::StreamFault(stream, code)))
    }

    fn open(&mut self, stream: u32, ends: bool) -> Result<(), NoMemory>
        requires { length self.old.streams < 32 }
        ensures { OnOk result (self.new ≡ open_stream stream ends self.old) }
    {
        let state = if ends {
            StreamState::HalfClosedRemote
        } else {
            StreamState::Open
        };
        self.streams.push(Stream { id: stream, state })?;
        self.highest = self.highest.max(stream);
        Ok(())
    }
}
