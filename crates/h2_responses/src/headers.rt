//! Header blocks, in HEADERS and CONTINUATION (RFC 9113 sections 4.3, 6.2, 6.10 and 8.1).
ghost use Rattle.std.specs.Prelude.{◌≡◌, ◌≢◌, Ok, Err};
ghost use Rattle.h2_frame.specs.Frames.{frame_of};
ghost use Rattle.h2_responses.specs.Outcomes.{Answered};
ghost use Rattle.h2_responses.specs.States.{state_on};
ghost use Rattle.h2_responses.specs.Meanings.{FrameAnswered, block_ends, block_on, headers_mean, with_fragment, headers_begin, continuation_means};

use crate::control::Answer;
use crate::event::ServerEvent;
use crate::server::{ResponseState, Server};
use h2_events::RecvFault;
use h2_frame::{
    COMPRESSION_ERROR, END_HEADERS, END_STREAM, ENHANCE_YOUR_CALM, Head, PRIORITY_FLAG,
    PROTOCOL_ERROR,
};
use h2_streams::{Fragments, HeaderBlock, content, has};
use hpack_block::{BlockFault, Headers};
use std::alloc::Global;

const PRIORITY_OCTETS: usize = 5;

impl Server {
    pub(crate) fn headers(&mut self, alloc: Global, head: Head, payload: &[u8]) -> Answer
        ensures { FrameAnswered (headers_begin (frame_of head payload.now) self.old)
            self.old result self.new }
    {
        if self.is_unopened(head.stream) {
            return Err(RecvFault::Protocol(PROTOCOL_ERROR));
        }
        let skipped = if has(PRIORITY_FLAG, head.flags) {
            PRIORITY_OCTETS
        } else {
            0
        };
        match content(skipped, head.flags, payload) {
            Err(code) => Err(RecvFault::Protocol(code)),
            Ok(fragment) => {
                let block = HeaderBlock {
                    stream: head.stream,
                    ends: has(END_STREAM, head.flags),
                    octets: Fragments::empty(alloc),
                };
                self.fragment(alloc, head.flags, block, fragment)
            }
        }
    }

    pub(crate) fn continuation(
        &mut self,
        alloc: Global,
        head: Head,
        payload: &[u8],
        block: HeaderBlock,
    ) -> Answer
        ensures { FrameAnswered (continuation_means (frame_of head payload.now) block self.old)
            self.old result self.new }
    {
        self.fragment(alloc, head.flags, block, payload)
    }

    // A fragment more of a block, and perhaps the last.
    fn fragment(&mut self, alloc: Global, flags: u8, block: HeaderBlock, fragment: &[u8]) -> Answer
        ensures { FrameAnswered (with_fragment flags block fragment.now self.old)
            self.old result self.new }
    {
        if block.octets.is_too_large_with(fragment) {
            return Err(RecvFault::Protocol(ENHANCE_YOUR_CALM));
        }
        let mut block = block;
        block.octets.extend(fragment)?;
        if has(END_HEADERS, flags) {
            return self.block_ends(alloc, block);
        }
        self.block = Some(block);
        Ok(None)
    }

    fn block_ends(&mut self, alloc: Global, block: HeaderBlock) -> Answer
        ensures { FrameAnswered (block_ends block) self.old result self.new }
    {
        let list = self.decoder.block(alloc, block.octets.items());
        self.block = None;
        match list {
            Ok(headers) => self.block_on(block.stream, block.ends, headers),
            Err(why) => unread(why),
        }
    }

    fn block_on(&mut self, stream: u32, ends: bool, headers: Headers) -> Answer
        ensures { Answered (block_on stream ends headers (state_on self.old stream) self.old)
            result self.new }
    {
        match self.state_on(stream) {
            ResponseState::Over => Ok(None),
            ResponseState::Waiting => {
                self.set_state(if ends {
                    ResponseState::Over
                } else {
                    ResponseState::Headed
                });
                Ok(Some(ServerEvent::Head(stream, headers, ends)))
            }
            ResponseState::Headed if ends => {
                self.set_state(ResponseState::Over);
                Ok(Some(ServerEvent::Trailers(stream, headers)))
            }
            ResponseState::Headed => Err(RecvFault::Protocol(PROTOCOL_ERROR)),
        }
    }
}

// What a block answers of which there is no list of headers.
fn unread(why: BlockFault) -> Answer
    ensures too_long { why ≡ BlockFault.TooLong → result ≡ Err (RecvFault.Protocol 11) }
    ensures bad { why ≡ BlockFault.Bad → result ≡ Err (RecvFault.Protocol 9) }
    ensures memory { why ≡ BlockFault.NoMemory → result ≡ Err RecvFault.NoMemory }
{
    match why {
        BlockFault::TooLong => Err(RecvFault::Protocol(ENHANCE_YOUR_CALM)),
        BlockFault::Bad => Err(RecvFault::Protocol(COMPRESSION_ERROR)),
        BlockFault::NoMemory => Err(RecvFault::NoMemory),
    }
}
