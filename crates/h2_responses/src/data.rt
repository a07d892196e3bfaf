//! DATA (RFC 9113 section 6.1).
ghost use Rattle.std.specs.Prelude.{◌≡◌};
ghost use Rattle.h2_frame.specs.Frames.{frame_of};
ghost use Rattle.h2_responses.specs.Outcomes.{Answered};
ghost use Rattle.h2_responses.specs.States.{state_on};
ghost use Rattle.h2_responses.specs.Meanings.{data_on, data_means};

use crate::control::Answer;
use crate::event::ServerEvent;
use crate::server::{ResponseState, Server};
use base_lists::Bytes;
use h2_events::RecvFault;
use h2_frame::{END_STREAM, Head, PROTOCOL_ERROR};
use h2_streams::{content, has};
use std::alloc::Global;

impl Server {
    pub(crate) fn data(&mut self, alloc: Global, head: Head, payload: &[u8]) -> Answer
        ensures { Answered (data_means (frame_of head payload.now) self.old) result self.new }
    {
        if self.is_unopened(head.stream) {
            return Err(RecvFault::Protocol(PROTOCOL_ERROR));
        }
        match content(0, head.flags, payload) {
            Err(code) => Err(RecvFault::Protocol(code)),
            Ok(octets) => self.data_on(alloc, head, octets),
        }
    }

    fn data_on(&mut self, alloc: Global, head: Head, octets: &[u8]) -> Answer
        ensures { Answered (data_on head octets.now (state_on self.old head.stream) self.old)
            result self.new }
    {
        let stream = head.stream;
        match self.state_on(stream) {
            ResponseState::Over => {
                let nothing = Bytes::empty(alloc);
                Ok(Some(ServerEvent::Piece(stream, nothing, head.length, true)))
            }
            ResponseState::Waiting => Err(RecvFault::Protocol(PROTOCOL_ERROR)),
            ResponseState::Headed => {
                let octets = Bytes::of(alloc, octets)?;
                let ends = has(END_STREAM, head.flags);
                if ends {
                    self.set_state(ResponseState::Over);
                }
                Ok(Some(ServerEvent::Piece(stream, octets, head.length, ends)))
            }
        }
    }
}
