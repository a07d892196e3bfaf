//! DATA (RFC 9113 section 6.1).
ghost use Rattle.std.specs.Prelude.{◌≡◌, IfOk};
ghost use Rattle.h2_frame.specs.Frames.{frame_of};
ghost use Rattle.h2_streams.specs.Outcomes.{Answered};
ghost use Rattle.h2_streams.specs.States.{state_among};
ghost use Rattle.h2_streams.specs.Meanings.{data_on, data_means};

use crate::control::{Answer, has};
use crate::payload::content;
use crate::peer::Peer;
use crate::streams::StreamState;
use base_lists::Bytes;
use h2_events::{RecvEvent, RecvFault};
use h2_frame::{END_STREAM, Head, PROTOCOL_ERROR, STREAM_CLOSED};
use std::alloc::Global;

impl Peer {
    pub(crate) fn data(&mut self, alloc: Global, head: Head, payload: &[u8]) -> Answer
        ensures { Answered (data_means (frame_of head payload.now) self.old) result self.new }
    {
        if self.is_idle(head.stream) {
            return Err(RecvFault::Protocol(PROTOCOL_ERROR));
        }
        match content(0, head.flags, payload) {
            Err(code) => Err(RecvFault::Protocol(code)),
            Ok(octets) => self.data_on(alloc, head, octets),
        }
    }

    fn data_on(&mut self, alloc: Global, head: Head, octets: &[u8]) -> Answer
        ensures { Answered
            (data_on head octets.now (state_among head.stream self.old.streams) self.old)
            result self.new }
    {
        let stream = head.stream;
        match self.streams.state(stream) {
            StreamState::Closed => {
                let nothing = Bytes::empty(alloc);
                Ok(Some(RecvEvent::Piece(stream, nothing, head.length, true)))
            }
            StreamState::HalfClosedRemote => {
                self.reset(stream);
                Ok(Some(RecvEvent::StreamFault(stream, STREAM_CLOSED)))
            }
            _ => {
                let octets = Bytes::of(alloc, octets)?;
                let ends = has(END_STREAM, head.flags);
                if ends {
                    self.peer_ends(stream);
                }
                Ok(Some(RecvEvent::Piece(stream, octets, head.length, ends)))
            }
        }
    }
}
