//! Frames without octets of a message: PRIORITY, RST_STREAM, SETTINGS, PING, GOAWAY and WINDOW_UPDATE (RFC 9113 sections
//! 6.3 to 6.5 and 6.7 to 6.9), one function a kind.
ghost use Rattle.std.specs.Prelude.{◌≡◌};
ghost use Rattle.h2_frame.specs.Frames.{frame_of};
ghost use Rattle.h2_streams.specs.Outcomes.{Answered};
ghost use Rattle.h2_streams.specs.Codes.{has};
ghost use Rattle.h2_streams.specs.Meanings.{increment_means, priority_means, rst_stream_means, settings_mean, ping_means, goaway_means, window_update_means};

use crate::numbers::{of_4, of_8};
use crate::peer::Peer;
use crate::settings::settings_in;
use crate::streams::StreamState;
use h2_events::{RecvEvent, RecvFault};
use h2_frame::{ACK, FRAME_SIZE_ERROR, Head, PROTOCOL_ERROR};

/// What a frame answers: the event that it gives, if any.
pub type Answer = Result<Option<RecvEvent>, RecvFault>;

/// Whether a flag is among the flags.
pub fn has(flag: u8, flags: u8) -> bool
    ensures { result ≡ has flag flags }
{
    flags & flag != 0
}

impl Peer {
    pub(crate) fn priority(&mut self, head: Head, payload: &[u8]) -> Answer
        ensures { Answered (priority_means (frame_of head payload.now) self.old) result self.new }
    {
        if head.stream == 0 {
            return Err(RecvFault::Protocol(PROTOCOL_ERROR));
        }
        if payload.len() != 5 {
            self.reset(head.stream);
            return Ok(Some(RecvEvent::StreamFault(head.stream, FRAME_SIZE_ERROR)));
        }
        Ok(None)
    }

    pub(crate) fn rst_stream(&mut self, head: Head, payload: &[u8]) -> Answer
        ensures { Answered (rst_stream_means (frame_of head payload.now) self.old) result self.new }
    {
        if payload.len() != 4 {
            return Err(RecvFault::Protocol(FRAME_SIZE_ERROR));
        }
        if self.is_idle(head.stream) {
            return Err(RecvFault::Protocol(PROTOCOL_ERROR));
        }
        match self.streams.state(head.stream) {
            StreamState::Closed => Ok(None),
            _ => {
                self.reset(head.stream);
                Ok(Some(RecvEvent::Reset(head.stream)))
            }
        }
    }

    pub(crate) fn goaway(&mut self, head: Head, payload: &[u8]) -> Answer
        ensures { Answered (goaway_means (frame_of head payload.now) self.old) result self.new }
    {
        if payload.len() < 8 {
            return Err(RecvFault::Protocol(FRAME_SIZE_ERROR));
        }
        if head.stream != 0 {
            return Err(RecvFault::Protocol(PROTOCOL_ERROR));
        }
        Ok(Some(RecvEvent::GoAway))
    }

    pub(crate) fn ping(&mut self, head: Head, payload: &[u8]) -> Answer
        ensures { Answered (ping_means (frame_of head payload.now) self.old) result self.new }
    {
        let [a, b, c, d, e, f, g, h] = payload else {
            return Err(RecvFault::Protocol(FRAME_SIZE_ERROR));
        };
        if head.stream != 0 {
            return Err(RecvFault::Protocol(PROTOCOL_ERROR));
        }
        if has(ACK, head.flags) {
            return Ok(None);
        }
        let octets = of_8(of_4(*a, *b, *c, *d), of_4(*e, *f, *g, *h));
        Ok(Some(RecvEvent::Ping(octets)))
    }

    pub(crate) fn settings(&mut self, head: Head, payload: &[u8]) -> Answer
        ensures { Answered (settings_mean (frame_of head payload.now) self.old) result self.new }
    {
        if has(ACK, head.flags) && !payload.is_empty() {
            return Err(RecvFault::Protocol(FRAME_SIZE_ERROR));
        }
        if payload.len() % 6 != 0 {
            return Err(RecvFault::Protocol(FRAME_SIZE_ERROR));
        }
        if head.stream != 0 {
            return Err(RecvFault::Protocol(PROTOCOL_ERROR));
        }
        if has(ACK, head.flags) {
            return Ok(Some(RecvEvent::SettingsAck));
        }
        match settings_in(payload, self.window) {
            Err(code) => Err(RecvFault::Protocol(code)),
            Ok(told) => {
                self.window = told.window;
                self.greeted = true;
                Ok(Some(RecvEvent::Settings(told.window, told.table)))
            }
        }
    }

    pub(crate) fn window_update(&mut self, head: Head, payload: &[u8]) -> Answer
        ensures { Answered (window_update_means (frame_of head payload.now) self.old)
            result self.new }
    {
        let [a, b, c, d] = payload else {
            return Err(RecvFault::Protocol(FRAME_SIZE_ERROR));
        };
        if head.stream != 0 && self.is_idle(head.stream) {
            return Err(RecvFault::Protocol(PROTOCOL_ERROR));
        }
        self.increment(head.stream, of_4(*a, *b, *c, *d) % 2_147_483_648)
    }

    fn increment(&mut self, stream: u32, increment: u32) -> Answer
        ensures { Answered (increment_means stream increment self.old) result self.new }
    {
        if increment == 0 && stream == 0 {
            return Err(RecvFault::Protocol(PROTOCOL_ERROR));
        }
        if increment == 0 {
            self.reset(stream);
            return Ok(Some(RecvEvent::StreamFault(stream, PROTOCOL_ERROR)));
        }
        if stream == 0 {
            return Ok(Some(RecvEvent::Window(0, increment)));
        }
        match self.streams.state(stream) {
            StreamState::Open | StreamState::HalfClosedRemote => Ok(Some(RecvEvent::Window(
                stream, increment,
            ))),
            _ => Ok(None),
        }
    }
}
