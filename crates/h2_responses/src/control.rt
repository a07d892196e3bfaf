//! Frames without octets of a message: PRIORITY, RST_STREAM, SETTINGS, PING, GOAWAY and WINDOW_UPDATE (RFC 9113 sections
//! 6.3 to 6.5 and 6.7 to 6.9), one function a kind.
ghost use Rattle.std.specs.Prelude.{◌≡◌, ◌==◌, ◌&&◌, nat_lt};
ghost use Rattle.h2_frame.specs.Frames.{frame_of};
ghost use Rattle.h2_responses.specs.Outcomes.{Answered};
ghost use Rattle.h2_responses.specs.Meanings.{priority_means, rst_stream_means, has_push, settings_mean, ping_means, goaway_means, increment_means, window_update_means};

use crate::event::ServerEvent;
use crate::server::{ResponseState, Server};
use h2_events::RecvFault;
use h2_frame::{ACK, FRAME_SIZE_ERROR, Head, PROTOCOL_ERROR};
use h2_streams::{has, of_4, of_8, settings_in};

/// What a frame answers: the event that it gives, if any.
pub type Answer = Result<Option<ServerEvent>, RecvFault>;

/// Whether the setting of this name, in two octets, is an ENABLE_PUSH above 0.
fn enables_push(n1: u8, n0: u8, value: u32) -> bool
    ensures { result ≡ (n1 == 0) && (n0 == 2) && nat_lt 0 value }
{
    n1 == 0 && n0 == 2 && 0 < value
}

/// Whether an ENABLE_PUSH above 0 is among the settings.
fn has_push(payload: &[u8]) -> bool
    ensures { result ≡ has_push payload.now }
{
    let mut rest = payload;
    while let [n1, n0, v3, v2, v1, v0, ..] = rest {
        if enables_push(*n1, *n0, of_4(*v3, *v2, *v1, *v0)) {
            return true;
        }
        rest = &rest[6..];
    }
    false
}

impl Server {
    pub(crate) fn priority(&mut self, head: Head, payload: &[u8]) -> Answer
        ensures { Answered (priority_means (frame_of head payload.now) self.old) result self.new }
    {
        if head.stream == 0 {
            return Err(RecvFault::Protocol(PROTOCOL_ERROR));
        }
        if payload.len() != 5 {
            return Err(RecvFault::Protocol(FRAME_SIZE_ERROR));
        }
        Ok(None)
    }

    pub(crate) fn rst_stream(&mut self, head: Head, payload: &[u8]) -> Answer
        ensures { Answered (rst_stream_means (frame_of head payload.now) self.old) result self.new }
    {
        let [a, b, c, d] = payload else {
            return Err(RecvFault::Protocol(FRAME_SIZE_ERROR));
        };
        if self.is_unopened(head.stream) {
            return Err(RecvFault::Protocol(PROTOCOL_ERROR));
        }
        match self.state_on(head.stream) {
            ResponseState::Over => Ok(None),
            _ => {
                self.set_state(ResponseState::Over);
                Ok(Some(ServerEvent::Reset(head.stream, of_4(*a, *b, *c, *d))))
            }
        }
    }

    pub(crate) fn goaway(&mut self, head: Head, payload: &[u8]) -> Answer
        ensures { Answered (goaway_means (frame_of head payload.now) self.old) result self.new }
    {
        let [a, b, c, d, _, _, _, _, ..] = payload else {
            return Err(RecvFault::Protocol(FRAME_SIZE_ERROR));
        };
        if head.stream != 0 {
            return Err(RecvFault::Protocol(PROTOCOL_ERROR));
        }
        Ok(Some(ServerEvent::GoAway(of_4(*a, *b, *c, *d) % 2_147_483_648)))
    }

    pub(crate) fn ping(&mut self, head: Head, payload: &[u8]) -> Answer
        ensures { Answered (ping_means (frame_of head payload.now) self.old) result self.new }
    {
        let [a, b, c, d, e, f, g, h] = payload else {
            return Err(RecvFault::Protocol(FRAME_SIZE_ERROR));
        };
        if head.stream != 0 {
            return Err(RecvFault::Protocol(PROTOCOL_ERROR));
        }
        if has(ACK, head.flags) {
            return Ok(None);
        }
        let octets = of_8(of_4(*a, *b, *c, *d), of_4(*e, *f, *g, *h));
        Ok(Some(ServerEvent::Ping(octets)))
    }

    pub(crate) fn settings(&mut self, head: Head, payload: &[u8]) -> Answer
        ensures { Answered (settings_mean (frame_of head payload.now) self.old) result self.new }
    {
        if has(ACK, head.flags) && !payload.is_empty() {
            return Err(RecvFault::Protocol(FRAME_SIZE_ERROR));
        }
        if payload.len() % 6 != 0 {
            return Err(RecvFault::Protocol(FRAME_SIZE_ERROR));
        }
        if head.stream != 0 {
            return Err(RecvFault::Protocol(PROTOCOL_ERROR));
        }
        if has(ACK, head.flags) {
            return Ok(Some(ServerEvent::SettingsAck));
        }
        if has_push(payload) {
            return Err(RecvFault::Protocol(PROTOCOL_ERROR));
        }
        match settings_in(payload, self.window) {
            Err(code) => Err(RecvFault::Protocol(code)),
            Ok(told) => {
                self.window = told.window;
                self.greeted = true;
                Ok(Some(ServerEvent::Settings(told.window, told.table)))
            }
        }
    }

    pub(crate) fn window_update(&mut self, head: Head, payload: &[u8]) -> Answer
        ensures { Answered (window_update_means (frame_of head payload.now) self.old)
            result self.new }
    {
        let [a, b, c, d] = payload else {
            return Err(RecvFault::Protocol(FRAME_SIZE_ERROR));
        };
        if head.stream != 0 && self.is_unopened(head.stream) {
            return Err(RecvFault::Protocol(PROTOCOL_ERROR));
        }
        self.increment(head.stream, of_4(*a, *b, *c, *d) % 2_147_483_648)
    }

    fn increment(&mut self, stream: u32, increment: u32) -> Answer
        ensures { Answered (increment_means stream increment self.old) result self.new }
    {
        if increment == 0 {
            return Err(RecvFault::Protocol(PROTOCOL_ERROR));
        }
        if stream == 0 {
            return Ok(Some(ServerEvent::Window(0, increment)));
        }
        match self.state_on(stream) {
            ResponseState::Over => Ok(None),
            _ => Ok(Some(ServerEvent::Window(stream, increment))),
        }
    }
}
