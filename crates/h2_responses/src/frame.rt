//! A whole frame.
ghost use Rattle.std.specs.Prelude.{◌≡◌, ℕ, Ok, Err, IfOk};
ghost use Rattle.h2_frame.specs.Frames.{frame_of};
ghost use Rattle.h2_streams.specs.Codes.{kind_of};
ghost use Rattle.h2_responses.specs.Meanings.{FrameAnswered, IsFault, kind_means, next_means, meaning_of, Means};

use crate::control::Answer;
use crate::server::Server;
use h2_events::RecvFault;
use h2_frame::{ACK, CONTINUATION, Head, PROTOCOL_ERROR, SETTINGS};
use h2_streams::{Kind, has, kind_of};
use std::alloc::Global;

impl Server {
    fn outside_block(&mut self, alloc: Global, head: Head, payload: &[u8]) -> Answer
        ensures { FrameAnswered
            (kind_means (kind_of head.kind) (frame_of head payload.now) self.old)
            self.old result self.new }
    {
        match kind_of(head.kind) {
            Kind::Data => self.data(alloc, head, payload),
            Kind::Headers => self.headers(alloc, head, payload),
            Kind::Priority => self.priority(head, payload),
            Kind::RstStream => self.rst_stream(head, payload),
            Kind::Settings => self.settings(head, payload),
            Kind::Ping => self.ping(head, payload),
            Kind::GoAway => self.goaway(head, payload),
            Kind::WindowUpdate => self.window_update(head, payload),
            Kind::PushPromise | Kind::Continuation => Err(RecvFault::Protocol(PROTOCOL_ERROR)),
            Kind::Unknown => Ok(None),
        }
    }

    fn next(&mut self, alloc: Global, head: Head, payload: &[u8]) -> Answer
        ensures { FrameAnswered (next_means self.old.block (frame_of head payload.now) self.old)
            self.old result self.new }
    {
        let Some(block) = self.block.take() else {
            return self.outside_block(alloc, head, payload);
        };
        if head.kind == CONTINUATION && head.stream == block.stream {
            self.continuation(alloc, head, payload, block)
        } else {
            Err(RecvFault::Protocol(PROTOCOL_ERROR))
        }
    }

    fn any(&mut self, alloc: Global, head: Head, payload: &[u8]) -> Answer
        ensures { FrameAnswered (meaning_of (frame_of head payload.now) self.old)
            self.old result self.new }
    {
        if self.greeted {
            return self.next(alloc, head, payload);
        }
        if head.kind == SETTINGS && !has(ACK, head.flags) {
            return self.settings(head, payload);
        }
        Err(RecvFault::Protocol(PROTOCOL_ERROR))
    }

    /// Reads a whole frame, and answers the event that it gives, if any. After an `Err` nothing is known of the server any
    /// more.
    pub fn frame(&mut self, alloc: Global, head: Head, payload: &[u8]) -> Answer
        ensures goes_on { IfOk result (λ event. Means self.old (frame_of head payload.now)
            (Ok (record { event = event; server = self.new }))) }
        ensures fault { (code : ℕ) → result ≡ Err (RecvFault.Protocol code)
            → IsFault self.old (frame_of head payload.now) code }
    {
        self.any(alloc, head, payload)
    }
}
