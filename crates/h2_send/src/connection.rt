//! What a sender knows of its connection.
ghost use Rattle.std.specs.Prelude.{◌≡◌, ◌≤◌, ◌*◌, ◌++◌, length, true, false, OnOk, OnErr, IfOk};
ghost use Rattle.h2_events.specs.Events.{highest_with};
ghost use Rattle.h2_windows.specs.Written.{Writes, WritesOctets, octets_of};
ghost use Rattle.h2_windows.specs.Streams.{without};
ghost use Rattle.h2_events.specs.Items.{said_by};
ghost use Rattle.h2_events.specs.declared.said.Said.TheVariants as Said;
ghost use Rattle.h2_events.specs.Ports.{FitsMessage};
ghost use Rattle.h2_send.specs.Offers.{ready_on, taken_on, has_begun};
ghost use Rattle.h2_windows.specs.Bounds.{largest_pending};
ghost use Rattle.h2_windows.specs.Holding.{counted, waiting};
ghost use Rattle.h2_send.specs.Lines.{Line, first_line, told, changed, overflows, is_new_stream, with_increment, increment_passes};
ghost use Rattle.h2_send.specs.Acting.{flushed, headers_for, spoken};

use crate::gathered::Gathered;
use crate::offers::{has_begun, load, ready_on, taken_on};
use crate::{ending, opening, status_answer};
use base_lists::{Bytes, NoMemory};
use environment::{Failed, Sink, write_whole};
use grpc_core::frame_message;
use h2_events::{Piece, Ready, RecvEvent};
use h2_windows::{
    Stream, Window, close, grant, held, initial_passes, open, send_allowed, stream_passes,
};
use std::alloc::Global;
use std::marker::Model;

/// Both windows at first (RFC 9113 section 6.9.2).
const FIRST_WINDOW: u32 = 65_535;

/// The code of a stream error that opens no stream: that of a PRIORITY frame's size.
const FRAME_SIZE: u32 = 6;

/// The windows and the streams of a connection.
#[derive(Drop)]
pub struct Connection {
    window: Window,
    /// The peer's initial window of streams.
    initial_window: u32,
    /// The next header block begins with an update of the table's size.
    owes_update: bool,
    /// The highest stream that the peer has opened.
    highest: u32,
    /// The streams that are open and that this side hasn't ended, by rising number.
    streams: Vec<Stream>,
}

impl Model for Connection {
    ghost use Rattle.h2_send.specs.Lines.{Line};

    ghost Value = { Line };

    ghost view = { λ c. record {
      window = c.window;
      initial = c.initial_window;
      owes_update = c.owes_update;
      highest = c.highest;
      streams = c.streams.items;
    } };
}

impl Connection {
    /// Takes no memory.
    pub(crate) fn new(alloc: Global) -> Connection
        ensures { result ≡ first_line }
    {
        Connection {
            window: Window::of(FIRST_WINDOW),
            initial_window: FIRST_WINDOW,
            owes_update: false,
            highest: 0,
            streams: Vec::new(alloc),
        }
    }

    /// The highest stream that the peer has opened, or 0.
    pub(crate) fn highest(&self) -> u32
        ensures { result ≡ self.now.highest }
    {
        self.highest
    }

    fn increment_passes(&self, stream: u32, increment: u32) -> bool
        ensures { result ≡ increment_passes stream increment self.now }
    {
        if stream == 0 {
            self.window.passes(0, increment)
        } else {
            stream_passes(self.initial_window, stream, increment, &self.streams)
        }
    }

    /// Whether the event would take a window above the largest.
    pub(crate) fn passes(&self, event: &RecvEvent) -> bool
        ensures { result ≡ overflows event.now self.now }
    {
        match event {
            RecvEvent::Settings(initial, _) => initial_passes(*initial, &self.streams),
            RecvEvent::Window(stream, increment) => self.increment_passes(*stream, *increment),
            _ => false,
        }
    }

    fn grow(&mut self, stream: u32, increment: u32)
        requires { increment_passes stream increment self.old ≡ false }
        ensures { self.new ≡ with_increment stream increment self.old }
    {
        if stream == 0 {
            self.window.grow(0, increment);
        } else {
            grant(self.initial_window, stream, increment, &mut self.streams);
        }
    }

    fn change(&mut self, alloc: Global, event: &RecvEvent) -> Result<(), NoMemory>
        requires { overflows event.now self.old ≡ false }
        ensures ok { OnOk result (self.new ≡ changed event.now self.old) }
        ensures memory { OnErr result (is_new_stream event.now ≡ true) }
    {
        match event {
            RecvEvent::Settings(initial, resizes) => {
                self.initial_window = *initial;
                self.owes_update = self.owes_update || *resizes;
            }
            RecvEvent::Window(stream, increment) => self.grow(*stream, *increment),
            RecvEvent::Call(stream, _, _) => return open(alloc, *stream, &mut self.streams),
            RecvEvent::TooLong(stream) => return open(alloc, *stream, &mut self.streams),
            RecvEvent::Reset(stream) => close(*stream, &mut self.streams),
            RecvEvent::StreamFault(stream, _) => close(*stream, &mut self.streams),
            _ => {}
        }
        Ok(())
    }

    /// Takes in what the event tells. Only a new stream wants memory.
    pub(crate) fn tell(&mut self, alloc: Global, event: &RecvEvent) -> Result<(), NoMemory>
        requires { overflows event.now self.old ≡ false }
        ensures ok { OnOk result (self.new ≡ told event.now self.old) }
        ensures memory { OnErr result (is_new_stream event.now ≡ true) }
    {
        self.change(alloc, event)?;
        self.highest = highest_with(self.highest, event);
        Ok(())
    }

    /// How many octets were taken on the stream, or 0 where it isn't here.
    pub(crate) fn taken(&self, stream: u32) -> u64
        ensures { result ≡ taken_on stream self.now.streams }
    {
        taken_on(stream, &self.streams)
    }

    /// How many octets wait on the streams.
    pub(crate) fn held(&self) -> usize
        ensures is { result ≡ counted (waiting self.now.streams) }
        ensures bound { result ≤ largest_pending * length self.now.streams }
    {
        held(&self.streams)
    }

    /// Whether the HEADERS of the stream are sent.
    pub(crate) fn has_begun(&self, stream: u32) -> bool
        ensures { result ≡ has_begun stream self.now.streams }
    {
        has_begun(stream, &self.streams)
    }

    /// Whether something can be said on the stream.
    pub(crate) fn ready(&self, stream: u32) -> Ready
        ensures { result ≡ ready_on stream self.now.streams }
    {
        ready_on(stream, &self.streams)
    }

    /// The octets of the HEADERS that a piece wants.
    pub(crate) fn headers_for(
        &self,
        alloc: Global,
        stream: u32,
        piece: &Piece,
    ) -> Result<Bytes, NoMemory>
        ensures { IfOk result (λ octets. octets
            ≡ octets_of (headers_for stream (said_by piece.now) self.now)) }
    {
        let begun = has_begun(stream, &self.streams);
        match piece {
            Piece::Message(_) => opening(alloc, begun, self.owes_update, stream),
            Piece::Finish(refusal) => ending(alloc, begun, self.owes_update, stream, *refusal),
        }
    }

    /// The octets of a status of HTTP.
    pub(crate) fn status_for(
        &self,
        alloc: Global,
        stream: u32,
        status: u16,
    ) -> Result<Bytes, NoMemory>
        ensures { IfOk result (λ octets. octets
            ≡ octets_of (headers_for stream (Said.Status status) self.now)) }
    {
        status_answer(alloc, self.owes_update, stream, status)
    }

    /// This side ends the stream, with a header block.
    pub(crate) fn end(&mut self, stream: u32)
        ensures { self.new ≡ record self.old {
          owes_update = false;
          streams = without stream self.old.streams;
        } }
    {
        self.owes_update = false;
        close(stream, &mut self.streams);
    }

    /// Takes in what a piece says. A message waits on its stream then.
    pub(crate) fn speak(
        &mut self,
        alloc: Global,
        stream: u32,
        piece: &Piece,
    ) -> Result<(), NoMemory>
        requires size { FitsMessage piece.now }
        ensures { OnOk result (self.new ≡ spoken stream (said_by piece.now) self.old) }
    {
        match piece {
            Piece::Message(message) => {
                let mut octets = Bytes::empty(alloc);
                frame_message(message.items(), &mut octets)?;
                self.owes_update = self.owes_update && has_begun(stream, &self.streams);
                load(stream, octets, &mut self.streams);
            }
            Piece::Finish(_) => self.end(stream),
        }
        Ok(())
    }

    /// Writes octets, and sends what the windows let through.
    pub(crate) fn put_and_flush<S: Sink>(
        &mut self,
        octets: &[u8],
        sink: &mut S,
    ) -> Result<(), Failed>
        ensures writes { WritesOctets result (octets.now ++ octets_of (flushed self.old).frames)
            (S.seen sink.old) (S.seen sink.new) }
        ensures line { OnOk result (self.new ≡ (flushed self.old).line) }
    {
        write_whole(sink, octets)?;
        self.flush(sink)
    }

    /// Octets, and behind them what the windows let through, in one piece.
    pub(crate) fn gather(&mut self, octets: Bytes) -> Result<Bytes, NoMemory>
        ensures ok { IfOk result (λ all. all ≡ octets ++ octets_of (flushed self.old).frames) }
        ensures line { OnOk result (self.new ≡ (flushed self.old).line) }
    {
        let mut gathered = Gathered::of(octets);
        match self.flush(&mut gathered) {
            Ok(()) => Ok(gathered.into_octets()),
            Err(_) => Err(NoMemory),
        }
    }

    /// Sends what the windows let through.
    pub(crate) fn flush<S: Sink>(&mut self, sink: &mut S) -> Result<(), Failed>
        ensures writes { Writes result (flushed self.old).frames
            (S.seen sink.old) (S.seen sink.new) }
        ensures line { OnOk result (self.new ≡ (flushed self.old).line) }
    {
        send_allowed(
            sink,
            self.initial_window,
            &mut self.window,
            &mut self.streams,
        )
    }
}

fn highest_with(highest: u32, event: &RecvEvent) -> u32
    ensures { result ≡ highest_with highest event.now }
{
    match event {
        RecvEvent::Call(stream, _, _) => highest.max(*stream),
        RecvEvent::TooLong(stream) => highest.max(*stream),
        RecvEvent::StreamFault(stream, code) => {
            if *code == FRAME_SIZE {
                highest
            } else {
                highest.max(*stream)
            }
        }
        _ => highest,
    }
}
