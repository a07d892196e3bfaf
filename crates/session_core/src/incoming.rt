//! What comes from the peer, frame by frame.
ghost use Rattle.std.specs.Prelude.{◌≡◌, ◌+◌, ◌<◌, ◌≤◌, ℕ, List, length, Ok};
ghost use Rattle.environment.specs.Input.{Input as SourceSeen};
ghost use Rattle.h2_streams.specs.Calls.{Moment};
ghost use Rattle.h2_recv.specs.declared.reader.Reader.{Reader as Reading};
ghost use Rattle.h2_recv.specs.Receiving.{new_reader, wanted};
ghost use Rattle.session_core.specs.Reading.{most_octets};
ghost use Rattle.session_core.specs.inner.Steps.{Advances, Comes, EndsSo, HasRead, IsNextOf, Makes};

use crate::how::How;
use environment::Source;
use h2_events::{RecvEvent, RecvEvents, RecvFault};
use h2_recv::Recv;
use std::alloc::Global;

/// How many octets are read of one peer: 2^48.
const MOST_OCTETS: u64 = 281_474_976_710_656;

/// Octets that are asked for in one read.
const PIECE: usize = 4_096;

/// What comes next of the peer.
#[derive(Drop)]
pub(crate) enum Next {
    /// A frame was read that means this.
    Event(RecvEvent),
    /// Octets were read, and perhaps a frame that means nothing.
    Nothing,
    Ends(How),
}

/// The octets of a peer and what is made of them.
#[derive(Drop)]
pub(crate) struct Incoming<I: Source> {
    pub(crate) source: I,
    pub(crate) recv: Recv,
    /// How many octets were read.
    pub(crate) count: u64,
    ghost few: { count ≤ 281474976710656 },
}

/// Takes a piece in that is no longer than the receiver wants.
fn take(alloc: Global, recv: &mut Recv, piece: &[u8]) -> Next
    requires { length piece.now ≤ wanted recv.old }
    ensures { (old : Reading) → recv.old ≡ Ok old → Makes old piece.now result recv.new }
{
    let wanted = recv.wanted();
    prove!(piece.len() <= wanted);
    let mut events = RecvEvents::empty(alloc);
    match recv.feed(alloc, piece, &mut events) {
        Ok(()) => next_of(events),
        Err(RecvFault::Protocol(code)) => Next::Ends(How::Protocol(code)),
        Err(RecvFault::NoMemory) => Next::Ends(How::NoMemory),
    }
}

/// The event, where there is one.
fn next_of(events: RecvEvents) -> Next
    ensures { length events ≤ 1 → IsNextOf events result }
{
    match events.into_vec().pop() {
        Some(event) => Next::Event(event),
        None => Next::Nothing,
    }
}

impl<I: Source> Incoming<I> {
    /// Before anything was read. Takes no memory.
    pub(crate) fn make(alloc: Global, source: I) -> Incoming<I>
        ensures source { result.source ≡ source }
        ensures recv { result.recv ≡ Ok new_reader }
        ensures count { result.count ≡ 0 }
    {
        Incoming {
            source,
            recv: Recv::make(alloc),
            count: 0,
        }
    }

    /// How many octets are to be read next: what is missing to the end of a frame, or of its head, at most.
    fn room(&self) -> usize
        ensures piece { result ≤ 4096 }
        ensures wanted { result ≤ wanted self.now.recv }
        ensures within { self.now.count + result ≤ most_octets }
        ensures spent { result ≡ 0 → self.now.count ≡ most_octets }
    {
        let left = MOST_OCTETS - self.count;
        let wanted = self.recv.wanted().min(PIECE);
        (wanted as u64).min(left) as usize
    }

    /// Reads once, and takes in what was read. Behind what is answered at an end nothing more is read.
    pub(crate) fn next(&mut self, alloc: Global) -> Next
        ensures comes { (start : SourceSeen) (octets : List ℕ) (moments : List Moment)
            → HasRead start octets moments (I.seen self.old.source) self.old.recv self.old.count
            → Comes start octets moments result
            (I.seen self.new.source) self.new.recv self.new.count }
        ensures advances { Advances result self.old.count self.new.count }
    {
        let room = self.room();
        if room == 0 {
            return Next::Ends(How::Spent);
        }
        let mut buffer = [0u8; PIECE];
        self.read(alloc, &mut buffer[..room])
    }

    fn read(&mut self, alloc: Global, buffer: &mut [u8]) -> Next
        requires some { 0 < length buffer.old }
        requires wanted { length buffer.old ≤ wanted self.old.recv }
        requires within { self.old.count + length buffer.old ≤ most_octets }
        ensures comes { (start : SourceSeen) (octets : List ℕ) (moments : List Moment)
            → HasRead start octets moments (I.seen self.old.source) self.old.recv self.old.count
            → Comes start octets moments result
            (I.seen self.new.source) self.new.recv self.new.count }
        ensures advances { Advances result self.old.count self.new.count }
    {
        match self.source.read(buffer) {
            Err(_) => Next::Ends(How::ReadFault),
            Ok(0) => Next::Ends(self.end()),
            Ok(count) => {
                self.count += count as u64;
                take(alloc, &mut self.recv, &buffer[..count])
            }
        }
    }

    /// How the connection ends where the source does.
    fn end(&self) -> How
        ensures { EndsSo result self.now.recv }
    {
        if self.recv.whole() {
            How::Closed
        } else {
            How::Cut
        }
    }
}
