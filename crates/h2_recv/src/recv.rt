//! The receiver.
ghost use Rattle.std.specs.Prelude.{◌≡◌, ◌≤◌, ◌<◌, ◌↔◌, ℕ, List, [], length, Ok, Err, OnOk, IsTrue};
ghost use Rattle.h2_frame.specs.Frames.{IsPart};
ghost use Rattle.h2_events.specs.Events.{largest_frame};
ghost use Rattle.h2_streams.specs.Calls.{Moment, frames_of};
ghost use Rattle.h2_streams.specs.declared.peer.Peer.{Peer as Known};
ghost use Rattle.h2_recv.specs.declared.reader.Reader.{Reader as Reading};
ghost use Rattle.h2_recv.specs.Receiving.{Fed, Reaches, Faults, EndsFrame, new_reader, state_ended, wanted, missing, held, reader_held, most_held};
ghost use Rattle.h2_recv.specs.inner.Steps.{HasRead, HasFailed, HasStopped};

use crate::preface::{PREFACE_OCTETS, goes_on, share};
use crate::reader::{Reader, wanted};
use crate::unread::Unread;
use h2_events::{RecvEvents, RecvFault};
use h2_frame::PROTOCOL_ERROR;
use h2_streams::Peer;
use std::alloc::Global;
use std::marker::Model;

// A frame of 16,384 octets that lacks one, and a header block of 65,536.
const MOST_HELD: usize = 81_928;

/// Reads what a client sends, in any pieces.
#[derive(Drop)]
pub struct Recv {
    reader: Reader,
    fault: Option<RecvFault>,
}

impl Model for Recv {
    ghost use Rattle.std.specs.Prelude.{◌≤◌};
    ghost use Rattle.h2_frame.specs.Frames.{IsPart};
    ghost use Rattle.h2_events.specs.Events.{largest_frame};
    ghost use Rattle.h2_recv.specs.Receiving.{State, state_of};

    ghost Value = { State };

    ghost view = { λ r. state_of r.fault r.reader };

    ghost invariant = { λ r. (r.reader.begun ≤ 24) × IsPart largest_frame r.reader.rest };
}

impl Recv {
    /// A receiver to which nothing came. Takes no memory.
    pub fn make(alloc: Global) -> Recv
        ensures { result ≡ Ok new_reader }
    {
        Recv {
            reader: Reader::unread(alloc),
            fault: None,
        }
    }

    /// Takes the next octets. The events of the frames that are whole then are put to the others. After a fault it
    /// answers that fault for ever.
    pub fn feed(
        &mut self,
        alloc: Global,
        piece: &[u8],
        out: &mut RecvEvents,
    ) -> Result<(), RecvFault>
        ensures fed { Fed self.old piece.now out.old result self.new out.new }
        ensures held { held self.new ≤ most_held }
    {
        if let Some(fault) = self.fault {
            return Err(fault);
        }
        match self.reader.read(alloc, piece, out) {
            Ok(()) => {
                prove!(self.reader.held() <= MOST_HELD);
                Ok(())
            }
            Err(fault) => {
                self.fault = Some(fault);
                self.reader = Reader::unread(alloc);
                Err(fault)
            }
        }
    }

    /// This side has ended a stream: it has written END_STREAM on it.
    pub fn ended(&mut self, stream: u32)
        ensures ended { self.new ≡ state_ended stream self.old }
        ensures held { held self.new ≤ most_held }
    {
        self.reader.peer.ended(stream);
        prove!(self.reader.held() <= MOST_HELD);
    }

    /// How many octets more may come until a frame is whole: a piece that is no longer holds one frame at most, and where it
    /// ends in a fault no frame before that.
    pub fn wanted(&self) -> usize
        ensures is { result ≡ wanted self.now }
        ensures some { 0 < result }
        ensures one { (old : Reading) (piece after : List ℕ) (moments : List Moment) (begun : ℕ)
            (peer : Known) → self.now ≡ Ok old → length piece ≤ result
            → Reaches old piece moments after begun peer → length (frames_of moments) ≤ 1 }
        // A fault comes of the first frame.
        ensures fault { (old : Reading) (piece : List ℕ) (moments : List Moment) (code : ℕ)
            → self.now ≡ Ok old → length piece ≤ result → Faults old piece moments code
            → moments ≡ [] }
    {
        if self.fault.is_some() {
            return 1;
        }
        self.reader.wanted()
    }

    /// How many octets of frames are kept: those of a frame that isn't whole, and of a header block. None after a fault.
    pub fn held(&self) -> usize
        ensures value { result ≡ held self.now }
        ensures bounded { result ≤ most_held }
    {
        if self.fault.is_some() {
            return 0;
        }
        self.reader.held()
    }

    /// Whether some frame was read, and the octets so far end where one ends, also inside a header block.
    pub fn whole(&self) -> bool
        ensures { IsTrue result ↔ EndsFrame self.now }
    {
        self.fault.is_none() && self.reader.peer.greeted && self.reader.rest.is_empty()
    }
}

impl Reader {
    // Nothing was read.
    #[tactic(auto, using(crate::proofs::RunLemmas::part_of_nothing))]
    fn unread(alloc: Global) -> Reader
        ensures is { result ≡ new_reader }
        ensures begun { result.begun ≤ 24 }
        ensures part { IsPart largest_frame result.rest }
    {
        Reader {
            begun: 0,
            rest: Unread::empty(alloc),
            peer: Peer::make(alloc),
        }
    }

    // How many octets are kept.
    #[tactic(auto, using(crate::proofs::PieceLemmas::part_length))]
    fn held(&self) -> usize
        requires part { IsPart largest_frame self.now.rest }
        ensures value { result ≡ reader_held self.now }
        ensures bounded { result ≤ most_held }
    {
        self.rest.len() + self.peer.block_len()
    }

    fn wanted(&self) -> usize
        requires begun { self.now.begun ≤ 24 }
        requires part { IsPart largest_frame self.now.rest }
        ensures is { result ≡ missing self.now }
        ensures some { 0 < result }
        ensures one { (piece after : List ℕ) (moments : List Moment) (begun : ℕ) (peer : Known)
            → length piece ≤ result → Reaches self.now piece moments after begun peer
            → length (frames_of moments) ≤ 1 }
        ensures fault { (piece : List ℕ) (moments : List Moment) (code : ℕ)
            → length piece ≤ result → Faults self.now piece moments code → moments ≡ [] }
    {
        if self.begun < PREFACE_OCTETS {
            PREFACE_OCTETS - self.begun
        } else {
            wanted(self.rest.items())
        }
    }

    fn read(&mut self, alloc: Global, piece: &[u8], out: &mut RecvEvents) -> Result<(), RecvFault>
        requires begun { self.old.begun ≤ 24 }
        requires part { IsPart largest_frame self.old.rest }
        ensures begun { self.new.begun ≤ 24 }
        ensures part { OnOk result (IsPart largest_frame self.new.rest) }
        ensures ok { OnOk result (HasRead self.old piece.now out.old self.new out.new) }
        ensures fault { (code : ℕ) → result ≡ Err (RecvFault.Protocol code)
            → HasFailed code self.old piece.now out.old out.new }
        ensures memory { result ≡ Err RecvFault.NoMemory
            → HasStopped self.old piece.now out.old out.new }
    {
        if !goes_on(self.begun, piece) {
            return Err(RecvFault::Protocol(PROTOCOL_ERROR));
        }
        let share = share(self.begun, piece);
        self.begun += share;
        self.frames(alloc, &piece[share..], out)
    }
}
