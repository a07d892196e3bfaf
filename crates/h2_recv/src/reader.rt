//! Octets of frames in pieces.
ghost use Rattle.std.specs.Prelude.{◌≡◌, ◌+◌, ◌<◌, ◌≤◌, ℕ, [], ◌++◌, length, take, option_to_list, Ok, Err, IfOk, OnOk, OnErr};
ghost use Rattle.h2_frame.specs.Frames.{IsPart};
ghost use Rattle.h2_events.specs.Events.{largest_frame};
ghost use Rattle.h2_recv.specs.inner.Steps.{IsWithin, Looks, Goes, Fails, Began, Advances, AdvancesTo};
ghost use Rattle.h2_recv.specs.Receiving.{next_end};

use crate::unread::Unread;
use base_lists::NoMemory;
use h2_events::{RecvEvent, RecvEvents, RecvFault};
use h2_frame::{Got, read_frame};
use h2_streams::{Answer, Peer};
use std::alloc::Global;

const LARGEST_FRAME: u32 = 16_384;

const HEAD_OCTETS: usize = 9;

/// What a receiver has between two pieces.
#[derive(Drop)]
pub struct Reader {
    /// How many octets of the preface came, 24 at most.
    pub begun: usize,
    /// The octets of a frame that isn't whole.
    pub rest: Unread,
    pub peer: Peer,
}

// Where the head ends that begins so, or the payload behind the whole head.
fn next_end(octets: &[u8]) -> usize
    ensures { result ≡ next_end octets.now }
{
    let [first, second, third, _, _, _, _, _, _, ..] = octets else {
        return HEAD_OCTETS;
    };
    HEAD_OCTETS + usize::from(*first) * 65536 + usize::from(*second) * 256 + usize::from(*third)
}

// How many octets more there are to the next end.
pub(crate) fn wanted(octets: &[u8]) -> usize
    requires { IsPart largest_frame octets.now }
    ensures some { 0 < result }
    ensures end { length octets.now + result ≡ next_end octets.now }
{
    next_end(octets) - octets.len()
}

// Puts the event to the others.
fn give(event: Option<RecvEvent>, out: &mut RecvEvents) -> Result<(), NoMemory>
    ensures ok { OnOk result (out.new ≡ out.old ++ option_to_list event) }
    ensures err { OnErr result (out.new ≡ out.old) }
{
    match event {
        Some(event) => out.push(event),
        None => Ok(()),
    }
}

impl Reader {
    // Reads octets of frames.
    pub(crate) fn frames(
        &mut self,
        alloc: Global,
        octets: &[u8],
        out: &mut RecvEvents,
    ) -> Result<(), RecvFault>
        requires part { IsPart largest_frame self.old.rest }
        ensures begun { self.new.begun ≡ self.old.begun }
        ensures ok { OnOk result (Goes (self.old.rest ++ octets.now) self.old.peer out.old
            self.new.rest [] self.new.peer out.new) }
        ensures fault { (code : ℕ) → result ≡ Err (RecvFault.Protocol code)
            → Fails (self.old.rest ++ octets.now) self.old.peer out.old code out.new }
        ensures memory { result ≡ Err RecvFault.NoMemory
            → Began (self.old.rest ++ octets.now) self.old.peer out.old out.new }
    {
        let mut behind = octets;
        while !behind.is_empty() {
            behind = self.step(alloc, behind, out)?;
        }
        Ok(())
    }

    // Takes octets up to the next end of a head or a frame, and the event of the frame that is whole then.
    fn step<'a>(
        &mut self,
        alloc: Global,
        octets: &'a [u8],
        out: &mut RecvEvents,
    ) -> Result<&'a [u8], RecvFault>
        requires part { IsPart largest_frame self.old.rest }
        requires some { 0 < length octets.now }
        ensures shorter { IfOk result (λ behind. length behind.now < length octets.now) }
        ensures begun { self.new.begun ≡ self.old.begun }
        ensures part { OnOk result (IsPart largest_frame self.new.rest) }
        ensures goes { IfOk result
            (λ behind. Advances self.old.peer self.old.rest octets.now out.old
            self.new.peer self.new.rest behind.now out.new) }
        ensures fault { (code : ℕ) → result ≡ Err (RecvFault.Protocol code)
            → AdvancesTo code self.old.peer self.old.rest octets.now out.old out.new }
        ensures err { OnErr result (out.new ≡ out.old) }
    {
        if self.rest.is_empty() {
            if let Got::Frame(head, used) = read_frame(octets, LARGEST_FRAME) {
                let event = self.peer.frame(alloc, head, &octets[HEAD_OCTETS..used])?;
                give(event, out)?;
                return Ok(&octets[used..]);
            }
        }
        self.gather(alloc, octets, out)
    }

    // The same of a frame that isn't whole in the octets: they are kept.
    fn gather<'a>(
        &mut self,
        alloc: Global,
        octets: &'a [u8],
        out: &mut RecvEvents,
    ) -> Result<&'a [u8], RecvFault>
        requires part { IsPart largest_frame self.old.rest }
        requires some { 0 < length octets.now }
        ensures shorter { IfOk result (λ behind. length behind.now < length octets.now) }
        ensures begun { self.new.begun ≡ self.old.begun }
        ensures part { OnOk result (IsPart largest_frame self.new.rest) }
        ensures goes { IfOk result
            (λ behind. Advances self.old.peer self.old.rest octets.now out.old
            self.new.peer self.new.rest behind.now out.new) }
        ensures fault { (code : ℕ) → result ≡ Err (RecvFault.Protocol code)
            → AdvancesTo code self.old.peer self.old.rest octets.now out.old out.new }
        ensures err { OnErr result (out.new ≡ out.old) }
    {
        let taken = self.take(octets)?;
        let event = self.look(alloc)?;
        give(event, out)?;
        Ok(&octets[taken..])
    }

    // Takes as many octets as are there, up to the next end, and answers how many.
    fn take(&mut self, octets: &[u8]) -> Result<usize, NoMemory>
        requires part { IsPart largest_frame self.old.rest }
        ensures some { IfOk result (λ taken. 0 < length octets.now → 0 < taken) }
        ensures taken { IfOk result (λ taken. taken ≤ length octets.now) }
        ensures new { IfOk result (λ taken. self.new
            ≡ record self.old { rest = self.old.rest ++ take taken octets.now }) }
        ensures within { OnOk result (IsWithin self.new.rest) }
        ensures err { OnErr result (self.new ≡ self.old) }
    {
        let taken = wanted(self.rest.items()).min(octets.len());
        self.rest.extend(&octets[..taken])?;
        Ok(taken)
    }

    // Looks at the octets so far, and reads the frame that they are, if it is whole.
    fn look(&mut self, alloc: Global) -> Answer
        requires { IsWithin self.old.rest }
        ensures looks { Looks self.old result self.new }
        ensures begun { self.new.begun ≡ self.old.begun }
    {
        match read_frame(self.rest.items(), LARGEST_FRAME) {
            Got::More => Ok(None),
            Got::Bad(code) => Err(RecvFault::Protocol(code)),
            Got::Frame(head, used) => {
                let payload = &self.rest.items()[HEAD_OCTETS..used];
                let event = self.peer.frame(alloc, head, payload)?;
                self.rest.clear();
                Ok(event)
            }
        }
    }
}
