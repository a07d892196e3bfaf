ghost use Rattle.std.specs.Prelude.{◌≡◌, ◌≢◌, ◌≤◌, ◌++◌, [], length, drop, Some, None, Err, IfOk, IfErr, OnOk};
ghost use Rattle.grpc_core.specs.Messages.{Splits};
ghost use Rattle.grpc_core.specs.Splitters.{Gives, Stops};

use crate::message::{SplitFault, Standing, first_in};
use base_lists::{Bytes, Seq};
use std::alloc::Global;
use std::marker::Model;

/// Messages, in their order in a stream.
pub type Messages = Seq<Bytes>;

/// Cuts the octets of a stream into messages, whatever pieces they come in. It holds the message that isn't whole yet.
#[derive(Drop)]
pub struct Splitter {
    rest: Bytes,
    fault: Option<SplitFault>,
}

impl Model for Splitter {
    ghost use Rattle.std.specs.Prelude.{◌≡◌, None};
    ghost use Rattle.grpc_core.specs.Messages.{standing, end_at};
    ghost use Rattle.grpc_core.specs.Splitters.{SplitterView};

    ghost Value = { SplitterView };

    ghost view = { λ s. record { rest = s.rest; fault = s.fault } };

    ghost invariant = { λ s. standing s.rest ≡ end_at None };
}

impl Splitter {
    /// At the beginning of a stream. Takes no memory.
    pub fn make(alloc: Global) -> Splitter
        ensures { result ≡ record { rest = []; fault = None } }
    {
        Splitter {
            rest: Bytes::empty(alloc),
            fault: None,
        }
    }

    /// How many octets are held: those of a message that isn't whole yet, with the five before it.
    pub fn held(&self) -> usize
        ensures value { result ≡ length self.now.rest }
        ensures bound { result ≤ 4194308 }
    {
        self.rest.len()
    }

    /// Takes the next piece of the stream, and adds the messages that it makes whole. A flag that isn't 0 and a length
    /// above 4,194,304 are found as soon as the five octets before a message are there. After a fault that fault is
    /// answered for ever.
    pub fn feed(
        &mut self,
        alloc: Global,
        piece: &[u8],
        out: &mut Messages,
    ) -> Result<(), SplitFault>
        ensures ok { OnOk result (Gives (self.old.rest ++ piece.now) out.old out.new
            self.new.rest) }
        ensures fault { IfErr result (λ fault. self.old.fault ≡ None
            → Stops (self.old.rest ++ piece.now) out.old out.new fault) }
        ensures goes_on { OnOk result ((self.old.fault ≡ None) × (self.new.fault ≡ None)) }
        ensures keeps { IfErr result (λ fault. self.new.fault ≡ Some fault) }
        // At its first fault it lets go what it held; after that nothing changes any more.
        ensures empty { IfErr result (λ fault. self.old.fault ≡ None → self.new.rest ≡ []) }
        ensures for_ever { self.old.fault ≢ None → (self.new ≡ self.old) × (out.new ≡ out.old) }
        ensures held { length self.new.rest ≤ 4194308 }
    {
        if let Some(fault) = self.fault {
            return Err(fault);
        }
        let rest = std::mem::replace(&mut self.rest, Bytes::empty(alloc));
        match joined_and_split(alloc, rest, piece, out) {
            Ok(rest) => {
                self.rest = rest;
                Ok(())
            }
            Err(fault) => {
                self.fault = Some(fault);
                Err(fault)
            }
        }
    }
}

/// Cuts what was held with the piece behind it, and answers what is to be held then.
fn joined_and_split(
    alloc: Global,
    rest: Bytes,
    piece: &[u8],
    out: &mut Messages,
) -> Result<Bytes, SplitFault>
    ensures ok { IfOk result (λ left. Gives (rest ++ piece.now) out.old out.new left) }
    ensures fault { IfErr result (λ fault. Stops (rest ++ piece.now) out.old out.new fault) }
{
    let mut octets = rest;
    octets.extend_from_slice(piece)?;
    let used = split(alloc, octets.items(), out)?;
    if used == 0 {
        return Ok(octets);
    }
    let left = Bytes::of(alloc, &octets.items()[used..])?;
    Ok(left)
}

/// Adds the messages that stand in front, and answers how many octets they have.
fn split(alloc: Global, octets: &[u8], out: &mut Messages) -> Result<usize, SplitFault>
    ensures within { IfOk result (λ used. used ≤ length octets.now) }
    ensures ok { IfOk result (λ used. Gives octets.now out.old out.new (drop used octets.now)) }
    ensures fault { IfErr result (λ fault. Stops octets.now out.old out.new fault) }
{
    let mut at = 0;
    loop {
        match first_in(&octets[at..]) {
            Standing::Waiting => return Ok(at),
            Standing::Faulty(fault) => return Err(fault),
            Standing::Whole(size) => {
                let message = Bytes::of(alloc, &octets[at + 5..at + 5 + size])?;
                out.push(message)?;
                at += 5 + size;
            }
        }
    }
}
