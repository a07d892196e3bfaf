//! Messages that are still to be said, in order.
ghost use Rattle.std.specs.Prelude.{◌≡◌, ◌≢◌, ℕ, [], ◌∷◌, IfSome, IsTrue, false, drop, length, List};
ghost use Rattle.h2_events.specs.Ports.{FitsMessage};
ghost use Rattle.h2_events.specs.declared.said.Piece.TheVariants as piece;

use base_lists::{Bytes, Copied, Seq};
use h2_events::Piece;
use std::alloc::Global;
use std::marker::Model;
use subscribe_calls::Messages;

/// The most octets of a message that is sent (h2_events' `FitsMessage`).
const LARGEST_SENT_MESSAGE: usize = 123_600_000;

/// Contracts see the octets of the messages that aren't said yet.
#[derive(Drop)]
pub(crate) struct Waiting {
    messages: Messages,
    said: usize,
}

impl Model for Waiting {
    ghost use Rattle.std.specs.Prelude.{ℕ, List, drop, length, ◌≤◌};

    ghost Value = { List (List ℕ) };

    ghost view = { λ w. drop w.said w.messages };

    ghost invariant = { λ w. w.said ≤ length w.messages };
}

/// The message as a piece. None is made of one that is longer than what is sent, and where memory is wanting.
fn piece_of(alloc: Global, message: &Bytes) -> Option<Piece>
    ensures is { IfSome result (λ made. made ≡ piece.Message message.now) }
    ensures fits { IfSome result (λ made. FitsMessage made) }
{
    if message.len() > LARGEST_SENT_MESSAGE {
        return None;
    }
    match message.copy(alloc) {
        Ok(octets) => Some(Piece::Message(octets)),
        Err(_) => None,
    }
}

impl Waiting {
    /// Takes no memory.
    pub fn nothing(alloc: Global) -> Waiting
        ensures { result ≡ [] }
    {
        Waiting {
            messages: Seq::empty(alloc),
            said: 0,
        }
    }

    pub fn of(messages: Messages) -> Waiting
        ensures { result ≡ messages }
    {
        Waiting { messages, said: 0 }
    }

    pub fn is_empty(&self) -> bool
        ensures none { IsTrue result → self.now ≡ [] }
        ensures some { result ≡ false → self.now ≢ [] }
    {
        self.said == self.messages.len()
    }

    /// The first message as a piece, which stays here.
    pub fn first(&self, alloc: Global) -> Option<Piece>
        requires { self.now ≢ [] }
        ensures is { IfSome result (λ made. (octets : List ℕ) × (others : List (List ℕ))
            × (self.now ≡ octets ∷ others) × (made ≡ piece.Message octets)) }
        ensures fits { IfSome result (λ made. FitsMessage made) }
    {
        piece_of(alloc, &self.messages.items()[self.said])
    }

    /// Lets the first message go.
    pub fn take_first(&mut self)
        requires { self.old ≢ [] }
        ensures { (octets : List ℕ) × (self.old ≡ octets ∷ self.new) }
    {
        if self.said < self.messages.len() {
            self.said += 1;
        }
    }
}
