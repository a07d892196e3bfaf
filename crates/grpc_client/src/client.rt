//! The client.
ghost use Rattle.std.specs.Prelude.{◌≡◌, ◌≤◌, ◌<◌, length, Some, None, Err};
ghost use Rattle.grpc_core.specs.Messages.{largest_message};
ghost use Rattle.grpc_client.specs.Connections.{new_connection, next_stream};
ghost use Rattle.grpc_client.specs.Asked.{CanOpen, Asked, kept};

use crate::answer::answer_of;
use crate::connection::{Connection, LAST_STREAM};
use crate::fault::CallFault;
use base_lists::Bytes;
use environment::{Sink, Source};
use grpc_core::Method;
use std::alloc::Global;

/// A client over the two halves of a connection: it makes one unary call at a time.
#[derive(Drop)]
pub struct Client<I: Source, O: Sink> {
    pub input: I,
    pub output: O,
    pub connection: Connection,
    /// The fault that every further call answers.
    pub fault: Option<CallFault>,
}

/// The fault that a client keeps.
fn kept(outcome: &Result<Bytes, CallFault>) -> Option<CallFault>
    ensures { result ≡ kept outcome.now }
{
    match outcome {
        Err(fault) if !fault.goes_on() => Some(*fault),
        _ => None,
    }
}

impl<I: Source, O: Sink> Client<I, O> {
    /// A client on whose connection nothing was sent yet. Takes no memory, reads and writes nothing.
    pub fn make(alloc: Global, input: I, output: O) -> Client<I, O>
        ensures { result ≡ record {
          input = input;
          output = output;
          connection = new_connection;
          fault = None;
        } }
    {
        Client {
            input,
            output,
            connection: Connection::new(alloc),
            fault: None,
        }
    }

    /// Calls a method with a message, and answers the message of the response. The authority, in ASCII, is the host and port
    /// that are called, at most 1,000 octets (RFC 9113 section 8.3.1). The message has at most 4,194,304 octets.
    ///
    /// The first call sends the client's preface. SETTINGS and PING are acknowledged, and DATA is granted again, before the next
    /// frame is read (RFC 9113 sections 6.5.3, 6.7 and 6.9). After any fault but `Refused` and `Http` the client answers that fault
    /// for ever.
    pub fn call(
        &mut self,
        alloc: Global,
        authority: &[u8],
        method: Method,
        body: &[u8],
    ) -> Result<Bytes, CallFault>
        requires authority { length authority.now ≤ 1000 }
        requires body { length body.now ≤ largest_message }
        ensures asked { self.old.fault ≡ None → CanOpen self.old.connection
            → Asked authority.now method body.now result self.old.connection self.new.connection
            (I.seen self.old.input) (I.seen self.new.input)
            (O.seen self.old.output) (O.seen self.new.output) }
        // No stream is left for a call, or the server takes none: nothing is sent.
        ensures spent { self.old.fault ≡ None → 2147483647 < next_stream self.old.connection
            → (result ≡ Err CallFault.Spent) × (self.new.input ≡ self.old.input)
            × (self.new.output ≡ self.old.output) }
        ensures closed { self.old.fault ≡ None → next_stream self.old.connection ≤ 2147483647
            → self.old.connection.limit < next_stream self.old.connection
            → (result ≡ Err CallFault.Closed) × (self.new.input ≡ self.old.input)
            × (self.new.output ≡ self.old.output) }
        ensures keeps { self.old.fault ≡ None → self.new.fault ≡ kept result }
        ensures again { (why : CallFault) → self.old.fault ≡ Some why
            → (result ≡ Err why) × (self.new ≡ self.old) }
    {
        if let Some(fault) = self.fault {
            return Err(fault);
        }
        let answer = self.answer(alloc, authority, method, body);
        self.fault = kept(&answer);
        answer
    }

    fn answer(
        &mut self,
        alloc: Global,
        authority: &[u8],
        method: Method,
        body: &[u8],
    ) -> Result<Bytes, CallFault>
        requires authority { length authority.now ≤ 1000 }
        requires body { length body.now ≤ largest_message }
        ensures asked { CanOpen self.old.connection
            → Asked authority.now method body.now result self.old.connection self.new.connection
            (I.seen self.old.input) (I.seen self.new.input)
            (O.seen self.old.output) (O.seen self.new.output) }
        ensures spent { 2147483647 < next_stream self.old.connection
            → (result ≡ Err CallFault.Spent) × (self.new.input ≡ self.old.input)
            × (self.new.output ≡ self.old.output) }
        ensures closed { next_stream self.old.connection ≤ 2147483647
            → self.old.connection.limit < next_stream self.old.connection
            → (result ≡ Err CallFault.Closed) × (self.new.input ≡ self.old.input)
            × (self.new.output ≡ self.old.output) }
        ensures fault { self.new.fault ≡ self.old.fault }
    {
        let stream = self.connection.next_stream();
        if LAST_STREAM < stream {
            return Err(CallFault::Spent);
        }
        if self.connection.limit < stream {
            return Err(CallFault::Closed);
        }
        self.exchange(alloc, authority, method, body)
    }

    fn exchange(
        &mut self,
        alloc: Global,
        authority: &[u8],
        method: Method,
        body: &[u8],
    ) -> Result<Bytes, CallFault>
        requires authority { length authority.now ≤ 1000 }
        requires body { length body.now ≤ largest_message }
        ensures asked { Asked authority.now method body.now result
            self.old.connection self.new.connection
            (I.seen self.old.input) (I.seen self.new.input)
            (O.seen self.old.output) (O.seen self.new.output) }
        ensures fault { self.new.fault ≡ self.old.fault }
    {
        self.connection
            .begin(alloc, &mut self.output, authority, method, body)?;
        self.connection
            .finish(alloc, &mut self.input, &mut self.output)?;
        answer_of(alloc, &self.connection.heard)
    }

    /// Gives the two halves back.
    pub fn give(self) -> (I, O)
        ensures input { result.0 ≡ self.input }
        ensures output { result.1 ≡ self.output }
    {
        let Client {
            input,
            output,
            connection: _,
            fault: _,
        } = self;
        (input, output)
    }
}
