//! The wire of a connection: what is written for each event.
ghost use Rattle.std.specs.Prelude.{◌≡◌, ◌≢◌, ◌≤◌, ◌*◌, length, true, false, [], ◌∷◌, Err};
ghost use Rattle.h2_windows.specs.Bounds.{largest_pending};
ghost use Rattle.h2_windows.specs.Holding.{counted, waiting};
ghost use Rattle.h2_windows.specs.Written.{Writes};
ghost use Rattle.h2_send.specs.Lines.{first_line, overflows, is_new_stream};
ghost use Rattle.h2_events.specs.Items.{said_by};
ghost use Rattle.h2_events.specs.Ports.{FitsMessage};
ghost use Rattle.h2_events.specs.declared.said.Said.TheVariants as Said;
ghost use Rattle.h2_send.specs.Inputs.{Event, Speech};
ghost use Rattle.h2_send.specs.Port.{asked, noted, unused_port};
ghost use Rattle.h2_send.specs.Acting.{acted, handled, replies};
ghost use Rattle.h2_send.specs.Conditions.{answer_of, readiness};
ghost use Rattle.h2_send.specs.Offers.{IsStatus, has_begun, taken_on};
ghost use Rattle.environment.specs.Output.{Output};
ghost use Rattle.h2_send.specs.Conditions.{IsClosed};
ghost use Rattle.h2_send.specs.Outputs.{HasGoneOut};
ghost use Rattle.h2_send.specs.Wires.{Does, IsFolded, IsSoundWire, Responds, Says, behind_greeting, greeted, finished, finished_ungreeted, farewell, last_frames};

use crate::condition::{Condition, answer_of, answered, condition_after, is_closed, took_of};
use crate::connection::Connection;
use crate::fault::WireFaultOut;
use crate::given::Given;
use crate::port::Port;
use base_lists::Remembered;
use environment::{Failed, Sink, write_whole};
use h2_events::{Piece, Ready, RecvEvent, Took};
use h2_windows::{
    put_goaway, put_grants, put_greeting, put_ping_ack, put_rst_stream, put_settings_ack,
};
use std::alloc::Global;
use std::marker::Model;
use std::snapshot::Snapshot;

/// The sending half of a connection, over the sink that its octets go to.
#[derive(Drop)]
pub struct Wire<S: Sink> {
    sink: S,
    connection: Connection,
    /// The inputs so far, for contracts alone.
    given: Remembered<Given>,
    condition: Condition,
    pub(crate) port: Port,
}

impl<S: Sink> Model for Wire<S> {
    ghost use Rattle.std.specs.Coded.{codes};
    ghost use Rattle.std.specs.Prelude.{map};
    ghost use Rattle.h2_send.specs.Inputs.{input_of};
    ghost use Rattle.h2_send.specs.Wires.{WireView, view_code, IsSoundWire};

    ghost Value = { WireView S };

    ghost coded = { view_code S.code (Prim.hlevel codes) };

    ghost view = { λ w. record {
      sink = w.sink;
      line = w.connection;
      inputs = map input_of w.given;
      condition = w.condition;
      port = w.port;
    } };

    ghost invariant = { λ w. IsSoundWire w.condition w.connection (map input_of w.given) };
}

fn put_replies<S: Sink>(event: &RecvEvent, sink: &mut S) -> Result<(), Failed>
    ensures { Writes result (replies event.now) (S.seen sink.old) (S.seen sink.new) }
{
    match event {
        RecvEvent::Settings(_, _) => put_settings_ack(sink),
        RecvEvent::Ping(octets) => put_ping_ack(sink, *octets),
        RecvEvent::Piece(stream, _, size, ended) => put_grants(sink, *stream, *size, *ended),
        RecvEvent::StreamFault(stream, code) => put_rst_stream(sink, *stream, *code),
        _ => Ok(()),
    }
}

/// Takes in what an event tells, answers it, and sends what the windows then let through.
fn respond<S: Sink>(
    alloc: Global,
    event: &RecvEvent,
    connection: &mut Connection,
    sink: &mut S,
) -> Result<(), WireFaultOut>
    requires { overflows event.now connection.old ≡ false }
    ensures { Responds (is_new_stream event.now) (acted event.now connection.old) result
        connection.new (S.seen sink.old) (S.seen sink.new) }
{
    connection.tell(alloc, event)?;
    put_replies(event, sink)?;
    connection.flush(sink)?;
    Ok(())
}

/// The octets of a message that goes out in one piece with its HEADERS.
const SMALL: usize = 4_096;

fn is_small(piece: &Piece) -> bool {
    match piece {
        Piece::Message(octets) => octets.len() <= SMALL,
        Piece::Finish(_) => false,
    }
}

/// Writes what a piece wants on a stream that is free, and sends what the windows then let through. Of a small message all
/// goes in one piece.
fn say_piece<S: Sink>(
    alloc: Global,
    stream: u32,
    piece: &Piece,
    connection: &mut Connection,
    sink: &mut S,
) -> Result<(), WireFaultOut>
    requires size { FitsMessage piece.now }
    ensures { Responds true (handled (Speech stream (said_by piece.now)) connection.old) result
        connection.new (S.seen sink.old) (S.seen sink.new) }
{
    let octets = connection.headers_for(alloc, stream, piece)?;
    connection.speak(alloc, stream, piece)?;
    if is_small(piece) {
        let all = connection.gather(octets)?;
        write_whole(sink, all.items())?;
        return Ok(());
    }
    connection.put_and_flush(octets.items(), sink)?;
    Ok(())
}

fn say_status<S: Sink>(
    alloc: Global,
    stream: u32,
    status: u16,
    connection: &mut Connection,
    sink: &mut S,
) -> Result<(), WireFaultOut>
    ensures { Responds true (handled (Speech stream (Said.Status status)) connection.old) result
        connection.new (S.seen sink.old) (S.seen sink.new) }
{
    let octets = connection.status_for(alloc, stream, status)?;
    connection.end(stream);
    connection.put_and_flush(octets.items(), sink)?;
    Ok(())
}

fn put_farewell<S: Sink>(sink: &mut S, connection: &Connection, code: u32) -> Result<(), Failed>
    ensures { Writes result (farewell code connection.now) (S.seen sink.old) (S.seen sink.new) }
{
    if code == 0 {
        return Ok(());
    }
    put_goaway(sink, connection.highest(), code)
}

/// The same behind a greeting, where it writes anything.
fn put_first_farewell<S: Sink>(
    sink: &mut S,
    connection: &Connection,
    code: u32,
) -> Result<(), Failed>
    ensures { Writes result (behind_greeting (farewell code connection.now))
        (S.seen sink.old) (S.seen sink.new) }
{
    if code == 0 {
        return Ok(());
    }
    put_greeting(sink)?;
    put_farewell(sink, connection, code)
}

/// What is written last, by how the wire stands.
fn put_last<S: Sink>(
    sink: &mut S,
    connection: &Connection,
    condition: Condition,
    code: u32,
) -> Result<(), Failed>
    ensures { Writes result (last_frames condition code connection.now)
        (S.seen sink.old) (S.seen sink.new) }
{
    match condition {
        Condition::New => put_first_farewell(sink, connection, code),
        Condition::Open => put_farewell(sink, connection, code),
        Condition::Finished => put_farewell(sink, connection, code),
        Condition::WriteFault => put_farewell(sink, connection, code),
        Condition::NoMemory => put_farewell(sink, connection, code),
    }
}

impl<S: Sink> Wire<S> {
    /// A wire on which nothing is written until it is greeted. Takes no memory.
    pub fn make(alloc: Global, sink: S) -> Wire<S>
        ensures { result ≡ record {
          sink = sink;
          line = first_line;
          inputs = [];
          condition = Condition.New;
          port = unused_port;
        } }
    {
        Wire {
            sink,
            connection: Connection::new(alloc),
            given: Remembered::nothing(),
            condition: Condition::New,
            port: Port::unused(),
        }
    }

    /// Writes the SETTINGS frame that a server begins with, and opens the wire: before it nothing else is written. Once the
    /// wire was greeted nothing is written. Takes no memory.
    pub fn greet(&mut self) -> Result<(), WireFaultOut>
        ensures greets { self.old.condition ≡ Condition.New
            → Does S.seen false Condition.Open [] (greeted self.old.line) result self.old self.new }
        ensures once { self.old.condition ≢ Condition.New
            → (result ≡ answer_of self.old.condition) × (self.new ≡ self.old) }
        ensures sound { IsSoundWire self.new.condition self.new.line self.new.inputs }
        ensures output { (start : Output)
            → HasGoneOut self.old.condition self.old.inputs start (S.seen self.old.sink)
            → HasGoneOut self.new.condition self.new.inputs start (S.seen self.new.sink) }
    {
        if self.condition != Condition::New {
            return answer_of(self.condition);
        }
        let done = answered(put_greeting(&mut self.sink));
        self.condition = condition_after(Condition::Open, &done);
        done
    }

    /// Answers an event, and sends what the windows then let through: SETTINGS and PING with ACK, DATA with WINDOW_UPDATE
    /// of its length with padding, a stream error with RST_STREAM; then DATA, lowest stream first (RFC 9113 section 6).
    ///
    /// `Overflow` comes exactly where the event would take a window above 2,147,483,647. On a wire that isn't open it answers
    /// the fault that closed it, and Ok where none did.
    pub fn act(&mut self, alloc: Global, event: &RecvEvent) -> Result<(), WireFaultOut>
        ensures acts { self.old.condition ≡ Condition.Open
            → overflows event.now self.old.line ≡ false
            → Does S.seen (is_new_stream event.now) Condition.Open (Event event.now ∷ [])
            (acted event.now self.old.line) result self.old self.new }
        // A window that would be larger than it may be is left to the caller, and nothing is changed.
        ensures overflow { self.old.condition ≡ Condition.Open
            → overflows event.now self.old.line ≡ true
            → (result ≡ Err WireFaultOut.Overflow) × (self.new ≡ self.old) }
        ensures closed { self.old.condition ≢ Condition.Open
            → (result ≡ answer_of self.old.condition) × (self.new ≡ self.old) }
        ensures sound { IsSoundWire self.new.condition self.new.line self.new.inputs }
        ensures output { (start : Output)
            → HasGoneOut self.old.condition self.old.inputs start (S.seen self.old.sink)
            → HasGoneOut self.new.condition self.new.inputs start (S.seen self.new.sink) }
    {
        if self.condition != Condition::Open {
            return answer_of(self.condition);
        }
        if self.connection.passes(event) {
            return Err(WireFaultOut::Overflow);
        }
        let done = respond(alloc, event, &mut self.connection, &mut self.sink);
        self.given.remember(&Given::Event(Snapshot::of(event)));
        self.condition = condition_after(Condition::Open, &done);
        done
    }

    /// Whether something can be said on the stream now.
    pub fn readiness(&self, stream: u32) -> Ready
        ensures is { result ≡ readiness self.now.condition stream self.now.line }
        ensures line { IsFolded self.now.condition self.now.line self.now.inputs }
    {
        if self.condition == Condition::Open {
            self.connection.ready(stream)
        } else {
            Ready::Gone
        }
    }

    /// How many octets were taken to be sent on the stream since it was opened, those before each message with them. It is 0
    /// where the stream isn't open or this side has ended it, and stands still at the end of a u64.
    pub fn taken(&self, stream: u32) -> u64
        ensures { result ≡ taken_on stream self.now.line.streams }
    {
        self.connection.taken(stream)
    }

    /// How many octets wait: at most 123,600,005 on each stream that is open and that this side hasn't ended. That is 4 GB
    /// for the 32 streams that a receiver lets a peer open.
    pub fn held(&self) -> usize
        ensures is { result ≡ counted (waiting self.now.line.streams) }
        ensures bound { result ≤ largest_pending * length self.now.line.streams }
    {
        self.connection.held()
    }

    /// Says a piece on a stream that is free: its HEADERS where they aren't sent, and then of a message what the windows
    /// let through. What they don't let through waits, and goes behind later events. A `Finish` ends the stream with its
    /// trailers. Where octets wait on the stream already, or nothing goes out on it any more, nothing changes.
    pub fn say(&mut self, alloc: Global, stream: u32, piece: &Piece) -> Took
        requires size { FitsMessage piece.now }
        ensures says { readiness self.old.condition stream self.old.line ≡ Ready.Free
            → Says S.seen (Speech stream (said_by piece.now)) result self.old self.new }
        ensures busy { readiness self.old.condition stream self.old.line ≡ Ready.Busy
            → (result ≡ Took.Busy) × (self.new ≡ self.old) }
        ensures gone { readiness self.old.condition stream self.old.line ≡ Ready.Gone
            → (result ≡ Took.Gone) × (self.new ≡ self.old) }
        ensures found { IsFolded self.old.condition self.old.line self.old.inputs }
        ensures sound { IsSoundWire self.new.condition self.new.line self.new.inputs }
        ensures output { (start : Output)
            → HasGoneOut self.old.condition self.old.inputs start (S.seen self.old.sink)
            → HasGoneOut self.new.condition self.new.inputs start (S.seen self.new.sink) }
    {
        match self.readiness(stream) {
            Ready::Free => {}
            Ready::Busy => return Took::Busy,
            Ready::Gone => return Took::Gone,
        }
        let done = say_piece(alloc, stream, piece, &mut self.connection, &mut self.sink);
        self.given
            .remember(&Given::Piece(stream, Snapshot::of(piece)));
        self.condition = condition_after(Condition::Open, &done);
        took_of(&done)
    }

    /// Answers a call with a status of HTTP in place of an answer of gRPC: one HEADERS frame with the status alone, which
    /// ends the stream. It is taken as a piece is, but for a stream on which a message was said: no status goes out there
    /// any more, so that it is Gone for it.
    pub fn http(&mut self, alloc: Global, stream: u32, status: u16) -> Took
        requires status { IsStatus status }
        ensures says { readiness self.old.condition stream self.old.line ≡ Ready.Free
            → has_begun stream self.old.line.streams ≡ false
            → Says S.seen (Speech stream (Said.Status status)) result self.old self.new }
        ensures begun { readiness self.old.condition stream self.old.line ≡ Ready.Free
            → has_begun stream self.old.line.streams ≡ true
            → (result ≡ Took.Gone) × (self.new ≡ self.old) }
        ensures busy { readiness self.old.condition stream self.old.line ≡ Ready.Busy
            → (result ≡ Took.Busy) × (self.new ≡ self.old) }
        ensures gone { readiness self.old.condition stream self.old.line ≡ Ready.Gone
            → (result ≡ Took.Gone) × (self.new ≡ self.old) }
        ensures sound { IsSoundWire self.new.condition self.new.line self.new.inputs }
        ensures output { (start : Output)
            → HasGoneOut self.old.condition self.old.inputs start (S.seen self.old.sink)
            → HasGoneOut self.new.condition self.new.inputs start (S.seen self.new.sink) }
    {
        match self.readiness(stream) {
            Ready::Free => {}
            Ready::Busy => return Took::Busy,
            Ready::Gone => return Took::Gone,
        }
        if self.connection.has_begun(stream) {
            return Took::Gone;
        }
        let done = say_status(alloc, stream, status, &mut self.connection, &mut self.sink);
        self.given.remember(&Given::Status(stream, status));
        self.condition = condition_after(Condition::Open, &done);
        took_of(&done)
    }

    /// Ends the connection, with GOAWAY where the code isn't 0: the highest stream that was opened, and the code (RFC 9113
    /// section 6.8). On a wire that wasn't greeted the greeting stands before it, since a server's first frame is SETTINGS
    /// (section 3.4). On a wire that is closed nothing is written, and the fault that closed it is answered. Takes no memory.
    pub fn finish(&mut self, code: u32) -> Result<(), WireFaultOut>
        ensures finishes { self.old.condition ≡ Condition.Open
            → Does S.seen false Condition.Finished [] (finished code self.old.line) result
            self.old self.new }
        ensures ungreeted { self.old.condition ≡ Condition.New
            → Does S.seen false Condition.Finished [] (finished_ungreeted code self.old.line) result
            self.old self.new }
        ensures closed { IsClosed self.old.condition
            → (result ≡ answer_of self.old.condition) × (self.new ≡ self.old) }
        ensures sound { IsSoundWire self.new.condition self.new.line self.new.inputs }
        ensures output { (start : Output)
            → HasGoneOut self.old.condition self.old.inputs start (S.seen self.old.sink)
            → HasGoneOut self.new.condition self.new.inputs start (S.seen self.new.sink) }
    {
        if is_closed(self.condition) {
            return answer_of(self.condition);
        }
        let last = put_last(&mut self.sink, &self.connection, self.condition, code);
        let done = answered(last);
        self.condition = condition_after(Condition::Finished, &done);
        done
    }

    /// The port was asked how a stream stands, and this was answered.
    pub(crate) fn note_answer(&mut self, ready: Ready)
        ensures { self.new ≡ record self.old { port = asked ready self.old.port } }
    {
        self.port.note_answer(ready);
    }

    /// A piece was offered through the port, and this became of it.
    pub(crate) fn note(&mut self, took: Took, given: &(u32, Piece))
        ensures is { self.new ≡ record self.old { port = noted took given.now self.old.port } }
        ensures later { self.old.port.offers ≤ self.new.port.offers }
    {
        self.port.note(took, given);
    }

    /// Gives the sink back, as it is.
    pub fn give(self) -> S
        ensures { result ≡ self.sink }
    {
        self.sink
    }
}
