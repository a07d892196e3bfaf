//! The wire as a turn has it in hand, with its records.
ghost use Rattle.std.specs.Prelude.{◌≡◌, ◌<◌, ◌^◌, [], ◌∷◌};
ghost use Rattle.h2_events.specs.Items.{said_by};
ghost use Rattle.h2_events.specs.Ports.{FitsMessage};
ghost use Rattle.h2_send.specs.Conditions.{answer_of, condition_after};
ghost use Rattle.h2_send.specs.Offers.{IsStatus};
ghost use Rattle.h2_send.specs.Port.{ready_in};
ghost use Rattle.h2_send.specs.Wires.{progress_of};
ghost use Rattle.shared_wire.specs.Parts.{FitTypes, event_parts};
ghost use Rattle.shared_wire.specs.Records.{ActsOn, ActsOrEnds, Adds, AddsSo, AreRecords, EndsOn, FitsTypes, IsLastRoom, IsOpen, ReadsOrTells, SaysOn, SaysOrTells, StatesOn, StatesOrTells, left_in, record_author};
ghost use Rattle.shared_wire.specs.Visits.{StandsBehind, first_records};
ghost use Rattle.shared_wire.specs.inner.Logging.{Loses, acted_so, condition_by, deed_of, starved_record, stated_so};

use crate::log::{Log, Noted, Recorded};
use environment::Sink;
use h2_events::{Piece, Ready, RecvEvent, Took};
use h2_frame::FLOW_CONTROL_ERROR;
use h2_send::{Condition, Given, Wire, WireFaultOut};
use std::alloc::Global;
use std::marker::Model;
use std::snapshot::Snapshot;
use turn_lock::Chronicle;

/// Behind so many records there is room for one more, which closes the wire.
const LAST_ROOM: u64 = 18_446_744_073_709_551_614;

/// A wire and the records of the calls that found it open. A record has no octets: what is counted is the room of its number,
/// which a call takes before all else.
#[derive(Drop)]
pub struct HeldWire<S: Sink> {
    wire: Wire<S>,
    /// How the wire stands; that memory was wanting also where there was no room for a record.
    condition: Condition,
    log: Log<S>,
    count: u64,
}

impl<S: Sink> Model for HeldWire<S> {
    ghost use Rattle.std.specs.Coded.{codes};
    ghost use Rattle.h2_send.specs.Wires.{view_code};
    ghost use Rattle.shared_wire.specs.inner.Holding.{HeldView, Holds, held_code};

    ghost Value = { HeldView S };

    ghost coded = { held_code (view_code S.code (Prim.hlevel codes)) (Prim.hlevel codes) };

    ghost view = { λ h. record { wire = h.wire; records = h.log } };

    ghost invariant = { λ h. Holds S.seen h.condition h.wire h.log h.count };
}

impl<S: Sink> Chronicle for HeldWire<S> {
    type Entry = Recorded;

    ghost entries = { λ held. held.records };

    ghost author = { record_author };

    fn count(&self) -> u64 {
        self.count
    }
}

/// What a wire answers that stands so.
fn answer_of(condition: Condition) -> Result<(), WireFaultOut>
    ensures { result ≡ answer_of condition }
{
    match condition {
        Condition::New => Ok(()),
        Condition::Open => Ok(()),
        Condition::Finished => Ok(()),
        Condition::WriteFault => Err(WireFaultOut::WriteFault),
        Condition::NoMemory => Err(WireFaultOut::NoMemory),
    }
}

/// What a call leaves of an open wire, where `next` follows on Ok.
fn condition_after(next: Condition, done: &Result<(), WireFaultOut>) -> Condition
    ensures { result ≡ condition_after next done.now }
{
    match done {
        Ok(()) => next,
        Err(WireFaultOut::WriteFault) => Condition::WriteFault,
        Err(WireFaultOut::NoMemory) => Condition::NoMemory,
        Err(WireFaultOut::Overflow) => Condition::Open,
    }
}

/// So for what is said on a stream.
fn condition_by(took: Took) -> Condition
    ensures { result ≡ condition_by took }
{
    match took {
        Took::Taken => Condition::Open,
        Took::Busy => Condition::Open,
        Took::Gone => Condition::Open,
        Took::WriteFault => Condition::WriteFault,
        Took::NoMemory => Condition::NoMemory,
    }
}

/// What is noted of an event, by what became of it.
fn acted(given: Given, done: &Result<(), WireFaultOut>) -> Noted
    ensures { result ≡ acted_so given done.now }
{
    match done {
        Ok(()) => Noted::Gave(given),
        Err(WireFaultOut::WriteFault) => Noted::Gave(given),
        Err(WireFaultOut::NoMemory) => Noted::Gave(given),
        Err(WireFaultOut::Overflow) => Noted::Refused(given),
    }
}

/// What is noted of a status, by what became of it.
fn stated(given: Given, took: Took) -> Noted
    ensures { result ≡ stated_so given took }
{
    match took {
        Took::Taken => Noted::Gave(given),
        Took::Busy => Noted::Refused(given),
        Took::Gone => Noted::Refused(given),
        Took::WriteFault => Noted::Gave(given),
        Took::NoMemory => Noted::Gave(given),
    }
}

/// It tells contracts how many bits these have.
fn fit(stream: u32, number: u64)
    ensures { (stream < 2 ^ 32) × (number < 2 ^ 64) }
{}

/// And so of an event.
fn fit_types(event: &RecvEvent)
    ensures { FitTypes (event_parts event.now) }
{
    match event {
        RecvEvent::Settings(initial, _) => fit(0, *initial as u64),
        RecvEvent::SettingsAck => fit(0, 0),
        RecvEvent::Ping(octets) => fit(0, *octets),
        RecvEvent::Window(stream, by) => fit(*stream, *by as u64),
        RecvEvent::Call(stream, _, _) => fit(*stream, 0),
        RecvEvent::TooLong(stream) => fit(*stream, 0),
        RecvEvent::Piece(stream, _, size, _) => fit(*stream, *size as u64),
        RecvEvent::Trailers(stream) => fit(*stream, 0),
        RecvEvent::Reset(stream) => fit(*stream, 0),
        RecvEvent::StreamFault(stream, code) => fit(*stream, *code as u64),
        RecvEvent::GoAway => fit(0, 0),
    }
}

impl<S: Sink> HeldWire<S> {
    /// The room of two records is taken: of the one that the wire begins with, and of one that closes it.
    pub(crate) fn make(wire: Wire<S>) -> HeldWire<S>
        requires is_open { wire.condition ≡ Condition.Open }
        ensures wire { result.wire ≡ wire }
        ensures records { result.records ≡ first_records (progress_of S.seen wire) }
    {
        // It tells contracts that the windows are those of the wire's inputs.
        let _ = wire.readiness(0);
        let mut log = Log::empty();
        log.note(0, Noted::Began, &wire);
        HeldWire {
            wire,
            condition: Condition::Open,
            log,
            count: 1,
        }
    }

    pub(crate) fn give(self) -> Wire<S>
        ensures wire { result ≡ self.wire }
        ensures stands { StandsBehind S.seen self.records result }
    {
        let HeldWire { wire, .. } = self;
        wire
    }

    /// Whether a stream takes a piece.
    pub(crate) fn readiness(&self, stream: u32) -> Ready
        ensures is { result ≡ ready_in stream (left_in self.now.records) }
        ensures records { AreRecords self.now.records }
    {
        if self.condition == Condition::Open {
            self.wire.readiness(stream)
        } else {
            Ready::Gone
        }
    }

    /// Whether a stream takes a piece, or the fault that closed the wire.
    pub(crate) fn readiness_or_fault(&self, stream: u32) -> Result<Ready, WireFaultOut>
        ensures is { ReadsOrTells stream result self.now.records [] }
        ensures records { AreRecords self.now.records }
    {
        match answer_of(self.condition) {
            Ok(()) => Ok(self.readiness(stream)),
            Err(fault) => Err(fault),
        }
    }

    /// There is no room but the last, in which this call's record stands and the wire is closed.
    fn starve(&mut self, author: u32, deed: Noted)
        requires author { 0 < author }
        requires is_open { IsOpen self.old.records }
        requires last { IsLastRoom self.old.records }
        requires loses { Loses deed (left_in self.old.records) }
        requires fits { FitsTypes (deed_of deed) }
        ensures adds { Adds author self.old.records (starved_record author deed
            (left_in self.old.records) ∷ []) self.new.records }
    {
        let _ = self.wire.finish(0);
        self.log.note(author, deed, &self.wire);
        self.count += 1;
        self.condition = Condition::NoMemory;
    }

    /// Acts on an event, as `Wire::act` does.
    pub(crate) fn act(
        &mut self,
        alloc: Global,
        author: u32,
        event: &RecvEvent,
    ) -> Result<(), WireFaultOut>
        requires author { 0 < author }
        ensures records { AreRecords self.old.records }
        ensures does { AddsSo author (ActsOn event.now result) self.old.records self.new.records }
    {
        if self.condition != Condition::Open {
            return answer_of(self.condition);
        }
        fit_types(event);
        let given = Given::Event(Snapshot::of(event));
        if self.count == LAST_ROOM {
            self.starve(author, Noted::Starved(given));
            return Err(WireFaultOut::NoMemory);
        }
        let done = self.wire.act(alloc, event);
        let deed = acted(given, &done);
        self.log.note(author, deed, &self.wire);
        self.count += 1;
        self.condition = condition_after(Condition::Open, &done);
        done
    }

    /// Acts on an event. One that would take a window too far ends the connection with FLOW_CONTROL_ERROR.
    pub(crate) fn act_or_close(
        &mut self,
        alloc: Global,
        author: u32,
        event: &RecvEvent,
    ) -> Result<(), WireFaultOut>
        requires author { 0 < author }
        ensures records { AreRecords self.old.records }
        ensures does { AddsSo author (ActsOrEnds event.now result)
            self.old.records self.new.records }
    {
        match self.act(alloc, author, event) {
            Err(WireFaultOut::Overflow) => {}
            done => return done,
        }
        match self.close(author, FLOW_CONTROL_ERROR) {
            Ok(()) => Err(WireFaultOut::Overflow),
            Err(fault) => Err(fault),
        }
    }

    /// Says a piece, as `Wire::say` does.
    pub(crate) fn say(&mut self, alloc: Global, author: u32, stream: u32, piece: &Piece) -> Took
        requires author { 0 < author }
        requires size { FitsMessage piece.now }
        ensures records { AreRecords self.old.records }
        ensures does { AddsSo author (SaysOn stream (said_by piece.now) result)
            self.old.records self.new.records }
    {
        match self.readiness(stream) {
            Ready::Free => {}
            Ready::Busy => return Took::Busy,
            Ready::Gone => return Took::Gone,
        }
        let given = Given::Piece(stream, Snapshot::of(piece));
        if self.count == LAST_ROOM {
            self.starve(author, Noted::Lost(given));
            return Took::NoMemory;
        }
        let took = self.wire.say(alloc, stream, piece);
        self.log.note(author, Noted::Gave(given), &self.wire);
        self.count += 1;
        self.condition = condition_by(took);
        took
    }

    /// Says a piece, or tells the fault that closed the wire.
    pub(crate) fn say_or_fault(
        &mut self,
        alloc: Global,
        author: u32,
        stream: u32,
        piece: &Piece,
    ) -> Result<Took, WireFaultOut>
        requires author { 0 < author }
        requires size { FitsMessage piece.now }
        ensures records { AreRecords self.old.records }
        ensures does { AddsSo author (SaysOrTells stream (said_by piece.now) result)
            self.old.records self.new.records }
    {
        match answer_of(self.condition) {
            Ok(()) => Ok(self.say(alloc, author, stream, piece)),
            Err(fault) => Err(fault),
        }
    }

    /// Answers a call with a status of HTTP, as `Wire::http` does.
    pub(crate) fn http(&mut self, alloc: Global, author: u32, stream: u32, status: u16) -> Took
        requires author { 0 < author }
        requires status { IsStatus status }
        ensures records { AreRecords self.old.records }
        ensures does { AddsSo author (StatesOn stream status result)
            self.old.records self.new.records }
    {
        if self.condition != Condition::Open {
            return Took::Gone;
        }
        let given = Given::Status(stream, status);
        if self.count == LAST_ROOM {
            self.starve(author, Noted::Starved(given));
            return Took::NoMemory;
        }
        let took = self.wire.http(alloc, stream, status);
        let deed = stated(given, took);
        self.log.note(author, deed, &self.wire);
        self.count += 1;
        self.condition = condition_by(took);
        took
    }

    /// Answers a call with a status of HTTP, or tells the fault that closed the wire.
    pub(crate) fn http_or_fault(
        &mut self,
        alloc: Global,
        author: u32,
        stream: u32,
        status: u16,
    ) -> Result<Took, WireFaultOut>
        requires author { 0 < author }
        requires status { IsStatus status }
        ensures records { AreRecords self.old.records }
        ensures does { AddsSo author (StatesOrTells stream status result)
            self.old.records self.new.records }
    {
        match answer_of(self.condition) {
            Ok(()) => Ok(self.http(alloc, author, stream, status)),
            Err(fault) => Err(fault),
        }
    }

    /// Ends the connection, as `Wire::finish` does. There is always room for its record.
    pub(crate) fn close(&mut self, author: u32, code: u32) -> Result<(), WireFaultOut>
        requires author { 0 < author }
        ensures records { AreRecords self.old.records }
        ensures does { AddsSo author (EndsOn code result) self.old.records self.new.records }
    {
        if self.condition != Condition::Open {
            return answer_of(self.condition);
        }
        let done = self.wire.finish(code);
        self.log.note(author, Noted::Ended(code), &self.wire);
        self.count += 1;
        self.condition = condition_after(Condition::Finished, &done);
        done
    }
}
