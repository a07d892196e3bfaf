ghost use Rattle.std.specs.Prelude.{◌≡◌, ◌≤◌, [], ◌∷◌, ◌++◌, false, IfOk, IfErr, IsErrOf};
ghost use Rattle.std.specs.Arc.{arc_value};
ghost use mathlib.Core.List.{IsPrefix};
ghost use Rattle.h2_events.specs.Items.{said_by};
ghost use Rattle.h2_events.specs.Ports.{FitsMessage};
ghost use Rattle.h2_send.specs.Offers.{IsStatus};
ghost use Rattle.h2_send.specs.Port.{Asks, Offers, asked, given_by, noted};
ghost use Rattle.h2_send.specs.Wires.{progress_of};
ghost use Rattle.turn_lock.specs.Passes.{IsInside, IsOutside, IsSamePass, OwnsItsEntries};
ghost use Rattle.shared_wire.specs.Records.{ActsOn, ActsOrEnds, EndsOn, ReadsOn, ReadsOrTells, SaysOn, SaysOrTells, StatesOn, StatesOrTells, left_in, record_author};
ghost use Rattle.shared_wire.specs.Visits.{DoesInTurn, GivesBack, IsFirstVisit, IsTwin, Meets, given_in, most_authors};

use crate::held::HeldWire;
use crate::log::Recorded;
use book_port::PassFault;
use environment::Sink;
use h2_events::{Piece, Ready, RecvEvent, Took};
use h2_send::{Condition, Port, Wire, WireFaultOut, WirePort};
use std::alloc::Global;
use std::marker::Model;
use std::sync::{Arc, Wait};
use turn_lock::{Pass, TurnLock};

/// A port of a wire that others reach too. Each call waits for its turn, takes one, and gives the wire back. Contracts see a record
/// of each `act`, `http` and `close` that finds the wire open, and of each `say` and `offer` that finds its stream free. What a
/// turn does to the sink is said of the wire that it has in hand (`HeldWire`), and of the wire that `finish` gives back.
#[derive(Drop)]
pub struct WireVisit<S: Sink + Drop, R> {
    rt: R,
    lock: Arc<TurnLock<HeldWire<S>>, Global>,
    pass: Pass<HeldWire<S>, Recorded>,
    /// So many passes: its own, and those of the ports that ended by meeting it.
    passes: u64,
    counts: Port,
}

impl<S: Sink + Drop, R> Model for WireVisit<S, R> {
    ghost use Rattle.std.specs.Prelude.{◌≡◌, length};
    ghost use Rattle.std.specs.Coded.{codes};
    ghost use Rattle.std.specs.Arc.{arc_value};
    ghost use Rattle.turn_lock.specs.Passes.{IsOutside, numbers_of};
    ghost use Rattle.shared_wire.specs.Visits.{VisitView, visit_of};
    ghost use Rattle.shared_wire.specs.inner.Keeping.{KeepsWire};

    ghost Value = { VisitView };

    ghost coded = { Prim.hlevel codes };

    ghost view = { λ visit. visit_of visit.pass.seat.table_id visit.pass.seat.me.0 visit.counts };

    ghost invariant = { λ visit.
        (visit.pass.seat.table_id ≡ (arc_value visit.lock).table.shared.table_id)
        × IsOutside visit.pass.seat × KeepsWire visit.pass.seat.me.0
        × (length (numbers_of visit.pass.seat.me.0) ≡ visit.passes) };
}

/// Waits for the turn of a pass at the wire's lock, and takes the wire. It is one more of what the pass found.
fn enter<S: Sink + Drop, R: Wait>(
    lock: &Arc<TurnLock<HeldWire<S>>, Global>,
    rt: &R,
    pass: &mut Pass<HeldWire<S>, Recorded>,
) -> HeldWire<S>
    requires own { pass.old.seat.table_id ≡ (arc_value lock.now).table.shared.table_id }
    requires outside { IsOutside pass.old.seat }
    ensures pass { IsSamePass pass.old.seat pass.new.seat × IsInside pass.new.seat
        × (pass.new.seat.me.0.made ≡ pass.old.seat.me.0.made) }
    ensures seen { (result.records ≡ pass.new.seat.me.0.seen)
        × IsPrefix pass.old.seat.me.0.seen pass.new.seat.me.0.seen }
    ensures finds { pass.new.seat.me.0.finds
        ≡ pass.old.seat.me.0.finds ++ pass.new.seat.me.0.seen ∷ [] }
    ensures owner { OwnsItsEntries record_author pass.new.seat.me.0 }
{
    lock.enter(rt, pass)
}

impl<S: Sink + Drop, R: Drop> WireVisit<S, R> {
    /// A lock round a wire that is open, and the first port of it, whose author is 1. The wire is handed back for want of memory
    /// alone.
    pub fn make(rt: R, alloc: Global, wire: Wire<S>) -> Result<WireVisit<S, R>, Wire<S>>
        requires is_open { wire.condition ≡ Condition.Open }
        ensures ok { IfOk result (λ visit. IsFirstVisit (progress_of S.seen wire) visit) }
        ensures err { IfErr result (λ back. back ≡ wire) }
    {
        let held = HeldWire::make(wire);
        let Ok((lock, mut pass)) = TurnLock::open(alloc, &held) else {
            return Err(held.give());
        };
        match Arc::new(alloc, lock) {
            Ok(lock) => {
                lock.leave(&mut pass, held);
                Ok(WireVisit {
                    rt,
                    lock,
                    pass,
                    passes: 1,
                    counts: Port::unused(),
                })
            }
            Err(_) => Err(held.give()),
        }
    }

    /// The number of its author.
    pub fn author(&self) -> u32
        ensures { result ≡ self.now.author }
    {
        self.lock.number(&self.pass)
    }

    /// The port was asked how a stream stands, and this was answered.
    fn note_answer(&mut self, ready: Ready)
        ensures { self.new ≡ record self.old { counts = asked ready self.old.counts } }
    {
        self.counts.note_answer(ready);
    }

    /// A piece was offered through the port, and this became of it.
    fn note(&mut self, took: Took, given: &(u32, Piece))
        ensures is { self.new ≡ record self.old { counts = noted took given.now self.old.counts } }
        ensures later { self.old.counts.offers ≤ self.new.counts.offers }
    {
        self.counts.note(took, given);
    }

    /// Ends another port of the same wire. This one has then seen what either has.
    pub fn meet(&mut self, other: WireVisit<S, R>)
        requires { other.lock ≡ self.old.lock }
        ensures { Meets self.old other self.new }
    {
        let WireVisit {
            rt: _,
            lock: _,
            pass,
            passes,
            counts: _,
        } = other;
        self.lock.join(&mut self.pass, pass);
        self.passes += passes;
    }
}

impl<S: Sink + Drop, R: Wait + Clone + Drop> WireVisit<S, R> {
    /// A further port of the wire, for another thread. It has counted nothing.
    ///
    /// `Spent`: all 4,294,967,295 numbers of authors are given out, as the port knows from then on.
    pub fn twin(&mut self) -> Result<WireVisit<S, R>, PassFault>
        ensures ok { IfOk result (λ twin. IsTwin self.old self.new twin) }
        ensures spent { IsErrOf result PassFault.Spent
            → self.new ≡ record self.old { known = most_authors } }
        ensures memory { IsErrOf result PassFault.NoMemory → self.new ≡ self.old }
        ensures always { self.old.known ≡ most_authors → IfOk result (λ _. ⊥) }
    {
        let Ok(lock) = Arc::try_clone(&self.lock) else {
            return Err(PassFault::NoMemory);
        };
        let Ok(rt) = self.rt.clone() else {
            return Err(PassFault::NoMemory);
        };
        let Ok(pass) = self.lock.split(&self.rt, &mut self.pass) else {
            return Err(PassFault::Spent);
        };
        let counts = Port::unused();
        Ok(WireVisit {
            rt,
            lock,
            pass,
            passes: 1,
            counts,
        })
    }

    /// Acts on an event, as `Wire::act` does, in one turn.
    pub fn act(&mut self, alloc: Global, event: &RecvEvent) -> Result<(), WireFaultOut>
        ensures { DoesInTurn (ActsOn event.now result) self.old self.new }
    {
        let author = self.lock.number(&self.pass);
        let mut held = enter(&self.lock, &self.rt, &mut self.pass);
        let done = held.act(alloc, author, event);
        self.lock.leave(&mut self.pass, held);
        done
    }

    /// Acts on an event, as `act` does. One that would take a window too far ends the connection with FLOW_CONTROL_ERROR in the same
    /// turn, so that no other port comes between; that is told as `Overflow`, and where the GOAWAY failed as `WriteFault`.
    pub fn act_or_close(&mut self, alloc: Global, event: &RecvEvent) -> Result<(), WireFaultOut>
        ensures { DoesInTurn (ActsOrEnds event.now result) self.old self.new }
    {
        let author = self.lock.number(&self.pass);
        let mut held = enter(&self.lock, &self.rt, &mut self.pass);
        let done = held.act_or_close(alloc, author, event);
        self.lock.leave(&mut self.pass, held);
        done
    }

    /// Answers a call with a status of HTTP, as `Wire::http` does, in one turn.
    pub fn http(&mut self, alloc: Global, stream: u32, status: u16) -> Took
        requires status { IsStatus status }
        ensures { DoesInTurn (StatesOn stream status result) self.old self.new }
    {
        let author = self.lock.number(&self.pass);
        let mut held = enter(&self.lock, &self.rt, &mut self.pass);
        let took = held.http(alloc, author, stream, status);
        self.lock.leave(&mut self.pass, held);
        took
    }

    /// Ends the connection, as `Wire::finish` does, in one turn.
    pub fn close(&mut self, code: u32) -> Result<(), WireFaultOut>
        ensures { DoesInTurn (EndsOn code result) self.old self.new }
    {
        let author = self.lock.number(&self.pass);
        let mut held = enter(&self.lock, &self.rt, &mut self.pass);
        let done = held.close(author, code);
        self.lock.leave(&mut self.pass, held);
        done
    }

    /// Whether a stream takes a piece now.
    pub fn readiness(&mut self, stream: u32) -> Ready
        ensures { DoesInTurn (ReadsOn stream result) self.old self.new }
    {
        let held = enter(&self.lock, &self.rt, &mut self.pass);
        let ready = held.readiness(stream);
        self.lock.leave(&mut self.pass, held);
        ready
    }

    /// Whether a stream takes a piece now. Where a fault closed the wire before, that is the answer.
    pub fn readiness_or_fault(&mut self, stream: u32) -> Result<Ready, WireFaultOut>
        ensures { DoesInTurn (ReadsOrTells stream result) self.old self.new }
    {
        let held = enter(&self.lock, &self.rt, &mut self.pass);
        let ready = held.readiness_or_fault(stream);
        self.lock.leave(&mut self.pass, held);
        ready
    }

    /// Says a piece, as `say` does. Where a fault closed the wire before, that is the answer.
    pub fn say_or_fault(
        &mut self,
        alloc: Global,
        stream: u32,
        piece: &Piece,
    ) -> Result<Took, WireFaultOut>
        requires size { FitsMessage piece.now }
        ensures { DoesInTurn (SaysOrTells stream (said_by piece.now) result) self.old self.new }
    {
        let author = self.lock.number(&self.pass);
        let mut held = enter(&self.lock, &self.rt, &mut self.pass);
        let took = held.say_or_fault(alloc, author, stream, piece);
        self.lock.leave(&mut self.pass, held);
        took
    }

    /// Answers a call with a status of HTTP, as `http` does. Where a fault closed the wire before, that is the answer.
    pub fn http_or_fault(
        &mut self,
        alloc: Global,
        stream: u32,
        status: u16,
    ) -> Result<Took, WireFaultOut>
        requires status { IsStatus status }
        ensures { DoesInTurn (StatesOrTells stream status result) self.old self.new }
    {
        let author = self.lock.number(&self.pass);
        let mut held = enter(&self.lock, &self.rt, &mut self.pass);
        let took = held.http_or_fault(alloc, author, stream, status);
        self.lock.leave(&mut self.pass, held);
        took
    }

    /// Says a piece on a stream that is free, as `Wire::say` does, in one turn.
    pub fn say(&mut self, alloc: Global, stream: u32, piece: &Piece) -> Took
        requires size { FitsMessage piece.now }
        ensures { DoesInTurn (SaysOn stream (said_by piece.now) result) self.old self.new }
    {
        let author = self.lock.number(&self.pass);
        let mut held = enter(&self.lock, &self.rt, &mut self.pass);
        let took = held.say(alloc, author, stream, piece);
        self.lock.leave(&mut self.pass, held);
        took
    }

    /// Waits for its turn, and gives the wire back for good, where it has met all other ports; where there is another one it waits for
    /// ever.
    pub fn finish(self) -> Wire<S>
        ensures { GivesBack S.seen self result }
    {
        let WireVisit {
            rt,
            lock,
            pass,
            passes,
            counts: _,
        } = self;
        lock.last_of(&rt, pass, passes).give()
    }
}

impl<S: Sink + Drop, R: Wait + Clone + Drop> WirePort for WireVisit<S, R> {
    ghost use Rattle.std.specs.Prelude.{false};
    ghost use Rattle.shared_wire.specs.Records.{left_in};
    ghost use Rattle.shared_wire.specs.Visits.{authors_of, given_in};

    ghost connection = { λ visit. visit.lock };

    ghost progress = { λ visit. left_in visit.seen };

    ghost is_alone = { λ visit. false };

    ghost owns = { λ visit other. false };

    ghost given = { λ visit. given_in visit.made };

    ghost authors = { authors_of };

    ghost counts = { λ visit. visit.counts };

    fn ready(&mut self, stream: u32) -> Ready
        ensures asks { Asks false result stream (left_in self.old.seen) (left_in self.new.seen) }
        ensures given { given_in self.new.made ≡ given_in self.old.made }
        ensures counts { self.new.counts ≡ asked result self.old.counts }
        ensures turn { DoesInTurn (ReadsOn stream result) self.old
            (record self.new { counts = self.old.counts }) }
    {
        let ready = self.readiness(stream);
        self.note_answer(ready);
        ready
    }

    fn offer(&mut self, alloc: Global, stream: u32, piece: Piece) -> Took
        requires size { FitsMessage piece }
        ensures offers { Offers false result stream (said_by piece)
            (left_in self.old.seen) (left_in self.new.seen) }
        ensures given { given_in self.new.made
            ≡ given_in self.old.made ++ given_by result stream (said_by piece) }
        ensures counts { self.new.counts ≡ noted result (stream, piece) self.old.counts }
        ensures later { self.old.counts.offers ≤ self.new.counts.offers }
        ensures turn { DoesInTurn (SaysOn stream (said_by piece) result) self.old
            (record self.new { counts = self.old.counts }) }
    {
        let given = (stream, piece);
        let took = self.say(alloc, stream, &given.1);
        self.note(took, &given);
        took
    }
}
