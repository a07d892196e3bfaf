// The lock and its passes.
ghost use Rattle.std.specs.Prelude.{◌≡◌, ◌≢◌, ℕ, ◌<◌, ◌≤◌, ◌+◌, ◌%◌, max, true, false, [], ◌∷◌, ◌++◌, length, IfOk, IfErr, IfSome, IfNone, Some, None};
ghost use mathlib.Core.List.{IsPrefix};
ghost use Rattle.turn_lock.specs.inner.Turns.{ticket_modulus, turn_outside, opening_turn};
ghost use Rattle.turn_lock.specs.Chronicles.{entries_by, entries_past, AreBy, AreUpTo};
ghost use Rattle.turn_lock.specs.Passes.{joined_passes, IsFirst, opening_view, split_view, joined_view, longer, AreByOneOf, IsNew, IsOutside, IsInside, IsSamePass, OwnsItsEntries, numbers_of};

use crate::chronicle::Chronicle;
use crate::steps::{Census, Count, Draw, Enrol, Find, Know, Look, Meet, Note, Serve, Take, Twin};
use crate::view::{Ruled, View};
use atomic_table::{Refused, Seat, Table};
use std::alloc::{AllocError, Global};
use std::snapshot::Snapshot;
use std::sync::Wait;

/// The word that has the next ticket.
const NEXT: usize = 0;

/// The word that has the ticket which is served.
const SERVING: usize = 1;

/// The word that has the length of the value's list.
const COUNT: usize = 2;

/// The word that has the last number that was given to a pass.
const AUTHORS: usize = 3;

/// So many numbers are given out, and no more.
const MOST_NUMBERS: u64 = 4_294_967_295;

/// A thread that waits sleeps on the low 32 bits of a word.
const LOW_BITS: u64 = 4_294_967_296;

/// All numbers are given out.
#[derive(Drop)]
pub struct Spent;

/// A lock round a value. Its passes take turns, in the order in which they came.
///
/// The theorem is the rule of its table (specs/inner/Rule.antt), which holds between any two steps of any threads.
#[derive(Drop)]
pub struct TurnLock<V: Chronicle> {
    pub table: Table<Option<V>, View<V::Entry>, Snapshot<V>, Ruled, Global>,
    ghost sized: { (table.shared.table_id.words ≡ 4) × (table.shared.table_id.slots ≡ 1) },
}

type Place<V> = Seat<Option<V>, View<<V as Chronicle>::Entry>>;

/// The right to take turns at one lock round a value with entries `E`. What it knows stands in its seat (specs/Passes.antt), and
/// has no octets at run time.
#[derive(Drop)]
pub struct Pass<V, E> {
    pub seat: Seat<Option<V>, View<E>>,
    number: u32,
    ghost numbered: { seat.me.0.turn.number ≡ number },
    ghost some: { 0 < number },
}

impl<V: Chronicle> TurnLock<V> {
    /// A lock round no value yet. The pass is inside, and `leave` puts the value in.
    ///
    /// `AllocError`: the memory of the lock itself is wanting. So a caller who needs a lock before he gives a value away
    /// has it back where that fails.
    pub fn open(alloc: Global, value: &V) -> Result<(TurnLock<V>, Pass<V, V::Entry>), AllocError>
        ensures { IfOk result (λ r. (r.1.seat.table_id ≡ r.0.table.shared.table_id)
            × IsInside r.1.seat
            × (r.1.seat.me.0 ≡ record (opening_view (V.entries value.now)) {
              turn = record opening_turn { hollow = false };
            })) }
    {
        let about = Snapshot::of(value);
        let count = value.count();
        let mut slots = Vec::with_capacity(alloc, 1)?;
        slots.push_reserved(None);
        match Table::new(alloc, &[1, 0, count, 1], slots, &about) {
            Ok((table, mut seat)) => {
                table.shared.load::<Take>(&mut seat, COUNT);
                Ok((TurnLock { table }, Pass { seat, number: 1 }))
            }
            Err(Refused { mut slots }) => {
                let empty = slots.pop().unwrap();
                let None = empty else { unreachable!() };
                slots.destroy_empty();
                Err(AllocError)
            }
        }
    }

    /// A lock round the value, and its first pass, which has number 1. Gives the value back for want of memory alone.
    pub fn make(alloc: Global, value: V) -> Result<(TurnLock<V>, Pass<V, V::Entry>), V>
        ensures ok { IfOk result (λ r. (r.1.seat.table_id ≡ r.0.table.shared.table_id)
            × IsFirst (V.entries value) r.1.seat) }
        ensures err { IfErr result (λ v. v ≡ value) }
    {
        let Ok((lock, mut pass)) = TurnLock::open(alloc, &value) else {
            return Err(value);
        };
        lock.leave(&mut pass, value);
        Ok((lock, pass))
    }

    /// The number of a pass.
    pub fn number(&self, pass: &Pass<V, V::Entry>) -> u32
        ensures { (result ≡ pass.now.seat.me.0.turn.number) × (0 < result) }
    {
        pass.number
    }

    /// Waits for the pass's turn, and takes the value. A thread that waits sleeps, and takes no processor time.
    ///
    /// The value's list begins with all that the pass has seen. Past the list that the lock began with, its entries with the
    /// pass's number are just those that the pass made, and those with the number of a pass that was joined into it are
    /// just those that that one made.
    pub fn enter<R: Wait>(&self, rt: &R, pass: &mut Pass<V, V::Entry>) -> V
        requires own { pass.old.seat.table_id ≡ self.now.table.shared.table_id }
        requires outside { IsOutside pass.old.seat }
        ensures pass { IsSamePass pass.old.seat pass.new.seat × IsInside pass.new.seat
            × (pass.new.seat.me.0.made ≡ pass.old.seat.me.0.made) }
        ensures seen { (V.entries result ≡ pass.new.seat.me.0.seen)
            × IsPrefix pass.old.seat.me.0.seen pass.new.seat.me.0.seen }
        ensures finds { pass.new.seat.me.0.finds
            ≡ pass.old.seat.me.0.finds ++ pass.new.seat.me.0.seen ∷ [] }
        ensures owner { OwnsItsEntries V.author pass.new.seat.me.0 }
    {
        let ticket = self.table.shared.fetch_add::<Draw>(&mut pass.seat, NEXT, 1);
        self.wait(rt, &mut pass.seat, ticket);
        self.table.shared.load::<Find>(&mut pass.seat, COUNT);
        self.table.shared.exchange(&mut pass.seat, 0, None).unwrap()
    }

    /// Sleeps until the ticket is served.
    fn wait<R: Wait>(&self, rt: &R, pass: &mut Place<V>, ticket: u64)
        requires own { pass.old.table_id ≡ self.now.table.shared.table_id }
        requires drawn { (t : ℕ) × (ticket ≡ t % ticket_modulus)
            × (pass.old.me.0.turn.ticket ≡ Some t) }
        ensures same { (pass.new.table_id ≡ pass.old.table_id) × (pass.new.id ≡ pass.old.id) }
        ensures turn { pass.new.me ≡ (
          record pass.old.me.0 {
            turn = record pass.old.me.0.turn { own = true };
          },
          pass.old.me.1,
        ) }
    {
        for _ in rt.forever() {
            let serving = self.table.shared.load::<Look>(pass, SERVING);
            if serving == ticket {
                return;
            }
            self.table
                .shared
                .park(rt, SERVING, (serving % LOW_BITS) as u32);
        }
        unreachable!()
    }

    /// Gives the value back, and wakes those who wait, of whom the next one takes its turn.
    ///
    /// The value's list begins with the one that was found, and its further entries are the pass's, or of author 0.
    pub fn leave(&self, pass: &mut Pass<V, V::Entry>, value: V)
        requires own { pass.old.seat.table_id ≡ self.now.table.shared.table_id }
        requires inside { IsInside pass.old.seat }
        requires extends { IsPrefix pass.old.seat.me.0.seen (V.entries value)
            × AreBy V.author pass.old.seat.me.0.turn.number
            (entries_past pass.old.seat.me.0.seen (V.entries value)) }
        ensures pass { IsSamePass pass.old.seat pass.new.seat × IsOutside pass.new.seat
            × (pass.new.seat.me.0.finds ≡ pass.old.seat.me.0.finds) }
        ensures seen { pass.new.seat.me.0.seen ≡ V.entries value }
        ensures made { pass.new.seat.me.0.made ≡ pass.old.seat.me.0.made
            ++ entries_by V.author pass.old.seat.me.0.turn.number
            (entries_past pass.old.seat.me.0.seen (V.entries value)) }
        ensures owner { OwnsItsEntries V.author pass.new.seat.me.0 }
    {
        let count = value.count();
        let empty = self.table.shared.exchange(&mut pass.seat, 0, Some(value));
        let None = empty else { unreachable!() };
        self.table
            .shared
            .store::<Note>(&mut pass.seat, COUNT, count);
        self.table
            .shared
            .fetch_add::<Serve>(&mut pass.seat, SERVING, 1);
        self.table.shared.wake_all(SERVING);
    }

    /// Makes a new pass with a number of its own, which has seen what this one has seen. This one knows from then on that the
    /// number is given out.
    ///
    /// `Spent`: all 4,294,967,295 numbers are given out, as the pass knows from then on. Where it knew so before it is
    /// the answer.
    pub fn split<R: Wait>(
        &self,
        rt: &R,
        pass: &mut Pass<V, V::Entry>,
    ) -> Result<Pass<V, V::Entry>, Spent>
        requires own { pass.old.seat.table_id ≡ self.now.table.shared.table_id }
        requires outside { IsOutside pass.old.seat }
        ensures same { (pass.new.seat.table_id ≡ pass.old.seat.table_id)
            × (pass.new.seat.id ≡ pass.old.seat.id) }
        ensures ok { IfOk result (λ p. (p.seat.table_id ≡ pass.old.seat.table_id)
            × IsNew pass.old.seat p.seat × (pass.old.seat.me.0.known < p.seat.me.0.known)
            × OwnsItsEntries V.author p.seat.me.0) }
        ensures known { IfOk result (λ p. (p.seat.me.0.known ≤ pass.new.seat.me.0.known)
            × (pass.new.seat.me ≡ (
              record pass.old.seat.me.0 {
                known = pass.new.seat.me.0.known;
              },
              pass.old.seat.me.1,
            ))) }
        ensures spent { IfErr result (λ _. pass.new.seat.me
            ≡ (record pass.old.seat.me.0 { known = 4294967295 }, pass.old.seat.me.1)) }
        ensures always { pass.old.seat.me.0.known ≡ 4294967295 → IfOk result (λ _. ⊥) }
    {
        let mut seat = self.table.shared.split_seat::<Twin>(&mut pass.seat);
        match self.enrol(rt, &mut seat) {
            Some(number) => {
                self.learn(rt, &mut pass.seat, number);
                Ok(Pass { seat, number })
            }
            None => {
                self.table.shared.join_seat::<Meet>(&mut pass.seat, seat);
                Err(Spent)
            }
        }
    }

    /// Gives a new seat a number, or tells it that all are given out.
    fn enrol<R: Wait>(&self, rt: &R, seat: &mut Place<V>) -> Option<u32>
        requires own { seat.old.table_id ≡ self.now.table.shared.table_id }
        requires new { (seat.old.me.0.turn ≡ turn_outside 0) × (seat.old.me.1 ≡ []) }
        requires live { seat.old.me.0.live ≡ true }
        ensures same { (seat.new.table_id ≡ seat.old.table_id) × (seat.new.id ≡ seat.old.id) }
        ensures some { IfSome result (λ n. (seat.old.me.0.known < n)
            × (seat.new.me ≡ (record seat.old.me.0 { turn = turn_outside n; known = n }, []))
            × OwnsItsEntries V.author seat.new.me.0) }
        ensures none { IfNone result ((seat.old.me.0.known ≤ 4294967295)
            × (seat.new.me ≡ (record seat.old.me.0 { known = 4294967295 }, []))) }
    {
        let mut known = self.table.shared.load::<Count>(seat, AUTHORS);
        for _ in rt.forever() {
            if known >= MOST_NUMBERS {
                return None;
            }
            let found = self
                .table
                .shared
                .compare_exchange::<Enrol>(seat, AUTHORS, known, known + 1);
            if found == known {
                return Some((known + 1) as u32);
            }
            known = found;
        }
        unreachable!()
    }

    /// Reads how many numbers are given out until they are so many. They are where one of them was given out before, so it reads
    /// once.
    fn learn<R: Wait>(&self, rt: &R, seat: &mut Place<V>, number: u32)
        requires own { seat.old.table_id ≡ self.now.table.shared.table_id }
        ensures same { (seat.new.table_id ≡ seat.old.table_id) × (seat.new.id ≡ seat.old.id) }
        ensures known { (number ≤ seat.new.me.0.known)
            × (seat.new.me
            ≡ (record seat.old.me.0 { known = seat.new.me.0.known }, seat.old.me.1)) }
    {
        for _ in rt.forever() {
            let known = self.table.shared.load::<Count>(seat, AUTHORS);
            if known >= number as u64 {
                return;
            }
        }
        unreachable!()
    }

    /// Ends another pass. The first one has then seen what either has, and keeps the other's number with its entries.
    /// What it has seen holds just the entries that either made.
    pub fn join(&self, pass: &mut Pass<V, V::Entry>, other: Pass<V, V::Entry>)
        requires own { (pass.old.seat.table_id ≡ self.now.table.shared.table_id)
            × (other.seat.table_id ≡ self.now.table.shared.table_id) }
        requires outside { IsOutside pass.old.seat × IsOutside other.seat }
        ensures same { (pass.new.seat.table_id ≡ pass.old.seat.table_id)
            × (pass.new.seat.id ≡ pass.old.seat.id) }
        ensures met { pass.new.seat.me ≡ (joined_view pass.old.seat.me.0 other.seat.me.0, []) }
        ensures owner { OwnsItsEntries V.author pass.new.seat.me.0 }
    {
        let Pass { seat, number: _ } = other;
        self.table.shared.join_seat::<Meet>(&mut pass.seat, seat);
        self.table.shared.load::<Know>(&mut pass.seat, COUNT);
    }

    /// Waits for the pass's turn, and takes the value for good. A pass that comes later waits for ever, so whoever ends a
    /// lock joins all others before. No entry behind those that the lock began with has an author whose number isn't given out.
    pub fn last<R: Wait>(&self, rt: &R, mut pass: Pass<V, V::Entry>) -> V
        requires own { pass.seat.table_id ≡ self.now.table.shared.table_id }
        requires outside { IsOutside pass.seat }
        ensures { (v : View V.Entry) × (V.entries result ≡ v.seen)
            × IsPrefix pass.seat.me.0.seen v.seen × (v.made ≡ pass.seat.me.0.made)
            × (v.ended ≡ pass.seat.me.0.ended) × (v.first ≡ pass.seat.me.0.first)
            × (v.start ≡ pass.seat.me.0.start)
            × (v.turn.number ≡ pass.seat.me.0.turn.number) × OwnsItsEntries V.author v
            × (pass.seat.me.0.known ≤ v.known) × (v.known ≤ 4294967295)
            × AreUpTo V.author v.known (entries_past v.first v.seen) }
    {
        let value = self.enter(rt, &mut pass);
        self.table.shared.load::<Count>(&mut pass.seat, AUTHORS);
        value
    }

    /// The same for a pass that counts so many passes, itself and those that were joined into it: each entry behind those that the
    /// lock began with is one of theirs, or the value's own. Where another pass was made too it waits for ever.
    pub fn last_of<R: Wait>(&self, rt: &R, mut pass: Pass<V, V::Entry>, passes: u64) -> V
        requires own { pass.seat.table_id ≡ self.now.table.shared.table_id }
        requires outside { IsOutside pass.seat }
        requires counted { length (numbers_of pass.seat.me.0) ≡ passes }
        ensures { (v : View V.Entry) × (V.entries result ≡ v.seen)
            × IsPrefix pass.seat.me.0.seen v.seen × (v.made ≡ pass.seat.me.0.made)
            × (v.ended ≡ pass.seat.me.0.ended) × (v.first ≡ pass.seat.me.0.first)
            × (v.start ≡ pass.seat.me.0.start)
            × (v.turn.number ≡ pass.seat.me.0.turn.number) × OwnsItsEntries V.author v
            × (pass.seat.me.0.known ≤ v.known) × (v.known ≤ 4294967295)
            × AreUpTo V.author v.known (entries_past v.first v.seen)
            × AreByOneOf V.author (numbers_of v) (entries_past v.first v.seen) }
    {
        let value = self.enter(rt, &mut pass);
        let given = self.table.shared.load::<Census>(&mut pass.seat, AUTHORS);
        if given == passes {
            return value;
        }
        for _ in rt.forever() {}
        unreachable!()
    }
}
