// What an ask becomes, ask by ask.
ghost use Rattle.std.specs.Prelude.{◌≡◌, ◌+◌, ◌<◌, ◌≤◌, Ok, Err, true, false, length, IsTrue, IfOk, IfErr, OnOk, IsErrOf};
ghost use Rattle.base_lists.specs.Results.{IsUnlessMemory, and_then};
ghost use Rattle.base_kinds.specs.History.{stamp_of, world_of};
ghost use Rattle.base_kinds.specs.Legal.{IsFit, is_fit_duration};
ghost use Rattle.base_kinds.specs.Limits.{latest_reading, longest_duration};
ghost use Rattle.base_kinds.specs.Records.{record_octets};
ghost use Rattle.base_kinds.specs.Rules.{limited, rules_of};
ghost use Rattle.base_kinds.specs.Step.{is_open, is_other, judge, new_stamp, next_entry};
ghost use Rattle.base_kinds.specs.Tree.{effect};
ghost use Rattle.base_kinds.specs.Valid.{fits, valid};
ghost use Rattle.commit_core.specs.CoreView.{EndsTrial};
ghost use Rattle.commit_core.specs.inner.Refusals.{IsChangeRefusal, IsTrialRefusal};
ghost use Rattle.commit_core.specs.inner.StandsFor.{IsPreparedFor, preparation_of};

use crate::changed_tree::changed_tree;
use crate::history_core::Core;
use crate::trial::Prepared;
use base_kinds::{
    Ask, CLOSING_OCTETS, Copied, Entry, GATE_OCTETS, Kind, LATEST_READING, NoMemory, Ops, Refusal,
    Text, TreeLike,
};
use std::alloc::Global;

/// The entry that an ask becomes, and what is prepared for it.
#[derive(Drop)]
pub struct Judged<T> {
    pub entry: Entry,
    pub prepared: Prepared<T>,
}

impl<T: TreeLike + Drop> Core<T> {
    /// What the ask becomes, or why it is refused.
    #[tactic(auto, using(crate::proofs::Judged::exactly))]
    pub(crate) fn answer(
        &self,
        alloc: Global,
        now: u64,
        author: u32,
        ask: Ask,
    ) -> Result<Judged<T>, Refusal>
        requires { IsFit ask }
        ensures judged { let rules = rules_of self.now.schema self.now.limits in
            IsUnlessMemory Refusal.NoMemory (and_then result (λ judged. Ok judged.entry))
            (judge rules self.now.entries now author ask) }
        ensures prepared { IfOk result (λ judged.
            IsPreparedFor (preparation_of T.rows judged.prepared)
            (world_of self.now.entries) judged.entry.kind) }
        ensures memory { IsErrOf result Refusal.NoMemory → EndsTrial ask → ⊥ }
    {
        match ask {
            Ask::Apply(ops) => self.answer_apply(alloc, now, author, ops),
            Ask::Trial(id, ops, duration) => {
                self.answer_trial(alloc, now, author, id, ops, duration)
            }
            Ask::Confirm(id) => {
                let answered = self.answer_confirm(now, author, &id);
                drop(id);
                answered
            }
            Ask::Cancel(id) => {
                let answered = self.answer_cancel(now, author, &id);
                drop(id);
                answered
            }
            Ask::Extend(id, duration) => {
                let answered = self.answer_extend(now, author, &id, duration);
                drop(id);
                answered
            }
        }
    }

    #[tactic(auto, using(crate::proofs::Judged::apply_refused, crate::proofs::Judged::apply_without_room, crate::proofs::Judged::apply_accepted))]
    fn answer_apply(
        &self,
        alloc: Global,
        now: u64,
        author: u32,
        ops: Ops,
    ) -> Result<Judged<T>, Refusal>
        ensures judged { let rules = rules_of self.now.schema self.now.limits in
            IsUnlessMemory Refusal.NoMemory (and_then result (λ judged. Ok judged.entry))
            (judge rules self.now.entries now author (Ask.Apply ops)) }
        ensures prepared { IfOk result (λ judged.
            IsPreparedFor (preparation_of T.rows judged.prepared)
            (world_of self.now.entries) judged.entry.kind) }
    {
        let tree = match self.tree_changed(alloc, &ops) {
            Ok(tree) => tree,
            Err(refusal) => {
                drop(ops);
                return Err(refusal);
            }
        };
        let entry = self.next_entry(now, author, Kind::Apply(ops));
        if !self.has_room(&entry, 1, GATE_OCTETS) {
            drop(tree);
            drop(entry);
            return Err(Refusal::LogFull);
        }
        Ok(Judged {
            entry,
            prepared: Prepared::Tree(tree),
        })
    }

    #[tactic(auto, using(crate::proofs::Judged::trial_refused, crate::proofs::Judged::trial_without_room, crate::proofs::Judged::trial_accepted, crate::proofs::Judged::short))]
    fn answer_trial(
        &self,
        alloc: Global,
        now: u64,
        author: u32,
        id: Text,
        ops: Ops,
        duration: u64,
    ) -> Result<Judged<T>, Refusal>
        requires { IsTrue (is_fit_duration duration) }
        ensures judged { let rules = rules_of self.now.schema self.now.limits in
            IsUnlessMemory Refusal.NoMemory (and_then result (λ judged. Ok judged.entry))
            (judge rules self.now.entries now author (Ask.Trial id ops duration)) }
        ensures prepared { IfOk result (λ judged.
            IsPreparedFor (preparation_of T.rows judged.prepared)
            (world_of self.now.entries) judged.entry.kind) }
    {
        let (tree, kept_id) = match self.tree_and_id(alloc, &ops, &id) {
            Ok(made) => made,
            Err(refusal) => {
                drop(id);
                drop(ops);
                return Err(refusal);
            }
        };
        let deadline = self.deadline(now, duration);
        let entry = self.next_entry(now, author, Kind::Trial(id, ops, deadline));
        if !self.has_room(&entry, 2, GATE_OCTETS + CLOSING_OCTETS) {
            drop(tree);
            drop(kept_id);
            drop(entry);
            return Err(Refusal::LogFull);
        }
        Ok(Judged {
            entry,
            prepared: Prepared::Trial(tree, kept_id),
        })
    }

    /// The tree behind the operations, and a copy of the id.
    fn tree_and_id(&self, alloc: Global, ops: &Ops, id: &Text) -> Result<(T, Text), Refusal>
        ensures closed { OnOk result (is_open (world_of self.now.entries).trial ≡ false) }
        ensures tree { IfOk result (λ made.
            T.rows made.0 ≡ effect ops.now (world_of self.now.entries).tree) }
        ensures id { IfOk result (λ made. made.1 ≡ id.now) }
        ensures valid { OnOk result
            (valid self.now.schema (effect ops.now (world_of self.now.entries).tree) ≡ true) }
        ensures fits { OnOk result
            (fits (effect ops.now (world_of self.now.entries).tree) ≡ true) }
        ensures refused { IfErr result (λ refusal.
            IsChangeRefusal self.now.schema (world_of self.now.entries) ops.now refusal) }
    {
        let tree = self.tree_changed(alloc, ops)?;
        match id.copy(alloc) {
            Ok(id) => Ok((tree, id)),
            Err(NoMemory) => {
                drop(tree);
                Err(Refusal::NoMemory)
            }
        }
    }

    #[tactic(auto, using(crate::proofs::Judged::confirm_refused, crate::proofs::Judged::confirm_accepted))]
    fn answer_confirm(&self, now: u64, author: u32, id: &Text) -> Result<Judged<T>, Refusal>
        ensures judged { let rules = rules_of self.now.schema self.now.limits in
            and_then result (λ judged. Ok judged.entry)
            ≡ judge rules self.now.entries now author (Ask.Confirm id.now) }
        ensures prepared { IfOk result (λ judged.
            IsPreparedFor (preparation_of T.rows judged.prepared)
            (world_of self.now.entries) judged.entry.kind) }
        ensures memory { ¬ (IsErrOf result Refusal.NoMemory) }
    {
        self.check_trial(id)?;
        Ok(Judged {
            entry: self.next_entry(now, author, Kind::Confirm),
            prepared: Prepared::Nothing,
        })
    }

    #[tactic(auto, using(crate::proofs::Judged::cancel_refused, crate::proofs::Judged::cancel_accepted))]
    fn answer_cancel(&self, now: u64, author: u32, id: &Text) -> Result<Judged<T>, Refusal>
        ensures judged { let rules = rules_of self.now.schema self.now.limits in
            and_then result (λ judged. Ok judged.entry)
            ≡ judge rules self.now.entries now author (Ask.Cancel id.now) }
        ensures prepared { IfOk result (λ judged.
            IsPreparedFor (preparation_of T.rows judged.prepared)
            (world_of self.now.entries) judged.entry.kind) }
        ensures memory { ¬ (IsErrOf result Refusal.NoMemory) }
    {
        self.check_trial(id)?;
        Ok(Judged {
            entry: self.next_entry(now, author, Kind::Cancel),
            prepared: Prepared::Nothing,
        })
    }

    #[tactic(auto, using(crate::proofs::Judged::extend_refused, crate::proofs::Judged::extend_without_room, crate::proofs::Judged::extend_accepted, crate::proofs::Judged::short))]
    fn answer_extend(
        &self,
        now: u64,
        author: u32,
        id: &Text,
        duration: u64,
    ) -> Result<Judged<T>, Refusal>
        requires { IsTrue (is_fit_duration duration) }
        ensures judged { let rules = rules_of self.now.schema self.now.limits in
            and_then result (λ judged. Ok judged.entry)
            ≡ judge rules self.now.entries now author (Ask.Extend id.now duration) }
        ensures prepared { IfOk result (λ judged.
            IsPreparedFor (preparation_of T.rows judged.prepared)
            (world_of self.now.entries) judged.entry.kind) }
    {
        self.check_trial(id)?;
        let deadline = self.deadline(now, duration);
        let entry = self.next_entry(now, author, Kind::Extend(deadline));
        if !self.has_room(&entry, 2, GATE_OCTETS + CLOSING_OCTETS) {
            drop(entry);
            return Err(Refusal::LogFull);
        }
        Ok(Judged {
            entry,
            prepared: Prepared::Nothing,
        })
    }

    /// The tree behind the operations, where no trial is open.
    fn tree_changed(&self, alloc: Global, ops: &Ops) -> Result<T, Refusal>
        ensures closed { OnOk result (is_open (world_of self.now.entries).trial ≡ false) }
        ensures tree { IfOk result (λ next.
            T.rows next ≡ effect ops.now (world_of self.now.entries).tree) }
        ensures valid { OnOk result
            (valid self.now.schema (effect ops.now (world_of self.now.entries).tree) ≡ true) }
        ensures fits { OnOk result
            (fits (effect ops.now (world_of self.now.entries).tree) ≡ true) }
        ensures refused { IfErr result (λ refusal.
            IsChangeRefusal self.now.schema (world_of self.now.entries) ops.now refusal) }
    {
        if self.trial.is_some() {
            return Err(Refusal::TrialOpen);
        }
        changed_tree(alloc, &self.schema, &self.tree, ops.items())
    }

    /// Whether a trial with this id is open.
    fn check_trial(&self, id: &Text) -> Result<(), Refusal>
        ensures begun { OnOk result (is_open (world_of self.now.entries).trial ≡ true) }
        ensures same { OnOk result (is_other (world_of self.now.entries).trial id.now ≡ false) }
        ensures refused { IfErr result (λ refusal.
            IsTrialRefusal (world_of self.now.entries).trial id.now refusal) }
    {
        let Some(trial) = &self.trial else {
            return Err(Refusal::NoTrial);
        };
        if trial.id.octets() != id.octets() {
            return Err(Refusal::WrongId);
        }
        Ok(())
    }

    /// When a trial of this duration ends that the next entry begins or extends.
    fn deadline(&self, now: u64, duration: u64) -> u64
        requires { duration ≤ longest_duration }
        ensures { result ≡ new_stamp self.now.entries now + duration }
    {
        next_stamp(self.log.items(), self.stamp, now) + duration
    }

    /// The entry that comes next.
    pub(crate) fn next_entry(&self, now: u64, author: u32, kind: Kind) -> Entry
        ensures { let stamp = new_stamp self.now.entries now in
            result ≡ next_entry self.now.entries stamp author kind }
    {
        let stamp = next_stamp(self.log.items(), self.stamp, now);
        Entry {
            number: self.log.items().len() as u64 + 1,
            author,
            stamp,
            kind,
        }
    }

    /// Whether the log has room for so many entries, and for the entry's record and so many octets more.
    fn has_room(&self, entry: &Entry, entries: u64, more: u64) -> bool
        requires entries { entries ≤ 2 }
        requires more { more ≤ 64 }
        ensures { let octets = record_octets entry.now + more in
            result ≡ limited self.now.limits self.now.entries entries octets }
    {
        let count = self.log.items().len() as u64 + entries;
        let octets = self
            .octets
            .saturating_add(entry.record_octets())
            .saturating_add(more);
        count <= u64::from(self.limits.entries) && octets <= u64::from(self.limits.octets)
    }
}

/// The stamp of the entry that comes next behind these.
fn next_stamp(entries: &[Entry], last_stamp: u64, now: u64) -> u64
    requires last { last_stamp ≡ stamp_of entries.now }
    requires bound { last_stamp ≤ latest_reading + length entries.now }
    ensures value { result ≡ new_stamp entries.now now }
    ensures bound { result ≤ latest_reading + length entries.now + 1 }
{
    let _count = entries.len();
    now.min(LATEST_READING).max(last_stamp + 1)
}
