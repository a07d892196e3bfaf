ghost use Rattle.std.specs.Prelude.{◌≡◌, ◌+◌, ◌<◌, ◌≤◌, [], ◌∷◌, ◌++◌, Some, None, true, false, IfOk, OnOk, OnErr, IsErrOf};
ghost use Rattle.base_lists.specs.Results.{IsUnlessMemory};
ghost use Rattle.base_kinds.specs.Bases.{HasSoundTrees};
ghost use Rattle.base_kinds.specs.History.{stamp_of, world_from, world_of};
ghost use Rattle.base_kinds.specs.Legal.{IsFit, IsLegal, Gives};
ghost use Rattle.base_kinds.specs.Parts.{part};
ghost use Rattle.base_kinds.specs.Rules.{rules_of};
ghost use Rattle.base_kinds.specs.Step.{is_due, is_open, judge, new_stamp, next_entry};
ghost use Rattle.commit_core.specs.CoreView.{EndsTrial, IsNext, IsReplayable, base_after, with_entry};
ghost use Rattle.commit_core.specs.inner.StandsFor.{IsPreparedFor, entries_for, is_restart, preparation_of, world_in};

use crate::judging::Judged;
use crate::log::Log;
use crate::replay::{journal_octets, last_stamp, replay_all};
use crate::trial::{Prepared, Trial, advance};
use base_kinds::{
    Ask, EMPTY_LOG_OCTETS, Entries, Entry, GATE_OCTETS, Kind, LATEST_READING, Limits, NoMemory,
    Paths, Refusal, TreeLike, View,
};
use schema_core::Schema;
use std::alloc::Global;
use std::marker::Model;
use std::snapshot::Snapshot;

/// A history, the tree that it stands for with the one from before an open trial, and what is prepared for the entry that
/// was judged last.
///
/// `judge` gives the entry that an ask becomes and changes nothing that is seen; the entry stands in the history from
/// `take` on, which wants no memory, so that a caller can put it into a journal in between. While a trial is open, there
/// is memory for the entry that closes it.
#[derive(Drop)]
pub struct Core<T: TreeLike> {
    pub(crate) schema: Schema,
    pub(crate) limits: Limits,
    /// The log as far as the base goes: contracts alone know it.
    base: Snapshot<Log>,
    pub(crate) log: Log,
    pub(crate) stamp: u64,
    pub(crate) octets: u64,
    pub(crate) tree: T,
    pub(crate) trial: Option<Trial<T>>,
    prepared: Prepared<T>,
    /// The entry that was judged last is the caller's: contracts alone know which it is.
    staged: Option<Snapshot<Entry>>,
}

impl<T: TreeLike> Model for Core<T> {
    ghost use Rattle.std.specs.Coded.{codes};
    ghost use Rattle.std.specs.Option.{option_map};
    ghost use Rattle.base_kinds.specs.contracts.value.Value as value;
    ghost use Rattle.commit_core.specs.CoreView.{CoreView};
    ghost use Rattle.commit_core.specs.inner.StandsFor.{StandsFor, preparation_of, world_in};

    ghost Value = { CoreView };

    ghost coded = { Prim.hlevel (codes, value.the_row.coded) };

    ghost view = { λ core. record {
      schema = core.schema;
      limits = core.limits;
      base = core.base.value.items;
      entries = core.log.items;
      staged = option_map (λ staged. staged.value) core.staged;
    } };

    ghost invariant = { λ core.
        StandsFor core.schema core.limits core.base.value.items core.log core.stamp core.octets
        (world_in T.rows core.tree core.trial) (preparation_of T.rows core.prepared)
        (option_map (λ staged. staged.value) core.staged) };
}

impl<T: TreeLike> Core<T> {
    /// A core over an empty tree, without entries, that judges by this schema and these limits.
    #[tactic(auto, using(crate::proofs::Histories::new_is_replayable, history_laws::proofs::Given::base_is_legal))]
    pub fn make(alloc: Global, schema: Schema, tree: T, limits: Limits) -> Core<T>
        requires { T.rows tree ≡ [] }
        ensures { result ≡ record {
          schema = schema;
          limits = limits;
          base = [];
          entries = [];
          staged = None;
        } }
    {
        let log = Log::empty(alloc);
        Core {
            schema,
            limits,
            base: Snapshot::of(&log),
            log,
            stamp: 0,
            octets: EMPTY_LOG_OCTETS,
            tree,
            trial: None,
            prepared: Prepared::Nothing,
            staged: None,
        }
    }

    /// What trees are judged by.
    pub fn schema(&self) -> &Schema
        ensures { result.now ≡ self.now.schema }
    {
        &self.schema
    }

    /// The history, oldest first. It goes on legally from its base, and where the base's trees are valid under the schema
    /// and small enough, its own are: the tree that it stands for, and the one from before an open trial.
    pub fn entries(&self) -> &[Entry]
        ensures value { result.now ≡ self.now.entries }
        ensures replayable { IsReplayable result.now }
        ensures legal { IsLegal (rules_of self.now.schema self.now.limits) self.now.base
            result.now }
        ensures sound { HasSoundTrees self.now.schema (world_of self.now.base)
            → HasSoundTrees self.now.schema (world_of result.now) }
    {
        self.log.items()
    }

    /// The rows that some pattern covers, in the tree that the history stands for, and the stamp of that tree.
    pub fn look(&self, alloc: Global, patterns: &Paths) -> Result<View, NoMemory>
        ensures stamp { IfOk result (λ view. view.stamp ≡ stamp_of self.now.entries) }
        ensures rows { let tree = (world_of self.now.entries).tree in
            IfOk result (λ view. view.rows ≡ part patterns.now tree) }
    {
        let rows = self.tree.part(alloc, patterns)?;
        Ok(View {
            stamp: self.stamp,
            rows,
        })
    }

    pub fn is_trial_open(&self) -> bool
        ensures { result ≡ is_open (world_of self.now.entries).trial }
    {
        self.trial.is_some()
    }

    /// Whether the event of the clock is due at this reading, in nanoseconds since 1970: a trial is open and has come to
    /// its deadline.
    pub fn due(&self, now: u64) -> bool
        ensures { result ≡ is_due self.now.entries now }
    {
        match &self.trial {
            None => false,
            Some(trial) => trial.deadline <= now.min(LATEST_READING).max(self.stamp),
        }
    }
}

impl<T: TreeLike + Drop> Core<T> {
    /// The history. Takes no memory.
    pub fn into_entries(self) -> Entries
        ensures value { result ≡ self.entries }
        ensures replayable { IsReplayable result }
    {
        let Core {
            schema,
            log,
            tree,
            trial,
            prepared,
            ..
        } = self;
        drop(schema);
        drop(tree);
        drop(trial);
        drop(prepared);
        log.into_entries()
    }

    /// The event of the clock, as an entry: the trial expires. Takes no memory.
    #[tactic(auto, using(crate::proofs::Histories::expiry_is, history_laws::proofs::Given::expiry_is_given))]
    pub fn expiry(&self, now: u64) -> Entry
        requires { is_due self.now.entries now ≡ true }
        ensures entry { let h = self.now.entries in
            result ≡ next_entry h (new_stamp h now) 0 Kind.Expire }
        ensures given { let rules = rules_of self.now.schema self.now.limits in
            Gives rules self.now.entries result }
        ensures next { IsNext self.now result }
    {
        self.next_entry(now, 0, Kind::Expire)
    }

    /// The entry that ends an open trial where a target is started anew. Takes no memory.
    #[tactic(auto, using(crate::proofs::Histories::restart_is))]
    pub fn restart(&self, now: u64) -> Entry
        requires { is_open (world_of self.now.entries).trial ≡ true }
        ensures entry { let h = self.now.entries in
            result ≡ next_entry h (new_stamp h now) 0 Kind.Restart }
        ensures next { IsNext self.now result }
    {
        self.next_entry(now, 0, Kind::Restart)
    }

    /// The entry that the ask becomes at this reading of the clock, in nanoseconds since 1970, where nothing is due; or
    /// why it is refused. Operations are refused with `TrialOpen`, `TreeInvalid`, `TreeFull` and then `LogFull`, asks about
    /// a trial with `NoTrial`, `WrongId` and then, where they extend it, `LogFull` (gNMI commit-confirmed extension). The
    /// entry is staged, in place of one that was staged before; the history stays until `take`. Author 0 is the target
    /// itself.
    #[tactic(auto, using(crate::proofs::Histories::closing_is_open))]
    pub fn judge(
        &mut self,
        alloc: Global,
        now: u64,
        author: u32,
        ask: Ask,
    ) -> Result<Entry, Refusal>
        requires author { 0 < author }
        requires fit { IsFit ask }
        requires not_due { is_due self.old.entries now ≡ false }
        ensures judged { let rules = rules_of self.old.schema self.old.limits in
            IsUnlessMemory Refusal.NoMemory result (judge rules self.old.entries now author ask) }
        ensures given { let rules = rules_of self.old.schema self.old.limits in
            IfOk result (λ entry. Gives rules self.old.entries entry) }
        ensures staged { IfOk result (λ entry. self.new ≡ record self.old { staged = Some entry }) }
        ensures next { IfOk result (λ entry. IsNext self.new entry) }
        ensures err { OnErr result (self.new ≡ self.old) }
        ensures memory { IsErrOf result Refusal.NoMemory → EndsTrial ask → ⊥ }
    {
        // a read of a field tells the clauses what every core keeps
        let _tree = &self.tree;
        match self.answer(alloc, now, author, ask) {
            Ok(judged) => match self.stage(judged) {
                Ok(entry) => Ok(entry),
                Err(NoMemory) => Err(Refusal::NoMemory),
            },
            Err(refusal) => Err(refusal),
        }
    }

    /// Stages the entry, and takes the memory that it needs.
    fn stage(&mut self, judged: Judged<T>) -> Result<Entry, NoMemory>
        requires given { let rules = rules_of self.old.schema self.old.limits in
            Gives rules self.old.entries judged.entry }
        requires prepared { IsPreparedFor (preparation_of T.rows judged.prepared)
            (world_of self.old.entries) judged.entry.kind }
        ensures entry { IfOk result (λ entry. entry ≡ judged.entry) }
        ensures ok { OnOk result (self.new ≡ record self.old { staged = Some judged.entry }) }
        ensures err { OnErr result (self.new ≡ self.old) }
        ensures memory { OnErr result (is_open (world_of self.old.entries).trial ≡ true
            → 1 < entries_for judged.entry.kind) }
    {
        let Judged { entry, prepared } = judged;
        match self.log.reserve(entries_for(&entry.kind)) {
            Ok(()) => {
                drop(std::mem::replace(&mut self.prepared, prepared));
                self.staged = Some(Snapshot::of(&entry));
                Ok(entry)
            }
            Err(NoMemory) => {
                drop(entry);
                drop(prepared);
                Err(NoMemory)
            }
        }
    }

    /// Makes the entry the last one of the history. Takes no memory, and copies no tree.
    pub fn take(&mut self, entry: Entry)
        requires { IsNext self.old entry }
        ensures { self.new ≡ with_entry self.old entry }
    {
        let prepared = std::mem::replace(&mut self.prepared, Prepared::Nothing);
        advance(&mut self.tree, &mut self.trial, prepared, &entry.kind);
        self.staged = None;
        self.stamp = entry.stamp;
        self.octets = self
            .octets
            .saturating_add(GATE_OCTETS)
            .saturating_add(entry.record_octets());
        put_entry(&mut self.log, &mut self.base, entry);
    }

    /// Lets the entry go that was judged last: it can't be taken any more.
    pub fn forget(&mut self)
        ensures { self.new ≡ record self.old { staged = None } }
    {
        drop(std::mem::replace(&mut self.prepared, Prepared::Nothing));
        self.staged = None;
    }

    /// Makes the entries the history of a core that has none, and its base. Where memory is wanting the core stays as it
    /// was.
    pub fn replay(&mut self, alloc: Global, entries: Entries) -> Result<(), NoMemory>
        requires fresh { self.old.entries ≡ [] }
        requires replayable { IsReplayable entries }
        ensures ok { OnOk result (self.new ≡ record self.old {
          base = entries;
          entries = entries;
          staged = None;
        }) }
        ensures err { OnErr result (self.new ≡ self.old) }
    {
        let mut tree = match self.tree.copy(alloc) {
            Ok(tree) => tree,
            Err(NoMemory) => {
                drop(entries);
                return Err(NoMemory);
            }
        };
        let mut trial = None;
        let mut log = Log::of(entries);
        match replay_log(alloc, &mut tree, &mut trial, &mut log) {
            Ok(()) => {
                self.stamp = last_stamp(log.items());
                self.octets = journal_octets(log.items());
                self.base = Snapshot::of(&log);
                drop(std::mem::replace(&mut self.log, log));
                drop(std::mem::replace(&mut self.tree, tree));
                drop(std::mem::replace(&mut self.trial, trial));
                drop(std::mem::replace(&mut self.prepared, Prepared::Nothing));
                self.staged = None;
                Ok(())
            }
            Err(NoMemory) => {
                drop(log);
                drop(tree);
                drop(trial);
                Err(NoMemory)
            }
        }
    }
}

/// Goes on by the entries of the log, and takes room for the one that closes an open trial.
fn replay_log<T: TreeLike + Drop>(
    alloc: Global,
    tree: &mut T,
    trial: &mut Option<Trial<T>>,
    log: &mut Log,
) -> Result<(), NoMemory>
    ensures world { OnOk result (world_in T.rows tree.new trial.new
        ≡ world_from (world_in T.rows tree.old trial.old) log.old.items) }
    ensures items { log.new.items ≡ log.old.items }
    ensures room { OnOk result (1 ≤ log.new.room) }
{
    replay_all(alloc, tree, trial, log.items())?;
    log.reserve(1)
}

/// For how many entries there has to be memory: for the entry, and for the one that closes the trial which it leaves open.
fn entries_for(kind: &Kind) -> usize
    ensures { result ≡ entries_for kind.now }
{
    match kind {
        Kind::Confirm | Kind::Cancel | Kind::Expire | Kind::Restart => 1,
        Kind::Apply(_) | Kind::Trial(_, _, _) | Kind::Extend(_) => 2,
    }
}

/// Puts the entry behind the others. Takes no memory.
fn put_entry(log: &mut Log, base: &mut Snapshot<Log>, entry: Entry)
    requires { 0 < log.old.room }
    ensures items { log.new.items ≡ log.old.items ++ entry ∷ [] }
    ensures room { log.old.room ≤ log.new.room + 1 }
    ensures base { base.new.value.items ≡ base_after entry.kind base.old.value.items log.new.items }
{
    let is_restart = is_restart(&entry.kind);
    log.put(entry);
    if is_restart {
        *base = Snapshot::of(log);
    }
}

fn is_restart(kind: &Kind) -> bool
    ensures { result ≡ is_restart kind.now }
{
    matches!(kind, Kind::Restart)
}
