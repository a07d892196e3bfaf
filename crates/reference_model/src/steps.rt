// One step of a history, without a schema: the event of the clock, and then what becomes of an ask.
ghost use Rattle.std.specs.Prelude.{◌≡◌, ◌⊎◌, ◌+◌, ◌≤◌, ◌<◌, ◌^◌, ◌∷◌, [], not, IfOk, OnOk, OnErr, IsErrOf};
ghost use Rattle.base_lists.specs.Results.{IsUnlessMemory};
ghost use Rattle.base_kinds.specs.Records.{counted, record_octets};
ghost use Rattle.base_kinds.specs.History.{last_stamp, stamp_of, world_of};
ghost use Rattle.base_kinds.specs.Limits.{closing_octets, gate_octets, longest_duration};
ghost use Rattle.base_kinds.specs.Rules.{size_of, limited};
ghost use Rattle.base_kinds.specs.Step.{new_stamp, time_at, next_entry, is_due, is_past, is_open, is_other, after_expiry, first_refusal, refusal_cases_of_ops, refusal_cases_of_trial, judge_at, step};
ghost use Rattle.reference_model.specs.PlainWorlds.{trial_in, world_in};
ghost use Rattle.reference_model.specs.PlainRules.{plain_rules, duration_of};

use crate::worlds::{PlainWorld, world_of};
use base_kinds::{
    Ask, CLOSING_OCTETS, EMPTY_LOG_OCTETS, Entries, Entry, GATE_OCTETS, Kind, LATEST_READING,
    Limits, NoMemory, Refusal, Text,
};
use std::alloc::Global;

/// What becomes of the ask at this reading of the clock, in nanoseconds since 1970, within the limits: an entry, or why it
/// is refused, `TrialOpen`, `NoTrial`, `WrongId` or `LogFull`. The event of the clock is added to the entries, whether the
/// ask is refused or not; the new entry isn't.
///
/// The last stamp is below 2^62 (`stamp_of` tells it), and a trial is asked for a day at most (`duration_of`).
pub fn step_of(
    alloc: Global,
    limits: &Limits,
    entries: &mut Entries,
    now: u64,
    author: u32,
    ask: Ask,
) -> Result<Entry, Refusal>
    requires stamp { stamp_of entries.old < 2 ^ 62 }
    requires duration { duration_of ask ≤ longest_duration }
    ensures judged { let defined = step (plain_rules limits.now) entries.old now author ask in
        IsUnlessMemory Refusal.NoMemory result defined }
    ensures clocked { (IsErrOf result Refusal.NoMemory → ⊥) →
        entries.new ≡ after_expiry entries.old now }
    ensures memory { IsErrOf result Refusal.NoMemory →
        (entries.new ≡ entries.old) ⊎ (entries.new ≡ after_expiry entries.old now) }
{
    let world = match world_behind(alloc, entries, now) {
        Ok(world) => world,
        Err(NoMemory) => {
            drop(ask);
            return Err(Refusal::NoMemory);
        }
    };
    let stamp = new_stamp(entries.items(), now);
    let judged = judge_in(limits, entries.items(), &world, stamp, author, ask);
    drop(world);
    judged
}

/// The state behind the event of the clock, which is added where a trial is due.
fn world_behind(alloc: Global, entries: &mut Entries, now: u64) -> Result<PlainWorld, NoMemory>
    requires { stamp_of entries.old < 2 ^ 62 }
    ensures world { IfOk result (λ world. world_in world ≡ world_of entries.new) }
    ensures value { OnOk result (entries.new ≡ after_expiry entries.old now) }
    ensures bound { OnOk result (stamp_of entries.new ≤ 2 ^ 62) }
    ensures err { OnErr result
        ((entries.new ≡ entries.old) ⊎ (entries.new ≡ after_expiry entries.old now)) }
{
    after_expiry(alloc, entries, now)?;
    world_of(alloc, entries.items())
}

/// Adds the event of the clock where a trial is due.
#[tactic(auto, using(crate::proofs::Stamps::stamp_bound))]
fn after_expiry(alloc: Global, entries: &mut Entries, now: u64) -> Result<(), NoMemory>
    requires { stamp_of entries.old < 2 ^ 62 }
    ensures value { OnOk result (entries.new ≡ after_expiry entries.old now) }
    ensures bound { OnOk result (stamp_of entries.new ≤ 2 ^ 62) }
    ensures err { OnErr result (entries.new ≡ entries.old) }
{
    let world = world_of(alloc, entries.items())?;
    let is_due = is_past(&world, time_at(entries.items(), now));
    drop(world);
    if is_due {
        let stamp = new_stamp(entries.items(), now);
        let entry = next_entry(entries.items(), stamp, 0, Kind::Expire);
        entries.push(entry)?;
    }
    Ok(())
}

/// How long a trial is asked to last, in nanoseconds; 0 where none is asked for.
pub fn duration_of(ask: &Ask) -> u64
    ensures { result ≡ duration_of ask.now }
{
    match ask {
        Ask::Trial(_, _, duration) => *duration,
        Ask::Extend(_, duration) => *duration,
        Ask::Apply(_) | Ask::Confirm(_) | Ask::Cancel(_) => 0,
    }
}

/// The octets of a journal of these entries, or 18446744073709551615 where there are more.
pub fn size_of(entries: &[Entry]) -> u64
    ensures { result ≡ counted (size_of entries.now) }
{
    let mut size = EMPTY_LOG_OCTETS;
    for entry in entries {
        size = size
            .saturating_add(GATE_OCTETS)
            .saturating_add(entry.record_octets());
    }
    size
}

/// Whether the log has room for so many further entries, the first of which is this one, with so many octets beside it.
#[tactic(auto, using(crate::proofs::Stamps::counted_le))]
fn has_room(limits: &Limits, entries: &[Entry], further: u64, entry: &Entry, beside: u64) -> bool
    ensures { result ≡ limited limits.now entries.now further (record_octets entry.now + beside) }
{
    let octets = size_of(entries)
        .saturating_add(entry.record_octets())
        .saturating_add(beside);
    let count = (entries.len() as u64).saturating_add(further);
    count <= u64::from(limits.entries) && octets <= u64::from(limits.octets)
}

fn judge_in(
    limits: &Limits,
    entries: &[Entry],
    world: &PlainWorld,
    stamp: u64,
    author: u32,
    ask: Ask,
) -> Result<Entry, Refusal>
    requires world { world_in world.now ≡ world_of entries.now }
    requires bound { stamp ≤ 2 ^ 63 }
    requires duration { duration_of ask ≤ longest_duration }
    ensures { result ≡ judge_at (plain_rules limits.now) entries.now stamp author ask }
{
    match ask {
        Ask::Apply(ops) => {
            let entry = next_entry(entries, stamp, author, Kind::Apply(ops));
            checked_ops(limits, entries, world, entry, 1, GATE_OCTETS)
        }
        Ask::Trial(id, ops, duration) => {
            let kind = Kind::Trial(id, ops, stamp + duration);
            checked_ops(
                limits,
                entries,
                world,
                next_entry(entries, stamp, author, kind),
                2,
                GATE_OCTETS + CLOSING_OCTETS,
            )
        }
        Ask::Confirm(id) => {
            let entry = next_entry(entries, stamp, author, Kind::Confirm);
            let checked = checked_trial(world, &id, entry);
            drop(id);
            checked
        }
        Ask::Cancel(id) => {
            let entry = next_entry(entries, stamp, author, Kind::Cancel);
            let checked = checked_trial(world, &id, entry);
            drop(id);
            checked
        }
        Ask::Extend(id, duration) => {
            let entry = next_entry(entries, stamp, author, Kind::Extend(stamp + duration));
            let checked = checked_extend(limits, entries, world, &id, entry);
            drop(id);
            checked
        }
    }
}

fn checked_ops(
    limits: &Limits,
    entries: &[Entry],
    world: &PlainWorld,
    entry: Entry,
    further: u64,
    beside: u64,
) -> Result<Entry, Refusal>
    ensures { let rules = plain_rules limits.now in
        let octets = record_octets entry + beside in
        let world = world_in world.now in
        let cases = refusal_cases_of_ops rules entries.now world [] further octets in
        result ≡ first_refusal cases entry }
{
    if is_open(world) {
        drop(entry);
        return Err(Refusal::TrialOpen);
    }
    if !has_room(limits, entries, further, &entry, beside) {
        drop(entry);
        return Err(Refusal::LogFull);
    }
    Ok(entry)
}

fn checked_trial(world: &PlainWorld, id: &Text, entry: Entry) -> Result<Entry, Refusal>
    ensures { result ≡ first_refusal (refusal_cases_of_trial (world_in world.now) id.now []) entry }
{
    if !is_open(world) {
        drop(entry);
        return Err(Refusal::NoTrial);
    }
    if is_other(world, id) {
        drop(entry);
        return Err(Refusal::WrongId);
    }
    Ok(entry)
}

fn checked_extend(
    limits: &Limits,
    entries: &[Entry],
    world: &PlainWorld,
    id: &Text,
    entry: Entry,
) -> Result<Entry, Refusal>
    ensures { let octets = record_octets entry + (gate_octets + closing_octets) in
        result ≡ first_refusal (refusal_cases_of_trial (world_in world.now) id.now
        ((not (limited limits.now entries.now 2 octets), Refusal.LogFull) ∷ [])) entry }
{
    if !is_open(world) {
        drop(entry);
        return Err(Refusal::NoTrial);
    }
    if is_other(world, id) {
        drop(entry);
        return Err(Refusal::WrongId);
    }
    if !has_room(limits, entries, 2, &entry, GATE_OCTETS + CLOSING_OCTETS) {
        drop(entry);
        return Err(Refusal::LogFull);
    }
    Ok(entry)
}

fn is_open(world: &PlainWorld) -> bool
    ensures { result ≡ is_open (trial_in world.now.trial) }
{
    match &world.trial {
        None => false,
        Some(_) => true,
    }
}

fn is_other(world: &PlainWorld, id: &Text) -> bool
    ensures { result ≡ is_other (trial_in world.now.trial) id.now }
{
    match &world.trial {
        None => false,
        Some(trial) => trial.id.octets() != id.octets(),
    }
}

fn is_past(world: &PlainWorld, time: u64) -> bool
    ensures { result ≡ is_past (trial_in world.now.trial) time }
{
    match &world.trial {
        None => false,
        Some(trial) => trial.deadline <= time,
    }
}

/// The entry that comes next behind these.
fn next_entry(entries: &[Entry], stamp: u64, author: u32, kind: Kind) -> Entry
    ensures { result ≡ next_entry entries.now stamp author kind }
{
    Entry {
        number: entries.len() as u64 + 1,
        author,
        stamp,
        kind,
    }
}

fn time_at(entries: &[Entry], now: u64) -> u64
    ensures { result ≡ time_at entries.now now }
{
    now.min(LATEST_READING).max(stamp_of(entries))
}

fn new_stamp(entries: &[Entry], now: u64) -> u64
    requires { stamp_of entries.now ≤ 2 ^ 62 }
    ensures { result ≡ new_stamp entries.now now }
{
    now.min(LATEST_READING).max(stamp_of(entries) + 1)
}

/// The stamp of the last entry, or 0.
pub fn stamp_of(entries: &[Entry]) -> u64
    ensures { result ≡ stamp_of entries.now }
{
    last_stamp(0, entries)
}

fn last_stamp(stamp: u64, entries: &[Entry]) -> u64
    ensures { result ≡ last_stamp stamp entries.now }
{
    match entries.split_first() {
        None => stamp,
        Some((entry, others)) => last_stamp(entry.stamp, others),
    }
}
