//! Ledgers: stops and failures at each call of an append, a repair, an opening and a creation.
ghost use Rattle.std.specs.Prelude.{◌≡◌, [], None, IsSome, IfSome, OnOk, OnErr};
ghost use Rattle.base_kinds.specs.Limits.{AreInRange};

use crate::disks::FILLS;
use base_kinds::{Entry, Fill, Kind, Limits, NoMemory, Seq};
use commit_journal::{CreateFault, Ledger, LedgerFault, Opening};
use disk_model::{Armed, Disk};
use memory_disks::{FuseDisk, MemDisk, NO_STOP};
use std::alloc::Global;
use std::test::Fail;

const LIMITS: Limits = Limits {
    entries: 2,
    octets: 4096,
};

/// How many calls an opening makes of a disk with one piece of octets.
const OPENING: u64 = 3;

/// A disk with a journal without entries.
fn new_journal(alloc: Global) -> Result<MemDisk, CreateFault> {
    let mut disk = MemDisk::make(alloc);
    match Ledger::create(alloc, &mut disk, &LIMITS) {
        Ok(()) => Ok(disk),
        Err(fault) => {
            drop(disk);
            Err(fault)
        }
    }
}

/// The ledger, where its journal has no entries.
fn without_entries<D: Disk + Drop>(ledger: Ledger<D>, entries: &[Entry]) -> Option<Ledger<D>>
    requires history { ledger.history ≡ entries.now }
    requires settled { ledger.doubt ≡ None }
    requires range { AreInRange ledger.limits }
    ensures empty { IfSome result (λ l. l.history ≡ []) }
    ensures settled { IfSome result (λ l. l.doubt ≡ None) }
    ensures range { IfSome result (λ l. AreInRange l.limits) }
{
    if entries.is_empty() {
        Some(ledger)
    } else {
        drop(ledger);
        None
    }
}

/// A ledger on a disk whose journal has no entries.
fn open_empty<D: Disk + Drop>(alloc: Global, disk: D) -> Option<Ledger<D>>
    ensures empty { IfSome result (λ l. l.history ≡ []) }
    ensures settled { IfSome result (λ l. l.doubt ≡ None) }
    ensures range { IfSome result (λ l. AreInRange l.limits) }
{
    match Ledger::reopen(alloc, disk) {
        Opening::Ready(ledger, entries) => {
            let empty = without_entries(ledger, entries.items());
            drop(entries);
            empty
        }
        other => {
            drop(other);
            None
        }
    }
}

#[tactic(auto, using(crate::proofs::FirstEntries::first_is_next))]
fn append_first(alloc: Global, ledger: &mut Ledger<FuseDisk>) -> Result<(), LedgerFault>
    requires empty { ledger.old.history ≡ [] }
    requires settled { ledger.old.doubt ≡ None }
    requires range { AreInRange ledger.old.limits }
    ensures empty { OnErr result (ledger.new.history ≡ []) }
    ensures limits { ledger.new.limits ≡ ledger.old.limits }
{
    let entry = Entry {
        number: 1,
        author: 1,
        stamp: 1000,
        kind: Kind::Apply(Seq::empty(alloc)),
    };
    let appended = ledger.append(&entry);
    drop(entry);
    appended
}

/// What a stop has left, where it was one.
fn left_by_stop<D: Armed + Drop>(left: D) -> Option<D> {
    if left.stopped() {
        Some(left)
    } else {
        drop(left);
        None
    }
}

/// How many entries the journal has that is opened, or what a stop in that leaves, or neither.
fn opened<D: Armed + Drop>(alloc: Global, disk: D) -> Result<usize, Option<D>> {
    match Ledger::reopen(alloc, disk) {
        Opening::Ready(ledger, entries) => {
            let count = entries.len();
            drop(ledger);
            drop(entries);
            Ok(count)
        }
        Opening::DiskFault(left) => Err(left_by_stop(left)),
        other => {
            drop(other);
            Err(None)
        }
    }
}

/// How many entries a journal has that is opened again after each stop in its opening, and how many
/// stops came.
fn count_of(alloc: Global, disk: FuseDisk) -> Option<(usize, usize)> {
    let mut disk = disk;
    for stops in 0..9 {
        match opened(alloc, disk) {
            Ok(count) => return Some((count, stops)),
            Err(Some(left)) => disk = left.again(),
            Err(None) => return None,
        }
    }
    drop(disk);
    None
}

/// For a stop in the call of an append of this number, with a fill that leaves the gate closed, and
/// with one that opens it: how many entries the journal then has, and how many stops came in
/// its opening.
const STOPPED_APPENDS: &[(u64, (usize, usize), (usize, usize))] = &[
    (0, (0, 0), (0, 0)),
    (1, (0, 0), (0, 0)),
    (2, (0, 0), (1, 0)),
    (3, (0, 0), (1, 0)),
    // The append has four calls, so this stop comes in the opening.
    (4, (1, 1), (1, 1)),
];

/// A journal without entries, on a disk with this stop.
fn new_fuse(alloc: Global, passes: u64, fill: Fill) -> Result<FuseDisk, CreateFault> {
    match new_journal(alloc) {
        Ok(inner) => Ok(FuseDisk::make(inner, passes, fill)),
        Err(fault) => Err(fault),
    }
}

/// Whether an append stops where it isn't made, and only there.
fn append_stops(alloc: Global, ledger: &mut Ledger<FuseDisk>) -> bool
    requires empty { ledger.old.history ≡ [] }
    requires settled { ledger.old.doubt ≡ None }
    requires range { AreInRange ledger.old.limits }
{
    let is_made = append_first(alloc, ledger).is_ok();
    ledger.stopped() != is_made
}

/// What such an append leaves.
fn left_by_append(alloc: Global, ledger: Ledger<FuseDisk>) -> Option<(usize, usize)>
    requires empty { ledger.history ≡ [] }
    requires settled { ledger.doubt ≡ None }
    requires range { AreInRange ledger.limits }
{
    let mut ledger = ledger;
    let is_such = append_stops(alloc, &mut ledger);
    let left = count_of(alloc, ledger.give().again());
    if is_such { left } else { None }
}

fn left_on(alloc: Global, disk: FuseDisk) -> Option<(usize, usize)> {
    match open_empty(alloc, disk) {
        Some(ledger) => left_by_append(alloc, ledger),
        None => None,
    }
}

fn stopped_append(
    alloc: Global,
    passes: u64,
    fill: Fill,
) -> Result<Option<(usize, usize)>, CreateFault> {
    match new_fuse(alloc, passes.saturating_add(OPENING), fill) {
        Ok(disk) => Ok(left_on(alloc, disk)),
        Err(fault) => Err(fault),
    }
}

/// What such a row says with this fill.
fn expected_of_append(fill: Fill, other: (usize, usize), open: (usize, usize)) -> (usize, usize) {
    if fill == Fill::New || fill == Fill::Octet(165) {
        open
    } else {
        other
    }
}

#[test]
fn a_stop_leaves_an_append_whole_or_absent(rt: HostRuntime) -> Result<(), CreateFault> {
    for fill in FILLS {
        for (passes, other, open) in STOPPED_APPENDS {
            let expected = expected_of_append(*fill, *other, *open);
            let left = stopped_append(rt.alloc(), *passes, *fill)?;
            assert!(rt; left == Some(expected), "at {passes}, {fill:?}: {left:?}");
        }
    }
    Ok(())
}

/// What is left on this disk, which stops once more.
fn left_on_stopping(
    alloc: Global,
    disk: FuseDisk,
    passes: u64,
    fill: Fill,
) -> Result<Option<(usize, usize)>, CreateFault> {
    let mut disk = disk;
    let told = disk.stop_after(passes, fill);
    let left = left_on(alloc, disk);
    match told {
        Ok(()) => Ok(left),
        Err(NoMemory) => Err(CreateFault::NoMemory),
    }
}

/// An append whose octet of the open gate is left by a stop, and then a stop in this call of the
/// opening.
fn stopped_opening(
    alloc: Global,
    passes: u64,
    fill: Fill,
) -> Result<Option<(usize, usize)>, CreateFault> {
    match new_fuse(alloc, OPENING + 2, Fill::New) {
        Ok(disk) => left_on_stopping(alloc, disk, passes, fill),
        Err(fault) => Err(fault),
    }
}

/// Whether a repair stops where it isn't made, and only there.
fn repair_stops(ledger: &mut Ledger<FuseDisk>) -> bool
    requires { IsSome ledger.old.doubt }
{
    let is_made = ledger.repair().is_ok();
    ledger.stopped() != is_made
}

/// The same of the repair of an append that fails before.
fn repair_of_failed_append_stops(alloc: Global, ledger: &mut Ledger<FuseDisk>) -> bool
    requires empty { ledger.old.history ≡ [] }
    requires settled { ledger.old.doubt ≡ None }
    requires range { AreInRange ledger.old.limits }
{
    let is_made = append_first(alloc, ledger).is_ok();
    !is_made && ledger.in_doubt() && repair_stops(ledger)
}

/// What such a repair leaves.
fn left_by_repair(alloc: Global, ledger: Ledger<FuseDisk>) -> Option<(usize, usize)>
    requires empty { ledger.history ≡ [] }
    requires settled { ledger.doubt ≡ None }
    requires range { AreInRange ledger.limits }
{
    let mut ledger = ledger;
    let is_such = repair_of_failed_append_stops(alloc, &mut ledger);
    let left = count_of(alloc, ledger.give().again());
    if is_such { left } else { None }
}

fn repair_left_on(alloc: Global, disk: FuseDisk) -> Option<(usize, usize)> {
    match open_empty(alloc, disk) {
        Some(ledger) => left_by_repair(alloc, ledger),
        None => None,
    }
}

/// What such a repair leaves on this disk, which fails in the call after so many.
fn repair_left_on_failing(
    alloc: Global,
    disk: FuseDisk,
    calls: u64,
) -> Result<Option<(usize, usize)>, CreateFault> {
    let mut disk = disk;
    let told = disk.fail_after(calls);
    let left = repair_left_on(alloc, disk);
    match told {
        Ok(()) => Ok(left),
        Err(NoMemory) => Err(CreateFault::NoMemory),
    }
}

/// An append that fails in this call, and a stop in this call of its repair.
fn stopped_repair(
    alloc: Global,
    failing: u64,
    passes: u64,
    fill: Fill,
) -> Result<Option<(usize, usize)>, CreateFault> {
    let calls = failing.saturating_add(OPENING);
    let stop = calls.saturating_add(passes).saturating_add(1);
    match new_fuse(alloc, stop, fill) {
        Ok(disk) => repair_left_on_failing(alloc, disk, calls),
        Err(fault) => Err(fault),
    }
}

/// For a failure in the call of an append of this number, and a stop in this call of its repair:
/// how many entries the journal then has, with another octet at its gate than the open one, and how
/// many stops came in its opening.
const STOPPED_REPAIRS: &[(u64, u64, (usize, usize))] = &[
    (2, 0, (0, 0)),
    (2, 1, (0, 0)),
    (2, 2, (0, 1)),
    (3, 0, (0, 0)),
    (3, 1, (0, 0)),
    (3, 2, (0, 1)),
];

#[test]
fn a_stopped_opening_is_made_again(rt: HostRuntime) -> Result<(), CreateFault> {
    for fill in FILLS {
        for passes in 0..OPENING {
            let left = stopped_opening(rt.alloc(), passes, *fill)?;
            assert!(rt; left == Some((1, 1)), "at {passes}, {fill:?}: {left:?}");
        }
    }
    Ok(())
}

/// What such a row says with this fill.
fn expected_of_repair(fill: Fill, passes: u64, found: (usize, usize)) -> (usize, usize) {
    // The gate may read as any octet until the repair has ended: as the open one too.
    let torn = fill == Fill::Octet(165) && passes < 2;
    if torn { (1, 0) } else { found }
}

#[test]
fn a_stopped_repair_is_made_again(rt: HostRuntime) -> Result<(), CreateFault> {
    for fill in FILLS {
        for (failing, passes, found) in STOPPED_REPAIRS {
            let expected = expected_of_repair(*fill, *passes, *found);
            let left = stopped_repair(rt.alloc(), *failing, *passes, *fill)?;
            assert!(rt;
                left == Some(expected),
                "at {failing}, {passes}, {fill:?}: {left:?}"
            );
        }
    }
    Ok(())
}

fn settle(ledger: &mut Ledger<FuseDisk>) -> Result<(), LedgerFault>
    ensures history { ledger.new.history ≡ ledger.old.history }
    ensures limits { ledger.new.limits ≡ ledger.old.limits }
    ensures settled { OnOk result (ledger.new.doubt ≡ None) }
{
    if ledger.in_doubt() {
        ledger.repair()?;
    }
    Ok(())
}

/// Has the call after so many of the ledger's disk fail.
fn fail_after(ledger: &mut Ledger<FuseDisk>, passes: u64) -> Result<(), NoMemory>
    ensures doubt { ledger.new.doubt ≡ ledger.old.doubt }
    ensures history { ledger.new.history ≡ ledger.old.history }
    ensures limits { ledger.new.limits ≡ ledger.old.limits }
{
    ledger.fail_after(passes)
}

/// Has the ledger's disk stop after so many calls.
fn stop_after(ledger: &mut Ledger<FuseDisk>, passes: u64) -> Result<(), NoMemory>
    ensures doubt { ledger.new.doubt ≡ ledger.old.doubt }
    ensures history { ledger.new.history ≡ ledger.old.history }
    ensures limits { ledger.new.limits ≡ ledger.old.limits }
{
    ledger.stop_after(passes, Fill::New)
}

/// Whether a repair fails.
fn repair_fails(ledger: &mut Ledger<FuseDisk>) -> bool
    requires { IsSome ledger.old.doubt }
    ensures history { ledger.new.history ≡ ledger.old.history }
    ensures limits { ledger.new.limits ≡ ledger.old.limits }
{
    ledger.repair().is_err()
}

/// Lets a repair fail.
fn fail_repair_of_doubt(ledger: &mut Ledger<FuseDisk>) -> Result<bool, NoMemory>
    requires { IsSome ledger.old.doubt }
    ensures history { ledger.new.history ≡ ledger.old.history }
    ensures limits { ledger.new.limits ≡ ledger.old.limits }
{
    match fail_after(ledger, 0) {
        Ok(()) => Ok(repair_fails(ledger)),
        Err(NoMemory) => Err(NoMemory),
    }
}

/// Where there is a doubt, lets a repair fail.
fn fail_repair(ledger: &mut Ledger<FuseDisk>) -> Result<bool, NoMemory>
    ensures history { ledger.new.history ≡ ledger.old.history }
    ensures limits { ledger.new.limits ≡ ledger.old.limits }
{
    if ledger.in_doubt() {
        fail_repair_of_doubt(ledger)
    } else {
        Ok(true)
    }
}

/// Whether a repair fails where there is a doubt, one more settles the ledger, and then the append is made.
fn is_made_behind_repairs(alloc: Global, ledger: &mut Ledger<FuseDisk>) -> Result<bool, CreateFault>
    requires empty { ledger.old.history ≡ [] }
    requires range { AreInRange ledger.old.limits }
{
    match fail_repair(ledger) {
        Ok(is_failed) => Ok(
            is_failed
                && settle(ledger).is_ok()
                && !ledger.in_doubt()
                && append_first(alloc, ledger).is_ok(),
        ),
        Err(NoMemory) => Err(CreateFault::NoMemory),
    }
}

/// An append that fails, and the same behind repairs: whether there was a doubt, and whether it was made then.
fn append_twice(alloc: Global, ledger: &mut Ledger<FuseDisk>) -> Result<(bool, bool), CreateFault>
    requires empty { ledger.old.history ≡ [] }
    requires settled { ledger.old.doubt ≡ None }
    requires range { AreInRange ledger.old.limits }
{
    if append_first(alloc, ledger).is_ok() {
        return Ok((false, false));
    }
    let doubt = ledger.in_doubt();
    match is_made_behind_repairs(alloc, ledger) {
        Ok(is_made) => Ok((doubt, is_made)),
        Err(fault) => Err(fault),
    }
}

/// The same where the call after so many fails.
fn append_twice_failing(
    alloc: Global,
    ledger: &mut Ledger<FuseDisk>,
    failing: u64,
) -> Result<(bool, bool), CreateFault>
    requires empty { ledger.old.history ≡ [] }
    requires settled { ledger.old.doubt ≡ None }
    requires range { AreInRange ledger.old.limits }
{
    match fail_after(ledger, failing) {
        Ok(()) => append_twice(alloc, ledger),
        Err(NoMemory) => Err(CreateFault::NoMemory),
    }
}

/// Whether there was a doubt, and what is opened then.
fn append_failing(
    alloc: Global,
    ledger: Ledger<FuseDisk>,
    failing: u64,
) -> Result<(bool, Option<(usize, usize)>), CreateFault>
    requires empty { ledger.history ≡ [] }
    requires settled { ledger.doubt ≡ None }
    requires range { AreInRange ledger.limits }
{
    let mut ledger = ledger;
    let made = append_twice_failing(alloc, &mut ledger, failing);
    let left = count_of(alloc, ledger.give().again());
    match made {
        Ok((doubt, true)) => Ok((doubt, left)),
        Ok((doubt, false)) => Ok((doubt, None)),
        Err(fault) => Err(fault),
    }
}

fn failed_append_on(
    alloc: Global,
    disk: FuseDisk,
    failing: u64,
) -> Result<(bool, Option<(usize, usize)>), CreateFault> {
    match open_empty(alloc, disk) {
        Some(ledger) => append_failing(alloc, ledger, failing),
        None => Ok((false, None)),
    }
}

/// An append that fails in this call, and the same behind repairs.
fn failed_append(
    alloc: Global,
    failing: u64,
) -> Result<(bool, Option<(usize, usize)>), CreateFault> {
    match new_fuse(alloc, NO_STOP, Fill::Old) {
        Ok(disk) => failed_append_on(alloc, disk, failing),
        Err(fault) => Err(fault),
    }
}

/// For a failure in the call of an append of this number: whether it leaves a doubt.
const FAILED_APPENDS: &[(u64, bool)] = &[(0, false), (1, false), (2, true), (3, true)];

#[test]
fn a_failed_append_can_be_made_again(rt: HostRuntime) -> Result<(), CreateFault> {
    for (failing, doubt) in FAILED_APPENDS {
        let left = failed_append(rt.alloc(), *failing)?;
        assert!(rt; left == (*doubt, Some((1, 0))), "at {failing}: {left:?}");
    }
    Ok(())
}

/// A creation that fails in this call, on an empty disk.
fn failed_creation(alloc: Global, failing: u64) -> Result<Result<(), CreateFault>, NoMemory> {
    let mut disk = FuseDisk::make(MemDisk::make(alloc), NO_STOP, Fill::Old);
    let told = disk.fail_after(failing);
    let made = Ledger::create(alloc, &mut disk, &LIMITS);
    drop(disk);
    match told {
        Ok(()) => Ok(made),
        Err(NoMemory) => Err(NoMemory),
    }
}

/// Whether the disk has a journal without entries, over which no other one is made.
fn keeps_its_journal(alloc: Global, disk: MemDisk) -> bool {
    let mut disk = disk;
    let is_kept = disk.octets() == b"GNMIJRN1\0\0\0\x02\0\0\x10\0\0".as_slice()
        && Ledger::create(alloc, &mut disk, &LIMITS) == Err(CreateFault::NotEmpty);
    drop(disk);
    is_kept
}

fn new_journal_is_kept(alloc: Global) -> Result<bool, CreateFault> {
    match new_journal(alloc) {
        Ok(disk) => Ok(keeps_its_journal(alloc, disk)),
        Err(fault) => Err(fault),
    }
}

#[test]
fn only_an_empty_disk_takes_a_new_journal(rt: HostRuntime) -> Result<(), CreateFault> {
    assert!(rt; new_journal_is_kept(rt.alloc())?);
    Ok(())
}

#[test]
fn a_creation_has_three_calls_that_fail(rt: HostRuntime) -> Result<(), NoMemory> {
    for failing in 0..3 {
        let made = failed_creation(rt.alloc(), failing)?;
        assert!(rt;
            made == Err(CreateFault::DiskFault),
            "at {failing}: {made:?}"
        );
    }
    assert!(rt; failed_creation(rt.alloc(), 3)? == Ok(()));
    Ok(())
}

/// An append on a ledger whose disk is told to stop after so many calls: whether it was made, and whether the disk has
/// stopped.
fn append_stopping(
    alloc: Global,
    ledger: Ledger<FuseDisk>,
    passes: u64,
) -> Result<Option<(bool, bool)>, CreateFault>
    requires empty { ledger.history ≡ [] }
    requires settled { ledger.doubt ≡ None }
    requires range { AreInRange ledger.limits }
{
    let mut ledger = ledger;
    let told = stop_after(&mut ledger, passes);
    let is_made = append_first(alloc, &mut ledger).is_ok();
    let has_stopped = ledger.stopped();
    drop(ledger);
    match told {
        Ok(()) => Ok(Some((is_made, has_stopped))),
        Err(NoMemory) => Err(CreateFault::NoMemory),
    }
}

fn told_to_stop_on(
    alloc: Global,
    disk: FuseDisk,
    passes: u64,
) -> Result<Option<(bool, bool)>, CreateFault> {
    match open_empty(alloc, disk) {
        Some(ledger) => append_stopping(alloc, ledger, passes),
        None => Ok(None),
    }
}

/// The same on a disk for which nothing waits before.
fn told_to_stop(alloc: Global, passes: u64) -> Result<Option<(bool, bool)>, CreateFault> {
    match new_fuse(alloc, NO_STOP, Fill::Old) {
        Ok(disk) => told_to_stop_on(alloc, disk, passes),
        Err(fault) => Err(fault),
    }
}

/// The append has four calls.
const TOLD_TO_STOP: &[(u64, (bool, bool))] = &[
    (0, (false, true)),
    (3, (false, true)),
    (4, (true, false)),
];

#[test]
fn a_disk_that_is_not_armed_stops_where_it_is_told(rt: HostRuntime) -> Result<(), CreateFault> {
    for (passes, expected) in TOLD_TO_STOP {
        let found = told_to_stop(rt.alloc(), *passes)?;
        assert!(rt; found == Some(*expected), "after {passes}: {found:?}");
    }
    Ok(())
}

/// Whether a ledger tells its limits and takes memory before.
fn tells(ledger: &mut Ledger<FuseDisk>) -> bool {
    ledger.limits() == LIMITS
        && ledger.reserve(17) == Ok(())
        && !ledger.starved()
        && !ledger.stopped()
}

/// Whether the ledger of the journal on this disk does.
fn ledger_tells(alloc: Global, disk: FuseDisk) -> bool {
    match open_empty(alloc, disk) {
        Some(mut ledger) => {
            let tells = tells(&mut ledger);
            drop(ledger);
            tells
        }
        None => false,
    }
}

fn new_ledger_tells(alloc: Global) -> Result<bool, CreateFault> {
    match new_fuse(alloc, NO_STOP, Fill::Old) {
        Ok(disk) => Ok(ledger_tells(alloc, disk)),
        Err(fault) => Err(fault),
    }
}

#[test]
fn a_ledger_tells_its_limits_and_takes_memory_before(rt: HostRuntime) -> Result<(), CreateFault> {
    assert!(rt; new_ledger_tells(rt.alloc())?);
    Ok(())
}

const NO_RECORD: [u8; 18] = *b"GNMIJRN1\0\0\0\x02\0\0\x10\0\xA5\0";

/// The first octets of a journal with an open gate and no record, and the place of its damage.
const DAMAGED: &[(usize, u64)] = &[(0, 0), (15, 0), (16, 16), (17, 16), (18, 16)];

fn place_of_damage<D: Disk>(opening: &Opening<D>) -> Option<u64> {
    match opening {
        Opening::Damaged(found, _) => Some(*found),
        _ => None,
    }
}

/// The place of the damage on a disk.
fn damage_on<D: Disk + Drop>(alloc: Global, disk: D) -> Option<u64> {
    let opening = Ledger::reopen(alloc, disk);
    let place = place_of_damage(&opening);
    drop(opening);
    place
}

fn damage_of(alloc: Global, length: usize) -> Result<Option<u64>, NoMemory> {
    match MemDisk::of(alloc, NO_RECORD.get(..length).unwrap_or_default()) {
        Ok(disk) => Ok(damage_on(alloc, disk)),
        Err(NoMemory) => Err(NoMemory),
    }
}

#[test]
fn damage_is_told_with_its_place(rt: HostRuntime) -> Result<(), NoMemory> {
    for (length, place) in DAMAGED {
        let found = damage_of(rt.alloc(), *length)?;
        assert!(rt; found == Some(*place), "at {length}: {found:?}");
    }
    Ok(())
}
