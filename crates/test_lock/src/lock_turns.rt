ghost use Rattle.std.specs.Prelude.{◌≡◌, IfSome};
ghost use Rattle.turn_lock.specs.Passes.{IsOutside, IsSamePass};

use crate::tally::Tally;
use std::alloc::Global;
use std::process::Abort;
use std::sync::Wait;
use std::test::Fail;
use std::thread;
use std::thread::{Threads, join};
use std::time::{Clock, Duration};
use turn_lock::{Pass, TurnLock};

type TallyPass = Pass<Tally, (u64, u64)>;

/// Takes so many turns, and adds the pass's own number in each. Answers whether memory was there for all.
fn take_turns<R: Wait>(
    rt: &R,
    lock: &TurnLock<Tally>,
    mut pass: TallyPass,
    turns: u64,
) -> (TallyPass, bool)
    requires own { pass.seat.table_id ≡ lock.now.table.shared.table_id }
    requires outside { IsOutside pass.seat }
    ensures pass { IsSamePass pass.seat result.0.seat × IsOutside result.0.seat }
{
    let number = lock.number(&pass) as u64;
    let mut all = true;
    for turn in 0..turns {
        let mut tally = lock.enter(rt, &mut pass);
        if !tally.add(number, turn) {
            all = false;
        }
        lock.leave(&mut pass, tally);
    }
    (pass, all)
}

/// One more pass of the lock, which is outside as the first one stays.
fn another_pass<R: Wait>(rt: &R, lock: &TurnLock<Tally>, pass: &mut TallyPass) -> Option<TallyPass>
    requires own { pass.old.seat.table_id ≡ lock.now.table.shared.table_id }
    requires outside { IsOutside pass.old.seat }
    ensures same { (pass.new.seat.table_id ≡ lock.now.table.shared.table_id)
        × IsOutside pass.new.seat }
    ensures other { IfSome result (λ other.
        (other.seat.table_id ≡ lock.now.table.shared.table_id) × IsOutside other.seat) }
{
    lock.split(rt, pass).ok()
}

/// A lock round an empty tally, and its first pass.
fn tally_lock(alloc: Global) -> Option<(TurnLock<Tally>, TallyPass)>
    ensures { IfSome result (λ r.
        (r.1.seat.table_id ≡ r.0.table.shared.table_id) × IsOutside r.1.seat) }
{
    TurnLock::make(alloc, Tally::empty(alloc)).ok()
}

/// Two threads take turns, and the second one's pass is joined into the first one's.
fn take_turns_by_two<R: Threads + Wait + Sync>(
    rt: &R,
    lock: &TurnLock<Tally>,
    one: TallyPass,
    two: TallyPass,
    turns: u64,
) -> (TallyPass, bool)
    requires own_one { one.seat.table_id ≡ lock.now.table.shared.table_id }
    requires outside_one { IsOutside one.seat }
    requires own_two { two.seat.table_id ≡ lock.now.table.shared.table_id }
    requires outside_two { IsOutside two.seat }
    ensures pass { (result.0.seat.table_id ≡ one.seat.table_id) × IsOutside result.0.seat }
{
    let ((mut one, first), (two, second)) = join(
        rt,
        || take_turns(rt, lock, one, turns),
        || take_turns(rt, lock, two, turns),
    );
    lock.join(&mut one, two);
    (one, first && second)
}

/// Four threads take turns, and the passes of three are joined into the first one's.
fn take_turns_by_four<R: Threads + Wait + Sync>(
    rt: &R,
    lock: &TurnLock<Tally>,
    one: TallyPass,
    two: TallyPass,
    three: TallyPass,
    four: TallyPass,
    turns: u64,
) -> (TallyPass, bool)
    requires own_one { one.seat.table_id ≡ lock.now.table.shared.table_id }
    requires outside_one { IsOutside one.seat }
    requires own_two { two.seat.table_id ≡ lock.now.table.shared.table_id }
    requires outside_two { IsOutside two.seat }
    requires own_three { three.seat.table_id ≡ lock.now.table.shared.table_id }
    requires outside_three { IsOutside three.seat }
    requires own_four { four.seat.table_id ≡ lock.now.table.shared.table_id }
    requires outside_four { IsOutside four.seat }
    ensures pass { (result.0.seat.table_id ≡ one.seat.table_id) × IsOutside result.0.seat }
{
    let ((mut one, first), (three, second)) = join(
        rt,
        ||
            requires own_one { one.seat.table_id ≡ lock.now.table.shared.table_id }
            requires outside_one { IsOutside one.seat }
            requires own_two { two.seat.table_id ≡ lock.now.table.shared.table_id }
            requires outside_two { IsOutside two.seat }
        { take_turns_by_two(rt, lock, one, two, turns) },
        ||
            requires own_one { three.seat.table_id ≡ lock.now.table.shared.table_id }
            requires outside_one { IsOutside three.seat }
            requires own_two { four.seat.table_id ≡ lock.now.table.shared.table_id }
            requires outside_two { IsOutside four.seat }
        { take_turns_by_two(rt, lock, three, four, turns) },
    );
    lock.join(&mut one, three);
    (one, first && second)
}

/// What four threads leave of an empty tally, and whether memory was there for all.
fn tally_of_four<R: Threads + Wait + Sync>(
    rt: &R,
    alloc: Global,
    turns: u64,
) -> Option<(Tally, bool)> {
    let (lock, mut one) = tally_lock(alloc)?;
    let two = another_pass(rt, &lock, &mut one)?;
    let three = another_pass(rt, &lock, &mut one)?;
    let four = another_pass(rt, &lock, &mut one)?;
    let (one, all) = take_turns_by_four(rt, &lock, one, two, three, four, turns);
    Some((lock.last(rt, one), all))
}

#[test]
fn four_threads_lose_no_entry_of_ten_thousand(rt: HostRuntime) -> Result<(), Fail> {
    let (tally, all) = tally_of_four(&rt, rt.alloc(), 2500).ok_or("no lock")?;
    assert!(rt; all);
    assert!(rt; tally.entries.len() == 10_000);
    for author in 1..=4 {
        assert!(rt; tally.has_turns_of(author, 2500));
    }
    Ok(())
}

/// Keeps the turn for so long, in sleep, so that whoever waits has to wait for it.
fn hold<R: Wait + Clock>(
    rt: &R,
    lock: &TurnLock<Tally>,
    mut pass: TallyPass,
    time: Duration,
) -> TallyPass
    requires own { pass.seat.table_id ≡ lock.now.table.shared.table_id }
    requires outside { IsOutside pass.seat }
    ensures pass { (result.seat.table_id ≡ pass.seat.table_id) × IsOutside result.seat }
{
    let tally = lock.enter(rt, &mut pass);
    thread::sleep(rt, time);
    lock.leave(&mut pass, tally);
    pass
}

/// One thread keeps the turn for so long, while two others wait for it.
fn two_wait_for_one<R: Threads + Wait + Clock + Sync>(
    rt: &R,
    lock: &TurnLock<Tally>,
    one: TallyPass,
    two: TallyPass,
    three: TallyPass,
    time: Duration,
) -> (TallyPass, bool)
    requires own { one.seat.table_id ≡ lock.now.table.shared.table_id }
    requires outside { IsOutside one.seat }
    requires own_two { two.seat.table_id ≡ lock.now.table.shared.table_id }
    requires outside_two { IsOutside two.seat }
    requires own_three { three.seat.table_id ≡ lock.now.table.shared.table_id }
    requires outside_three { IsOutside three.seat }
    ensures pass { (result.0.seat.table_id ≡ one.seat.table_id) × IsOutside result.0.seat }
{
    let (mut one, (two, all)) = join(
        rt,
        || hold(rt, lock, one, time),
        ||
            requires own_one { two.seat.table_id ≡ lock.now.table.shared.table_id }
            requires outside_one { IsOutside two.seat }
            requires own_two { three.seat.table_id ≡ lock.now.table.shared.table_id }
            requires outside_two { IsOutside three.seat }
        { take_turns_by_two(rt, lock, two, three, 1) },
    );
    lock.join(&mut one, two);
    (one, all)
}

fn tally_of_two<R: Threads + Wait + Clock + Sync>(
    rt: &R,
    alloc: Global,
    time: Duration,
) -> Option<(Tally, bool)> {
    let (lock, mut one) = tally_lock(alloc)?;
    let two = another_pass(rt, &lock, &mut one)?;
    let three = another_pass(rt, &lock, &mut one)?;
    let (one, all) = two_wait_for_one(rt, &lock, one, two, three, time);
    Some((lock.last(rt, one), all))
}

#[test]
fn who_waits_for_a_turn_gets_it(rt: HostRuntime) -> Result<(), Fail> {
    let (tally, all) = tally_of_two(&rt, rt.alloc(), Duration::from_millis(500)).ok_or("no lock")?;
    assert!(rt; all);
    assert!(rt; tally.entries.len() == 2);
    for author in 2..=3 {
        assert!(rt; tally.has_turns_of(author, 1));
    }
    Ok(())
}
