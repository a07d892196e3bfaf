use crate::scripts::{LIMITS, SHORT, begins_with, joined, long_hostname, prints};
use script_run::ScriptEnd;
use std::alloc::Global;
use std::process::Abort;
use std::test::Fail;

/// A trial of the hostname for a minute, from the reading 1000 on.
const BEGUN: &str = "at 1000\nupdate /system/config/hostname \"r1\"\ntrial 1 t 60\n";

const BEGUN_LOG: &str =
    "1 1000 1 trial t 60000001000\n  update /system/config/hostname\n    /system/config/hostname \"r1\"\n";

/// What comes behind that, what is printed behind its `ok`, and what its log goes on with.
const BEHIND: &[(&str, &str, &str)] = &[
    (
        "at 60000000999\nconfirm 1 t\n",
        "ok 60000000999\n",
        "2 60000000999 1 confirm\n",
    ),
    (
        "at 60000001000\nconfirm 1 t\n",
        "refused 11 9\n",
        "2 60000001000 0 expire\n",
    ),
    (
        "at 60000001000\nget 1 /\n",
        "refused 8 5\n",
        "2 60000001000 0 expire\n",
    ),
    (
        "cancel 2 t\nget 1 /\n",
        "ok 1001\nrefused 8 5\n",
        "2 1001 2 cancel\n",
    ),
    (
        "confirm 1 u\ncancel 1 u\nextend 1 u 1\nset 1\ntrial 1 u 1\n",
        "refused 12 3\nrefused 12 3\nrefused 12 3\nrefused 10 9\nrefused 10 9\n",
        "",
    ),
    (
        "at 2000\nextend 1 t 86400\nat 60000001000\nconfirm 1 t\nconfirm 1 t\n",
        "ok 2000\nok 60000001000\nrefused 11 9\n",
        "2 2000 1 extend 86400000002000\n3 60000001000 1 confirm\n",
    ),
    (
        "at 2000\nextend 1 t -\nat 600000002000\ncancel 1 t\n",
        "ok 2000\nrefused 11 9\n",
        "2 2000 1 extend 600000002000\n3 600000002000 0 expire\n",
    ),
    // Operations beside an action that has none, which are spent.
    (
        "update /system/config/hostname \"x\"\nconfirm 1 t\nconfirm 1 t\n",
        "refused 14 3\nok 1001\n",
        "2 1001 1 confirm\n",
    ),
    (
        "confirm 1 \ntrial 1  60\n",
        "refused 15 3\nrefused 15 3\n",
        "",
    ),
];

/// Whether this behind the trial prints this and then this log.
fn trial_prints(rt: &impl Abort, alloc: Global, behind: &str, printed: &str, logged: &str) -> bool {
    let wanted = joined(
        rt,
        alloc,
        &["ok 1000\n", printed, "log\n", BEGUN_LOG, logged],
    );
    begun_prints(rt, alloc, behind, &wanted)
}

fn begun_prints(rt: &impl Abort, alloc: Global, behind: &str, wanted: &str) -> bool {
    let script = joined(rt, alloc, &[BEGUN, behind]);
    prints(
        rt,
        alloc,
        LIMITS,
        script.as_bytes(),
        wanted,
        ScriptEnd::Whole,
    )
}

#[test]
fn a_trial_is_confirmed_or_taken_back(rt: HostRuntime) -> Result<(), Fail> {
    let alloc = rt.alloc();
    for (behind, printed, logged) in BEHIND {
        assert!(rt;
            trial_prints(&rt, alloc, behind, printed, logged),
            "of {behind}"
        );
    }
    Ok(())
}

/// Scripts, and what they print in front of the log.
const ANSWERS: &[(&str, &str)] = &[
    // The tree from before the trial comes back, rows that were deleted too.
    (
        "at 1000\nupdate /system/config {\"hostname\":\"a\",\"motd\":\"m\"}\nupdate /lab/big \"5\"\nset 1\nupdate /system/config {\"hostname\":\"b\",\"motd\":\"n\"}\ndelete /lab\ntrial 1 t 60\ncancel 1 t\nget 1 /\ncancel 1 t\n",
        "ok 1000\nok 1001\nok 1002\nrow /lab/big 5\nrow /system/config/hostname \"a\"\nrow /system/config/motd \"m\"\nstate 1002\nrefused 11 9\nlog\n",
    ),
    (
        "at 1\ntrial 1 t 60\nset 1\ntrial 1 t 60\nconfirm 1 u\nextend 1 t 0\nextend 1 t 86401\ntrial 1 t 86400\n",
        "ok 1\nrefused 10 9\nrefused 10 9\nrefused 12 3\nrefused 13 3\nrefused 13 3\nrefused 10 9\nlog\n",
    ),
    (
        "trial 1 aaaaaaaaaaaaaaaaaaaaaaaaaaaaaaaaaaaaaaaaaaaaaaaaaaaaaaaaaaaaaaaaa 60\n",
        "refused 15 3\nlog\n",
    ),
    (
        "trial 1 aaaaaaaaaaaaaaaaaaaaaaaaaaaaaaaaaaaaaaaaaaaaaaaaaaaaaaaaaaaaaaaa 60\n",
        "ok 1\nlog\n",
    ),
    (
        "confirm 1 t\ncancel 1 t\nextend 1 t 60\n",
        "refused 11 9\nrefused 11 9\nrefused 11 9\nlog\n",
    ),
];

#[test]
fn trials_are_answered(rt: HostRuntime) -> Result<(), Fail> {
    let alloc = rt.alloc();
    for (script, printed) in ANSWERS {
        assert!(rt;
            begins_with(&rt, alloc, LIMITS, script.as_bytes(), printed),
            "of {script}"
        );
    }
    Ok(())
}

/// The octets of a hostname, and what a trial of it prints first.
const ROOM: &[(usize, &str)] = &[(3_944, "ok 1\n"), (3_945, "refused 18 8\n")];

fn long_trial_prints(rt: &impl Abort, alloc: Global, count: usize, printed: &str) -> bool {
    let script = long_hostname(rt, alloc, count, "trial 1 t 60\n", "!");
    begins_with(rt, alloc, SHORT, script.as_bytes(), printed)
}

#[test]
fn a_log_keeps_room_for_the_end_of_a_trial(rt: HostRuntime) -> Result<(), Fail> {
    let alloc = rt.alloc();
    for (count, printed) in ROOM {
        assert!(rt;
            long_trial_prints(&rt, alloc, *count, printed),
            "{count} octets"
        );
    }
    let script = b"set 1\ntrial 1 t 60\nset 1\n";
    let printed = "ok 1\nrefused 18 8\nok 2\nlog\n1 1 1 apply\n2 2 1 apply\n";
    assert!(rt; prints(&rt, alloc, SHORT, script, printed, ScriptEnd::Whole));
    Ok(())
}
