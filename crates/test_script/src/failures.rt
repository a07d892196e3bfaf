use crate::scripts::{LIMITS, joined, prints};
use script_run::ScriptEnd;
use std::alloc::Global;
use std::process::Abort;
use std::test::Fail;

/// A script in which the line `fail K` stands for each K from the first to the last one, and what it prints.
type Row = (&'static str, &'static str, u64, u64, &'static str);

/// Whether the script prints it that has this number of calls between its two parts, and each of its lines is taken.
fn row_prints(rt: &impl Abort, alloc: Global, row: &Row, calls: &'static str) -> bool {
    let (before, after, _, _, printed) = *row;
    let script = joined(rt, alloc, &[before, "fail ", calls, after]);
    prints(
        rt,
        alloc,
        LIMITS,
        script.as_bytes(),
        printed,
        ScriptEnd::Whole,
    )
}

fn assert_each(rt: &impl Abort, alloc: Global, rows: &[Row]) {
    for row in rows {
        for (number, calls) in CALLS {
            if row.2 <= *number && *number <= row.3 {
                assert!(rt; row_prints(rt, alloc, row, calls), "fail {calls}");
            }
        }
    }
}

/// Numbers and their texts.
const CALLS: &[(u64, &str)] = &[
    (0, "0"),
    (1, "1"),
    (2, "2"),
    (3, "3"),
    (4, "4"),
    (5, "5"),
    (6, "6"),
    (7, "7"),
    (8, "8"),
    (9, "9"),
    (10, "10"),
    (11, "11"),
    (12, "12"),
];

const THREE_SETS: &str =
    "\nupdate /system/config/hostname \"a\"\nset 1\nupdate /system/config/motd \"b\"\nset 2\nupdate /lab/big \"5\"\nset 3\nget 1 /\n";

/// The four calls of each of three appends.
const SETS: &[Row] = &[
    (
        "at 1000\n",
        THREE_SETS,
        0,
        3,
        "refused 19 14\nok 1000\nok 1001\nrow /lab/big 5\nrow /system/config/motd \"b\"\nstate 1001\nlog\n1 1000 2 apply\n  update /system/config/motd\n    /system/config/motd \"b\"\n2 1001 3 apply\n  update /lab/big\n    /lab/big 5\n",
    ),
    (
        "at 1000\n",
        THREE_SETS,
        4,
        7,
        "ok 1000\nrefused 19 14\nok 1001\nrow /lab/big 5\nrow /system/config/hostname \"a\"\nstate 1001\nlog\n1 1000 1 apply\n  update /system/config/hostname\n    /system/config/hostname \"a\"\n2 1001 3 apply\n  update /lab/big\n    /lab/big 5\n",
    ),
    (
        "at 1000\n",
        THREE_SETS,
        8,
        11,
        "ok 1000\nok 1001\nrefused 19 14\nrow /system/config/hostname \"a\"\nrow /system/config/motd \"b\"\nstate 1001\nlog\n1 1000 1 apply\n  update /system/config/hostname\n    /system/config/hostname \"a\"\n2 1001 2 apply\n  update /system/config/motd\n    /system/config/motd \"b\"\n",
    ),
];

#[test]
fn the_append_of_a_set_fails_in_each_of_its_calls(rt: HostRuntime) -> Result<(), Fail> {
    assert_each(&rt, rt.alloc(), SETS);
    Ok(())
}

const DUE: &str =
    "at 1000\nupdate /system/config/hostname \"a\"\ntrial 1 t 60\nat 60000001000\nupdate /system/config/motd \"b\"\n";

/// A Set behind a trial that is due: the four calls of the clock's entry, and then the four of the Set's.
const DUE_TRIALS: &[Row] = &[
    (
        DUE,
        "\nset 1\n",
        0,
        3,
        "ok 1000\nrefused 19 14\nlog\n1 1000 1 trial t 60000001000\n  update /system/config/hostname\n    /system/config/hostname \"a\"\n",
    ),
    (
        DUE,
        "\nset 1\n",
        4,
        7,
        "ok 1000\nrefused 19 14\nlog\n1 1000 1 trial t 60000001000\n  update /system/config/hostname\n    /system/config/hostname \"a\"\n2 60000001000 0 expire\n",
    ),
    (
        DUE,
        "\nset 1\n",
        8,
        11,
        "ok 1000\nok 60000001001\nlog\n1 1000 1 trial t 60000001000\n  update /system/config/hostname\n    /system/config/hostname \"a\"\n2 60000001000 0 expire\n3 60000001001 1 apply\n  update /system/config/motd\n    /system/config/motd \"b\"\n",
    ),
    // What was in doubt is settled before the next read, and then the trial expires.
    (
        DUE,
        "\nset 1\nget 1 /\n",
        0,
        7,
        "ok 1000\nrefused 19 14\nrefused 8 5\nlog\n1 1000 1 trial t 60000001000\n  update /system/config/hostname\n    /system/config/hostname \"a\"\n2 60000001000 0 expire\n",
    ),
    // A read makes the clock's entry too.
    (
        DUE,
        "\nget 1 /\nget 1 /\n",
        0,
        3,
        "ok 1000\nrefused 19 14\nrefused 8 5\nlog\n1 1000 1 trial t 60000001000\n  update /system/config/hostname\n    /system/config/hostname \"a\"\n2 60000001000 0 expire\n",
    ),
];

#[test]
fn the_entry_of_the_clock_fails_in_each_of_its_calls(rt: HostRuntime) -> Result<(), Fail> {
    assert_each(&rt, rt.alloc(), DUE_TRIALS);
    Ok(())
}

const DOUBT: &str = "at 1000\nupdate /system/config/hostname \"a\"\nfail 2\nset 1\n";

/// A Set while an append is in doubt: the two calls of the repair, and then the four of the Set's.
const DOUBTS: &[Row] = &[
    (
        DOUBT,
        "\nset 2\nset 3\n",
        0,
        5,
        "refused 19 14\nrefused 19 14\nok 1000\nlog\n1 1000 3 apply\n",
    ),
    (
        DOUBT,
        "\nset 2\nset 3\n",
        6,
        9,
        "refused 19 14\nok 1000\nrefused 19 14\nlog\n1 1000 2 apply\n",
    ),
    (
        DOUBT,
        "\nset 2\nset 3\n",
        10,
        11,
        "refused 19 14\nok 1000\nok 1001\nlog\n1 1000 2 apply\n2 1001 3 apply\n",
    ),
    // The repair of a read, which makes no calls of its own.
    (
        DOUBT,
        "\nget 1 /\nget 1 /\n",
        0,
        1,
        "refused 19 14\nrefused 19 14\nrefused 8 5\nlog\n",
    ),
    (
        DOUBT,
        "\nget 1 /\nget 1 /\n",
        2,
        11,
        "refused 19 14\nrefused 8 5\nrefused 8 5\nlog\n",
    ),
    // A request that is refused by itself settles nothing.
    (
        DOUBT,
        "\nupdate /nope 1\nset 2\nget 1 /a/a/a/a/a/a/a/a/a/a/a/a/a/a/a/a/a/a/a/a/a/a/a/a/a/a/a/a/a/a/a/a/a\nset 3\n",
        0,
        1,
        "refused 19 14\nrefused 6 3\nrefused 5 3\nrefused 19 14\nlog\n",
    ),
];

#[test]
fn a_doubt_is_settled_first_in_two_calls(rt: HostRuntime) -> Result<(), Fail> {
    assert_each(&rt, rt.alloc(), DOUBTS);
    Ok(())
}

/// A second line waits until the first has hit, and counts from the next call.
const WAITING: &[Row] = &[
    (
        "at 1000\nfail 2\n",
        "\nset 1\nset 2\nset 3\n",
        0,
        5,
        "refused 19 14\nrefused 19 14\nok 1000\nlog\n1 1000 3 apply\n",
    ),
    (
        "at 1000\nfail 1\n",
        "\nset 1\nset 2\nset 3\n",
        0,
        3,
        "refused 19 14\nrefused 19 14\nok 1000\nlog\n1 1000 3 apply\n",
    ),
    (
        "at 1000\nfail 1\n",
        "\nset 1\nset 2\nset 3\n",
        4,
        7,
        "refused 19 14\nok 1000\nrefused 19 14\nlog\n1 1000 2 apply\n",
    ),
];

#[test]
fn a_second_failure_waits_for_the_first(rt: HostRuntime) -> Result<(), Fail> {
    assert_each(&rt, rt.alloc(), WAITING);
    Ok(())
}

#[test]
fn a_failed_set_leaves_room_for_the_next(rt: HostRuntime) -> Result<(), Fail> {
    let alloc = rt.alloc();
    let script =
        "at 1000\nupdate /system/config/hostname \"a\"\nfail 2\nset 1\nupdate /system/config/hostname \"b\"\nset 1\n";
    let printed =
        "refused 19 14\nok 1000\nlog\n1 1000 1 apply\n  update /system/config/hostname\n    /system/config/hostname \"b\"\n";
    assert!(rt;
        prints(
            &rt,
            alloc,
            LIMITS,
            script.as_bytes(),
            printed,
            ScriptEnd::Whole
        )
    );
    Ok(())
}
