use crate::scripts::{LIMITS, joined, prints};
use script_run::ScriptEnd;
use std::alloc::Global;
use std::process::Abort;
use std::test::Fail;

/// What comes of a stop: none, one that leaves the history without the attempt or with it, or one in a call for a gate that is
/// opened or closed, which leaves the attempt by the fill.
#[derive(Clone, Copy)]
enum Stop {
    None,
    Without,
    With,
    Opening,
    Closing,
}

/// A fill, and whether a stop with it in a call for the gate leaves that open: one that is opened, and one that is closed.
struct Filling {
    fill: &'static str,
    opens: bool,
    stays_open: bool,
}

const FILLS: &[Filling] = &[
    Filling {
        fill: "old",
        opens: false,
        stays_open: false,
    },
    Filling {
        fill: "new",
        opens: true,
        stays_open: false,
    },
    Filling {
        fill: "0",
        opens: false,
        stays_open: false,
    },
    Filling {
        fill: "127",
        opens: false,
        stays_open: false,
    },
    Filling {
        fill: "165",
        opens: true,
        stays_open: true,
    },
];

/// A script in which the line `stop K F` stands for each of these K and each fill, and what is printed where nothing stops, and
/// behind a stop without the attempt and with it.
struct Row {
    before: &'static str,
    after: &'static str,
    calls: &'static [(&'static str, Stop)],
    none: &'static str,
    without: &'static str,
    with: &'static str,
}

impl Row {
    fn by(&self, stands: bool) -> &'static str {
        if stands { self.with } else { self.without }
    }

    /// What is printed where this comes of a stop with this fill.
    fn printed(&self, stop: Stop, filling: &Filling) -> &'static str {
        match stop {
            Stop::None => self.none,
            Stop::Without => self.without,
            Stop::With => self.with,
            Stop::Opening => self.by(filling.opens),
            Stop::Closing => self.by(filling.stays_open),
        }
    }
}

/// Whether the script of this row with this line between its two parts prints this, and each of its lines is taken.
fn row_prints(
    rt: &impl Abort,
    alloc: Global,
    row: &Row,
    calls: &'static str,
    fill: &'static str,
    printed: &'static str,
) -> bool {
    let script = joined(
        rt,
        alloc,
        &[row.before, "stop ", calls, " ", fill, row.after],
    );
    prints(
        rt,
        alloc,
        LIMITS,
        script.as_bytes(),
        printed,
        ScriptEnd::Whole,
    )
}

fn assert_row(rt: &impl Abort, alloc: Global, row: &Row) {
    for (calls, stop) in row.calls {
        for filling in FILLS {
            let printed = row.printed(*stop, filling);
            assert!(rt;
                row_prints(rt, alloc, row, calls, filling.fill, printed),
                "stop {calls}"
            );
        }
    }
}

/// The four calls of an append, and calls behind it.
const ONE_APPEND: &[(&str, Stop)] = &[
    ("0", Stop::Without),
    ("1", Stop::Without),
    ("2", Stop::Opening),
    ("3", Stop::Opening),
    ("4", Stop::None),
    ("5", Stop::None),
    ("6", Stop::None),
    ("7", Stop::None),
    ("8", Stop::None),
    ("9", Stop::None),
    ("10", Stop::None),
    ("11", Stop::None),
];

const SET: Row = Row {
    before: "at 1000\nupdate /system/config/hostname \"r1\"\n",
    after: "\nset 1\nget 1 /system\n",
    calls: ONE_APPEND,
    none: "ok 1000\nrow /system/config/hostname \"r1\"\nstate 1000\nlog\n1 1000 1 apply\n  update /system/config/hostname\n    /system/config/hostname \"r1\"\n",
    without: "stopped\nreopened 0\nrefused 8 5\nlog\n",
    with: "stopped\nreopened 1\nrow /system/config/hostname \"r1\"\nstate 1000\nlog\n1 1000 1 apply\n  update /system/config/hostname\n    /system/config/hostname \"r1\"\n",
};

#[test]
fn a_stop_in_any_call_of_a_set_leaves_it_whole_or_not_at_all(rt: HostRuntime) -> Result<(), Fail> {
    assert_row(&rt, rt.alloc(), &SET);
    Ok(())
}

const TRIAL: Row = Row {
    before: "at 1000\nupdate /system/config/hostname \"r1\"\n",
    after: "\ntrial 1 t 60\nget 1 /system\n",
    calls: ONE_APPEND,
    none: "ok 1000\nrow /system/config/hostname \"r1\"\nstate 1000\nlog\n1 1000 1 trial t 60000001000\n  update /system/config/hostname\n    /system/config/hostname \"r1\"\n",
    without: "stopped\nreopened 0\nrefused 8 5\nlog\n",
    with: "stopped\nreopened 2\nrefused 8 5\nlog\n1 1000 1 trial t 60000001000\n  update /system/config/hostname\n    /system/config/hostname \"r1\"\n2 1001 0 restart\n",
};

/// The end of a trial: it stays where its confirm stands, and else it is taken back.
const CONFIRM: Row = Row {
    before: "at 1000\nupdate /system/config/hostname \"r1\"\ntrial 1 t 60\n",
    after: "\nconfirm 1 t\nget 1 /system\n",
    calls: ONE_APPEND,
    none: "ok 1000\nok 1001\nrow /system/config/hostname \"r1\"\nstate 1001\nlog\n1 1000 1 trial t 60000001000\n  update /system/config/hostname\n    /system/config/hostname \"r1\"\n2 1001 1 confirm\n",
    without: "ok 1000\nstopped\nreopened 2\nrefused 8 5\nlog\n1 1000 1 trial t 60000001000\n  update /system/config/hostname\n    /system/config/hostname \"r1\"\n2 1001 0 restart\n",
    with: "ok 1000\nstopped\nreopened 2\nrow /system/config/hostname \"r1\"\nstate 1001\nlog\n1 1000 1 trial t 60000001000\n  update /system/config/hostname\n    /system/config/hostname \"r1\"\n2 1001 1 confirm\n",
};

#[test]
fn no_open_trial_outlives_a_stop(rt: HostRuntime) -> Result<(), Fail> {
    assert_row(&rt, rt.alloc(), &TRIAL);
    assert_row(&rt, rt.alloc(), &CONFIRM);
    Ok(())
}

/// An opening that ends a trial: its three calls that read the journal, and the four for the entry. Both histories that a stop
/// may leave are gone on from as one.
const OPENING: Row = Row {
    before: "at 1000\nupdate /system/config/hostname \"r1\"\ntrial 1 t 60\nstop 0 0\n",
    after: "\nconfirm 1 t\nget 1 /system\n",
    calls: &[
        ("0", Stop::With),
        ("1", Stop::With),
        ("2", Stop::With),
        ("3", Stop::With),
        ("4", Stop::With),
        ("5", Stop::With),
        ("6", Stop::With),
        ("7", Stop::Without),
        ("8", Stop::Without),
        ("9", Stop::Without),
        ("10", Stop::Without),
        ("11", Stop::Without),
    ],
    none: "",
    without: "ok 1000\nstopped\nreopened 2\nrefused 8 5\nlog\n1 1000 1 trial t 60000001000\n  update /system/config/hostname\n    /system/config/hostname \"r1\"\n2 1001 0 restart\n",
    with: "ok 1000\nstopped\nstopped\nreopened 2\nrefused 8 5\nlog\n1 1000 1 trial t 60000001000\n  update /system/config/hostname\n    /system/config/hostname \"r1\"\n2 1001 0 restart\n",
};

#[test]
fn an_opening_that_stops_is_made_again(rt: HostRuntime) -> Result<(), Fail> {
    assert_row(&rt, rt.alloc(), &OPENING);
    Ok(())
}

const DOUBT: &str = "at 1000\nupdate /system/config/hostname \"a\"\nfail 2\nset 1\n";

/// An append that failed at its gate: the two calls of the repair, in which the attempt in doubt may still come to stand.
const REPAIR: Row = Row {
    before: DOUBT,
    after: "\nset 2\nget 1 /\n",
    calls: &[("0", Stop::Closing), ("1", Stop::Closing)],
    none: "",
    without: "refused 19 14\nstopped\nreopened 0\nrefused 8 5\nlog\n",
    with: "refused 19 14\nstopped\nreopened 1\nrow /system/config/hostname \"a\"\nstate 1000\nlog\n1 1000 1 apply\n  update /system/config/hostname\n    /system/config/hostname \"a\"\n",
};

/// And the next append behind the repair, after which only its own entry may stand.
const NEXT_APPEND: Row = Row {
    before: DOUBT,
    after: "\nset 2\nget 1 /\n",
    calls: &[
        ("2", Stop::Without),
        ("3", Stop::Without),
        ("4", Stop::Opening),
        ("5", Stop::Opening),
        ("6", Stop::None),
        ("7", Stop::None),
        ("8", Stop::None),
        ("9", Stop::None),
        ("10", Stop::None),
        ("11", Stop::None),
    ],
    none: "refused 19 14\nok 1000\nrefused 8 5\nlog\n1 1000 2 apply\n",
    without: "refused 19 14\nstopped\nreopened 0\nrefused 8 5\nlog\n",
    with: "refused 19 14\nstopped\nreopened 1\nrefused 8 5\nlog\n1 1000 2 apply\n",
};

#[test]
fn a_stop_leaves_an_attempt_in_doubt_until_its_repair(rt: HostRuntime) -> Result<(), Fail> {
    assert_row(&rt, rt.alloc(), &REPAIR);
    assert_row(&rt, rt.alloc(), &NEXT_APPEND);
    Ok(())
}

/// A repair that fails, and the one that is stopped behind it.
const FAILED_REPAIR: Row = Row {
    before: "at 1000\nupdate /system/config/hostname \"a\"\nfail 3\nset 1\nfail 1\nget 1 /\n",
    after: "\nget 1 /\nget 1 /\n",
    calls: &[
        ("0", Stop::Closing),
        ("1", Stop::Closing),
        ("2", Stop::None),
        ("3", Stop::None),
    ],
    none: "refused 19 14\nrefused 19 14\nrefused 8 5\nrefused 8 5\nlog\n",
    without: "refused 19 14\nrefused 19 14\nstopped\nreopened 0\nrefused 8 5\nlog\n",
    with: "refused 19 14\nrefused 19 14\nstopped\nreopened 1\nrow /system/config/hostname \"a\"\nstate 1000\nlog\n1 1000 1 apply\n  update /system/config/hostname\n    /system/config/hostname \"a\"\n",
};

#[test]
fn a_doubt_outlives_a_repair_that_fails(rt: HostRuntime) -> Result<(), Fail> {
    assert_row(&rt, rt.alloc(), &FAILED_REPAIR);
    Ok(())
}

/// A script whose failures hit the gate of an append, the repair behind that, and the gate of the next append.
const FAILING_BEFORE: &str = "at 1000\nupdate /system/config/hostname \"a\"\n";

const FAILING_AFTER: &str =
    "\nfail 2\nfail 0\nfail 4\nset 1\nset 2\nupdate /system/config/hostname \"b\"\nset 3\nupdate /system/config/hostname \"c\"\nset 4\nget 1 /system\n";

/// What comes of a stop in that script, how the script ends, and what is printed where the attempt doesn't stand and where it does.
struct Failing {
    calls: &'static str,
    stop: Stop,
    ending: ScriptEnd,
    without: &'static str,
    with: &'static str,
}

/// Failures that still wait when the disk stops hit the three calls of the opening, which ends the script, or the calls behind it.
/// Whatever stands, no entry was answered with `ok` before.
const FAILING: &[Failing] = &[
    Failing {
        calls: "0",
        stop: Stop::Without,
        ending: ScriptEnd::DiskFault,
        without: "stopped\ndisk fault\n",
        with: "",
    },
    Failing {
        calls: "1",
        stop: Stop::Without,
        ending: ScriptEnd::DiskFault,
        without: "stopped\ndisk fault\n",
        with: "",
    },
    Failing {
        calls: "2",
        stop: Stop::Without,
        ending: ScriptEnd::DiskFault,
        without: "stopped\ndisk fault\n",
        with: "",
    },
    Failing {
        calls: "3",
        stop: Stop::Closing,
        ending: ScriptEnd::Whole,
        without: "refused 19 14\nstopped\nreopened 0\nrefused 19 14\nok 1000\nrow /system/config/hostname \"c\"\nstate 1000\nlog\n1 1000 4 apply\n  update /system/config/hostname\n    /system/config/hostname \"c\"\n",
        with: "refused 19 14\nstopped\nreopened 1\nrefused 19 14\nok 1001\nrow /system/config/hostname \"c\"\nstate 1001\nlog\n1 1000 1 apply\n  update /system/config/hostname\n    /system/config/hostname \"a\"\n2 1001 4 apply\n  update /system/config/hostname\n    /system/config/hostname \"c\"\n",
    },
    Failing {
        calls: "4",
        stop: Stop::Closing,
        ending: ScriptEnd::Whole,
        without: "refused 19 14\nrefused 19 14\nstopped\nreopened 0\nrefused 19 14\nrefused 8 5\nlog\n",
        with: "refused 19 14\nrefused 19 14\nstopped\nreopened 1\nrefused 19 14\nrow /system/config/hostname \"a\"\nstate 1000\nlog\n1 1000 1 apply\n  update /system/config/hostname\n    /system/config/hostname \"a\"\n",
    },
    Failing {
        calls: "5",
        stop: Stop::Without,
        ending: ScriptEnd::DiskFault,
        without: "refused 19 14\nrefused 19 14\nstopped\ndisk fault\n",
        with: "",
    },
    Failing {
        calls: "6",
        stop: Stop::Without,
        ending: ScriptEnd::DiskFault,
        without: "refused 19 14\nrefused 19 14\nstopped\ndisk fault\n",
        with: "",
    },
    Failing {
        calls: "7",
        stop: Stop::Without,
        ending: ScriptEnd::DiskFault,
        without: "refused 19 14\nrefused 19 14\nstopped\ndisk fault\n",
        with: "",
    },
    Failing {
        calls: "8",
        stop: Stop::Opening,
        ending: ScriptEnd::Whole,
        without: "refused 19 14\nrefused 19 14\nstopped\nreopened 0\nok 1000\nrow /system/config/hostname \"c\"\nstate 1000\nlog\n1 1000 4 apply\n  update /system/config/hostname\n    /system/config/hostname \"c\"\n",
        with: "refused 19 14\nrefused 19 14\nstopped\nreopened 1\nok 1001\nrow /system/config/hostname \"c\"\nstate 1001\nlog\n1 1000 3 apply\n  update /system/config/hostname\n    /system/config/hostname \"b\"\n2 1001 4 apply\n  update /system/config/hostname\n    /system/config/hostname \"c\"\n",
    },
    Failing {
        calls: "9",
        stop: Stop::Closing,
        ending: ScriptEnd::Whole,
        without: "refused 19 14\nrefused 19 14\nrefused 19 14\nstopped\nreopened 0\nrefused 8 5\nlog\n",
        with: "refused 19 14\nrefused 19 14\nrefused 19 14\nstopped\nreopened 1\nrow /system/config/hostname \"b\"\nstate 1000\nlog\n1 1000 3 apply\n  update /system/config/hostname\n    /system/config/hostname \"b\"\n",
    },
    Failing {
        calls: "10",
        stop: Stop::Closing,
        ending: ScriptEnd::Whole,
        without: "refused 19 14\nrefused 19 14\nrefused 19 14\nstopped\nreopened 0\nrefused 8 5\nlog\n",
        with: "refused 19 14\nrefused 19 14\nrefused 19 14\nstopped\nreopened 1\nrow /system/config/hostname \"b\"\nstate 1000\nlog\n1 1000 3 apply\n  update /system/config/hostname\n    /system/config/hostname \"b\"\n",
    },
    Failing {
        calls: "11",
        stop: Stop::Without,
        ending: ScriptEnd::Whole,
        without: "refused 19 14\nrefused 19 14\nrefused 19 14\nstopped\nreopened 0\nrefused 8 5\nlog\n",
        with: "",
    },
];

impl Failing {
    fn by(&self, stands: bool) -> &'static str {
        if stands { self.with } else { self.without }
    }

    /// What is printed where the disk stops with this fill.
    fn printed(&self, filling: &Filling) -> &'static str {
        match self.stop {
            Stop::None | Stop::Without => self.without,
            Stop::With => self.with,
            Stop::Opening => self.by(filling.opens),
            Stop::Closing => self.by(filling.stays_open),
        }
    }
}

/// Whether that script prints this with a stop of this fill, and ends so.
fn failing_prints(
    rt: &impl Abort,
    alloc: Global,
    row: &Failing,
    fill: &'static str,
    printed: &'static str,
) -> bool {
    let script = joined(
        rt,
        alloc,
        &[FAILING_BEFORE, "stop ", row.calls, " ", fill, FAILING_AFTER],
    );
    prints(rt, alloc, LIMITS, script.as_bytes(), printed, row.ending)
}

#[test]
fn a_stop_falls_on_a_failed_gate_its_repair_and_the_next_append(
    rt: HostRuntime,
) -> Result<(), Fail> {
    let alloc = rt.alloc();
    for row in FAILING {
        let calls = row.calls;
        for filling in FILLS {
            let printed = row.printed(filling);
            assert!(rt;
                failing_prints(&rt, alloc, row, filling.fill, printed),
                "stop {calls}"
            );
        }
    }
    Ok(())
}

/// Scripts, what they print, and whether each of their lines is taken: else a call of the disk fails in an opening.
const WAITING: &[(&str, &str, bool)] = &[
    // A failure that falls on the call of a stop is spent with it.
    (
        "stop 0 old\nfail 0\nset 1\nset 1\n",
        "stopped\nreopened 0\nok 1\nlog\n1 1 1 apply\n",
        true,
    ),
    // The three calls of an opening.
    (
        "stop 0 old\nfail 1\nset 1\nset 1\n",
        "stopped\ndisk fault\n",
        false,
    ),
    (
        "stop 0 old\nfail 2\nset 1\nset 1\n",
        "stopped\ndisk fault\n",
        false,
    ),
    (
        "stop 0 old\nfail 3\nset 1\nset 1\n",
        "stopped\ndisk fault\n",
        false,
    ),
    // A failure counts on through it.
    (
        "stop 0 old\nfail 4\nset 1\nset 1\nset 1\n",
        "stopped\nreopened 0\nrefused 19 14\nok 1\nlog\n1 1 1 apply\n",
        true,
    ),
    // A second stop waits for the first, and counts from the first call of the opening.
    (
        "stop 0 old\nstop 0 old\nstop 2 old\nset 1\nset 1\n",
        "stopped\nstopped\nstopped\nreopened 0\nok 1\nlog\n1 1 1 apply\n",
        true,
    ),
    (
        "stop 0 old\nstop 3 old\nset 1\nset 1\nset 1\n",
        "stopped\nreopened 0\nstopped\nreopened 0\nok 1\nlog\n1 1 1 apply\n",
        true,
    ),
    // A stop in a read, where a trial is due: it spends no pending request.
    (
        "at 1000\ntrial 1 t 60\nupdate /system/config/hostname \"a\"\nat 60000001000\nstop 0 new\nget 1 /\nset 1\n",
        "ok 1000\nstopped\nreopened 2\nok 60000001001\nlog\n1 1000 1 trial t 60000001000\n2 60000001000 0 restart\n3 60000001001 1 apply\n  update /system/config/hostname\n    /system/config/hostname \"a\"\n",
        true,
    ),
    // And one in a Set spends it.
    (
        "at 1000\nupdate /system/config/hostname \"a\"\nstop 0 new\nset 1\nset 1\n",
        "stopped\nreopened 0\nok 1000\nlog\n1 1000 1 apply\n",
        true,
    ),
    // A request that is refused by itself calls nothing of the disk.
    (
        "stop 0 new\nupdate /nope 1\nset 1\nset 1\n",
        "refused 6 3\nstopped\nreopened 0\nlog\n",
        true,
    ),
];

#[test]
fn stops_and_failures_wait_for_their_calls(rt: HostRuntime) -> Result<(), Fail> {
    let alloc = rt.alloc();
    for (script, printed, whole) in WAITING {
        let ending = if *whole {
            ScriptEnd::Whole
        } else {
            ScriptEnd::DiskFault
        };
        assert!(rt;
            prints(&rt, alloc, LIMITS, script.as_bytes(), printed, ending),
            "of {script}"
        );
    }
    Ok(())
}
