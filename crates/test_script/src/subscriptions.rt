use crate::scripts::{LIMITS, prints};
use script_run::ScriptEnd;
use std::test::Fail;

/// Scripts with subscriptions, and what they print.
const SUBSCRIPTIONS: &[(&str, &str)] = &[
    // Two groups: the changes of one part, and a sample of all else.
    (
        "at 1000\nupdate /system/config/hostname \"a\"\nupdate /interfaces/interface[name=e0]/config/mtu 1500\nset 1\nsub /system change 0\nsub / sample 1000000000 0 0\nopen 2 s stream 0\nupdate /system/config/hostname \"b\"\nset 1\ndelete /interfaces\nset 1\nupdate /system/config/motd \"m\"\nset 1\nat 1000001000\nturn s\nupdate /system/config/hostname \"z\"\ntrial 1 t 60\ncancel 1 t\nturn s\n",
        "ok 1000\nnote 1000\nupdate /interfaces/interface[name=e0]/config/mtu 1500\nupdate /interfaces/interface[name=e0]/name \"e0\"\nupdate /system/config/hostname \"a\"\nsync\nok 1001\nok 1002\nok 1003\nnote 1003\ndelete /interfaces/interface[name=e0]/config/mtu\ndelete /interfaces/interface[name=e0]/name\nupdate /system/config/hostname \"b\"\nupdate /system/config/motd \"m\"\nok 1000001000\nok 1000001001\nquiet\nlog\n1 1000 1 apply\n  update /system/config/hostname\n    /system/config/hostname \"a\"\n  update /interfaces/interface[name=e0]/config/mtu\n    /interfaces/interface[name=e0]/config/mtu 1500\n    /interfaces/interface[name=e0]/name \"e0\"\n2 1001 1 apply\n  update /system/config/hostname\n    /system/config/hostname \"b\"\n3 1002 1 apply\n  delete /interfaces\n4 1003 1 apply\n  update /system/config/motd\n    /system/config/motd \"m\"\n5 1000001000 1 trial t 61000001000\n  update /system/config/hostname\n    /system/config/hostname \"z\"\n6 1000001001 1 cancel\n",
    ),
    // A heartbeat sends what hasn't changed.
    (
        "at 1000\nupdate /system/config/hostname \"a\"\nset 1\nsub /system sample 100000000 500000000 1\nopen 2 s stream 0\nat 100001000\nturn s\nat 500001000\nturn s\n",
        "ok 1000\nnote 1000\nupdate /system/config/hostname \"a\"\nsync\nquiet\nnote 1000\nupdate /system/config/hostname \"a\"\nlog\n1 1000 1 apply\n  update /system/config/hostname\n    /system/config/hostname \"a\"\n",
    ),
    // Calls of mode ONCE have no name, and end with their sync.
    (
        "at 1000\nupdate /system/config/hostname \"a\"\nset 1\nsub /system/config change 0\nopen 3 o once 0\nturn o\nsub /system/config change 0\nopen 3 o once 1\n",
        "ok 1000\nnote 1000\nupdate /system/config/hostname \"a\"\nsync\nend\nno stream\nsync\nend\nlog\n1 1000 1 apply\n  update /system/config/hostname\n    /system/config/hostname \"a\"\n",
    ),
    // Each poll shows the state as it is then.
    (
        "at 1000\nsub /system change 0\nopen 2 p poll 0\nupdate /system/config/hostname \"a\"\nset 1\npoll p\nend p\npoll p\n",
        "opened\nok 1000\nnote 1000\nupdate /system/config/hostname \"a\"\nsync\nended\nno stream\nlog\n1 1000 1 apply\n  update /system/config/hostname\n    /system/config/hostname \"a\"\n",
    ),
    // Names, and what `open` spends where it is refused.
    (
        "sub / change 0\nopen 2 s stream 0\nsub / change 0\nopen 2 s once 0\nopen 2 t stream 0\nturn t\nend s\nturn s\npoll s\nend s\nsub / sample 99999999 0 0\nopen 2 u stream 0\nsub / change 0\nopen 2 s stream 1\n",
        "note 0\nsync\nname taken\nrefused 21 3\nno stream\nended\nno stream\nno stream\nno stream\nrefused 21 3\nsync\nlog\n",
    ),
    // A call of mode POLL takes no turn, and a stream that is polled ends.
    (
        "sub / change 0\nopen 2 p poll 0\nturn p\npoll p\nsub / change 0\nopen 2 s stream 1\npoll s\nturn s\npoll p\n",
        "opened\nrefused 21 3\nnote 0\nsync\nsync\nrefused 21 3\nno stream\nnote 0\nsync\nlog\n",
    ),
    // A look that the disk fails opens nothing, and a turn that it fails is none.
    (
        "at 1000\nupdate /system/config/hostname \"a\"\nfail 2\nset 1\nfail 0\nsub / change 0\nopen 2 s stream 0\nopen 2 s stream 0\nsub / change 0\nopen 2 s stream 0\nupdate /system/config/hostname \"b\"\nset 1\ntrial 1 t 60\nat 60000001001\nfail 0\nturn s\nturn s\n",
        "refused 19 14\nrefused 19 14\nrefused 21 3\nnote 0\nsync\nok 1000\nok 1001\nrefused 19 14\nnote 60000001001\nupdate /system/config/hostname \"b\"\nlog\n1 1000 1 apply\n  update /system/config/hostname\n    /system/config/hostname \"b\"\n2 1001 1 trial t 60000001001\n3 60000001001 0 expire\n",
    ),
    // A stop ends every call, and leaves the subscriptions that wait for one.
    (
        "at 1000\nsub / change 0\nopen 2 s stream 0\nsub / change 0\nstop 0 old\nset 1\nturn s\nopen 2 s stream 0\nend s\n",
        "note 0\nsync\nstopped\nreopened 0\nno stream\nnote 0\nsync\nended\nlog\n",
    ),
    // But one in `open` spends them.
    (
        "at 1000\ntrial 1 t 60\nat 60000001000\nsub / change 0\nstop 1 new\nopen 2 s stream 0\nturn s\nopen 2 s stream 0\n",
        "ok 1000\nstopped\nreopened 2\nno stream\nrefused 21 3\nlog\n1 1000 1 trial t 60000001000\n2 60000001000 0 restart\n",
    ),
];

#[test]
fn streams_send_what_is_due_of_one_history(rt: HostRuntime) -> Result<(), Fail> {
    let alloc = rt.alloc();
    for (script, printed) in SUBSCRIPTIONS {
        assert!(rt;
            prints(
                &rt,
                alloc,
                LIMITS,
                script.as_bytes(),
                printed,
                ScriptEnd::Whole
            ),
            "of {script}"
        );
    }
    Ok(())
}
