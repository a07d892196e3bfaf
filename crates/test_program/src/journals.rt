use crate::host::{End, Given, NOTHING, run_with};
use base_lists::Bytes;
use disk_model::read_whole;
use memory_disks::{FuseDisk, NO_STOP};
use std::alloc::Global;
use std::process::Abort;
use std::sync::Wait;
use std::thread::Threads;

/// A disk with these octets, which stops after so many calls.
fn on_disk<'a>(journal: &'a [u8], passes: u64) -> Given<'a> {
    Given {
        journal,
        passes,
        ..NOTHING
    }
}

/// What a disk holds, and no octets where there is none.
pub(crate) fn held<A: Abort>(rt: &A, alloc: Global, disk: Option<FuseDisk>) -> Bytes {
    match disk {
        Some(mut disk) => {
            let read = read_whole(alloc, &mut disk);
            drop(disk);
            read.expect(rt, "a disk that doesn't fail")
        }
        None => Bytes::empty(alloc),
    }
}

/// The journal of a first Set of `/system/config/hostname` to "r1".
const JOURNAL: &[u8] =
    b"GNMIJRN1\0\x01\0\0\x10\0\0\0\xA5\0\0\0\x01\0\0\0\0\0\0\x03\xE8\x01\0\0\0\x01\x03\0\x03\0\0\0\x06system\0\0\0\0\0\x06config\0\0\0\0\0\x08hostname\0\0\0\0\0\x01\0\x03\0\0\0\x06system\0\0\0\0\0\x06config\0\0\0\0\0\x08hostname\0\0\x05\0\0\0\x02r1\0";

const LOG: &str =
    "1 1000 1 apply\n  update /system/config/hostname\n    /system/config/hostname \"r1\"\n";

/// What `init` makes, by its words.
const MADE: &[(&str, &[u8])] = &[
    ("init J", b"GNMIJRN1\0\x01\0\0\x10\0\0\0\0"),
    ("init J 2 4096", b"GNMIJRN1\0\0\0\x02\0\0\x10\0\0"),
];

/// Whether a run with these words over these octets, whose disk stops after so many calls, prints this, ends so, and leaves
/// these octets on the disk.
fn leaves(
    rt: &(impl Abort + Threads + Wait + Copy + Drop + Send + Sync + 'static),
    alloc: Global,
    words: &str,
    octets: &[u8],
    passes: u64,
    printed: &str,
    status: u8,
    left: &[u8],
) -> bool {
    let end = run_with(rt, alloc, words, &on_disk(octets, passes));
    let is_printed = end.output.octets() == printed.as_bytes() && end.status == status;
    let held = held(rt, alloc, end.disk);
    is_printed && held.items() == left
}

#[test]
fn a_journal_is_made_on_an_empty_disk(rt: HostRuntime) {
    let alloc = rt.alloc();
    for (words, made) in MADE {
        assert!(rt;
            leaves(&rt, alloc, words, b"", NO_STOP, "journal ready\n", 0, made),
            "{words}"
        );
    }
    let printed = "journal not empty\n";
    assert!(rt; leaves(&rt, alloc, "init J", b"\0", NO_STOP, printed, 4, b"\0"));
}

/// Whether a run with these words over these octets, whose disk stops after so many calls, ends with a fault of the disk, which
/// is given or not.
fn ends_with_5(
    rt: &(impl Abort + Threads + Wait + Copy + Drop + Send + Sync + 'static),
    alloc: Global,
    words: &str,
    octets: &[u8],
    passes: u64,
    given: bool,
) -> bool {
    let end = run_with(rt, alloc, words, &on_disk(octets, passes));
    let is_told = end.output.octets() == b"disk fault\n".as_slice()
        && end.status == 5
        && end.disk.is_some() == given;
    drop(end);
    is_told
}

#[test]
fn a_disk_that_fails_ends_with_5(rt: HostRuntime) {
    let alloc = rt.alloc();
    // A length, a write and a sync; a sync, a length and a read.
    for passes in 0..3u64 {
        assert!(rt;
            ends_with_5(&rt, alloc, "init J", b"", passes, true),
            "init, call {passes}"
        );
        assert!(rt;
            ends_with_5(&rt, alloc, "log J", JOURNAL, passes, true),
            "log, call {passes}"
        );
    }
    assert!(rt; ends_with_5(&rt, alloc, "init K", b"", NO_STOP, false));
    assert!(rt; ends_with_5(&rt, alloc, "log K", b"", NO_STOP, false));
}

/// The octet at a place changed to another one, how many octets stand, what is printed, and the status.
const DISKS: &[(usize, u8, usize, &str, u8)] = &[
    (0, b'G', 127, LOG, 0),
    (0, b'G', 126, "journal damaged at 126\n", 4),
    (0, b'G', 100, "journal damaged at 16\n", 4),
    (0, 0, 127, "journal damaged at 0\n", 4),
    (126, 0x7F, 127, LOG, 0),
    (16, 0x7F, 127, "", 0),
    (0, b'G', 0, "journal damaged at 0\n", 4),
];

/// The journal with this octet at this place, cut to this length.
fn changed(rt: &impl Abort, alloc: Global, place: usize, octet: u8, length: usize) -> Vec<u8> {
    let mut octets = JOURNAL.to_vec(alloc).expect(rt, "memory");
    if let Some(changed) = octets.get_mut(place) {
        *changed = octet;
    }
    octets.truncate(length);
    octets
}

/// Whether the log of the journal that is changed so prints this and ends so, and the disk stays as it is.
fn is_logged(
    rt: &(impl Abort + Threads + Wait + Copy + Drop + Send + Sync + 'static),
    alloc: Global,
    row: &(usize, u8, usize, &str, u8),
) -> bool {
    let (place, octet, length, printed, status) = *row;
    let octets = changed(rt, alloc, place, octet, length);
    leaves(
        rt, alloc, "log J", &octets, NO_STOP, printed, status, &octets,
    )
}

#[test]
fn the_log_of_a_journal_is_printed(rt: HostRuntime) {
    let alloc = rt.alloc();
    for row in DISKS {
        assert!(rt; is_logged(&rt, alloc, row), "{} {}", row.0, row.2);
    }
}
