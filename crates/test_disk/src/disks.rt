//! Disks in memory: what a stop leaves, in which calls a disk fails and stops, what is read.
use base_kinds::Fill;
use base_lists::NoMemory;
use disk_model::{Armed, Disk, put_synced, read_part, read_whole};
use environment::{Failed, ReadFault};
use memory_disks::{FuseDisk, MemDisk, NO_STOP};
use std::alloc::Global;

/// What stands for the octet of the fill in a table.
const FILLED: u8 = 255;

/// For the calls of `make_calls` over the octets 1, 2, 3, 4, and a stop in the call of this number: what it leaves
/// where it fills in the old octets, the new ones, and one octet.
const IMAGES: &[(u64, &[u8], &[u8], &[u8])] = &[
    (0, &[1, 2, 3, 4], &[1, 5, 6, 4], &[1, 255, 255, 4]),
    (1, &[1, 2, 3, 4], &[1, 5, 6, 4], &[1, 255, 255, 4]),
    (
        2,
        &[1, 5, 6, 4],
        &[1, 5, 6, 4, 0, 7, 8],
        &[1, 5, 6, 4, 0, 255, 255],
    ),
    (
        3,
        &[1, 5, 6, 4],
        &[1, 5, 6, 4, 0, 7, 8],
        &[1, 5, 6, 4, 0, 255, 255],
    ),
    (
        4,
        &[1, 5, 6, 4],
        &[1, 5, 6, 4, 0, 7, 10],
        &[1, 5, 6, 4, 0, 255, 255],
    ),
    (
        5,
        &[1, 5, 6, 4],
        &[1, 5, 6, 4, 0, 7, 10],
        &[1, 5, 6, 4, 0, 255, 255],
    ),
    (
        6,
        &[1, 5, 6, 4, 0, 7, 10],
        &[1, 5, 6, 4, 0, 7, 10],
        &[1, 5, 6, 4, 0, 7, 10],
    ),
];

/// So many, and one more where a call failed.
fn count(failed: usize, answer: Result<(), Failed>) -> usize {
    match answer {
        Ok(()) => failed,
        Err(Failed) => failed.saturating_add(1),
    }
}

/// Answers how many of the calls failed.
fn make_calls<D: Disk>(disk: &mut D) -> usize {
    let failed = count(0, disk.write_at(1, &[5, 6]));
    let failed = count(failed, disk.sync());
    let failed = count(failed, disk.write_at(5, &[7, 8]));
    let failed = count(failed, disk.cut(6));
    let failed = count(failed, disk.write_at(6, &[10]));
    count(failed, disk.sync())
}

fn has_octets(octets: &[u8], pattern: &[u8], filled: u8) -> bool {
    if octets.len() != pattern.len() {
        return false;
    }
    for place in 0..pattern.len() {
        let want = pattern[place];
        let expected = if want == FILLED { filled } else { want };
        if octets[place] != expected {
            return false;
        }
    }
    true
}

/// Whether so many of the calls pass and the others fail, and the disk has stopped where that is not all of them.
fn fails_behind(disk: &mut FuseDisk, passes: u64) -> Result<bool, NoMemory> {
    let failed = make_calls(disk);
    if disk.starved() {
        return Err(NoMemory);
    }
    Ok(passes.checked_add(failed as u64) == Some(6) && disk.stopped() == (passes < 6))
}

/// The calls on this disk, which stops in that of this number.
fn disk_leaves(disk: FuseDisk, passes: u64, pattern: &[u8], filled: u8) -> Result<bool, NoMemory> {
    let mut disk = disk;
    let counted = fails_behind(&mut disk, passes);
    let image = disk.image();
    let is_left = has_octets(image.octets(), pattern, filled);
    drop(image);
    match counted {
        Ok(counted) => Ok(counted && is_left),
        Err(NoMemory) => Err(NoMemory),
    }
}

/// A stop in the call of this number: how many calls fail, whether the disk has stopped, and what it leaves.
fn leaves(
    alloc: Global,
    passes: u64,
    fill: Fill,
    pattern: &[u8],
    filled: u8,
) -> Result<bool, NoMemory> {
    match MemDisk::of(alloc, &[1, 2, 3, 4]) {
        Ok(inner) => disk_leaves(FuseDisk::make(inner, passes, fill), passes, pattern, filled),
        Err(NoMemory) => Err(NoMemory),
    }
}

/// Whether a stop with this fill leaves what a row of `IMAGES` says.
fn leaves_image(
    alloc: Global,
    image: &(u64, &[u8], &[u8], &[u8]),
    fill: Fill,
) -> Result<bool, NoMemory> {
    let (passes, old, new, filled) = image;
    match fill {
        Fill::Old => leaves(alloc, *passes, fill, old, 0),
        Fill::New => leaves(alloc, *passes, fill, new, 0),
        Fill::Octet(octet) => leaves(alloc, *passes, fill, filled, octet),
    }
}

/// What a stop fills in.
pub(crate) const FILLS: &[Fill] = &[
    Fill::Old,
    Fill::New,
    Fill::Octet(0),
    Fill::Octet(127),
    Fill::Octet(165),
];

#[test]
fn a_stop_leaves_what_its_fill_says(rt: HostRuntime) -> Result<(), NoMemory> {
    for image in IMAGES {
        for fill in FILLS {
            assert!(rt;
                leaves_image(rt.alloc(), image, *fill)?,
                "at {}, {fill:?}",
                image.0
            );
        }
    }
    Ok(())
}

/// Makes this many calls, and answers which of them passed, as the digit 1 behind a first 1.
fn passing<D: Disk>(disk: &mut D, calls: usize) -> u64 {
    let mut answers: u64 = 1;
    for _ in 0..calls {
        let passed = u64::from(disk.len().is_ok());
        answers = answers.saturating_mul(10).saturating_add(passed);
    }
    answers
}

fn arm<D: Armed>(disk: &mut D) -> Result<(), NoMemory> {
    disk.fail_after(1)?;
    disk.fail_after(2)?;
    disk.stop_after(0, Fill::New)?;
    disk.stop_after(2, Fill::Old)?;
    disk.fail_after(1)
}

/// Whether the disk that `arm` has armed stops and fails as it is told.
fn stops_and_fails(disk: FuseDisk) -> bool {
    let mut disk = disk;
    // It passes, fails, and stops, and then each call fails.
    let first = passing(&mut disk, 5) == 110000 && disk.stopped();
    // The second stop is in the first call of the next disk, and counts for the second failure.
    let mut disk = disk.again();
    let second = !disk.stopped() && passing(&mut disk, 2) == 100;
    // The second failure is in the first call, and in the third both the last stop and the last failure.
    let mut disk = disk.again();
    let third = passing(&mut disk, 4) == 10100 && disk.stopped() && !disk.starved();
    let mut disk = disk.again();
    let fourth = passing(&mut disk, 3) == 1111;
    drop(disk);
    first && second && third && fourth
}

/// Whether a disk that is made with a stop does so once `arm` has armed it.
fn stops_and_fails_once_armed(alloc: Global) -> Result<bool, NoMemory> {
    let mut disk = FuseDisk::make(MemDisk::make(alloc), 2, Fill::Old);
    let armed = arm(&mut disk);
    let is_as_told = stops_and_fails(disk);
    match armed {
        Ok(()) => Ok(is_as_told),
        Err(NoMemory) => Err(NoMemory),
    }
}

#[test]
fn further_stops_and_failures_wait(rt: HostRuntime) -> Result<(), NoMemory> {
    assert!(rt; stops_and_fails_once_armed(rt.alloc())?);
    Ok(())
}

/// Whether calls on the disk on which `abcd` stands at 2 answer as they should. The last of them cuts it.
fn answers(disk: &mut MemDisk) -> bool {
    let mut into = [9; 4];
    disk.write_at(9, b"") == Ok(())
        && disk.len() == Ok(6)
        && disk.cut(5) == Ok(())
        && disk.read(3, &mut into) == Ok(2)
        && into == [b'b', b'c', 9, 9]
}

/// Whether these octets stand on the disk, and none was lost for want of memory.
fn holds(disk: &MemDisk, octets: &[u8]) -> bool {
    disk.octets() == octets && !disk.starved()
}

/// Whether the disk is read as these octets, and has them.
fn is_read_back(alloc: Global, disk: MemDisk, octets: &[u8]) -> Result<bool, NoMemory> {
    let mut disk = FuseDisk::make(disk, NO_STOP, Fill::Old);
    let read = is_read(alloc, &mut disk, octets);
    let image = disk.image();
    let is_held = holds(&image, octets);
    drop(image);
    match read {
        Ok(is_read) => Ok(is_read && is_held),
        Err(NoMemory) => Err(NoMemory),
    }
}

/// Whether `abcd` is put on the disk, and it then answers as it should.
fn is_written(disk: &mut MemDisk) -> Result<bool, NoMemory> {
    let put = put_synced(disk, 2, b"abcd");
    if disk.starved() {
        return Err(NoMemory);
    }
    Ok(put == Ok(()) && answers(disk))
}

fn is_written_and_read(alloc: Global) -> Result<bool, NoMemory> {
    let mut disk = MemDisk::make(alloc);
    let written = is_written(&mut disk);
    let read = is_read_back(alloc, disk, b"\0\0abc");
    match written {
        Ok(true) => read,
        Ok(false) | Err(NoMemory) => written,
    }
}

#[test]
fn a_disk_in_memory_is_written_and_read(rt: HostRuntime) -> Result<(), NoMemory> {
    assert!(rt; is_written_and_read(rt.alloc())?);
    Ok(())
}

/// Whether a disk in memory tells that memory was wanting where a call of it fails.
fn memory_tells(alloc: Global) -> Result<bool, NoMemory> {
    match MemDisk::of(alloc, &[1, 2, 3, 4]) {
        Ok(mut disk) => {
            let is_told = (make_calls(&mut disk) > 0) == disk.starved();
            drop(disk);
            Ok(is_told)
        }
        Err(NoMemory) => Err(NoMemory),
    }
}

/// Whether a disk that is made without a stop does.
fn fuse_tells(alloc: Global) -> Result<bool, NoMemory> {
    match MemDisk::of(alloc, &[1, 2, 3, 4]) {
        Ok(inner) => {
            let mut disk = FuseDisk::make(inner, NO_STOP, Fill::New);
            let is_told = (make_calls(&mut disk) > 0) == disk.starved();
            drop(disk);
            Ok(is_told)
        }
        Err(NoMemory) => Err(NoMemory),
    }
}

/// Also where an allocation fails: a call of a disk that isn't armed fails only where the disk then tells that
/// memory was wanting.
#[test]
fn want_of_memory_is_told(rt: HostRuntime) -> Result<(), NoMemory> {
    assert!(rt; memory_tells(rt.alloc())? && fuse_tells(rt.alloc())?);
    Ok(())
}

/// Whether the disk passes so many of its next four calls, those before it stops.
fn stops_after(disk: &mut FuseDisk, passes: u64) -> bool {
    let mut is_as_told = true;
    for call in 0..4 {
        is_as_told = is_as_told && disk.len().is_ok() == (call < passes);
    }
    is_as_told && disk.stopped() && !disk.starved()
}

/// Whether a disk that is made without a stop passes two calls, and stops where it is told then.
fn stops_where_told(alloc: Global, passes: u64) -> Result<bool, NoMemory> {
    let mut disk = FuseDisk::make(MemDisk::make(alloc), NO_STOP, Fill::Old);
    let is_free = passing(&mut disk, 2) == 111;
    let told = disk.stop_after(passes, Fill::New);
    let is_as_told = is_free && stops_after(&mut disk, passes);
    drop(disk);
    match told {
        Ok(()) => Ok(is_as_told),
        Err(NoMemory) => Err(NoMemory),
    }
}

/// A disk that is made without a stop is armed from its next call on.
#[test]
fn a_disk_without_a_stop_stops_where_it_is_told(rt: HostRuntime) -> Result<(), NoMemory> {
    for passes in 0..3 {
        assert!(rt; stops_where_told(rt.alloc(), passes)?, "at {passes}");
    }
    Ok(())
}

/// Whether a disk is read as these octets.
fn is_read(alloc: Global, disk: &mut FuseDisk, octets: &[u8]) -> Result<bool, NoMemory> {
    match read_whole(alloc, disk) {
        Ok(read) => Ok(read.items() == octets),
        Err(ReadFault::Failed) => Ok(false),
        Err(ReadFault::NoMemory) => Err(NoMemory),
    }
}

/// Whether a disk is read as these octets where it fails in the call after so many.
fn is_read_before(
    alloc: Global,
    disk: FuseDisk,
    octets: &[u8],
    passes: u64,
) -> Result<bool, NoMemory> {
    let mut disk = disk;
    let told = disk.fail_after(passes);
    let read = is_read(alloc, &mut disk, octets);
    drop(disk);
    match told {
        Ok(()) => read,
        Err(NoMemory) => Err(NoMemory),
    }
}

/// Whether a disk of so many octets is read whole where it fails in the call after so many.
fn reads_whole(alloc: Global, octets: &[u8], passes: u64) -> Result<bool, NoMemory> {
    match MemDisk::of(alloc, octets) {
        Ok(inner) => {
            let disk = FuseDisk::make(inner, NO_STOP, Fill::Old);
            is_read_before(alloc, disk, octets, passes)
        }
        Err(NoMemory) => Err(NoMemory),
    }
}

/// Whether a disk of these octets is read in this many calls, and not in one less.
fn reads_in(alloc: Global, octets: &[u8], calls: u64) -> Result<bool, NoMemory> {
    Ok(!reads_whole(alloc, octets, calls.saturating_sub(1))? && reads_whole(alloc, octets, calls)?)
}

/// Whether a disk of so many octets is.
fn is_read_in(alloc: Global, length: usize, calls: u64) -> Result<bool, NoMemory> {
    match vec![in alloc; 7u8; length] {
        Ok(octets) => reads_in(alloc, &octets, calls),
        Err(_) => Err(NoMemory),
    }
}

/// Lengths of disks, and the calls in which each is read.
const READINGS: &[(usize, u64)] = &[(0, 1), (1, 2), (65536, 2), (65537, 3)];

/// A reading asks for the length, and then for each 65,536 octets that are begun.
#[test]
fn a_reading_makes_a_call_for_each_piece(rt: HostRuntime) -> Result<(), NoMemory> {
    for (length, calls) in READINGS {
        assert!(rt; is_read_in(rt.alloc(), *length, *calls)?, "at {length}");
    }
    Ok(())
}

/// Places and sizes, and the part of `abcdef` that is read there.
const PARTS: &[(u32, u32, &[u8])] = &[
    (0, 6, b"abcdef"),
    (2, 3, b"cde"),
    (4, 9, b"ef"),
    (6, 1, b""),
    (9, 2, b""),
    (3, 0, b""),
];

/// Whether this part of the disk is read. A disk that isn't armed fails for want of memory alone.
fn has_part(
    alloc: Global,
    disk: MemDisk,
    place: u32,
    size: u32,
    part: &[u8],
) -> Result<bool, NoMemory> {
    let mut disk = disk;
    let read = read_part(alloc, &mut disk, u64::from(place), u64::from(size));
    drop(disk);
    match read {
        Ok(octets) => Ok(octets.items() == part),
        Err(_) => Err(NoMemory),
    }
}

/// Whether this part is read of `abcdef`.
fn reads_part(alloc: Global, place: u32, size: u32, part: &[u8]) -> Result<bool, NoMemory> {
    match MemDisk::of(alloc, b"abcdef") {
        Ok(disk) => has_part(alloc, disk, place, size, part),
        Err(NoMemory) => Err(NoMemory),
    }
}

#[test]
fn a_part_is_read_up_to_the_end(rt: HostRuntime) -> Result<(), NoMemory> {
    for (place, size, part) in PARTS {
        assert!(rt; reads_part(rt.alloc(), *place, *size, part)?, "at {place}");
    }
    Ok(())
}
