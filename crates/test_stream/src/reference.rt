// A slow body of a stream, which follows the definitions group by group, over eight paths that have a number or no row.

pub const PATHS: [&str; 8] = [
    "/a/p0", "/a/p1", "/a/p2", "/a/p3", "/b/p4", "/b/p5", "/b/p6", "/b/p7",
];

/// The number at each path, of which 0 is no row.
pub type State = [u64; 8];

pub const QUIET: u8 = 0;

pub const CHANGES: u8 = 1;

pub const ALL: u8 = 2;

#[derive(Clone, Copy)]
pub struct SlowGroup {
    pub change: bool,
    pub interval: u64,
    pub suppress: bool,
    pub heartbeat: u64,
    pub last: u64,
    pub full: u64,
}

#[derive(Clone, Copy)]
pub struct Reference {
    pub groups: [SlowGroup; 4],
    /// The group of each path, or a number that no group has.
    pub owners: [u8; 8],
    pub sent: State,
    pub time: u64,
}

fn differs(reference: &Reference, group: u8, now: &State) -> bool {
    let mut found = false;
    for path in 0..8 {
        if reference.owners[path] == group && reference.sent[path] != now[path] {
            found = true;
        }
    }
    found
}

fn has_rows(reference: &Reference, group: u8, now: &State) -> bool {
    let mut found = false;
    for path in 0..8 {
        if reference.owners[path] == group && (reference.sent[path] != 0 || now[path] != 0) {
            found = true;
        }
    }
    found
}

fn beat(slow: SlowGroup, time: u64, differs: bool, some: bool) -> u8 {
    let interval = time.saturating_sub(slow.last) >= slow.interval;
    let heart = slow.heartbeat != 0 && time.saturating_sub(slow.full) >= slow.heartbeat;
    if (slow.change || slow.suppress) && heart && some {
        return ALL;
    }
    if !slow.change && !slow.suppress && interval && some {
        return ALL;
    }
    if slow.change && differs {
        return CHANGES;
    }
    if !slow.change && slow.suppress && interval && differs {
        return CHANGES;
    }
    QUIET
}

/// The beat of each group.
pub fn beats(reference: &Reference, time: u64, now: &State) -> [u8; 4] {
    let mut found = [QUIET; 4];
    for group in 0..4usize {
        let number = group as u8;
        let differ = differs(reference, number, now);
        let some = has_rows(reference, number, now);
        found[group] = beat(reference.groups[group], time, differ, some);
    }
    found
}

/// The beat of the path's group.
pub fn beat_at(reference: &Reference, beats: &[u8; 4], path: usize) -> u8 {
    match reference.owners.get(path) {
        Some(owner) => beats.get(*owner as usize).copied().unwrap_or(QUIET),
        None => QUIET,
    }
}

fn moved_on(slow: SlowGroup, time: u64, beat: u8) -> SlowGroup {
    let mut slow = slow;
    if time.saturating_sub(slow.last) >= slow.interval {
        slow.last = time;
    }
    if beat == ALL {
        slow.full = time;
    }
    slow
}

/// The rows of groups that are due were sent, and all groups move on.
pub fn move_on(reference: &mut Reference, time: u64, beats: &[u8; 4], now: &State) {
    for path in 0..8usize {
        if beat_at(reference, beats, path) != QUIET {
            reference.sent[path] = now[path];
        }
    }
    for group in 0..4usize {
        reference.groups[group] = moved_on(reference.groups[group], time, beats[group]);
    }
    reference.time = time;
}
