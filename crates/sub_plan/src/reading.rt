ghost use Rattle.std.specs.Prelude.{◌≡◌, ◌≤◌, ◌++◌, ◌+◌, filter, length, map, nat_lt, IfOk, OnOk};
ghost use Rattle.std.specs.List.{list_any};
ghost use Rattle.base_kinds.specs.Limits.{most_elements};
ghost use Rattle.base_lists.specs.Results.{IsUnlessMemory};
ghost use Rattle.sub_plan.specs.Groups.{patterns_of};
ghost use Rattle.sub_plan.specs.Plans.{change_group, groups_of, has_bad_path, interval_of, is_bad_line, is_bad_list, is_bad_number, is_bad_path, is_known_encoding, is_known_origin, is_line_mode, is_list_mode, is_nameless, is_sample, is_short, is_stream, is_unsupported, least_heartbeat, lesser, line_of, lines_of, most_subscriptions, numbered_lines, plan_of, sample_group};

use crate::plan::{Group, GroupSort, Groups, Line, Lines, Plan};
use base_kinds::{
    Copied, Elem, ListMode, MOST_ELEMENTS, NoMemory, Path, Paths, Refusal, Seq, SubLine, SubMode,
};
use gnmi_kinds::{Encoding, SubAsk};
use std::alloc::Global;

/// How many subscriptions a list has at most.
pub const MOST_SUBSCRIPTIONS: usize = 64;

/// The least interval and the least heartbeat, in nanoseconds.
pub const LEAST_INTERVAL: u64 = 100_000_000;

/// How many octets the name of a target has at most.
pub const MOST_TARGET_OCTETS: usize = 1_024;

/// The patterns of a plan's lines, in order.
pub fn patterns(alloc: Global, plan: &Plan) -> Result<Paths, NoMemory>
    ensures { IfOk result (λ patterns. patterns ≡ patterns_of plan.now.lines) }
{
    let mut patterns = Seq::empty(alloc);
    for line in plan.lines.items() {
        patterns.push_copy(alloc, &line.pattern)?;
    }
    Ok(patterns)
}

/// The plan of a Subscribe list. Refused are, in this order: what this target doesn't support (`Unsupported`: an origin of
/// the prefix other than the empty one and `openconfig`, texts in the prefix's deprecated field `element`, an encoding other
/// than JSON, JSON_IETF and PROTO, and what the request's reader found, specs/Profile.antt); a list of no or more than 64
/// subscriptions, or of an unknown mode, or with a subscription of an unknown mode, or with an interval or a heartbeat from 1
/// to 99,999,999 ns (`BadSubscribe`); a path of more than 32 elements with the prefix, an element without a name, and a
/// target's name of more than 1,024 octets (`BadPath`). Want of memory refuses any list (`NoMemory`).
pub fn plan_of(alloc: Global, ask: &SubAsk) -> Result<Plan, Refusal>
    ensures { IsUnlessMemory Refusal.NoMemory result (plan_of ask.now) }
{
    if is_unsupported(ask) {
        return Err(Refusal::Unsupported);
    }
    if is_bad_list(ask) {
        return Err(Refusal::BadSubscribe);
    }
    if has_bad_path(ask) {
        return Err(Refusal::BadPath);
    }
    let lines = lines_of(alloc, ask)?;
    let groups = groups_of(alloc, ask)?;
    let target = ask.prefix.target.copy(alloc)?;
    Ok(Plan {
        lines,
        groups,
        mode: ask.mode,
        updates_only: ask.updates_only,
        encoding: ask.encoding,
        target,
    })
}

fn is_known_origin(origin: &[u8]) -> bool
    ensures { result ≡ is_known_origin origin.now }
{
    origin == b"".as_slice() || origin == b"openconfig".as_slice()
}

fn is_known_encoding(encoding: Encoding) -> bool
    ensures { result ≡ is_known_encoding encoding }
{
    match encoding {
        Encoding::Json => true,
        Encoding::Proto => true,
        Encoding::JsonIetf => true,
        Encoding::Other => false,
    }
}

fn is_unsupported(ask: &SubAsk) -> bool
    ensures { result ≡ is_unsupported ask.now }
{
    ask.unsupported
        || !is_known_origin(ask.prefix.origin.octets())
        || ask.prefix.old_element
        || !is_known_encoding(ask.encoding)
}

fn is_list_mode(mode: ListMode) -> bool
    ensures { result ≡ is_list_mode mode }
{
    match mode {
        ListMode::Stream => true,
        ListMode::Once => true,
        ListMode::Poll => true,
        ListMode::Other => false,
    }
}

fn is_stream(mode: ListMode) -> bool
    ensures { result ≡ is_stream mode }
{
    match mode {
        ListMode::Stream => true,
        ListMode::Once => false,
        ListMode::Poll => false,
        ListMode::Other => false,
    }
}

fn is_line_mode(mode: SubMode) -> bool
    ensures { result ≡ is_line_mode mode }
{
    match mode {
        SubMode::Change => true,
        SubMode::Sample => true,
        SubMode::Other => false,
    }
}

fn is_sample(mode: SubMode) -> bool
    ensures { result ≡ is_sample mode }
{
    match mode {
        SubMode::Change => false,
        SubMode::Sample => true,
        SubMode::Other => false,
    }
}

fn is_short(time: u64) -> bool
    ensures { result ≡ is_short time }
{
    time != 0 && time < LEAST_INTERVAL
}

fn is_bad_line(line: &SubLine) -> bool
    ensures { result ≡ is_bad_line line.now }
{
    !is_line_mode(line.mode) || is_short(line.interval) || is_short(line.heartbeat)
}

fn are_bad_lines(lines: &[SubLine]) -> bool
    ensures { result ≡ list_any is_bad_line lines.now }
{
    lines.iter().any(|line| is_bad_line(line))
}

fn is_bad_number(number: usize) -> bool
    ensures { result ≡ is_bad_number number }
{
    number == 0 || number > MOST_SUBSCRIPTIONS
}

fn is_bad_list(ask: &SubAsk) -> bool
    ensures { result ≡ is_bad_list ask.now }
{
    !is_list_mode(ask.mode) || is_bad_number(ask.lines.len()) || are_bad_lines(ask.lines.items())
}

fn is_nameless(elem: &Elem) -> bool
    ensures { result ≡ is_nameless elem.now }
{
    elem.name.octets().is_empty()
}

fn are_nameless(elems: &[Elem]) -> bool
    ensures { result ≡ list_any is_nameless elems.now }
{
    elems.iter().any(|elem| is_nameless(elem))
}

fn is_long(prefix: usize, path: usize) -> bool
    ensures { result ≡ nat_lt most_elements (prefix + path) }
{
    prefix > MOST_ELEMENTS || path > MOST_ELEMENTS - prefix
}

fn is_bad_path(prefix: &Path, path: &Path) -> bool
    ensures { result ≡ is_bad_path prefix.now path.now }
{
    is_long(prefix.len(), path.len()) || are_nameless(path.items())
}

fn are_bad_paths(prefix: &Path, lines: &[SubLine]) -> bool
    ensures { result ≡ list_any (λ line. is_bad_path prefix.now line.path) lines.now }
{
    lines.iter().any(|line| is_bad_path(prefix, &line.path))
}

fn has_bad_path(ask: &SubAsk) -> bool
    ensures { result ≡ has_bad_path ask.now }
{
    ask.prefix.target.octets().len() > MOST_TARGET_OCTETS
        || are_nameless(ask.prefix.path.items())
        || are_bad_paths(&ask.prefix.path, ask.lines.items())
}

fn lesser(a: u64, b: u64) -> u64
    ensures { result ≡ lesser a b }
{
    if a == 0 {
        b
    } else if b == 0 {
        a
    } else if a <= b {
        a
    } else {
        b
    }
}

fn least_heartbeat(lines: &[SubLine]) -> u64
    ensures { result ≡ least_heartbeat 0 lines.now }
{
    let mut least = 0;
    for line in lines {
        if !is_sample(line.mode) {
            least = lesser(least, line.heartbeat);
        }
    }
    least
}

fn interval_of(interval: u64) -> u64
    ensures { result ≡ interval_of interval }
{
    if interval == 0 {
        LEAST_INTERVAL
    } else {
        interval
    }
}

fn sample_group(line: &SubLine) -> Group
    ensures { result ≡ sample_group line.now }
{
    Group {
        sort: GroupSort::Sample,
        interval: interval_of(line.interval),
        suppress: line.suppress,
        heartbeat: line.heartbeat,
    }
}

fn change_group(heartbeat: u64) -> Group
    ensures { result ≡ change_group heartbeat }
{
    Group {
        sort: GroupSort::Change,
        interval: 0,
        suppress: false,
        heartbeat,
    }
}

fn groups_of(alloc: Global, ask: &SubAsk) -> Result<Groups, NoMemory>
    ensures { IfOk result (λ groups. groups ≡ groups_of ask.now) }
{
    let mut groups = Seq::empty(alloc);
    if !is_stream(ask.mode) {
        groups.push(change_group(0))?;
        return Ok(groups);
    }
    groups.push(change_group(least_heartbeat(ask.lines.items())))?;
    put_samples(ask.lines.items(), &mut groups)?;
    Ok(groups)
}

fn put_samples(lines: &[SubLine], groups: &mut Groups) -> Result<(), NoMemory>
    ensures { OnOk result (groups.new ≡ groups.old ++
        map sample_group (filter (λ line. is_sample line.mode) lines.now)) }
{
    for line in lines {
        if is_sample(line.mode) {
            groups.push(sample_group(line))?;
        }
    }
    Ok(())
}

fn line_of(alloc: Global, prefix: &Path, group: u32, line: &SubLine) -> Result<Line, NoMemory>
    ensures { IfOk result (λ made. made ≡ line_of prefix.now group line.now) }
{
    let mut pattern = prefix.copy(alloc)?;
    pattern.push_copies(alloc, line.path.items())?;
    Ok(Line { pattern, group })
}

fn lines_of(alloc: Global, ask: &SubAsk) -> Result<Lines, NoMemory>
    requires { length ask.now.lines ≤ most_subscriptions }
    ensures { IfOk result (λ lines. lines ≡ lines_of ask.now) }
{
    if is_stream(ask.mode) {
        numbered_lines(alloc, &ask.prefix.path, ask.lines.items())
    } else {
        one_group(alloc, &ask.prefix.path, ask.lines.items())
    }
}

fn one_group(alloc: Global, prefix: &Path, lines: &[SubLine]) -> Result<Lines, NoMemory>
    ensures { IfOk result (λ made. made ≡ map (line_of prefix.now 0) lines.now) }
{
    let mut made = Seq::empty(alloc);
    for line in lines {
        made.push(line_of(alloc, prefix, 0, line)?)?;
    }
    Ok(made)
}

fn numbered_lines(alloc: Global, prefix: &Path, lines: &[SubLine]) -> Result<Lines, NoMemory>
    requires { length lines.now ≤ most_subscriptions }
    ensures { IfOk result (λ made. made ≡ numbered_lines prefix.now 1 lines.now) }
{
    let mut made = Seq::empty(alloc);
    let mut next = 1;
    for line in lines {
        if is_sample(line.mode) {
            made.push(line_of(alloc, prefix, next, line)?)?;
            next += 1;
        } else {
            made.push(line_of(alloc, prefix, 0, line)?)?;
        }
    }
    Ok(made)
}
