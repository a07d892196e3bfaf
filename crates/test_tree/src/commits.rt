ghost use Rattle.base_kinds.specs.Legal.{IsFit};

use crate::builders::schema_of;
use crate::limits::{Asked, Changed, NOTHING, ask_of, changes_of, marks_of, resolved, step};
use base_kinds::{Action, Ask, Changes, Limits, Path, Paths, Refusal, Row, Value, View};
use commit_core::Core;
use plain_tree::PlainTree;
use schema_core::Schema;
use std::alloc::Global;
use std::process::Abort;

const ROOMY: Limits = Limits {
    entries: 65_536,
    octets: 268_435_456,
};

/// The smallest limits that there are.
const NARROW: Limits = Limits {
    entries: 2,
    octets: 4_096,
};

/// Two texts and a number of 16 bits.
const SCHEMA: &str = "\
module m\n\
container /system\n\
container /system/config\n\
leaf /system/config/hostname string\n\
leaf /system/config/motd string\n\
leaf /system/config/mtu uint16\n\
";

fn core_of(rt: &impl Abort, alloc: Global, limits: Limits) -> Core<PlainTree> {
    let schema = schema_of(rt, alloc, SCHEMA);
    Core::make(alloc, schema, PlainTree::empty(alloc), limits)
}

/// With a further leaf and a wider number.
const WIDE: &str = "\
module m\n\
container /system\n\
container /system/config\n\
leaf /system/config/hostname string\n\
leaf /system/config/motd bool\n\
leaf /system/config/mtu uint32\n\
leaf /system/config/contact string\n\
";

/// A Set of `/system/config/WORD` to the text of a JSON value, by this schema.
fn set_of(rt: &impl Abort, alloc: Global, schema: &str, word: &str, json: &str) -> Ask
    ensures { IsFit result }
{
    let updates = update_of(rt, alloc, word, json);
    let schema = schema_of(rt, alloc, schema);
    let ask = set_by(rt, alloc, &schema, updates);
    drop(schema);
    ask
}

/// An update of `/system/config/WORD` to the text of a JSON value.
fn update_of(rt: &impl Abort, alloc: Global, word: &str, json: &str) -> Changes {
    let path = format!(in alloc; "/system/config/{word}").expect(rt, "memory");
    changes_of(rt, alloc, &[(path.as_str(), json)])
}

/// A Set of these updates by this schema.
fn set_by(rt: &impl Abort, alloc: Global, schema: &Schema, updates: Changes) -> Ask
    ensures { IsFit result }
{
    resolved(
        rt,
        alloc,
        schema,
        Paths::empty(alloc),
        updates,
        Action::Plain,
    )
    .expect(rt, "an ask")
}

/// A Set without operations.
fn set_nothing(rt: &impl Abort, alloc: Global) -> Ask
    ensures { IsFit result }
{
    let schema = schema_of(rt, alloc, SCHEMA);
    ask_of(rt, alloc, &schema, NOTHING, Asked::Set).expect(rt, "an ask")
}

/// A Set of the hostname to a text of so many octets.
fn set_long(rt: &impl Abort, alloc: Global, size: u32) -> Ask
    ensures { IsFit result }
{
    let mut text = String::new(alloc);
    text.push('"').expect(rt, "memory");
    for _ in 0..size {
        text.push('x').expect(rt, "memory");
    }
    text.push('"').expect(rt, "memory");
    set_of(rt, alloc, SCHEMA, "hostname", text.as_str())
}

/// The stamp of the entry that the ask becomes, which is taken.
fn accept(rt: &impl Abort, core: &mut Core<PlainTree>, alloc: Global, now: u64, ask: Ask) -> u64
    requires { IsFit ask }
{
    step(rt, alloc, core, now, 1, ask).expect(rt, "an entry")
}

/// What the ask is refused for, if it is, at the reading 2000. Nothing is taken.
fn refused(rt: &impl Abort, core: &mut Core<PlainTree>, alloc: Global, ask: Ask) -> Option<Refusal>
    requires { IsFit ask }
{
    assert!(rt; !core.due(2000));
    let refusal = core.judge(alloc, 2000, 1, ask).err();
    core.forget();
    refusal
}

/// The number of rows, whether the first has this text as its value, and the stamp.
fn first_text(
    rt: &impl Abort,
    core: &Core<PlainTree>,
    alloc: Global,
    text: &str,
) -> (usize, bool, u64) {
    first_text_in(&view_of_all(rt, core, alloc), text)
}

fn view_of_all(rt: &impl Abort, core: &Core<PlainTree>, alloc: Global) -> View {
    let mut patterns = Paths::empty(alloc);
    patterns.push(Path::empty(alloc)).expect(rt, "memory");
    core.look(alloc, &patterns).expect(rt, "memory")
}

fn first_text_in(view: &View, text: &str) -> (usize, bool, u64) {
    let is = match view.rows.get(0) {
        Some(
            Row {
                value: Value::Text(found),
                ..
            },
        ) => found.octets() == text.as_bytes(),
        _ => false,
    };
    (view.rows.len(), is, view.stamp)
}

const READINGS: &[(u64, u64)] = &[
    (0, 1),
    (0, 2),
    (1000, 1000),
    (1000, 1001),
    (10, 1002),
    (1003, 1003),
    (4_102_444_799_999_999_999, 4_102_444_799_999_999_999),
    (4_102_444_800_000_000_000, 4_102_444_800_000_000_000),
    (4_102_444_800_000_000_005, 4_102_444_800_000_000_001),
    (u64::MAX, 4_102_444_800_000_000_002),
    (0, 4_102_444_800_000_000_003),
];

/// A Set of the message at a reading has this stamp, and the tree its row.
fn assert_stamped(
    rt: &impl Abort,
    alloc: Global,
    core: &mut Core<PlainTree>,
    now: u64,
    stamp: u64,
) {
    let ask = set_of(rt, alloc, SCHEMA, "motd", "\"m\"");
    let taken = accept(rt, core, alloc, now, ask);
    assert!(rt; taken == stamp, "at {now}");
    let first = first_text(rt, core, alloc, "m");
    assert!(rt; first == (1, true, stamp), "at {now}");
}

/// The entries have their numbers, and are so many.
fn assert_numbered(rt: &impl Abort, core: &Core<PlainTree>, count: usize) {
    let mut number = 0u64;
    for entry in core.entries() {
        number = number.saturating_add(1);
        assert!(rt; marks_of(entry) == (number, 1, entry.stamp));
    }
    assert!(rt; core.entries().len() == count);
}

/// Each Set at a reading has its stamp, and the entries have their numbers.
fn assert_readings(rt: &impl Abort, alloc: Global, core: &mut Core<PlainTree>) {
    for (now, stamp) in READINGS {
        assert_stamped(rt, alloc, core, *now, *stamp);
    }
    assert_numbered(rt, core, 11);
}

#[test]
fn stamps_follow_the_clock_and_rise(rt: HostRuntime) {
    let alloc = rt.alloc();
    let mut core = core_of(&rt, alloc, ROOMY);
    assert_readings(&rt, alloc, &mut core);
    drop(core);
}

/// Leaves and values by the wider schema, with the refusal of each.
const VALUES: &[(&str, &str, Option<Refusal>)] = &[
    ("contact", "\"x\"", Some(Refusal::TreeInvalid)),
    ("motd", "true", Some(Refusal::TreeInvalid)),
    ("mtu", "65535", None),
    ("mtu", "65536", Some(Refusal::TreeInvalid)),
];

/// The Set of a leaf at the reading 2000 is refused for this, if at all. Nothing is taken.
fn assert_refused(
    rt: &impl Abort,
    alloc: Global,
    core: &mut Core<PlainTree>,
    (word, json, refusal): (&str, &str, Option<Refusal>),
) {
    let ask = set_of(rt, alloc, WIDE, word, json);
    let found = refused(rt, core, alloc, ask);
    assert!(rt; found == refusal, "{word} {json}");
}

/// A Set of the hostname is the first entry behind one that was let go.
fn accept_first(rt: &impl Abort, alloc: Global, core: &mut Core<PlainTree>) {
    core.forget();
    assert_refused(rt, alloc, core, ("mtu", "1", None));
    let first = set_of(rt, alloc, SCHEMA, "hostname", "\"r1\"");
    assert!(rt; accept(rt, core, alloc, 1000, first) == 1000);
}

/// The one entry there is has set the hostname.
fn assert_first(rt: &impl Abort, alloc: Global, core: &Core<PlainTree>) {
    assert!(rt; first_text(rt, core, alloc, "r1") == (1, true, 1000));
    assert!(rt; core.entries().len() == 1);
}

/// Behind a Set of the hostname the others are refused, and only its entry stands.
fn assert_first_alone(rt: &impl Abort, alloc: Global, core: &mut Core<PlainTree>) {
    accept_first(rt, alloc, core);
    for row in VALUES {
        assert_refused(rt, alloc, core, *row);
    }
    assert_first(rt, alloc, core);
}

#[test]
fn what_is_let_go_or_refused_leaves_nothing(rt: HostRuntime) {
    let alloc = rt.alloc();
    let mut core = core_of(&rt, alloc, ROOMY);
    assert_first_alone(&rt, alloc, &mut core);
    drop(core);
}

/// A delete of all that the update doesn't set anew.
const DELETED: Changed = Changed {
    deletes: &["/system/*"],
    updates: &[("/system/config/motd", "\"new\"")],
};

fn accept_old(rt: &impl Abort, alloc: Global, core: &mut Core<PlainTree>, word: &str) {
    let ask = set_of(rt, alloc, SCHEMA, word, "\"old\"");
    accept(rt, core, alloc, 1000, ask);
}

fn accept_deletes(rt: &impl Abort, alloc: Global, core: &mut Core<PlainTree>) {
    let ask = ask_of(rt, alloc, core.schema(), DELETED, Asked::Set).expect(rt, "an ask");
    accept(rt, core, alloc, 1000, ask);
    assert!(rt; first_text(rt, core, alloc, "new") == (1, true, 1002));
}

fn accept_old_and_deletes(rt: &impl Abort, alloc: Global, core: &mut Core<PlainTree>) {
    accept_old(rt, alloc, core, "hostname");
    accept_old(rt, alloc, core, "motd");
    accept_deletes(rt, alloc, core);
}

#[test]
fn deletes_come_before_updates(rt: HostRuntime) {
    let alloc = rt.alloc();
    let mut core = core_of(&rt, alloc, ROOMY);
    accept_old_and_deletes(&rt, alloc, &mut core);
    drop(core);
}

/// How many octets the hostname has under these limits, with the refusal of the Set.
const SIZES: &[(Limits, u32, Option<Refusal>)] = &[
    (ROOMY, 316_644, None),
    (ROOMY, 316_645, Some(Refusal::TreeFull)),
    (NARROW, 3_971, None),
    (NARROW, 3_972, Some(Refusal::LogFull)),
    (NARROW, 316_645, Some(Refusal::TreeFull)),
];

/// What a Set of a hostname of so many octets is refused for over a tree without rows, if it is.
fn refusal_of_long(rt: &impl Abort, alloc: Global, limits: Limits, size: u32) -> Option<Refusal> {
    let ask = set_long(rt, alloc, size);
    let mut core = core_of(rt, alloc, limits);
    let refusal = refused(rt, &mut core, alloc, ask);
    drop(core);
    refusal
}

#[test]
fn trees_and_logs_have_limits(rt: HostRuntime) {
    for (limits, size, refusal) in SIZES {
        let found = refusal_of_long(&rt, rt.alloc(), *limits, *size);
        assert!(rt; found == *refusal, "{size} octets");
    }
}

fn accept_nothing(rt: &impl Abort, alloc: Global, core: &mut Core<PlainTree>) {
    accept(rt, core, alloc, 1, set_nothing(rt, alloc));
}

/// A log that has no room refuses a Set, unless the tree is invalid.
fn assert_full(rt: &impl Abort, alloc: Global, core: &mut Core<PlainTree>) {
    let found = refused(rt, core, alloc, set_nothing(rt, alloc));
    assert!(rt; found == Some(Refusal::LogFull));
    let invalid = ("contact", "\"x\"", Some(Refusal::TreeInvalid));
    assert_refused(rt, alloc, core, invalid);
}

/// Behind two entries the log has no room.
fn assert_full_behind_two(rt: &impl Abort, alloc: Global, core: &mut Core<PlainTree>) {
    accept_nothing(rt, alloc, core);
    accept_nothing(rt, alloc, core);
    assert_full(rt, alloc, core);
}

#[test]
fn a_log_of_two_entries_is_full(rt: HostRuntime) {
    let alloc = rt.alloc();
    let mut core = core_of(&rt, alloc, NARROW);
    assert_full_behind_two(&rt, alloc, &mut core);
    drop(core);
}
