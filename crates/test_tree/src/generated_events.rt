use crate::builders::{path_of, schema_of};
use crate::limits::{Asked, Changed, NOTHING, ask_of, step};
use base_kinds::{Ask, Entries, Entry, LONGEST_DURATION, Limits, Paths, Refusal, View};
use commit_core::Core;
use plain_tree::PlainTree;
use reference_model::{duration_of, stamp_of, step_of, world_of};
use std::alloc::Global;
use std::process::Abort;

const SCHEMA: &str = "\
module m\n\
container /a\n\
leaf /a/x uint16\n\
leaf /a/y uint16\n\
";

const X: Changed = Changed {
    deletes: &[],
    updates: &[("/a/x", "1")],
};

const Y: Changed = Changed {
    deletes: &["/a/x"],
    updates: &[("/a/y", "2"), ("/a/x", "3")],
};

const NONE: Changed = Changed {
    deletes: &["/a"],
    updates: &[],
};

/// What is asked for.
const ASKS: &[(Asked, Changed)] = &[
    (Asked::Set, X),
    (Asked::Set, NONE),
    (Asked::Trial("t", 60), Y),
    (Asked::Trial("u", 1), X),
    (Asked::Trial("t", 86_400), NONE),
    (Asked::Trial("u", 3), Y),
    (Asked::Confirm("t"), NOTHING),
    (Asked::Confirm("u"), NOTHING),
    (Asked::Cancel("t"), NOTHING),
    (Asked::Cancel("u"), NOTHING),
    (Asked::Extend("t", 2), NOTHING),
    (Asked::Extend("u", 90), NOTHING),
];

/// How far the reading goes on, in nanoseconds.
const STEPS: &[u64] = &[0, 0, 1, 999_999_999, 1_000_000_000, 61_000_000_000];

const LIMITS: &[Limits] = &[
    Limits {
        entries: 65_536,
        octets: 268_435_456,
    },
    Limits {
        entries: 17,
        octets: 4_096,
    },
    Limits {
        entries: 65_536,
        octets: 4_096,
    },
    Limits {
        entries: 2,
        octets: 4_096,
    },
];

/// A linear congruential generator with the constants of Knuth's MMIX.
#[derive(Drop)]
struct Generator {
    state: u64,
}

impl Generator {
    /// A place below this length.
    fn place(&mut self, length: usize) -> usize {
        self.state = self
            .state
            .wrapping_mul(6_364_136_223_846_793_005)
            .wrapping_add(1_442_695_040_888_963_407);
        (self.state >> 33).checked_rem(length as u64).unwrap_or(0) as usize
    }
}

/// What the model answers, whose entries go on.
fn expected(
    rt: &impl Abort,
    alloc: Global,
    limits: &Limits,
    model: &mut Entries,
    now: u64,
    asked: (Asked, Changed),
) -> Result<u64, Refusal> {
    let schema = schema_of(rt, alloc, SCHEMA);
    let ask = ask_of(rt, alloc, &schema, asked.1, asked.0);
    drop(schema);
    match ask {
        Ok(ask) => model_step(rt, alloc, limits, model, now, ask),
        Err(refusal) => Err(refusal),
    }
}

/// What the ask becomes in the model, whose entries go on.
fn model_step(
    rt: &impl Abort,
    alloc: Global,
    limits: &Limits,
    model: &mut Entries,
    now: u64,
    ask: Ask,
) -> Result<u64, Refusal> {
    assert!(rt; stamp_of(model.items()) < 1 << 62, "an early stamp");
    assert!(rt; duration_of(&ask) <= LONGEST_DURATION, "a short trial");
    match step_of(alloc, limits, model, now, 1, ask) {
        Ok(entry) => {
            let stamp = entry.stamp;
            model.push(entry).expect(rt, "memory");
            Ok(stamp)
        }
        Err(refusal) => Err(refusal),
    }
}

/// Compares the answers to an ask.
fn compare_answers(
    rt: &impl Abort,
    alloc: Global,
    limits: &Limits,
    core: &mut Core<PlainTree>,
    model: &mut Entries,
    now: u64,
    asked: (Asked, Changed),
) -> bool {
    let ask = ask_of(rt, alloc, core.schema(), asked.1, asked.0).expect(rt, "an ask");
    let answer = step(rt, alloc, core, now, 1, ask);
    answer == expected(rt, alloc, limits, model, now, asked)
}

/// Compares the answers to so many generated events.
fn compare_events(
    rt: &impl Abort,
    alloc: Global,
    generator: &mut Generator,
    limits: &Limits,
    core: &mut Core<PlainTree>,
    model: &mut Entries,
    rounds: u32,
) {
    let mut now = 0u64;
    for round in 0..rounds {
        let further = STEPS
            .get(generator.place(STEPS.len()))
            .copied()
            .unwrap_or(0);
        now = now.saturating_add(further);
        let place = generator.place(ASKS.len());
        let asked = ASKS.get(place).copied().unwrap_or((Asked::Set, X));
        let is_same = compare_answers(rt, alloc, limits, core, model, now, asked);
        assert!(rt; is_same, "round {round}, ask {place} at {now}");
    }
}

/// Whether the rows of a view are those behind these entries.
fn has_tree(rt: &impl Abort, alloc: Global, view: &View, model: &Entries) -> bool {
    let world = world_of(alloc, model.items()).expect(rt, "memory");
    let is_same = view.rows == world.tree;
    drop(world);
    is_same
}

/// All rows.
fn view_of(rt: &impl Abort, alloc: Global, core: &Core<PlainTree>) -> View {
    let mut patterns = Paths::empty(alloc);
    patterns.push(path_of(rt, alloc, "/")).expect(rt, "memory");
    core.look(alloc, &patterns).expect(rt, "memory")
}

/// The entries and the tree behind them are those of the model.
fn assert_same(rt: &impl Abort, alloc: Global, core: &Core<PlainTree>, model: &Entries) {
    let view = view_of(rt, alloc, core);
    let is_same = has_tree(rt, alloc, &view, model);
    drop(view);
    assert!(rt; is_same, "the tree");
    assert!(rt; core.entries() == model.items(), "the entries");
}

/// How many entries are those of expired trials.
fn expired(entries: &[Entry]) -> usize {
    let mut count = 0usize;
    for entry in entries {
        if entry.author == 0 {
            count = count.saturating_add(1);
        }
    }
    count
}

/// Compares the answers to so many generated events, and the entries and the tree behind them. The number of trials that
/// expired is the result.
fn compare(
    rt: &impl Abort,
    alloc: Global,
    generator: &mut Generator,
    limits: Limits,
    rounds: u32,
) -> usize {
    let schema = schema_of(rt, alloc, SCHEMA);
    let mut core = Core::make(alloc, schema, PlainTree::empty(alloc), limits);
    let mut model = Entries::empty(alloc);
    compare_events(rt, alloc, generator, &limits, &mut core, &mut model, rounds);
    assert_same(rt, alloc, &core, &model);
    drop(core);
    let count = expired(model.items());
    drop(model);
    count
}

#[test]
fn generated_events_are_as_in_the_reference_model(rt: HostRuntime) {
    let alloc = rt.alloc();
    let mut generator = Generator { state: 1 };
    let mut expired = 0usize;
    for round in 0..20usize {
        let limits = LIMITS.get(round % 4).copied().expect(&rt, "limits");
        let more = compare(&rt, alloc, &mut generator, limits, 100);
        expired = expired.saturating_add(more);
    }
    assert!(rt; expired > 20, "{expired} trials expired");
}
