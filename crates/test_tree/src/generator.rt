use crate::short_paths::text_of;
use base_kinds::{Act, Elem, Keys, Op, Path, Paths, Row, Rows, Value};
use std::alloc::Global;
use std::process::Abort;

/// Names of elements. Those from the fourth on stand in patterns alone.
const NAMES: &[&str] = &["a", "b", "if", "*", "..."];

/// Names of keys.
const KEYS: &[&str] = &["k", "n"];

/// Values of keys. The last one stands in patterns alone.
const VALUES: &[&str] = &["x", "y", "*"];

/// What a path is made for.
#[derive(Clone, Copy, PartialEq, Eq)]
pub enum Use {
    Row,
    Pattern,
}

/// A linear congruential generator with the constants of Knuth's MMIX.
#[derive(Drop)]
pub struct Generator {
    state: u64,
}

impl Generator {
    pub fn of(seed: u64) -> Generator {
        Generator { state: seed }
    }

    /// A number below this one.
    fn below(&mut self, bound: u64) -> u64 {
        self.state = self
            .state
            .wrapping_mul(6_364_136_223_846_793_005)
            .wrapping_add(1_442_695_040_888_963_407);
        (self.state >> 33).checked_rem(bound).unwrap_or(0)
    }

    fn word(&mut self, words: &[&'static str]) -> &'static str {
        let at = self.below(words.len() as u64) as usize;
        words.get(at).copied().unwrap_or("a")
    }

    /// The keys of an element, which rise by name; in a pattern each may be left out.
    fn keys(&mut self, rt: &impl Abort, alloc: Global, is_row: bool) -> Keys {
        let mut keys = Keys::empty(alloc);
        for key in KEYS {
            if is_row || self.below(2) == 0 {
                let value = self.word(if is_row { &VALUES[..2] } else { VALUES });
                keys.push((text_of(rt, alloc, key), text_of(rt, alloc, value)))
                    .expect(rt, "memory");
            }
        }
        keys
    }

    fn elem(&mut self, rt: &impl Abort, alloc: Global, purpose: Use) -> Elem {
        let is_row = purpose == Use::Row;
        let name = self.word(if is_row { &NAMES[..3] } else { NAMES });
        let keys = if name == "if" {
            self.keys(rt, alloc, is_row)
        } else {
            Keys::empty(alloc)
        };
        Elem {
            name: text_of(rt, alloc, name),
            keys,
        }
    }

    /// A path of at most four elements; a row's has one at least.
    pub fn path(&mut self, rt: &impl Abort, alloc: Global, purpose: Use) -> Path {
        let least = if purpose == Use::Row { 1 } else { 0 };
        let mut path = Path::empty(alloc);
        for _ in 0..self.below(4).saturating_add(least) {
            path.push(self.elem(rt, alloc, purpose))
                .expect(rt, "memory");
        }
        path
    }

    pub fn patterns(&mut self, rt: &impl Abort, alloc: Global) -> Paths {
        let mut patterns = Paths::empty(alloc);
        for _ in 0..self.below(4) {
            patterns
                .push(self.path(rt, alloc, Use::Pattern))
                .expect(rt, "memory");
        }
        patterns
    }

    fn rows(&mut self, rt: &impl Abort, alloc: Global, most: u64) -> Rows {
        let mut rows = Rows::empty(alloc);
        for _ in 0..self.below(most) {
            rows.push(Row {
                path: self.path(rt, alloc, Use::Row),
                value: Value::Uint(self.below(100)),
            })
            .expect(rt, "memory");
        }
        rows
    }

    /// About one delete among three replaces and six updates.
    pub fn op(&mut self, rt: &impl Abort, alloc: Global) -> Op {
        let (act, most) = match self.below(10) {
            0 => (Act::Delete, 0),
            1..=3 => (Act::Replace, 4),
            _ => (Act::Update, 8),
        };
        Op {
            act,
            path: self.path(rt, alloc, Use::Pattern),
            rows: self.rows(rt, alloc, most),
        }
    }
}
