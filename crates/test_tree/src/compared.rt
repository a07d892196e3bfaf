use crate::generator::Generator;
use base_kinds::{Op, Ops, Path, Paths, Rows, Same, Text, TreeLike};
use plain_tree::PlainTree;
use reference_model::{effect, part_of};
use std::alloc::Global;
use std::process::Abort;

/// The pattern that covers every row.
fn root(rt: &impl Abort, alloc: Global) -> Paths {
    let mut patterns = Paths::empty(alloc);
    patterns.push(Path::empty(alloc)).expect(rt, "memory");
    patterns
}

fn octets_in(text: &Text) -> u64 {
    text.octets().len() as u64
}

/// The weight of rows whose values are numbers: 64 and 32 a row, 16 for each element and key beside its octets.
fn weight_of(rows: &Rows) -> u64 {
    let mut weight = 0u64;
    for row in rows.items() {
        weight = weight.saturating_add(96);
        for elem in row.path.items() {
            weight = weight
                .saturating_add(16)
                .saturating_add(octets_in(&elem.name));
            for (name, value) in elem.keys.items() {
                weight = weight.saturating_add(16).saturating_add(octets_in(name));
                weight = weight.saturating_add(octets_in(value));
            }
        }
    }
    weight
}

/// Whether the part of the tree that some pattern covers is of these rows.
fn is_part<T: TreeLike>(
    rt: &impl Abort,
    alloc: Global,
    tree: &T,
    patterns: &Paths,
    rows: &Rows,
) -> bool {
    let part = tree.part(alloc, patterns).expect(rt, "memory");
    part.same(rows)
}

/// Whether the tree has these rows, as many of them, and as heavy ones.
fn has_rows<T: TreeLike>(rt: &impl Abort, alloc: Global, tree: &T, model: &Rows) -> bool {
    is_part(rt, alloc, tree, &root(rt, alloc), model)
        && tree.count() == model.len() as u64
        && tree.weight() == weight_of(model)
}

/// Whether the part of the tree is that of the rows.
fn has_part<T: TreeLike>(
    rt: &impl Abort,
    alloc: Global,
    tree: &T,
    model: &Rows,
    patterns: &Paths,
) -> bool {
    let part = part_of(alloc, patterns, model).expect(rt, "memory");
    is_part(rt, alloc, tree, patterns, &part)
}

fn assert_same<T: TreeLike>(
    rt: &impl Abort,
    alloc: Global,
    tree: &T,
    model: &Rows,
    patterns: &Paths,
    round: u32,
) {
    assert!(rt;
        has_rows(rt, alloc, tree, model),
        "rows after round {round}"
    );
    assert!(rt;
        has_part(rt, alloc, tree, model, patterns),
        "part after round {round}"
    );
}

/// The rows behind one operation.
fn rows_behind(rt: &impl Abort, alloc: Global, op: Op, rows: &Rows) -> Rows {
    let mut ops = Ops::empty(alloc);
    ops.push(op).expect(rt, "memory");
    effect(alloc, &ops, rows).expect(rt, "memory")
}

/// Applies the operation to both, and answers the rows behind it.
fn apply<T: TreeLike>(rt: &impl Abort, alloc: Global, tree: &mut T, op: Op, rows: &Rows) -> Rows {
    tree.apply(alloc, &op).expect(rt, "memory");
    rows_behind(rt, alloc, op, rows)
}

/// Applies so many generated operations to both, one after another, and compares the rows, their number and weight,
/// and a part of them after each.
/// The most rows that stood are the result.
fn compare<T: TreeLike>(rt: &impl Abort, alloc: Global, tree: &mut T, rounds: u32) -> usize {
    let mut generator = Generator::of(1);
    let mut model = Rows::empty(alloc);
    let mut most = 0;
    for round in 0..rounds {
        model = apply(rt, alloc, tree, generator.op(rt, alloc), &model);
        let patterns = generator.patterns(rt, alloc);
        assert_same(rt, alloc, tree, &model, &patterns, round);
        most = most.max(model.len());
    }
    most
}

#[test]
fn a_plain_tree_is_as_the_reference_model(rt: HostRuntime) {
    let alloc = rt.alloc();
    let most = compare(&rt, alloc, &mut PlainTree::empty(alloc), 300);
    assert!(rt; most > 20, "{most} rows at most");
}
