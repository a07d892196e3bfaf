// Rows that stand side by side and share a part of their paths.
ghost use Rattle.std.specs.Prelude.{◌≡◌, ◌≤◌, ◌<◌, ◌∷◌, length};
ghost use Rattle.json_text.specs.Runs.{runs, share_name, share_entry};
ghost use Rattle.json_text.specs.inner.Splits.{shares, run_length};

use base_kinds::Row;
use std::cmp::Ordering;

/// What the rows of a run share at a depth of their paths: the name there, or the keys too.
#[derive(Clone, Copy)]
pub(crate) enum Shared {
    Name,
    Entry,
}

fn shares(shared: Shared, depth: usize, a: &Row, b: &Row) -> bool
    ensures { result ≡ shares shared depth a.now b.now }
{
    match (a.path.get(depth), b.path.get(depth)) {
        (Some(a), Some(b)) => match shared {
            Shared::Name => a.name.octets() == b.name.octets(),
            Shared::Entry => a.cmp(b) == Ordering::Equal,
        },
        _ => false,
    }
}

/// How many of the rows go on the run that this one stands before.
fn run_length(shared: Shared, depth: usize, first: &Row, rows: &[Row]) -> usize
    ensures value { result ≡ run_length (shares shared depth) first.now rows.now }
    ensures bound { result ≤ length rows.now }
{
    let mut last = first;
    for (count, row) in rows.iter().enumerate() {
        if !shares(shared, depth, last, row) {
            return count;
        }
        last = row;
    }
    rows.len()
}

/// The first run of the rows, and those behind it.
#[tactic(auto, using(crate::proofs::Cuts::run_length_le))]
pub(crate) fn split_run(shared: Shared, depth: usize, rows: &[Row]) -> (&[Row], &[Row])
    requires { 0 < length rows.now }
    ensures cut { runs (shares shared depth) rows.now ≡ result.0.now ∷ runs (shares shared depth)
        result.1.now }
    ensures fewer { length result.1.now < length rows.now }
{
    let count = run_length(shared, depth, &rows[0], &rows[1..]);
    rows.split_at(count + 1)
}
