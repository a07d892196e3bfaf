// The rows that patterns choose.
ghost use Rattle.std.specs.Prelude.{◌≡◌, ◌++◌, IfOk, OnOk};
ghost use Rattle.base_kinds.specs.Parts.{is_covered, part};

use crate::matching::covers;
use base_kinds::{NoMemory, Path, Paths, Row, Rows, Seq};
use std::alloc::Global;

/// Whether some pattern covers the path.
pub fn is_covered(patterns: &Paths, path: &Path) -> bool
    ensures { result ≡ is_covered patterns.now path.now }
{
    some_covers(patterns.items(), path)
}

fn some_covers(patterns: &[Path], path: &Path) -> bool
    ensures { result ≡ is_covered patterns.now path.now }
{
    match patterns.split_first() {
        None => false,
        Some((pattern, others)) => covers(pattern, path) || some_covers(others, path),
    }
}

/// The rows that some pattern covers.
pub fn part_of(alloc: Global, patterns: &Paths, rows: &Rows) -> Result<Rows, NoMemory>
    ensures { IfOk result (λ found. found ≡ part patterns.now rows.now) }
{
    let mut found = Seq::empty(alloc);
    match put_part(alloc, patterns, rows.items(), &mut found) {
        Ok(()) => Ok(found),
        Err(NoMemory) => {
            drop(found);
            Err(NoMemory)
        }
    }
}

fn put_part(alloc: Global, patterns: &Paths, rows: &[Row], found: &mut Rows) -> Result<(), NoMemory>
    ensures { OnOk result (found.new ≡ found.old ++ part patterns.now rows.now) }
{
    let Some((row, others)) = rows.split_first() else {
        return Ok(());
    };
    if is_covered(patterns, &row.path) {
        found.push_copy(alloc, row)?;
    }
    put_part(alloc, patterns, others, found)
}
