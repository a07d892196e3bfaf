// Looking up paths: a row's value among rows that rise, and the group of a path.
ghost use Rattle.std.specs.Prelude.{◌≡◌, Some, None};
ghost use Rattle.std.specs.Option.{option_copied};
ghost use Rattle.base_kinds.specs.Rising.{IsRising, value_at};
ghost use Rattle.sub_plan.specs.Groups.{group_of};

use base_kinds::{Path, Row, Value};
use path_core::{cmp_paths, covers};
use std::cmp::Ordering;
use sub_plan::Line;

#[tactic(auto, using(crate::proofs::Found::whole, crate::proofs::Found::before_middle, crate::proofs::Found::nothing_between))]
/// The value at the path, found by binary search. Takes no memory.
pub fn value_of<'a>(rows: &'a [Row], path: &Path) -> Option<&'a Value>
    requires { IsRising rows.now }
    ensures { option_copied result ≡ value_at path.now rows.now }
{
    let (mut low, mut high) = (0, rows.len());
    while low < high {
        let middle = low + (high - low) / 2;
        let row = &rows[middle];
        match cmp_paths(&row.path, path) {
            Ordering::Equal => return Some(&row.value),
            Ordering::Less => low = middle + 1,
            Ordering::Greater => high = middle,
        }
    }
    None
}

/// The group of the first line that covers the path. Takes no memory.
pub fn group_of(lines: &[Line], path: &Path) -> Option<u32>
    ensures { result ≡ group_of lines.now path.now }
{
    for line in lines {
        if covers(&line.pattern, path) {
            return Some(line.group);
        }
    }
    None
}
