// What a turn finds of the rows of each group: one walk over the rows that were sent, and one over those of now.
ghost use Rattle.std.specs.Prelude.{◌≡◌, fold, length};
ghost use Rattle.base_kinds.specs.Rising.{IsRising};
ghost use Rattle.sub_plan.specs.Groups.{group_of};
ghost use Rattle.stream_core.specs.inner.Walks.{nothing_found, found_all, found_row, found_in, found_gone, found_new};

use crate::beats::{is_gone, is_new_or_changed};
use crate::search::group_of;
use base_kinds::Row;
use sub_plan::Line;

/// What was found of a group's rows so far: whether some differ, and whether there are some.
#[derive(Clone, Copy, Debug, PartialEq, Eq)]
pub struct Found {
    pub differs: bool,
    pub some: bool,
}

/// Nothing was found yet.
fn clear(found: &mut [Found])
    ensures room { length found.new ≡ length found.old }
    ensures cleared { found.new ≡ nothing_found found.old }
{
    found.fill(Found {
        differs: false,
        some: false,
    });
}

fn found_row(found: Found, differs: bool) -> Found
    ensures { result ≡ found_row differs found }
{
    Found {
        differs: found.differs || differs,
        some: true,
    }
}

/// A row of the group is found, if there is such a group.
fn find_row(found: &mut [Found], group: Option<u32>, differs: bool)
    ensures room { length found.new ≡ length found.old }
    ensures found { found.new ≡ found_in group differs found.old }
{
    if let Some(group) = group {
        let number = group as usize;
        if number < found.len() {
            found[number] = found_row(found[number], differs);
        }
    }
}

fn find_gone(lines: &[Line], sent: &[Row], rows: &[Row], found: &mut [Found])
    requires { IsRising rows.now }
    ensures room { length found.new ≡ length found.old }
    ensures found { found.new ≡ found_gone lines.now rows.now found.old sent.now }
{
    for row in sent {
        find_row(found, group_of(lines, &row.path), is_gone(rows, row));
    }
}

fn find_new(lines: &[Line], sent: &[Row], rows: &[Row], found: &mut [Found])
    requires { IsRising sent.now }
    ensures room { length found.new ≡ length found.old }
    ensures found { found.new ≡ found_new lines.now sent.now found.old rows.now }
{
    for row in rows {
        find_row(
            found,
            group_of(lines, &row.path),
            is_new_or_changed(sent, row),
        );
    }
}

/// Finds it for all groups.
pub fn find_rows(lines: &[Line], sent: &[Row], rows: &[Row], found: &mut [Found])
    requires sent { IsRising sent.now }
    requires rows { IsRising rows.now }
    ensures room { length found.new ≡ length found.old }
    ensures found { found.new ≡ found_all lines.now sent.now rows.now found.old }
{
    clear(found);
    find_gone(lines, sent, rows, found);
    find_new(lines, sent, rows, found);
}
