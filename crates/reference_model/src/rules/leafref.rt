// Rule 5, leafref: the value of a leaf that refers to another one is the value of some instance of that leaf
// (RFC 7950 9.9, with "require-instance" true).
ghost use Rattle.std.specs.Prelude.{◌≡◌, ◌&&◌};
ghost use Rattle.std.specs.List.{list_all};
ghost use Rattle.base_kinds.specs.Schema.{names_of, same_names};
ghost use Rattle.base_kinds.specs.Values.{same_scalar};
ghost use Rattle.base_kinds.specs.Valid.{refers, row_resolves, leafrefs_resolve};

use crate::schema::{Node, has_names, node_at};
use crate::values::same_scalar;
use base_kinds::{Row, Text, Value};

pub(crate) fn leafrefs_resolve(schema: &[Node], rows: &[Row]) -> bool
    ensures { result ≡ leafrefs_resolve schema.now rows.now }
{
    each_resolves(schema, rows, rows)
}

/// Whether each of these rows resolves among all rows.
fn each_resolves(schema: &[Node], all: &[Row], rows: &[Row]) -> bool
    ensures { result ≡ list_all (row_resolves schema.now all.now) rows.now }
{
    match rows.split_first() {
        None => true,
        Some((row, others)) => row_resolves(schema, all, row) && each_resolves(schema, all, others),
    }
}

fn row_resolves(schema: &[Node], rows: &[Row], row: &Row) -> bool
    ensures { result ≡ row_resolves schema.now rows.now row.now }
{
    match node_at(schema, row.path.items()) {
        None => false,
        Some(node) => match &node.reference {
            None => true,
            Some(names) => refers(rows, &row.value, names.items()),
        },
    }
}

/// Whether some row of the leaf with these names has the value.
fn refers(rows: &[Row], value: &Value, names: &[Text]) -> bool
    ensures { result ≡ refers rows.now value.now names.now }
{
    match rows.split_first() {
        None => false,
        Some((row, others)) => has_value(row, value, names) || refers(others, value, names),
    }
}

/// Whether the row is of the leaf with these names, and has the value.
fn has_value(row: &Row, value: &Value, names: &[Text]) -> bool
    ensures { result ≡ (same_names (names_of row.now.path) names.now
        && same_scalar row.now.value value.now) }
{
    has_names(row.path.items(), names) && same_scalar(&row.value, value)
}
