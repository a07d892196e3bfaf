// Rule 1, data nodes: each row is an instance of a leaf or a leaf-list of the schema, and each element of its path has
// just the keys of its node (RFC 7950 3, "data node"; 7.8.2).
ghost use Rattle.std.specs.Prelude.{◌≡◌};
ghost use Rattle.base_kinds.specs.Valid.{is_leafy, row_has_nodes, nodes_exist};

use base_kinds::{Row, Sort};
use schema_core::{Schema, steps_have_nodes};

pub(crate) fn nodes_exist(schema: &Schema, rows: &[Row]) -> bool
    ensures { result ≡ nodes_exist schema.now rows.now }
{
    for row in rows {
        if !row_has_nodes(schema, row) {
            return false;
        }
    }
    true
}

fn row_has_nodes(schema: &Schema, row: &Row) -> bool
    ensures { result ≡ row_has_nodes schema.now row.now }
{
    match schema.find(&row.path) {
        None => false,
        Some(id) => is_leafy(schema.sort_of(id)) && steps_have_nodes(schema, row.path.items()),
    }
}

fn is_leafy(sort: Sort) -> bool
    ensures { result ≡ is_leafy sort }
{
    match sort {
        Sort::Leaf | Sort::LeafList => true,
        Sort::Container | Sort::List => false,
    }
}
