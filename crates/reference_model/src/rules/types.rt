// Rule 2, types: each value is of its node's type (RFC 7950 4.2.4); a leaf-list has a list of such values, no two of
// them equal (7.7).
ghost use Rattle.std.specs.Prelude.{◌≡◌};
ghost use Rattle.std.specs.List.{list_all};
ghost use Rattle.base_kinds.specs.Values.{has_shape};
ghost use Rattle.base_kinds.specs.Valid.{has_type, row_has_type, types_hold};

use crate::schema::{Node, node_at};
use crate::values::{all_differ, has_shape, is_list, values_in};
use base_kinds::{Row, Shape, Sort, Value};

pub(crate) fn types_hold(schema: &[Node], rows: &[Row]) -> bool
    ensures { result ≡ types_hold schema.now rows.now }
{
    match rows.split_first() {
        None => true,
        Some((row, others)) => row_has_type(schema, row) && types_hold(schema, others),
    }
}

fn row_has_type(schema: &[Node], row: &Row) -> bool
    ensures { result ≡ row_has_type schema.now row.now }
{
    match node_at(schema, row.path.items()) {
        None => false,
        Some(node) => match &node.shape {
            None => false,
            Some(shape) => has_type(node.sort, shape, &row.value),
        },
    }
}

fn has_type(sort: Sort, shape: &Shape, value: &Value) -> bool
    ensures { result ≡ has_type sort shape.now value.now }
{
    match sort {
        Sort::Leaf => has_shape(shape, value),
        Sort::LeafList => {
            let values = values_in(value);
            is_list(value) && have_shape(shape, values) && all_differ(values)
        }
        Sort::Container | Sort::List => false,
    }
}

fn have_shape(shape: &Shape, values: &[Value]) -> bool
    ensures { result ≡ list_all (has_shape shape.now) values.now }
{
    match values.split_first() {
        None => true,
        Some((value, others)) => has_shape(shape, value) && have_shape(shape, others),
    }
}
