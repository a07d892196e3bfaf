// Rule 2, types: each value is of its node's type (RFC 7950 4.2.4); a leaf-list has a list of such values, no two of
// them equal (7.7).
ghost use Rattle.std.specs.Prelude.{◌≡◌, IfOk};
ghost use Rattle.std.specs.List.{list_all};
ghost use Rattle.base_kinds.specs.Values.{has_shape};
ghost use Rattle.base_kinds.specs.Valid.{has_type, row_has_type, types_hold};

use base_kinds::{NoMemory, Row, Shape, Sort, Value};
use schema_core::Schema;
use std::alloc::Global;
use value_core::{all_differ, check_value};

pub(crate) fn types_hold(alloc: Global, schema: &Schema, rows: &[Row]) -> Result<bool, NoMemory>
    ensures { IfOk result (λ is. is ≡ types_hold schema.now rows.now) }
{
    for row in rows {
        if !row_has_type(alloc, schema, row)? {
            return Ok(false);
        }
    }
    Ok(true)
}

fn row_has_type(alloc: Global, schema: &Schema, row: &Row) -> Result<bool, NoMemory>
    ensures { IfOk result (λ is. is ≡ row_has_type schema.now row.now) }
{
    match schema.find(&row.path) {
        None => Ok(false),
        Some(id) => match schema.shape_of(id) {
            None => Ok(false),
            Some(shape) => has_type(alloc, schema.sort_of(id), shape, &row.value),
        },
    }
}

fn has_type(alloc: Global, sort: Sort, shape: &Shape, value: &Value) -> Result<bool, NoMemory>
    ensures { IfOk result (λ is. is ≡ has_type sort shape.now value.now) }
{
    match sort {
        Sort::Leaf => Ok(check_value(shape, value)),
        Sort::LeafList => {
            let values = value.values();
            if !value.is_list() || !have_shape(shape, values) {
                return Ok(false);
            }
            all_differ(alloc, values)
        }
        Sort::Container | Sort::List => Ok(false),
    }
}

fn have_shape(shape: &Shape, values: &[Value]) -> bool
    ensures { result ≡ list_all (has_shape shape.now) values.now }
{
    for value in values {
        if !check_value(shape, value) {
            return false;
        }
    }
    true
}
