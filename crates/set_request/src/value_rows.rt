// The rows that a value gives at its path.
ghost use Rattle.std.specs.Prelude.{◌≡◌, ◌≢◌, ◌∷◌, [], Ok, Err, IfOk, IfErr};
ghost use Rattle.std.specs.Option.{option_map, option_and_then};
ghost use Rattle.base_lists.specs.Results.{IsUnlessMemory};
ghost use Rattle.base_kinds.specs.Schema.{node_at};
ghost use Rattle.json_rows.specs.Rows.{rows_of};
ghost use Rattle.set_request.specs.Scalars.{value_in_shape, values_in_shape};
ghost use Rattle.set_request.specs.ValueRows.{row_at, list_row, row_of_distinct, refusal_of, rows_of_leaf_list, rows_at_sort, rows_of_scalar, rows_of_json, rows_of_value};

use crate::scalars::{value_in_shape, values_in_shape};
use base_kinds::{
    Bytes, Copied, Given, NoMemory, Path, Refusal, Row, Rows, Seq, Shape, Sort, Value, Values,
};
use json_rows::{RowsFault, rows_of};
use schema_core::Schema;
use std::alloc::Global;
use value_core::all_differ;

/// The rows of the value, rising by path.
pub(crate) fn rows_of_value(
    alloc: Global,
    schema: &Schema,
    path: &Path,
    given: &Given,
) -> Result<Rows, Refusal>
    ensures answer { IsUnlessMemory Refusal.NoMemory result
        (rows_of_value schema.now path.now given.now) }
{
    match given {
        Given::Json(json) => rows_of_json(alloc, schema, path, json),
        Given::Scalar(value) => match rows_of_scalar(alloc, schema, path, value)? {
            Some(rows) => Ok(rows),
            None => Err(Refusal::BadValue),
        },
        Given::Missing => Err(Refusal::BadValue),
    }
}

fn rows_of_json(alloc: Global, schema: &Schema, path: &Path, json: &Bytes) -> Result<Rows, Refusal>
    ensures answer { IsUnlessMemory Refusal.NoMemory result
        (rows_of_json (rows_of schema.now path.now json.now)) }
{
    match rows_of(alloc, schema, path, json.items()) {
        Ok(rows) => Ok(rows),
        Err(fault) => Err(refusal_of(fault)),
    }
}

fn refusal_of(fault: RowsFault) -> Refusal
    ensures { result ≡ refusal_of fault }
{
    match fault {
        RowsFault::NotInSchema => Refusal::NotInSchema,
        RowsFault::BadValue => Refusal::BadValue,
        RowsFault::NoMemory => Refusal::NoMemory,
    }
}

/// The rows of a scalar, where it may stand.
fn rows_of_scalar(
    alloc: Global,
    schema: &Schema,
    path: &Path,
    value: &Value,
) -> Result<Option<Rows>, NoMemory>
    ensures { IfOk result (λ rows. rows ≡ rows_of_scalar (node_at schema.now path.now) path.now
        value.now) }
{
    let Some(id) = schema.find(path) else {
        return Ok(None);
    };
    let node = schema.node(id);
    let Some(shape) = node.shape() else {
        return Ok(None);
    };
    rows_at_sort(alloc, node.sort(), shape, path, value)
}

fn rows_at_sort(
    alloc: Global,
    sort: Sort,
    shape: &Shape,
    path: &Path,
    value: &Value,
) -> Result<Option<Rows>, NoMemory>
    ensures { IfOk result (λ rows. rows ≡ rows_at_sort sort shape.now path.now value.now) }
{
    match sort {
        Sort::Leaf => rows_of_leaf(alloc, shape, path, value),
        Sort::LeafList => rows_of_leaf_list(alloc, shape, path, value),
        Sort::Container | Sort::List => Ok(None),
    }
}

fn rows_of_leaf(
    alloc: Global,
    shape: &Shape,
    path: &Path,
    value: &Value,
) -> Result<Option<Rows>, NoMemory>
    ensures { IfOk result (λ rows. rows ≡ option_map (row_at path.now)
        (value_in_shape shape.now value.now)) }
{
    match value_in_shape(alloc, shape, value)? {
        Some(found) => Ok(Some(row_at(alloc, path, found)?)),
        None => Ok(None),
    }
}

/// The values of a leaf-list, where each may stand there and no two stand for equal ones.
fn rows_of_leaf_list(
    alloc: Global,
    shape: &Shape,
    path: &Path,
    value: &Value,
) -> Result<Option<Rows>, NoMemory>
    ensures { IfOk result (λ rows. rows ≡ rows_of_leaf_list shape.now path.now value.now) }
{
    match value {
        Value::List(values) => rows_of_distinct(alloc, shape, path, values.items()),
        _ => Ok(None),
    }
}

fn rows_of_distinct(
    alloc: Global,
    shape: &Shape,
    path: &Path,
    scalars: &[Value],
) -> Result<Option<Rows>, NoMemory>
    ensures { IfOk result (λ rows. rows ≡ option_and_then (row_of_distinct path.now)
        (values_in_shape shape.now [] scalars.now)) }
{
    let Some(kept) = values_in_shape(alloc, shape, scalars)? else {
        return Ok(None);
    };
    match all_differ(alloc, kept.items()) {
        Ok(true) => Ok(Some(list_row(alloc, path, kept)?)),
        Ok(false) => {
            drop(kept);
            Ok(None)
        }
        Err(NoMemory) => {
            drop(kept);
            Err(NoMemory)
        }
    }
}

/// The row of a leaf-list; without values it has none.
fn list_row(alloc: Global, path: &Path, values: Values) -> Result<Rows, NoMemory>
    ensures { IfOk result (λ rows. rows ≡ list_row path.now values) }
{
    if values.is_empty() {
        return Ok(Seq::empty(alloc));
    }
    row_at(alloc, path, Value::List(values))
}

fn row_at(alloc: Global, path: &Path, value: Value) -> Result<Rows, NoMemory>
    ensures { IfOk result (λ rows. rows ≡ row_at path.now value) }
{
    match path.copy(alloc) {
        Ok(path) => one_row(alloc, Row { path, value }),
        Err(NoMemory) => {
            drop(value);
            Err(NoMemory)
        }
    }
}

fn one_row(alloc: Global, row: Row) -> Result<Rows, NoMemory>
    ensures { IfOk result (λ rows. rows ≡ row ∷ []) }
{
    let mut rows = Seq::empty(alloc);
    match rows.push(row) {
        Ok(()) => Ok(rows),
        Err(NoMemory) => {
            drop(rows);
            Err(NoMemory)
        }
    }
}
