// The text of a schema, whole.
ghost use Rattle.std.specs.Prelude.{◌≡◌, Ok, IfOk, IfErr};
ghost use Rattle.schema_core.specs.WellFormed.{IsWellFormed};
ghost use Rattle.schema_text.specs.Schemas.{schema_of, IsFaultOf};

use crate::cause::SchemaError;
use crate::reading::{Reading, read_lines};
use crate::references::first_fault;
use schema_core::Schema;
use std::alloc::Global;

/// The schema that the text is (lines that end with a line feed, at most 1,048,576 octets), or its first fault: that of the first line that can't be taken, or where each can be,
/// that of the first line whose list lacks a key or whose leaf lacks the leaf that it refers to.
pub fn read_schema(alloc: Global, text: &[u8]) -> Result<Schema, SchemaError>
    ensures ok { IfOk result (λ schema. schema_of text.now ≡ Ok schema) }
    ensures refused { IfErr result (λ error. IsFaultOf error (schema_of text.now)) }
    ensures well_formed { IfOk result (λ schema. IsWellFormed schema) }
{
    let Reading {
        schema,
        lines,
        module_name,
    } = read_lines(alloc, text)?;
    drop(module_name);
    let first = first_fault(&schema, lines.as_slice());
    drop(lines);
    match first {
        None => Ok(schema),
        Some(fault) => {
            drop(schema);
            Err(SchemaError::Fault(fault))
        }
    }
}
