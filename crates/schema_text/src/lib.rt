//! The text of a schema, read exactly.
//!
//! Start at `schema_of` (specs/Schemas.antt): the schema that a text is, or the first fault and its line. It is over the lines
//! of specs/Grammar.antt and their words (specs/Words.antt), and `read_schema` (src/schemas.rt) gives it. The form is this
//! project's own; it declares data nodes of RFC 7950. What is read is well-formed (`IsWellFormed` of schema_core).
#![tactic(auto)]

mod cause;
mod grammar;
mod laws;
mod line;
mod numbers;
mod octets;
mod reading;
mod references;
mod schemas;
mod shapes;
mod texts;

pub use cause::{Cause, SchemaError, SchemaFault};
pub use laws::{empty_text_has_no_nodes, parents_stand_first, read_schemas_are_well_formed};
pub use schemas::read_schema;
