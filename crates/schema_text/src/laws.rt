ghost use Rattle.std.specs.Prelude.{◌≡◌, Ok, List, ℕ, []};
ghost use Rattle.base_kinds.specs.Schema.{SchemaNode};
ghost use Rattle.schema_core.specs.Nodes.{AllPlaced};
ghost use Rattle.schema_text.specs.laws.Schemas.{ReadSchemasAreWellFormed};
ghost use Rattle.schema_text.specs.Schemas.{schema_of};

/// The empty text is the empty schema.
pub fn empty_text_has_no_nodes()
    ensures { schema_of [] ≡ Ok [] }
{}

/// In a schema text that is one no names stand twice, and each node's parent stands before it.
pub fn parents_stand_first()
    ensures { (text : List ℕ) (nodes : List SchemaNode) → schema_of text ≡ Ok nodes →
        AllPlaced nodes }
{}

/// A schema text that is one is a well-formed schema.
pub fn read_schemas_are_well_formed()
    ensures { ReadSchemasAreWellFormed }
{}
