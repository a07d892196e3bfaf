ghost use Rattle.std.specs.Prelude.{◌≡◌, ◌↔◌, IsTrue, List, Ok, [], ◌∷◌};
ghost use Rattle.base_kinds.specs.declared.operation.Row.{Row as TreeRow};
ghost use Rattle.base_kinds.specs.Schema.{SchemaNode};
ghost use Rattle.base_kinds.specs.Valid.{valid, IsValid};
ghost use Rattle.base_kinds.specs.History.{world_of};
ghost use Rattle.base_kinds.specs.Step.{step};
ghost use Rattle.base_kinds.specs.worked.Samples.{system_rules, hostname_set, hostname_entry, hostname_tree};

/// The definitions, evaluated on a first Set of `/system/config/hostname` at reading 1000 by author 1, under a schema of
/// two leaves: it is entry 1 at stamp 1000, and the tree then has its row.
pub fn first_set_is_entry_one()
    ensures entry { step system_rules [] 1000 1 hostname_set ≡ Ok hostname_entry }
    ensures tree { (world_of (hostname_entry ∷ [])).tree ≡ hostname_tree }
{}

/// A tree is valid exactly where each of the six rules holds of it.
pub fn validity_is_six_rules()
    ensures { (schema : List SchemaNode) (rows : List TreeRow) → IsTrue (valid schema rows)
        ↔ IsValid schema rows }
{}
