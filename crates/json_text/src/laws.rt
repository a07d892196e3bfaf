// What is written is read as itself.
ghost use Rattle.json_text.specs.laws.ReadBack.{LeavesReadBack, LeafListsReadBack, TreesReadBack, ContainersReadBack, EntriesReadBack, NoEntriesReadBack, ScalarsReadBack};

/// The JSON of a leaf means the leaf's value.
pub fn leaves_read_back()
    ensures { LeavesReadBack }
{}

/// The JSON of a leaf-list means its values, in their order.
pub fn leaf_lists_read_back()
    ensures { LeafListsReadBack }
{}

/// The JSON of a whole tree means its rows, and so does that at the path of a container, of a list's entry, of a leaf or
/// of a leaf-list.
pub fn trees_read_back()
    ensures root { TreesReadBack }
    ensures container { ContainersReadBack }
    ensures entry { EntriesReadBack }
    ensures no_entry { NoEntriesReadBack }
    ensures scalar { ScalarsReadBack }
{}
