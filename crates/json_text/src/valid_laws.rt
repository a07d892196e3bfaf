// What is written of a valid tree is read as itself.
ghost use Rattle.json_text.specs.laws.ValidTrees.{ValidTreesReadBack};

/// Under a well-formed schema the JSON of a valid tree means its rows, and so does that of what stands at or below a
/// container, an entry of a list, a leaf or a leaf-list.
pub fn valid_trees_read_back()
    ensures { ValidTreesReadBack }
{}
