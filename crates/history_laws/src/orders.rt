ghost use Rattle.std.specs.Cmp.{IsTotalOrder};
ghost use Rattle.base_kinds.specs.Paths.{path_cmp};
ghost use Rattle.history_laws.specs.OrderLaws.{TellsPathsApart};

/// Paths are in a total order, which calls two paths equal exactly where they are.
pub fn paths_are_ordered()
    ensures total { IsTotalOrder path_cmp }
    ensures exact { TellsPathsApart }
{}
