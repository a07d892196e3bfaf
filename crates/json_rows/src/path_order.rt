// Rows in the order of their paths.
ghost use Rattle.std.specs.Prelude.{◌≡◌, [], IsTrue, IfOk, IsPermutation, IsSortedByKey};
ghost use Rattle.std.specs.List.{IsDistinct};
ghost use Rattle.base_lists.specs.Rising.{rises};
ghost use Rattle.base_kinds.specs.Paths.{path_cmp, same_path};
ghost use Rattle.base_kinds.specs.Tree.{set_rows};

use base_kinds::{NoMemory, Rows, Seq, rises};

fn sorted_rows(rows: Rows) -> Result<Rows, NoMemory>
    ensures same { IfOk result (λ sorted. IsPermutation rows sorted) }
    ensures sorted { IfOk result (λ sorted. IsSortedByKey (λ row. row.path) path_cmp sorted) }
{
    let mut stored = rows.into_vec();
    stored.sort_by(|a, b| a.path.cmp(&b.path))?;
    Ok(Seq::from_vec(stored))
}

/// The rows that stand in a tree where each of these is set.
#[tactic(auto, using(crate::proofs::Sorted::tree_of_sorted, crate::proofs::Sorted::sorted_rise, crate::proofs::Sorted::tree_of_itself))]
pub(crate) fn rows_by_path(rows: Rows) -> Result<Rows, NoMemory>
    requires { IsDistinct (λ a b. same_path a.path b.path) rows }
    ensures rows { IfOk result (λ sorted. sorted ≡ set_rows rows []) }
    ensures rising { IfOk result (λ sorted. IsTrue (rises (λ a b. path_cmp a.path b.path) sorted)) }
{
    if rises(rows.items()) {
        Ok(rows)
    } else {
        sorted_rows(rows)
    }
}
