ghost use Rattle.std.specs.Prelude.{◌≡◌, true, false, IfOk, OnOk, IsErrOf};
ghost use Rattle.base_kinds.specs.Valid.{valid, fits};
ghost use Rattle.base_kinds.specs.Rising.{IsRising};

use crate::data_nodes::nodes_exist;
use crate::fault::CheckFault;
use crate::max_elements::max_elements_hold;
use crate::tree_size::fits;
use crate::types::types_hold;
use crate::{keys_hold, leafrefs_resolve, mandatory_present};
use base_kinds::{NoMemory, Row, Rows};
use schema_core::Schema;
use std::alloc::Global;

/// Whether the rows are a valid tree under the schema (RFC 7950 7.6.5, 7.7.6, 7.8.2, 9.9), and then, whether they are
/// few and light enough. An invalid tree is `TreeInvalid`, whatever its size, and a valid one that is too large
/// `TreeFull`.
pub fn check(alloc: Global, schema: &Schema, rows: &Rows) -> Result<(), CheckFault>
    requires rising { IsRising rows.now }
    ensures ok { OnOk result
        ((valid schema.now rows.now ≡ true) × (fits rows.now ≡ true)) }
    ensures invalid { IsErrOf result CheckFault.TreeInvalid → valid schema.now rows.now ≡ false }
    ensures full { IsErrOf result CheckFault.TreeFull →
        (valid schema.now rows.now ≡ true) × (fits rows.now ≡ false) }
{
    if !is_valid(alloc, schema, rows.items())? {
        return Err(CheckFault::TreeInvalid);
    }
    if !fits(rows.items()) {
        return Err(CheckFault::TreeFull);
    }
    Ok(())
}

/// The six rules, each of which sees only what passed those before it.
fn is_valid(alloc: Global, schema: &Schema, rows: &[Row]) -> Result<bool, NoMemory>
    requires { IsRising rows.now }
    ensures { IfOk result (λ is. is ≡ valid schema.now rows.now) }
{
    Ok(
        nodes_exist(schema, rows)
            && types_hold(alloc, schema, rows)?
            && keys_hold(alloc, rows)?
            && mandatory_present(schema, rows)
            && leafrefs_resolve(alloc, schema, rows)?
            && max_elements_hold(schema, rows),
    )
}
