// Which trees are valid under a schema.
ghost use Rattle.std.specs.Prelude.{◌≡◌, IfOk};
ghost use Rattle.base_kinds.specs.Valid.{valid};

use crate::rules::data_nodes::nodes_exist;
use crate::rules::leafref::leafrefs_resolve;
use crate::rules::list_keys::keys_hold;
use crate::rules::mandatory::mandatory_present;
use crate::rules::max_elements::max_elements_hold;
use crate::rules::types::types_hold;
use crate::schema::Node;
use base_kinds::{NoMemory, Row};
use std::alloc::Global;

/// Whether the rows are a valid tree under the schema.
pub fn is_valid(alloc: Global, schema: &[Node], rows: &[Row]) -> Result<bool, NoMemory>
    ensures { IfOk result (λ is. is ≡ valid schema.now rows.now) }
{
    Ok(
        nodes_exist(schema, rows)
            && types_hold(schema, rows)
            && keys_hold(alloc, rows)?
            && mandatory_present(schema, rows)
            && leafrefs_resolve(schema, rows)
            && max_elements_hold(alloc, schema, rows)?,
    )
}
