// Rule 5, leafref: the value of a leaf that refers to another one is the value of some instance of that leaf
// (RFC 7950 9.9, with "require-instance" true).
ghost use Rattle.std.specs.Prelude.{◌≡◌, [], true, false, IfOk, IfSome, IsNone};
ghost use Rattle.std.specs.List.{list_all};
ghost use Rattle.std.specs.List.Sorted.{IsSorted};
ghost use Rattle.base_kinds.specs.Valid.{leafrefs_resolve};
ghost use Rattle.tree_check.specs.inner.LeafrefTargets.{has_target, row_has_target, target_cmp, AreNumbered, AreTargets};

use base_kinds::{NoMemory, Row, Text, Value};
use schema_core::Schema;
use std::alloc::Global;
use value_core::{Scalar, scalar_of};

/// Whether the value of each row of a leaf that refers to another one is the value of some row of that leaf; false
/// too where a row has no node. Takes memory for a reference to each row's value: these are sorted once, and each
/// value is looked up in the logarithm of their number.
#[tactic(auto, using(crate::proofs::Targets::targets_decide))]
pub fn leafrefs_resolve(alloc: Global, schema: &Schema, rows: &[Row]) -> Result<bool, NoMemory>
    ensures { IfOk result (λ is. is ≡ leafrefs_resolve schema.now rows.now) }
{
    match targets_of(alloc, schema, rows) {
        Ok(None) => Ok(false),
        Ok(Some(targets)) => {
            let is_resolved = each_has_target(schema, targets.as_slice(), rows);
            drop(targets);
            Ok(is_resolved)
        }
        Err(NoMemory) => Err(NoMemory),
    }
}

/// Each leaf's value with the number of its node, in order; none where some row has no node.
fn targets_of<'a>(
    alloc: Global,
    schema: &Schema,
    rows: &'a [Row],
) -> Result<Option<Vec<(u32, Scalar<'a>)>>, NoMemory>
    ensures targets { IfOk result (λ found.
        IfSome found (λ targets. AreTargets schema.now rows.now targets.items)) }
    ensures sorted { IfOk result (λ found.
        IfSome found (λ targets. IsSorted target_cmp targets.items)) }
    ensures unknown { IfOk result (λ found.
        IsNone found → leafrefs_resolve schema.now rows.now ≡ false) }
{
    let mut targets = Vec::new(alloc);
    match put_targets(schema, rows, &mut targets) {
        Ok(true) => {
            targets.sort_unstable();
            Ok(Some(targets))
        }
        Ok(false) => {
            drop(targets);
            Ok(None)
        }
        Err(NoMemory) => {
            drop(targets);
            Err(NoMemory)
        }
    }
}

/// Adds each leaf's value with the number of its node; false where some row has no node.
fn put_targets<'a>(
    schema: &Schema,
    rows: &'a [Row],
    targets: &mut Vec<(u32, Scalar<'a>)>,
) -> Result<bool, NoMemory>
    requires { targets.old.items ≡ [] }
    ensures targets { IfOk result (λ is. is ≡ true →
        AreTargets schema.now rows.now targets.new.items) }
    ensures unknown { IfOk result (λ is. is ≡ false →
        leafrefs_resolve schema.now rows.now ≡ false) }
{
    for row in rows {
        let Some(id) = schema.find(&row.path) else {
            return Ok(false);
        };
        if let Some(scalar) = scalar_of(&row.value) {
            targets.push((id.0, scalar))?;
        }
    }
    Ok(true)
}

/// Whether the value of each row that refers to another leaf stands there.
fn each_has_target(schema: &Schema, targets: &[(u32, Scalar<'_>)], rows: &[Row]) -> bool
    requires sorted { IsSorted target_cmp targets.now }
    requires within { AreNumbered schema.now targets.now }
    ensures { result ≡ list_all (row_has_target schema.now targets.now) rows.now }
{
    for row in rows {
        if !row_has_target(schema, targets, row) {
            return false;
        }
    }
    true
}

fn row_has_target(schema: &Schema, targets: &[(u32, Scalar<'_>)], row: &Row) -> bool
    requires sorted { IsSorted target_cmp targets.now }
    requires within { AreNumbered schema.now targets.now }
    ensures { result ≡ row_has_target schema.now targets.now row.now }
{
    let Some(id) = schema.find(&row.path) else {
        return false;
    };
    match schema.node(id).reference() {
        None => true,
        Some(names) => has_target(schema, targets, &row.value, names.items()),
    }
}

/// Whether the value stands at the leaf with these names.
#[tactic(auto, using(crate::proofs::Targets::no_node, crate::proofs::Targets::no_leaf))]
fn has_target(schema: &Schema, targets: &[(u32, Scalar<'_>)], value: &Value, names: &[Text]) -> bool
    requires sorted { IsSorted target_cmp targets.now }
    requires within { AreNumbered schema.now targets.now }
    ensures { result ≡ has_target schema.now targets.now value.now names.now }
{
    schema.each_has_its_place();
    let Some(id) = schema.find_names(names) else {
        return false;
    };
    let Some(scalar) = scalar_of(value) else {
        return false;
    };
    targets.binary_search(&(id.0, scalar)).is_ok()
}
