// The children that the members of an object name.
ghost use Rattle.std.specs.Prelude.{◌≡◌, ◌<◌, ◌++◌, ◌∷◌, [], Ok, Err, Some, length, slice_get, IfOk, IfErr, IfSome, not};
ghost use Rattle.std.specs.Option.{option_copied, option_map, option_and_then, ForSome};
ghost use Rattle.schema_core.specs.Nodes.{names_at, names_above};
ghost use Rattle.json_rows.specs.Members.{module_in, name_in, is_of_module, child_named, fresh_child};

use crate::fault::RowsFault;
use base_kinds::Texts;
use plain_texts::has_text;
use schema_core::{Node, NodeId, Schema};

/// A member's name: perhaps that of a module, and the child's own.
#[derive(Clone, Copy)]
pub(crate) struct Spelling<'a> {
    pub(crate) module_name: Option<&'a str>,
    pub(crate) name: &'a str,
}

#[tactic(auto, using(std::proofs::lemmas::Str::Pattern::split_once_first))]
pub(crate) fn spelling_of(text: &str) -> Spelling<'_>
    ensures module_name { option_copied result.module_name ≡ module_in text.now }
    ensures name { result.name.now ≡ name_in text.now }
{
    match text.split_once(':') {
        None => Spelling {
            module_name: None,
            name: text,
        },
        Some((module_name, name)) => Spelling {
            module_name: Some(module_name),
            name,
        },
    }
}

fn is_of_module(module_name: Option<&str>, node: &Node) -> bool
    ensures { result ≡ is_of_module (option_copied module_name.entry) node.now }
{
    match module_name {
        None => true,
        Some(module_name) => module_name.as_bytes() == node.module_name().octets(),
    }
}

/// The child that a member with this name names.
fn child_named(schema: &Schema, parent: Option<NodeId>, text: &str) -> Option<NodeId>
    requires { ForSome parent (λ id. id.0 < length schema.now) }
    ensures node { child_named schema.now (names_above schema.now parent) text.now ≡ option_and_then
        (λ id. slice_get schema.now id.0) result }
    ensures within { IfSome result (λ id. id.0 < length schema.now) }
    ensures named { IfSome result (λ id. names_at schema.now id.0 ≡ names_above schema.now parent
        ++ name_in text.now ∷ []) }
{
    let spelling = spelling_of(text);
    let id = schema.child_of(parent, spelling.name.as_bytes())?;
    if is_of_module(spelling.module_name, schema.node(id)) {
        Some(id)
    } else {
        None
    }
}

/// The child that a member names, where no member before it in the object named the same.
pub(crate) fn fresh_child(
    schema: &Schema,
    parent: Option<NodeId>,
    seen: &Texts,
    text: &str,
) -> Result<NodeId, RowsFault>
    requires { ForSome parent (λ id. id.0 < length schema.now) }
    ensures ok { IfOk result (λ id. IfSome (slice_get schema.now id.0)
        (λ child. fresh_child schema.now (names_above schema.now parent) seen.now text.now
        ≡ Ok child)) }
    ensures within { IfOk result (λ id. id.0 < length schema.now) }
    ensures named { IfOk result (λ id. names_at schema.now id.0 ≡ names_above schema.now parent
        ++ name_in text.now ∷ []) }
    ensures fault { IfErr result (λ fault. fresh_child schema.now (names_above schema.now parent)
        seen.now text.now ≡ Err fault) }
{
    let Some(id) = child_named(schema, parent, text) else {
        return Err(RowsFault::NotInSchema);
    };
    if has_text(spelling_of(text).name.as_bytes(), seen.items()) {
        return Err(RowsFault::BadValue);
    }
    Ok(id)
}
