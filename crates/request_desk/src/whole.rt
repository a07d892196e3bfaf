// Which paths are those of one node, whose value is written whole.
ghost use Rattle.std.specs.Prelude.{◌≡◌, not, codes};
ghost use Rattle.std.specs.List.{list_all};
ghost use Rattle.std.specs.Str.{bytes_eq};
ghost use Rattle.json_text.specs.laws.ValidTrees.{is_plain_elem};
ghost use Rattle.request_desk.specs.Notes.{is_of_one};

use base_kinds::Elem;
use base_lists::Text;
use schema_core::{Schema, steps_have_nodes};

fn are_plain_keys(keys: &[(Text, Text)]) -> bool
    ensures { result ≡ list_all (λ key. not (bytes_eq key.1 (codes "*"))) keys.now }
{
    keys.iter().all(|key| !(key.1.octets() == b"*".as_slice()))
}

/// Whether the element has no wildcard.
fn is_plain_elem(elem: &Elem) -> bool
    ensures { result ≡ is_plain_elem elem.now }
{
    let name = elem.name.octets();
    !(name == b"*".as_slice()) && !(name == b"...".as_slice()) && are_plain_keys(elem.keys.items())
}

fn are_plain(path: &[Elem]) -> bool
    ensures { result ≡ list_all is_plain_elem path.now }
{
    path.iter().all(|elem| is_plain_elem(elem))
}

/// Whether the path is that of one node, of one entry, or the root.
pub(crate) fn is_of_one(schema: &Schema, path: &[Elem]) -> bool
    ensures { result ≡ is_of_one schema.now path.now }
{
    are_plain(path) && steps_have_nodes(schema, path)
}
