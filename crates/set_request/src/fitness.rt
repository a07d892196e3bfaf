// Whether paths, values and rows may stand in an operation.
ghost use Rattle.std.specs.Prelude.{◌≡◌, not, ◌==◌, length};
ghost use Rattle.std.specs.List.{list_all, list_any};
ghost use Rattle.std.specs.Str.{bytes_eq};
ghost use Rattle.std.specs.Prelude.{codes};
ghost use Rattle.base_kinds.specs.Legal.{is_fit_elem, is_fit_path, is_fit_scalar, is_fit_value, is_fit_row};
ghost use Rattle.base_lists.specs.Rising.{rises};
ghost use Rattle.base_kinds.specs.Paths.{text_cmp, path_cmp};
ghost use Rattle.set_request.specs.Operations.{is_whole_path, are_fit_rows};
ghost use Rattle.set_request.specs.KeyLeaves.{is_wild};

use base_kinds::{Elem, MOST_ELEMENTS, MOST_FRACTION_DIGITS, MOST_KEYS, Row, Text, Value, rises};

/// Whether each element has a name, at most 65,535 keys, and keys that rise by name, and there are at most 32.
pub(crate) fn is_whole_path(path: &[Elem]) -> bool
    ensures { result ≡ is_whole_path path.now }
{
    is_fit_path(path) && all_named(path)
}

fn all_named(path: &[Elem]) -> bool
    ensures { result ≡ list_all (λ elem. not (length elem.name == 0)) path.now }
{
    path.iter().all(|elem| elem.name.octets().len() != 0)
}

/// Whether some name or key value is a wildcard.
pub(crate) fn has_wildcard(path: &[Elem]) -> bool
    ensures { result ≡ list_any is_wild path.now }
{
    path.iter().any(|elem| is_wild(elem))
}

fn is_wild(elem: &Elem) -> bool
    ensures { result ≡ is_wild elem.now }
{
    let name = elem.name.octets();
    name == b"*".as_slice() || name == b"...".as_slice() || has_wild_key(elem.keys.items())
}

fn has_wild_key(keys: &[(Text, Text)]) -> bool
    ensures { result ≡ list_any (λ key. bytes_eq key.1 (codes "*")) keys.now }
{
    keys.iter().any(|key| key.1.octets() == b"*".as_slice())
}

/// Whether the rows may stand in an operation: their paths and values are such, and they rise by path.
pub(crate) fn are_fit_rows(rows: &[Row]) -> bool
    ensures { result ≡ are_fit_rows rows.now }
{
    all_fit_rows(rows) && rises(rows)
}

fn all_fit_rows(rows: &[Row]) -> bool
    ensures { result ≡ list_all is_fit_row rows.now }
{
    rows.iter().all(|row| is_fit_row(row))
}

fn is_fit_row(row: &Row) -> bool
    ensures { result ≡ is_fit_row row.now }
{
    is_fit_path(row.path.items()) && is_fit_value(&row.value)
}

fn is_fit_path(path: &[Elem]) -> bool
    ensures { result ≡ is_fit_path path.now }
{
    path.len() <= MOST_ELEMENTS && all_fit_elems(path)
}

fn all_fit_elems(path: &[Elem]) -> bool
    ensures { result ≡ list_all is_fit_elem path.now }
{
    path.iter().all(|elem| is_fit_elem(elem))
}

fn is_fit_elem(elem: &Elem) -> bool
    ensures { result ≡ is_fit_elem elem.now }
{
    elem.keys.len() <= MOST_KEYS && rises(elem.keys.items())
}

/// Whether the value is no list, and as a decimal has 1 to 18 digits behind the point.
pub(crate) fn is_fit_scalar(value: &Value) -> bool
    ensures { result ≡ is_fit_scalar value.now }
{
    match value {
        Value::Dec(_, places) => 1 <= *places && *places <= MOST_FRACTION_DIGITS,
        Value::List(_) => false,
        _ => true,
    }
}

/// Whether no list stands inside a list, and decimals have 1 to 18 digits behind the point.
fn is_fit_value(value: &Value) -> bool
    ensures { result ≡ is_fit_value value.now }
{
    match value {
        Value::List(values) => all_fit_scalars(values.items()),
        _ => is_fit_scalar(value),
    }
}

fn all_fit_scalars(values: &[Value]) -> bool
    ensures { result ≡ list_all is_fit_scalar values.now }
{
    values.iter().all(|value| is_fit_scalar(value))
}
