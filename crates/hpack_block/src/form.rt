ghost use Rattle.std.specs.Prelude.{◌≡◌, true, false, slice_index};
ghost use Rattle.hpack_block.specs.Fields.{form_of};

/// What stands at a place of a block (RFC 7541, section 6).
#[derive(Clone, Copy)]
pub enum Form {
    /// A header of one of the tables.
    Indexed,
    /// A literal that is added to the dynamic table.
    WithIndexing,
    /// A change of the dynamic table's maximum size.
    SizeUpdate,
    /// A literal that is not added.
    WithoutIndexing,
    /// A literal that nobody on the way may add.
    NeverIndexed,
}

/// The octet at the front, or 0.
pub(crate) fn first_octet(octets: &[u8]) -> u8
    ensures { result ≡ slice_index octets.now 0 }
{
    match octets.first() {
        Some(octet) => *octet,
        None => 0,
    }
}

/// The form that the first octet tells.
pub(crate) fn form_of(first: u8) -> Form
    ensures { result ≡ form_of first }
{
    match first {
        0..=15 => Form::WithoutIndexing,
        16..=31 => Form::NeverIndexed,
        32..=63 => Form::SizeUpdate,
        64..=127 => Form::WithIndexing,
        128..=255 => Form::Indexed,
    }
}

/// Whether a size update stands at the front.
pub(crate) fn is_update(octets: &[u8]) -> bool
    ensures update { result ≡ true → form_of (slice_index octets.now 0) ≡ Form.SizeUpdate }
    ensures other { result ≡ false → form_of (slice_index octets.now 0) ≡ Form.SizeUpdate → ⊥ }
{
    matches!(form_of(first_octet(octets)), Form::SizeUpdate)
}
