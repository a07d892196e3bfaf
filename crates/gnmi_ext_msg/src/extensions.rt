//! Which extensions a request has.
ghost use Rattle.std.specs.Prelude.{◌≡◌};
ghost use Rattle.std.specs.List.{list_any};
ghost use Rattle.gnmi_ext_msg.specs.Extensions.{is_other};

use crate::extension::Extension;

fn is_other(extension: &Extension) -> bool
    ensures { result ≡ is_other extension.now }
{
    matches!(extension, Extension::Other)
}

/// Whether one of them is other than a commit. Takes no memory.
pub fn are_other(extensions: &[Extension]) -> bool
    ensures { result ≡ list_any is_other extensions.now }
{
    extensions.iter().any(|extension| is_other(extension))
}
