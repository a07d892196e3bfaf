//! How values are written, by gnmi.proto's numbers.
ghost use Rattle.std.specs.Prelude.{◌≡◌};
ghost use Rattle.gnmi_data_msg.specs.Encodings.{encoding_of};

use gnmi_kinds::Encoding;

pub const ENCODING_JSON: u32 = 0;

pub const ENCODING_PROTO: u32 = 2;

pub const ENCODING_JSON_IETF: u32 = 4;

/// The encoding with this number (gNMI 2.3); Other for those that aren't written here.
pub fn encoding_of(number: u32) -> Encoding
    ensures { result ≡ encoding_of number }
{
    if number == ENCODING_JSON {
        Encoding::Json
    } else if number == ENCODING_PROTO {
        Encoding::Proto
    } else if number == ENCODING_JSON_IETF {
        Encoding::JsonIetf
    } else {
        Encoding::Other
    }
}
