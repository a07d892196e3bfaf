ghost use Rattle.std.specs.Prelude.{◌≡◌};
ghost use Rattle.generated_sets.specs.Schemas.{schema_text};

const TEXT: &[u8] =
    b"module openconfig-system\ncontainer /system\ncontainer /system/config\nleaf /system/config/hostname string\nleaf /system/config/motd string\nmodule openconfig-interfaces\ncontainer /interfaces\nlist /interfaces/interface name\nleaf /interfaces/interface/name string\ncontainer /interfaces/interface/config\nleaf /interfaces/interface/config/mtu uint16\nleaf /interfaces/interface/config/description string\nleaf /interfaces/interface/config/enabled bool\nmodule lab\ncontainer /lab\nleaf /lab/big uint64\nleaf /lab/rate dec2\nleaf /lab/blob binary\nleaf-list /lab/tags string\nleaf /lab/via string ref /interfaces/interface/name\n";

/// The text of a schema in which the Sets are valid (docs/FORMATS.md has its form).
pub fn schema_text() -> &'static [u8]
    ensures { result.now ≡ schema_text }
{
    TEXT
}
