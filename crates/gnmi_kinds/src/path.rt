use base_kinds::{Path, Text};

/// A path as a message has it (gNMI 2.2.2).
#[derive(Drop)]
pub struct GnmiPath {
    /// The elements, in order.
    pub path: Path,
    /// Which schema the names are of; empty where none is named.
    pub origin: Text,
    /// The name of the target, which only a prefix has; empty where none is named.
    pub target: Text,
    /// The message has the deprecated field `element`, whose texts are not read.
    pub old_element: bool,
}
