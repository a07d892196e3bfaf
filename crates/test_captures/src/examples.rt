//! The schema and the first Set that sessions and runs are tried with.

/// A first Set of the hostname, at the reading 1000.
pub const HOSTNAME: &str = "at 1000\nupdate /system/config/hostname \"r1\"\nset 1\n";

/// What it prints.
pub const HOSTNAME_PRINTED: &str =
    "ok 1000\nlog\n1 1000 1 apply\n  update /system/config/hostname\n    /system/config/hostname \"r1\"\n";

/// A schema of three modules and 17 nodes.
pub const SCHEMA: &str = "\
module openconfig-system\n\
container /system\n\
container /system/config\n\
leaf /system/config/hostname string\n\
leaf /system/config/motd string\n\
module openconfig-interfaces\n\
container /interfaces\n\
list /interfaces/interface name\n\
leaf /interfaces/interface/name string\n\
container /interfaces/interface/config\n\
leaf /interfaces/interface/config/mtu uint16\n\
leaf /interfaces/interface/config/description string\n\
leaf /interfaces/interface/config/enabled bool\n\
module lab\n\
container /lab\n\
leaf /lab/big uint64\n\
leaf /lab/rate dec2\n\
leaf /lab/blob binary\n\
leaf-list /lab/tags string\n\
leaf /lab/via string ref /interfaces/interface/name\n\
";
