// The limits of a schema that base_kinds doesn't name. They are this project's own, but for the digits behind a point (RFC 7950 9.3.4).

/// So many names at most lead from the root to a node.
pub const MOST_NAMES: usize = 32;

/// So many keys at most has a list.
pub const MOST_KEYS: usize = 8;

/// So many texts at most has an enum.
pub const MOST_ENUM_TEXTS: usize = 256;

/// So many digits at most stand behind the point of a decimal.
pub const MOST_PLACES: u32 = 18;
