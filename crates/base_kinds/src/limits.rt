// The bounds of this project's profile. specs/Limits.antt has a definition for each, with the same name and number.
ghost use Rattle.std.specs.Prelude.{◌≡◌};
ghost use Rattle.base_kinds.specs.Legal.{is_fit_id};

use base_lists::Text;

/// The last reading of the clock that counts, in nanoseconds since 1970: 2100-01-01T00:00:00Z.
pub const LATEST_READING: u64 = 4_102_444_800_000_000_000;

/// A second in nanoseconds.
pub const SECOND: u64 = 1_000_000_000;

/// The shortest duration of a trial in nanoseconds.
pub const SHORTEST_DURATION: u64 = 1_000_000_000;

/// The longest duration of a trial in nanoseconds.
pub const LONGEST_DURATION: u64 = 86_400_000_000_000;

/// The duration of a trial in nanoseconds where the request gives none.
pub const DEFAULT_DURATION: u64 = 600_000_000_000;

/// The most elements that a path may have.
pub const MOST_ELEMENTS: usize = 32;

/// The most keys that an element may have.
pub const MOST_KEYS: usize = 65_535;

/// The most octets that a trial's id may have. It has at least one.
pub const MOST_ID_OCTETS: usize = 64;

/// The most digits that a decimal may have behind its point (RFC 7950 9.3.4). It has at least one.
pub const MOST_FRACTION_DIGITS: u8 = 18;

/// The most leaves and leaf-lists that a tree may have.
pub const MOST_LEAVES: usize = 65_536;

/// The greatest weight that a tree may have.
pub const MOST_WEIGHT: u64 = 1_900_000;

/// The octet in front of an entry's record.
pub const GATE_OCTETS: u64 = 1;

/// The octets of a record without what its kind has: the kind's number, the author and the stamp.
pub const BARE_RECORD_OCTETS: u64 = 13;

/// The octets that the entry takes that closes a trial: its gate and its record.
pub const CLOSING_OCTETS: u64 = 14;

/// The octets of a journal without entries: 16 in front, and a gate.
pub const EMPTY_LOG_OCTETS: u64 = 17;

/// The fewest entries that a commit log may be limited to, so that a trial can be closed.
pub const LEAST_LOG_ENTRIES: u32 = 2;

/// The most entries that a commit log may be limited to.
pub const MOST_LOG_ENTRIES: u32 = 65_536;

/// The fewest octets that a journal may be limited to.
pub const LEAST_LOG_OCTETS: u32 = 4_096;

/// The most octets that a journal may be limited to.
pub const MOST_LOG_OCTETS: u32 = 268_435_456;

/// The most octets that a script may have, its line feeds counted.
pub const MOST_SCRIPT_OCTETS: u32 = 67_108_864;

/// The most octets that a script's line may have, its line feed not counted.
pub const MOST_SCRIPT_LINE_OCTETS: usize = 1_048_576;

/// The most octets that the text of a schema may have.
pub const MOST_SCHEMA_OCTETS: usize = 1_048_576;

/// The most octets that a line of a schema's text may have, its line feed not counted.
pub const MOST_SCHEMA_LINE_OCTETS: usize = 1_024;

/// The most nodes that a schema may have.
pub const MOST_SCHEMA_NODES: u32 = 4_096;

/// The greatest number of entries or values that a schema may set as a maximum (RFC 7950 7.7.6).
pub const MOST_MAXIMUM: u32 = 65_536;

/// Whether a trial may have this id: it has 1 to 64 octets.
pub fn is_fit_id(id: &Text) -> bool
    ensures { result ≡ is_fit_id id.now }
{
    let length = id.octets().len();
    1 <= length && length <= MOST_ID_OCTETS
}
