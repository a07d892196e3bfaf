//! What holds of the definitions, for every caller.
ghost use Rattle.std.specs.Prelude.{All, ◌≡◌, ◌≢◌, ◌≤◌, ◌<◌, ◌+◌, ◌++◌, ℕ, List, [], ◌∷◌, length, Result, Ok, Err, Some, None, codes};
ghost use Rattle.hpack_block.specs.declared.header.Header.{Header as HeaderValue};
ghost use Rattle.hpack_block.specs.declared.header.BlockFault.{BlockFault as Fault};
ghost use Rattle.hpack_block.specs.declared.header.BlockFault.TheVariants.{Bad, TooLong, NoMemory as OutOfMemory};
ghost use Rattle.hpack_block.specs.declared.header.Ended.TheVariants as Ended;
ghost use Rattle.hpack_block.specs.StaticTable.{pair, static_table};
ghost use Rattle.hpack_block.specs.Tables.{Table, with_entry, entry_at, fitting_entries, with_maximum, size_of, size_of_all, empty_table, largest_table};
ghost use Rattle.hpack_block.specs.Block.{Block};
ghost use Rattle.hpack_block.specs.Written.{block_of, update_of, IsShort};
ghost use Rattle.hpack_block.specs.Answers.{State, Answers, IsBad, largest_list};

/// With a table a block gives one list of headers at most, and leaves one table.
pub fn one_reading()
    ensures { (octets : List ℕ) (table : Table) (headers others : List HeaderValue)
        (last other : Table) → Block octets table headers last
        → Block octets table others other → (headers ≡ others) × (last ≡ other) }
{}

/// Each answer of a decoder comes wherever what it says holds, unless memory runs out.
pub fn answered_exactly()
    ensures read { (table : Table) (octets : List ℕ) (result : Result (List HeaderValue) Fault)
        (new : State) (headers : List HeaderValue) (last : Table)
        → Answers (Ok table) octets result new → result ≢ Err OutOfMemory
        → Block octets table headers last → size_of_all headers ≤ largest_list
        → (result ≡ Ok headers) × (new ≡ Ok last) }
    ensures too_long { (table : Table) (octets : List ℕ)
        (result : Result (List HeaderValue) Fault) (new : State) (headers : List HeaderValue)
        (last : Table) → Answers (Ok table) octets result new → result ≢ Err OutOfMemory
        → Block octets table headers last → largest_list < size_of_all headers
        → (result ≡ Err TooLong) × (new ≡ Ok last) }
    ensures bad { (table : Table) (octets : List ℕ) (result : Result (List HeaderValue) Fault)
        (new : State)
        → Answers (Ok table) octets result new → result ≢ Err OutOfMemory → IsBad table octets
        → (result ≡ Err Bad) × (new ≡ Err Ended.Bad) }
{}

/// What is written, a decoder reads back as the same headers, whatever its table, and keeps that.
pub fn read_back()
    ensures { (table : Table) (headers : List HeaderValue)
        (result : Result (List HeaderValue) Fault)
        (new : State) → All IsShort headers → size_of_all headers ≤ largest_list
        → Answers (Ok table) (block_of headers) result new → result ≢ Err OutOfMemory
        → (result ≡ Ok headers) × (new ≡ Ok table) }
{}

/// With an update of the table's maximum size in front it is a block that gives the same headers, and the table has that
/// size afterwards (RFC 7541 section 6.3).
pub fn after_an_update()
    ensures is_block { (table : Table) (size : ℕ) (headers : List HeaderValue) → All IsShort headers
        → size ≤ largest_table
        → Block (update_of size ++ block_of headers) table headers (with_maximum size table) }
    ensures read_back { (table : Table) (size : ℕ) (headers : List HeaderValue)
        (result : Result (List HeaderValue) Fault) (new : State) → All IsShort headers
        → size ≤ largest_table → size_of_all headers ≤ largest_list
        → Answers (Ok table) (update_of size ++ block_of headers) result new
        → result ≢ Err OutOfMemory
        → (result ≡ Ok headers) × (new ≡ Ok (with_maximum size table)) }
    ensures to_zero { update_of 0 ≡ 0x20 ∷ [] }
    ensures to_the_largest { update_of largest_table ≡ 0x3f ∷ 0xe1 ∷ 0x1f ∷ [] }
{}

/// A front of the entries is kept that has room, and the next entry has none.
pub fn kept_entries()
    ensures room { (room : ℕ) (entries : List HeaderValue)
        → size_of_all (fitting_entries room entries) ≤ room }
    ensures all { (room : ℕ) (entries : List HeaderValue) → size_of_all entries ≤ room
        → fitting_entries room entries ≡ entries }
    ensures oldest { (room : ℕ) (entries : List HeaderValue) (oldest : HeaderValue)
        → room < size_of_all (entries ++ oldest ∷ [])
        → fitting_entries room (entries ++ oldest ∷ []) ≡ fitting_entries room entries }
{}

/// The tables at worked places.
pub fn worked_tables()
    ensures length { length static_table ≡ 61 }
    ensures first { entry_at empty_table 1 ≡ Some (pair (codes ":authority") []) }
    ensures last { entry_at empty_table 61 ≡ Some (pair (codes "www-authenticate") []) }
    ensures past { entry_at empty_table 62 ≡ None }
    ensures zero { entry_at empty_table 0 ≡ None }
    // RFC 7541, appendix C.2.1.
    ensures size { size_of (pair (codes "custom-key") (codes "custom-header")) ≡ 55 }
    ensures newest { entry_at
        (with_entry (pair (codes "b") []) (with_entry (pair (codes "a") []) empty_table)) 62
        ≡ Some (pair (codes "b") []) }
    ensures oldest { entry_at
        (with_entry (pair (codes "b") []) (with_entry (pair (codes "a") []) empty_table)) 63
        ≡ Some (pair (codes "a") []) }
    ensures evicted { with_entry (pair (codes "b") [])
        (with_maximum 65 (with_entry (pair (codes "a") []) empty_table))
        ≡ record { entries = pair (codes "b") [] ∷ []; maximum = 65 } }
    ensures larger { with_entry (pair (codes "bb") [])
        (with_maximum 33 (with_entry (pair (codes "a") []) empty_table))
        ≡ record { entries = []; maximum = 33 } }
{}

/// Headers as they are written.
pub fn worked_blocks()
    // An entry of the static table.
    ensures indexed { block_of (pair (codes ":status") (codes "200") ∷ []) ≡ 0x88 ∷ [] }
    // A name of it: index 8 with a value of three octets.
    ensures named { block_of (pair (codes ":status") (codes "415") ∷ [])
        ≡ 0x08 ∷ 0x03 ∷ codes "415" }
    // Its index 31 does not fit 4 bits.
    ensures far { block_of (pair (codes "content-type") (codes "a") ∷ [])
        ≡ 0x0f ∷ 0x10 ∷ 0x01 ∷ 0x61 ∷ [] }
    ensures new { block_of (pair (codes "a") (codes "b") ∷ [])
        ≡ 0x00 ∷ 0x01 ∷ 0x61 ∷ 0x01 ∷ 0x62 ∷ [] }
{}
