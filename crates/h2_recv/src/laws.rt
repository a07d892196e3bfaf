//! Laws of the definitions, which hold for every caller.
ghost use Rattle.std.specs.Prelude.{◌≡◌, ℕ, List, [], ◌∷◌, ◌++◌};
ghost use Rattle.h2_frame.specs.Frames.{IsPart};
ghost use Rattle.h2_events.specs.Events.{largest_frame};
ghost use Rattle.h2_streams.specs.Calls.{Moment, ended, causes_of};
ghost use Rattle.h2_recv.specs.declared.reader.Reader.{Reader as Reading};
ghost use Rattle.h2_recv.specs.Receiving.{Reads, Faults, Astray, Stops, ReadsWithEnds, FaultsWithEnds, ends_of, new_reader, reader_ended};

/// What comes in two pieces is what comes in one.
pub fn pieces_join()
    ensures read { (old middle new : Reading) (x y : List ℕ) (one two : List Moment)
        → Reads old x one middle → Reads middle y two new → Reads old (x ++ y) (one ++ two) new }
    ensures fault { (old middle : Reading) (x y : List ℕ) (one two : List Moment) (code : ℕ)
        → Reads old x one middle → Faults middle y two code
        → Faults old (x ++ y) (one ++ two) code }
    ensures astray { (old middle : Reading) (x y : List ℕ) (one two : List Moment) (code : ℕ)
        → IsPart largest_frame old.rest → Reads old x one middle → Astray middle y two code
        → Astray old (x ++ y) (one ++ two) code }
    ensures stops { (old middle : Reading) (x y : List ℕ) (one two : List Moment)
        → Reads old x one middle → Stops middle y two → Stops old (x ++ y) (one ++ two) }
    // A fault in the first piece is one of both.
    ensures earlier_fault { (old : Reading) (x y : List ℕ) (moments : List Moment) (code : ℕ)
        → IsPart largest_frame old.rest → Faults old x moments code
        → Faults old (x ++ y) moments code }
    ensures earlier_astray { (old : Reading) (x y : List ℕ) (moments : List Moment) (code : ℕ)
        → Astray old x moments code → Astray old (x ++ y) moments code }
    ensures begins { IsPart largest_frame new_reader.rest }
{}

/// Of these one at most holds, and in one way: a piece is read, it is a fault, it departs from the preface.
pub fn one_reading()
    ensures read { (old new other : Reading) (piece : List ℕ) (one two : List Moment)
        → Reads old piece one new → Reads old piece two other → (one ≡ two) × (new ≡ other) }
    ensures fault { (old : Reading) (piece : List ℕ) (one two : List Moment) (code other : ℕ)
        → Faults old piece one code → Faults old piece two other → (one ≡ two) × (code ≡ other) }
    ensures no_fault { (old new : Reading) (piece : List ℕ) (one two : List Moment) (code : ℕ)
        → Reads old piece one new → Faults old piece two code → ⊥ }
    ensures not_astray { (old new : Reading) (piece : List ℕ) (one two : List Moment) (code : ℕ)
        → Reads old piece one new → Astray old piece two code → ⊥ }
    ensures no_other_fault { (old : Reading) (piece : List ℕ) (one two : List Moment)
        (code other : ℕ)
        → Faults old piece one code → Astray old piece two other → ⊥ }
{}

/// Pieces, and ends of streams that this side tells between them, are the frames of all octets and the ends in one order.
pub fn ends_stand_between()
    ensures read { (old new : Reading) (octets : List ℕ) (moments : List Moment)
        → Reads old octets moments new → ReadsWithEnds old octets moments new }
    ensures fault { (old : Reading) (octets : List ℕ) (moments : List Moment) (code : ℕ)
        → Faults old octets moments code → FaultsWithEnds old octets moments code }
    ensures told { (old new : Reading) (octets : List ℕ) (moments : List Moment) (stream : ℕ)
        → ReadsWithEnds old octets moments new
        → ReadsWithEnds old octets (moments ++ ended stream ∷ []) (reader_ended stream new) }
    ensures joined { (old middle new : Reading) (x y : List ℕ) (one two : List Moment)
        → ReadsWithEnds old x one middle → ReadsWithEnds middle y two new
        → ReadsWithEnds old (x ++ y) (one ++ two) new }
    ensures later_fault { (old middle : Reading) (x y : List ℕ) (one two : List Moment) (code : ℕ)
        → ReadsWithEnds old x one middle → FaultsWithEnds middle y two code
        → FaultsWithEnds old (x ++ y) (one ++ two) code }
    // The octets, and the places of the ends between the frames, decide what is made of them.
    ensures one { (old new other : Reading) (octets : List ℕ) (one two : List Moment)
        → ReadsWithEnds old octets one new → ReadsWithEnds old octets two other
        → causes_of one ≡ causes_of two → (one ≡ two) × (new ≡ other) }
{}

/// The octets, the ends and behind how many frames each end is told decide what is made of them: of these one at most holds, and in
/// one way.
pub fn one_reading_with_ends()
    ensures read { (old new other : Reading) (octets : List ℕ) (one two : List Moment)
        → ReadsWithEnds old octets one new → ReadsWithEnds old octets two other
        → ends_of one ≡ ends_of two → (one ≡ two) × (new ≡ other) }
    ensures fault { (old : Reading) (octets : List ℕ) (one two : List Moment) (code other : ℕ)
        → FaultsWithEnds old octets one code → FaultsWithEnds old octets two other
        → ends_of one ≡ ends_of two → (one ≡ two) × (code ≡ other) }
    ensures no_fault { (old new : Reading) (octets : List ℕ) (one two : List Moment) (code : ℕ)
        → ReadsWithEnds old octets one new → FaultsWithEnds old octets two code
        → ends_of one ≡ ends_of two → ⊥ }
{}
