//! Laws of records, which hold for every caller.
ghost use Rattle.std.specs.Prelude.{◌≡◌, ◌<◌, ℕ as Number, List, ◌∷◌, ◌++◌, length};
ghost use Rattle.std.specs.List.{AllByRecursion};
ghost use Rattle.h2_send.specs.Port.{GoesOn};
ghost use Rattle.h2_send.specs.declared.condition.Condition.TheVariants as Condition;
ghost use Rattle.shared_wire.specs.Entries.{Entry, HasRoom, entries_of, spelling};
ghost use Rattle.turn_lock.specs.Chronicles.{entries_by};
ghost use Rattle.shared_wire.specs.Records.{AreRecords, WireRecord, left_in, record_author};
ghost use Rattle.shared_wire.specs.Visits.{HasJustMade, OthersWentOn, TakesTurn, VisitEnd, VisitView, given_in, others_of, records_of_others};

/// Where records stand behind others, the wire has gone on from these as the ports of others let it.
pub fn ports_of_records()
    ensures { (first : WireRecord) (seen more : List WireRecord) → AreRecords (first ∷ seen ++ more)
        → GoesOn (left_in (first ∷ seen)) (left_in (first ∷ seen ++ more)) }
{}

/// The last record tells of a write fault only where the sink's count of faults has risen since the wire was put behind its lock.
/// (No record stands behind it: `Follow`.)
pub fn write_faults_of_records()
    ensures { (first : WireRecord) (more : List WireRecord) → AreRecords (first ∷ more)
        → (left_in (first ∷ more)).condition ≡ Condition.WriteFault
        → first.left.output.faults < (left_in (first ∷ more)).output.faults }
{}

/// Where records have just what a port made they have nothing else of its author.
pub fn all_of_a_port()
    ensures { (rs : List WireRecord) (visit : VisitEnd) → HasJustMade rs visit
        → entries_by record_author visit.author rs ≡ visit.made }
{}

/// What others did grows by what a turn finds that they added, and by nothing else,
pub fn others_in_turns()
    ensures turn { (old new : VisitView) (found added : List WireRecord)
        → (turn : TakesTurn old found added new)
        → others_of new ≡ others_of old ++ given_in turn.begins.others }
    // and so it does where more records are found in any other way.
    ensures later { (author : Number) (seen found : List WireRecord)
        → AreRecords seen → AreRecords found → (went_on : OthersWentOn author seen found)
        → given_in (records_of_others author found)
        ≡ given_in (records_of_others author seen) ++ given_in went_on.others }
{}

/// A record has room in 64 octets: in 51, to be exact,
pub fn records_in_octets()
    ensures size { (e : Entry) → length (spelling e) ≡ 51 }
    // of which none of its parts is lost that has room there,
    ensures whole { (e other : Entry) → HasRoom e → HasRoom other
        → spelling e ≡ spelling other → e ≡ other }
    // as all of each record of a wire have.
    ensures room { (rs : List WireRecord) → AreRecords rs
        → AllByRecursion HasRoom (entries_of rs) }
{}
