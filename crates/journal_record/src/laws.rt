// Laws of the definitions, which hold of all entries.
ghost use Rattle.std.specs.Prelude.{◌≡◌, ℕ, List, [], ◌++◌, length};
ghost use Rattle.base_kinds.specs.declared.entry.Entry.{Entry as LogEntry};
ghost use Rattle.base_kinds.specs.Records.{record_octets};
ghost use Rattle.base_kinds.specs.worked.Samples.{hostname_entry};
ghost use Rattle.journal_record.specs.Spelling.{record_of};
ghost use Rattle.journal_record.specs.Representable.{HasRecord};
ghost use Rattle.journal_record.specs.worked.Records.{hostname_record};

/// A record is as long as the limits of a log count it.
pub fn record_length()
    ensures { (entry : LogEntry) → length (record_of entry) ≡ record_octets entry }
{}

/// No record is a proper prefix of another record: where two runs of octets that begin with records
/// are equal, the entries are, but for their numbers, and what follows them.
pub fn none_begins_another()
    ensures alike { (e f : LogEntry) (a b : List ℕ) → HasRecord e → HasRecord f
        → record_of e ++ a ≡ record_of f ++ b
        → (record e { number = f.number } ≡ f) × (a ≡ b) }
    ensures none { (e f : LogEntry) (more : List ℕ) → HasRecord e → HasRecord f
        → record_of e ++ more ≡ record_of f → more ≡ [] }
{}

/// The record of a first Set of `/system/config/hostname` to "r1" at stamp 1000 by author 1.
pub fn worked_record()
    ensures octets { record_of hostname_entry ≡ hostname_record }
    ensures len { length hostname_record ≡ 109 }
{}
