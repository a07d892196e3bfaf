// Laws of the definitions, which hold of all octets and histories.
ghost use Rattle.std.specs.Prelude.{◌≡◌, ℕ, ◌+◌, List, [], ◌∷◌, ◌++◌, length};
ghost use Rattle.base_kinds.specs.declared.entry.Entry.{Entry as LogEntry};
ghost use Rattle.base_kinds.specs.declared.entry.Limits.{Limits as LogLimits};
ghost use Rattle.base_kinds.specs.Limits.{AreInRange};
ghost use Rattle.base_kinds.specs.Rules.{size_of};
ghost use Rattle.base_kinds.specs.worked.Samples.{hostname_entry};
ghost use Rattle.journal_record.specs.Representable.{IsRepresentable, HasRecord};
ghost use Rattle.journal_record.specs.worked.Records.{hostname_record};
ghost use Rattle.journal_format.specs.Gates.{open_gate};
ghost use Rattle.journal_format.specs.Histories.{MayFollow, IsJournalHistory};
ghost use Rattle.journal_format.specs.Journal.{header, gated_record, journal_prefix, AreRepresentable, IsJournal, IsDamaged};
ghost use Rattle.journal_format.specs.worked.Journals.{greatest};
ghost use Rattle.journal_format.specs.laws.Following.{JudgedMayFollow, ExpiryMayFollow, RestartMayFollow, GivenMayFollow, JournalsHoldLegal, JournalIsHistory, JournalIsBounded, JournalIsAhead, JournalCanClose, JournalIsBase};

/// Octets are a journal of at most one history, with at most one pair of limits.
pub fn one_history()
    ensures { (octets : List ℕ) (l m : LogLimits) (h g : List LogEntry)
        → IsJournal octets l h → IsJournal octets m g → (l ≡ m) × (h ≡ g) }
{}

/// They are damaged at one place at most, and no journal is damaged.
pub fn one_damage()
    ensures one { (octets : List ℕ) (p q : ℕ) → IsDamaged octets p → IsDamaged octets q → p ≡ q }
    ensures no_journal { (octets : List ℕ) (limits : LogLimits) (h : List LogEntry) (place : ℕ)
        → IsJournal octets limits h → IsDamaged octets place → ⊥ }
{}

/// An entry more stands behind the others, with its gate in place of theirs.
pub fn one_more()
    ensures octets { (limits : LogLimits) (h : List LogEntry) (entry : LogEntry)
        → journal_prefix limits (h ++ entry ∷ []) ≡ journal_prefix limits h ++ gated_record entry }
    ensures legal { (limits : LogLimits) (h : List LogEntry) (entry : LogEntry)
        → IsJournalHistory limits h → MayFollow limits h entry
        → IsJournalHistory limits (h ++ entry ∷ []) }
    ensures legal_before { (limits : LogLimits) (h : List LogEntry) (entry : LogEntry)
        → IsJournalHistory limits (h ++ entry ∷ [])
        → IsJournalHistory limits h × MayFollow limits h entry }
    ensures kept { (h : List LogEntry) (entry : LogEntry)
        → AreRepresentable h → IsRepresentable entry → AreRepresentable (h ++ entry ∷ []) }
    ensures has_record { (limits : LogLimits) (h : List LogEntry) (entry : LogEntry)
        → AreInRange limits → MayFollow limits h entry → IsRepresentable entry → HasRecord entry }
{}

/// What a target makes of its history may be appended to its journal: what it judges, the event of
/// the clock, and the end of a trial at a start.
pub fn made_entries_may_follow()
    ensures judged { JudgedMayFollow }
    ensures expiry { ExpiryMayFollow }
    ensures restart { RestartMayFollow }
    ensures given { GivenMayFollow }
    ensures legal { JournalsHoldLegal }
{}

/// A journal's history is one to go on from: it has what laws of steps and of replays ask of a
/// history.
pub fn journal_histories_are_sound()
    ensures history { JournalIsHistory }
    ensures bounded { JournalIsBounded }
    ensures ahead { JournalIsAhead }
    ensures can_close { JournalCanClose }
    ensures base { JournalIsBase }
{}

/// A journal is as long as the limits of a log count it: what follows its closed gate isn't
/// counted.
pub fn journal_length()
    ensures { (limits : LogLimits) (h : List LogEntry)
        → length (journal_prefix limits h) + 1 ≡ size_of h }
{}

/// A journal may be empty.
pub fn empty_journal()
    ensures octets { (limits : LogLimits) → journal_prefix limits [] ≡ header limits }
    ensures legal { (limits : LogLimits) → AreInRange limits → IsJournalHistory limits [] }
{}

/// The journal of a first Set of `/system/config/hostname` to "r1": its gates stand at 16 and 126.
pub fn worked_journal()
    ensures octets { journal_prefix greatest (hostname_entry ∷ [])
        ≡ header greatest ++ open_gate ∷ hostname_record }
    ensures first_gate { length (journal_prefix greatest []) ≡ 16 }
    ensures second_gate { length (journal_prefix greatest (hostname_entry ∷ [])) ≡ 126 }
{}
