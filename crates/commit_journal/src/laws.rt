// Laws of images that are journals of one of several histories.
ghost use Rattle.std.specs.Prelude.{◌↔◌, ℕ, List, Option};
ghost use Rattle.base_kinds.specs.declared.entry.Entry.{Entry as LogEntry};
ghost use Rattle.base_kinds.specs.declared.entry.Limits.{Limits as LogLimits};
ghost use Rattle.journal_format.specs.Journal.{IsJournal};
ghost use Rattle.commit_journal.specs.Images.{IsOneOf, IsJournalOfAny, IsJournalOr, histories_or};

/// What a call of a ledger leaves is a journal of one of two histories, or of one.
pub fn one_of_two_histories()
    ensures { (limits : LogLimits) (h : List LogEntry) (attempt : Option LogEntry) (octets : List ℕ)
        → IsJournalOr limits h attempt octets
        ↔ IsJournalOfAny limits (histories_or h attempt) octets }
{}

/// Of several histories it is one, and a journal of one of them is one of one of more of them: so
/// stretches of calls that leave journals of different histories leave journals of any of all.
pub fn one_of_more_histories()
    ensures one { (limits : LogLimits) (histories : List (List LogEntry)) (octets : List ℕ)
        → IsJournalOfAny limits histories octets
        ↔ ((h : List LogEntry) × IsOneOf histories h × IsJournal octets limits h) }
    ensures more { (limits : LogLimits) (histories others : List (List LogEntry)) (octets : List ℕ)
        → ((h : List LogEntry) → IsOneOf histories h → IsOneOf others h)
        → IsJournalOfAny limits histories octets → IsJournalOfAny limits others octets }
{}
