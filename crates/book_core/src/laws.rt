// Laws of the definitions, each as the contract of a function that does nothing.
ghost use Rattle.std.specs.Prelude.{ℕ};
ghost use Rattle.base_kinds.specs.declared.entry.View.{View};
ghost use Rattle.book_core.specs.laws.ClosingLaws.{AnsweredLeaveRoom, EndingsAreAccepted, EndingsAreAnswered, LooksExpire, OpeningsLeaveRoom, SetsExpire};
ghost use Rattle.book_core.specs.laws.DoubtLaws.{SetStagesAreRuns, LookStagesAreRuns, DoubtIsRun};
ghost use Rattle.book_core.specs.laws.OpeningLaws.{BooksReopenAgain, CallsReopenAgain, OpeningsLeave, OpeningsReopen};
ghost use Rattle.book_core.specs.laws.ReopeningLaws.{RunsCanReopen, SoundCanReopen, JournalsReopen, BooksReopen, CallsReopen};

use base_kinds::TreeLike;
use disk_model::Disk;

/// What a call of a book goes through, and what it leaves in doubt, may stand.
pub fn doubts_may_stand()
    ensures set { SetStagesAreRuns }
    ensures look { LookStagesAreRuns }
    ensures doubt { DoubtIsRun }
{}

/// What a stop leaves of a book's disk is never found damaged or unfit, and no trial outlives it.
pub fn books_reopen<D: Disk, T: TreeLike>()
    ensures runs { RunsCanReopen }
    ensures sound { SoundCanReopen }
    ensures journals { JournalsReopen T D.told D.faults D.fuse }
    ensures books { BooksReopen T D.told D.faults D.fuse }
    ensures calls { CallsReopen T D.told D.faults D.fuse }
{}

/// What a stop leaves at any moment of an opening is opened as what was there before it, however often that stops, and no trial
/// outlives it.
pub fn openings_reopen<D: Disk, T: TreeLike>()
    ensures leave { OpeningsLeave T D.told D.faults D.fuse }
    ensures openings { OpeningsReopen T D.told D.faults D.fuse }
    ensures books { BooksReopenAgain T D.told D.faults D.fuse }
    ensures calls { CallsReopenAgain T D.told D.faults D.fuse }
{}

/// An ask that ends the open trial before its deadline, and the event of the clock that ends it there, never want memory behind a
/// call that was refused neither for that nor for the disk.
pub fn endings_want_no_memory()
    ensures opened { OpeningsLeaveRoom }
    ensures after_sets { AnsweredLeaveRoom ℕ }
    ensures after_looks { AnsweredLeaveRoom View }
    ensures accepted { EndingsAreAccepted }
    ensures answered { EndingsAreAnswered }
    ensures sets { SetsExpire }
    ensures looks { LooksExpire }
{}
