ghost use Rattle.std.specs.Prelude.{◌≡◌, ◌≢◌, ◌<◌, ◌∷◌, [], IfOk, OnOk, Err, Some};
ghost use Rattle.base_kinds.specs.Rising.{IsRising};
ghost use Rattle.base_kinds.specs.Events.{get_answer, set_answer};
ghost use Rattle.base_kinds.specs.Legal.{IsFit};
ghost use Rattle.base_kinds.specs.Limits.{AreInRange};
ghost use Rattle.base_kinds.specs.Step.{step};
ghost use Rattle.set_request.specs.Resolution.{resolved};
ghost use Rattle.book_core.specs.Views.{history_in};
ghost use Rattle.book_port.specs.Opened.{rules_in};
ghost use Rattle.script_run.specs.inner.ScriptBooks.{IsNew, IsLeft, MayStand, asked_event, asked_turn, left_by, left_by_look, looked_at, read_event};
ghost use Rattle.script_run.specs.AnswerLines.{entry_stamp};
ghost use Rattle.script_run.specs.Turns.{unless_failed};

use base_kinds::{
    Ask, Fill, Limits, MOST_ELEMENTS, NoMemory, Path, Paths, Refusal, UnresolvedSet, View,
};
use book_core::{Book, BookOpening, doubts_may_stand};
use commit_journal::Ledger;
use memory_disks::{FuseDisk, MemDisk, NO_STOP};
use plain_tree::PlainTree;
use schema_core::Schema;
use set_request::resolve;
use std::alloc::Global;

/// The book of a script, on a disk in memory that fails where a line says.
pub type ScriptBook = Book<FuseDisk, PlainTree>;

/// A book without entries, on a new disk for which nothing waits. The disk isn't armed, so it fails for want of memory alone.
pub fn new_book(alloc: Global, schema: Schema, limits: Limits) -> Result<ScriptBook, NoMemory>
    requires { AreInRange limits }
    ensures { IfOk result (IsNew schema limits) }
{
    let mut disk = FuseDisk::make(MemDisk::make(alloc), NO_STOP, Fill::Old);
    let Ok(()) = Ledger::create(alloc, &mut disk, &limits) else {
        drop(disk);
        return Err(NoMemory);
    };
    match Book::reopen(alloc, disk, PlainTree::empty(alloc), schema, 0) {
        BookOpening::Ready(book) => Ok(book),
        BookOpening::Damaged(_, _) => unreachable!(),
        BookOpening::Unfit(_) => unreachable!(),
        BookOpening::DiskFault(disk) | BookOpening::NoMemory(disk) => {
            drop(disk);
            Err(NoMemory)
        }
    }
}

/// Makes the request a turn of the book, unless it is refused by itself. The reply is the stamp of the new entry.
pub fn set(
    alloc: Global,
    book: &mut ScriptBook,
    reading: u64,
    author: u32,
    request: UnresolvedSet,
) -> Result<Result<u64, Refusal>, NoMemory>
    requires author { 0 < author }
    requires may_stand { MayStand book.old }
    ensures may_stand { MayStand book.new }
    ensures left { OnOk result (IsLeft
        (left_by (asked_event book.old reading author request) book.old) book.old book.new) }
    ensures reply { IfOk result (λ reply.
        let event = asked_event book.old reading author request in
        reply ≡ entry_stamp (unless_failed (left_by event book.old).failed
        (set_answer (rules_in book.old.opened) (history_in book.old) reading author
        (resolved book.old.opened.schema request)))) }
{
    match resolve(alloc, book.schema(), &request) {
        Ok(ask) => commit(alloc, book, reading, author, ask),
        Err(refusal) => unless_memory(refusal),
    }
}

/// Takes a turn in which this is asked.
fn commit(
    alloc: Global,
    book: &mut ScriptBook,
    reading: u64,
    author: u32,
    ask: Ask,
) -> Result<Result<u64, Refusal>, NoMemory>
    requires author { 0 < author }
    requires fit { IsFit ask }
    requires may_stand { MayStand book.old }
    ensures may_stand { MayStand book.new }
    ensures left { OnOk result (IsLeft (asked_turn book.old reading author ask) book.old book.new) }
    ensures reply { IfOk result (λ reply. reply
        ≡ entry_stamp (unless_failed (asked_turn book.old reading author ask).failed
        (step (rules_in book.old.opened) (history_in book.old) reading author ask))) }
{
    doubts_may_stand();
    let reply = book.set(alloc, reading, author, ask);
    if book.starved() {
        return Err(NoMemory);
    }
    match reply {
        Ok(stamp) => Ok(Ok(stamp)),
        Err(refusal) => unless_memory(refusal),
    }
}

/// Reads this pattern in a turn of the book, unless it is too long.
pub fn get(
    alloc: Global,
    book: &mut ScriptBook,
    reading: u64,
    author: u32,
    pattern: Path,
) -> Result<Result<View, Refusal>, NoMemory>
    requires author { 0 < author }
    requires may_stand { MayStand book.old }
    ensures may_stand { MayStand book.new }
    ensures left { OnOk result (IsLeft
        (left_by (read_event reading author pattern) book.old) book.old book.new) }
    ensures view { IfOk result (λ view.
        view ≡ unless_failed (left_by (read_event reading author pattern) book.old).failed
        (get_answer (history_in book.old) reading (pattern ∷ []))) }
{
    if pattern.len() > MOST_ELEMENTS {
        return Ok(Err(Refusal::BadPath));
    }
    let mut patterns = Paths::empty(alloc);
    patterns.push(pattern)?;
    doubts_may_stand();
    let seen = book.look(alloc, reading, author, &patterns);
    if book.starved() {
        return Err(NoMemory);
    }
    match seen {
        Ok(view) => {
            if view.rows.is_empty() {
                return Ok(Err(Refusal::NotFound));
            }
            Ok(Ok(view))
        }
        Err(refusal) => unless_memory(refusal),
    }
}

/// What these patterns cover, as a Subscribe call looks at it in a turn of the book.
pub fn look(
    alloc: Global,
    book: &mut ScriptBook,
    reading: u64,
    author: u32,
    patterns: &Paths,
) -> Result<Result<View, Refusal>, NoMemory>
    requires author { 0 < author }
    requires may_stand { MayStand book.old }
    ensures may_stand { MayStand book.new }
    ensures left { OnOk result (IsLeft (left_by_look (Some patterns.now) reading book.old)
        book.old book.new) }
    ensures view { IfOk result (λ view. view ≡ looked_at (Some patterns.now) reading book.old) }
    ensures rows { IfOk result (λ view. IfOk view (λ seen. IsRising seen.rows)) }
{
    doubts_may_stand();
    let seen = book.look(alloc, reading, author, patterns);
    if book.starved() {
        return Err(NoMemory);
    }
    match seen {
        Ok(view) => Ok(Ok(view)),
        Err(refusal) => unless_memory(refusal),
    }
}

/// The reply to what is refused, but for want of memory.
fn unless_memory<T>(refusal: Refusal) -> Result<Result<T, Refusal>, NoMemory>
    ensures reply { IfOk result (λ reply. reply ≡ Err refusal) }
    ensures no_memory { OnOk result (refusal ≢ Refusal.NoMemory) }
{
    if refusal.is_memory() {
        return Err(NoMemory);
    }
    Ok(Err(refusal))
}
