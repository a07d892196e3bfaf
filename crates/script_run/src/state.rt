ghost use Rattle.std.specs.Prelude.{◌≡◌, ◌<◌, IfOk, OnOk, Some, option_map};
ghost use Rattle.base_kinds.specs.Limits.{AreInRange};
ghost use Rattle.script_run.specs.inner.ScriptBooks.{state_after_set};
ghost use Rattle.script_run.specs.ScriptStates.{new_state, HasFitAuthor, set_event, state_after};
ghost use Rattle.script_run.specs.AnswerLines.{event_reply};
ghost use Rattle.script_run.specs.inner.Replies.{Acts, line_of_opening, reply_at, reply_of};
ghost use Rattle.script_text.specs.declared.line.Line.TheVariants.{Turn as LineTurn, Poll as LinePoll};

use crate::answer_lines::{Reply, put_reply};
use crate::book::{ScriptBook, get, new_book, set};
use crate::calls::NamedCall;
use crate::pending::Pending;
use crate::reopening::restart;
use crate::subscribing::{Opening, end, open, poll, turn};
use base_kinds::{Action, Bytes, Entries, Limits, NoMemory, Seq, SubLines, Text};
use book_core::BookEnd;
use schema_core::Schema;
use script_text::Line;
use std::alloc::Global;
use std::marker::Model;

/// A script's state between two lines.
#[derive(Drop)]
pub struct ScriptState {
    book: ScriptBook,
    reading: u64,
    pending: Pending,
    subs: SubLines,
    calls: Vec<NamedCall>,
}

impl Model for ScriptState {
    ghost use Rattle.std.specs.Coded.{codes};
    ghost use Rattle.base_kinds.specs.contracts.value.Value as value;
    ghost use Rattle.book_core.specs.Views.{history_in};
    ghost use Rattle.script_run.specs.ScriptStates.{ScriptState as StateSeen};
    ghost use Rattle.script_run.specs.inner.ScriptBooks.{MayStand};

    ghost Value = { StateSeen };

    ghost coded = { Prim.hlevel (codes, value.the_row.coded) };

    ghost view = { λ s. record {
      schema = s.book.opened.schema;
      limits = s.book.opened.limits;
      reading = s.reading;
      pending = s.pending;
      subs = s.subs;
      calls = s.calls.items;
      history = history_in s.book;
      doubt = s.book.doubt;
      arming = s.book.disk.arming;
    } };

    ghost invariant = { λ s. MayStand s.book };
}

impl ScriptState {
    pub fn new(alloc: Global, schema: Schema, limits: Limits) -> Result<ScriptState, NoMemory>
        requires { AreInRange limits }
        ensures { IfOk result (λ state. state ≡ new_state schema limits) }
    {
        match new_book(alloc, schema, limits) {
            Ok(book) => Ok(ScriptState {
                book,
                reading: 0,
                pending: Pending::nothing(alloc),
                subs: Seq::empty(alloc),
                calls: Vec::new(alloc),
            }),
            Err(NoMemory) => Err(NoMemory),
        }
    }

    /// The history alone.
    pub fn into_entries(self) -> Entries
        ensures { result ≡ self.history }
    {
        let ScriptState {
            book,
            reading: _,
            pending,
            subs,
            calls,
        } = self;
        drop(pending);
        drop(subs);
        drop(calls);
        let BookEnd { disk, entries } = book.end();
        drop(disk);
        entries
    }

    /// Takes the next line, and adds what is printed at it. The answer is whether the script goes on, and it does unless no
    /// book could be opened behind a stop. After want of memory let the state go.
    pub fn act(&mut self, alloc: Global, line: Line, out: &mut Bytes) -> Result<bool, NoMemory>
        requires author { HasFitAuthor line }
        ensures { IfOk result (Acts line self.old self.new out.old out.new) }
    {
        let reply = self.take(alloc, line)?;
        if self.book.stopped() {
            drop(reply);
            drop(std::mem::replace(&mut self.calls, Vec::new(alloc)));
            return restart(alloc, &mut self.book, self.reading, out);
        }
        put_reply(alloc, reply, out)?;
        Ok(true)
    }

    /// Takes the next line's turn, and answers what it is answered.
    #[tactic(auto, unfolding(crate::specs::ScriptStates::state_after))]
    fn take(&mut self, alloc: Global, line: Line) -> Result<Option<Reply>, NoMemory>
        requires author { HasFitAuthor line }
        ensures state { OnOk result (self.new ≡ state_after line self.old) }
        ensures reply { IfOk result
            (λ reply. reply ≡ reply_at line self.old) }
    {
        match line {
            Line::At(reading) => {
                self.reading = reading;
                Ok(None)
            }
            Line::Add(act, path, value) => {
                self.pending.add(act, path, value)?;
                Ok(None)
            }
            Line::Set(author) => self.set(alloc, author, Action::Plain),
            Line::Trial(author, id, span) => self.set(alloc, author, Action::Trial(id, span)),
            Line::Confirm(author, id) => self.set(alloc, author, Action::Confirm(id)),
            Line::Cancel(author, id) => self.set(alloc, author, Action::Cancel(id)),
            Line::Extend(author, id, span) => self.set(alloc, author, Action::Extend(id, span)),
            Line::Get(author, pattern) => {
                let view = get(alloc, &mut self.book, self.reading, author, pattern)?;
                Ok(Some(Reply::Get(view)))
            }
            Line::Stop(calls, fill) => {
                self.book.stop_after(calls, fill)?;
                Ok(None)
            }
            Line::Fail(calls) => {
                self.book.fail_after(calls)?;
                Ok(None)
            }
            Line::Sub(sub) => {
                self.subs.push(sub)?;
                Ok(None)
            }
            Line::Open(author, name, mode, only) => {
                let asked = Opening {
                    author,
                    name,
                    mode,
                    only,
                };
                self.open(alloc, asked)
            }
            Line::Turn(name) => self.turn(alloc, name),
            Line::Poll(name) => self.poll(alloc, name),
            Line::End(name) => {
                let reply = end(&mut self.calls, &name);
                Ok(Some(Reply::Call(reply)))
            }
        }
    }

    /// Opens a call with the pending subscriptions.
    fn open(&mut self, alloc: Global, asked: Opening) -> Result<Option<Reply>, NoMemory>
        requires { 0 < asked.author }
        ensures state { OnOk result (self.new ≡ state_after (line_of_opening asked) self.old) }
        ensures reply { IfOk result (λ reply.
            reply ≡ reply_at (line_of_opening asked) self.old) }
    {
        let subs = std::mem::replace(&mut self.subs, Seq::empty(alloc));
        let (book, calls) = (&mut self.book, &mut self.calls);
        let reply = open(alloc, book, calls, self.reading, asked, subs)?;
        Ok(Some(Reply::Call(reply)))
    }

    /// Makes a turn of a stream.
    fn turn(&mut self, alloc: Global, name: Text) -> Result<Option<Reply>, NoMemory>
        ensures state { OnOk result (self.new ≡ state_after (LineTurn name) self.old) }
        ensures reply { IfOk result (λ reply. reply ≡ reply_at (LineTurn name) self.old) }
    {
        let (book, calls) = (&mut self.book, &mut self.calls);
        let reply = turn(alloc, book, calls, self.reading, name)?;
        Ok(Some(Reply::Call(reply)))
    }

    /// Polls a call.
    fn poll(&mut self, alloc: Global, name: Text) -> Result<Option<Reply>, NoMemory>
        ensures state { OnOk result (self.new ≡ state_after (LinePoll name) self.old) }
        ensures reply { IfOk result (λ reply. reply ≡ reply_at (LinePoll name) self.old) }
    {
        let (book, calls) = (&mut self.book, &mut self.calls);
        let reply = poll(alloc, book, calls, self.reading, name)?;
        Ok(Some(Reply::Call(reply)))
    }

    /// Makes the pending request a Set of this author with this action.
    fn set(&mut self, alloc: Global, author: u32, action: Action) -> Result<Option<Reply>, NoMemory>
        requires { 0 < author }
        ensures state { OnOk result
            (self.new ≡ state_after_set (set_event self.old author action) self.old) }
        ensures reply { IfOk result (λ reply. reply
            ≡ option_map reply_of
            (event_reply (Some (set_event self.old author action)) self.old)) }
    {
        let pending = std::mem::replace(&mut self.pending, Pending::nothing(alloc));
        let request = pending.into_set(alloc, action)?;
        let reply = set(alloc, &mut self.book, self.reading, author, request)?;
        Ok(Some(Reply::Set(reply)))
    }
}
