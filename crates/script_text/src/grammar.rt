// A line, read word by word: a keyword, and what follows it.
ghost use Rattle.std.specs.Prelude.{IfOk, IsErrOf, List, ℕ};
ghost use Rattle.base_kinds.specs.declared.operation.Act.{Act as Doing};
ghost use Rattle.base_kinds.specs.declared.path.Elem.{Elem as PathElem};
ghost use Rattle.base_kinds.specs.declared.request.Span.{Span as Duration};
ghost use Rattle.script_text.specs.declared.keywords.Keyword.TheVariants as keywords;
ghost use Rattle.script_text.specs.declared.line.Line.{Line as ScriptLine};
ghost use Rattle.script_text.specs.Grammar.{IsChange, IsNamed, IsTimed, IsSubscription, Says, IsLine};

use crate::first_word::first;
use crate::keywords::Keyword;
use crate::line::{Line, LineFault};
use crate::words::{
    Author, CallMode, DiskFill, Flag, Id, Name, Number, PathText, Seconds, SendMode, Word,
};
use base_kinds::{Act, Bytes, MOST_SCRIPT_LINE_OCTETS, Path, Span, SubLine, SubMode, Text};
use std::alloc::Global;

/// `PATH`, what follows `delete`.
fn read_delete(alloc: Global, octets: &[u8]) -> Result<Line, LineFault>
    ensures ok { IfOk result (λ line. Says keywords.Delete octets.now line) }
    ensures no_line { IsErrOf result LineFault.NoLine →
        (line : ScriptLine) → Says keywords.Delete octets.now line → ⊥ }
{
    let path = PathText::read(alloc, octets)?;
    Ok(Line::Add(Act::Delete, path, Bytes::empty(alloc)))
}

/// `PATH VALUE`, what follows `replace` and `update`.
fn read_change(alloc: Global, act: Act, octets: &[u8]) -> Result<Line, LineFault>
    ensures ok { IfOk result (λ line. IsChange act octets.now line) }
    ensures no_line { IsErrOf result LineFault.NoLine → (line : ScriptLine) →
        IsChange act octets.now line → ⊥ }
{
    let (path, rest) = first::<PathText>(alloc, octets)?;
    let mut value = Bytes::empty(alloc);
    value.extend_from_slice(rest)?;
    Ok(Line::Add(act, path, value))
}

/// `A ID`, what follows `confirm` and `cancel`.
fn read_named(alloc: Global, octets: &[u8]) -> Result<(u32, Text), LineFault>
    ensures ok { IfOk result (λ read.
        (make : ℕ → List ℕ → ScriptLine) → IsNamed make octets.now (make read.0 read.1)) }
    ensures no_line { IsErrOf result LineFault.NoLine →
        (make : ℕ → List ℕ → ScriptLine) (line : ScriptLine) → IsNamed make octets.now line → ⊥ }
{
    let (author, rest) = first::<Author>(alloc, octets)?;
    let id = Id::read(alloc, rest)?;
    Ok((author, id))
}

/// `A ID SECONDS`, what follows `trial` and `extend`.
fn read_timed(alloc: Global, octets: &[u8]) -> Result<(u32, Text, Span), LineFault>
    ensures ok { IfOk result (λ read. (make : ℕ → List ℕ → Duration → ScriptLine) →
        IsTimed make octets.now (make read.0 read.1 read.2)) }
    ensures no_line { IsErrOf result LineFault.NoLine →
        (make : ℕ → List ℕ → Duration → ScriptLine) (line : ScriptLine) →
        IsTimed make octets.now line → ⊥ }
{
    let (author, rest) = first::<Author>(alloc, octets)?;
    let (id, seconds) = first::<Id>(alloc, rest)?;
    let span = Seconds::read(alloc, seconds)?;
    Ok((author, id, span))
}

/// `A PATH`, what follows `get`.
fn read_get(alloc: Global, octets: &[u8]) -> Result<Line, LineFault>
    ensures ok { IfOk result (λ line. Says keywords.Get octets.now line) }
    ensures no_line { IsErrOf result LineFault.NoLine →
        (line : ScriptLine) → Says keywords.Get octets.now line → ⊥ }
{
    let (author, rest) = first::<Author>(alloc, octets)?;
    let path = PathText::read(alloc, rest)?;
    Ok(Line::Get(author, path))
}

/// `HEARTBEAT`, what follows `change`.
fn read_on_change(alloc: Global, path: Path, octets: &[u8]) -> Result<Line, LineFault>
    ensures ok { IfOk result (λ line. IsSubscription path SubMode.Change octets.now line) }
    ensures no_line { IsErrOf result LineFault.NoLine →
        (line : ScriptLine) → IsSubscription path SubMode.Change octets.now line → ⊥ }
{
    let heartbeat = Number::read(alloc, octets)?;
    Ok(Line::Sub(SubLine {
        path,
        mode: SubMode::Change,
        interval: 0,
        suppress: false,
        heartbeat,
    }))
}

/// `INTERVAL HEARTBEAT SUPPRESS`, what follows `sample`.
fn read_sampled(alloc: Global, path: Path, octets: &[u8]) -> Result<Line, LineFault>
    ensures ok { IfOk result (λ line. IsSubscription path SubMode.Sample octets.now line) }
    ensures no_line { IsErrOf result LineFault.NoLine →
        (line : ScriptLine) → IsSubscription path SubMode.Sample octets.now line → ⊥ }
{
    let (interval, rest) = first::<Number>(alloc, octets)?;
    let (heartbeat, flag) = first::<Number>(alloc, rest)?;
    let suppress = Flag::read(alloc, flag)?;
    Ok(Line::Sub(SubLine {
        path,
        mode: SubMode::Sample,
        interval,
        suppress,
        heartbeat,
    }))
}

/// What follows `sub`.
fn read_sub(alloc: Global, octets: &[u8]) -> Result<Line, LineFault>
    ensures ok { IfOk result (λ line. Says keywords.Sub octets.now line) }
    ensures no_line { IsErrOf result LineFault.NoLine →
        (line : ScriptLine) → Says keywords.Sub octets.now line → ⊥ }
{
    let (path, sent) = first::<PathText>(alloc, octets)?;
    let (mode, times) = first::<SendMode>(alloc, sent)?;
    match mode {
        SubMode::Change => read_on_change(alloc, path, times),
        SubMode::Sample => read_sampled(alloc, path, times),
        SubMode::Other => Err(LineFault::NoLine),
    }
}

/// `A NAME MODE ONLY`, what follows `open`.
fn read_open(alloc: Global, octets: &[u8]) -> Result<Line, LineFault>
    ensures ok { IfOk result (λ line. Says keywords.Open octets.now line) }
    ensures no_line { IsErrOf result LineFault.NoLine →
        (line : ScriptLine) → Says keywords.Open octets.now line → ⊥ }
{
    let (author, rest) = first::<Author>(alloc, octets)?;
    let (name, rest) = first::<Name>(alloc, rest)?;
    let (mode, flag) = first::<CallMode>(alloc, rest)?;
    let only = Flag::read(alloc, flag)?;
    Ok(Line::Open(author, name, mode, only))
}

/// `K F`, what follows `stop`.
fn read_stop(alloc: Global, octets: &[u8]) -> Result<Line, LineFault>
    ensures ok { IfOk result (λ line. Says keywords.Stop octets.now line) }
    ensures no_line { IsErrOf result LineFault.NoLine →
        (line : ScriptLine) → Says keywords.Stop octets.now line → ⊥ }
{
    let (calls, rest) = first::<Number>(alloc, octets)?;
    let fill = DiskFill::read(alloc, rest)?;
    Ok(Line::Stop(calls, fill))
}

/// What follows the keyword.
fn read_said(alloc: Global, keyword: Keyword, octets: &[u8]) -> Result<Line, LineFault>
    ensures ok { IfOk result (λ line. Says keyword octets.now line) }
    ensures no_line { IsErrOf result LineFault.NoLine → (line : ScriptLine) →
        Says keyword octets.now line → ⊥ }
{
    match keyword {
        Keyword::At => Ok(Line::At(Number::read(alloc, octets)?)),
        Keyword::Delete => read_delete(alloc, octets),
        Keyword::Replace => read_change(alloc, Act::Replace, octets),
        Keyword::Update => read_change(alloc, Act::Update, octets),
        Keyword::Set => Ok(Line::Set(Author::read(alloc, octets)?)),
        Keyword::Trial => {
            let (author, id, span) = read_timed(alloc, octets)?;
            Ok(Line::Trial(author, id, span))
        }
        Keyword::Confirm => {
            let (author, id) = read_named(alloc, octets)?;
            Ok(Line::Confirm(author, id))
        }
        Keyword::Cancel => {
            let (author, id) = read_named(alloc, octets)?;
            Ok(Line::Cancel(author, id))
        }
        Keyword::Extend => {
            let (author, id, span) = read_timed(alloc, octets)?;
            Ok(Line::Extend(author, id, span))
        }
        Keyword::Get => read_get(alloc, octets),
        Keyword::Sub => read_sub(alloc, octets),
        Keyword::Open => read_open(alloc, octets),
        Keyword::Turn => Ok(Line::Turn(Name::read(alloc, octets)?)),
        Keyword::Poll => Ok(Line::Poll(Name::read(alloc, octets)?)),
        Keyword::End => Ok(Line::End(Name::read(alloc, octets)?)),
        Keyword::Stop => read_stop(alloc, octets),
        Keyword::Fail => Ok(Line::Fail(Number::read(alloc, octets)?)),
    }
}

/// The line that the octets are, without a line feed.
pub fn read_line(alloc: Global, octets: &[u8]) -> Result<Line, LineFault>
    ensures ok { IfOk result (λ line. IsLine octets.now line) }
    ensures no_line { IsErrOf result LineFault.NoLine → (line : ScriptLine) →
        IsLine octets.now line → ⊥ }
{
    if octets.len() > MOST_SCRIPT_LINE_OCTETS {
        return Err(LineFault::NoLine);
    }
    let (keyword, rest) = first::<Keyword>(alloc, octets)?;
    read_said(alloc, keyword, rest)
}
